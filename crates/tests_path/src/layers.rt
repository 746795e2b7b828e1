//! Public calls that the runs of the program don't reach, devices that don't fail, adapters, and
//! printed texts.

use ms_classfile::thin_files_are_read;
use ms_command::{CommandRefusal, Reply, end_text, write_reply};
use ms_jvm::{entered_runs_have_ends, thin_methods_end};
use ms_memoise::{MOST_INPUT, Status, memoise};
use ms_outside::{
    Fetch, FolderShelf, Shelf, Shelved, StdSink, StdSource, SureShelf, SureSink, SureSource,
};
use ms_pool::Short;
use ms_session::{
    least_inputs_come_first, once_answers_every_file, path_list_is_unique, reports_list_each_path,
    trees_are_in_choice_order,
};
use ms_words::{Ended, Footprint, Item, Name, PathEnd, Thrown, thrown_named};
use std::alloc::{AllocError, Global};
use std::test::Fail;
use tests_devices::ADDS;

/// The throwables that the machine knows, each with its parent.
static TREE: [(&str, &str); 12] = [
    ("java/lang/Throwable", ""),
    ("java/lang/Exception", "java/lang/Throwable"),
    ("java/lang/Error", "java/lang/Throwable"),
    ("java/lang/RuntimeException", "java/lang/Exception"),
    (
        "java/lang/ArithmeticException",
        "java/lang/RuntimeException",
    ),
    (
        "java/lang/IndexOutOfBoundsException",
        "java/lang/RuntimeException",
    ),
    (
        "java/lang/NegativeArraySizeException",
        "java/lang/RuntimeException",
    ),
    (
        "java/lang/NullPointerException",
        "java/lang/RuntimeException",
    ),
    (
        "java/lang/IllegalArgumentException",
        "java/lang/RuntimeException",
    ),
    (
        "java/lang/IllegalStateException",
        "java/lang/RuntimeException",
    ),
    (
        "java/lang/UnsupportedOperationException",
        "java/lang/RuntimeException",
    ),
    (
        "java/lang/ArrayIndexOutOfBoundsException",
        "java/lang/IndexOutOfBoundsException",
    ),
];

/// The name of the parent of the throwable of this name, empty where it has none.
fn parent_of(name: &str) -> Option<&'static [u8]> {
    match thrown_named(name.as_bytes())?.parent() {
        Some(above) => Some(above.class_name()),
        None => Some(b""),
    }
}

#[test]
fn throwables_have_their_parents(rt: HostRuntime) {
    for (name, parent) in &TREE {
        assert_eq!(rt; parent_of(name), Some(parent.as_bytes()), "at {name}");
    }
    assert_eq!(rt; parent_of("java/lang/Object"), None);
}

#[test]
fn laws_do_nothing(_rt: HostRuntime) {
    thin_files_are_read();
    thin_methods_end();
    least_inputs_come_first();
    reports_list_each_path();
    path_list_is_unique();
    trees_are_in_choice_order();
    entered_runs_have_ends();
    once_answers_every_file();
}

#[test]
fn faults_are_printed(rt: HostRuntime) -> Result<(), Fail> {
    let short = Short { at: 7 };
    let command = CommandRefusal::Command;
    let memory = CommandRefusal::NoMemory;
    let text = format!(in rt.alloc(); "{short}; {command}; {memory}")?;
    assert_eq!(rt;
        text.as_str(),
        "the bytes end within what begins at 7; no form of a command fits the line; memory ran out"
    );
    let line = CommandRefusal::Line;
    let range = CommandRefusal::Range;
    let text = format!(in rt.alloc(); "{line}; {range}")?;
    assert_eq!(rt;
        text.as_str(),
        "the line has more than 4,096 bytes or one outside 0x20 to 0x7E; a number is outside its range"
    );
    Ok(())
}

#[test]
fn a_strange_name_is_printed(rt: HostRuntime) -> Result<(), Fail> {
    let file = Name::of(rt.alloc(), b"a\\b !~\x00\x1f\x7f\xff")?;
    let mut text = write_reply(rt.alloc(), &Reply::Absent { file })?;
    let file = Name::of(rt.alloc(), b"\xff b")?;
    let more = write_reply(rt.alloc(), &Reply::TooLong { file })?;
    text.extend_from_slice(more.as_slice())?;
    let want =
        b"refused 3 Absent a\\x5cb\\x20!~\\x00\\x1f\\x7f\\xff\nrefused 4 TooLong \\xff\\x20b\n";
    assert_eq!(rt; text.as_slice(), want.as_slice());
    Ok(())
}

/// Copies of these ends as they are printed, each in a line.
fn printed_ends(alloc: Global, names: &[Name], ends: &[PathEnd]) -> Result<Vec<u8>, AllocError> {
    let mut text = Vec::new(alloc);
    for end in ends {
        let again = end.copy(alloc)?;
        let printed = end_text(alloc, names, &again)?;
        text.extend_from_slice(printed.bytes())?;
        text.push(b'\n')?;
    }
    Ok(text)
}

/// What `printed_ends` gives: by hand, from the forms of the ends.
const PRINTED: &[u8] = b"returns -7
returns void
throws java/lang/ArrayIndexOutOfBoundsException
initfailed T
initfailed U\\x20\\xff
initfailed 
missing B.f\\x5c(I)I
runaway
deep
symlength
heapfull
cut
";

#[test]
fn ends_are_printed(rt: HostRuntime) -> Result<(), Fail> {
    let missing = Name::of(rt.alloc(), b"B.f\\(I)I")?;
    let names = [
        Name::of(rt.alloc(), b"T")?,
        Name::of(rt.alloc(), b"U \xff")?,
    ];
    let ends = [
        PathEnd::Ended(Ended::Returned(-7)),
        PathEnd::Ended(Ended::ReturnedVoid),
        PathEnd::Ended(Ended::Threw(Thrown::ArrayIndexOutOfBounds)),
        PathEnd::Ended(Ended::InitFailed(0)),
        PathEnd::Ended(Ended::InitFailed(1)),
        PathEnd::Ended(Ended::InitFailed(2)),
        PathEnd::Ended(Ended::Missing(missing)),
        PathEnd::Ended(Ended::Runaway),
        PathEnd::Ended(Ended::Deep),
        PathEnd::Ended(Ended::SymLength),
        PathEnd::Ended(Ended::HeapFull),
        PathEnd::Cut,
    ];
    let text = printed_ends(rt.alloc(), &names, &ends)?;
    assert_eq!(rt; text.as_slice(), PRINTED);
    Ok(())
}

#[test]
fn refusals_of_methods_are_printed(rt: HostRuntime) -> Result<(), Fail> {
    let kind = Name::of(rt.alloc(), b"FallOff")?;
    let method = Name::of(rt.alloc(), b"f (I)I")?;
    let fault = Reply::VerifyFault {
        kind,
        method,
        offset: 65_535,
    };
    let mut text = write_reply(rt.alloc(), &fault)?;
    let words = write_reply(rt.alloc(), &Reply::Words)?;
    text.extend_from_slice(words.as_slice())?;
    let want = b"refused 6 Verify FallOff f\\x20(I)I 65535\nrefused 16 Words\n";
    assert_eq!(rt; text.as_slice(), want.as_slice());
    Ok(())
}

#[test]
fn a_footprint_lists_its_items(rt: HostRuntime) -> Result<(), Fail> {
    let place = Item::At {
        class: 1,
        method: 2,
        offset: 3,
    };
    let mut footprint = Footprint::new(rt.alloc());
    footprint.add(Item::Entry)?;
    footprint.add(place)?;
    assert_eq!(rt; footprint.items(), [Item::Entry, place].as_slice());
    Ok(())
}

/// The statuses, their numbers, and what is said of each.
static STATUSES: [(Status, u8, &str); 7] = [
    (Status::Done, 0, ""),
    (
        Status::Usage,
        2,
        "usage: memoise  (it takes no words; command lines come on standard input)",
    ),
    (
        Status::ReadFault,
        4,
        "memoise: standard input could not be read",
    ),
    (
        Status::WriteFault,
        5,
        "memoise: standard output could not be written",
    ),
    (Status::NoMemory, 7, "memoise: memory ran out"),
    (
        Status::ShelfFault,
        8,
        "memoise: a file of the current folder could not be read",
    ),
    (
        Status::TooMuchInput,
        9,
        "memoise: more than 4,294,967,295 bytes of commands came",
    ),
];

#[test]
fn statuses_have_numbers_and_texts(rt: HostRuntime) {
    for (status, code, text) in &STATUSES {
        assert_eq!(rt; status.code(), *code);
        assert_eq!(rt; status.text(), *text);
    }
    assert_eq!(rt; MOST_INPUT, 4_294_967_295);
}

#[test]
fn a_folder_has_no_file_of_a_strange_name(rt: HostRuntime) {
    let mut shelf = FolderShelf::new(&rt);
    for name in [
        b"absent.class".as_slice(),
        b"absent/T.class",
        b"\xff",
        b"",
        b"a\0b",
    ] {
        assert!(rt;
            matches!(shelf.fetch(rt.alloc(), name), Fetch::Absent),
            "at {name:?}"
        );
    }
}

/// A shelf that doesn't fail, with the worked file.
fn sure_shelf(alloc: Global) -> Result<SureShelf, AllocError> {
    let name = Vec::from_slice(alloc, b"T.class")?;
    let bytes = Vec::from_slice(alloc, &ADDS)?;
    let mut files = Vec::new(alloc);
    files.push(Shelved::new(name, bytes))?;
    Ok(SureShelf::new(files))
}

#[test]
fn the_program_runs_over_sure_devices(rt: HostRuntime) -> Result<(), Fail> {
    let mut shelf = sure_shelf(rt.alloc())?;
    let mut source = SureSource::new(Vec::from_slice(rt.alloc(), b"once T.class f (II)I 1 2")?);
    let mut sink = SureSink::new();
    let status = memoise(rt.alloc(), &[], &mut source, &mut shelf, &mut sink);
    assert_eq!(rt; status, Status::Done);
    Ok(())
}

#[test]
fn the_program_runs_over_readers_and_writers(rt: HostRuntime) -> Result<(), Fail> {
    let mut shelf = sure_shelf(rt.alloc())?;
    let mut source = StdSource::new(b"once T.class f (II)I 1 2\ntwice\n".as_slice());
    let mut written = Vec::new(rt.alloc());
    let mut sink = StdSink::new(&mut written);
    let status = memoise(rt.alloc(), &[], &mut source, &mut shelf, &mut sink);
    assert_eq!(rt; status, Status::Done);
    assert_eq!(rt;
        written.as_slice(),
        b"ok returns 3\nrefused 2 Command\n".as_slice()
    );
    Ok(())
}
