//! Class files, and the first faults of bytes that are none.

use crate::javac;
use ms_classfile::{
    Class, ClassFault, class_files_are_whole_or_have_a_fault, codes_lie_in_their_file,
    faults_have_places, read_class,
};
use ms_pool::{ClassKind, Out, RawHandler};
use std::alloc::{AllocError, Global};
use std::test::Fail;

/// A class file of one class T with one static method f of an int.
pub static FILE: [u8; 107] = [
    202, 254, 186, 190, 0, 0, 0, 52, 0, 8, 1, 0, 1, 84, 7, 0, 1, 1, 0, 16, 106, 97, 118, 97, 47,
    108, 97, 110, 103, 47, 79, 98, 106, 101, 99, 116, 7, 0, 3, 1, 0, 1, 102, 1, 0, 4, 40, 73, 41,
    73, 1, 0, 4, 67, 111, 100, 101, 0, 33, 0, 2, 0, 4, 0, 0, 0, 0, 0, 1, 0, 9, 0, 5, 0, 6, 0, 1, 0,
    7, 0, 0, 0, 22, 0, 2, 0, 1, 0, 0, 0, 10, 26, 16, 10, 164, 0, 5, 4, 172, 3, 172, 0, 0, 0, 0, 0,
    0,
];

/// A class file of one class R with an interface, three fields and two methods: a static int with two
/// ConstantValues, a static long with one, an instance's boolean with one that isn't of two bytes; a
/// static method with a handler, and an abstract one.
static RICH: [u8; 261] = [
    202, 254, 186, 190, 0, 3, 0, 50, 0, 18, 1, 0, 1, 82, 7, 0, 1, 1, 0, 16, 106, 97, 118, 97, 47,
    108, 97, 110, 103, 47, 79, 98, 106, 101, 99, 116, 7, 0, 3, 1, 0, 1, 97, 1, 0, 1, 73, 1, 0, 13,
    67, 111, 110, 115, 116, 97, 110, 116, 86, 97, 108, 117, 101, 3, 255, 255, 255, 254, 1, 0, 1,
    98, 1, 0, 1, 74, 5, 0, 0, 0, 0, 0, 0, 0, 0, 1, 0, 1, 109, 1, 0, 3, 40, 41, 86, 1, 0, 4, 67,
    111, 100, 101, 1, 0, 1, 88, 1, 0, 1, 90, 0, 33, 0, 2, 0, 4, 0, 1, 0, 2, 0, 3, 0, 8, 0, 5, 0, 6,
    0, 3, 0, 7, 0, 0, 0, 2, 0, 8, 0, 16, 0, 0, 0, 1, 7, 0, 7, 0, 0, 0, 1, 1, 0, 8, 0, 9, 0, 10, 0,
    1, 0, 7, 0, 0, 0, 2, 0, 11, 0, 0, 0, 5, 0, 17, 0, 1, 0, 7, 0, 0, 0, 3, 0, 8, 0, 0, 2, 0, 9, 0,
    13, 0, 14, 0, 2, 0, 15, 0, 0, 0, 30, 0, 2, 0, 1, 0, 0, 0, 3, 3, 172, 0, 0, 1, 0, 0, 0, 1, 0, 2,
    0, 2, 0, 1, 0, 16, 0, 0, 0, 1, 9, 0, 7, 0, 0, 0, 0, 4, 0, 0, 9, 0, 14, 0, 0, 0, 2, 0, 15, 0, 0,
    0, 2, 1, 2, 0, 16, 0, 0, 0, 0,
];

/// The fault that counts at this place.
fn at(kind: ClassKind, place: u64) -> Option<ClassFault> {
    Some(ClassFault::At { kind, at: place })
}

fn fault_of(alloc: Global, bytes: &[u8]) -> Option<ClassFault> {
    read_class(alloc, bytes).err()
}

#[test]
fn laws_do_nothing(_rt: HostRuntime) {
    class_files_are_whole_or_have_a_fault();
    codes_lie_in_their_file();
    faults_have_places();
}

#[test]
fn faults_of_classes_are_printed(rt: HostRuntime) -> Result<(), Fail> {
    let short = ClassFault::At {
        kind: ClassKind::Short,
        at: 83,
    };
    let memory = ClassFault::NoMemory;
    let text = format!(in rt.alloc(); "{short}; {memory}")?;
    assert_eq!(rt; text.as_str(), "no class file: Short at 83; memory ran out");
    Ok(())
}

/// Other bytes for some of the file's: the place of the first, what stands there, and the fault then.
static CHANGES: [(usize, &[u8], ClassKind, u64); 13] = [
    (0, &[0xcb], ClassKind::Magic, 0),
    (6, &[0, 0x35], ClassKind::Version, 6),
    (6, &[0, 0x2c], ClassKind::Version, 6),
    (8, &[0, 0], ClassKind::Pool, 8),
    (10, &[2], ClassKind::Pool, 10),
    (16, &[9], ClassKind::Index, 14),
    (61, &[0, 2], ClassKind::Super, 61),
    (79, &[255, 255, 255, 255], ClassKind::Short, 83),
    (82, &[23], ClassKind::Shape, 77),
    (87, &[0, 0, 0, 0], ClassKind::Shape, 77),
    (87, &[0, 1, 0, 0], ClassKind::Shape, 77),
    (71, &[0, 2], ClassKind::Index, 71),
    (73, &[0, 8], ClassKind::Index, 73),
];

/// The beginning of a class file of java/lang/Error, up to its superclass.
static THROWABLE: [u8; 35] = [
    202, 254, 186, 190, 0, 0, 0, 52, 0, 3, 1, 0, 15, 106, 97, 118, 97, 47, 108, 97, 110, 103, 47,
    69, 114, 114, 111, 114, 7, 0, 1, 0, 0, 0, 2,
];

/// The same for `RICH`.
static RICH_CHANGES: [(usize, &[u8], ClassKind, u64); 15] = [
    // the third field is the first again
    (172, &[0, 6], ClassKind::Duplicate, 168),
    // the second method is the first again
    (239, &[0, 13], ClassKind::Duplicate, 237),
    // a second Code
    (231, &[0, 15], ClassKind::Shape, 231),
    // a second Code whose bytes are missing
    (231, &[0, 15, 0, 0, 3, 231], ClassKind::Shape, 231),
    // a text is caught
    (220, &[0, 1], ClassKind::Index, 220),
    // a text is caught, and the entries do not fit
    (212, &[0, 2, 0, 0, 0, 0, 0, 0, 0, 1], ClassKind::Index, 220),
    // the entries do not fit
    (212, &[0, 9], ClassKind::Index, 228),
    // no code
    (205, &[0, 0, 0, 0], ClassKind::Shape, 195),
    // too much code
    (205, &[0, 1, 0, 0], ClassKind::Shape, 195),
    // too short a Code
    (199, &[0, 0, 0, 1], ClassKind::Shape, 195),
    // a ConstantValue of three bytes
    (130, &[0, 7, 0, 0, 0, 3], ClassKind::Shape, 130),
    // a long for an int
    (136, &[0, 11], ClassKind::Index, 136),
    // nothing for an int
    (136, &[0, 99], ClassKind::Index, 136),
    // a ConstantValue of too many bytes
    (132, &[255, 255, 255, 255], ClassKind::Shape, 130),
    // an attribute of too many bytes
    (140, &[0, 0, 39, 15], ClassKind::Short, 144),
];

/// The file with these bytes at a place of it.
fn changed(alloc: Global, file: &[u8], place: usize, bytes: &[u8]) -> Result<Vec<u8>, AllocError> {
    let mut changed = Vec::new(alloc);
    for (i, byte) in file.iter().enumerate() {
        let byte = if i < place {
            *byte
        } else {
            bytes.get(i - place).copied().unwrap_or(*byte)
        };
        changed.push(byte)?;
    }
    Ok(changed)
}

#[test]
fn a_changed_file_has_its_first_fault(rt: HostRuntime) -> Result<(), Fail> {
    for (place, bytes, kind, want) in &CHANGES {
        let file = changed(rt.alloc(), &FILE, *place, bytes)?;
        assert_eq!(rt;
            fault_of(rt.alloc(), &file),
            at(*kind, *want),
            "{bytes:?} at {place}"
        );
    }
    for (place, bytes, kind, want) in &RICH_CHANGES {
        let file = changed(rt.alloc(), &RICH, *place, bytes)?;
        assert_eq!(rt;
            fault_of(rt.alloc(), &file),
            at(*kind, *want),
            "{bytes:?} at {place}"
        );
    }
    // a class with the name of a throwable, which is known before its superclass is read
    assert_eq!(rt; fault_of(rt.alloc(), &THROWABLE), at(ClassKind::Super, 35));
    assert_eq!(rt; fault_of(rt.alloc(), &[]), at(ClassKind::Short, 0));
    assert_eq!(rt; fault_of(rt.alloc(), &FILE[..3]), at(ClassKind::Short, 0));
    assert_eq!(rt; fault_of(rt.alloc(), &FILE[..40]), at(ClassKind::Short, 40));
    let mut longer = Vec::from_slice(rt.alloc(), &FILE)?;
    longer.push(0)?;
    assert_eq!(rt; fault_of(rt.alloc(), &longer), at(ClassKind::Trailing, 107));
    Ok(())
}

/// From how many bytes of `RICH` on, where no more are there, the part that doesn't fit begins where.
static CUTS: [(usize, u64); 101] = [
    (0, 0),
    (4, 4),
    (6, 6),
    (8, 8),
    (10, 10),
    (11, 11),
    (13, 13),
    (14, 14),
    (15, 15),
    (17, 17),
    (18, 18),
    (20, 20),
    (36, 36),
    (37, 37),
    (39, 39),
    (40, 40),
    (42, 42),
    (43, 43),
    (44, 44),
    (46, 46),
    (47, 47),
    (48, 48),
    (50, 50),
    (63, 63),
    (64, 64),
    (68, 68),
    (69, 69),
    (71, 71),
    (72, 72),
    (73, 73),
    (75, 75),
    (76, 76),
    (77, 77),
    (85, 85),
    (86, 86),
    (88, 88),
    (89, 89),
    (90, 90),
    (92, 92),
    (95, 95),
    (96, 96),
    (98, 98),
    (102, 102),
    (103, 103),
    (105, 105),
    (106, 106),
    (107, 107),
    (109, 109),
    (110, 110),
    (112, 112),
    (114, 114),
    (116, 116),
    (118, 118),
    (120, 120),
    (122, 122),
    (124, 124),
    (126, 126),
    (128, 128),
    (130, 130),
    (132, 132),
    (136, 136),
    (138, 138),
    (140, 140),
    (144, 144),
    (145, 145),
    (147, 147),
    (151, 151),
    (152, 152),
    (154, 154),
    (156, 156),
    (158, 158),
    (160, 160),
    (162, 162),
    (166, 166),
    (168, 168),
    (170, 170),
    (172, 172),
    (174, 174),
    (176, 176),
    (178, 178),
    (182, 182),
    (185, 185),
    (187, 187),
    (189, 189),
    (191, 191),
    (193, 193),
    (195, 195),
    (197, 197),
    (201, 201),
    (231, 231),
    (233, 233),
    (237, 237),
    (239, 239),
    (241, 241),
    (243, 243),
    (245, 245),
    (247, 247),
    (249, 249),
    (253, 253),
    (255, 255),
    (257, 257),
];

/// The fault where the lowest bit of a byte of `RICH` is the other: the byte's place, the kind and the place.
static FLIPS: [(usize, ClassKind, u64); 168] = [
    (0, ClassKind::Magic, 0),
    (1, ClassKind::Magic, 0),
    (2, ClassKind::Magic, 0),
    (3, ClassKind::Magic, 0),
    (6, ClassKind::Version, 6),
    (8, ClassKind::Pool, 110),
    (9, ClassKind::Pool, 110),
    (10, ClassKind::Pool, 10),
    (11, ClassKind::Short, 13),
    (12, ClassKind::Pool, 13),
    (14, ClassKind::Pool, 23),
    (15, ClassKind::Index, 14),
    (16, ClassKind::Index, 14),
    (17, ClassKind::Pool, 17),
    (18, ClassKind::Short, 20),
    (19, ClassKind::Pool, 37),
    (20, ClassKind::Super, 114),
    (21, ClassKind::Super, 114),
    (22, ClassKind::Super, 114),
    (23, ClassKind::Super, 114),
    (24, ClassKind::Super, 114),
    (25, ClassKind::Super, 114),
    (26, ClassKind::Super, 114),
    (27, ClassKind::Super, 114),
    (28, ClassKind::Super, 114),
    (29, ClassKind::Super, 114),
    (30, ClassKind::Super, 114),
    (31, ClassKind::Super, 114),
    (32, ClassKind::Super, 114),
    (33, ClassKind::Super, 114),
    (34, ClassKind::Super, 114),
    (35, ClassKind::Super, 114),
    (36, ClassKind::Short, 48),
    (37, ClassKind::Index, 36),
    (38, ClassKind::Index, 36),
    (39, ClassKind::Pool, 39),
    (40, ClassKind::Short, 42),
    (41, ClassKind::Pool, 42),
    (43, ClassKind::Pool, 43),
    (44, ClassKind::Short, 46),
    (45, ClassKind::Pool, 46),
    (47, ClassKind::Pool, 47),
    (48, ClassKind::Short, 50),
    (49, ClassKind::Pool, 62),
    (63, ClassKind::Pool, 63),
    (68, ClassKind::Pool, 68),
    (69, ClassKind::Short, 71),
    (70, ClassKind::Pool, 71),
    (72, ClassKind::Pool, 72),
    (73, ClassKind::Short, 75),
    (74, ClassKind::Pool, 75),
    (76, ClassKind::Pool, 81),
    (85, ClassKind::Pool, 85),
    (86, ClassKind::Short, 88),
    (87, ClassKind::Pool, 88),
    (89, ClassKind::Pool, 89),
    (90, ClassKind::Short, 92),
    (91, ClassKind::Pool, 94),
    (95, ClassKind::Pool, 95),
    (96, ClassKind::Short, 98),
    (97, ClassKind::Pool, 103),
    (102, ClassKind::Pool, 102),
    (103, ClassKind::Short, 105),
    (104, ClassKind::Pool, 105),
    (106, ClassKind::Pool, 106),
    (107, ClassKind::Short, 109),
    (108, ClassKind::Index, 111),
    (112, ClassKind::Index, 112),
    (113, ClassKind::Index, 112),
    (114, ClassKind::Super, 114),
    (115, ClassKind::Super, 114),
    (116, ClassKind::Short, 260),
    (117, ClassKind::Index, 122),
    (120, ClassKind::Index, 193),
    (121, ClassKind::Short, 178),
    (124, ClassKind::Index, 124),
    (125, ClassKind::Index, 124),
    (126, ClassKind::Index, 126),
    (128, ClassKind::Index, 152),
    (129, ClassKind::Index, 147),
    (130, ClassKind::Index, 130),
    (131, ClassKind::Shape, 145),
    (132, ClassKind::Shape, 130),
    (133, ClassKind::Shape, 130),
    (134, ClassKind::Shape, 130),
    (135, ClassKind::Shape, 130),
    (136, ClassKind::Index, 136),
    (137, ClassKind::Index, 136),
    (138, ClassKind::Index, 138),
    (140, ClassKind::Short, 144),
    (141, ClassKind::Short, 144),
    (142, ClassKind::Short, 144),
    (143, ClassKind::Index, 144),
    (145, ClassKind::Index, 145),
    (147, ClassKind::Short, 151),
    (148, ClassKind::Short, 151),
    (149, ClassKind::Short, 151),
    (150, ClassKind::Index, 153),
    (154, ClassKind::Index, 154),
    (155, ClassKind::Index, 154),
    (156, ClassKind::Index, 156),
    (157, ClassKind::Index, 156),
    (158, ClassKind::Index, 168),
    (159, ClassKind::Index, 162),
    (160, ClassKind::Index, 160),
    (162, ClassKind::Short, 166),
    (163, ClassKind::Short, 166),
    (164, ClassKind::Short, 166),
    (165, ClassKind::Index, 171),
    (170, ClassKind::Index, 170),
    (171, ClassKind::Index, 170),
    (172, ClassKind::Index, 172),
    (174, ClassKind::Index, 185),
    (175, ClassKind::Index, 182),
    (176, ClassKind::Index, 176),
    (178, ClassKind::Short, 182),
    (179, ClassKind::Short, 182),
    (180, ClassKind::Short, 182),
    (181, ClassKind::Index, 188),
    (185, ClassKind::Index, 249),
    (186, ClassKind::Index, 249),
    (189, ClassKind::Index, 189),
    (190, ClassKind::Index, 189),
    (191, ClassKind::Index, 191),
    (193, ClassKind::Index, 237),
    (194, ClassKind::Index, 237),
    (195, ClassKind::Index, 195),
    (197, ClassKind::Short, 201),
    (198, ClassKind::Short, 201),
    (199, ClassKind::Short, 201),
    (200, ClassKind::Shape, 195),
    (205, ClassKind::Shape, 195),
    (206, ClassKind::Shape, 195),
    (207, ClassKind::Shape, 195),
    (208, ClassKind::Index, 215),
    (212, ClassKind::Index, 228),
    (213, ClassKind::Shape, 195),
    (220, ClassKind::Index, 220),
    (221, ClassKind::Index, 220),
    (222, ClassKind::Shape, 195),
    (223, ClassKind::Shape, 195),
    (224, ClassKind::Index, 224),
    (226, ClassKind::Shape, 195),
    (227, ClassKind::Shape, 195),
    (228, ClassKind::Shape, 195),
    (229, ClassKind::Shape, 195),
    (231, ClassKind::Index, 231),
    (233, ClassKind::Short, 237),
    (234, ClassKind::Short, 237),
    (235, ClassKind::Short, 237),
    (236, ClassKind::Index, 240),
    (239, ClassKind::Index, 239),
    (240, ClassKind::Index, 239),
    (241, ClassKind::Index, 241),
    (243, ClassKind::Index, 245),
    (244, ClassKind::Index, 245),
    (245, ClassKind::Short, 261),
    (246, ClassKind::Short, 261),
    (247, ClassKind::Index, 247),
    (249, ClassKind::Short, 253),
    (250, ClassKind::Short, 253),
    (251, ClassKind::Short, 253),
    (252, ClassKind::Index, 256),
    (255, ClassKind::Index, 255),
    (257, ClassKind::Short, 261),
    (258, ClassKind::Short, 261),
    (259, ClassKind::Short, 261),
    (260, ClassKind::Short, 261),
];

/// The place that the last of the cuts has that come to so many bytes or fewer.
fn cut_at(many: usize) -> Option<u64> {
    let mut place = None;
    for (from, begins) in &CUTS {
        if *from <= many {
            place = Some(*begins);
        }
    }
    place
}

/// The fault of the flipped byte at this place, where it has one.
fn flipped_at(place: usize) -> Option<ClassFault> {
    for (byte, kind, want) in &FLIPS {
        if *byte == place {
            return at(*kind, *want);
        }
    }
    None
}

#[test]
fn each_cut_and_each_flip_has_its_fault(rt: HostRuntime) -> Result<(), Fail> {
    for (place, byte) in RICH.iter().enumerate() {
        let cut = fault_of(rt.alloc(), &RICH[..place]);
        let want = match cut_at(place) {
            Some(begins) => at(ClassKind::Short, begins),
            None => None,
        };
        assert_eq!(rt; cut, want, "cut at {place}");
        let file = changed(rt.alloc(), &RICH, place, &[*byte ^ 1])?;
        assert_eq!(rt;
            fault_of(rt.alloc(), &file),
            flipped_at(place),
            "flip at {place}"
        );
    }
    Ok(())
}

#[test]
fn a_class_has_its_fields(rt: HostRuntime) -> Result<(), Fail> {
    let class = read_class(rt.alloc(), &RICH)?;
    assert_eq!(rt; class.major, 50);
    assert_eq!(rt; class.name, b"R".as_slice());
    assert_eq!(rt; class.this_index, 2);
    assert_eq!(rt; class.pool.utf8(17), Some(b"Z".as_slice()));
    assert_eq!(rt; class.fields.rows().len(), 3);
    for (field, want) in class.fields.rows().iter().zip(&FIELDS) {
        let (access, name, name_index, desc, desc_index, initial) = *want;
        assert_eq!(rt; (field.access, field.initial), (access, initial));
        assert_eq!(rt;
            (field.name_index, field.desc_index),
            (name_index, desc_index)
        );
        assert_eq!(rt; field.name, name.as_bytes());
        assert_eq!(rt; field.desc, desc.as_bytes());
    }
    Ok(())
}

#[test]
fn a_class_has_its_methods(rt: HostRuntime) -> Result<(), Fail> {
    let class = read_class(rt.alloc(), &RICH)?;
    assert_eq!(rt; class.methods.rows().len(), 2);
    for (method, want) in class.methods.rows().iter().zip(&METHODS) {
        let (access, name, name_index, desc, desc_index, place) = *want;
        assert_eq!(rt; (method.access, method.at), (access, place));
        assert_eq!(rt;
            (method.name_index, method.desc_index),
            (name_index, desc_index)
        );
        assert_eq!(rt; method.name, name.as_bytes());
        assert_eq!(rt; method.desc, desc.as_bytes());
        match &method.code {
            Some(code) => {
                assert_eq!(rt; place, 187);
                assert_eq!(rt; (code.max_stack, code.max_locals), (2, 1));
                assert_eq!(rt; code.code, [3, 172, 0].as_slice());
                assert_eq!(rt; (code.code_at, code.table_at), (209, 214));
                let handler = RawHandler {
                    start: 0,
                    end: 1,
                    handler: 2,
                    catch_type: 2,
                };
                assert_eq!(rt; code.table.rows(), [handler].as_slice());
            }
            None => assert_eq!(rt; place, 237),
        }
    }
    Ok(())
}

/// The fields of `RICH`.
static FIELDS: [(u16, &str, u16, &str, u16, i32); 3] = [
    (8, "a", 5, "I", 6, -2),
    (8, "b", 9, "J", 10, 0),
    (0, "a", 5, "Z", 17, 0),
];

/// Its methods, each with its place.
static METHODS: [(u16, &str, u16, &str, u16, u64); 2] = [
    (9, "m", 13, "()V", 14, 187),
    (0x0400, "b", 9, "()V", 14, 237),
];

/// A method: its name and descriptor, and of its code the most values on the stack, how many locals it
/// has, how many bytes and how many handlers.
type Row = (&'static str, &'static str, Option<(u16, u16, usize, usize)>);

/// Class files from a compiler, with the name of the class, how many fields it has, and its methods.
static COMPILED: [(&str, usize, &[Row]); 13] = [
    (
        "Hello",
        0,
        &[
            ("<init>", "()V", Some((1, 1, 5, 0))),
            ("main", "([Ljava/lang/String;)V", Some((3, 2, 32, 0))),
        ],
    ),
    (
        "Loops",
        0,
        &[
            ("<init>", "()V", Some((1, 1, 5, 0))),
            ("sum", "(I)I", Some((2, 2, 25, 0))),
            ("odd", "(I)Z", Some((2, 1, 12, 0))),
        ],
    ),
    (
        "Constants",
        12,
        &[
            ("<init>", "()V", Some((2, 1, 10, 0))),
            ("<clinit>", "()V", Some((4, 0, 15, 0))),
        ],
    ),
    (
        "Tries",
        0,
        &[
            ("<init>", "()V", Some((1, 1, 5, 0))),
            ("f", "(I)I", Some((2, 4, 24, 3))),
            ("g", "()V", Some((3, 0, 10, 0))),
        ],
    ),
    (
        "Switches",
        0,
        &[
            ("<init>", "()V", Some((1, 1, 5, 0))),
            ("t", "(I)I", Some((1, 1, 38, 0))),
            ("l", "(I)I", Some((1, 1, 34, 0))),
        ],
    ),
    (
        "Boxes",
        1,
        &[
            ("<init>", "()V", Some((1, 1, 5, 0))),
            ("compareTo", "(LBoxes;)I", Some((2, 2, 14, 0))),
            ("compareTo", "(Ljava/lang/Object;)I", Some((2, 2, 9, 0))),
        ],
    ),
    (
        "Lambdas",
        0,
        &[
            ("<init>", "()V", Some((1, 1, 5, 0))),
            ("r", "(I)Ljava/lang/Runnable;", Some((1, 1, 7, 0))),
            ("f", "()Ljava/util/function/Function;", Some((1, 0, 6, 0))),
            ("lambda$r$0", "(I)V", Some((2, 1, 8, 0))),
        ],
    ),
    ("Outer", 1, &[("<init>", "()V", Some((1, 1, 5, 0)))]),
    (
        "Outer$Inner",
        2,
        &[("<init>", "(LOuter;)V", Some((2, 2, 21, 0)))],
    ),
    ("Outer$Nested", 0, &[("<init>", "()V", Some((1, 1, 5, 0)))]),
    (
        "Shape",
        1,
        &[
            ("area", "()D", None),
            ("name", "()Ljava/lang/String;", Some((1, 1, 3, 0))),
        ],
    ),
    (
        "Marked",
        0,
        &[
            ("<init>", "()V", Some((1, 1, 5, 0))),
            ("n", "()I", None),
            ("s", "()V", Some((0, 1, 1, 0))),
            ("d", "(D)D", Some((4, 2, 6, 0))),
        ],
    ),
    (
        "Longs",
        0,
        &[
            ("<init>", "()V", Some((1, 1, 5, 0))),
            ("f", "(JJ)J", Some((4, 4, 8, 0))),
            ("wide", "(I)I", Some((2, 2, 9, 0))),
        ],
    ),
];

/// Whether the class is as the table has it.
fn is_as_told(class: &Class<'_>, name: &str, fields: usize, methods: &[Row]) -> bool {
    let rows = class.methods.rows();
    let mut same = class.name == name.as_bytes()
        && class.fields.rows().len() == fields
        && rows.len() == methods.len();
    for (row, (name, desc, code)) in rows.iter().zip(methods) {
        let numbers = match &row.code {
            Some(code) => Some((
                code.max_stack,
                code.max_locals,
                code.code.len(),
                code.table.rows().len(),
            )),
            None => None,
        };
        same = same
            && row.name == name.as_bytes()
            && row.desc == desc.as_bytes()
            && numbers == *code;
    }
    same
}

#[test]
fn classes_from_a_compiler_are_read(rt: HostRuntime) -> Result<(), Fail> {
    let files: [&[u8]; 13] = [
        &javac::HELLO,
        &javac::LOOPS,
        &javac::CONSTANTS,
        &javac::TRIES,
        &javac::SWITCHES,
        &javac::BOXES,
        &javac::LAMBDAS,
        &javac::OUTER,
        &javac::OUTER_INNER,
        &javac::OUTER_NESTED,
        &javac::SHAPE,
        &javac::MARKED,
        &javac::LONGS,
    ];
    for (file, (name, fields, methods)) in files.iter().zip(&COMPILED) {
        let class = read_class(rt.alloc(), file)?;
        assert!(rt; is_as_told(&class, name, *fields, methods), "{name}");
    }
    // an enum, and an exception, are not directly below java/lang/Object
    assert_eq!(rt;
        fault_of(rt.alloc(), &javac::COLOUR),
        at(ClassKind::Super, 437)
    );
    assert_eq!(rt;
        fault_of(rt.alloc(), &javac::MINE),
        at(ClassKind::Super, 99)
    );
    Ok(())
}

/// The ints that the fields of the compiled constants have at first.
static INITIAL: [(&str, i32); 12] = [
    ("A", -7),
    ("B", 1),
    ("C", 99),
    ("D", -300),
    ("E", 5),
    ("F", 0),
    ("G", 0),
    ("H", 0),
    ("I", 0),
    ("j", 0),
    ("k", 0),
    ("l", 0),
];

#[test]
fn constants_are_initial_ints(rt: HostRuntime) -> Result<(), Fail> {
    let class = read_class(rt.alloc(), &javac::CONSTANTS)?;
    assert_eq!(rt; class.fields.rows().len(), INITIAL.len());
    for (field, (name, initial)) in class.fields.rows().iter().zip(&INITIAL) {
        assert_eq!(rt; field.name, name.as_bytes());
        assert_eq!(rt; field.initial, *initial, "{name}");
    }
    Ok(())
}

/// How many fields a large file has.
const MANY: u16 = 65_000;

/// The beginning of a class file up to its fields: a class R, a long name, and a descriptor for each
/// field, of three letters; their numbers begin at 6.
fn beginning(out: &mut Out) -> Result<(), AllocError> {
    out.slice(&[0xca, 0xfe, 0xba, 0xbe, 0, 0, 0, 52])?;
    out.u2(6 + MANY)?;
    out.slice(&[1, 0, 1, b'R', 7, 0, 1, 1, 0, 16])?;
    out.slice(b"java/lang/Object")?;
    out.slice(&[7, 0, 3, 1, 0x80, 0])?;
    for _ in 0_u16..0x8000 {
        out.u1(b'n')?;
    }
    for i in 0..MANY {
        out.slice(&[1, 0, 3, b'L'])?;
        out.u2(i)?;
    }
    out.slice(&[0, 33, 0, 2, 0, 4, 0, 0])
}

/// A class file with many fields, all of one long name, and where it is wanted one more that is there twice.
fn large(alloc: Global, twice: bool) -> Result<Vec<u8>, AllocError> {
    let mut out = Out::new(alloc);
    beginning(&mut out)?;
    out.u2(if twice { MANY + 1 } else { MANY })?;
    for i in 0..MANY {
        out.slice(&[0, 8, 0, 5])?;
        out.u2(6 + i)?;
        out.u2(0)?;
    }
    if twice {
        out.slice(&[0, 8, 0, 5, 0, 6, 0, 0])?;
    }
    out.slice(&[0, 0, 0, 0])?;
    Ok(out.into_bytes())
}

#[test]
fn large_files_are_read(rt: HostRuntime) -> Result<(), Fail> {
    let file = large(rt.alloc(), false)?;
    let class = read_class(rt.alloc(), &file)?;
    assert_eq!(rt; class.fields.rows().len(), 65_000);
    let file = large(rt.alloc(), true)?;
    let want = at(ClassKind::Duplicate, 942_820);
    assert_eq!(rt; fault_of(rt.alloc(), &file), want);
    Ok(())
}
