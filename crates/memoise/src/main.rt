//! Memoise over the real outside: command lines from standard input, class files from the current
//! folder, replies to standard output. It ends with the number of the status.
#![tactic(auto)]

use ms_memoise::{Status, memoise};
use ms_outside::{FolderShelf, StdSink, StdSource};
use std::process::ExitCode;
use std::rt::Env;
use std::{env, io};

fn main(rt: HostRuntime) -> ExitCode {
    let status = run(&rt);
    let text = status.text();
    if !text.is_empty() {
        let _ = eprintln!(rt; "{text}");
    }
    ExitCode::from(status.code())
}

/// Runs the program on the command line's words.
fn run(rt: &HostRuntime) -> Status {
    let words = match words(rt) {
        Ok(words) => words,
        Err(status) => return status,
    };
    let mut source = StdSource::new(rt.reader());
    let mut shelf = FolderShelf::new(rt);
    let mut sink = StdSink::new(io::writer(rt));
    memoise(
        rt.alloc(),
        words.as_slice(),
        &mut source,
        &mut shelf,
        &mut sink,
    )
}

/// The words on the command line, behind the program's name. Words that are no text are wrong words.
fn words<R: Env + AllocGlobal>(rt: &R) -> Result<Vec<String>, Status> {
    match env::args(rt) {
        Ok(arguments) => match arguments.skip(1).collect(rt.alloc()) {
            Ok(words) => Ok(words),
            Err(_) => Err(Status::NoMemory),
        },
        Err(error) => match error.kind() {
            io::ErrorKind::OutOfMemory => Err(Status::NoMemory),
            _ => Err(Status::Usage),
        },
    }
}
