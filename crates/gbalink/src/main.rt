#![tactic(auto)]
//! The program: the real store and sink, and the words after its name.

use gba_link::gba_link;
use gba_store::{FileStore, StdSink, SystemGate};
use std::env;
use std::fs::File;
use std::io::{self, ErrorKind};
use std::process::ExitCode;

/// The exit status where memory was wanting for the words.
const NO_MEMORY: u8 = 10;

/// The exit status where the system refused the words for another cause.
const NO_WORDS: u8 = 13;

fn refusal(error: &io::Error) -> ExitCode {
    if error.kind() == ErrorKind::OutOfMemory {
        ExitCode::from(NO_MEMORY)
    } else {
        ExitCode::from(NO_WORDS)
    }
}

/// Takes the numbers of standard input, output and error where the program was called without them, so that no file of
/// a run gets one of them, and with it what is meant for standard output. What is written there fails then, since this
/// file is for reading alone. A file takes the lowest number that is free, so three are enough; they are held as long
/// as the program runs.
fn hold_standard_numbers(rt: HostRuntime) -> [Option<File>; 3] {
    [
        File::open(&rt, "/dev/null").ok(),
        File::open(&rt, "/dev/null").ok(),
        File::open(&rt, "/dev/null").ok(),
    ]
}

/// Runs the top call on the words after the program's name, and ends with its answer.
fn main(rt: HostRuntime) -> ExitCode {
    let mut args = match env::args(&rt) {
        Ok(args) => args,
        Err(error) => return refusal(&error),
    };
    let _name = args.next();
    let _held = hold_standard_numbers(rt);
    let Ok(words) = args.collect::<Vec<String>>(rt.alloc()) else {
        return ExitCode::from(NO_MEMORY);
    };
    let mut store = FileStore::new(rt, rt.alloc());
    let mut out = StdSink::new(rt, rt.alloc());
    ExitCode::from(gba_link(
        &rt,
        rt.alloc(),
        words.as_slice(),
        &mut store,
        &mut out,
        &SystemGate::new(rt),
    ))
}
