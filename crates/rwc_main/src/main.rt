//! The program: the tool over the system's files, standard output and standard error.
#![tactic(auto)]

use rw_io::{OsShelf, OsSink, put_whole};
use rwc::rwc;
use std::io::{self, ErrorKind};
use std::process::ExitCode;
use std::rt::Files;
use std::{env, fs};

// The words after the program's name. A word that is not UTF-8 is an error, and so is want of memory.
fn read_words(rt: &HostRuntime) -> io::Result<Vec<String>> {
    let mut words = Vec::new(rt.alloc());
    for word in env::args(rt)?.skip(1) {
        words.push(word)?;
    }
    Ok(words)
}

// A file takes the lowest number that is free. Where standard output or standard error is closed, its number would go
// to the file that is created, and a line would be written into that. These three files take such numbers, and are not
// for writing, so that a line to a closed stream fails. An error is want of memory.
fn hold_streams<R: Files>(rt: &R) -> io::Result<Option<[R::File; 3]>> {
    match open_three(rt) {
        Ok(files) => Ok(Some(files)),
        Err(error) if error.kind() == ErrorKind::OutOfMemory => Err(error),
        Err(_) => Ok(None),
    }
}

fn open_three<R: Files>(rt: &R) -> io::Result<[R::File; 3]> {
    Ok([
        fs::open(rt, "/dev/null")?,
        fs::open(rt, "/dev/null")?,
        fs::open(rt, "/dev/null")?,
    ])
}

fn main(rt: HostRuntime) -> ExitCode {
    let alloc = rt.alloc();
    let mut err = OsSink::new(rt.stderr());
    let held = hold_streams(&rt);
    let (status, line) = match read_words(&rt) {
        Ok(words) if held.is_ok() => {
            let mut out = OsSink::new(rt.stdout());
            let mut shelf = OsShelf::new(rt);
            let status = rwc(alloc, &words, &mut shelf, &mut out, &mut err);
            drop(held);
            return ExitCode::from(status.0);
        }
        Ok(_) => (8, "no memory\n"),
        Err(error) if error.kind() == ErrorKind::OutOfMemory => (8, "no memory\n"),
        Err(_) => (2, "words\n"),
    };
    let _ = put_whole(&mut err, line.as_bytes());
    ExitCode::from(status)
}
