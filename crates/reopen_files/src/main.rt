// Reads each log that an argument names, and prints the name and then the log that opening writes, or `refused=N`. A
// file that cannot be opened is named on standard error, with the reason, and the next one is taken. A read or a write
// that fails is the error that the program ends with.
#![tactic(auto)]

use std::alloc::Global;
use std::env::FillError;
use std::io::{ErrorKind, Write};
use std::rt::{Env, Files};
use std::{fs, io, str};

// A path is text to std, so bytes that are none name no file here.
fn open<R: Files>(rt: &R, path: &[u8]) -> io::Result<R::File> {
    match str::from_utf8(path) {
        Ok(path) => fs::open(rt, path),
        Err(_) => Err(io::Error::from(ErrorKind::InvalidFilename)),
    }
}

// The system's words for an error, without the number that std puts behind them.
fn words(said: &str) -> &str {
    match said.split_once(" (os error ") {
        Some((words, _)) => words,
        None => said,
    }
}

// Writes which file was not opened, and why.
fn report<E: Write>(alloc: Global, path: &[u8], why: io::Error, err: &mut E) -> io::Result<()> {
    let said = why.to_string(alloc)?;
    err.write_all(path)?;
    err.write_all(b": ")?;
    err.write_all(words(said.as_str()).as_bytes())?;
    err.write_all(b"\n")
}

fn reopen_file<R: Files + AllocGlobal, O: Write, E: Write>(
    rt: &R,
    path: &[u8],
    out: &mut O,
    err: &mut E,
) -> io::Result<()> {
    out.write_all(path)?;
    out.write_all(b"\n")?;
    match open(rt, path) {
        Ok(mut file) => {
            let _ = reopening::reopen_from(&mut file, out)?;
            Ok(())
        }
        Err(why) => report(rt.alloc(), path, why, err),
    }
}

// Whether there is an argument of this number. One that is longer than any path is taken as an empty one.
fn reopen_argument<R: Env + Files + AllocGlobal, O: Write, E: Write>(
    rt: &R,
    i: usize,
    out: &mut O,
    err: &mut E,
) -> io::Result<bool> {
    let mut path = [0u8; 4096];
    let n = match rt.arg(i, &mut path) {
        Ok(n) => n,
        Err(FillError::TooLong) => 0,
        Err(FillError::NotPresent) => return Ok(false),
    };
    reopen_file(rt, &path[..n], out, err)?;
    Ok(true)
}

fn main(rt: HostRuntime) -> io::Result<()> {
    for i in 1..usize::MAX {
        if !reopen_argument(&rt, i, &mut rt.stdout(), &mut rt.stderr())? {
            break;
        }
    }
    Ok(())
}
