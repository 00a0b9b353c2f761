//! The program `fitrec`: it records rides, repairs them, and reads FIT files and shows their content.
//!
//! `command` is the program as one call: words in, text out, and the exit status. `fit_commands` does what they
//! request with files and folders.
//!
//!     fitrec show row3.fit
//!
//! prints
//!
//!     header 14 protocol 1.0 profile 100 data 18
//!     0 file_id type=4 time_created=1000000000
//!     messages 1
//!
//! (The stored run of this crate: `args`, `data` and `stdout`.)
//!
//! Proved: it ends with one of three statuses on any words. What each status means, `compare/rows` checks.
#![tactic(auto)]

mod command;

use fit_words::text_of_word;
use std::env::{Env, FillError};
use std::io::{self, ErrorKind, Write};
use std::process::ExitCode;

// The most bytes of a word, with its end: Linux takes no longer one.
const MOST_BYTES: usize = 131_072;

fn main(rt: HostRuntime) -> io::Result<ExitCode> {
    let mut out = rt.stdout();
    let mut err = rt.stderr();
    let status = match words_of(&rt) {
        Ok(words) => command::command(&rt, words.as_slice(), &mut out, &mut err),
        Err(_) => {
            let _ = writeln!(err, "fitrec: NoMemory");
            1
        }
    };
    Ok(ExitCode::from(status))
}

// The words after the program's name.
fn words_of(rt: &HostRuntime) -> io::Result<Vec<String>> {
    let mut room = Vec::new(rt.alloc());
    room.resize(MOST_BYTES, 0)?;
    let mut words = Vec::new(rt.alloc());
    for number in 1..usize::MAX {
        match rt.arg(number, room.as_mut_slice()) {
            Ok(size) => words.push(text_of_word(rt.alloc(), &room[..size])?)?,
            Err(FillError::NotPresent) => break,
            Err(FillError::TooLong) => return Err(ErrorKind::OutOfMemory.into()),
        }
    }
    Ok(words)
}
