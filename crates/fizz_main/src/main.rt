//! The program `fizz`: the top call over the real files, standard output and standard error.
#![tactic(auto)]

use fizz_cli::fizz;
use fizz_outside::{DiskFiles, OpenGate, Sink, SinkRefused, StdSink};
use fizz_text::Text;
use std::alloc::Global;
use std::io::ErrorKind;
use std::process::ExitCode;
use std::rt::Env;
use std::{env, io};

/// Where a word isn't UTF-8.
const USAGE: u8 = 2;

/// Where standard error failed.
const SINK_FAILED: u8 = 7;

/// Where there is no memory for the words.
const NO_MEMORY: u8 = 8;

fn main(rt: HostRuntime) -> ExitCode {
    let alloc = rt.alloc();
    let words = match read_words(&rt, alloc) {
        Ok(words) => words,
        Err(e) if e.kind() == ErrorKind::OutOfMemory => return ExitCode::from(NO_MEMORY),
        Err(_) => return ExitCode::from(refuse_words(&mut StdSink::new(rt.stderr()))),
    };
    let mut files = DiskFiles::new(alloc, &rt);
    let mut out = StdSink::new(rt.stdout());
    let mut notes = StdSink::new(rt.stderr());
    let status = fizz(
        &rt, alloc, &words, &mut files, &mut out, &mut notes, &OpenGate,
    );
    ExitCode::from(status)
}

/// Says that a word isn't UTF-8.
fn refuse_words<N: Sink>(notes: &mut N) -> u8 {
    match notes.write_all(b"error: a word is not UTF-8\n") {
        Ok(()) => USAGE,
        Err(SinkRefused::Failed) => SINK_FAILED,
        Err(SinkRefused::OutOfMemory) => NO_MEMORY,
    }
}

/// The words after the program's name.
fn read_words(rt: &(impl Env + AllocGlobal), alloc: Global) -> io::Result<Vec<Text>> {
    let mut words = Vec::new(alloc);
    for word in env::args(rt)?.skip(1) {
        match Text::from_bytes(word.into_bytes()) {
            Ok(text) => words.push(text)?,
            Err(_) => return Err(io::Error::from(ErrorKind::InvalidData)),
        }
    }
    Ok(words)
}
