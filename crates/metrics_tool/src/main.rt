//! Reads a tree of recorders and then calls from standard input, makes each call on a real tree of books and prints the
//! answers; or answers the lines of an exporter; or runs a storm and prints its totals.
#![tactic(auto)]

use std::io::BufReader;
use std::process::ExitCode;
use std::sync::Wait;
use std::thread::Threads;
use std::{env, io};
use tool_lines::command;
use tool_stream::exit_of;

/// The words after the program's name.
fn words_of(host: &HostRuntime) -> io::Result<Vec<String>> {
    match env::args(host) {
        Ok(all) => Ok(all.skip(1).collect(host.alloc())?),
        // A word that is no text is an invalid word, so none are passed on.
        Err(e) if e.kind() == io::ErrorKind::InvalidData => Ok(Vec::new(host.alloc())),
        Err(e) => Err(e),
    }
}

/// The status of the whole program, or an error if memory ran out at its start. Both arguments are the runtime: `rt`
/// starts threads and waits, `host` provides memory, words and streams.
fn status<R: Threads + Wait + Sync>(rt: &R, host: &HostRuntime) -> io::Result<u8> {
    let arguments = words_of(host)?;
    let words: Vec<&str> = arguments
        .iter()
        .map(|word| word.as_str())
        .collect(host.alloc())?;
    let mut input = BufReader::new(host.alloc(), host.reader())?;
    let mut output = io::writer(host);
    let mut errors = host.stderr();
    Ok(command(
        rt,
        host.alloc(),
        &words,
        &mut input,
        &mut output,
        &mut errors,
    ))
}

fn main(rt: HostRuntime) -> ExitCode {
    exit_of(&rt, status(&rt, &rt))
}
