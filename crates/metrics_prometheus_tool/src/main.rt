//! Reads updates and scrapes from standard input, keeps the series, and prints an exposition for Prometheus at each scrape.
#![tactic(auto)]

mod devices;
mod host;
mod names;
mod options;
mod places;
mod state;
mod units;
mod values;

use crate::devices::{Failure, Noting};
use crate::host::Host;
use crate::options::{Paths, options_of};
use crate::state::{Place, begin, title_of};
use clap::error::ErrorKind;
use metrics_exporter::Exporter;
use metrics_textfile::{TextfileError, textfile_place};
use std::io::BufReader;
use std::process::ExitCode;
use std::{env, io};
use tool_prometheus::{Options, command_on, exporter_for};
use tool_stream::exit_of;

/// The status where nobody reads standard output any longer, as of a program that the signal for it ends.
const READER_GONE: u8 = 141;

/// Answers standard input, on an exporter.
fn serve(
    host: &HostRuntime,
    options: Options,
    exporter: Exporter,
    path: Option<&str>,
    state: Option<Place<'_>>,
) -> io::Result<u8> {
    let failure = Failure::new();
    let reader = Noting {
        stream: host.reader(),
        of: "standard input",
        failure: &failure,
    };
    let mut input = BufReader::new(host.alloc(), reader)?;
    let mut output = Noting {
        stream: io::writer(host),
        of: "standard output",
        failure: &failure,
    };
    let around = Host {
        rt: host,
        path,
        state,
        failure: &failure,
    };
    let (status, _) = command_on(
        host.alloc(),
        options,
        exporter,
        around,
        &mut input,
        &mut output,
    );
    Ok(if failure.is_reader_gone() {
        READER_GONE
    } else {
        status
    })
}

/// The status for why no text can be put into a file, unless a scrape may still succeed, as where a folder is missing.
fn status_for(e: &TextfileError) -> Option<u8> {
    if e.is_unfit() {
        Some(2)
    } else if matches!(e, TextfileError::Memory) {
        Some(1)
    } else {
        None
    }
}

/// The path of the file that a text at the path goes to, if the system says it. Reports why there can be none, and returns the
/// status then.
fn place_at(host: &HostRuntime, path: Option<&str>) -> Result<Option<String>, u8> {
    let Some(path) = path else {
        return Ok(None);
    };
    match textfile_place(host, host.alloc(), path) {
        Ok(place) => Ok(Some(place)),
        Err(e) => match status_for(&e) {
            Some(status) => {
                let _ = eprintln!(host; "{e}");
                Err(status)
            }
            None => Ok(None),
        },
    }
}

/// Reports why the files can't be those that the words name, and returns the status then.
fn expect_places(host: &HostRuntime, paths: Paths<'_>) -> Result<(), u8> {
    let textfile = place_at(host, paths.textfile)?;
    let state = place_at(host, paths.state)?;
    if textfile.is_some() && textfile == state {
        let _ = eprintln!(host; "--state and --textfile name one file");
        return Err(2);
    }
    Ok(())
}

/// Answers standard input, on an exporter that begins with the state, if there is one.
fn serve_from(host: &HostRuntime, options: Options, paths: Paths<'_>) -> io::Result<u8> {
    let Ok(mut exporter) = exporter_for(host.alloc(), &options) else {
        return Err(io::Error::from(io::ErrorKind::OutOfMemory));
    };
    let Some(path) = paths.state else {
        return serve(host, options, exporter, paths.textfile, None);
    };
    let title = title_of(host.alloc(), &options)?;
    let place = Place {
        path,
        title: title.as_str(),
    };
    match begin(host, &mut exporter, place) {
        Some(status) => Ok(status),
        None => serve(host, options, exporter, paths.textfile, Some(place)),
    }
}

/// Answers standard input, unless one of the files can't be one.
fn serve_at(host: &HostRuntime, options: Options, paths: Paths<'_>) -> io::Result<u8> {
    match expect_places(host, paths) {
        Ok(()) => serve_from(host, options, paths),
        Err(status) => Ok(status),
    }
}

/// Prints help, the version, or what is wrong with the words.
fn tell(host: &HostRuntime, error: clap::Error) -> io::Result<u8> {
    if error.kind() == ErrorKind::OutOfMemory {
        return Err(io::Error::from(io::ErrorKind::OutOfMemory));
    }
    error.print(host)?;
    Ok(if error.exit_code() == 0 { 0 } else { 2 })
}

/// The status of the whole program, or an error if memory ran out at its start.
fn status(host: &HostRuntime) -> io::Result<u8> {
    let words: Vec<String> = env::args(host)?.collect(host.alloc())?;
    match options_of(host.alloc(), &words) {
        Ok((options, paths)) => serve_at(host, options, paths),
        Err(error) => tell(host, error),
    }
}

fn main(rt: HostRuntime) -> ExitCode {
    exit_of(&rt, status(&rt))
}
