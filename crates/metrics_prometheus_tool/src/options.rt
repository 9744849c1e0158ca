//! The words of the command line.

use crate::names::{drops_of, prefix_of};
use crate::places::{NamePlaces, bounds_of, places_of, prefix_places, prefixes_of};
use crate::units::{plain_bounds, unit_bounds};
use crate::values::{Unfit, every_of, idle_of, labels_of, most_of};
use clap::error::ErrorKind;
use clap::{Arg, ArgAction, ArgMatches, Command, Error, value_parser};
use metrics::MetricKindMask;
use std::alloc::{AllocError, Global};
use tool_export::ExportPlan;
use tool_prometheus::{Dialect, Naming, Options};

const KINDS: &[&str] = &["counter", "gauge", "histogram"];

const LINES: &str = "\
A line of the input is one of
  increment N NAME LABEL=VALUE ..   adds N to a counter
  absolute N NAME LABEL=VALUE ..    raises a counter to N, if it is less
  set N NAME LABEL=VALUE ..         sets a gauge; add and sub change it by N
  record N NAME LABEL=VALUE ..      adds a sample to a histogram
  describe KIND NAME UNIT TEXT      describes a name; KIND is counter, gauge or histogram, UNIT is
                                    -, count, percent, seconds, milliseconds, microseconds,
                                    nanoseconds or bytes, TEXT is the rest of the line
  scrape NOW                        removes idle series and writes the others; NOW is a moment in
                                    any unit, from 0 on
  scrape                            the same at the clock's seconds since 1970
  an empty line, or a comment that begins with #
One space is between two words. N is a whole number, for gauges and samples also a negative one;
--places has names with decimal places. A whole number may be written as awk does: 3e+09, 1.4e3.
The first update of a series makes it. A VALUE with spaces is in double quotes; there \\\", \\\\ and \\n
are a quote, a backslash and a line feed.
The end of the input writes all series, unless nothing changed since the last scrape. A last line
without a line feed is not counted.

A refused call writes a line '# refused ..' to standard output, unless there is a file. Standard
error has what is wrong with bad lines, how many calls were refused, which series are left out, and
which names and labels the text spells otherwise.

Status: 0 at the end of the input, 1 if memory, a device or the file failed or a call was refused,
2 at a bad line or wrong words, 3 if bad lines were skipped or the last line is not counted, or as
--strict has it.";

/// An option with a value.
fn option<'a>(alloc: Global, name: &'a str, value: &'a str, help: &'a str) -> Arg<'a> {
    Arg::new(alloc, name)
        .long(name)
        .value_name(value)
        .help(help)
        .action(ArgAction::Set)
}

/// An option that may be given several times.
fn repeated<'a>(alloc: Global, name: &'a str, value: &'a str, help: &'a str) -> Arg<'a> {
    option(alloc, name, value, help).action(ArgAction::Append)
}

/// An option with a number. A negative one is taken for its value too, and not for an option.
fn number<'a>(alloc: Global, name: &'a str, value: &'a str, help: &'a str) -> Arg<'a> {
    option(alloc, name, value, help).allow_negative_numbers(true)
}

/// An option without a value.
fn flag<'a>(alloc: Global, name: &'a str, help: &'a str) -> Arg<'a> {
    Arg::new(alloc, name)
        .long(name)
        .help(help)
        .action(ArgAction::SetTrue)
}

/// The options that say which series are kept.
fn with_plan<'a>(alloc: Global, command: Command<'a>) -> Result<Command<'a>, AllocError> {
    let bounds = option(
        alloc,
        "bounds",
        "N,..",
        "Upper bounds of the buckets of histograms\n\
        (--bounds=-5,0 if the first is negative)\n\
        [default: those of the name's unit, without one\n\
        5,10,25,50,100,250,500,1000,2500,5000,10000]",
    )
    .value_delimiter(',')
    .allow_negative_numbers(true);
    let prefixes = repeated(
        alloc,
        "bounds-of",
        "PREFIX=N,..",
        "Bounds of histograms whose names begin with PREFIX;\n\
        the longest wins. May be repeated",
    );
    let places = repeated(
        alloc,
        "places",
        "NAME=N",
        "Reads numbers of names that begin with NAME with up to N decimal\n\
        places, 18 at most, and shows them so, bounds too.\n\
        The longest wins. May be repeated",
    );
    let label = repeated(
        alloc,
        "label",
        "LABEL=VALUE",
        "Adds a label to each series; a series' own label of that name wins.\n\
        May be repeated",
    );
    let prefix = option(
        alloc,
        "prefix",
        "PREFIX",
        "Puts PREFIX and an underscore before each name",
    );
    let drop = repeated(
        alloc,
        "drop",
        "TEXT",
        "Drops the names in which TEXT occurs: nothing is counted of them.\n\
        May be repeated",
    );
    let most = number(
        alloc,
        "max-series",
        "N",
        "Refuses updates that would make a series while N are held",
    );
    let idle = number(
        alloc,
        "idle",
        "N",
        "Removes each series that had no update over scrapes more than N\n\
        apart: seconds, or the unit of each NOW",
    );
    let kinds = option(
        alloc,
        "idle-kinds",
        "KIND,..",
        "Kinds of series that --idle removes: counter, gauge, histogram\n\
        [default: all]",
    )
    .value_delimiter(',')
    .value_parser(KINDS)
    .hide_possible_values(true)
    .requires_arg("idle")?;
    command
        .arg(bounds)?
        .arg(prefixes)?
        .arg(places)?
        .arg(label)?
        .arg(prefix)?
        .arg(drop)?
        .arg(most)?
        .arg(idle)?
        .arg(kinds)
}

/// The options that say how series are written.
fn with_output<'a>(alloc: Global, command: Command<'a>) -> Result<Command<'a>, AllocError> {
    let recommended = flag(
        alloc,
        "recommended-names",
        "Shows names as Prometheus recommends:\n\
        _seconds, _bytes, _ratio, _total",
    );
    let file = option(
        alloc,
        "textfile",
        "PATH",
        "Puts each scrape into the file PATH, whole or not at all,\n\
        and nothing on standard output",
    );
    let every = number(
        alloc,
        "every",
        "SECONDS",
        "Scrapes by the clock after a line that comes SECONDS or more after\n\
        the last scrape, or the start",
    );
    let state = option(
        alloc,
        "state",
        "PATH",
        "Begins with what the last run held, from the file PATH, and keeps\n\
        what is held there at each scrape; needs --textfile",
    )
    .requires_arg("textfile")?;
    let ends = flag(
        alloc,
        "at-scrapes-only",
        "Writes nothing at the end of the input, only at scrapes",
    );
    let partial = flag(
        alloc,
        "accept-partial",
        "Counts a last line without a line feed, instead of reporting it",
    );
    let skips = flag(
        alloc,
        "skip-bad",
        "Reports and skips bad lines, instead of ending at the first one",
    );
    let strict = flag(
        alloc,
        "strict",
        "Ends with status 3 if the text spells a name or a label otherwise,\n\
        or leaves a series out",
    );
    let own = flag(
        alloc,
        "self",
        "Adds series about the program itself to each text: lines read, bad\n\
        lines, refused calls, series held and left out, the last scrape",
    );
    command
        .arg(recommended)?
        .arg(file)?
        .arg(every)?
        .arg(state)?
        .arg(ends)?
        .arg(partial)?
        .arg(skips)?
        .arg(strict)?
        .arg(own)
}

/// The command line.
fn command_line<'a>(alloc: Global) -> Result<Command<'a>, AllocError> {
    let command = Command::new(alloc, "metrics_prometheus_tool")
        .bin_name("metrics_prometheus_tool")?
        .version("0.18.0")
        .about(
            "Reads updates of series from standard input, and writes the series in Prometheus's text\n\
            format at each scrape.",
        )
        .after_help(LINES);
    with_output(alloc, with_plan(alloc, command)?)
}

/// The kind of a word of the option, which has only these three.
fn kind_of(word: &str) -> MetricKindMask {
    match word.as_bytes() {
        b"counter" => MetricKindMask::COUNTER,
        b"gauge" => MetricKindMask::GAUGE,
        _ => MetricKindMask::HISTOGRAM,
    }
}

/// The kinds of the option.
fn watched_of(matches: &ArgMatches<'_>) -> MetricKindMask {
    let Some(words) = matches.get_strs("idle-kinds") else {
        return MetricKindMask::ALL;
    };
    let mut watched = MetricKindMask::NONE;
    for word in words {
        watched = watched | kind_of(word);
    }
    watched
}

/// How an exporter is to be made.
fn plan_of<'a>(
    alloc: Global,
    places: &[NamePlaces<'_>],
    bounds: &[&'a str],
    matches: &ArgMatches<'a>,
) -> Result<ExportPlan, Unfit<'a>> {
    Ok(ExportPlan {
        shards: 1,
        watched: watched_of(matches),
        idle_timeout: idle_of(matches.get_str("idle"))?,
        bounds: bounds_of(alloc, places, bounds)?,
    })
}

/// The requested names and units.
fn naming_of(matches: &ArgMatches<'_>) -> Naming {
    if matches.get_flag("recommended-names") {
        Naming::Recommended
    } else {
        Naming::AsGiven
    }
}

/// What the options ask for.
fn asked<'a>(alloc: Global, matches: &ArgMatches<'a>) -> Result<Options, Unfit<'a>> {
    let places = places_of(alloc, matches.get_strs("places"))?;
    let bounds = plain_bounds(alloc, matches.get_strs("bounds"))?;
    Ok(Options {
        plan: plan_of(alloc, &places, &bounds, matches)?,
        units: unit_bounds(alloc, matches.get_strs("bounds"))?,
        prefixes: prefixes_of(
            alloc,
            matches.get_str("prefix"),
            &places,
            matches.get_strs("places").unwrap_or(&[]),
            &bounds,
            matches.get_strs("bounds-of").unwrap_or(&[]),
        )?,
        naming: naming_of(matches),
        dialect: Dialect {
            labels: labels_of(alloc, matches.get_strs("label"))?,
            places: prefix_places(alloc, &places)?,
        },
        prefix: prefix_of(alloc, matches.get_str("prefix"))?,
        drops: drops_of(alloc, matches.get_strs("drop"))?,
        skips_bad: matches.get_flag("skip-bad"),
        has_file: matches.contains_id("textfile"),
        every: every_of(matches.get_str("every"))?,
        max_series: most_of(matches.get_str("max-series"))?,
        is_strict: matches.get_flag("strict"),
        at_scrapes_only: matches.get_flag("at-scrapes-only"),
        accepts_partial: matches.get_flag("accept-partial"),
        tells_self: matches.get_flag("self"),
    })
}

/// The error for a value that an option can't use.
fn error_of(alloc: Global, command: &mut Command<'_>, unfit: Unfit<'_>) -> Result<Error, Error> {
    if let Unfit::Memory = unfit {
        return Err(Error::from(AllocError));
    }
    let message = unfit.to_string(alloc)?;
    Ok(command.error(ErrorKind::ValueValidation, message.as_str())?)
}

/// The paths that the words name.
#[derive(Clone, Copy)]
pub struct Paths<'a> {
    /// Of the file for scrapes.
    pub textfile: Option<&'a str>,
    /// Of the state.
    pub state: Option<&'a str>,
}

/// Returns what the words ask for, and the paths that they name. The first word is the program's name.
pub fn options_of<'a>(alloc: Global, words: &'a [String]) -> Result<(Options, Paths<'a>), Error> {
    let mut command = command_line(alloc)?;
    let matches = command.try_get_matches_from_mut(words)?;
    let paths = Paths {
        textfile: matches.get_str("textfile"),
        state: matches.get_str("state"),
    };
    match asked(alloc, &matches) {
        Ok(options) => Ok((options, paths)),
        Err(unfit) => Err(error_of(alloc, &mut command, unfit)?),
    }
}
