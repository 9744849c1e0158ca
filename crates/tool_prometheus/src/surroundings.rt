//! What the program uses beside its input and its output.
ghost use Rattle.std.specs.Prelude.{Option as Maybe};
ghost use Rattle.tool_prometheus.specs.Asked.{Asked, Asks, nothing_asked, clock_gave, put};

use metrics_exporter::Exporter;
use std::fmt::Display;

/// The surroundings of a run: a clock, a place for messages, a file for scrapes, and one for what the next run begins with.
pub trait Surroundings: Drop {
    /// What was asked of them so far, or none if they don't say.
    ghost asked: { Self → Maybe Asked };

    /// Returns the clock's seconds since the beginning of 1970.
    fn seconds(&mut self) -> u64
        ensures { Asks (asked self.old) (asked self.new) (clock_gave result) };

    /// Reports a message on a line of its own. A fault is ignored.
    fn tell<M: Display + Drop>(&mut self, message: M)
        ensures { Asks (asked self.old) (asked self.new) nothing_asked };

    /// Reports that the reader or the writer of the run failed. A fault is ignored.
    fn tell_device(&mut self)
        ensures { Asks (asked self.old) (asked self.new) nothing_asked };

    /// Keeps what the exporter holds for the next run, where that is asked for, and reports a fault. Returns whether it
    /// succeeded.
    fn keep(&mut self, on: &Exporter) -> bool
        ensures { Asks (asked self.old) (asked self.new) nothing_asked };

    /// Replaces the file's text with a scrape's, whole or not at all, and reports a fault. Returns whether it succeeded.
    fn publish(&mut self, text: &str) -> bool
        ensures { Asks (asked self.old) (asked self.new) (put result text.now) };
}
