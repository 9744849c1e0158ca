//! The surroundings of the program: the clock, standard error, the file for scrapes, and the state.

use crate::devices::Failure;
use crate::state::{Place, keep};
use metrics_exporter::Exporter;
use metrics_textfile::write_textfile;
use std::fmt::Display;
use std::rt::{Clock, Files};
use std::time::{SystemTime, UNIX_EPOCH};
use tool_prometheus::Surroundings;

/// The runtime, and the path of the file for scrapes.
#[derive(Drop)]
pub struct Host<'a, R> {
    /// The runtime.
    pub rt: &'a R,
    /// The path of the file for scrapes, if there is one.
    pub path: Option<&'a str>,
    /// Where the state is kept, if it is.
    pub state: Option<Place<'a>>,
    /// What failed of standard input and standard output.
    pub failure: &'a Failure,
}

impl<R: AllocGlobal + Clock + Eprint + Files> Surroundings for Host<'_, R> {
    ghost use Rattle.std.specs.Prelude.{None as Unknown};

    ghost asked = { λ _. Unknown };

    fn seconds(&mut self) -> u64 {
        match SystemTime::now(self.rt) {
            Ok(now) => match now.duration_since(UNIX_EPOCH) {
                Ok(since) => since.as_secs(),
                Err(_) => 0,
            },
            Err(_) => 0,
        }
    }

    fn tell<M: Display + Drop>(&mut self, message: M) {
        let _ = eprintln!(self.rt; "{message}");
    }

    fn tell_device(&mut self) {
        if !self.failure.is_reader_gone() {
            let _ = eprintln!(self.rt; "{}", self.failure);
        }
    }

    fn keep(&mut self, on: &Exporter) -> bool {
        match self.state {
            Some(place) => keep(self.rt, on, place),
            None => true,
        }
    }

    fn publish(&mut self, text: &str) -> bool {
        let Some(path) = self.path else {
            return false;
        };
        match write_textfile(self.rt, self.rt.alloc(), path, text) {
            Ok(()) => true,
            Err(e) => {
                let _ = eprintln!(self.rt; "{e}");
                false
            }
        }
    }
}
