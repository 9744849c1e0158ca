//! When the clock asks for a scrape.
ghost use Rattle.std.specs.Prelude.{◌≡◌};
ghost use Rattle.tool_prometheus.specs.Asked.{Asked, Asks};
ghost use Rattle.tool_prometheus.specs.Timing.{Starts, is_due as due_after, is_over, restarted};

use crate::surroundings::Surroundings;
use tool_requests::Request;

/// Scrapes by the clock.
#[derive(Clone, Copy, Debug, PartialEq, Eq)]
pub struct Timer {
    /// How many seconds are between two scrapes at least.
    pub period: u64,
    /// The moment of the last scrape, or of the start.
    pub last: u64,
}

impl Timer {
    /// Whether the period is over that began at the last scrape, or the clock went back past that.
    fn is_over(&self, now: u64) -> bool
        ensures { result ≡ is_over self.now now }
    {
        match now.checked_sub(self.last) {
            Some(passed) => self.period <= passed,
            None => true,
        }
    }

    /// Whether a scrape follows a line that comes at this moment.
    pub(crate) fn is_due(&self, now: u64, request: &Request) -> bool
        ensures { result ≡ due_after self.now now request.now }
    {
        if request.is_scrape() {
            return false;
        }
        self.is_over(now)
    }

    /// The timer after a line that comes at this moment.
    pub(crate) fn restarted(self, now: u64, request: &Request) -> Timer
        ensures { result ≡ restarted self now request.now }
    {
        if request.is_scrape() || self.is_over(now) {
            return Timer {
                period: self.period,
                last: now,
            };
        }
        self
    }
}

/// Starts the timer, if scrapes have a period.
pub(crate) fn started<S: Surroundings>(around: &mut S, period: Option<u64>) -> Option<Timer>
    ensures { (more : Asked) × Starts period more result × Asks (S.asked around.old) (S.asked around.new) more }
{
    let Some(period) = period else {
        return None;
    };
    let last = around.seconds();
    Some(Timer { period, last })
}
