//! What is counted while lines are read.
ghost use Rattle.std.specs.Prelude.{◌≡◌};
ghost use Rattle.tool_prometheus.specs.Own.{nothing_counted, with_line as line_more, with_bad_line as bad_line_more};
ghost use Rattle.tool_prometheus.specs.Own.{with_refusal as refusal_more};

/// What was counted so far. Each number saturates at 2^64 - 1.
#[derive(Clone, Copy, Debug, PartialEq, Eq)]
pub struct Counts {
    /// The lines, with bad ones.
    pub lines: u64,
    /// The bad lines that were skipped.
    pub bad: u64,
    /// The updates, descriptions and scrapes that were refused.
    pub refused: u64,
}

impl Counts {
    /// Before the first line.
    pub fn new() -> Counts
        ensures { result ≡ nothing_counted }
    {
        Counts {
            lines: 0,
            bad: 0,
            refused: 0,
        }
    }

    /// With one more line.
    pub(crate) fn with_line(self) -> Counts
        ensures { result ≡ line_more self }
    {
        Counts {
            lines: self.lines.saturating_add(1),
            ..self
        }
    }

    /// With one more line, a bad one that is skipped.
    pub(crate) fn with_bad_line(self) -> Counts
        ensures { result ≡ bad_line_more self }
    {
        Counts {
            lines: self.lines.saturating_add(1),
            bad: self.bad.saturating_add(1),
            ..self
        }
    }

    /// With one more call that was refused.
    pub(crate) fn with_refusal(self) -> Counts
        ensures { result ≡ refusal_more self }
    {
        Counts {
            refused: self.refused.saturating_add(1),
            ..self
        }
    }
}
