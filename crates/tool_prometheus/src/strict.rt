//! What a strict run takes for bad: names, labels and series that the text doesn't have as they were given.
ghost use Rattle.std.specs.Prelude.{◌≡◌, string_bytes};
ghost use Rattle.std.specs.List.{list_any};
ghost use Rattle.tool_prometheus.specs.Asked.{Asks, nothing_asked};
ghost use Rattle.tool_prometheus.specs.Strict.{respells as respells_of, respells_label as respells_one, noted};
ghost use Rattle.tool_prometheus.specs.Strict.{leaves_out as leaves_some};

use crate::answering::Served;
use crate::surroundings::Surroundings;
use crate::watching::Watch;
use metrics::Label;
use metrics_prometheus::CountedText;
use tool_requests::{Request, is_as_given};

/// Whether the text has another name for a label. It doesn't show one without a value.
fn respells_label(label: &Label) -> bool
    ensures { result ≡ respells_one label.now }
{
    !is_as_given(label.key(), 0, false) && !label.value().is_empty()
}

/// Whether the text has another name for one of these labels.
fn respells_some(labels: &[Label]) -> bool
    ensures { result ≡ list_any respells_one labels.now }
{
    labels.iter().any(|label| respells_label(label))
}

/// Whether the text has the name or a label of a request otherwise.
fn respells(front: usize, request: &Request) -> bool
    ensures { result ≡ respells_of front request.now }
{
    match request {
        Request::Change(key, _) => {
            !is_as_given(key.name(), front, true) || respells_some(key.labels())
        }
        Request::Describe(_, name, _, _) => !is_as_given(name.as_str(), front, true),
        Request::Scrape(_) | Request::Nothing => false,
    }
}

/// Notes as bad, in a strict run, that the text has a name or a label of a request otherwise.
pub(crate) fn note_names(on: &mut Served, request: &Request)
    ensures { on.new ≡ record on.old {
      has_bad = noted on.old.is_strict (respells_of on.old.front request.now) on.old.has_bad;
    } }
{
    if on.is_strict && respells(on.front, request) {
        on.has_bad = true;
    }
}

/// Reports the series that a text leaves out, and notes in a strict run that it leaves some out.
pub(crate) fn note_left_out<S: Surroundings>(
    on: &mut Served,
    around: &mut S,
    watch: &mut Watch,
    shown: &CountedText,
)
    ensures noted { on.new ≡ record on.old {
      has_bad = noted on.old.is_strict (leaves_some (string_bytes shown.now.text)) on.old.has_bad;
    } }
    ensures asked { Asks (S.asked around.old) (S.asked around.new) nothing_asked }
{
    if shown.left_out.is_empty() {
        return;
    }
    watch.tell_left_out(around, shown);
    if on.is_strict {
        on.has_bad = true;
    }
}
