//! What a text says of the series that it leaves out.
ghost use Rattle.std.specs.Prelude.{◌≡◌, ◌++◌, ◌∷◌, [], List, OnOk, IfOk, IfErr, IfSome, flat_map, option_map};
ghost use Rattle.std.specs.List.{AllByRecursion, filter_map};
ghost use Rattle.std.specs.Option.{option_to_list};
ghost use Rattle.metrics.specs.declared.error.Error.TheVariants.{Memory as OutOfMemory};
ghost use Rattle.metrics_prometheus.specs.LeftOut.{SaysAt};
ghost use Rattle.metrics_prometheus.specs.Rows.{names_shown};
ghost use Rattle.metrics_prometheus.specs.Written.{Line, line_text, left_out_in, IsReadable};

use metrics::Error;
use std::alloc::{AllocError, Global};

/// What a line, without its line feed, says of a series that is left out.
fn left_out_in_line(line: &str) -> Option<&str>
    ensures { (l : Line) → IsReadable l → line_text l ≡ line.now ++ 10 ∷ []
        → option_map (λ t. t.now) result ≡ left_out_in l }
{
    line.strip_prefix("# left out: ")
}

/// Adds what a line says.
fn push_left_out<'t>(found: &mut Vec<&'t str>, line: &'t str) -> Result<(), AllocError>
    ensures { OnOk result ((l : Line) → IsReadable l → line_text l ≡ line.now ++ 10 ∷ []
        → names_shown found.new.items ≡ names_shown found.old.items ++ option_to_list (left_out_in l)) }
{
    match left_out_in_line(line) {
        Some(words) => {
            found.push(words)?;
            Ok(())
        }
        None => Ok(()),
    }
}

/// Returns what a text of this crate says of each series that it leaves out, in order: `KIND NAME{LABELS}: REASON`, without the
/// `# left out: ` at the start. Fails only with `Error::Memory`. A text that leaves out none allocates nothing.
pub fn left_out(alloc: Global, text: &str) -> Result<Vec<&str>, Error>
    ensures found { (lines : List Line) → text.now ≡ flat_map line_text lines → AllByRecursion IsReadable lines
        → IfOk result (λ found. names_shown found.items ≡ filter_map left_out_in lines) }
    ensures err { IfErr result (λ e. e ≡ OutOfMemory) }
{
    let mut found = Vec::new(alloc);
    let mut rest = text;
    while let Some((line, later)) = rest.split_once('\n') {
        push_left_out(&mut found, line)?;
        rest = later;
    }
    Ok(found)
}

/// Returns what the line at a place of a `CountedText` says of a series that is left out, as `left_out` returns it. `None` if no
/// such line begins there.
pub fn left_out_at(text: &str, place: usize) -> Option<&str>
    ensures { IfSome result (λ words. SaysAt text.now place words.now) }
{
    let (line, _) = text.get(place..)?.split_once('\n')?;
    line.strip_prefix("# left out: ")
}
