//! Answers to requests.
ghost use Rattle.std.specs.Prelude.{◌≡◌, ◌++◌, List, ℕ, OnOk, string_bytes};
ghost use Rattle.metrics_exporter.specs.ExporterText.{IsText};
ghost use Rattle.tool_export.specs.Exported.{Answers, number_of_lines, scrape_text, report_text as text_of_report};

use crate::pages::{Page, shown_at};
use crate::requests::Request;
use metrics::Error;
use metrics_exporter::Exporter;
use std::alloc::AllocError;

/// Returns the line that reports how a call ended.
pub fn report_text(answered: Result<(), Error>) -> &'static str
    ensures { result.now ≡ text_of_report answered }
{
    match answered {
        Ok(()) => "ok\n",
        Err(Error::CountFull) => "refused E8 count full\n",
        Err(_) => "refused E1 memory\n",
    }
}

/// How many lines a text has.
fn line_count(text: &[u8]) -> usize
    ensures { result ≡ number_of_lines text.now }
{
    let mut count = 0;
    for byte in text {
        if *byte == b'\n' {
            count += 1;
        }
    }
    count
}

/// Appends the text of a scrape whose series have this text.
fn write_scrape(now: u64, series: &str, text: &mut String) -> Result<(), AllocError>
    ensures { OnOk result (string_bytes text.new ≡ string_bytes text.old ++ scrape_text now series.now) }
{
    let lines = line_count(series.as_bytes());
    writeln!(text, "scrape {now} {lines}")?;
    text.push_str(series)
}

/// The page with a line for each series.
#[derive(Drop)]
struct SeriesLines;

impl Page for SeriesLines {
    ghost shows = { λ _ _. IsText };

    fn text(&self, on: &Exporter) -> Result<String, Error> {
        on.text()
    }
}

/// Makes the requested call and appends its text. Fails only without memory for the text: the call is still made, and
/// the content of `text` is unspecified.
pub fn answer_request(
    on: &mut Exporter,
    request: &Request,
    text: &mut String,
) -> Result<(), AllocError>
    ensures { (whole : List ℕ) × Answers on.old on.new request.now whole
        × OnOk result (string_bytes text.new ≡ string_bytes text.old ++ whole) }
{
    match request {
        Request::Change(key, by) => text.push_str(report_text(on.update(key, *by))),
        Request::Scrape(now) => match shown_at(&SeriesLines, on, *now) {
            Ok(series) => write_scrape(*now, series.as_str(), text),
            Err(e) => text.push_str(report_text(Err(e))),
        },
    }
}
