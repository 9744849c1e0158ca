//! Laws of the exposition.
ghost use Rattle.std.specs.Prelude.{◌≡◌, ◌↔◌, ◌∷◌, ◌++◌, ◌<◌, ◌^◌, ◌+◌, ◌*◌, ℕ, ℤ, List, [], Option, None, Some};
ghost use Rattle.std.specs.Int.Signed.{mag};
ghost use Rattle.std.specs.Prelude.{All, AllPairs, Contains, FitsSigned};
ghost use Rattle.std.specs.Int.{w64};
ghost use Rattle.std.specs.List.{IsDistinct};
ghost use Rattle.metrics_names.specs.Names.{SeriesKey};
ghost use Rattle.metrics_storage.specs.Histogram.{Distribution};
ghost use Rattle.metrics_exporter.specs.Exporting.{samples, Cells, Setup, Step, IsHeld, cells_after};
ghost use Rattle.metrics_descriptions.specs.Legends.{Legend};
ghost use Rattle.metrics_exposition.specs.declared.naming.Naming.{Naming};
ghost use Rattle.metrics_exposition.specs.Naming.{display_by, unit_end, total_end, recommended_name, HasEndsOnce};
ghost use Rattle.metrics_names.specs.declared.common.Unit.{Unit as Measure};
ghost use Rattle.metrics_names.specs.declared.kind.MetricKind.{MetricKind};
ghost use Rattle.metrics_prometheus.specs.Exposition.{IsScaled, Row, row_of, histogram_names, reading_at, samples_of};
ghost use Rattle.metrics_prometheus.specs.Written.{written, samples_written, is_same_series};
ghost use Rattle.metrics_exposition.specs.Numbers.{unsigned, number, IsShifted};
ghost use Rattle.metrics_exposition.specs.Samples.{Sample, series_text};
ghost use Rattle.metrics_exposition.specs.Reading.{AreOfKinds, AreBuckets, HasNames, CanBeRead, is_same_text, Ascend, NamesOnce};
ghost use Rattle.metrics_prometheus.specs.Written.{AreApart, HasSamples, TellsKinds, DescribesNames};
ghost use Rattle.metrics_prometheus.specs.Written.{HasHistogram, MayStand, IsReported};

use crate::rows::row_order;

/// Does nothing. Its contract has the laws of the text.
pub fn exposition_law()
    // A text consists of lines, which end at its line feeds: these samples, in this order, and comments, which begin with `#`.
    ensures samples { (naming : Naming) (legend : Legend) (places : List ℕ → ℕ) (cells : Cells) (text : List ℕ)
        (e : IsScaled naming legend places cells text) → HasSamples text (samples_written cells e.rows) }
    // No two of these samples have the same name and labels.
    ensures distinct { (naming : Naming) (legend : Legend) (places : List ℕ → ℕ) (cells : Cells) (text : List ℕ)
        → AreOfKinds cells
        → (e : IsScaled naming legend places cells text) → IsDistinct is_same_series (samples_written cells e.rows) }
    // A name that is written has one kind.
    ensures apart { (naming : Naming) (legend : Legend) (places : List ℕ → ℕ) (cells : Cells) (text : List ℕ)
        (e : IsScaled naming legend places cells text) → AllPairs AreApart (written e.rows None e.rows) }
    // The buckets of a histogram ascend, and +Inf's, the last one, has the count.
    ensures buckets { (setup : Setup) (xs : List Step) (r : Row) (d : Distribution)
        → reading_at (cells_after setup xs) r ≡ Some (samples d)
        → AreBuckets r.places r.name r.labels d (samples_of r (reading_at (cells_after setup xs) r)) }
    // A held series' row is written exactly if nothing keeps it from the text.
    ensures written { (naming : Naming) (legend : Legend) (places : List ℕ → ℕ) (cells : Cells) (text : List ℕ)
        (e : IsScaled naming legend places cells text) (s : SeriesKey) → IsHeld cells s
        → Contains (written e.rows None e.rows) (row_of (display_by naming legend places) s)
        ↔ MayStand e.rows (row_of (display_by naming legend places) s) }
    // It has its samples in the text. If something keeps it from the text, it has a line that says that it is left out.
    ensures keyed { (naming : Naming) (legend : Legend) (places : List ℕ → ℕ) (cells : Cells) (text : List ℕ)
        (e : IsScaled naming legend places cells text) (s : SeriesKey) → IsHeld cells s
        → IsReported cells e.rows text (row_of (display_by naming legend places) s) }
    // Each name that is written has one line for its kind, the kind of its rows, before its samples.
    ensures types { (naming : Naming) (legend : Legend) (places : List ℕ → ℕ) (cells : Cells) (text : List ℕ)
        → AreOfKinds cells → (e : IsScaled naming legend places cells text) → TellsKinds cells e.rows text }
    // Each name that is written has the description of its first row that is written, once, before its samples. If that row has
    // none, nothing describes the name.
    ensures helps { (naming : Naming) (legend : Legend) (places : List ℕ → ℕ) (cells : Cells) (text : List ℕ)
        → AreOfKinds cells → (e : IsScaled naming legend places cells text) → DescribesNames cells e.rows text }
    // The names whose parts no other series may have are those of the histograms that are written.
    ensures used { (naming : Naming) (legend : Legend) (places : List ℕ → ℕ) (cells : Cells) (text : List ℕ)
        (e : IsScaled naming legend places cells text) (name : List ℕ) → Contains (histogram_names e.rows) name
        ↔ HasHistogram (written e.rows None e.rows) name }
    // What is held has one text: no two texts are expositions of the same cells, under one naming and the same descriptions.
    ensures one { (naming : Naming) (legend : Legend) (places : List ℕ → ℕ) (cells : Cells) (a b : List ℕ)
        → IsScaled naming legend places cells a → IsScaled naming legend places cells b → a ≡ b }
    // What an exporter holds is of the kinds of its series.
    ensures kinds { (setup : Setup) (xs : List Step)
        → ((unit : Option Measure) (name : List ℕ) → All (FitsSigned w64) (setup.bounds unit name))
        → AreOfKinds (cells_after setup xs) }
{
    row_order();
}

/// Does nothing. Its contract has the laws of what a reader finds in the text.
pub fn exposition_text_law()
    // The names of samples and of their labels are such as Prometheus allows.
    ensures names { (naming : Naming) (legend : Legend) (places : List ℕ → ℕ) (cells : Cells) (text : List ℕ)
        (e : IsScaled naming legend places cells text) → All HasNames (samples_written cells e.rows) }
    // They and the values of the labels can be read.
    ensures readable { (naming : Naming) (legend : Legend) (places : List ℕ → ℕ) (cells : Cells) (text : List ℕ)
        → AreOfKinds cells → (e : IsScaled naming legend places cells text) → All CanBeRead (samples_written cells e.rows) }
    // In a readable sample, the text before the value determines its name and its labels.
    ensures read_back { (s t : Sample) → CanBeRead s → CanBeRead t
        → (x y : List ℕ) → series_text s ++ 32 ∷ x ≡ series_text t ++ 32 ∷ y
        → (s.name ≡ t.name) × ((s.labels ≡ t.labels) × (x ≡ y)) }
    // A text has one list of samples that can be read at most.
    ensures one_reading { (text : List ℕ) (ss ts : List Sample) → HasSamples text ss → HasSamples text ts
        → All CanBeRead ss → All CanBeRead ts → ss ≡ ts }
    // A number's text is the shortest one of that number over a power of ten: its digits, with so many of them after the point,
    // and no 0 after the last other one.
    ensures numbers { (places : ℕ) (z : ℤ) → mag z < 2 ^ 128 → IsShifted places z (number places z) }
    // A number has one text: with more decimal places, and as many zeros more, it is the same.
    ensures one_number { (places k n : ℕ) → unsigned (k + places) (n * 10 ^ k) ≡ unsigned places n }
    // Different numbers of 64 bits have different texts.
    ensures other_numbers { (places : ℕ) (y z : ℤ) → mag y < 2 ^ 63 → mag z < 2 ^ 63 → number places y ≡ number places z → y ≡ z }
    // A recommended name has the end of its unit, and a counter's `_total` after that, once, however many the name given has.
    ensures ends { (kind : MetricKind) (unit : Option Measure) (name : List ℕ)
        → HasEndsOnce (unit_end unit ∷ total_end kind ∷ []) name (recommended_name kind unit name) }
    // No two samples have the same text before their values.
    ensures distinct { (naming : Naming) (legend : Legend) (places : List ℕ → ℕ) (cells : Cells) (text : List ℕ)
        → AreOfKinds cells
        → (e : IsScaled naming legend places cells text) → IsDistinct is_same_text (samples_written cells e.rows) }
    // The labels of a written row ascend by their names.
    ensures labels { (naming : Naming) (legend : Legend) (places : List ℕ → ℕ) (cells : Cells) (text : List ℕ)
        (e : IsScaled naming legend places cells text) → All (λ r. Ascend r.labels) (written e.rows None e.rows) }
    // No sample has two labels of one name, a bucket's bound included.
    ensures once { (naming : Naming) (legend : Legend) (places : List ℕ → ℕ) (cells : Cells) (text : List ℕ)
        → AreOfKinds cells → (e : IsScaled naming legend places cells text) → All NamesOnce (samples_written cells e.rows) }
{}
