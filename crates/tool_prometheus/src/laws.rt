//! Laws of the definitions.
ghost use Rattle.std.specs.Prelude.{◌≡◌, ◌≢◌, ◌↔◌, ◌+◌, ℕ, List, true, false, length, nat_lt};
ghost use Rattle.std.specs.Option.{option_or};
ghost use Rattle.metrics_names.specs.Names.{LabelParts};
ghost use Rattle.tool_prometheus.specs.declared.commands.Options.{Options};
ghost use Rattle.tool_prometheus.specs.Asked.{Asked as Deeds};
ghost use Rattle.tool_prometheus.specs.Serving.{Start};
ghost use Rattle.tool_prometheus.specs.Output.{IsOutput, Runs, NamesMoments, with_shards};
ghost use Rattle.metrics_exporter.specs.Exporting.{Cells};
ghost use Rattle.metrics_descriptions.specs.Legends.{Legend};
ghost use Rattle.metrics_exposition.specs.declared.naming.Naming.{Naming};
ghost use Rattle.metrics_prometheus.specs.Exposition.{IsScaled};
ghost use Rattle.metrics_exposition.specs.Names.{metric_name, label_name};
ghost use Rattle.metrics_prometheus.specs.LeftOut.{left_out_number};
ghost use Rattle.metrics_prometheus.specs.Written.{written};
ghost use Rattle.tool_requests.specs.Spelled.{stays};
ghost use Rattle.tool_prometheus.specs.Strict.{leaves_out};
ghost use Rattle.metrics_exposition.specs.Reading.{AreOfKinds};
ghost use Rattle.tool_prometheus.specs.Own.{Own, own_series, with_own, IsExposedOwn};

use metrics_exporter::exporter_law;
use metrics_prometheus::exposition_law;

/// Does nothing: its contract states the laws of what a strict run takes for bad.
pub fn strict_law()
    // A name stays exactly if the text has it as it is,
    ensures names { (name : List ℕ) → (stays true 0 name ≡ true) ↔ (metric_name name ≡ name) }
    // and so does the name of a label.
    ensures labels { (name : List ℕ) → (stays false 0 name ≡ true) ↔ (label_name name ≡ name) }
    // A text leaves a series out exactly if fewer rows are written than there are: one for each series that is held.
    ensures left_out { (naming : Naming) (legend : Legend) (places : List ℕ → ℕ) (cells : Cells) (text : List ℕ)
        (e : IsScaled naming legend places cells text)
        → leaves_out text ≡ nat_lt (length (written e.rows None e.rows)) (length e.rows) }
{}

/// Does nothing: its contract states the laws of texts with the series about the program itself.
pub fn self_law()
    // A text leaves out as many series as there are rows that aren't written.
    ensures number { (naming : Naming) (legend : Legend) (places : List ℕ → ℕ) (cells : Cells) (text : List ℕ)
        (e : IsScaled naming legend places cells text)
        → left_out_number text + length (written e.rows None e.rows) ≡ length e.rows }
    // With the program's own series a text leaves out as many itself as one of them says.
    ensures same { (own : Own) (held : ℕ) (naming : Naming) (legend : Legend) (places : List ℕ → ℕ) (cells : Cells)
        (first text : List ℕ) → IsExposedOwn own held 0 naming legend places cells first
        → IsExposedOwn own held (left_out_number first) naming legend places cells text
        → left_out_number text ≡ left_out_number first }
    // They are of their kinds, as what is held is, so that the laws of expositions hold with them.
    ensures kinds { (own : Own) (held left_out : ℕ) (cells : Cells) → AreOfKinds cells
        → AreOfKinds (with_own (own_series own held left_out) cells) }
{
    exposition_law();
}

/// Does nothing: its contract states the laws of what a whole run of `command` writes.
pub fn output_law()
    // The same options, start, bytes and moments of the clock have one text, one list of texts in the file, and one status.
    ensures one { (options : Options) (start : Start) (bytes a b : List ℕ) (p q : Deeds) (s t : ℕ)
        → IsOutput options start bytes p a s → IsOutput options start bytes q b t
        → p.clock ≡ q.clock → (p ≡ q) × (a ≡ b) × (s ≡ t) }
    // A run writes those and ends with that status. Where memory, the device or the file fails, or the count of a series'
    // samples is full, the status is 1.
    ensures written { (options : Options) (start : Start) (bytes text : List ℕ) (asked : Deeds) (status : ℕ)
        → Runs options start bytes asked text status → status ≢ 1 → IsOutput options start bytes asked text status }
    // So two such runs over the same bytes agree, with any numbers of shards, where each scrape has its own moment.
    ensures same { (options : Options) (start : Start) (shards : ℕ) (bytes a b : List ℕ) (p q : Deeds) (s t : ℕ)
        → NamesMoments options bytes → Runs options start bytes p a s → Runs (with_shards shards options) start bytes q b t
        → s ≢ 1 → t ≢ 1 → (p ≡ q) × (a ≡ b) × (s ≡ t) }
{
    exporter_law();
    exposition_law();
}
