//! A text with the places of the lines that report which series it leaves out.
ghost use Rattle.std.specs.Prelude.{◌≡◌, length, string_bytes};
ghost use Rattle.metrics_prometheus.specs.LeftOut.{left_out_number, LeavesOut, BeginLeftOut};

/// A text, and where in it the lines `# left out: ..` begin, in bytes and in order: one for each series that it leaves out.
#[derive(Drop)]
pub struct CountedText {
    pub text: String,
    pub left_out: Vec<usize>,
    pub ghost number: { length left_out.items ≡ left_out_number (string_bytes text) },
    // Its last line is ended.
    pub ghost whole: { LeavesOut (string_bytes text) (length left_out.items) },
    pub ghost places: { BeginLeftOut (string_bytes text) left_out.items },
}
