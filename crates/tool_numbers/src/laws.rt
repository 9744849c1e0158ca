//! Laws of numbers in decimal notation.
ghost use Rattle.std.specs.Prelude.{◌≡◌, ◌<◌, ◌^◌, ℕ, ℤ, List};
ghost use Rattle.tool_numbers.specs.Numerals.{IsNumber};

/// Does nothing: its contract states the law of numbers.
pub fn number_law()
    // A word is at most one number.
    ensures one { (places : ℕ) (y z : ℤ) (word : List ℕ) → IsNumber places y word → IsNumber places z word → y ≡ z }
{}
