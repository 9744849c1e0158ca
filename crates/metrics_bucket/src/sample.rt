//! Values that fit a word.

/// A value that fits a word of 64 bits, so that it is written and read in one step.
pub trait Sample: Copy {
    ghost use Rattle.std.specs.Prelude.{◌≡◌, ℕ};
    ghost use Rattle.metrics_bucket.specs.Room.{RoomFits};

    ghost word: { Self → ℕ };

    ghost value: { ℕ → Self };

    /// Returns the value as a word.
    fn to_word(self) -> u64
        ensures { result ≡ word self };

    /// Returns the value of a word, or some value if no value has that word.
    fn of_word(bits: u64) -> Self
        ensures { result ≡ value bits };

    ghost back: { (x : Self) → value (word x) ≡ x };

    // A chunk of 64 values fits in memory.
    ghost chunk_fits: { RoomFits Self.row };
}

impl Sample for u64 {
    ghost use Rattle.std.specs.Prelude.{refl};
    ghost use Rattle.std.proofs.Common.{arith};

    ghost word = { λ x. x };

    ghost value = { λ x. x };

    ghost back = { λ _. refl };

    ghost chunk_fits = { omega arith };

    fn to_word(self) -> u64 {
        self
    }

    fn of_word(bits: u64) -> u64 {
        bits
    }
}

/// The word holds the 64 bits of the value, as a gauge's does.
impl Sample for i64 {
    ghost use Rattle.std.specs.Prelude.{◌≡◌};
    ghost use Rattle.std.specs.Int.{w64, cast_signed, cast_unsigned};
    ghost use Rattle.std.proofs.Common.{arith};
    ghost use Rattle.metrics_bucket.specs.Signs.{word_of, value_of, words_back};

    ghost word = { word_of };

    ghost value = { value_of };

    ghost back = { words_back };

    ghost chunk_fits = { omega arith };

    fn to_word(self) -> u64
        ensures word { result ≡ word_of self }
        ensures bits { result ≡ cast_unsigned w64 self }
    {
        self.cast_unsigned()
    }

    fn of_word(bits: u64) -> i64
        ensures value { result ≡ value_of bits }
        ensures signed { result ≡ cast_signed w64 bits }
    {
        bits.cast_signed()
    }
}
