//! How many decimal places the numbers of a name have.
ghost use Rattle.std.specs.Prelude.{◌≡◌, ◌+◌, ℕ, List};
ghost use Rattle.metrics_exposition.specs.Naming.{no_places};

/// The decimal places of the numbers of names, beside those of their units.
pub trait DecimalPlaces {
    /// The decimal places by name.
    ghost places: { Self → List ℕ → ℕ };

    /// Returns how many decimal places the numbers of a name have: they are whole numbers of the last one.
    fn places_of(&self, name: &str) -> u8
        ensures { result ≡ places self.now name.now };
}

/// All numbers are whole.
#[derive(Clone, Copy, Debug, Default, PartialEq, Eq)]
pub struct WholeNumbers;

impl DecimalPlaces for WholeNumbers {
    ghost use Rattle.metrics_exposition.specs.Naming.{no_places};

    ghost places = { λ p. no_places };

    fn places_of(&self, _name: &str) -> u8 {
        0
    }
}

/// Returns the decimal places of a name and those of its unit together.
pub fn all_places(own: u8, of_unit: u8) -> u16
    ensures { result ≡ own + of_unit }
{
    u16::from(own) + u16::from(of_unit)
}
