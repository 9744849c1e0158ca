//! Numbers as they are written.
ghost use Rattle.std.specs.Prelude.{◌≡◌, ◌++◌, OnOk, string_bytes, decimal};
ghost use Rattle.metrics_exposition.specs.Numbers.{pointed, unsigned, number};

use itoa::Buffer;
use std::alloc::AllocError;

/// Writes a number of units of the last of so many decimal places.
fn write_pointed(text: &mut String, places: u16, units: u128) -> Result<(), AllocError>
    ensures { OnOk result (string_bytes text.new ≡ string_bytes text.old ++ pointed places units) }
{
    if places == 0 {
        write!(text, "{units}.")?;
        return Ok(());
    }
    write_pointed(text, places - 1, units / 10)?;
    let digit = (units % 10) as u8;
    text.push(char::from(b'0' + digit))
}

/// Writes a number of units of the last of so many decimal places, without zeros at its end.
fn write_unsigned(text: &mut String, places: u16, units: u128) -> Result<(), AllocError>
    ensures { OnOk result (string_bytes text.new ≡ string_bytes text.old ++ unsigned places units) }
{
    if places == 0 {
        write!(text, "{units}")?;
        return Ok(());
    }
    if units % 10 == 0 {
        return write_unsigned(text, places - 1, units / 10);
    }
    write_pointed(text, places, units)
}

/// Writes a number of samples in decimal digits.
///
/// Fails when out of memory.
pub fn write_count(text: &mut String, count: u64) -> Result<(), AllocError>
    ensures { OnOk result (string_bytes text.new ≡ string_bytes text.old ++ decimal count) }
{
    let mut digits = Buffer::new();
    text.push_str(digits.format(count))
}

/// Writes a number of units of the last of so many decimal places: its shortest text. 1500 units of the third place are `1.5`.
///
/// Fails when out of memory, after a part of the number.
pub fn write_number(text: &mut String, places: u16, units: i128) -> Result<(), AllocError>
    ensures { OnOk result (string_bytes text.new ≡ string_bytes text.old ++ number places units) }
{
    if places == 0 {
        let mut digits = Buffer::new();
        return text.push_str(digits.format(units));
    }
    if units < 0 {
        text.push_str("-")?;
    }
    write_unsigned(text, places, units.unsigned_abs())
}
