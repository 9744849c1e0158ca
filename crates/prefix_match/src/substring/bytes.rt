//! Bytes as they are compared.
ghost use Rattle.std.specs.Prelude.{◌≡◌};
ghost use Rattle.prefix_match.specs.Substring.{lowered_byte};

/// Returns the byte as it is compared: an ASCII capital letter is lowered if case is folded.
#[inline(always)]
pub fn lowered(fold_case: bool, byte: u8) -> u8
    ensures { result ≡ lowered_byte fold_case byte }
{
    if fold_case && byte >= b'A' && byte <= b'Z' {
        byte + 32
    } else {
        byte
    }
}
