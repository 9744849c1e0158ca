//! A word of 64 bits as the cell of a counter, and of a gauge.
ghost use Rattle.std.specs.Prelude.{◌≡◌, ◌+ℤ◌, ◌-ℤ◌};
ghost use Rattle.std.specs.Int.{w64, cast_signed, cast_unsigned, saturate_signed};

use crate::handles::{CounterFn, GaugeFn};
use crate::pause::Pause;
use std::sync::Wait;
use std::sync::atomic::{AtomicU64, Ordering};

/// The word is the count, which `counter_value` reads.
impl CounterFn for AtomicU64 {
    fn increment(&self, value: u64) {
        self.fetch_add(value, Ordering::SeqCst);
    }

    fn absolute(&self, value: u64) {
        self.fetch_max(value, Ordering::SeqCst);
    }
}

/// The word holds the 64 bits of the value, which `gauge_value` reads.
impl GaugeFn for AtomicU64 {
    fn increment<W: Wait>(&self, rt: &W, value: i64) {
        change(rt, self, |bits| added(bits, value));
    }

    fn decrement<W: Wait>(&self, rt: &W, value: i64) {
        change(rt, self, |bits| subtracted(bits, value));
    }

    fn set(&self, value: i64) {
        self.store(value.cast_unsigned(), Ordering::SeqCst);
    }
}

/// Returns the count in a word that is a counter (`CounterFn`), as it is now.
pub fn counter_value(word: &AtomicU64) -> u64 {
    word.load(Ordering::SeqCst)
}

/// Returns the value in a word that is a gauge (`GaugeFn`), as it is now.
///
/// The word holds its 64 bits: a value below 0 is a word of 2^63 or more.
pub fn gauge_value(word: &AtomicU64) -> i64 {
    word.load(Ordering::SeqCst).cast_signed()
}

/// Returns the bits of a value with another added.
fn added(bits: u64, value: i64) -> u64
    ensures { result ≡ cast_unsigned w64 (saturate_signed w64 (cast_signed w64 bits +ℤ value)) }
{
    bits.cast_signed().saturating_add(value).cast_unsigned()
}

/// Returns the bits of a value with another subtracted.
fn subtracted(bits: u64, value: i64) -> u64
    ensures { result ≡ cast_unsigned w64 (saturate_signed w64 (cast_signed w64 bits -ℤ value)) }
{
    bits.cast_signed().saturating_sub(value).cast_unsigned()
}

/// Replaces the word by what `next` returns for it, and tries again if another thread was first.
fn change<W: Wait, F: Fn(u64) -> u64>(rt: &W, word: &AtomicU64, next: F)
    requires { F.IsAlwaysCallable next }
{
    let pause = Pause::new();
    for _ in rt.forever() {
        let seen = word.load(Ordering::SeqCst);
        match word.compare_exchange(seen, next(seen), Ordering::SeqCst, Ordering::SeqCst) {
            Ok(_) => return,
            Err(_) => pause.after_lost_race(),
        }
    }
}
