//! Numbers by powers of ten.
ghost use Rattle.std.specs.Prelude.{◌≡◌, ◌<◌, ◌≤◌, ◌+◌, ◌*◌, ◌^◌, ℕ, MatchOption};

/// A number times a power of ten, below 2^64.
fn raised(n: u128, by: u32) -> Option<u64>
    ensures { MatchOption result ((units : ℕ) → units < 2 ^ 64 → units ≡ n * 10 ^ by → ⊥) (λ units. units ≡ n * 10 ^ by) }
{
    if n == 0 {
        return Some(0);
    }
    let Some(power) = 10u128.checked_pow(by) else {
        return None;
    };
    match n.checked_mul(power) {
        Some(product) => small(product),
        None => None,
    }
}

/// A number below 2^64.
fn small(n: u128) -> Option<u64>
    ensures { MatchOption result (n < 2 ^ 64 → ⊥) (λ units. units ≡ n) }
{
    if n <= u128::from(u64::MAX) {
        Some(n as u64)
    } else {
        None
    }
}

/// The number below 2^64 that this one is a power of ten times.
fn lowered(n: u128, by: u32) -> Option<u64>
    ensures { MatchOption result ((units : ℕ) → units < 2 ^ 64 → units * 10 ^ by ≡ n → ⊥) (λ units. units * 10 ^ by ≡ n) }
{
    if n == 0 {
        return Some(0);
    }
    let Some(power) = 10u128.checked_pow(by) else {
        return None;
    };
    if n % power != 0 {
        return None;
    }
    small(n / power)
}

/// The number below 2^64 that, times the one power of ten, is n times the other.
pub(crate) fn shifted(n: u128, up: u32, down: u32) -> Option<u64>
    ensures { MatchOption result ((units : ℕ) → units < 2 ^ 64 → units * 10 ^ down ≡ n * 10 ^ up → ⊥)
        (λ units. units * 10 ^ down ≡ n * 10 ^ up) }
{
    if down <= up {
        raised(n, up - down)
    } else {
        lowered(n, down - up)
    }
}
