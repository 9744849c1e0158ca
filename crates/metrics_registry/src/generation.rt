//! Values that count their changes.
ghost use Rattle.std.specs.Prelude.{◌≡◌, ◌+◌, ◌%◌, ◌^◌, OnOk, OnErr};
ghost use Rattle.std.specs.Fn.{FnOnceReturnsAtMut, FnOnceTakesAtMut};

use std::marker::Model;

/// The number of changes of a value, modulo 2^64.
#[derive(Clone, Copy, Debug, PartialEq, Eq, PartialOrd, Ord)]
pub struct Generation(u64);

impl Model for Generation {
    ghost use Rattle.std.specs.Prelude.{ℕ};

    ghost Value = { ℕ };

    ghost view = { λ a. a.0 };

    ghost inverse = { λ n. record { 0 = n } };
}

impl Generation {
    /// Makes a generation after so many changes.
    pub fn new(changes: u64) -> Generation
        ensures { result ≡ changes }
    {
        Generation(changes)
    }

    /// The generation after one more change.
    fn next(self) -> Generation
        ensures { result ≡ (self + 1) % 2 ^ 64 }
    {
        Generation(self.0.wrapping_add(1))
    }
}

/// Calls `f` once on a value.
fn call<T, V, F: FnOnce(&mut T) -> V>(value: &mut T, f: F) -> V
    requires { FnOnceTakesAtMut F.FnOnce f value.old }
    ensures { FnOnceReturnsAtMut F.FnOnce f value.old result value.new }
{
    f(value)
}

/// A value with its generation.
#[derive(Clone, Debug, Drop)]
pub struct Counted<T> {
    inner: T,
    generation: Generation,
}

impl<T> Counted<T> {
    /// Makes a counted value at generation 0.
    pub fn new(inner: T) -> Counted<T>
        ensures { result ≡ record { inner = inner; generation = 0 } }
    {
        Counted {
            inner,
            generation: Generation::new(0),
        }
    }

    /// Returns the value.
    pub fn get_inner(&self) -> &T
        ensures { result.now ≡ self.now.inner }
    {
        &self.inner
    }

    /// Returns the generation.
    pub fn get_generation(&self) -> Generation
        ensures { result ≡ self.now.generation }
    {
        self.generation
    }

    /// Calls `f` once on the value and then raises the generation, whatever `f` returns.
    pub fn with_increment<V, F: FnOnce(&mut T) -> V>(&mut self, f: F) -> V
        requires { FnOnceTakesAtMut F.FnOnce f self.old.inner }
        ensures called { FnOnceReturnsAtMut F.FnOnce f self.old.inner result self.new.inner }
        ensures raised { self.new.generation ≡ (self.old.generation + 1) % 2 ^ 64 }
    {
        let answer = call(&mut self.inner, f);
        self.generation = self.generation.next();
        answer
    }

    /// Calls `f` once on the value, and raises the generation if `f` returns `Ok`.
    pub fn try_increment<V, E, F: FnOnce(&mut T) -> Result<V, E>>(&mut self, f: F) -> Result<V, E>
        requires { FnOnceTakesAtMut F.FnOnce f self.old.inner }
        ensures called { FnOnceReturnsAtMut F.FnOnce f self.old.inner result self.new.inner }
        ensures raised { OnOk result (self.new.generation ≡ (self.old.generation + 1) % 2 ^ 64) }
        ensures refused { OnErr result (self.new.generation ≡ self.old.generation) }
    {
        let answer = call(&mut self.inner, f);
        if answer.is_ok() {
            self.generation = self.generation.next();
        }
        answer
    }
}
