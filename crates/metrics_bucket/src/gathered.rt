//! A walk's values in one vector.
ghost use Rattle.metrics_bucket.specs.Gathers.{Gathers};

use crate::visitor::Visitor;

// Appends as many of these values as there is room for.
fn append<T: Copy>(values: &mut Vec<T>, part: &[T])
    ensures { Gathers values.old part.now values.new }
{
    let room = values.capacity() - values.len();
    for x in &part[..part.len().min(room)] {
        values.push_reserved(*x);
    }
}

/// A visitor that collects the values it is shown, as many as it has room for.
#[derive(Drop)]
pub struct Gathered<T> {
    pub values: Vec<T>,
}

impl<T: Copy> Visitor<T> for Gathered<T> {
    ghost use Rattle.std.specs.Prelude.{⊤};
    ghost use Rattle.metrics_bucket.specs.Gathers.{Gathers};

    ghost ready = { λ _. ⊤ };

    ghost saw = { λ p xs q. Gathers p.values xs q.values };

    fn see(&mut self, part: &[T]) {
        append(&mut self.values, part);
    }
}
