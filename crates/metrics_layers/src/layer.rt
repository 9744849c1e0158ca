//! What can wrap a recorder.
ghost use Rattle.std.specs.Prelude.{◌≡◌, Option, None, IfOk, IfErr, OnOk, unwrap_or};
ghost use Rattle.metrics.specs.Meaning.{Meaning};
ghost use Rattle.metrics.specs.declared.error.Error.{Error as Fault};
ghost use Rattle.metrics.specs.declared.error.Error.TheVariants.{Memory};

use metrics::{Error, Recorder};
use std::alloc::Global;

/// Wraps a recorder in a layer, which makes a recorder again.
pub trait Layer<R: Recorder>: Drop {
    /// The recorder inside the layer.
    type Output: Recorder;

    /// What the layer makes of a recorder.
    ghost over: { Self → Meaning → Meaning };

    /// Why the layer fails however much memory there is, if it does.
    ghost fault: { Self → Option Fault };

    /// Wraps a recorder in the layer. Returns the recorder if that fails.
    ///
    /// Fails for the layer's own fault, and without one only when out of memory.
    fn layer(&self, alloc: Global, inner: R) -> Result<Self::Output, (Error, R)>
        ensures made { IfOk result (λ o. Self.Output.meaning o ≡ over self.now (R.meaning inner)) }
        ensures faultless { OnOk result (fault self.now ≡ None) }
        ensures refused { IfErr result (λ e.
            (e.0 ≡ unwrap_or (fault self.now) Memory) × (e.1 ≡ inner)) };
}
