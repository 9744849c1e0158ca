//! Laws of the definitions.
ghost use Rattle.metrics_registry.specs.Idleness.{TableGivesRuns};
ghost use Rattle.metrics_registry.specs.IdlenessExamples.{SeenBack, SeenHeld};

/// Does nothing: its contract states the laws of recency.
pub fn recency_law<K: Eq>()
    // Over every list of checks the table decides by the checks' runs.
    ensures runs { TableGivesRuns K.eq }
    // A moment that goes back doesn't move a run's first check.
    ensures back { SeenBack }
    // What the registry didn't hold is not removed, and its run continues.
    ensures held { SeenHeld }
{}
