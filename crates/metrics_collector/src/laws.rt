//! Laws of the definitions.
ghost use Rattle.std.specs.Prelude.{◌≡◌, ℕ, List};
ghost use Rattle.metrics_names.specs.Names.{SeriesKey};
ghost use Rattle.metrics_descriptions.specs.Legends.{Legend};
ghost use Rattle.metrics_exporter.specs.Readings.{KeyedReading, AreOnce, cells_of_readings};
ghost use Rattle.metrics_exposition.specs.declared.naming.Naming.{Naming};
ghost use Rattle.metrics_prometheus.specs.Exposition.{IsDescribed};
ghost use Rattle.metrics_collector.specs.Merging.{AreJoined, AreCounters, HasEachOnce, reading_of_series};

/// Does nothing. Its contract says that counters are absorbed in either order.
pub fn absorb_law()
    // Each series has one count then.
    ensures readings { (a b ab ba : List KeyedReading) → AreCounters a → AreCounters b
        → AreJoined a b ab → AreJoined b a ba → (s : SeriesKey) → reading_of_series s ab ≡ reading_of_series s ba }
    // And both have one text, under one naming and the same descriptions.
    ensures texts { (naming : Naming) (legend : Legend) (a b ab ba kept other : List KeyedReading) (x y : List ℕ)
        → AreCounters a → AreCounters b → AreJoined a b ab → AreJoined b a ba → HasEachOnce ab → HasEachOnce ba
        → AreOnce ab kept → AreOnce ba other
        → IsDescribed naming legend (cells_of_readings kept) x
        → IsDescribed naming legend (cells_of_readings other) y → x ≡ y }
{}
