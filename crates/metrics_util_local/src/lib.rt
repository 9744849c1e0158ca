//! The part of the toolbox that needs no handles, by the Rust crate's modules: nothing here waits or starts a thread. It has
//! no function of its own.
#![tactic(auto)]

/// A book in memory.
pub mod debugging {
    pub use metrics::{DebugValue, Snapshot};
    pub use metrics_debugging::{DebuggingRecorder, Snapshotter};
}

/// Series over a registry, as text.
pub mod exporter {
    pub use metrics_exporter::{
        Bounds, BoundsError, Described, Descriptions, Exporter, PartlyAbsorbed, ReadingRef,
        SeriesReading, SeriesRef, exporter_law,
    };
    pub use metrics_prometheus::{
        Naming, ReadSeries, are_ready, exposition, exposition_law, exposition_named, exposition_of,
        exposition_text_law, left_out,
    };
    pub use metrics_textfile::{TextfileError, textfile_place, write_textfile};
}

/// Layers over recorders.
pub mod layers {
    pub use metrics_layers::{Filter, FilterLayer, Layer, Prefix, PrefixLayer, Stack, dotted_name};
    pub use metrics_trees::{Child, Fanout, FanoutBuilder, OverError, Router, RouterBuilder};
}

/// Cells by kind and key, and which of them are still in use.
pub mod registry {
    pub use metrics_registry::{
        Cells, Counted, Generation, HistogramMaker, Kinds, OwnedRecency, OwnedRegistry,
        PlainStorage, Storage, recency_law,
    };
}

/// Where names go, apart from what is kept there.
pub mod rules {
    pub use metrics_rules::{
        FanoutBuilder, Named, RouterBuilder, Rules, Scratch, Stopped, Visitor,
    };
}

/// Storage of samples.
pub mod storage {
    pub use metrics_storage::{BLOCK_SIZE, Block, Histogram, OwnedBucket, reservoir_law};

    /// A fixed number of values out of all that were pushed.
    pub mod reservoir {
        pub use metrics_storage::reservoir::{Drain, Reservoir};
    }
}

pub use metrics::{Answer, Call, CompositeKey, Error, MetricKind, MetricKindMask};
pub use metrics_registry::{
    DefaultHashable, EqualClone, Hashable, KeyHasher, Quantile, parse_quantiles, recency_law,
};
pub use metrics_replay::{Journaled, answer_of, replay};
pub use metrics_storage::reservoir_law;
