//! The toolbox by the Rust crate's modules. It has no function of its own.
#![tactic(auto)]

/// Metrics that the threads of a program share, and their text for Prometheus.
pub mod collector {
    pub use metrics_collector::{
        AbsorbError, BadLabel, Bounds, BoundsError, Collector, CounterHandle, Described,
        Descriptions, Gathered, GatheredSeries, GaugeHandle, HistogramHandle, LEFT_OUT_NAME,
        LabelList, Naming, RowKey, Value, left_out, quantile_bound,
    };
}

/// A book in memory.
pub mod debugging {
    pub use metrics::{DebugValue, Snapshot};
    pub use metrics_debugging::{DebuggingRecorder, Snapshotter};
}

/// Series over a registry, as text.
pub mod exporter {
    pub use metrics_exporter::{
        Bounds, BoundsError, Described, Descriptions, Exporter, PartlyAbsorbed, ReadingRef,
        SeriesReading, SeriesRef, exporter_law,
    };
    pub use metrics_prometheus::{
        Naming, ReadSeries, are_ready, exposition, exposition_law, exposition_named, exposition_of,
        exposition_text_law, left_out,
    };
    pub use metrics_textfile::{TextfileError, textfile_place, write_textfile};
}

/// Recorders that threads share, under rules that say where a name goes, and a thread's look-ups on them.
pub mod layered {
    pub use metrics_layered::{
        CounterHandles, GaugeHandles, Handles, HistogramHandles, Layered, SharedRecorder,
    };
    pub use metrics_local::Local;
}

/// Layers over recorders.
pub mod layers {
    pub use metrics_layers::{Filter, FilterLayer, Layer, Prefix, PrefixLayer, Stack, dotted_name};
    pub use metrics_trees::{Child, Fanout, FanoutBuilder, OverError, Router, RouterBuilder};
}

/// Cells by kind and key, and which of them are still in use.
pub mod registry {
    pub use metrics_journal::{JournaledRegistry, JournaledShard, ShardCall, Tally};
    pub use metrics_registry::{
        Cells, Counted, Generation, HistogramMaker, Kinds, OwnedRecency, OwnedRegistry,
        PlainStorage, Storage, recency_law,
    };
    pub use metrics_shared_registry::{
        AtomicStorage, Generational, GenerationalAtomicStorage, GenerationalStorage, Recency,
        Registry,
    };
}

/// Where names go, apart from what is kept there.
pub mod rules {
    pub use metrics_rules::{
        FanoutBuilder, Named, RouterBuilder, Rules, Scratch, Stopped, Visitor,
    };
}

/// Storage of samples.
pub mod storage {
    pub use metrics_bucket::{AtomicBucket, Pen, RuledBucket, Sample, Visitor, bucket_law};
    pub use metrics_growing::{GrowPen, GrowingBucket, chain_law};
    pub use metrics_storage::{BLOCK_SIZE, Block, Histogram, OwnedBucket, reservoir_law};

    /// A fixed number of values out of all that were pushed.
    pub mod reservoir {
        pub use metrics_shared::reservoir::AtomicSamplingReservoir;
        pub use metrics_storage::reservoir::{Drain, Reservoir};
    }
}

pub use metrics::{Answer, Call, CompositeKey, Error, MetricKind, MetricKindMask};
pub use metrics_bucket::bucket_law;
pub use metrics_cells::{CounterFn, GaugeFn, HistogramFn, counter_value, gauge_value};
pub use metrics_registry::{
    DefaultHashable, EqualClone, Hashable, KeyHasher, Quantile, parse_quantiles, recency_law,
};
pub use metrics_replay::{Journaled, answer_of, replay};
pub use metrics_shared::{
    Install, RecoverableRecorder, RecoveryHandle, SetRecorderError, Shared, Slot, SlotRecorder,
};
pub use metrics_storage::reservoir_law;
