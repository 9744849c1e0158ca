//! What an exporter can be made with.

use crate::given::{Exports, MEMORY};
use metrics::{Error, MetricKindMask};
use metrics_exporter::Exporter;
use std::process::Abort;

/// Numbers of shards, bounds, and the error. The shards are checked first.
const ASKED: [(usize, &[i64], Option<Error>); 9] = [
    (0, &[], Some(Error::BadShards)),
    (3, &[], Some(Error::BadShards)),
    (2048, &[], Some(Error::BadShards)),
    (3, &[10], Some(Error::BadShards)),
    (2048, &[10], Some(Error::BadShards)),
    (1, &[], Some(Error::NoBounds)),
    (1024, &[], Some(Error::NoBounds)),
    (1, &[10], None),
    (1024, &[10], None),
];

fn expect_made<E: Exports>(
    rt: &impl Abort,
    made: Result<E, Error>,
    refusal: Option<Error>,
    shards: usize,
) {
    match refusal {
        Some(refusal) => assert_eq!(rt; made.err(), Some(refusal), "{shards} shards"),
        None => assert_eq!(rt; made.expect(rt, MEMORY).len(), 0),
    }
}

#[test]
fn shards_are_tested_before_bounds(rt: HostRuntime) {
    for (shards, bounds, refusal) in ASKED {
        let made = Exporter::new(rt.alloc(), shards, MetricKindMask::NONE, None, bounds);
        expect_made(&rt, made, refusal, shards);
    }
}
