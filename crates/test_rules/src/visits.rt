//! Where names go: the rules of a service, one after another, and several side by side.

use metrics::{Error, Key, MetricKind, MetricKindMask, Refused};
use metrics_layers::{FilterLayer, PrefixLayer};
use metrics_rules::{FanoutBuilder, RouterBuilder, Rules, Scratch, Visitor};
use std::alloc::Global;
use std::process::Abort;

/// How an end because memory ran out is reported.
const MEMORY: &str = "out of memory";

/// Returns what a builder answers.
fn taken<R: Abort, T: Drop>(rt: &R, answer: Result<T, (Error, Rules)>) -> T {
    answer.ok().expect(rt, MEMORY)
}

/// Puts a prefix over rules.
fn prefixed<R: Abort>(rt: &R, alloc: Global, prefix: &str, rules: Rules) -> Rules {
    let layer = PrefixLayer::new(alloc, prefix).expect(rt, MEMORY);
    taken(rt, rules.prefix(alloc, &layer))
}

/// Puts a filter of `debug` over rules.
fn filtered<R: Abort>(rt: &R, alloc: Global, rules: Rules) -> Rules {
    let layer = FilterLayer::from_patterns(alloc, &["debug"]).expect(rt, MEMORY);
    taken(rt, rules.filter(alloc, &layer))
}

/// Histograms of `app.db.` and counters of `app.db.rows` go to leaf 1, and all else to leaf 0.
fn routed<R: Abort>(rt: &R, alloc: Global) -> Rules {
    let mut router = RouterBuilder::new(alloc, Rules::leaf());
    let added = router.add_route(MetricKindMask::HISTOGRAM, "app.db.", Rules::leaf());
    taken(rt, added.map(|_number| ()));
    let added = router.add_route_to(MetricKindMask::COUNTER, "app.db.rows", 0);
    added.expect(rt, MEMORY);
    router.build()
}

/// Prefix `app`, then a filter of `debug`, then the routes.
fn service<R: Abort>(rt: &R, alloc: Global) -> Rules {
    prefixed(rt, alloc, "app", filtered(rt, alloc, routed(rt, alloc)))
}

/// Two services below a prefix, and rules without leaves between them.
fn services<R: Abort>(rt: &R, alloc: Global) -> Rules {
    let mut fanout = FanoutBuilder::default(alloc);
    taken(rt, fanout.add_child(service(rt, alloc)));
    taken(rt, fanout.add_child(Rules::noop()));
    taken(rt, fanout.add_child(service(rt, alloc)));
    prefixed(rt, alloc, "all", fanout.build())
}

fn key<R: Abort>(rt: &R, alloc: Global, name: &str) -> Key {
    Key::from_name(alloc, name).expect(rt, MEMORY)
}

/// A leaf, and a name there.
type Target = (usize, &'static str);

/// A kind, a name, and its targets, of which there are two at most.
type Routed = (MetricKind, &'static str, Option<Target>, Option<Target>);

fn target(found: &[(usize, Key)], at: usize) -> Option<(usize, &str)> {
    let (leaf, there) = found.get(at)?;
    Some((*leaf, there.name()))
}

/// Compares the targets of a name.
fn expect_targets<R: Abort>(rt: &R, alloc: Global, rules: &Rules, wanted: Routed) {
    let (kind, name, first, second) = wanted;
    let targets = rules.targets(alloc, kind, &key(rt, alloc, name));
    let found = targets.expect(rt, MEMORY);
    assert!(rt; target(found.as_slice(), 0) == first, "at {name}");
    assert!(rt; target(found.as_slice(), 1) == second, "at {name}");
    assert!(rt; found.len() <= 2, "at {name}");
}

const SERVICE: [Routed; 5] = [
    (MetricKind::Counter, "db.q", Some((0, "app.db.q")), None),
    (MetricKind::Histogram, "db.q", Some((1, "app.db.q")), None),
    (
        MetricKind::Counter,
        "db.rows",
        Some((1, "app.db.rows")),
        None,
    ),
    (MetricKind::Histogram, "x.debug", None, None),
    (MetricKind::Gauge, "", Some((0, "app.")), None),
];

#[test]
fn a_service_routes_below_its_prefix(rt: HostRuntime) {
    let rules = service(&rt, rt.alloc());
    assert!(rt; rules.leaves() == 2);
    for wanted in SERVICE {
        expect_targets(&rt, rt.alloc(), &rules, wanted);
    }
}

const BOTH: Routed = (
    MetricKind::Counter,
    "x",
    Some((0, "app.all.x")),
    Some((2, "app.all.x")),
);

#[test]
fn leaves_are_numbered_from_left_to_right(rt: HostRuntime) {
    let rules = services(&rt, rt.alloc());
    assert!(rt; rules.leaves() == 4);
    expect_targets(&rt, rt.alloc(), &rules, BOTH);
}

/// Counts targets, and refuses the one after so many.
#[derive(Drop)]
struct Counts {
    accepted: usize,
    most: usize,
}

impl Visitor<Key> for Counts {
    ghost accepts = { λ v leaf key w. Unit {0} };

    ghost refuses = { λ v leaf key e w. Unit {0} };

    fn visit(&mut self, _leaf: usize, _key: &Key) -> Result<(), Refused> {
        if self.accepted >= self.most {
            return Err(Refused::NoSuchBook);
        }
        self.accepted += 1;
        Ok(())
    }
}

/// A visit of two targets, of which so many are accepted.
fn expect_visited<R: Abort>(rt: &R, alloc: Global, rules: &Rules, key: &Key, most: usize) {
    let mut scratch = Scratch::new(alloc);
    let mut counts = Counts { accepted: 0, most };
    match rules.visit(MetricKind::Counter, key, &mut scratch, &mut counts) {
        Ok(count) => {
            assert!(rt; count == 2 && most == 2);
        }
        Err(stopped) => {
            if let Refused::Memory { acted: _ } = stopped.refused {
                panic!(rt; "out of memory")
            }
            assert!(rt; stopped.accepted == most && most < 2);
        }
    }
    assert!(rt; counts.accepted == most);
}

#[test]
fn a_refused_target_ends_the_visit(rt: HostRuntime) {
    let rules = services(&rt, rt.alloc());
    let key = key(&rt, rt.alloc(), "x");
    for most in 0..3usize {
        expect_visited(&rt, rt.alloc(), &rules, &key, most);
    }
}
