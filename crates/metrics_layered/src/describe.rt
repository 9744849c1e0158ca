//! Describes a name in each of its targets.
ghost use Rattle.std.specs.Prelude.{◌≡◌, length, MatchResult};
ghost use Rattle.metrics.specs.declared.error.Error.TheVariants.{Memory as OutOfMemory};
ghost use Rattle.metrics_rules.specs.Meanings.{rules_meaning};

use crate::recorder::SharedRecorder;
use metrics::{Error, KeyName, MetricKind, Refused, Unit};
use metrics_rules::{Rules, Scratch, Visitor};
use std::alloc::Global;
use std::sync::Wait;

/// What a name is described by.
#[derive(Clone, Copy)]
pub(crate) struct Description<'a> {
    pub alloc: Global,
    pub unit: Option<Unit>,
    pub text: &'a str,
}

/// Describes the name in the recorder of each leaf that it is shown.
#[derive(Drop)]
struct Describing<'a, R, W> {
    rt: &'a W,
    recorders: &'a [R],
    kind: MetricKind,
    by: Description<'a>,
}

impl<R: SharedRecorder, W: Wait> Visitor<KeyName> for Describing<'_, R, W> {
    ghost accepts = { λ v leaf key w. Unit {0} };

    ghost refuses = { λ v leaf key e w. Unit {0} };

    fn visit(&mut self, leaf: usize, name: &KeyName) -> Result<(), Refused> {
        let Some(recorder) = self.recorders.get(leaf) else {
            return Err(Refused::NoSuchBook);
        };
        let by = self.by;
        match recorder.describe(
            self.rt,
            by.alloc,
            self.kind,
            name.as_str(),
            by.unit,
            by.text,
        ) {
            Ok(_targets) => Ok(()),
            Err(_) => Err(Refused::Memory { acted: 0 }),
        }
    }
}

/// Describes a name in the recorder of each of its targets, and returns how many targets there are.
pub(crate) fn describe_under<R: SharedRecorder, W: Wait>(
    rt: &W,
    rules: &Rules,
    recorders: &[R],
    kind: MetricKind,
    name: &str,
    by: Description<'_>,
) -> Result<usize, Error>
    ensures { MatchResult result (λ n. n ≡ length ((rules_meaning rules.now).targets kind name.now))
        (λ e. e ≡ OutOfMemory) }
{
    let name = KeyName::new(by.alloc, name)?;
    let mut scratch = Scratch::new(by.alloc);
    let mut describing = Describing {
        rt,
        recorders,
        kind,
        by,
    };
    match rules.visit(kind, &name, &mut scratch, &mut describing) {
        Ok(count) => Ok(count),
        Err(_stopped) => Err(Error::Memory),
    }
}
