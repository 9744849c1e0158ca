//! Builds routers.
ghost use Rattle.std.specs.Prelude.{◌≡◌, ◌<◌, ◌≤◌, ◌+◌, ◌^◌, ◌++◌, ◌∷◌, [], suc, ◌-◌};
ghost use Rattle.std.specs.Prelude.{length, map, List, OnOk, MatchResult};
ghost use Rattle.std.specs.List.{AllByRecursion};
ghost use Rattle.metrics.specs.Layers.{Route, routed};
ghost use Rattle.metrics_trees.specs.Builders.{router_recorders, HasRoutes};
ghost use Rattle.tool_trees.specs.Words.{IsRoute};
ghost use Rattle.metrics_trees.specs.Recorders.{books_in};
ghost use Rattle.tool_trees.specs.Trees.{pattern_of, route_of, NameTargets};
ghost use Rattle.tool_trees.specs.declared.level.LineError.TheVariants.{Bad as IsBadLine};
ghost use Rattle.tool_trees.specs.Doing.{level_meanings, Adds, CantAdd};

use crate::level::{Level, LineError, refusing};
use crate::tree_line::RouteWord;
use metrics::{Recorder, Text};
use metrics_debugging::DebuggingRecorder;
use metrics_trees::{Child, RouterBuilder};
use std::alloc::Global;
use std::collections::VecDeque;

/// The pattern that a word spells.
fn pattern_text(word: &Text) -> &str
    ensures { result.now ≡ pattern_of word.now }
{
    let text = word.as_str();
    if text == "-" { "" } else { text }
}

/// Adds a route, to a target that was named, or to the next one of the list. Returns how many are named then.
fn add_one(
    builder: &mut RouterBuilder<DebuggingRecorder>,
    targets: &mut VecDeque<Level>,
    named: u64,
    route: &RouteWord,
) -> Result<u64, LineError>
    requires is_route { IsRoute route.now }
    requires named { suc named ≡ length (router_recorders builder.old) }
    requires few { named + length targets.old.items < 2 ^ 64 }
    ensures routes { OnOk result ((rs : List Route) → HasRoutes builder.old rs
        → HasRoutes builder.new (rs ++ route_of route.now ∷ [])) }
    ensures step { MatchResult result
        (λ next. Adds route.now.target named next (router_recorders builder.old) (router_recorders builder.new)
        targets.old.items targets.new.items)
        (λ e. e ≡ IsBadLine → CantAdd route.now.target named (router_recorders builder.old) targets.old.items) }
{
    let kinds = route.kinds;
    let pattern = pattern_text(&route.pattern);
    if route.target != named {
        return match builder.add_route_to(kinds, pattern, route.target as usize) {
            Ok(()) => Ok(named),
            Err(error) => Err(LineError::from(error)),
        };
    }
    let Some(Level { child, levels: _ }) = targets.pop_front() else {
        return Err(LineError::Bad);
    };
    match builder.add_route(kinds, pattern, child) {
        Ok(_) => Ok(named + 1),
        Err(refused) => Err(LineError::from(refused)),
    }
}

/// Adds routes to the targets, all of which have to be named.
fn add_routes(
    builder: &mut RouterBuilder<DebuggingRecorder>,
    targets: &mut VecDeque<Level>,
    routes: &[RouteWord],
) -> Result<(), LineError>
    requires are_routes { AllByRecursion IsRoute routes.now }
    requires alone { length (router_recorders builder.old) ≡ 1 }
    requires none { HasRoutes builder.old [] }
    ensures routes { OnOk result (HasRoutes builder.new (map route_of routes.now)) }
    ensures all { MatchResult result
        (λ done. NameTargets (length targets.old.items) 0 routes.now
        × (router_recorders builder.new ≡ router_recorders builder.old ++ level_meanings targets.old.items))
        (λ e. e ≡ IsBadLine → NameTargets (length targets.old.items) 0 routes.now
        → books_in (router_recorders builder.old ++ level_meanings targets.old.items) ≤ 65536 → ⊥) }
{
    let mut named: u64 = 0;
    for route in routes {
        named = add_one(builder, targets, named, route)?;
    }
    if targets.is_empty() {
        Ok(())
    } else {
        Err(LineError::Bad)
    }
}

/// Returns a router over recorders, of which the first is the default.
pub fn router_over(
    alloc: Global,
    mut taken: VecDeque<Level>,
    routes: &[RouteWord],
) -> Result<Child<DebuggingRecorder>, LineError>
    requires are_routes { AllByRecursion IsRoute routes.now }
    requires some { 0 < length taken.items }
    ensures { let all = level_meanings taken.items in MatchResult result
        (λ c. NameTargets (length taken.items - 1) 0 routes.now × (books_in all ≤ 65536)
        × (⟦<Child<DebuggingRecorder> as Recorder>⟧.meaning c ≡ routed (map route_of routes.now) all))
        (λ e. e ≡ IsBadLine → NameTargets (length taken.items - 1) 0 routes.now → books_in all ≤ 65536 → ⊥) }
{
    let Some(Level { child, levels: _ }) = taken.pop_front() else {
        return Err(LineError::Memory);
    };
    let mut builder = RouterBuilder::from_recorder(alloc, child);
    if let Err(error) = add_routes(&mut builder, &mut taken, routes) {
        return Err(refusing(error, builder));
    }
    let router = Child::router(builder.build())?;
    // The trait bounds the number of books when it is asked for.
    let _books = router.books();
    Ok(router)
}
