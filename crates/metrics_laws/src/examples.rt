//! Examples of the definitions.
ghost use Rattle.metrics_laws.specs.Examples.{TwoRounds, DescriptionKeepsUnit, KeptGauges, CountersWrap, GaugesStop, BlocksOf65};
ghost use Rattle.metrics_laws.specs.Examples.{BlocksOf130, PlainRefusals, PrefixInPrefix, EmptyPrefix, FilterWithoutPattern};
ghost use Rattle.metrics_laws.specs.Examples.{FilterWithEmptyPattern, FilterFolded, LongestPatternWins, LaterRouteReplaces};
ghost use Rattle.metrics_laws.specs.Examples.{FanoutStops};

/// Does nothing. Its contract has examples of what the definitions say, with the expected values written out.
pub fn worked_examples()
    ensures two_rounds { TwoRounds }
    ensures description_keeps_unit { DescriptionKeepsUnit }
    ensures kept_gauges { KeptGauges }
    ensures counters_wrap { CountersWrap }
    ensures gauges_stop { GaugesStop }
    ensures blocks_of_65 { BlocksOf65 }
    ensures blocks_of_130 { BlocksOf130 }
    ensures plain_refusals { PlainRefusals }
    ensures prefix_in_prefix { PrefixInPrefix }
    ensures empty_prefix { EmptyPrefix }
    ensures filter_without_pattern { FilterWithoutPattern }
    ensures filter_with_empty_pattern { FilterWithEmptyPattern }
    ensures filter_folded { FilterFolded }
    ensures longest_pattern_wins { LongestPatternWins }
    ensures later_route_replaces { LaterRouteReplaces }
    ensures fanout_stops { FanoutStops }
{}
