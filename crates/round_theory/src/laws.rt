//! The laws, each as the contract of a function that does nothing.

ghost use Rattle.round_theory.specs.Laws.{SetHasLabelling, LabellingIsUnique, OneLabelWhereJoined, LabellingIsLabels, ApartByNoLinks, SpansWhereNoneLeaves, ForestHasNoCycle, ForestSpans, SpanningPartIsForest, LeastLeavingExists, LeastLeavingIsInForest, RoundsAreInForest, RoundsAreFinite, RoundsOfSameLinks, RoundByRound, AddsNothingWhereNoneLeaves, OneNumberOfRounds, ForestFromThenOn, RoundsAtMostLogarithm, MergingRoundIsInTime, LightOffersSuffice, AnyCutAnyOrder, OrderOfHearingIsFree, LeavesBothEnds, JoinedBySteps, RelabelledBySteps, RelabellingIsUnique, RelabellingIsLabels, OfEachSet, PicksAreNew, PickedFromBothSides, PicksCloseNoCycle, OfEachUnion, UnionHasBoth, LeastOfBoth, LeastOfFirst, LeastOfSecond, LightOffersExist, LightOffersAreUnique, LightOffersLeave};

/// A set of links has exactly one labelling of the vertices 1 to n.
pub fn one_labelling()
    ensures exists { SetHasLabelling }
    ensures unique { LabellingIsUnique }
    ensures joined { OneLabelWhereJoined }
    ensures labels { LabellingIsLabels }
    ensures apart { ApartByNoLinks }
    ensures spans { SpansWhereNoneLeaves }
{}

/// The forest of a list has no cycle and spans the list, and no other part of the forest spans it.
pub fn forest_spans()
    ensures no_cycle { ForestHasNoCycle }
    ensures spans { ForestSpans }
    ensures only { SpanningPartIsForest }
{}

/// The cut property: the least link that leaves a component is in the forest.
pub fn cut_property()
    ensures exists { LeastLeavingExists }
    ensures in_forest { LeastLeavingIsInForest }
{}

/// The rounds take only links of the forest, until they have taken all of them.
pub fn rounds_end_with_forest()
    ensures in_forest { RoundsAreInForest }
    ensures finite { RoundsAreFinite }
    ensures set_alone { RoundsOfSameLinks }
    ensures next { RoundByRound }
    ensures adds_nothing { AddsNothingWhereNoneLeaves }
    ensures one_number { OneNumberOfRounds }
    ensures forest { ForestFromThenOn }
{}

/// At most log2 n rounds merge components. Each round merges every component that a link leaves with another one, so
/// the number of such components is at least halved.
pub fn rounds_double_components()
    ensures at_most { RoundsAtMostLogarithm }
    ensures in_time { MergingRoundIsInTime }
{}

/// The light offers of the shards name, for each component, the least link of the whole list that leaves it.
pub fn light_offers_suffice()
    ensures suffice { LightOffersSuffice }
    ensures any_cut { AnyCutAnyOrder }
    ensures any_order { OrderOfHearingIsFree }
    ensures both_ends { LeavesBothEnds }
{}

/// If links are added to a set, its new components are the old components, joined by the added links.
pub fn joining_by_steps()
    ensures joined { JoinedBySteps }
    ensures relabelled { RelabelledBySteps }
    ensures unique { RelabellingIsUnique }
    ensures labels { RelabellingIsLabels }
{}

/// Whatever is offered, light or not, the picks are new links and close no cycle.
pub fn picks_close_no_cycle()
    ensures new { OfEachSet PicksAreNew }
    ensures both_sides { OfEachSet PickedFromBothSides }
    ensures no_cycle { OfEachSet PicksCloseNoCycle }
{}

/// The least link that leaves a component, in the union of two sets, is the lesser of the least links in each set.
pub fn least_of_both()
    ensures union { OfEachUnion UnionHasBoth }
    ensures lesser { OfEachUnion LeastOfBoth }
    ensures first { OfEachUnion LeastOfFirst }
    ensures second { OfEachUnion LeastOfSecond }
{}

/// Under given labels, a list of links has exactly one list of light offers, and each offer names a link that leaves
/// its component.
pub fn one_list_of_light_offers()
    ensures exists { LightOffersExist }
    ensures unique { LightOffersAreUnique }
    ensures leave { LightOffersLeave }
{}
