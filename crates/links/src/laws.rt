// Laws of the definitions, each as the contract of a function that does nothing.
ghost use Rattle.links.specs.Components.{EachHasComponents, LinksAndComponents};
ghost use Rattle.links.specs.Covers.{CoverHasForest, ForestCoversList, SameLinksCover, CoverOfCover, CoversTogether, ForestOfForests, ForestOfSameLinks};
ghost use Rattle.links.specs.Cut.{RefusedForALargeShard};
ghost use Rattle.links.specs.Forest.{EachHasOneForest};
ghost use Rattle.links.specs.Least.{ForestIsLightest, NoCycleIsItsForest};
ghost use Rattle.links.specs.Reweighted.{ForestOfReweighted, PlacesOfReweighted};
ghost use Rattle.links.specs.Thresholds.{ForestJoinsUpTo, ForestJoinsBelow};

/// Each list of links has exactly one minimum spanning forest, as an ascending list.
pub fn each_has_one_forest()
    ensures { EachHasOneForest }
{}

/// The forest of a list is a spanning forest of it, and no spanning forest weighs less. A spanning forest is any set of
/// the list's links that closes no cycle and joins what the list joins.
pub fn forest_is_lightest()
    ensures { ForestIsLightest }
{}

/// If links close no cycle, their forest is all of them. So the forest of a forest is that forest.
pub fn no_cycle_is_its_forest()
    ensures { NoCycleIsItsForest }
{}

/// A forest's links up to a weight join exactly what its list's links up to that weight join. The same is true below a
/// key. So thresholds, bottlenecks and single-linkage clusters can be computed from the forest alone.
pub fn forest_joins_as_its_list()
    ensures up_to { ForestJoinsUpTo }
    ensures below { ForestJoinsBelow }
{}

/// Links that cover a list have the same forest as the list, so they can replace it. The list's forest covers the list,
/// and what covers a cover covers the list. Covers of two lists together cover the lists together, so links can be
/// added.
pub fn cover_has_its_forest()
    ensures forest { CoverHasForest }
    ensures by_forest { ForestCoversList }
    ensures by_same_links { SameLinksCover }
    ensures by_cover { CoverOfCover }
    ensures together { CoversTogether }
{}

/// The forest of two lists together is the forest of their two forests together. So a large list can be solved in
/// parts.
pub fn forest_of_forests()
    ensures { ForestOfForests }
{}

/// Lists with the same links have the same forest, whatever the order of the links and however often each occurs.
pub fn forest_of_same_links()
    ensures { ForestOfSameLinks }
{}

/// If the vertices 1 to n have c components and the forest has k links, then k + c is n. Each list has such a number c.
pub fn links_and_components()
    ensures exist { EachHasComponents }
    ensures sum { LinksAndComponents }
{}

/// If a function keeps the order of the weights, the forest of the reweighted list has the links at the same indices.
/// So weights of another kind can be replaced by any integers in the same order.
pub fn forest_of_reweighted()
    ensures links { ForestOfReweighted }
    ensures places { PlacesOfReweighted }
{}

/// If the number of shards is allowed, an even cut is rejected exactly if one of its shards would have more than
/// [`limits::MAX_SHARD_LINKS`] links.
pub fn even_cut_refused_for_a_large_shard()
    ensures { RefusedForALargeShard }
{}
