//! What the definitions promise about every text, each as the contract of a function that does nothing.
ghost use Rattle.gr_text.specs.Laws.{ForestTextGivesItself, ForestTextMeansItsLinks, HasOneFault, MeansOneGraph, MeansOrFails, NeverBoth};

/// A text describes at most one graph.
pub fn a_text_means_one_graph()
    ensures { MeansOneGraph }
{}

/// A text describes a graph or has a first error, and not both.
pub fn a_text_means_a_graph_or_has_a_fault()
    ensures one { MeansOrFails }
    ensures not_both { NeverBoth }
{}

/// A text has at most one first error, with one line number and one kind.
pub fn a_text_has_one_first_fault()
    ensures { HasOneFault }
{}

/// The text of a forest describes exactly its edges. If they ascend and close no cycle, they are the forest of the
/// graph that it describes, so that graph's forest has the same text.
pub fn a_forest_text_means_its_links()
    ensures links { ForestTextMeansItsLinks }
    ensures itself { ForestTextGivesItself }
{}
