//! Laws of the definitions, each as the contract of a function that does nothing.
ghost use Rattle.link_merges.specs.Cuts.{MergesCutAsTheGraph};
ghost use Rattle.link_merges.specs.Merges.{LinksHaveMerges, MergesUnite, OneListOfMerges};

/// Links that close no cycle have a list of merges.
pub fn links_have_merges()
    ensures { LinksHaveMerges }
{}

/// Links that close no cycle have only one list of merges.
pub fn links_have_one_list_of_merges()
    ensures { OneListOfMerges }
{}

/// The two clusters of a merge have no vertex in common, and together they have exactly the vertices of the cluster
/// that they become. Its size is the sum of theirs.
pub fn merges_unite_clusters()
    ensures { MergesUnite }
{}

/// The theorem of single linkage. Merge the links of a graph's forest in ascending order of weight, and cut the merges
/// at a height. The result is the components that all links of the graph up to that weight make.
pub fn merges_cut_as_the_graph()
    ensures { MergesCutAsTheGraph }
{}
