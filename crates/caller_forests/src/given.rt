//! The caller's edges.
ghost use Rattle.std.specs.Prelude.{◌≡◌, ◌↔◌, ◌≤◌, ◌++◌, map, drop, length, IfOk, IfSome, IsNone, IsTrue};
ghost use Rattle.limits.specs.declared.TheConstants.{MAX_VERTICES};
ghost use Rattle.links.specs.Link.{AreLinksOf, EndsUpTo, arc_key, key_of};
ghost use Rattle.gr_text.specs.Graph.{HasEnds};
ghost use Rattle.caller_forests.specs.Links.{arc_of, arcs_of, given_of, HaveEnds, HaveNoLoop};

use limits::MAX_VERTICES;
use links::Link;
use std::alloc::{AllocError, Allocator};

/// The caller's edge, `struct boruvka_link`. In the input its endpoints may be in either order, it may be a loop, or an
/// endpoint may not be a vertex. In the output the lower endpoint is first.
#[repr(C)]
#[derive(Clone, Copy)]
pub struct GivenLink {
    pub weight: i64,
    pub low: u32,
    pub high: u32,
}

impl GivenLink {
    // The edge between vertices numbered from 1 to n, or none for a loop.
    fn to_link(self, n: u32) -> Option<Link>
        requires few_vertices { n ≤ MAX_VERTICES }
        requires ends { HasEnds n (arc_of self) }
        ensures none_for_a_loop { IsNone result ↔ (self.low ≡ self.high) }
        ensures key { IfSome result (λ l. key_of l ≡ arc_key (arc_of self)) }
        ensures end { IfSome result (λ l. l.high ≤ n) }
    {
        Link::of_arc(self.low, self.high, self.weight)
    }

    // The edge as the caller gets it back.
    fn of_link(link: Link) -> GivenLink
        ensures { result ≡ given_of link }
    {
        GivenLink {
            weight: link.weight,
            low: link.low,
            high: link.high,
        }
    }
}

// Whether both endpoints are vertices of a graph with the vertices 1 to n.
pub(crate) fn has_ends(n: u32, link: &GivenLink) -> bool
    ensures { IsTrue result ↔ HasEnds n (arc_of link.now) }
{
    1 <= link.low && link.low <= n && 1 <= link.high && link.high <= n
}

/// Whether both endpoints of each edge are vertices of a graph with the vertices 1 to n.
pub fn have_ends(n: u32, links: &[GivenLink]) -> bool
    ensures { IsTrue result ↔ HaveEnds n links.now }
{
    links.iter().all(|link| has_ends(n, link))
}

/// Whether the two endpoints of each edge differ.
pub fn have_no_loop(links: &[GivenLink]) -> bool
    ensures { IsTrue result ↔ HaveNoLoop links.now }
{
    links.iter().all(|link| link.low != link.high)
}

/// Returns the edges as a list of `Link`, in their order, without loops. It takes 16 bytes per edge.
pub fn links_of<A: Allocator + Copy>(
    alloc: A,
    n: u32,
    given: &[GivenLink],
) -> Result<Vec<Link, A>, AllocError>
    requires few_vertices { n ≤ MAX_VERTICES }
    requires ends { HaveEnds n given.now }
    ensures links { IfOk result (λ links. AreLinksOf (arcs_of given.now) links.items) }
    ensures few { IfOk result (λ links. length links.items ≤ length given.now) }
    ensures ends { IfOk result (λ links. EndsUpTo n links.items) }
{
    let mut links = Vec::with_capacity(alloc, given.len())?;
    for arc in given {
        match arc.to_link(n) {
            Some(link) => links.push(link)?,
            None => {}
        }
    }
    Ok(links)
}

// Writes these edges to the front, and leaves those after them.
pub(crate) fn put_first(given: &mut [GivenLink], links: &[Link])
    requires { length links.now ≤ length given.old }
    ensures { given.new ≡ map given_of links.now ++ drop (length links.now) given.old }
{
    for i in 0..links.len() {
        given[i] = GivenLink::of_link(links[i]);
    }
}
