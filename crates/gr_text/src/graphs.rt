ghost use Rattle.std.specs.Prelude.{◌≡◌, ◌≤◌, length};
ghost use Rattle.links.specs.Link.{EndsUpTo};

use limits::{MAX_ARCS, MAX_VERTICES};
use links::Link;
use std::alloc::{Allocator, Global};
use std::marker::Model;

/// The graph that a text describes: its number of vertices, and an edge for each arc line that isn't a loop.
///
/// Vertices are numbered from 1. Each edge is an arc without its direction, so an arc that is given in both directions
/// gives two edges. The graph takes 16 bytes per edge, and its list may have spare capacity.
#[derive(Drop)]
pub struct Graph<A: Allocator = Global> {
    vertices: u32,
    links: Vec<Link, A>,
}

impl<A: Allocator> Model for Graph<A> {
    ghost use Rattle.std.specs.Prelude.{◌≤◌, length};
    ghost use Rattle.limits.specs.declared.TheConstants.{MAX_ARCS, MAX_VERTICES};
    ghost use Rattle.links.specs.Link.{EndsUpTo};
    ghost use Rattle.gr_text.specs.Graph.{GraphValue};

    ghost Value = { GraphValue };

    ghost view = { λ g. record { vertices = g.vertices; links = g.links.items } };

    ghost invariant = { λ g. (g.vertices ≤ MAX_VERTICES) × EndsUpTo g.vertices g.links.items × (length g.links.items ≤ MAX_ARCS) };
}

impl<A: Allocator> Graph<A> {
    pub(crate) fn of_parts(vertices: u32, links: Vec<Link, A>) -> Graph<A>
        requires few_vertices { vertices ≤ MAX_VERTICES }
        requires ends { EndsUpTo vertices links.items }
        requires few_links { length links.items ≤ MAX_ARCS }
        ensures vertices { result.vertices ≡ vertices }
        ensures links { result.links ≡ links.items }
    {
        Graph { vertices, links }
    }

    /// The number of vertices, including those without an edge. Takes constant time.
    pub fn n(&self) -> u32
        ensures vertices { result ≡ self.now.vertices }
        ensures few { result ≤ MAX_VERTICES }
    {
        self.vertices
    }

    /// The edges in the order of the file, with repeats and without loops. Takes constant time.
    pub fn links(&self) -> &[Link]
        ensures links { result.now ≡ self.now.links }
        ensures ends { EndsUpTo self.now.vertices self.now.links }
        ensures few { length self.now.links ≤ MAX_ARCS }
    {
        self.links.as_slice()
    }

    /// The edges that [`Graph::links`] returns, as an owned list. Takes constant time; nothing is copied.
    pub fn into_links(self) -> Vec<Link, A>
        ensures links { result.items ≡ self.links }
        ensures ends { EndsUpTo self.vertices self.links }
        ensures few { length self.links ≤ MAX_ARCS }
    {
        let Graph { links, .. } = self;
        links
    }
}
