//! Example graphs for the tests of several crates. Each graph is given as a file, as arcs, and as the edges and the
//! text of its minimum spanning forest.
//!
//! The forests come from outside: each was worked out by hand, and none by the program. [`links_of`] turns rows, the
//! form in which graphs are written here, into links.
//!
//! To add a graph, write a constant and list it in [`WORKED`]. Each test that goes over all graphs then runs over it
//! too.
#![tactic(auto)]

ghost use Rattle.std.specs.Prelude.{◌≡◌, ◌↔◌, ◌≤◌, All, map, IsTrue, IsSome, IsNone, IfOk, IfSome};
ghost use Rattle.links.specs.Link.{key_of, arc_key, EndsUpTo, AreLinksOf};
ghost use Rattle.worked_graphs.specs.Rows.{arc_of, AreEnds, IsArcUpTo};

use limits::MAX_VERTICES;
use link_key::{Cut, Link};
use std::alloc::{AllocError, Allocator};

/// An arc, or a link (an edge): two endpoints and a weight.
pub type Row = (u32, u32, i64);

/// A graph with its minimum spanning forest.
#[derive(Clone, Copy)]
pub struct Worked {
    /// The vertices are 1 to n.
    pub n: u32,
    /// The graph in the `.gr` format.
    pub file: &'static [u8],
    /// Its arc lines, in order.
    pub arcs: &'static [Row],
    /// The links of its minimum spanning forest, in the order of their keys: by weight, then by endpoints.
    pub forest: &'static [Row],
    /// The forest in the `.gr` format.
    pub text: &'static [u8],
    /// The total weight of the forest, added up by hand.
    pub total: i128,
}

/// Six vertices and eight arcs, with comment lines in the file.
pub const SMALL_NET: Worked = Worked {
    n: 6,
    file: b"c a small net\np sp 6 8\na 1 2 17\nc the usual shape\na 1 3 10\na 2 4 2\na 3 5 0\na 4 3 0\na 4 6 3\na 5 2 0\na 5 6 20\n",
    arcs: &[
        (1, 2, 17),
        (1, 3, 10),
        (2, 4, 2),
        (3, 5, 0),
        (4, 3, 0),
        (4, 6, 3),
        (5, 2, 0),
        (5, 6, 20),
    ],
    forest: &[(2, 5, 0), (3, 4, 0), (3, 5, 0), (4, 6, 3), (1, 3, 10)],
    text: b"p sp 6 5\na 2 5 0\na 3 4 0\na 3 5 0\na 4 6 3\na 1 3 10\n",
    total: 13,
};

pub const NO_VERTICES: Worked = Worked {
    n: 0,
    file: b"p sp 0 0\n",
    arcs: &[],
    forest: &[],
    text: b"p sp 0 0\n",
    total: 0,
};

pub const A_LOOP_ALONE: Worked = Worked {
    n: 1,
    file: b"p sp 1 1\na 1 1 5\n",
    arcs: &[(1, 1, 5)],
    forest: &[],
    text: b"p sp 1 0\n",
    total: 0,
};

pub const PARALLEL_ARCS: Worked = Worked {
    n: 2,
    file: b"p sp 2 3\na 1 2 7\na 2 1 7\na 1 2 4\n",
    arcs: &[(1, 2, 7), (2, 1, 7), (1, 2, 4)],
    forest: &[(1, 2, 4)],
    text: b"p sp 2 1\na 1 2 4\n",
    total: 4,
};

/// A triangle whose links differ only in their endpoints.
pub const EQUAL_WEIGHTS: Worked = Worked {
    n: 3,
    file: b"p sp 3 3\na 1 2 5\na 2 3 5\na 1 3 5\n",
    arcs: &[(1, 2, 5), (2, 3, 5), (1, 3, 5)],
    forest: &[(1, 2, 5), (1, 3, 5)],
    text: b"p sp 3 2\na 1 2 5\na 1 3 5\n",
    total: 10,
};

// The links of a path are its forest. Here they are in the order of their keys.
const PATH: &[Row] = &[
    (1, 2, 1),
    (3, 4, 1),
    (5, 6, 1),
    (7, 8, 1),
    (2, 3, 2),
    (6, 7, 2),
    (4, 5, 3),
];

/// The components are pairs after one round and groups of four after two. After three rounds there is one component.
pub const A_PATH_OF_EIGHT: Worked = Worked {
    n: 8,
    file: b"p sp 8 7\na 1 2 1\na 3 4 1\na 5 6 1\na 7 8 1\na 2 3 2\na 6 7 2\na 4 5 3\n",
    arcs: PATH,
    forest: PATH,
    text: b"p sp 8 7\na 1 2 1\na 3 4 1\na 5 6 1\na 7 8 1\na 2 3 2\na 6 7 2\na 4 5 3\n",
    total: 11,
};

/// A graph with two components.
pub const A_NEGATIVE_WEIGHT: Worked = Worked {
    n: 4,
    file: b"p sp 4 2\na 1 2 -3\na 3 4 0\n",
    arcs: &[(1, 2, -3), (3, 4, 0)],
    forest: &[(1, 2, -3), (3, 4, 0)],
    text: b"p sp 4 2\na 1 2 -3\na 3 4 0\n",
    total: -3,
};

/// The small net with weights past 32 bits on three of its last four arcs. Both limits of a weight are among them. The
/// edges of the forest are the same, and the weights of the first half of the arcs fit 32 bits.
pub const WIDE_WEIGHTS: Worked = Worked {
    n: 6,
    file: b"p sp 6 8\na 1 2 17\na 1 3 10\na 2 4 2\na 3 5 0\na 4 3 0\na 4 6 2147483648\na 5 2 -9223372036854775808\na 5 6 9223372036854775807\n",
    arcs: &[
        (1, 2, 17),
        (1, 3, 10),
        (2, 4, 2),
        (3, 5, 0),
        (4, 3, 0),
        (4, 6, 2147483648),
        (5, 2, -9223372036854775808),
        (5, 6, 9223372036854775807),
    ],
    forest: &[
        (2, 5, -9223372036854775808),
        (3, 4, 0),
        (3, 5, 0),
        (1, 3, 10),
        (4, 6, 2147483648),
    ],
    text: b"p sp 6 5\na 2 5 -9223372036854775808\na 3 4 0\na 3 5 0\na 1 3 10\na 4 6 2147483648\n",
    total: -9223372034707292150,
};

/// The graph of the chapter on minimum spanning trees in "Introduction to Algorithms" by Cormen, Leiserson, Rivest and
/// Stein. Its vertices a to i are numbered 1 to 9. Either of two edges of weight 8 would do; the forest has the one
/// with the lesser endpoints.
pub const TEXTBOOK: Worked = Worked {
    n: 9,
    file: b"p sp 9 14\na 1 2 4\na 2 3 8\na 3 4 7\na 4 5 9\na 5 6 10\na 6 7 2\na 7 8 1\na 8 1 8\na 2 8 11\na 8 9 7\na 9 3 2\na 9 7 6\na 3 6 4\na 4 6 14\n",
    arcs: &[
        (1, 2, 4),
        (2, 3, 8),
        (3, 4, 7),
        (4, 5, 9),
        (5, 6, 10),
        (6, 7, 2),
        (7, 8, 1),
        (8, 1, 8),
        (2, 8, 11),
        (8, 9, 7),
        (9, 3, 2),
        (9, 7, 6),
        (3, 6, 4),
        (4, 6, 14),
    ],
    forest: &[
        (7, 8, 1),
        (3, 9, 2),
        (6, 7, 2),
        (1, 2, 4),
        (3, 6, 4),
        (3, 4, 7),
        (1, 8, 8),
        (4, 5, 9),
    ],
    text: b"p sp 9 8\na 7 8 1\na 3 9 2\na 6 7 2\na 1 2 4\na 3 6 4\na 3 4 7\na 1 8 8\na 4 5 9\n",
    total: 37,
};

/// All graphs of this crate.
pub const WORKED: [Worked; 9] = [
    SMALL_NET,
    NO_VERTICES,
    A_LOOP_ALONE,
    PARALLEL_ARCS,
    EQUAL_WEIGHTS,
    A_PATH_OF_EIGHT,
    A_NEGATIVE_WEIGHT,
    WIDE_WEIGHTS,
    TEXTBOOK,
];

/// Returns the links of the arcs, in the order of the arcs. Loops are left out, and repeats are kept. Returns `None` if
/// an endpoint of an arc isn't a vertex from 1 to n, or if n is more than [`MAX_VERTICES`] and there is an arc.
///
/// The only error is out of memory. For m arcs it takes O(m) time and allocates 16 bytes per link.
pub fn links_of<A: Allocator>(
    alloc: A,
    n: u32,
    arcs: &[Row],
) -> Result<Option<Vec<Link, A>>, AllocError>
    ensures lawful { IfOk result (λ found. IsSome found ↔ All (IsArcUpTo n) arcs.now) }
    ensures links { IfOk result (λ found. IfSome found (λ links. AreLinksOf (map arc_of arcs.now) links.items)) }
    ensures ends { IfOk result (λ found. IfSome found (λ links. EndsUpTo n links.items)) }
{
    let mut links = Vec::new(alloc);
    for row in arcs {
        if !is_arc(n, row.0, row.1) {
            return Ok(None);
        }
        if let Some(link) = link_of(n, *row) {
            links.push(link)?;
        }
    }
    Ok(Some(links))
}

/// Returns whether every endpoint of the links has one of n labels.
pub fn have_labels(links: &[Link], n: u32) -> bool
    ensures { IsTrue result ↔ EndsUpTo n links.now }
{
    links.iter().all(|link| link.high <= n)
}

/// Returns whether every endpoint of the links of every shard has one of n labels.
pub fn all_have_labels<A: Allocator>(cut: &Cut<A>, n: u32) -> bool
    ensures { IsTrue result → All (EndsUpTo n) cut.now }
{
    for number in 0..cut.len() {
        if !have_labels(cut.shard(number).links, n) {
            return false;
        }
    }
    true
}

fn is_arc(n: u32, u: u32, v: u32) -> bool
    ensures { IsTrue result ↔ AreEnds n u v }
{
    n <= MAX_VERTICES && 1 <= u && u <= n && 1 <= v && v <= n
}

fn link_of(n: u32, row: Row) -> Option<Link>
    requires { IsArcUpTo n row }
    ensures none_for_a_loop { IsNone result ↔ (row.0 ≡ row.1) }
    ensures key { IfSome result (λ l. key_of l ≡ arc_key (arc_of row)) }
{
    Link::of_arc(row.0, row.1, row.2)
}
