ghost use Rattle.std.specs.Prelude.{◌≡◌, ℕ, ◌<◌, ◌≤◌, ◌↔◌, IsNone, IfSome, min, max, FitsSigned};
ghost use Rattle.std.specs.Int.{w64};
ghost use Rattle.limits.specs.declared.TheConstants.{MAX_VERTICES};

use limits::MAX_VERTICES;

/// A link, which is an edge of an undirected graph: two different vertices, the lower one first, and a weight.
///
/// Links compare by their keys: the weight, then the lower endpoint, then the higher one. So two links between the same
/// vertices are equal exactly if their weights are. Vertices are numbered from 1 to at most `MAX_VERTICES`.
#[derive(Clone, Copy, Debug, PartialEq, Eq, PartialOrd, Ord, Hash)]
pub struct Link {
    pub weight: i64,
    pub low: u32,
    pub high: u32,
    ghost from_one: { 1 ≤ low },
    ghost ascending: { low < high },
    ghost in_limit: { high ≤ MAX_VERTICES },
    ghost weight_fits: { FitsSigned w64 weight },
}

impl Link {
    ghost use Rattle.links.specs.Link.{key_of, arc_key};

    /// The link of an arc from `u` to `v` with weight `w`, without its direction. Returns `None` for a loop, an arc
    /// from a vertex to itself. Allocates nothing.
    pub fn of_arc(u: u32, v: u32, w: i64) -> Option<Link>
        requires tail_from_one { 1 ≤ u }
        requires tail_in_limit { u ≤ MAX_VERTICES }
        requires head_from_one { 1 ≤ v }
        requires head_in_limit { v ≤ MAX_VERTICES }
        ensures none_for_a_loop { IsNone result ↔ (u ≡ v) }
        ensures key { IfSome result (λ l. key_of l ≡ arc_key (record { tail = u; head = v; weight = w })) }
    {
        if u == v {
            return None;
        }
        Some(Link {
            weight: w,
            low: u.min(v),
            high: u.max(v),
        })
    }
}
