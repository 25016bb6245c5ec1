//! How many threads a piece of work on links is worth, and how two parts of it share them.
ghost use Rattle.std.specs.Prelude.{◌+◌, ◌*◌, ◌≤◌, ◌<◌, ◌⊎◌, IfSome, IfNone};

// The smallest number of links that is worth a thread of its own.
pub(crate) const LEAST_SHARE: usize = 1 << 15;

/// Two parts of a list of links, each with its share of the threads.
#[derive(Clone, Copy)]
pub struct Shares {
    /// The number of links in the first part.
    pub first: usize,
    /// The number of threads that work on the first part.
    pub ahead: usize,
    /// The number of threads that work on the rest.
    pub behind: usize,
}

/// Splits `links` links and `threads` threads into two parts, so that each thread has about the same number of links.
/// Returns `None` if one thread should do all the work: each thread has at least 32,768 links.
pub fn shares_of(links: usize, threads: usize) -> Option<Shares>
    ensures first { IfSome result (λ shares. shares.first ≤ links) }
    ensures some { IfSome result (λ shares. (1 ≤ shares.ahead) × (1 ≤ shares.behind)) }
    ensures all { IfSome result (λ shares. shares.ahead + shares.behind ≤ threads) }
    ensures worth { IfSome result (λ shares. 32768 * shares.ahead ≤ shares.first) }
    ensures rest_worth { IfSome result (λ shares. shares.first + 32768 * shares.behind ≤ links) }
    ensures alone { IfNone result ((threads < 2) ⊎ (links < 65536)) }
{
    let threads = threads.min(links / LEAST_SHARE);
    if threads < 2 {
        return None;
    }
    let behind = threads / 2;
    let ahead = threads - behind;
    let first = (links / threads).saturating_mul(ahead).min(links);
    Some(Shares {
        first,
        ahead,
        behind,
    })
}
