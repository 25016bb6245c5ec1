//! Finds the first link that the links taken miss, since its endpoints have different labels.
ghost use Rattle.std.specs.Prelude.{◌≡◌, ◌≤◌, length};
ghost use Rattle.links.specs.Link.{EndsUpTo};
ghost use Rattle.round_core.specs.Solver.{is_apart, missed};

use links::Link;

pub(crate) fn first_missed(labels: &[u32], links: &[Link]) -> Option<Link>
    requires ends { EndsUpTo (length labels.now) links.now }
    ensures { result ≡ missed labels.now links.now }
{
    links.iter().copied().find(
        |link: &Link| -> bool
            requires { link.now.high ≤ length labels.now }
            ensures { result ≡ is_apart labels.entry.now link.entry.now }
        { labels[link.low as usize - 1] != labels[link.high as usize - 1] },
    )
}
