ghost use Rattle.std.specs.Prelude.{◌≡◌, ◌+◌, ◌*◌, ◌≤◌, length};
ghost use Rattle.limits.specs.declared.TheConstants.{MAX_WORKERS};
ghost use Rattle.links.specs.Cut.{joined};
ghost use Rattle.port_rounds.specs.Reports.{IsReportOf};

use links::{Cut, Forest};
use plain_run::Report;
use std::alloc::Allocator;

// What the rounds of a run counted: the number of the last one, the shards that were scanned alone, and the ports that
// were closed.
#[derive(Clone, Copy)]
pub(crate) struct Counts {
    pub(crate) last: u32,
    pub(crate) alone: u64,
    pub(crate) closed: u32,
}

// The report of a run over a cut of `shards` shards, which found this forest. It reads each shard and each link of the
// forest once, and allocates nothing.
pub(crate) fn report_of<A: Allocator>(
    cut: &Cut<A>,
    shards: u32,
    n: u32,
    forest: &Forest<A>,
    counts: Counts,
) -> Report
    requires shards { shards ≡ length cut.now }
    requires last { 1 ≤ counts.last }
    requires few { counts.last ≤ 32 }
    requires alone { counts.alone ≤ counts.last * length cut.now }
    requires closed { counts.closed ≤ MAX_WORKERS }
    ensures report { IsReportOf n cut.now forest.now result }
    ensures last { result.rounds + 1 ≡ counts.last }
    ensures alone { result.alone ≡ counts.alone }
    ensures closed { result.closed ≡ counts.closed }
{
    let Counts {
        last,
        alone,
        closed,
    } = counts;
    let answered = u64::from(last) * u64::from(shards) - alone;
    let closed = u64::from(closed);
    Report {
        vertices: n,
        links: count_links(cut),
        rounds: last - 1,
        shards,
        asked: answered + closed,
        answered,
        alone,
        closed,
        total: forest.total(),
    }
}

#[tactic(auto, using(crate::proofs::Reporting::joined_more, crate::proofs::Reporting::joined_all))]
fn count_links<A: Allocator>(cut: &Cut<A>) -> u64
    ensures { result ≡ length (joined cut.now) }
{
    let mut links = 0;
    for number in 0..cut.len() {
        links += cut.shard(number).links.len() as u64;
    }
    links
}
