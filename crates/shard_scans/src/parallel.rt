//! Scans a shard's links by threads, each over a part with a table of its own.
ghost use Rattle.std.specs.Prelude.{◌≡◌, ◌<◌, ◌≤◌, length, IfOk};
ghost use denote.Param.Send.{IsSync, IsSend, Frees};
ghost use Rattle.shard_scans.specs.Scanning.{AreBest};
ghost use Rattle.shard_scans.specs.Parts.{CanScan, CanScanPart, AreBestOf};

use crate::live::{LiveLink, label_at};
use crate::parts::{Part, Scanned};
use crate::scanning::{Best, NO_PLACE, keep_next};
use crate::table::Table;
use links::Link;
use rayon::{current_num_threads, join};
use std::alloc::{AllocError, Allocator};
use std::thread::Threads;

// Fewer links than this aren't worth another thread.
pub(crate) const FEW_LINKS: usize = 1 << 17;

// How often to halve the links of a scan: so that there is a part per processor, as long as a part has at least as many
// links as its table has labels.
pub(crate) fn halvings_of<R: Threads>(rt: &R, count: usize, labels: usize) -> usize {
    let most = count / labels.max(1);
    if count < FEW_LINKS || most < 2 {
        return 0;
    }
    let parts = current_num_threads(rt).min(most).max(1);
    parts.ilog2() as usize
}

// Returns the table of a part. The part is halved `halvings` times, or until a half has few links. One half goes to
// another thread if one can be started.
#[cycle(halves)]
pub(crate) fn best_between<R: Threads + Sync, A: Allocator + Copy + Send + Sync>(
    rt: &R,
    alloc: A,
    scanned: Scanned,
    part: Part,
    halvings: usize,
) -> Result<Table<A>, AllocError>
    requires can { CanScan scanned }
    requires part { part.to ≤ length scanned.links.now }
    ensures best { IfOk result (AreBestOf scanned.entry part) }
{
    if halvings == 0 || part.to - part.from < FEW_LINKS {
        return best_alone(alloc, scanned, part);
    }
    let middle = part.from + (part.to - part.from) / 2;
    let first = Part {
        from: part.from,
        to: middle,
    };
    let second = Part {
        from: middle,
        to: part.to,
    };
    let front = move || -> Result<Table<A>, AllocError>
        requires { IsSync R.row × IsSend A.row × Frees A.Allocator A.dealloc_token × (0 < halvings) × CanScanPart scanned first }
        ensures { IfOk result (AreBestOf scanned.entry first) }
    { best_between(rt, alloc, scanned, first, halvings - 1) };
    let back = move || -> Result<Table<A>, AllocError>
        requires { IsSync R.row × IsSend A.row × Frees A.Allocator A.dealloc_token × (0 < halvings) × CanScanPart scanned second }
        ensures { IfOk result (AreBestOf scanned.entry second) }
    { best_between(rt, alloc, scanned, second, halvings - 1) };
    let (earlier, later) = join(rt, front, back);
    let mut table = earlier?;
    let rest = later?;
    merge(scanned, first, second, &mut table, rest.bests());
    Ok(table)
}

// Scans a part in this thread.
fn best_alone<A: Allocator + Copy>(
    alloc: A,
    scanned: Scanned,
    part: Part,
) -> Result<Table<A>, AllocError>
    requires can { CanScan scanned }
    requires part { part.to ≤ length scanned.links.now }
    ensures best { IfOk result (AreBestOf scanned.entry part) }
{
    let Scanned { links, labels } = scanned;
    let mut table = Table::new(alloc);
    table.clear(labels.len())?;
    for place in part.from..part.to {
        let link = links[place];
        let next = LiveLink {
            low: label_at(labels, link.low),
            high: label_at(labels, link.high),
            place: place as u32,
        };
        keep_next(links, next, &mut table);
    }
    Ok(table)
}

// Merges the table of the second of two parts into that of the first. If two links are equal, the earlier one stays.
fn merge<A: Allocator + Copy>(
    scanned: Scanned,
    first: Part,
    second: Part,
    table: &mut Table<A>,
    later: &[Best],
)
    requires can { CanScan scanned }
    requires beside { first.to ≡ second.from }
    requires earlier { AreBestOf scanned first table.old }
    requires later { AreBestOf scanned second later.now }
    ensures best { AreBest scanned.entry.links.now scanned.entry.labels.now first.from second.to table.new }
{
    for i in 0..later.len() {
        let next = later[i];
        if next.place != NO_PLACE {
            table.keep(i, scanned.links, next);
        }
    }
}
