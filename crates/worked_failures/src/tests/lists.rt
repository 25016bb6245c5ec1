// Lists of link_key.
ghost use Rattle.std.specs.Prelude.{◌≡◌, ◌≤◌, length, All, IfOk};
ghost use Rattle.links.specs.Link.{EndsUpTo};

use super::in_turn::{Memory, expect_each, or_refused};
use super::same::expect_same;
use link_key::{Cut, CutFault, Labels, Link, components_of, plain_forest};
use std::alloc::{AllocError, Global};
use std::process::Abort;
use worked_graphs::{Row, SMALL_NET, Worked, all_have_labels, links_of};

#[derive(Clone, Copy)]
enum Call {
    Apart,
    Even,
    At,
    PlainForest,
    Components,
    Cycle,
}

// The links of at most eight arcs between the vertices 1 to n, none of them a loop. The allocator doesn't fail.
pub(crate) fn few_links(rt: &impl Abort, alloc: Global, n: u32, arcs: &[Row]) -> Vec<Link>
    ensures few { length result.items ≤ 8 }
    ensures ends { EndsUpTo n result.items }
{
    let links = links_of(alloc, n, arcs).expect(rt, "memory");
    let links = links.expect(rt, "arcs");
    assert!(rt; links.len() == arcs.len() && links.len() <= 8);
    links
}

pub(crate) fn expect_forest(rt: &impl Abort, alloc: Global, found: &[Link], graph: &Worked) {
    let forest = few_links(rt, alloc, graph.n, graph.forest);
    expect_same(rt, found, forest.as_slice());
}

pub(crate) fn even_cut<'a>(
    rt: &impl Abort,
    memory: &'a Memory,
    links: &'a [Link],
    n: u32,
    count: u32,
) -> Result<Cut<'a, &'a Memory>, AllocError>
    requires few { length links.now ≤ 8 }
    ensures shards { IfOk result (λ cut. length cut ≡ count) }
    ensures ends { IfOk result (All (EndsUpTo n)) }
{
    let cut = or_refused(rt, Cut::even(memory, links, count), CutFault::Memory)?;
    assert!(rt; cut.len() == count && all_have_labels(&cut, n));
    Ok(cut)
}

fn expect_sizes(
    rt: &impl Abort,
    cut: Result<Cut<&Memory>, CutFault>,
    sizes: &[usize],
) -> Result<(), AllocError> {
    let cut = or_refused(rt, cut, CutFault::Memory)?;
    expect_same(rt, cut.len() as usize, sizes.len());
    for number in 0..cut.len() {
        assert!(rt; (number as usize) < sizes.len());
        expect_same(rt, cut.shard(number).links.len(), sizes[number as usize]);
    }
    Ok(())
}

// The labels of the components of links between six vertices.
fn expect_components(
    rt: &impl Abort,
    memory: &Memory,
    links: &[Link],
    labels: Option<&[u32]>,
) -> Result<(), AllocError>
    requires few { length links.now ≤ 8 }
    requires ends { EndsUpTo 6 links.now }
{
    let found = components_of(memory, 6, links.to_vec(memory)?)?;
    expect_same(rt, found.as_ref().map(|found| found.as_slice()), labels);
    Ok(())
}

// Labels of three vertices; cuts of eight links; the small net's forest and its components; and all of its links, which
// close a cycle.
fn make(rt: &impl Abort, alloc: Global, memory: &Memory, call: Call) -> Result<(), AllocError> {
    let links = few_links(rt, alloc, 6, SMALL_NET.arcs);
    let links = links.as_slice();
    match call {
        Call::Apart => {
            let labels = Labels::apart(memory, 3)?;
            expect_same(rt, labels.as_slice(), [1, 2, 3].as_slice());
        }
        Call::Even => expect_sizes(rt, Cut::even(memory, links, 3), &[2, 3, 3])?,
        Call::At => expect_sizes(rt, Cut::at(memory, links, &[2, 2, 8]), &[2, 0, 6, 0])?,
        Call::PlainForest => {
            let forest = plain_forest(memory, 6, links)?;
            expect_forest(rt, alloc, forest.links(), &SMALL_NET);
        }
        Call::Components => {
            let forest = few_links(rt, alloc, 6, SMALL_NET.forest);
            expect_components(rt, memory, forest.as_slice(), Some(&[1; 6]))?;
        }
        Call::Cycle => expect_components(rt, memory, links, None)?,
    }
    Ok(())
}

#[test]
fn labels_cuts_and_forests(rt: HostRuntime) {
    for call in [
        Call::Apart,
        Call::Even,
        Call::At,
        Call::PlainForest,
        Call::Components,
        Call::Cycle,
    ] {
        expect_each(
            &rt,
            rt.alloc(),
            |memory: &Memory| -> Result<(), AllocError> { make(&rt, rt.alloc(), memory, call) },
        );
    }
}
