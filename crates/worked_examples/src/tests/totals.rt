// Total weights of forests.
use super::lists::links_between;
use super::same::expect_same;
use link_key::{Forest, Link, plain_forest};
use worked_graphs::WORKED;

#[test]
fn totals_of_the_worked_graphs(rt: HostRuntime) {
    for graph in WORKED {
        assert!(rt; graph.n <= 1 << 26);
        let links = links_between(&rt, rt.alloc(), graph.n, graph.arcs);
        let forest = plain_forest(rt.alloc(), graph.n, links.as_slice()).expect(&rt, "memory");
        expect_same(&rt, forest.total(), graph.total);
    }
}

#[test]
fn a_total_of_many_links(rt: HostRuntime) {
    let mut links = Vec::new(rt.alloc());
    for v in 1..100_001u32 {
        if let Some(link) = Link::of_arc(v, v + 1, i64::MIN) {
            links.push(link).expect(&rt, "memory");
        }
    }
    let forest = Forest::of_list(links).expect(&rt, "ascending");
    expect_same(&rt, forest.total(), -922_337_203_685_477_580_800_000);
}
