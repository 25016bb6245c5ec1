// A scan by threads makes no more tables than there are processors, however many links there are.
use super::same::expect_same;
use super::sizes::{apart, falling};
use std::thread::available_parallelism;
use test_memory::{Refusals, Refusing};
use worked_graphs::have_labels;
use worker_engine::{scan, scan_par};

// A million links between three vertices, which would be enough for sixteen threads.
#[test]
fn no_more_tables_than_processors(rt: HostRuntime) {
    let links = falling(&rt, rt.alloc(), 3, 0, 1 << 20);
    let links = links.as_slice();
    let labels = apart(&rt, rt.alloc(), 3);
    assert!(&rt; links.len() <= 1 << 24 && have_labels(links, labels.n()));
    let memory = Refusing::new(rt.alloc(), Refusals::none());
    drop(scan(&memory, links, &labels).expect(&rt, "memory"));
    let by_one = memory.given();
    drop(scan_par(&rt, &memory, links, &labels).expect(&rt, "memory"));
    let by_threads = memory.given().wrapping_sub(by_one);
    let processors = match available_parallelism(&rt) {
        Ok(processors) => processors.get() as u64,
        Err(_) => 1,
    };
    let most = by_one.wrapping_mul(processors);
    expect_same(&rt, by_threads.max(most), most);
}
