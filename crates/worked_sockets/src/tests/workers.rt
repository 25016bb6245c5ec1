// Workers in threads on the far sides of connections.
ghost use Rattle.std.specs.Prelude.{◌≡◌, ◌+◌, ◌≤◌, length, All, OnOk};
ghost use Rattle.tcp_lines.specs.Lines.{unused};

use super::same::expect_same;
use forest_run::{Cutting, Report, run_lines};
use link_key::{Cut, Labels};
use ports::{Port, PortFault, Wire};
use std::alloc::{Alloc, AllocError, Global};
use std::net::{Ipv4Addr, Net, TcpListener, TcpStream};
use std::process::Abort;
use std::sync::Wait;
use std::thread::{self, Threads};
use std::time::{Duration, Instant};
use tcp_lines::{TcpLine, Workers, pair};
use worked_graphs::{EQUAL_WEIGHTS, SMALL_NET, have_labels, links_of};

// An ask for the whole triangle returns the offers of this round.
fn expect_offers(
    rt: &impl Abort,
    wire: &mut Wire<TcpLine, Global>,
    cut: &Cut,
    round: u32,
    labels: &Labels,
)
    requires { wire.old.client.cut ≡ cut.now }
    ensures { wire.new.client.cut ≡ cut.now }
{
    assert!(rt; 1 <= round && cut.len() == 1 && wire.asks() < 100);
    assert!(rt; have_labels(cut.shard(0).links, labels.n()));
    match wire.ask(round, 0, labels) {
        Ok(answer) => {
            expect_same(rt, (answer.round, answer.shard), (round, 0));
            expect_same(
                rt,
                answer.offers.pairs(),
                [(1, 0), (2, 0), (3, 2)].as_slice(),
            );
        }
        Err(_) => panic!(rt; "an answer"),
    }
}

#[test]
fn a_worker_answers_over_a_connection(rt: HostRuntime) {
    let alloc = rt.alloc();
    let links = links_of(alloc, 3, EQUAL_WEIGHTS.arcs)
        .expect(&rt, "memory")
        .expect(&rt, "arcs");
    assert!(rt; links.len() <= 1 << 30);
    let cut = Cut::even(alloc, links.as_slice(), 1).expect(&rt, "a cut");
    let labels = Labels::apart(alloc, 3).expect(&rt, "memory");
    let (mut lines, workers) = Workers::start(&rt, alloc, 1).expect(&rt, "memory");
    let line = lines.pop().expect(&rt, "a worker");
    let mut wire = Wire::new(alloc, line, &cut, 0);
    expect_offers(&rt, &mut wire, &cut, 1, &labels);
    expect_offers(&rt, &mut wire, &cut, 2, &labels);
    drop(wire);
    workers.join(&rt);
}

#[test]
fn a_worker_who_hangs_up_is_down(rt: HostRuntime) {
    let alloc = rt.alloc();
    let links = links_of(alloc, 3, EQUAL_WEIGHTS.arcs)
        .expect(&rt, "memory")
        .expect(&rt, "arcs");
    assert!(rt; links.len() <= 1 << 30);
    let cut = Cut::even(alloc, links.as_slice(), 1).expect(&rt, "a cut");
    let part = cut.shard(0);
    let labels = Labels::apart(alloc, 3).expect(&rt, "memory");
    assert!(rt; have_labels(part.links, labels.n()));
    let listener = TcpListener::bind(&rt, (Ipv4Addr::LOCALHOST, 0)).expect(&rt, "a listener");
    let (line, far) = pair(&rt, &listener).expect(&rt, "a pair");
    drop(far);
    let mut wire = Wire::new(alloc, line, &cut, 0);
    expect_same(&rt, wire.ask(1, 0, &labels).err(), Some(PortFault::Down));
    expect_same(&rt, wire.ask(1, 0, &labels).err(), Some(PortFault::Closed));
}

// The report of a run over the small net, split into this many shards. The run writes the forest of the net.
#[tactic(auto, using(crate::proofs::NewLines::unused_room))]
fn report_of(
    rt: &(impl Threads + Abort + Wait + Sync),
    alloc: Global,
    shards: u32,
    lines: Vec<TcpLine>,
) -> Report
    requires count { length lines.items ≤ 64 }
    requires unused { All (λ line. line ≡ unused) lines.items }
{
    let mut source = SMALL_NET.file;
    let mut text = Vec::new(alloc);
    let cutting = Cutting::Even(shards);
    let ended = run_lines(rt, alloc, &mut source, cutting, lines, &mut text);
    let (report, _lines) = ended.expect(rt, "a forest");
    expect_same(rt, text.as_slice(), SMALL_NET.text);
    report
}

// The report of a run in which workers answered for each shard in each of three rounds.
fn all_answered(shards: u32) -> Report
    requires { shards ≤ 4096 }
{
    let asks = 3 * u64::from(shards);
    Report {
        vertices: 6,
        links: 8,
        rounds: 2,
        shards,
        asked: asks,
        answered: asks,
        alone: 0,
        closed: 0,
        total: SMALL_NET.total,
    }
}

#[test]
fn each_shard_is_answered_by_one_of_three_workers(rt: HostRuntime) {
    let alloc = rt.alloc();
    let (lines, workers) = Workers::start(&rt, alloc, 3).expect(&rt, "memory");
    expect_same(&rt, lines.len(), 3);
    expect_same(&rt, report_of(&rt, alloc, 2, lines), all_answered(2));
    workers.join(&rt);
}

// A shard and an ask are sent one after the other. The second must not wait until the first is acknowledged, which the
// other side may delay for 40 milliseconds.
#[test]
fn many_small_shards_take_no_time(rt: HostRuntime) {
    let alloc = rt.alloc();
    let (lines, workers) = Workers::start(&rt, alloc, 1).expect(&rt, "memory");
    expect_same(&rt, lines.len(), 1);
    let start = Instant::now(&rt).expect(&rt, "the time");
    expect_same(&rt, report_of(&rt, alloc, 64, lines), all_answered(64));
    let taken = start.elapsed(&rt).expect(&rt, "the time");
    expect_same(&rt, taken < Duration::from_secs(1), true);
    workers.join(&rt);
}

#[test]
fn as_many_workers_as_may_be(rt: HostRuntime) {
    let alloc = rt.alloc();
    let (lines, workers) = Workers::start(&rt, alloc, 64).expect(&rt, "memory");
    expect_same(&rt, lines.len(), 64);
    expect_same(&rt, report_of(&rt, alloc, 4, lines), all_answered(4));
    workers.join(&rt);
}

// Adds a line to the list.
#[tactic(auto, using(crate::proofs::NewLines::unused_push))]
fn add(lines: &mut Vec<TcpLine>, line: TcpLine) -> Result<(), AllocError>
    requires unused { All (λ line. line ≡ unused) lines.old.items }
    requires line { line ≡ unused }
    ensures unused { OnOk result (All (λ line. line ≡ unused) lines.new.items) }
    ensures count { OnOk result (length lines.new.items ≡ length lines.old.items + 1) }
{
    lines.push(line)?;
    Ok(())
}

// A run over a worker and a line whose far side is closed or soon will be. The worker answers for all shards.
fn expect_all_of_the_other<R>(rt: &R, line: TcpLine)
where
    R: Alloc<A = Global>
        + Net<Listener = TcpListener, Stream = TcpStream>
        + Threads
        + Abort
        + Wait
        + Sync
        + Copy
        + Send
        + 'static,
    requires { line ≡ unused }
{
    let alloc = rt.alloc();
    let (mut lines, workers) = Workers::start(rt, alloc, 1).expect(rt, "memory");
    add(&mut lines, line).expect(rt, "memory");
    let report = report_of(rt, alloc, 2, lines);
    let work = (report.rounds, report.answered, report.alone);
    expect_same(rt, work, (2, 6, 0));
    expect_same(rt, report.total, 13);
    expect_same(rt, report.closed <= 1, true);
    expect_same(rt, report.asked, report.closed.wrapping_add(6));
    workers.join(rt);
}

#[test]
fn a_worker_who_hangs_up_leaves_its_shards_to_the_other(rt: HostRuntime) {
    let listener = TcpListener::bind(&rt, (Ipv4Addr::LOCALHOST, 0)).expect(&rt, "a listener");
    let (line, far) = pair(&rt, &listener).expect(&rt, "a pair");
    drop(far);
    expect_all_of_the_other(&rt, line)
}

// The same if a thread hangs up on its side, no matter when.
#[test]
fn a_thread_that_drops_its_stream_leaves_its_shards_to_the_other(rt: HostRuntime) {
    let listener = TcpListener::bind(&rt, (Ipv4Addr::LOCALHOST, 0)).expect(&rt, "a listener");
    let (line, far) = pair(&rt, &listener).expect(&rt, "a pair");
    let thread = thread::spawn(&rt, move || drop(far)).expect(&rt, "a thread");
    expect_all_of_the_other(&rt, line);
    thread.join(&rt);
}
