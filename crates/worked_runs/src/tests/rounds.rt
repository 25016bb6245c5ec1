// The book of a round. `judge` checks answers about a triangle of equal weights, the order of answers changes nothing,
// and several threads can read a book.
ghost use Rattle.std.specs.Prelude.{◌≡◌, ◌≤◌, ◌<◌, ◌↔◌, ◌^◌, ℕ, length, All, IsTrue};
ghost use Rattle.links.specs.Cut.{links_at};
ghost use Rattle.links.specs.Link.{EndsUpTo};
ghost use Rattle.round_core.specs.Picks.{ArePicksOfHearings};

use super::same::expect_same;
use frames::Answer;
use link_key::{Cut, Labels, Link, Offers};
use round_core::{Picks, Refusal, RoundBook};
use std::alloc::Global;
use std::fmt::Display;
use std::process::Abort;
use worked_graphs::{A_PATH_OF_EIGHT, EQUAL_WEIGHTS, Row, all_have_labels, have_labels, links_of};
use worker_engine::scan;

fn answer(rt: &impl Abort, alloc: Global, round: u32, shard: u32, pairs: &[(u32, u32)]) -> Answer {
    let offers = Offers::of_pairs(Vec::from_slice(alloc, pairs).expect(rt, "memory")).expect(
        rt, "offers",
    );
    Answer {
        round,
        shard,
        offers,
    }
}

pub(crate) fn links_to_cut(rt: &impl Abort, alloc: Global, n: u32, arcs: &[Row]) -> Vec<Link>
    ensures few { length result.items ≤ 2 ^ 30 }
{
    let links = links_of(alloc, n, arcs)
        .expect(rt, "memory")
        .expect(rt, "arcs");
    assert!(rt; links.len() <= 1 << 30);
    links
}

pub(crate) fn opened<'a>(
    rt: &impl Abort,
    alloc: Global,
    cut: &'a Cut<'a>,
    round: u32,
    labels: &'a Labels,
) -> RoundBook<'a>
    ensures { result.labels ≡ labels.now }
{
    assert!(rt; all_have_labels(cut, labels.n()));
    let book = RoundBook::open(alloc, round, cut, labels).expect(rt, "memory");
    expect_same(rt, book.round(), round);
    book
}

// The picks of the book's round if its answers offer these, with one list for each shard.
pub(crate) fn picks_of_offers(
    rt: &impl Abort,
    alloc: Global,
    mut book: RoundBook,
    offered: &[&[(u32, u32)]],
) -> Picks
    ensures heard { ArePicksOfHearings book.entry.labels result }
    ensures each_vertex { length result ≡ length book.entry.labels }
{
    let round = book.round();
    for shard in 0..book.cut().len() {
        assert!(rt; shard < book.len() && (shard as usize) < offered.len());
        let taken = answer(rt, alloc, round, shard, offered[shard as usize]);
        expect_same(rt, book.take(shard, taken), Ok(()));
    }
    assert!(rt; book.missing() == 0);
    book.close()
}

// The picks of the book's round if its shards are scanned and answered in this order.
pub(crate) fn picks_of_scans(
    rt: &impl Abort,
    alloc: Global,
    mut book: RoundBook,
    order: &[u32],
) -> Picks
    ensures heard { ArePicksOfHearings book.entry.labels result }
    ensures each_vertex { length result ≡ length book.entry.labels }
{
    let (round, cut, labels) = (book.round(), book.cut(), book.labels());
    for shard in order {
        assert!(rt; *shard < cut.len() && *shard < book.len());
        let links = cut.shard(*shard).links;
        assert!(rt; have_labels(links, labels.n()));
        let answer = Answer {
            round,
            shard: *shard,
            offers: scan(alloc, links, labels).expect(rt, "memory"),
        };
        expect_same(rt, book.take(*shard, answer), Ok(()));
    }
    assert!(rt; book.missing() == 0);
    book.close()
}

// What `judge` returns for an answer to an ask of shard 0, with this round, this shard and these offers.
fn judged(
    rt: &impl Abort,
    alloc: Global,
    book: &RoundBook,
    answered: (u32, u32, &[(u32, u32)]),
) -> Result<(), Refusal> {
    assert!(rt; 0 < book.len());
    let answer = answer(rt, alloc, answered.0, answered.1, answered.2);
    book.judge(0, &answer)
}

fn expect_judged(
    rt: &impl Abort,
    alloc: Global,
    book: &RoundBook,
    rows: &[(u32, u32, &[(u32, u32)], Result<(), Refusal>)],
) {
    for row in rows {
        let said = judged(rt, alloc, book, (row.0, row.1, row.2));
        expect_same(rt, said, row.3);
    }
}

#[test]
fn judged_answers(rt: HostRuntime) {
    let alloc = rt.alloc();
    let links = links_to_cut(&rt, alloc, 3, EQUAL_WEIGHTS.arcs);
    let cut = Cut::even(alloc, links.as_slice(), 1).expect(&rt, "a cut");
    let labels = Labels::apart(alloc, 3).expect(&rt, "memory");
    let mut book = opened(&rt, alloc, &cut, 1, &labels);
    assert!(rt; 0 < book.len() && book.is_missing(0));
    let light = [(1, 0), (2, 0), (3, 2)];
    expect_judged(
        &rt,
        alloc,
        &book,
        &[
            (2, 7, &[(1, 9)], Err(Refusal::Stale)),
            (1, 7, &[(1, 9)], Err(Refusal::Stranger)),
            (1, 0, &[(1, 3)], Err(Refusal::NotALink)),
            (1, 0, &[(1, 1)], Err(Refusal::NotALink)),
            (1, 0, &[], Ok(())),
            (1, 0, &light, Ok(())),
            (1, 0, &[(1, 0), (2, 0), (3, 1)], Ok(())),
        ],
    );
    let first = answer(&rt, alloc, 1, 0, &light);
    expect_same(&rt, book.take(0, first), Ok(()));
    assert!(rt; 0 < book.len() && !book.is_missing(0));
    expect_judged(&rt, alloc, &book, &[(1, 0, &light, Err(Refusal::Double))])
}

// An answer that `judge` allows is taken without a second check, and can't be taken again.
#[test]
fn an_answer_that_was_judged(rt: HostRuntime) {
    let alloc = rt.alloc();
    let links = links_to_cut(&rt, alloc, 3, EQUAL_WEIGHTS.arcs);
    let cut = Cut::even(alloc, links.as_slice(), 1).expect(&rt, "a cut");
    let labels = Labels::apart(alloc, 3).expect(&rt, "memory");
    let mut book = opened(&rt, alloc, &cut, 1, &labels);
    let light = [(1, 0), (2, 0), (3, 2)];
    let first = answer(&rt, alloc, 1, 0, &light);
    assert!(rt; first.shard == 0 && 0 < book.len() && book.judge(0, &first).is_ok());
    book.take_allowed(first);
    assert!(rt; 0 < book.len() && !book.is_missing(0) && book.missing() == 0);
    expect_judged(&rt, alloc, &book, &[(1, 0, &light, Err(Refusal::Double))])
}

// In the path's first round each vertex picks the link to its neighbour.
fn are_pairs(picks: &Picks) -> bool
    requires { length picks.now ≡ 8 }
{
    let mut pairs = true;
    for pair in 0..4 {
        let link = Link::of_arc(2 * pair + 1, 2 * pair + 2, 1);
        pairs = pairs && picks.of(2 * pair + 1) == link && picks.of(2 * pair + 2) == link;
    }
    pairs && !picks.is_empty()
}

// After the three shards have answered, the picks are the same for every order.
#[test]
fn answers_in_any_order(rt: HostRuntime) {
    let alloc = rt.alloc();
    let links = links_to_cut(&rt, alloc, 8, A_PATH_OF_EIGHT.arcs);
    let cut = Cut::even(alloc, links.as_slice(), 3).expect(&rt, "a cut");
    let labels = Labels::apart(alloc, 8).expect(&rt, "memory");
    assert!(rt; labels.n() == 8);
    let orders = [
        [0, 1, 2],
        [0, 2, 1],
        [1, 0, 2],
        [1, 2, 0],
        [2, 0, 1],
        [2, 1, 0],
    ];
    for order in orders {
        let book = opened(&rt, alloc, &cut, 1, &labels);
        let picks = picks_of_scans(&rt, alloc, book, &order);
        expect_same(&rt, are_pairs(&picks), true);
    }
}

// In the first round of the triangle, 1 and 2 pick the link between them, and 3 picks the link to 1.
pub(crate) fn are_of_triangle(picks: &Picks) -> bool
    requires { length picks.now ≡ 3 }
{
    let (least, next) = (Link::of_arc(1, 2, 5), Link::of_arc(1, 3, 5));
    picks.of(1) == least && picks.of(2) == least && picks.of(3) == next
}

// A book accepts any number of a round, even one that no run over so few vertices reaches. The picks are the same.
#[test]
fn books_of_late_rounds(rt: HostRuntime) {
    let alloc = rt.alloc();
    let links = links_to_cut(&rt, alloc, 3, EQUAL_WEIGHTS.arcs);
    let cut = Cut::even(alloc, links.as_slice(), 1).expect(&rt, "a cut");
    let labels = Labels::apart(alloc, 3).expect(&rt, "memory");
    assert!(rt; labels.n() == 3);
    for round in [14, 15, 26, 27, u32::MAX] {
        let book = opened(&rt, alloc, &cut, round, &labels);
        let picks = picks_of_offers(&rt, alloc, book, &[&[(1, 0), (2, 0), (3, 2)]]);
        expect_same(&rt, are_of_triangle(&picks), true);
    }
}

// If 2 and 3 are joined, both components pick the link from 1 to 2. Vertex 3 names no component.
fn are_of_two(picks: &Picks) -> bool
    requires { length picks.now ≡ 3 }
{
    let least = Link::of_arc(1, 2, 5);
    picks.of(1) == least && picks.of(2) == least && picks.of(3).is_none()
}

// Each vertex of the triangle has its own label, but the last is joined to the second. The link between these two can't
// be offered. The other two links leave the second vertex's label, not the last vertex's number.
#[test]
fn the_last_vertex_is_joined(rt: HostRuntime) {
    let alloc = rt.alloc();
    let links = links_to_cut(&rt, alloc, 3, EQUAL_WEIGHTS.arcs);
    let cut = Cut::even(alloc, links.as_slice(), 1).expect(&rt, "a cut");
    let labels = Labels::of_list(Vec::from_slice(alloc, &[1, 2, 2]).expect(&rt, "memory")).expect(
        &rt, "labels",
    );
    assert!(rt; labels.n() == 3);
    let book = opened(&rt, alloc, &cut, 2, &labels);
    expect_judged(
        &rt,
        alloc,
        &book,
        &[
            (2, 0, &[(2, 1)], Err(Refusal::NotALink)),
            (2, 0, &[(3, 1)], Err(Refusal::NotALink)),
            (2, 0, &[(3, 2)], Err(Refusal::NotALink)),
            (2, 0, &[(1, 0), (2, 2)], Ok(())),
        ],
    );
    let picks = picks_of_offers(&rt, alloc, book, &[&[(1, 2), (2, 0)]]);
    expect_same(&rt, are_of_two(&picks), true);
}

pub(crate) fn expect_text(rt: &impl Abort, alloc: Global, fault: &impl Display, text: &str) {
    let shown = format!(in alloc; "{fault}").expect(rt, "memory");
    expect_same(rt, shown.as_str(), text);
}

// Accepts what several threads may read at once.
fn lent<B: Sync>(_book: &B) {}

#[test]
fn a_book_is_lent_to_threads(rt: HostRuntime) {
    let alloc = rt.alloc();
    let cut = Cut::even(alloc, &[], 2).expect(&rt, "a cut");
    let labels = Labels::apart(alloc, 1).expect(&rt, "memory");
    let book = opened(&rt, alloc, &cut, 1, &labels);
    lent(&book);
    expect_same(&rt, book.missing(), 2);
}

#[test]
fn texts_of_refusals(rt: HostRuntime) {
    let texts = [
        (Refusal::Stale, "answer of another round"),
        (Refusal::Stranger, "answer for another shard"),
        (Refusal::Double, "second answer for a shard"),
        (Refusal::NotALink, "offer of no outgoing link"),
    ];
    for (refusal, text) in texts {
        expect_text(&rt, rt.alloc(), &refusal, text);
    }
}
