ghost use Rattle.std.specs.Prelude.{◌≡◌, ◌≤◌, ℕ, ℤ, ◌∷◌, [], IfOk, IfSome, MatchOption, MatchResult, option_to_list};
ghost use Rattle.links.specs.Arc.{Arc};
ghost use Rattle.links.specs.Link.{AreLinksOf};
ghost use Rattle.gr_text.specs.Word.{AreKeptOf, IsCappedSigned, KeepsArc, KeepsProblem};
ghost use Rattle.gr_text.specs.PartialLine.{IsWhole};
ghost use Rattle.gr_text.specs.LinesSoFar.{FitsAfter, JudgesArc, JudgesEach};
ghost use Rattle.gr_text.specs.Sort.{IsOfSort, NoArc, NoProblem};
ghost use Rattle.gr_text.specs.Graph.{IsArcOf, IsWeight};
ghost use Rattle.gr_text.specs.Fault.{IsWrongArc};

use crate::faults::GrKind;
use crate::sizes::ProblemSize;
use crate::words::{LineFields, Signed};
use limits::{MAX_ARCS, MAX_VERTICES};
use links::Link;

/// What a line adds to the lines before it.
#[derive(Clone, Copy)]
pub(crate) enum Verdict {
    /// It makes no statement.
    Silent,
    /// It states the problem.
    Begins(ProblemSize),
    /// It adds an arc with this edge, or a loop, which has none.
    Adds(Option<Link>),
    /// It is invalid.
    Faulty(GrKind),
}

/// Judges a line given the lines before it. `size` is what their problem line states, if they have one, and `count` is
/// their number of arc lines. Takes constant time.
#[inline(always)]
pub(crate) fn judge(size: Option<ProblemSize>, count: u32, line: LineFields) -> Verdict
    ensures fits { FitsAfter result size count }
    ensures judged { JudgesEach result size count (IsWhole line) }
{
    match line {
        LineFields::Nothing | LineFields::Comment => Verdict::Silent,
        LineFields::Unknown => Verdict::Faulty(GrKind::UnknownLine),
        LineFields::ProblemWhole(n, m) => judge_problem(size, n, m),
        LineFields::Problem
        | LineFields::ProblemSp
        | LineFields::ProblemVertices(_)
        | LineFields::BadProblem => bad_problem(size),
        LineFields::ArcWhole(u, v, w) => judge_arc(size, count, u, v, w),
        LineFields::Arc | LineFields::ArcTail(_) | LineFields::ArcEnds(_, _) | LineFields::BadArc =>
            bad_arc(size, count),
    }
}

fn judge_problem(size: Option<ProblemSize>, n: u64, m: u64) -> Verdict
    ensures fits { (count : ℕ) → FitsAfter result size count }
    ensures judged { (count : ℕ) → JudgesEach result size count (KeepsProblem n m) }
{
    if let Some(_) = size {
        return Verdict::Faulty(GrKind::SecondProblem);
    }
    if n > u64::from(MAX_VERTICES) || m > u64::from(MAX_ARCS) {
        return Verdict::Faulty(GrKind::TooLarge);
    }
    Verdict::Begins(ProblemSize {
        vertices: n as u32,
        arcs: m as u32,
    })
}

fn bad_problem(size: Option<ProblemSize>) -> Verdict
    ensures fits { (count : ℕ) → FitsAfter result size count }
    ensures judged { (count : ℕ) → JudgesEach result size count (λ bytes. IsOfSort bytes NoProblem) }
{
    match size {
        Some(_) => Verdict::Faulty(GrKind::SecondProblem),
        None => Verdict::Faulty(GrKind::BadProblem),
    }
}

#[inline(always)]
fn judge_arc(size: Option<ProblemSize>, count: u32, u: u64, v: u64, w: Signed) -> Verdict
    ensures fits { FitsAfter result size count }
    ensures judged { JudgesEach result size count (KeepsArc u v w) }
{
    let Some(size) = size else {
        return Verdict::Faulty(GrKind::NoProblemYet);
    };
    if count >= size.arcs {
        return Verdict::Faulty(GrKind::TooManyArcs);
    }
    match link_of(size, u, v, w) {
        Ok(link) => Verdict::Adds(link),
        Err(kind) => Verdict::Faulty(kind),
    }
}

/// Returns the edge of an arc, or none for a loop, if it is an arc of a graph of this size. Otherwise returns what is
/// wrong with it.
#[inline(always)]
pub(crate) fn link_of(size: ProblemSize, u: u64, v: u64, w: Signed) -> Result<Option<Link>, GrKind>
    ensures fits { IfOk result (λ link. IfSome link (λ l. l.high ≤ size.vertices)) }
    ensures judged { JudgesArc result size.vertices u v w }
{
    let most = u64::from(size.vertices);
    if u < 1 || u > most || v < 1 || v > most {
        return Err(GrKind::EndOutOfRange);
    }
    match weight_of(w) {
        Some(weight) => Ok(Link::of_arc(u as u32, v as u32, weight)),
        None => Err(GrKind::WeightOutOfRange),
    }
}

#[inline(always)]
fn weight_of(w: Signed) -> Option<i64>
    ensures { (z : ℤ) → IsCappedSigned w z → MatchOption result (¬ (IsWeight z)) (λ x. (x ≡ z) × IsWeight z) }
{
    match w {
        Signed::Plus(size) => i64::try_from(size).ok(),
        Signed::Minus(size) => 0i64.checked_sub_unsigned(size),
    }
}

fn bad_arc(size: Option<ProblemSize>, count: u32) -> Verdict
    ensures fits { FitsAfter result size count }
    ensures judged { JudgesEach result size count (λ bytes. IsOfSort bytes NoArc) }
{
    match size {
        None => Verdict::Faulty(GrKind::NoProblemYet),
        Some(size) => {
            if count >= size.arcs {
                Verdict::Faulty(GrKind::TooManyArcs)
            } else {
                Verdict::Faulty(GrKind::BadArc)
            }
        }
    }
}
