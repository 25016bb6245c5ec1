//! Reads bytes that are only arc lines in their usual form, without knowing the lines before them.
ghost use Rattle.std.specs.Prelude.{◌≡◌, ◌≤◌, ◌++◌, length, take, option_to_list, IfSome};
ghost use Rattle.gr_text.specs.ArcLines.{BeginsWithArc, FillsOrNot};

use crate::sizes::ProblemSize;
use crate::usual_line::usual_arc;
use crate::verdicts::link_of;
use crate::words::LineFields;
use links::Link;

/// How many lines the bytes have, and how many edges the lines give. A loop gives no edge.
#[derive(Clone, Copy)]
pub(crate) struct ArcLines {
    pub lines: usize,
    pub links: usize,
}

/// Reads whole arc lines of a graph of this size, if each line is valid and in its usual form, and writes their edges
/// to the front of `room`. Returns `None` if the bytes are anything else, or have more edges than fit into `room`. The
/// time is linear in the number of bytes.
pub(crate) fn read_arc_lines(size: ProblemSize, bytes: &[u8], room: &mut [Link]) -> Option<ArcLines>
    ensures { FillsOrNot size.vertices bytes.now result room.old room.new }
{
    let mut rest = bytes;
    let mut found = ArcLines { lines: 0, links: 0 };
    while let Some((link, after)) = first_arc(size, rest) {
        found.links = put_link(room, found.links, link)?;
        found.lines += 1;
        rest = after;
    }
    if !rest.is_empty() {
        return None;
    }
    Some(found)
}

// Returns the edge of the arc line that the bytes begin with (none if it is a loop), and the bytes after the line.
#[inline(always)]
fn first_arc(size: ProblemSize, bytes: &[u8]) -> Option<(Option<Link>, &[u8])>
    ensures { IfSome result (λ first. BeginsWithArc size.vertices bytes.now first.0 first.1.now) }
{
    let (line, rest) = usual_arc(bytes)?;
    let LineFields::ArcWhole(tail, head, weight) = line else {
        return None;
    };
    match link_of(size, tail, head, weight) {
        Ok(link) => Some((link, rest)),
        Err(_) => None,
    }
}

// Writes an arc's edge, if it has one, at an index, and returns the next index.
#[inline(always)]
fn put_link(room: &mut [Link], place: usize, link: Option<Link>) -> Option<usize>
    requires { place ≤ length room.old }
    ensures len { length room.new ≡ length room.old }
    ensures within { IfSome result (λ next. next ≤ length room.new) }
    ensures put { IfSome result (λ next. take next room.new ≡ take place room.old ++ option_to_list link) }
{
    let Some(link) = link else {
        return Some(place);
    };
    if place == room.len() {
        return None;
    }
    room[place] = link;
    Some(place + 1)
}
