//! The errors of a run.
ghost use Rattle.std.specs.Prelude.{◌≡◌, ◌≤◌, length};
ghost use Rattle.plain_run.specs.FaultText.{cut_text, fault_text, part_text};

use crate::spelling::{LINE_ROOM, push_count, push_signed};
use arrayvec::ArrayString;
use gr_text::{ReadFault, WriteFault};
use links::{CutFault, Link};
use thiserror::Error;

/// Why a run gave no forest, or didn't write all of its text.
#[derive(Clone, Copy, Debug, PartialEq, Eq, Error)]
#[error("{}", self.text())]
pub enum RunFault {
    /// The file wasn't read.
    Read(ReadFault),

    /// The edges can't be split into shards as requested, or there was no memory to split them.
    Cut(CutFault),

    /// A round chose edges, although no graph with this many vertices has so many merging rounds. An answer that came
    /// in the rounds was wrong.
    Rounds {
        /// The number of the round, counted from 1.
        round: u32,
    },

    /// A round chose no edges, although the edges taken so far don't connect the endpoints of this one. An answer was
    /// wrong.
    Missed {
        /// The first such edge, in the order of the file.
        link: Link,
    },

    /// There was no memory, after the file had been read and split.
    Memory,

    /// The sink failed, or took no byte of what was left.
    Write {
        /// How many bytes of the forest's text the sink took.
        written: u64,
    },
}

impl RunFault {
    /// The text of the error, built on the stack.
    pub fn text(&self) -> ArrayString<LINE_ROOM>
        ensures text { result.bytes ≡ fault_text self.now }
        ensures short { length result.bytes ≤ 120 }
    {
        let mut text = ArrayString::new();
        match *self {
            RunFault::Read(why) => text.push_str(why.text().as_str()),
            RunFault::Cut(why) => text.push_str(text_of_cut(why)),
            RunFault::Rounds { round } => {
                push_count(&mut text, "round ", u64::from(round));
                text.push_str(" is past the bound");
            }
            RunFault::Missed { link } => {
                push_count(&mut text, "link ", u64::from(link.low));
                push_count(&mut text, " ", u64::from(link.high));
                push_signed(&mut text, " ", i128::from(link.weight));
                text.push_str(" was missed");
            }
            RunFault::Memory => text.push_str("no memory"),
            RunFault::Write { written } => text.push_str(WriteFault { written }.text().as_str()),
        }
        text
    }
}

/// Why a file can't be joined with those before it.
#[derive(Clone, Copy, Debug, PartialEq, Eq, Error)]
#[error("{}", self.text())]
pub enum PartFault {
    /// The file wasn't read, or there was no memory for its edges together with the others.
    Read(ReadFault),

    /// The file has another number of vertices than those before it.
    OtherVertices {
        /// The number of vertices of this file.
        vertices: u32,
        /// The number of vertices of the files before it.
        wanted: u32,
    },
}

impl PartFault {
    /// The text of the error, built on the stack.
    pub fn text(&self) -> ArrayString<LINE_ROOM>
        ensures text { result.bytes ≡ part_text self.now }
        ensures short { length result.bytes ≤ 120 }
    {
        let mut text = ArrayString::new();
        match *self {
            PartFault::Read(why) => text.push_str(why.text().as_str()),
            PartFault::OtherVertices { vertices, wanted } => {
                push_count(&mut text, "", u64::from(vertices));
                push_count(&mut text, " vertices in place of ", u64::from(wanted));
            }
        }
        text
    }
}

// Why a list isn't split. Out of memory has the same text as everywhere.
fn text_of_cut(fault: CutFault) -> &'static str
    ensures text { result.now ≡ cut_text fault }
    ensures short { length result.now ≤ 40 }
{
    match fault {
        CutFault::NoShards => "cut refused: NoShards",
        CutFault::TooManyShards => "cut refused: TooManyShards",
        CutFault::ShardTooLarge => "cut refused: ShardTooLarge",
        CutFault::BadPlaces => "cut refused: BadPlaces",
        CutFault::Memory => "no memory",
    }
}
