//! What a run counts about itself.
ghost use Rattle.std.specs.Prelude.{◌≡◌, ◌≤◌, length};
ghost use Rattle.plain_run.specs.ReportText.{report_text};

use crate::spelling::{LINE_ROOM, push_count, push_signed};
use arrayvec::ArrayString;
use std::fmt;

/// The counts of a run. It is shown as one line of names and numbers.
///
/// In a run with workers, each ask either brought an answer or closed a port, so `asked` is `answered + closed`. Each
/// shard was answered or scanned without a worker in each round, so `answered + alone` is `(rounds + 1) * shards`. A
/// run without workers has no rounds or shards.
#[derive(Clone, Copy, Debug, PartialEq, Eq)]
pub struct Report {
    /// The number of vertices of the graph.
    pub vertices: u32,
    /// The number of edges in the list, counting repeats.
    pub links: u64,
    /// The number of rounds that took edges. One more round took none.
    pub rounds: u32,
    /// The number of shards.
    pub shards: u32,
    /// How often open ports were asked.
    pub asked: u64,
    /// How many answers of ports were accepted.
    pub answered: u64,
    /// How many shards were scanned without a port.
    pub alone: u64,
    /// How many ports were closed during the run.
    pub closed: u64,
    /// The total weight of the forest's edges.
    pub total: i128,
}

impl fmt::Display for Report {
    ghost use Rattle.std.specs.Prelude.{Some};

    ghost output = { λ report. Some (report_text report) };

    fn fmt<W: fmt::Write>(&self, f: &mut fmt::Formatter<W>) -> fmt::Result {
        f.write_str(self.text().as_str())
    }
}

impl Report {
    /// The text of the report, built on the stack.
    pub fn text(&self) -> ArrayString<LINE_ROOM>
        ensures text { result.bytes ≡ report_text self.now }
        ensures short { length result.bytes ≤ 300 }
    {
        let mut text = ArrayString::new();
        push_count(&mut text, "vertices=", u64::from(self.vertices));
        push_count(&mut text, " links=", self.links);
        push_count(&mut text, " rounds=", u64::from(self.rounds));
        push_count(&mut text, " shards=", u64::from(self.shards));
        push_count(&mut text, " asked=", self.asked);
        push_count(&mut text, " answered=", self.answered);
        push_count(&mut text, " alone=", self.alone);
        push_count(&mut text, " closed=", self.closed);
        push_signed(&mut text, " total=", self.total);
        text
    }
}
