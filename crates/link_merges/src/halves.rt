//! Joins links in halves. The first half is joined by itself. Then each row of the second half gets the clusters that
//! its own clusters are part of by now, and the second half is joined.
ghost use Rattle.std.specs.Prelude.{◌≡◌, ℕ, false, ◌+◌, ◌<◌, ◌≤◌, ◌^◌, List, length, IsTrue};
ghost use Rattle.link_key.specs.Components.{IsAcyclic};
ghost use Rattle.link_merges.specs.Halves.{now_of, AreThemselves, AreBelow, IsInNone, AreMovedBy, AreToJoin, AreJoined, LeadsOn};
ghost use Rattle.links.specs.declared.links.Link.{Link as TheLink};

use crate::merges::Merge;

// Maps each cluster of the joined rows to the cluster that it is part of after the last of these rows.
fn lead_on(rows: &[Merge], now: &mut [u32], name: u32)
    requires below { AreBelow (length now.old) rows.now }
    requires room { name + length rows.now ≤ length now.old }
    requires own { AreThemselves now.old }
    ensures in_range { (c : ℕ) → c < length now.new → now_of now.new c < length now.new }
    ensures others { (c : ℕ) → IsInNone rows.now c → now_of now.new c ≡ c }
    ensures leads { (n k : ℕ) (links : List TheLink) → name ≡ n + k → AreJoined n links k rows.now
        → LeadsOn n links k (k + length rows.now) now.new }
{
    for i in (0..rows.len()).rev() {
        let row = rows[i];
        let next = now[name as usize + i];
        now[row.first as usize] = next;
        now[row.second as usize] = next;
    }
}

// Maps each cluster of the rows to itself again.
fn forget(rows: &[Merge], now: &mut [u32])
    requires below { AreBelow (length now.old) rows.now }
    requires others { (c : ℕ) → IsInNone rows.now c → now_of now.old c ≡ c }
    ensures { AreThemselves now.new }
{
    for row in rows {
        now[row.first as usize] = row.first;
        now[row.second as usize] = row.second;
    }
}

// Replaces the clusters of each row by those that they are now part of.
fn move_on(rows: &mut [Merge], now: &[u32])
    requires below { AreBelow (length now.now) rows.old }
    ensures { AreMovedBy now.now rows.old rows.new }
{
    for row in rows {
        row.first = now[row.first as usize];
        row.second = now[row.second as usize];
    }
}

// Gives each row the clusters that its link joins, where the first link makes the cluster `name`. Returns whether no
// link closes a cycle.
pub(crate) fn join(rows: &mut [Merge], now: &mut [u32], name: u32) -> bool
    requires below { AreBelow (length now.old) rows.old }
    requires room { name + length rows.old ≤ length now.old }
    requires few { length now.old < 2 ^ 32 }
    requires own { AreThemselves now.old }
    ensures below { IsTrue result → AreBelow (length now.new) rows.new }
    ensures own { IsTrue result → AreThemselves now.new }
    ensures joined { IsTrue result → (n k : ℕ) (links : List TheLink) → name ≡ n + k → AreToJoin n links k rows.old
        → AreJoined n links k rows.new }
    ensures cycle { result ≡ false → (n k : ℕ) (links : List TheLink) → name ≡ n + k → AreToJoin n links k rows.old
        → ¬ (IsAcyclic links) }
{
    if rows.len() < 2 {
        return rows.is_empty() || rows[0].first != rows[0].second;
    }
    let half = rows.len() / 2;
    let (first, second) = rows.split_at_mut(half);
    if !join(first, now, name) {
        return false;
    }
    lead_on(first, now, name);
    move_on(second, now);
    forget(first, now);
    join(second, now, name + half as u32)
}
