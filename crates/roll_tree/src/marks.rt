//! Marks: one bit for each player whose cell in a row differs from the timeline's, player 1's the lowest.
ghost use Rattle.std.specs.Prelude.{◌≡◌, ◌≢◌, ℕ, ◌-◌, ◌<◌, ◌≤◌, [], ◌∷◌, ◌++◌, length, slice_get, List, Option, Some, true};
ghost use Rattle.std.specs.Option.{option_and_then};
ghost use Rattle.std.specs.Int.{bit_at};
ghost use Rattle.roll_frame.specs.Claims.{place_of};
ghost use Rattle.roll_frame.specs.declared.row.Cell.{Cell};
ghost use Rattle.slab.specs.Slab.{slab_len};
ghost use Rattle.roll_tree.specs.Layout.{node_at, has_name, AreLinked, AreOrdered, AreFresh, AreLike};
ghost use Rattle.roll_tree.specs.Marks.{differ_at, bit_of, AreMarks, AreSameBut};

use crate::node::{Edge, Node, set_marks};
use roll_frame::{PATH_LIMIT, PLAYER_LIMIT, Row};
use slab::Slab;

/// The marks of a row whose frame is at this place of the timeline, none where it isn't known.
pub fn marks_in(time: &[Row], place: usize, row: &Row) -> u8
    ensures { AreMarks (slice_get time.now place) row.now result }
{
    match time.get(place) {
        Some(there) => marks_of(row, there),
        None => 0,
    }
}

/// Marks the edges of the frame after the last that is known, of which this is the row. There is none where all paths end
/// before, as `tip` tells.
pub fn mark_next<S>(
    nodes: &mut Slab<Node<S>>,
    order: &[usize],
    base: u32,
    tip: u32,
    time: &[Row],
    row: &Row,
)
    requires short { length time.now < PATH_LIMIT }
    requires linked { AreLinked base nodes.old.slots }
    requires ordered { AreOrdered nodes.old.slots [] order.now }
    requires listed { (name : ℕ) (node : Node S) → node_at nodes.old.slots name ≡ Some node
        → has_name order.now name ≡ true }
    requires fresh { AreFresh base time.now nodes.old.slots }
    requires tall { (name : ℕ) (node : Node S) → node_at nodes.old.slots name ≡ Some node
        → node.end ≤ tip }
    ensures like { AreLike nodes.old.slots nodes.new.slots }
    ensures fresh { AreFresh base (time.now ++ row.now ∷ []) nodes.new.slots }
    ensures len { slab_len nodes.new ≡ slab_len nodes.old }
    ensures capacity { nodes.new.capacity ≡ nodes.old.capacity }
{
    let end = u64::from(base) + time.len() as u64 + 1;
    if u64::from(tip) < end {
        return;
    }
    for name in order {
        let node = &nodes[*name];
        if u64::from(node.end) != end {
            continue;
        }
        let Some(edge) = node.edge else {
            continue;
        };
        let marks = marks_of(&edge.row, row);
        set_marks(nodes, *name, edge, marks);
    }
}

fn marks_of(row: &Row, there: &Row) -> u8
    ensures { AreMarks (Some there.now) row.now result }
{
    let players = row.count().max(there.count());
    let mut marks = 0;
    for place in 0..usize::from(players) {
        marks = marked(marks, place, row, there);
    }
    marks
}

// The marks with the one at a place computed afresh.
fn marked(marks: u8, place: usize, row: &Row, there: &Row) -> u8
    requires { place < PLAYER_LIMIT }
    ensures here { bit_at result place ≡ bit_of (differ_at row.now there.now place) }
    ensures others { (other : ℕ) → other ≢ place → bit_at result other ≡ bit_at marks other }
{
    let bit = 1 << place;
    if row.get(place) == there.get(place) {
        marks & !bit
    } else {
        marks | bit
    }
}

/// The least player, from 1, who has a mark.
pub fn least_marked(marks: u8) -> Option<u8>
    ensures { (there : Option (List Cell)) (row : List Cell) → AreMarks there row marks
        → result ≡ option_and_then (place_of row) there }
{
    if marks == 0 {
        return None;
    }
    Some(marks.trailing_zeros() as u8 + 1)
}

/// Where the timeline changes: at new rows, and in a player's cells in a frame and later.
#[derive(Clone, Copy)]
pub struct Change {
    /// The frame of the timeline's first row.
    pub base: u32,
    /// The player, from 1.
    pub player: u8,
    /// The first frame in which the player's cells may change.
    pub from: u32,
}

impl Change {
    /// Makes the marks agree with the new rows, where they agreed with the old.
    pub fn mark_all<S>(&self, nodes: &mut Slab<Node<S>>, order: &[usize], old: &[Row], new: &[Row])
        requires linked { AreLinked self.now.base nodes.old.slots }
        requires ordered { AreOrdered nodes.old.slots [] order.now }
        requires listed { (name : ℕ) (node : Node S) → node_at nodes.old.slots name ≡ Some node
            → has_name order.now name ≡ true }
        requires fresh { AreFresh self.now.base old.now nodes.old.slots }
        requires long { length old.now ≤ length new.now }
        requires same { AreSameBut self.now.player self.now.from self.now.base old.now new.now }
        ensures like { AreLike nodes.old.slots nodes.new.slots }
        ensures fresh { AreFresh self.now.base new.now nodes.new.slots }
        ensures len { slab_len nodes.new ≡ slab_len nodes.old }
        ensures capacity { nodes.new.capacity ≡ nodes.old.capacity }
    {
        for name in order {
            let node = &nodes[*name];
            let Some(edge) = node.edge else {
                continue;
            };
            let marks = self.marks(node.end, &edge, old, new);
            set_marks(nodes, *name, edge, marks);
        }
    }

    // The marks of an edge that ends at a frame.
    fn marks(&self, end: u32, edge: &Edge, old: &[Row], new: &[Row]) -> u8
        requires below { self.now.base < end }
        requires fresh { AreMarks (slice_get old.now (end - self.now.base - 1)) edge.now.row
            edge.now.marks }
        requires long { length old.now ≤ length new.now }
        requires same { AreSameBut self.now.player self.now.from self.now.base old.now new.now }
        ensures { AreMarks (slice_get new.now (end - self.now.base - 1)) edge.now.row result }
    {
        let frame = end - 1;
        let place = (frame - self.base) as usize;
        if place >= old.len() {
            return marks_in(new, place, &edge.row);
        }
        if frame < self.from {
            return edge.marks;
        }
        match usize::from(self.player).checked_sub(1) {
            Some(player) if player < PLAYER_LIMIT => {
                marked(edge.marks, player, &edge.row, &new[place])
            }
            _ => marks_in(new, place, &edge.row),
        }
    }
}
