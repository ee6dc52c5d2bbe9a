//! How a route is packed.
ghost use Rattle.std.specs.Prelude.{◌≡◌, ◌+◌, ◌<◌, ◌≤◌, ◌∷◌, ◌++◌, [], length, slice_get, IsTrue, Some};
ghost use Rattle.roll_branch.specs.Changes.{AreAdded};

use crate::change::Change;
use arrayvec::ArrayVec;
use roll_frame::{BRANCH_LIMIT, Cell, PATH_LIMIT, PLAYER_LIMIT, Row};
use std::marker::Model;

/// The most rows of a route, with those of its path.
pub(crate) const ROUTE_LIMIT: usize = PATH_LIMIT + BRANCH_LIMIT;

/// The most changes of a route.
const CHANGE_LIMIT: usize = ROUTE_LIMIT * PLAYER_LIMIT;

/// Rows that are being packed. A clause sees those so far.
#[derive(Drop)]
pub(crate) struct Packing {
    pub(crate) changes: ArrayVec<Change, CHANGE_LIMIT>,
    last: ArrayVec<Cell, PLAYER_LIMIT>,
    count: u8,
}

impl Model for Packing {
    ghost use Rattle.roll_frame.specs.Cells.{Rows};

    ghost Value = { Rows };

    ghost use Rattle.roll_branch.specs.Packing.{gathered, IsPacking};

    ghost view = { gathered };

    ghost invariant = { IsPacking };
}

impl Packing {
    /// No row.
    pub(crate) fn new() -> Packing
        ensures { result ≡ [] }
    {
        Packing {
            changes: ArrayVec::new(),
            last: ArrayVec::new(),
            count: 0,
        }
    }

    /// Adds rows.
    pub(crate) fn add_rows(&mut self, rows: &[Row])
        requires { length self.old + length rows.now ≤ ROUTE_LIMIT }
        ensures { self.new ≡ self.old ++ rows.now }
    {
        for row in rows {
            self.add(row);
        }
    }

    fn add(&mut self, row: &Row)
        requires { length self.old < ROUTE_LIMIT }
        ensures { self.new ≡ self.old ++ row.now ∷ [] }
    {
        add_changes(&mut self.changes, self.count, self.last.as_slice(), row);
        self.last = row.cells();
        self.count += 1;
    }
}

/// Whether a row has this cell at this place.
fn has_cell(cells: &[Cell], place: usize, cell: Cell) -> bool
    ensures { IsTrue result → slice_get cells.now place ≡ Some cell }
{
    place < cells.len() && cells[place] == cell
}

/// Adds what a row has otherwise than the one before it.
fn add_changes(changes: &mut ArrayVec<Change, CHANGE_LIMIT>, number: u8, before: &[Cell], row: &Row)
    requires room { length changes.old.items + PLAYER_LIMIT ≤ CHANGE_LIMIT }
    requires before { length before.now ≤ PLAYER_LIMIT }
    ensures filled { 1 ≤ length row.now }
    ensures few { length changes.new.items ≤ length changes.old.items + PLAYER_LIMIT }
    ensures added { AreAdded number before.now row.now changes.old.items changes.new.items }
{
    let cells = row.cells();
    let count = row.count();
    for place in 0..count {
        let cell = cells[usize::from(place)];
        if !has_cell(before, usize::from(place), cell) {
            changes.push(Change::new(number, place, cell));
        }
    }
    if usize::from(count) < before.len() {
        changes.push(Change::End {
            row: number,
            place: count,
        });
    }
}
