//! The record of settled rows: four bytes for each cell, and a byte for each row.
ghost use Rattle.std.specs.Prelude.{◌≡◌, ◌+◌, ◌<◌, ◌≤◌, ◌++◌, ◌∷◌, [], OnOk, Some, length, slice_get, slice_index_or, vec_capacity};
ghost use Rattle.roll_frame.specs.Claims.{AreRowsOf};
ghost use Rattle.roll_frame.specs.declared.limits.TheConstants.{PLAYER_LIMIT};

use roll_frame::{Cell, Row};
use std::alloc::{AllocError, Global};
use std::marker::Model;

/// The settled rows, each with a cell for every player.
///
/// A row's words stand behind those of the row before it, 0 for a player who is gone; its bits of gone players lie apart.
/// Only `reserve` takes memory.
#[derive(Drop)]
pub struct Record {
    players: u8,
    words: Vec<u32>,
    gone: Vec<u8>,
}

impl Model for Record {
    ghost use Rattle.roll_inputs.specs.Recorded.{Recorded, recorded, IsRecord};

    ghost Value = { Recorded };

    ghost view = { recorded };

    ghost invariant = { IsRecord };
}

impl Record {
    /// No rows, for so many players.
    pub fn new(alloc: Global, players: u8) -> Record
        requires some { 1 ≤ players }
        requires few { players ≤ PLAYER_LIMIT }
        ensures players { result.players ≡ players }
        ensures rows { result.rows ≡ [] }
    {
        Record {
            players,
            words: Vec::new(alloc),
            gone: Vec::new(alloc),
        }
    }

    /// How many rows there are.
    pub fn len(&self) -> usize
        ensures { result ≡ length self.now.rows }
    {
        self.gone.len()
    }

    /// The row of a frame.
    pub fn get(&self, frame: usize) -> Option<Row>
        ensures { result ≡ slice_get self.now.rows frame }
    {
        let players = usize::from(self.players);
        if frame >= self.len() {
            return None;
        }
        let mut row = Row::new(self.at(frame, 0));
        for place in 1..players {
            row.push(self.at(frame, place));
        }
        Some(row)
    }

    /// The cell at a place of a frame's row.
    pub fn cell(&self, frame: usize, place: usize) -> Option<Cell>
        ensures { result ≡ slice_get (slice_index_or self.now.rows frame []) place }
    {
        if frame >= self.len() {
            None
        } else if place < usize::from(self.players) {
            Some(self.at(frame, place))
        } else {
            None
        }
    }

    fn at(&self, frame: usize, place: usize) -> Cell
        requires frame { frame < length self.now.rows }
        requires place { place < self.now.players }
        ensures { slice_get (slice_index_or self.now.rows frame []) place ≡ Some result }
    {
        if self.gone[frame] >> place & 1 == 1 {
            Cell::Gone
        } else {
            Cell::Word(self.words[frame * usize::from(self.players) + place])
        }
    }

    /// Adds rows where there is room for them.
    pub fn append(&mut self, rows: &[Row])
        requires wide { AreRowsOf self.old.players rows.now }
        requires room { length self.old.rows + length rows.now ≤ self.old.room }
        ensures { self.new ≡ record self.old { rows = self.old.rows ++ rows.now } }
    {
        for row in rows {
            self.push(row);
        }
    }

    fn push(&mut self, row: &Row)
        requires wide { length row.now ≡ self.old.players }
        requires room { length self.old.rows < self.old.room }
        ensures { self.new ≡ record self.old { rows = self.old.rows ++ row.now ∷ [] } }
    {
        append_words(&mut self.words, row.words());
        self.gone.push_reserved(row.gone_bits());
    }

    /// Makes room for so many rows in all.
    pub fn reserve(&mut self, rows: usize) -> Result<(), AllocError>
        ensures kept { self.new ≡ record self.old { room = self.new.room } }
        ensures more { self.old.room ≤ self.new.room }
        ensures room { OnOk result (rows ≤ self.new.room) }
    {
        let count = self.len();
        if count < rows {
            let more = rows - count;
            let Some(words) = more.checked_mul(usize::from(self.players)) else {
                return Err(AllocError);
            };
            self.gone.reserve(more)?;
            self.words.reserve(words)?;
        }
        Ok(())
    }
}

/// Adds words where there is room for them.
fn append_words(words: &mut Vec<u32>, more: &[u32])
    requires { length words.old.items + length more.now ≤ vec_capacity words.old }
    ensures items { words.new.items ≡ words.old.items ++ more.now }
    ensures capacity { vec_capacity words.new ≡ vec_capacity words.old }
{
    for word in more {
        words.push_reserved(*word);
    }
}
