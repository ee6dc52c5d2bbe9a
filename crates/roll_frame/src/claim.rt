//! Claims as values.
ghost use Rattle.std.specs.Prelude.{◌≡◌, length};

use crate::path::Path;
use crate::row::Row;
use std::marker::Model;

/// What a roll claims of itself: that it started from the longest kept path on its way.
#[derive(Debug, Drop)]
pub struct Claim {
    /// How many players there are, 1 to 8.
    pub players: u8,
    /// The settled frame before the roll, at most 1,048,576.
    pub base: u32,
    /// The timeline's rows from frame `base` up to the roll's end, at most 24.
    pub time: Items<Row>,
    /// The paths that were kept before the roll, each of base `base`.
    pub kept: Items<Path>,
    /// How long the path was that the roll started from, from frame 0.
    pub from: u32,
    /// For each kept path longer than `from` that ends by the roll's end, a place where it differs from the time.
    pub differs: Items<Differ>,
}

/// A place where a kept path differs from the time.
#[derive(Clone, Copy, Debug, PartialEq, Eq)]
pub struct Differ {
    /// The path's place in the list of kept paths, from 0.
    pub state: u32,
    /// The frame.
    pub frame: u32,
    /// The player, from 1.
    pub player: u8,
}

/// A list of a claim. Its value is its items alone, whatever room the vector has.
#[derive(Debug, Drop)]
pub struct Items<T> {
    items: Vec<T>,
}

impl<T> Model for Items<T> {
    ghost use Rattle.std.specs.Prelude.{List};

    ghost Value = { List T };

    ghost view = { λ list. list.items.items };
}

impl<T> From<Vec<T>> for Items<T> {
    ghost from_gives = { λ items list. list ≡ items.items };

    fn from(items: Vec<T>) -> Items<T> {
        Items { items }
    }
}

impl<T> Items<T> {
    /// The items, in order.
    pub fn as_slice(&self) -> &[T]
        ensures { result.now ≡ self.now }
    {
        &self.items
    }

    /// How many there are.
    pub fn len(&self) -> usize
        ensures { result ≡ length self.now }
    {
        self.items.len()
    }
}
