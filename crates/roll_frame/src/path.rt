//! Paths: rows in the order of their frames.
ghost use Rattle.std.specs.Prelude.{◌≡◌, ◌<◌, ◌≤◌, ◌↔◌, [], ◌∷◌, ◌++◌, length, IsTrue, refl};
ghost use Rattle.std.specs.Cmp.{po};
ghost use Rattle.std.specs.Ordering.{as_partial_cmp};

use crate::limits::PATH_LIMIT;
use crate::row::Row;
use arrayvec::ArrayVec;
use std::cmp::Ordering;

/// The first `base` settled rows of a session, followed by rows of the path's own, at most 24.
///
/// The path of fewer frames comes first, then the one of the smaller base, and then the earliest row that
/// differs decides.
#[derive(Clone, Debug, Drop, PartialEq, Eq)]
pub struct Path {
    /// How many settled rows the path begins with, from frame 0.
    pub base: u32,
    /// The rows from frame `base` on.
    pub rows: ArrayVec<Row, PATH_LIMIT>,
}

impl Path {
    ghost use Rattle.roll_frame.specs.Order.{frames_of};

    /// The settled rows alone.
    pub fn new(base: u32) -> Path
        ensures base { result.base ≡ base }
        ensures rows { result.rows.items ≡ [] }
    {
        Path {
            base,
            rows: ArrayVec::new(),
        }
    }

    /// How many frames the path has, from frame 0.
    pub fn frames(&self) -> u64
        ensures { result ≡ frames_of self.now }
    {
        u64::from(self.base) + self.rows.len() as u64
    }

    /// Whether there is no room for a further row.
    pub fn is_full(&self) -> bool
        ensures full { IsTrue result ↔ (length self.now.rows.items ≡ PATH_LIMIT) }
        ensures few { length self.now.rows.items ≤ PATH_LIMIT }
    {
        self.rows.is_full()
    }

    /// Adds the row of the next frame.
    pub fn push(&mut self, row: Row)
        requires { length self.old.rows.items < PATH_LIMIT }
        ensures base { self.new.base ≡ self.old.base }
        ensures rows { self.new.rows.items ≡ self.old.rows.items ++ row ∷ [] }
    {
        self.rows.push(row);
    }
}

impl PartialOrd for Path {
    ghost use Rattle.roll_frame.specs.Order.{path_cmp};
    ghost use Rattle.roll_frame.specs.Impls.Total.{path_cmp_total};
    ghost use Rattle.roll_frame.specs.Impls.Ties.{path_cmp_ties};

    ghost partial_cmp = { as_partial_cmp path_cmp };

    ghost laws = { po path_cmp_total path_cmp_ties };

    fn partial_cmp(&self, other: &Path) -> Option<Ordering> {
        Some(self.cmp(other))
    }
}

impl Ord for Path {
    ghost use Rattle.roll_frame.specs.Order.{path_cmp};
    ghost use Rattle.roll_frame.specs.Impls.Total.{path_cmp_total};
    ghost use Rattle.roll_frame.specs.Impls.Ties.{path_cmp_ties};

    ghost cmp = { path_cmp };

    ghost total = { path_cmp_total };

    ghost matches_partial_cmp = { λ p q. refl };

    ghost matches_eq = { path_cmp_ties };

    fn cmp(&self, other: &Path) -> Ordering {
        self.frames()
            .cmp(&other.frames())
            .then(self.base.cmp(&other.base))
            .then_with(|| self.rows.cmp(&other.rows))
    }
}
