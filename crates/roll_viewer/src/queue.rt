//! The rows that came to a viewer.
ghost use Rattle.std.specs.Prelude.{◌≡◌, ◌≤◌, [], slice_get, IfOk, IsFalse, IsTrue};
ghost use Rattle.roll_frame.specs.declared.limits.TheConstants.{FRAME_LIMIT as MOST_FRAMES};
ghost use Rattle.roll_viewer.specs.Queued.{with_next, with_taken, IsFull, IsHandedOn};

use circular_buffer::HeapCircularBuffer;
use roll_frame::{FRAME_LIMIT, Row};
use roll_spectate::RowSender;
use std::alloc::{AllocError, Global};
use std::marker::Model;

/// The most rows that wait at a viewer.
pub const WAITING_LIMIT: usize = 64;

/// How many rows came to a viewer, and those of them that wait to be taken.
#[derive(Drop)]
pub(crate) struct RowQueue {
    count: u32,
    waiting: HeapCircularBuffer<Row>,
}

impl Model for RowQueue {
    ghost use Rattle.std.specs.Prelude.{◌≡◌, ◌≤◌};
    ghost use Rattle.roll_frame.specs.declared.limits.TheConstants.{FRAME_LIMIT};
    ghost use Rattle.roll_viewer.specs.Queued.{Queued};
    ghost use Rattle.roll_viewer.specs.declared.queue.TheConstants.{WAITING_LIMIT};

    ghost Value = { Queued };

    ghost view = { λ q. record { count = q.count; waiting = q.waiting.items } };

    ghost invariant = { λ q. (q.waiting.capacity ≡ WAITING_LIMIT) × (q.count ≤ FRAME_LIMIT) };
}

impl RowQueue {
    /// None came.
    pub(crate) fn new(alloc: Global) -> Result<RowQueue, AllocError>
        ensures { IfOk result (λ queue. queue ≡ record { count = 0; waiting = [] }) }
    {
        let waiting = HeapCircularBuffer::with_capacity(alloc, WAITING_LIMIT)?;
        Ok(RowQueue { count: 0, waiting })
    }

    /// How many came.
    pub(crate) fn count(&self) -> u32
        ensures count { result ≡ self.now.count }
        ensures few { result ≤ MOST_FRAMES }
    {
        self.count
    }

    /// The next row comes, if there is a place for it: whether there was.
    pub(crate) fn push(&mut self, row: Row) -> bool
        ensures came { IsTrue result → self.new ≡ with_next row self.old }
        ensures full { IsFalse result → (self.new ≡ self.old) × IsFull self.old }
    {
        if self.count >= FRAME_LIMIT || self.waiting.try_push_back(row).is_err() {
            return false;
        }
        self.count += 1;
        true
    }

    /// Takes the first row that waits.
    pub(crate) fn pop(&mut self) -> Option<Row>
        ensures which { result ≡ slice_get self.old.waiting 0 }
        ensures rest { self.new ≡ with_taken 1 self.old }
    {
        self.waiting.pop_front()
    }

    /// The first row that waits.
    fn first(&self) -> Option<Row>
        ensures { result ≡ slice_get self.now.waiting 0 }
    {
        self.waiting.front().copied()
    }

    /// Sends a spectator the rows that wait, until its ring is full, and says how many.
    pub(crate) fn hand_to(&mut self, sender: &mut RowSender) -> u32
        ensures { IsHandedOn self.old self.new sender.old sender.new result }
    {
        let mut count = 0;
        while let Some(row) = self.first() {
            if sender.count() >= FRAME_LIMIT || !sender.send(row) {
                break;
            }
            self.pop();
            count += 1;
        }
        count
    }
}
