//! A spectator's ring of rows.
ghost use Rattle.std.specs.Prelude.{◌≡◌, ◌<◌, ◌≤◌, ◌+◌, [], ◌∷◌, length, nat_lt, Some, None, IfOk, IsTrue, IsFalse, if◌then◌else◌};
ghost use Rattle.roll_frame.specs.Core.{settled};
ghost use Rattle.roll_frame.specs.Timeline.{row_at};
ghost use Rattle.roll_frame.specs.declared.limits.TheConstants.{FRAME_LIMIT};
ghost use Rattle.roll_session.specs.Standing.{settled_rows};
ghost use Rattle.roll_spectate.specs.Sent.{IsFed, IsFilled, IsSentMore};

use crate::limits::RING_ROWS;
use roll_frame::Row;
use roll_session::Settling;
use rtrb::{Consumer, Producer, Protocol, RingBuffer};
use std::alloc::{AllocError, Global};
use std::marker::Model;

/// At most as many rows go through a ring as a session has frames.
#[derive(Clone, Copy)]
pub(crate) struct FewRows;

impl Protocol<Row> for FewRows {
    ghost use Rattle.std.specs.Prelude.{◌<◌, length};
    ghost use Rattle.roll_frame.specs.declared.limits.TheConstants.{FRAME_LIMIT};

    ghost allows = { λ before row. length before < FRAME_LIMIT };
}

/// The session's end of a spectator's ring, which takes the rows that the spectator is to run, from frame 0 on.
#[derive(Drop)]
pub struct RowSender {
    pub(crate) producer: Producer<Row, Global, FewRows>,
    count: u32,
}

/// A clause sees the ring, the rows that were sent, and how many of them are known to be taken.
impl Model for RowSender {
    ghost use Rattle.std.specs.Prelude.{◌≡◌, ◌≤◌, ◌+◌, ◌-◌, length};
    ghost use Rattle.rtrb.specs.Ring.{sent, known_free};
    ghost use Rattle.roll_frame.specs.declared.limits.TheConstants.{FRAME_LIMIT};
    ghost use Rattle.roll_spectate.specs.Rings.{ring_at};
    ghost use Rattle.roll_spectate.specs.Sent.{Fed};
    ghost use Rattle.roll_spectate.specs.declared.limits.TheConstants.{RING_ROWS};

    ghost Value = { Fed };

    ghost view = { λ s. record { ring = ring_at s.producer.end; rows = sent s.producer; taken = known_free s.producer + length (sent s.producer) - RING_ROWS } };

    ghost invariant = { λ s. (s.count ≡ length (sent s.producer)) × (s.count ≤ FRAME_LIMIT) × (RING_ROWS ≤ known_free s.producer + length (sent s.producer)) };
}

/// A spectator's end of its ring, from which nothing was received yet.
#[derive(Drop)]
pub struct RowReceiver {
    pub(crate) consumer: Consumer<Row, Global, FewRows>,
}

/// A clause sees which ring it is of.
impl Model for RowReceiver {
    ghost use Rattle.std.specs.Prelude.{◌≡◌, []};
    ghost use Rattle.rtrb.specs.Ring.{received};
    ghost use Rattle.roll_spectate.specs.Rings.{Ring, ring_at};

    ghost Value = { Ring };

    ghost view = { λ r. ring_at r.consumer.end };

    ghost invariant = { λ r. received r.consumer ≡ [] };
}

/// A ring for a spectator, with room for 64 rows: the end that takes rows, and the spectator's. A [`Feed`](crate::Feed) has such
/// rings of its own.
///
/// # Errors
///
/// If the allocator has no room.
pub fn open_ring(alloc: Global) -> Result<(RowSender, RowReceiver), AllocError>
    ensures { IfOk result (λ ends. ends.0 ≡ record { ring = ends.1; rows = []; taken = 0 }) }
{
    let (producer, consumer) = RingBuffer::with_protocol::<Global, FewRows>(alloc, RING_ROWS)?;
    let sender = RowSender { producer, count: 0 };
    let receiver = RowReceiver { consumer };
    Ok((sender, receiver))
}

impl RowSender {
    /// Sends the settled rows that were not sent before, until the ring is full, and says how many.
    pub fn push<S: Settling>(&mut self, session: &S) -> u32
        ensures pushed { IsFed (settled_rows (S.seen session.now).core) self.old self.new }
        ensures count { length self.new.rows ≡ length self.old.rows + result }
        ensures few { length self.new.rows ≤ FRAME_LIMIT }
    {
        session.laws();
        let from = self.count;
        while let Some(row) = self.next(session) {
            if !self.send(row) {
                break;
            }
        }
        self.count - from
    }

    /// The first settled row that was not sent. None if all were.
    fn next<S: Settling>(&self, session: &S) -> Option<Row>
        ensures { result ≡ (if nat_lt (length self.now.rows) (settled (S.seen session.now).core)
            then Some (row_at (S.seen session.now).core.players (length self.now.rows)) else None) }
    {
        session.settled_row(self.count)
    }

    /// How many rows were sent.
    pub fn count(&self) -> u32
        ensures rows { result ≡ length self.now.rows }
        ensures few { result ≤ FRAME_LIMIT }
    {
        self.count
    }

    /// Sends a row, unless the ring is full, and says whether it did. A ring that seems full is asked how many rows were taken.
    pub fn send(&mut self, row: Row) -> bool
        requires { length self.old.rows < FRAME_LIMIT }
        ensures sent { IsTrue result → IsSentMore (row ∷ []) self.old self.new }
        ensures full { IsFalse result → (self.new ≡ self.old) × IsFilled self.old }
    {
        if self.producer.push(row).is_err() {
            return false;
        }
        self.count += 1;
        true
    }
}
