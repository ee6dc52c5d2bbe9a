//! How many frames the local side should wait for the other.
ghost use Rattle.std.specs.Prelude.{◌≡◌, ◌↔◌, pos, ◌*ℤ◌, [], length, IsNone, IfSome, IfOk, IfErr};
ghost use Rattle.roll_frame.specs.Advice.{IsWithin, held, noted, local_sum, remote_sum, advised, advice_of};

use crate::event::Event;
use crate::limits::{ADVANTAGE_LIMIT, ADVICE_WINDOW, LEAST_ADVICE, MOST_ADVICE};
use crate::refusal::Refusal;
use circular_buffer::HeapCircularBuffer;
use std::alloc::Global;
use std::marker::Model;

/// The advantages that a session noted last, and what they advise.
///
/// A side's advantage is how many frames it is behind the other side, as in GGPO: negative where it is ahead. The last
/// 40 pairs count, each advantage by 120 frames at most in either direction. Only `new` takes memory.
#[derive(Debug, Drop)]
pub struct Advice {
    pairs: HeapCircularBuffer<(i32, i32)>,
}

impl Model for Advice {
    ghost use Rattle.std.specs.Prelude.{◌≡◌, ℤ, List};
    ghost use Rattle.roll_frame.specs.Advice.{IsWindow};
    ghost use Rattle.roll_frame.specs.declared.limits.TheConstants.{ADVICE_WINDOW};

    ghost Value = { List (ℤ × ℤ) };

    ghost view = { λ a. a.pairs.items };

    ghost invariant = { λ a. (a.pairs.capacity ≡ ADVICE_WINDOW) × IsWindow a.pairs.items };
}

impl Advice {
    /// An empty window, with the room for all its pairs.
    ///
    /// # Errors
    ///
    /// `NoMemory` where the allocator has no room.
    pub fn new(alloc: Global) -> Result<Advice, Refusal>
        ensures empty { IfOk result (λ advice. advice ≡ []) }
        ensures no_memory { IfErr result (λ refusal. refusal ≡ Refusal.NoMemory) }
    {
        let pairs = HeapCircularBuffer::with_capacity(alloc, ADVICE_WINDOW)?;
        Ok(Advice { pairs })
    }

    /// Notes the advantages of both sides, in frames. In a full window they take the place of the oldest.
    pub fn note(&mut self, local: i32, remote: i32)
        ensures { self.new ≡ noted self.old local remote }
    {
        self.pairs.push_back((hold(local), hold(remote)));
    }

    /// How many frames the local side should wait: 0, or 3 to 9.
    ///
    /// That is half of what the remote side's advantages are above the local side's, on average over the pairs, to the
    /// nearest number, halves up. A wait below 3 counts as none, and one above 9 as 9.
    pub fn frames_ahead(&self) -> u32
        ensures { result ≡ advice_of self.now }
    {
        let (local, remote) = self.sums();
        if local >= remote {
            return 0;
        }
        let pairs = self.pairs.len() as u32;
        let lead = (remote - local).unsigned_abs();
        advise((lead + pairs) / (2 * pairs))
    }

    /// The advice as an event, where there is any.
    pub fn event(&self) -> Option<Event>
        ensures none { IsNone result ↔ (advice_of self.now ≡ 0) }
        ensures some { IfSome result (λ event. event ≡ Event.TimeSync (advice_of self.now)) }
    {
        match self.frames_ahead() {
            0 => None,
            frames_ahead => Some(Event::TimeSync { frames_ahead }),
        }
    }

    /// The sums of the local and of the remote advantages.
    fn sums(&self) -> (i32, i32)
        ensures local { result.0 ≡ local_sum self.now }
        ensures remote { result.1 ≡ remote_sum self.now }
        ensures bounds { let most = ADVANTAGE_LIMIT *ℤ pos (length self.now) in IsWithin most
            result.0 × IsWithin most result.1 }
    {
        let mut local_sum = 0;
        let mut remote_sum = 0;
        for (local, remote) in &self.pairs {
            local_sum += *local;
            remote_sum += *remote;
        }
        (local_sum, remote_sum)
    }
}

/// An advantage, held to the limit on both sides.
fn hold(advantage: i32) -> i32
    ensures { result ≡ held advantage }
{
    advantage.clamp(-ADVANTAGE_LIMIT, ADVANTAGE_LIMIT)
}

/// The advice for a wait of so many frames.
fn advise(wait: u32) -> u32
    ensures { result ≡ advised wait }
{
    if wait < LEAST_ADVICE {
        0
    } else {
        wait.min(MOST_ADVICE)
    }
}
