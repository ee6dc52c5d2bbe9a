//! A network that is simulated: it loses datagrams, and brings others late, out of order, and twice, as is drawn from a seed.
ghost use Rattle.std.specs.Prelude.{◌<◌};

use rand_pcg::Pcg32;
use rand_pcg::rand_core::utils::NextWord;
use std::alloc::{AllocError, Global};

/// How many turns later than in the next one a datagram comes at most.
const LATE: u32 = 5;

/// How many of a hundred datagrams are lost.
const LOST: u32 = 20;

/// Of how many of a hundred that aren't lost a second copy comes.
const TWICE: u32 = 5;

/// Draws from a seed, the same on every machine.
#[derive(Drop)]
pub struct Draws {
    generator: Pcg32,
}

impl Draws {
    /// Each stream of a seed is drawn alike, whatever is drawn of the others.
    pub fn new(seed: u64, stream: u64) -> Draws {
        Draws {
            generator: Pcg32::new(seed, stream),
        }
    }

    /// A number below another.
    pub fn below(&mut self, count: u32) -> u32
        requires { 0 < count }
        ensures { result < count }
    {
        self.generator.next_word() % count
    }
}

/// A datagram under way.
#[derive(Drop)]
struct Letter {
    to: u8,
    /// The turn in which it comes.
    due: u32,
    bytes: Vec<u8>,
}

/// The datagrams that are under way, in the order in which they were sent.
#[derive(Drop)]
pub struct Network {
    letters: Vec<Letter>,
    draws: Draws,
}

impl Network {
    /// Nothing is under way.
    pub fn new(alloc: Global, draws: Draws) -> Network {
        Network {
            letters: Vec::new(alloc),
            draws,
        }
    }

    /// Sends a datagram: it comes once, twice or never. All is drawn for each, so that what is lost doesn't change how late others are.
    pub fn send(&mut self, to: u8, turn: u32, bytes: &[u8]) -> Result<(), AllocError> {
        let first = self.draws.below(LATE + 1);
        let is_lost = self.draws.below(100) < LOST;
        let is_twice = self.draws.below(100) < TWICE;
        let second = self.draws.below(LATE + 1);
        if is_lost {
            return Ok(());
        }
        self.put(to, turn.saturating_add(first), bytes)?;
        if is_twice {
            self.put(to, turn.saturating_add(second), bytes)?;
        }
        Ok(())
    }

    /// Has a copy of a datagram come in the turn after this one.
    fn put(&mut self, to: u8, turn: u32, bytes: &[u8]) -> Result<(), AllocError> {
        let letter = Letter {
            to,
            due: turn.saturating_add(1),
            bytes: Vec::from_slice(*self.letters.allocator(), bytes)?,
        };
        self.letters.push(letter)?;
        Ok(())
    }

    /// Takes out the first of the datagrams that have come to a machine by a turn.
    pub fn receive(&mut self, to: u8, turn: u32) -> Option<Vec<u8>> {
        let has_come = |letter: &Letter| letter.to == to && letter.due <= turn;
        let place = self.letters.iter().position(has_come)?;
        Some(self.letters.remove(place).bytes)
    }
}
