//! The way between the sides: a simulated network.
use crate::network::{Draws, Network};
use arrayvec::ArrayVec;
use fazgrond::DATAGRAM_LIMIT;
use std::alloc::{AllocError, Global};

/// A datagram.
pub type Bytes = ArrayVec<u8, DATAGRAM_LIMIT>;

/// Of how many datagrams one comes with another that nobody sent.
const STRANGE: u32 = 7;

/// A network on which now and then a datagram comes that nobody sent.
#[derive(Drop)]
pub struct Line {
    network: Network,
    draws: Draws,
}

impl Line {
    /// Nothing is under way.
    pub fn new(alloc: Global) -> Line {
        Line {
            network: Network::new(alloc, Draws::new(1, 0)),
            draws: Draws::new(1, 1),
        }
    }

    /// Sends a datagram, which may be lost.
    pub fn send(&mut self, to: u8, turn: u32, bytes: &Bytes) -> Result<(), AllocError> {
        if self.draws.below(STRANGE) == 0 {
            let strange = self.strange(bytes)?;
            self.network.send(to, turn, &strange)?;
        }
        self.network.send(to, turn, bytes)
    }

    /// A datagram that has come to a machine, if there is one.
    pub fn receive(&mut self, to: u8, turn: u32) -> Option<Vec<u8>> {
        self.network.receive(to, turn)
    }

    /// A datagram that nobody sent: one of which a bit was changed, or as many bytes of no meaning.
    fn strange(&mut self, sent: &Bytes) -> Result<Bytes, AllocError> {
        let mut bytes = sent.clone()?;
        if self.draws.below(2) == 0 {
            let place = self.draws.below(DATAGRAM_LIMIT as u32) as usize % bytes.len().max(1);
            if let Some(byte) = bytes.get_mut(place) {
                *byte ^= 1;
            }
            return Ok(bytes);
        }
        for byte in &mut bytes {
            *byte = self.draws.below(256) as u8;
        }
        Ok(bytes)
    }
}
