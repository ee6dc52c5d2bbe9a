//! The way between both machines: two rings of datagrams, which stand for sockets. Some datagrams are lost on it, some are overtaken.
use rtrb::{Consumer, Producer, RingBuffer};
use std::alloc::{AllocError, Global};

/// One datagram in so many is lost.
const LOST: u32 = 5;

/// One in so many waits until the next one has come.
const OVERTAKEN: u32 = 3;

/// How many datagrams may be under way to a machine.
const ROOM: usize = 64;

/// One machine's end.
#[derive(Drop)]
pub struct Wire {
    alloc: Global,
    /// How many datagrams it was given.
    count: u32,
    waits: Option<Vec<u8>>,
    sent: Producer<Vec<u8>>,
    come: Consumer<Vec<u8>>,
}

impl Wire {
    /// Both ends.
    pub fn pair(alloc: Global) -> Result<(Wire, Wire), AllocError> {
        let (to_far, at_far) = RingBuffer::new(alloc, ROOM)?;
        let (to_near, at_near) = RingBuffer::new(alloc, ROOM)?;
        Ok((
            Wire::end(alloc, to_far, at_near),
            Wire::end(alloc, to_near, at_far),
        ))
    }

    fn end(alloc: Global, sent: Producer<Vec<u8>>, come: Consumer<Vec<u8>>) -> Wire {
        Wire {
            alloc,
            count: 0,
            waits: None,
            sent,
            come,
        }
    }

    /// Sends a datagram.
    pub fn send(&mut self, bytes: &[u8]) -> Result<(), AllocError> {
        self.count = self.count.wrapping_add(1);
        if self.count % LOST == 0 {
            return Ok(());
        }
        let datagram = Vec::from_slice(self.alloc, bytes)?;
        let before = self.waits.take();
        if self.count % OVERTAKEN == 0 {
            self.waits = Some(datagram);
        } else {
            self.push(Some(datagram));
        }
        self.push(before);
        Ok(())
    }

    /// Puts a datagram into the ring. One for which there is no room is lost.
    fn push(&mut self, datagram: Option<Vec<u8>>) {
        if let Some(datagram) = datagram {
            let _ = self.sent.push(datagram);
        }
    }

    /// A datagram that has come, if there is one.
    pub fn receive(&mut self) -> Option<Vec<u8>> {
        self.come.pop().ok()
    }
}
