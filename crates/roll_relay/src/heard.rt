//! What came by the network.
use roll_peer::Received;

/// What was heard.
#[derive(Clone, Copy, Debug, PartialEq, Eq)]
pub enum Heard {
    /// A datagram came straight of the machine that made it.
    Straight(Received),
    /// A machine told whom each hears.
    Map {
        /// The machine.
        sender: u8,
    },
    /// A machine gave datagrams that it carries: those for this machine were heard, and others handed on.
    Carried {
        /// The machine that gave them.
        sender: u8,
    },
}
