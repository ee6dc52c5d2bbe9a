//! What became of bytes that came.
use roll_member::Taken;
use roll_wire::WireFault;
use thiserror::Error;

/// What was heard.
#[derive(Clone, Copy, Debug, PartialEq, Eq)]
pub enum Received {
    /// A hello: who the sender takes the match's machines to be.
    Hello {
        /// Who sent it.
        sender: u8,
    },
    /// A play, and what became of its words.
    Play {
        /// Who sent it.
        sender: u8,
        /// What became of its words.
        taken: Taken,
    },
    /// A bye: the sender is gone from now on.
    Bye {
        /// Who sent it.
        sender: u8,
    },
}

/// Why bytes weren't heard. What its sender sealed is counted, and told; all else changes nothing.
#[derive(Clone, Copy, Debug, PartialEq, Eq, Error)]
pub enum Ignored {
    /// They aren't of this match, or of another opening of its sender or of this machine, or were changed on their way.
    #[error("not of this match or opening, or changed on its way")]
    NotSealed,
    /// They are sealed for this match, and are no datagram.
    #[error("{0}")]
    NoDatagram(WireFault),
    /// There is no such machine in the match.
    #[error("no such machine")]
    InvalidMachine,
    /// This machine sent them.
    #[error("this machine sent it")]
    OwnMachine,
    /// The sender is gone.
    #[error("the sender is gone")]
    MachineGone,
    /// The session isn't this match's: [`OtherSession`](crate::OtherSession).
    #[error("the session isn't this match's")]
    OtherSession,
    /// A play speaks of machines or players that the match hasn't.
    #[error("it speaks of machines or players that the match hasn't")]
    Outside,
    /// A play has words that its sender doesn't say that it has, or says that it has more words of this machine's players than this
    /// machine gave.
    #[error("the packet has more words than there are")]
    Overstated,
}
