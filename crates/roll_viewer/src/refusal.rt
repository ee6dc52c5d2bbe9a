//! Why no end of a line is opened, and why bytes weren't heard.
use roll_contact::Field;
use roll_wire::WireFault;
use thiserror::Error;

/// Why no end of a viewer's line was opened.
#[derive(Clone, Copy, Debug, PartialEq, Eq, Error)]
pub enum LineFault {
    /// The draw is 0.
    #[error("the draw is 0")]
    NoDraw,
    /// A match has 2 to 8 machines.
    #[error("fewer than 2 machines, or more than 8")]
    Machines,
    /// The host is none of the machines.
    #[error("the host is none of the machines")]
    Host,
    /// The allocator has no room for a viewer's ring.
    #[error("no memory")]
    NoMemory,
}

/// Why one end of a viewer's line didn't hear bytes. What the other end sealed is counted if it was refused as `NoDatagram` or
/// `NoRows`; else a refusal changes nothing, but that a hello is heard, also if it means another match.
#[derive(Clone, Copy, Debug, PartialEq, Eq, Error)]
pub enum LineRefusal {
    /// The line has ended: one of its ends said bye.
    #[error("the line has ended")]
    Ended,
    /// They aren't of this opening of the line, or were changed on their way, or are too few or too many.
    #[error("not of this opening of the line, or changed on its way")]
    NotSealed,
    /// They are sealed for this line, and are no datagram.
    #[error("{0}")]
    NoDatagram(WireFault),
    /// The other end of the line didn't send them.
    #[error("the other end didn't send it")]
    Stranger,
    /// A hello of the other end that means another match: the field that it has otherwise.
    #[error("the other end means another match")]
    Mismatched(Field),
    /// A play tells of machines or players that the match hasn't, or of a settled state, or its offers say more than once where
    /// the rows begin.
    #[error("no rows of this match's players")]
    NoRows,
    /// The rows of a play begin past those that the viewer has.
    #[error("rows in between are missing")]
    Gap,
}
