//! What a host is asked, and what it answers.
use crate::absorb::Absorbed;
use crate::pump::Pumped;
use arrayvec::ArrayVec;
use roll_frame::{PATH_LIMIT, Refusal, Reply};
use roll_game::Game;
use roll_link::{Finished, LinkSender};
use roll_session::Request;

/// What a host can be asked for.
#[derive(Drop)]
pub enum HostRequest<G: Game> {
    /// A request of its session.
    Session(Request<G>),
    /// `pump`
    Pump,
    /// `absorb`
    Absorb,
    /// `speculate`, with as many words as a guess may have.
    Speculate {
        player: u8,
        words: ArrayVec<u32, PATH_LIMIT>,
        until: u32,
    },
    /// `add_link`
    AddLink,
    /// `end_link`, of a link that was there before the requests.
    EndLink {
        link: usize,
        finished: Finished,
    },
    /// `reserve_log`
    ReserveLog {
        events: u32,
    },
    /// `close`
    Close,
}

/// What a host answers.
#[derive(Drop)]
pub enum HostReply {
    /// What its session answers.
    Session(Reply),
    /// What a pump did.
    Pumped(Pumped),
    /// What an absorb did.
    Absorbed(Absorbed),
    /// What a guess is answered.
    Speculated(Result<Option<u64>, Refusal>),
    /// The sender's end of a link more.
    LinkAdded(Result<LinkSender, Refusal>),
    /// How many items of a link that ended are not applied yet.
    LinkEnded(u32),
    /// Whether there is room for so many events.
    LogReserved(Result<(), Refusal>),
    /// The workers were told to stop.
    Closed,
}
