//! What a machine sends to another. Machines and players are counted from 0: player 0 is player 1 of a session.
ghost use Rattle.std.specs.Prelude.{◌≡◌};

use crate::limits::WORD_LIMIT;
use arrayvec::ArrayVec;
use roll_mesh::{Offer, PLAYER_LIMIT, Packet, View};

/// Which datagram it is.
#[derive(Clone, Copy, Debug)]
pub struct Envelope {
    /// The number of the match, the same at all its machines.
    pub match_number: u64,
    /// The machine that sent it, 0 to 7.
    pub sender: u8,
}

/// What two machines compare before they play.
#[derive(Clone, Copy, Debug)]
pub struct Hello {
    /// How many machines the match has, 2 to 8.
    pub machines: u8,
    /// How many words an input has, 1 to 4.
    pub words: u8,
    /// The machine that owns each player, player 0 first; 255 if there is no such player.
    pub owners: [u8; PLAYER_LIMIT],
    /// A digest of all else that both sides have to have alike, but for the opening state: the game, the session's limits.
    pub settings: u64,
    /// A digest of the game's opening state.
    pub opening: u64,
    /// The draw of the sender's opening, which isn't 0.
    pub draw: u64,
    /// The draw that it heard last of the receiver, 0 if none.
    pub echo: u64,
    /// After how many milliseconds of silence the sender regards the receiver as gone; 0: never.
    pub patience: u32,
    /// What the sender can beyond this version: a bit each.
    pub abilities: u8,
}

/// How far the sender is, and when it sent.
#[derive(Clone, Copy, Debug)]
pub struct Clocks {
    /// The sender's frame.
    pub frame: u32,
    /// Where the sender thinks that the receiver is: its frame in the last clocks that the sender heard of it, and as
    /// many frames more as the sender has played since. The sender's own frame before the first.
    pub heard_frame: u32,
    /// The sender's clock, in milliseconds since a moment of its own choice. It begins anew after 2^32.
    pub clock: u32,
    /// The receiver's clock in the last clocks that the sender heard of it, 0 before the first.
    pub heard_clock: u32,
    /// How many milliseconds ago the sender heard those, as it sent these.
    pub held: u32,
}

/// The last state that the sender knows to be settled.
#[derive(Clone, Copy, Debug)]
pub struct Settled {
    /// Its frame.
    pub frame: u32,
    /// The digest of the state, the game's own.
    pub digest: u64,
}

/// Who comes with the next epoch.
#[derive(Clone, Copy, Debug)]
pub struct Newcomer {
    /// The players that it is to own, player 0 first: one or more.
    pub players: [bool; PLAYER_LIMIT],
    /// By what the program knows who comes: whatever is agreed upon.
    pub ticket: u64,
}

/// What a word may carry beside its 32 bits: what is to be otherwise in the next epoch. An epoch is a part of a match whose machines,
/// owners, delays and threshold stay the same.
#[derive(Clone, Copy, Debug)]
pub struct Mark {
    /// Who comes, if somebody does.
    pub newcomer: Option<Newcomer>,
    /// Each player's new input delay in frames, if it is to have another, player 0 first.
    pub delays: [Option<u8>; PLAYER_LIMIT],
    /// The new threshold: how many frames a session goes on without another's words. 0: as before.
    pub threshold: u8,
}

/// A word's mark.
#[derive(Clone, Copy, Debug)]
pub struct Marked {
    /// The word's frame.
    pub frame: u32,
    /// What it carries.
    pub mark: Mark,
}

/// What a turn tells, but for its words and their marks.
#[derive(Clone, Copy, Debug)]
pub struct Head {
    /// How many hellos and plays the sender had sent to this receiver before.
    pub number: u32,
    /// How far the sender is, and when it sent, if that is told.
    pub clocks: Option<Clocks>,
    /// Whom the sender regards as gone, and how many words of each player it has.
    pub view: View,
    /// The last state that the sender knows to be settled, if that is told.
    pub settled: Option<Settled>,
    /// The frames of each player's words that are in it, player 0 first.
    pub offers: [Offer; PLAYER_LIMIT],
}

/// What a machine sends in a turn of a match.
#[derive(Debug, Drop)]
pub struct Play {
    /// All but the words and their marks.
    pub head: Head,
    /// Of each player the mark of one of its words, whether that word is offered here or not, player 0 first.
    pub marks: [Option<Marked>; PLAYER_LIMIT],
    /// The words that are offered, 140 at most: player by player, each player's from frame to frame.
    pub words: ArrayVec<u32, WORD_LIMIT>,
}

impl Play {
    /// What a mesh hears of it, if this machine sent it.
    pub fn packet(&self, sender: u8) -> Packet
        ensures { result
            ≡ record { sender = sender; view = self.now.head.view; offers = self.now.head.offers } }
    {
        Packet {
            sender,
            view: self.head.view,
            offers: self.head.offers,
        }
    }
}

/// What is in a datagram.
#[derive(Debug, Drop)]
pub enum Body {
    /// Before the match is played.
    Hello(Hello),
    /// A turn of the match.
    Play(Play),
    /// The sender leaves the match: it is gone from now on.
    Bye {
        /// Why it leaves: whatever the program says.
        why: u8,
    },
}

/// What a machine sends to another, 1,200 bytes at most.
#[derive(Debug, Drop)]
pub struct Datagram {
    /// Which datagram it is.
    pub envelope: Envelope,
    /// What is in it.
    pub body: Body,
}
