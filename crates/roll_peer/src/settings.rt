//! What the machines of a match are told.
ghost use Rattle.std.specs.Prelude.{◌≡◌, ◌<◌};
ghost use Rattle.roll_mesh.specs.declared.limits.TheConstants.{MACHINE_LIMIT, PLAYER_LIMIT};
ghost use Rattle.roll_peer.specs.Settings.{are_delayed_alike, farthest_of, first_moment, has_number_for, has_numbers, is_delayed_alike, number_for, opening_of, patience_of, seat_of, terms_of};

use roll_contact::{Opening, Terms};
use roll_frame::Settings;
use roll_mesh::{MACHINE_LIMIT, PLAYER_LIMIT, Seat};

/// For how many milliseconds one who comes is waited for, if nobody is ever silent for too long.
const COMER_PATIENCE: u32 = 10_000;

/// A match, as one of its machines plays it. How many machines there are, the owners, the number of words and the digest are the same at each of them;
/// `me`, the draw and the times are each machine's own. Take the same times at all: who waits for less than another asks for answers
/// more often.
#[derive(Clone, Copy, Debug)]
pub struct MatchSettings {
    /// Who this machine is, from 0.
    pub me: u8,
    /// How many machines there are, 2 to 8.
    pub machines: u8,
    /// The machine that owns each player, player 1 first; 255 if there is no such player.
    pub owners: [u8; PLAYER_LIMIT],
    /// The number that this machine shares with each other one, drawn by whoever arranges the match; its own place isn't read. If it
    /// is the same for all, it is the match's. With one for each pair of machines, none can speak for another. None of them is 0.
    pub numbers: [u64; MACHINE_LIMIT],
    /// 64 bits drawn for this opening alone, which aren't 0.
    pub draw: u64,
    /// A digest of all else that must be alike, but for the opening state: the game, the session's limits.
    pub digest: u64,
    /// A digest of the state with which the game opens: the same at all machines.
    pub opening: u64,
    /// After how many milliseconds of silence a machine is regarded as gone; 0: never. Twice as long one who comes with an epoch is
    /// waited for, or 10 seconds if this is 0.
    pub silent_after: u32,
    /// After how many milliseconds of silence `Interrupted` is told, and `Stalled` of a machine that holds up the match; 0: never.
    pub notify_after: u32,
    /// After how many milliseconds a machine that others wait for, and that could give its next word, or take theirs, is regarded as
    /// gone; 0: never. Where a third one may keep it from that, it is waited for `silent_after` longer. One that has never shown that it
    /// is past its first frame isn't gone by this: others may keep it from beginning. In an epoch that follows another, one that doesn't
    /// play on is waited for so much longer than one who comes.
    pub stalled_after: u32,
    /// Whether this machine hands on datagrams of others where a line is broken, and has its own handed on. It does so only with those
    /// that say so too.
    pub carries: bool,
    /// Whether words may have marks, which say what is to be otherwise in the match's next epoch: the same at all machines. A play with
    /// a mark isn't heard by a machine that takes none.
    pub takes_marks: bool,
    /// How many words an input has, 1 to 4: so many of the session's players in a row are one player of the match, with one owner. They
    /// leave together, and of no frame are some of their words taken and others not.
    pub words: u8,
}

impl MatchSettings {
    /// Where this machine sits.
    pub(crate) fn seat(&self) -> Seat
        ensures { result ≡ seat_of self.now }
    {
        Seat {
            owners: self.owners,
            machines: self.machines,
            words: self.words,
            me: self.me,
        }
    }

    /// What it compares with others.
    pub(crate) fn terms(&self) -> Terms
        ensures { result ≡ terms_of self.now }
    {
        Terms {
            machines: self.machines,
            owners: self.owners,
            digest: self.digest,
            words: self.words,
            opening: self.opening,
            lasts: self.takes_marks,
        }
    }

    /// What it says of itself.
    pub(crate) fn opening(&self) -> Opening
        ensures { result ≡ opening_of self.now }
    {
        Opening {
            draw: self.draw,
            silent_after: self.silent_after,
            carries: self.carries,
        }
    }

    /// After how many milliseconds a machine would be gone that was silent in the epoch before.
    pub(crate) fn patience(&self) -> u32
        ensures { result ≡ patience_of self.now }
    {
        if self.silent_after == 0 {
            COMER_PATIENCE
        } else {
            self.silent_after
        }
    }

    /// After how many milliseconds one who doesn't play on in an epoch that follows another is gone.
    pub(crate) fn farthest(&self) -> u32
        ensures { result ≡ farthest_of self.now }
    {
        self.patience()
            .saturating_add(self.silent_after)
            .saturating_add(self.stalled_after)
    }

    /// The moment that its clock shows first: none that another opening's clock is likely to show.
    pub(crate) fn first_moment(&self) -> u32
        ensures { result ≡ first_moment self.now }
    {
        (self.draw % (1 << 32)) as u32
    }

    /// Whether the numbers that it shares with the other machines aren't 0.
    pub(crate) fn has_numbers(&self) -> bool
        ensures { result ≡ has_numbers self.now }
    {
        for machine in 0..MACHINE_LIMIT as u8 {
            if !self.has_number_for(machine) {
                return false;
            }
        }
        true
    }

    fn has_number_for(&self, machine: u8) -> bool
        requires { machine < MACHINE_LIMIT }
        ensures { result ≡ has_number_for self.now machine }
    {
        machine >= self.machines || machine == self.me || self.number_for(machine) != 0
    }

    /// Whether the words of each of its own inputs have one delay in a session's settings.
    pub(crate) fn are_delayed_alike(&self, session: &Settings) -> bool
        ensures { result ≡ are_delayed_alike session.now self.now }
    {
        for player in 0..PLAYER_LIMIT {
            if !self.is_delayed_alike(session, player) {
                return false;
            }
        }
        true
    }

    /// Whether a player has the delay of the first word of its input, if it is this machine's.
    fn is_delayed_alike(&self, session: &Settings, player: usize) -> bool
        requires { player < PLAYER_LIMIT }
        ensures { result ≡ is_delayed_alike session.now self.now player }
    {
        let first = self.seat().first_of(player);
        self.owners[player] != self.me || session.delays[player] == session.delays[first]
    }

    /// The number that it shares with a machine.
    pub(crate) fn number_for(&self, machine: u8) -> u64
        requires { machine < MACHINE_LIMIT }
        ensures { result ≡ number_for self.now machine }
    {
        self.numbers[usize::from(machine)]
    }
}
