//! A frame of a match is played.
ghost use Rattle.std.specs.Prelude.{◌≡◌, ◌≤◌, ◌<◌, false, IfErr, IfOk, OnOk};
ghost use Rattle.roll_mesh.specs.declared.limits.TheConstants.{PLAYER_LIMIT as PLAYERS};
ghost use Rattle.fazgrond_c.specs.Playing.{byte_in, frame_calls, own_before, word_from, word_given, word_in, words_given, AreAllGiven, AreGivenIn, CatchesUp, DeclinesFor, GivesCall, PlaysFrame};

use roll_frame::Refusal;
use roll_mesh::PLAYER_LIMIT;
use roll_peer::ends_in_roll;
use roll_requests::{Declined, Elsewhere};
use roll_session::{Call, Networked};

/// What came of a frame.
#[derive(Drop)]
pub struct Played {
    /// Whether it was played.
    pub has_played: bool,
    /// The code of why it wasn't; else 0.
    pub waits_for: i32,
}

/// The inputs of this machine's players, one after another.
#[derive(Drop)]
pub struct Inputs<'a> {
    /// Who owns each word of a row, and this machine.
    pub owners: &'a [u8; PLAYER_LIMIT],
    pub me: u8,
    /// How many bytes each has: at least one.
    pub size: u8,
    pub bytes: &'a [u8],
}

impl Inputs<'_> {
    /// Gives them to a session, which plays a frame. If it can't, it rolls back where that is due.
    pub fn play(&self, session: &mut Elsewhere) -> Played
        requires { 1 ≤ self.now.size }
        ensures { PlaysFrame (frame_calls self.now.owners.now self.now.me self.now.size self.now.bytes.now)
            session.old session.new result }
    {
        match self.play_frame(session) {
            Ok(()) => Played {
                has_played: true,
                waits_for: 0,
            },
            Err(why) => {
                catch_up(session);
                Played {
                    has_played: false,
                    waits_for: why.refusal().code(),
                }
            }
        }
    }

    fn play_frame(&self, session: &mut Elsewhere) -> Result<(), Declined>
        requires { 1 ≤ self.now.size }
        ensures played { OnOk result (AreAllGiven session.old
            (frame_calls self.now.owners.now self.now.me self.now.size self.now.bytes.now)
            session.new) }
        ensures declined { IfErr result (λ why. AreGivenIn session.old
            (frame_calls self.now.owners.now self.now.me self.now.size self.now.bytes.now)
            session.new why false) }
    {
        match self.give_all(session) {
            Ok(()) => make(session, Call::Advance),
            Err(why) => Err(why),
        }
    }

    /// Gives the words of the inputs.
    fn give_all(&self, session: &mut Elsewhere) -> Result<(), Declined>
        requires { 1 ≤ self.now.size }
        ensures given { OnOk result (AreAllGiven session.old
            (words_given self.now.owners.now self.now.me self.now.size self.now.bytes.now PLAYERS)
            session.new) }
        ensures declined { IfErr result (λ why. AreGivenIn session.old
            (words_given self.now.owners.now self.now.me self.now.size self.now.bytes.now PLAYERS)
            session.new why false) }
    {
        for place in 0..PLAYER_LIMIT {
            if let Err(why) = self.give(session, place) {
                return Err(why);
            }
        }
        Ok(())
    }

    /// Gives the word at a place, if it is this machine's.
    fn give(&self, session: &mut Elsewhere, place: usize) -> Result<(), Declined>
        requires place { place < PLAYERS }
        requires sized { 1 ≤ self.now.size }
        ensures given { OnOk result (AreAllGiven session.old
            (word_given self.now.owners.now self.now.me self.now.size self.now.bytes.now place)
            session.new) }
        ensures declined { IfErr result (λ why. AreGivenIn session.old
            (word_given self.now.owners.now self.now.me self.now.size self.now.bytes.now place)
            session.new why false) }
    {
        if self.owners[place] != self.me {
            return Ok(());
        }
        let word = self.word(own_words(self.owners, self.me, place));
        make(
            session,
            Call::Local {
                player: place as u8 + 1,
                word,
            },
        )
    }

    /// The word of this machine of this rank.
    fn word(&self, rank: usize) -> u32
        requires rank { rank < PLAYERS }
        requires sized { 1 ≤ self.now.size }
        ensures { result ≡ word_in self.now.bytes.now self.now.size rank }
    {
        let size = usize::from(self.size);
        let words = (size + 3) / 4;
        let player = rank / words;
        self.word_at((player + 1) * size, player * size + 4 * (rank % words))
    }

    /// The word that begins at a byte of an input that ends before another.
    fn word_at(&self, end: usize, at: usize) -> u32
        requires { at ≤ 4096 }
        ensures { result ≡ word_from self.now.bytes.now end at }
    {
        u32::from_le_bytes([
            self.byte(end, at),
            self.byte(end, at + 1),
            self.byte(end, at + 2),
            self.byte(end, at + 3),
        ])
    }

    /// A byte of an input that ends before a place.
    fn byte(&self, end: usize, at: usize) -> u8
        ensures { result ≡ byte_in self.now.bytes.now end at }
    {
        if at < end && at < self.bytes.len() {
            self.bytes[at]
        } else {
            0
        }
    }
}

/// How many of the words before a place of a row are this machine's.
#[tactic(auto, using(crate::proofs::Words::own_none, crate::proofs::Words::own_next, crate::proofs::Words::own_most))]
pub fn own_words(owners: &[u8; PLAYER_LIMIT], me: u8, place: usize) -> usize
    requires { place ≤ PLAYERS }
    ensures count { result ≡ own_before owners.now me place }
    ensures most { result ≤ place }
{
    let mut own = 0;
    for before in 0..place {
        if owners[before] == me {
            own += 1;
        }
    }
    own
}

/// Makes a call of a session. A word that was given before for this frame stays as it is.
///
/// # Errors
///
/// Why it is declined.
fn make(session: &mut Elsewhere, call: Call) -> Result<(), Declined>
    ensures made { OnOk result (GivesCall session.old session.new call) }
    ensures declined { IfErr result (λ why. DeclinesFor why session.old session.new call) }
{
    match session.perform(call) {
        Ok(_) => Ok(()),
        Err(Declined::Refused(Refusal::InputTwice)) => Ok(()),
        Err(why) => Err(why),
    }
}

/// A session rolls back if that is due.
pub fn catch_up(session: &mut Elsewhere)
    ensures { CatchesUp session.old session.new }
{
    if !ends_in_roll(session.core().log()) {
        let _ = session.perform(Call::Sync);
    }
}
