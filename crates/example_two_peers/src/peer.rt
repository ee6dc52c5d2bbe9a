//! One side of a match.
ghost use Rattle.std.specs.Prelude.{◌≤◌};

use crate::line::Line;
use fazgrond::{
    Chain, HeldFault, Match, MatchSettings, OpenRefusal, PeerEvent, PeerRefusal, Profile, Refusal,
    Session, Settings, ends_in_roll,
};
use game_fighter::{Fight, State};
use std::alloc::Global;
use thiserror::Error;

/// The last frame of the match.
pub const LAST_FRAME: u32 = 300;

/// Why it says bye: it leaves.
const LEAVES: u8 = 1;

/// How many milliseconds a turn takes, about.
const TURN: u32 = 16;

/// The most datagrams that a side hears in a turn, and sends, and the most events.
const MOST: u32 = 100;

/// How many times a side says that it leaves, since what it says may be lost.
const BYES: u32 = 8;

/// Why a match ends early.
#[derive(Clone, Copy, Debug, Error)]
pub enum Fault {
    /// It can't be opened.
    #[error("{0}")]
    Open(#[from] OpenRefusal),
    /// The session refuses a call.
    #[error("{0}")]
    Session(#[from] Refusal),
    /// A turn isn't made whole.
    #[error("{0}")]
    Turn(#[from] PeerRefusal),
    /// The session takes no inputs that came.
    #[error("{0}")]
    Held(#[from] HeldFault),
    /// The other side has another state of a settled frame.
    #[error("the sides don't play the same game")]
    Desync,
}

/// One side: a session, the match beside it, and its player.
#[derive(Drop)]
pub struct Side {
    pub session: Session<Fight>,
    it: Match<Session<Fight>>,
    player: u8,
    // This machine, and the other.
    me: u8,
    other: u8,
    // How many turns more this side waits for the other.
    wait: u32,
    /// How many turns this side waited, since it was ahead.
    pub waited: u32,
    // How many times more it says that it leaves.
    byes: u32,
    // Whether the other has left.
    left: bool,
}

impl Side {
    /// Machine 0 or 1 at frame 0. Its player's words count so many frames after they are given.
    pub fn new(alloc: Global, me: u8, delay: u32) -> Result<Side, Fault>
        requires { me ≤ 1 }
    {
        let player = me + 1;
        let session = open(alloc, settings(player, delay)?)?;
        let chain = Chain::of_one_epoch(the_match(me), Profile::Ggpo);
        match Match::open(alloc, &session, chain, 0) {
            Ok(it) => Ok(Side {
                session,
                it,
                player,
                me,
                other: 1 - me,
                wait: 0,
                waited: 0,
                byes: BYES,
                left: false,
            }),
            Err(why) => {
                drop(session);
                Err(why.into())
            }
        }
    }

    /// A turn of the main loop: hears what has come, plays a frame if it may, and tells the other.
    pub fn turn(&mut self, alloc: Global, turn: u32, line: &mut Line) -> Result<(), Fault> {
        let now = turn.wrapping_mul(TURN);
        self.hear(turn, now, line);
        self.it.turn(alloc, &mut self.session, now).polled??;
        if self.it.is_running() {
            self.press()?;
            self.play()?;
        }
        let digest = digest(self.session.settled_state());
        self.it.note(&self.session, digest);
        self.tell(turn, line)?;
        self.note_events()
    }

    /// Hears what has come.
    fn hear(&mut self, turn: u32, now: u32, line: &mut Line) {
        for _ in 0..MOST {
            let Some(bytes) = line.receive(self.me, turn) else {
                return;
            };
            // What is ignored changed nothing of the match.
            let _ = self.it.receive(&mut self.session, &bytes, now);
        }
    }

    /// Gives the word of the buttons, unless this side has to wait.
    fn press(&mut self) -> Result<(), Refusal> {
        let frame = self.session.frame();
        if frame == LAST_FRAME || self.is_to_wait() {
            return Ok(());
        }
        let word = buttons(self.player, frame);
        match self.session.add_local_input(self.player, word) {
            // Too far ahead of what is confirmed.
            Ok(()) | Err(Refusal::PredictionThreshold) => Ok(()),
            Err(why) => Err(why),
        }
    }

    /// Whether the other is to catch up first.
    fn is_to_wait(&mut self) -> bool {
        if self.wait == 0 {
            return false;
        }
        self.wait -= 1;
        self.waited = self.waited.saturating_add(1);
        true
    }

    /// Goes to the next frame if the word of this one is there; else rolls back, if anything came since the last time.
    fn play(&mut self) -> Result<(), Refusal> {
        match self.session.advance_frame() {
            Err(Refusal::LocalInputMissing) if !ends_in_roll(self.session.log()) => {
                self.session.synchronize_input()?;
                Ok(())
            }
            Ok(_) | Err(Refusal::LocalInputMissing) => Ok(()),
            Err(why) => Err(why),
        }
    }

    /// Sends what goes out in this turn; at the end, that this side leaves.
    fn tell(&mut self, turn: u32, line: &mut Line) -> Result<(), Refusal> {
        if self.is_over() {
            self.it.leave(LEAVES);
            self.byes = self.byes.saturating_sub(1);
        }
        for _ in 0..MOST {
            match self.it.next(&mut self.session) {
                Some((to, bytes)) => line.send(to, turn, &bytes)?,
                None => break,
            }
        }
        Ok(())
    }

    /// Takes what the match has to say. A game would also show who is there, and who has left.
    fn note_events(&mut self) -> Result<(), Fault> {
        for _ in 0..MOST {
            match self.it.event() {
                Some(PeerEvent::TimeSync { frames_ahead }) => self.wait = frames_ahead,
                Some(PeerEvent::Left { .. }) => self.left = true,
                Some(PeerEvent::Desync { .. }) => return Err(Fault::Desync),
                Some(_) => {}
                None => break,
            }
        }
        Ok(())
    }

    /// Whether the last frame is settled here, and nothing is left to tell: the other said that it has all words of this side.
    fn is_over(&self) -> bool {
        match self.it.stats(self.other) {
            Some(stats) => self.is_settled() && stats.words_queued == 0,
            None => false,
        }
    }

    /// Whether the last frame is settled here.
    fn is_settled(&self) -> bool {
        self.session.settled() == LAST_FRAME
    }

    /// Whether this side has no more to do: it said that it leaves, or heard it of the other.
    pub fn is_done(&self) -> bool {
        self.is_settled() && (self.byes == 0 || self.left)
    }
}

/// The settings of a session with one local player.
fn settings(player: u8, delay: u32) -> Result<Settings, Refusal> {
    let settings = Settings::new(2, &[player])?.with_delay(player, delay)?;
    Ok(settings)
}

/// A session of the game.
pub fn open(alloc: Global, settings: Settings) -> Result<Session<Fight>, Refusal> {
    match Session::start(alloc, Fight::new(), Fight::opening(), settings) {
        Ok(session) => Ok(session),
        Err(fault) => Err(fault.why),
    }
}

/// The match, as machine 0 or 1 plays it: each has one player.
fn the_match(me: u8) -> MatchSettings {
    MatchSettings {
        me,
        machines: 2,
        owners: [0, 1, 255, 255, 255, 255, 255, 255],
        // Whoever arranges a match draws it, anew for each.
        numbers: [0x1122_3344_5566_7788; 8],
        // Each machine draws its own, anew whenever it opens a match. Here it is fixed, so that the program prints the same.
        draw: 0x99AA_BBCC_DDEE_FF00 + u64::from(me),
        // Of the game's build, and of the state in which it opens.
        digest: 1,
        opening: digest(&Fight::opening()),
        silent_after: 5_000,
        notify_after: 750,
        stalled_after: 0,
        // Two machines have nobody between them.
        carries: false,
        takes_marks: false,
        words: 1,
    }
}

/// A digest of a state, by FNV-1a.
fn digest(state: &State) -> u64 {
    let State { one, two } = *state;
    let places = [one.place, two.place].map(u64::from);
    let others = [one.health, one.cool, two.health, two.cool].map(u64::from);
    let mut digest: u64 = 0xcbf2_9ce4_8422_2325;
    for number in places.iter().chain(&others) {
        digest = (digest ^ *number).wrapping_mul(0x0100_0000_01b3);
    }
    digest
}

/// What a player presses in a frame: it stands for a controller.
fn buttons(player: u8, frame: u32) -> u32 {
    frame / (4 + u32::from(player)) % 8
}
