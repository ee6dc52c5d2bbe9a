//! What both machines of the match have alike.
use fazgrond::{HeldFault, MatchSettings, OpenRefusal, PeerRefusal, Refusal, Session, Settings};
use game_fighter::{Fight, State};
use std::alloc::{AllocError, Global};
use thiserror::Error;

/// The last frame of the match.
pub const LAST_FRAME: u32 = 300;

/// How many milliseconds a turn takes, about.
const TURN: u32 = 16;

/// The most datagrams that a machine hears in a turn, and the most events.
pub const MOST: u32 = 100;

/// Why a match ends early.
#[derive(Clone, Copy, Debug, Error)]
pub enum Fault {
    /// It can't be opened.
    #[error("{0}")]
    Open(#[from] OpenRefusal),
    /// The session refuses a call.
    #[error("{0}")]
    Session(#[from] Refusal),
    /// A turn isn't made whole.
    #[error("{0}")]
    Turn(#[from] PeerRefusal),
    /// What waits can't be told.
    #[error("{0}")]
    Held(#[from] HeldFault),
    /// The allocator has no room.
    #[error("no memory")]
    Memory(#[from] AllocError),
    /// The machines have other states at a settled frame.
    #[error("the machines don't play the same game")]
    Desync,
}

/// A session of the game, with one local player.
pub fn open(alloc: Global, player: u8, delay: u32) -> Result<Session<Fight>, Refusal> {
    let settings = Settings::new(2, &[player])?.with_delay(player, delay)?;
    match Session::start(alloc, Fight::new(), Fight::opening(), settings) {
        Ok(session) => Ok(session),
        Err(fault) => Err(fault.why),
    }
}

/// The match, as machine 0 or 1 plays it: each has one player.
pub fn the_match(me: u8) -> MatchSettings {
    MatchSettings {
        me,
        machines: 2,
        owners: [0, 1, 255, 255, 255, 255, 255, 255],
        // Whoever arranges a match draws it, anew for each.
        numbers: [0x1122_3344_5566_7788; 8],
        // Each machine draws its own, anew whenever it opens a match.
        draw: 0x99AA_BBCC_DDEE_FF00 + u64::from(me),
        // Of the game's build, and of the state in which it opens.
        digest: 1,
        opening: digest(&Fight::opening()),
        // Nobody is put out here, however long a thread has to wait for a processor.
        silent_after: 0,
        notify_after: 0,
        stalled_after: 0,
        // Two machines have nobody between them.
        carries: false,
        takes_marks: false,
        words: 1,
    }
}

/// The moment of a turn: it stands for a clock.
pub fn moment(turn: u32) -> u32 {
    turn.wrapping_mul(TURN)
}

/// A digest of a state, by FNV-1a.
pub fn digest(state: &State) -> u64 {
    let State { one, two } = *state;
    let places = [one.place, two.place].map(u64::from);
    let others = [one.health, one.cool, two.health, two.cool].map(u64::from);
    let mut digest: u64 = 0xcbf2_9ce4_8422_2325;
    for number in places.iter().chain(&others) {
        digest = (digest ^ *number).wrapping_mul(0x0100_0000_01b3);
    }
    digest
}

/// What a player presses in a frame: it stands for a controller.
pub fn buttons(player: u8, frame: u32) -> u32 {
    frame / (4 + u32::from(player)) % 8
}
