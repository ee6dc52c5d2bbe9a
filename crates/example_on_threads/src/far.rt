//! The other machine, on a thread of its own: a session, and the match beside it.
use crate::machine::{Fault, LAST_FRAME, MOST, buttons, digest, moment, open, the_match};
use crate::wire::Wire;
use fazgrond::{Chain, Match, PeerEvent, Profile, Refusal, Session, ends_in_roll};
use game_fighter::{Fight, State};
use std::alloc::Global;
use std::sync::atomic::{AtomicBool, Ordering};
use std::sync::{Arc, Wait};
use std::thread;

/// Its player, and its number.
const PLAYER: u8 = 2;

const ME: u8 = 1;

/// Plays until the match is over: the state that is settled then.
pub fn play<R: Wait>(
    rt: &R,
    alloc: Global,
    wire: Wire,
    over: Arc<AtomicBool, Global>,
) -> Result<State, Fault> {
    let mut wire = wire;
    let mut session = open(alloc, PLAYER, 0)?;
    let played = play_on(rt, alloc, &mut session, &mut wire, &over);
    drop(session);
    played
}

/// Opens the match beside the session, and takes turns until it is over.
fn play_on<R: Wait>(
    rt: &R,
    alloc: Global,
    session: &mut Session<Fight>,
    wire: &mut Wire,
    over: &AtomicBool,
) -> Result<State, Fault> {
    let chain = Chain::of_one_epoch(the_match(ME), Profile::Ggpo);
    let mut it = Match::open(alloc, session, chain, 0)?;
    let mut turn: u32 = 0;
    for _ in rt.forever() {
        if over.load(Ordering::SeqCst) {
            return Ok(*session.settled_state());
        }
        turn = turn.wrapping_add(1);
        take_turn(alloc, session, &mut it, wire, turn)?;
        thread::yield_now();
    }
    unreachable!()
}

/// A turn: hears what has come, plays a frame if it may, and tells the other machine.
fn take_turn(
    alloc: Global,
    session: &mut Session<Fight>,
    it: &mut Match<Session<Fight>>,
    wire: &mut Wire,
    turn: u32,
) -> Result<(), Fault> {
    let now = moment(turn);
    for _ in 0..MOST {
        let Some(bytes) = wire.receive() else {
            break;
        };
        // What is ignored changed nothing of the match.
        let _ = it.receive(session, &bytes, now);
    }
    it.turn(alloc, session, now).polled??;
    if it.is_running() {
        press(session)?;
        play_frame(session)?;
    }
    it.note(session, digest(session.settled_state()));
    for _ in 0..MOST {
        match it.next(session) {
            Some((_, bytes)) => wire.send(&bytes)?,
            None => break,
        }
    }
    note_events(it)
}

/// Takes what the match tells.
fn note_events(it: &mut Match<Session<Fight>>) -> Result<(), Fault> {
    for _ in 0..MOST {
        match it.event() {
            Some(PeerEvent::Desync { .. }) => return Err(Fault::Desync),
            Some(_) => {}
            None => break,
        }
    }
    Ok(())
}

/// Gives the word of the buttons.
fn press(session: &mut Session<Fight>) -> Result<(), Refusal> {
    let frame = session.frame();
    if frame == LAST_FRAME {
        return Ok(());
    }
    match session.add_local_input(PLAYER, buttons(PLAYER, frame)) {
        // Too far ahead of what is confirmed.
        Ok(()) | Err(Refusal::PredictionThreshold) => Ok(()),
        Err(why) => Err(why),
    }
}

/// Goes to the next frame if the word of this one is there; else rolls back, if anything came since the last time.
fn play_frame(session: &mut Session<Fight>) -> Result<(), Refusal> {
    match session.advance_frame() {
        Err(Refusal::LocalInputMissing) if !ends_in_roll(session.log()) => {
            session.synchronize_input()?;
            Ok(())
        }
        Ok(_) | Err(Refusal::LocalInputMissing) => Ok(()),
        Err(why) => Err(why),
    }
}
