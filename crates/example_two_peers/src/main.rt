//! A match of two machines in one process: each hears of the other late or not at all.
#![tactic(auto)]

mod duel;
mod line;
mod network;
mod peer;

use duel::Duel;
use fazgrond::{Refusal, Session};
use game_fighter::{Fight, Fighter};
use peer::{Fault, open};
use std::alloc::{AllocGlobal, Global};
use std::io;
use std::process::ExitCode;
use std::rt::Runtime;

/// How many turns later than the first side the second one starts, in the second match.
const LATE: u32 = 24;

fn main(rt: HostRuntime) -> ExitCode {
    match (run(&rt, 0), run(&rt, LATE)) {
        (Ok(true), Ok(true)) => ExitCode::from(0),
        _ => ExitCode::from(1),
    }
}

/// Plays a match whose second side starts so many turns late, prints how it went, and says whether the sides agree in the end.
fn run<R: Runtime + AllocGlobal>(rt: &R, late: u32) -> io::Result<bool> {
    match Duel::new(rt.alloc()) {
        Ok(mut duel) => play(rt, late, &mut duel),
        Err(why) => break_off(rt, why),
    }
}

/// Plays the match, and prints how it went.
fn play<R: Runtime + AllocGlobal>(rt: &R, late: u32, duel: &mut Duel) -> io::Result<bool> {
    match duel.play(rt.alloc(), late) {
        Ok(()) => report(rt, late, duel),
        Err(why) => break_off(rt, why),
    }
}

/// Prints why a match ends early.
fn break_off<R: Runtime>(rt: &R, why: Fault) -> io::Result<bool> {
    println!(rt; "{why}")?;
    Ok(false)
}

/// Prints how a match went, and says whether the sides agree.
fn report<R: Runtime + AllocGlobal>(rt: &R, late: u32, duel: &Duel) -> io::Result<bool> {
    println!(rt;
        "{late} turns late: waited {} and {}",
        duel.first.waited, duel.second.waited
    )?;
    let (first, second) = (&duel.first.session, &duel.second.session);
    print(rt, first)?;
    print(rt, second)?;
    Ok(agree(first, second) && is_replayed(rt.alloc(), first) == Ok(true))
}

/// Prints what is settled in a session.
fn print<R: Runtime>(rt: &R, session: &Session<Fight>) -> io::Result<()> {
    let Fighter {
        place,
        health,
        cool,
    } = session.settled_state().one;
    let other = session.settled_state().two;
    print!(rt; "frame {} settled {} ", session.frame(), session.settled())?;
    print!(rt; "p1 {place} hp {health} cool {cool} | ")?;
    println!(rt;
        "p2 {} hp {} cool {}",
        other.place, other.health, other.cool
    )
}

/// Whether both have settled the same frames, and come to the same state.
fn agree(first: &Session<Fight>, second: &Session<Fight>) -> bool {
    first.settled() == second.settled() && first.settled_state() == second.settled_state()
}

/// Whether the log of a match leads a fresh session to the same state.
fn is_replayed(alloc: Global, session: &Session<Fight>) -> Result<bool, Refusal> {
    let mut again = open(alloc, *session.settings())?;
    let whole = again.replay(session.log()).is_ok();
    Ok(whole && again.settled_state() == session.settled_state())
}
