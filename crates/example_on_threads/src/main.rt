//! A match on threads: the other machine plays on a thread of its own, datagrams go between the two, workers run this machine's
//! guesses ahead, and a viewer follows.
#![tactic(auto)]

ghost use Rattle.std.specs.Prelude.{◌≡◌, IfOk, vec_len};
ghost use Rattle.fazgrond.specs.Hosted.{places_of};
ghost use Rattle.fazgrond.specs.Crews.{places_in};

mod far;
mod machine;
mod side;
mod wire;

use fazgrond::{Crew, Host, Owner, Refusal, start_all};
use game_fighter::{Fight, Fighter, State};
use machine::{Fault, LAST_FRAME, open};
use side::{PLAYER, Side};
use std::alloc::{AllocError, AllocGlobal, Global};
use std::process::ExitCode;
use std::rt::Runtime;
use std::sync::atomic::{AtomicBool, Ordering};
use std::sync::{Arc, Wait};
use std::thread::{JoinHandle, Threads};
use std::{io, thread};
use wire::Wire;

/// How many workers run guesses.
const WORKERS: u8 = 2;

/// By how many frames this machine's words count later.
const DELAY: u32 = 2;

/// The states that the match ends in: as this machine, its viewer and the other machine have it.
struct Ends {
    here: State,
    seen: State,
    there: State,
}

fn main(rt: HostRuntime) -> ExitCode {
    match run(&rt) {
        Ok(true) => ExitCode::from(0),
        _ => ExitCode::from(1),
    }
}

/// Plays the match, prints how it went, and says whether the viewer and the other machine came to the same end.
fn run<R>(rt: &R) -> io::Result<bool>
where
    R: Runtime + AllocGlobal + Threads + Wait + Copy + Send + 'static,
{
    match play(rt, rt.alloc()) {
        Ok(Ends { here, seen, there }) => {
            print(rt, "this machine", here)?;
            print(rt, "its viewer", seen)?;
            print(rt, "the other machine", there)?;
            Ok(here == seen && here == there)
        }
        Err(why) => {
            println!(rt; "{why}")?;
            Ok(false)
        }
    }
}

/// Prints the state after the last frame.
fn print<R: Runtime>(rt: &R, name: &str, state: State) -> io::Result<()> {
    let Fighter {
        place,
        health,
        cool,
    } = state.one;
    let other = state.two;
    print!(rt; "{name}: frame {LAST_FRAME} ")?;
    print!(rt; "p1 {place} hp {health} cool {cool} | ")?;
    println!(rt;
        "p2 {} hp {} cool {}",
        other.place, other.health, other.cool
    )
}

/// Starts the workers, plays the match with them, and joins them, whatever came of it.
fn play<R>(rt: &R, alloc: Global) -> Result<Ends, Fault>
where
    R: Threads + Wait + Copy + Send + 'static,
{
    let games = fights(alloc)?;
    let (owner, ends) = Owner::open(alloc, usize::from(WORKERS))?;
    let host = hosted(alloc, owner)?;
    match start_all(*rt, alloc, ends, games) {
        Ok(crew) => play_hosted(rt, alloc, host, crew),
        Err(why) => Err(why.into()),
    }
}

/// A session of the match, and over it a host with a pool.
fn hosted(alloc: Global, owner: Owner<Fight>) -> Result<Host<Fight>, Refusal>
    ensures { IfOk result (λ host. places_of host.pool ≡ owner.places) }
{
    let session = match open(alloc, PLAYER, DELAY) {
        Ok(session) => session,
        Err(why) => return Err(why),
    };
    match Host::with_workers(alloc, session, owner) {
        Ok(host) => Ok(host),
        Err(_) => Err(Refusal::NoMemory),
    }
}

/// A game for each worker.
fn fights(alloc: Global) -> Result<Vec<Fight>, Refusal>
    ensures { IfOk result (λ games. vec_len games ≡ 2) }
{
    let mut games = Vec::new(alloc);
    for _ in 0..WORKERS {
        games.push(Fight::new())?;
    }
    Ok(games)
}

fn play_hosted<R>(
    rt: &R,
    alloc: Global,
    host: Host<Fight>,
    crew: Crew<Fight>,
) -> Result<Ends, Fault>
where
    R: Threads + Wait + Copy + Send + 'static,
    requires { places_in crew ≡ places_of host.pool }
{
    let mut host = host;
    let played = play_match(rt, alloc, &mut host);
    let (ends, _games) = crew.join(rt);
    let (_session, _outcome) = host.settle(ends);
    played
}

/// Plays the match: the other machine on a thread of its own, this one here.
fn play_match<R>(rt: &R, alloc: Global, host: &mut Host<Fight>) -> Result<Ends, Fault>
where
    R: Threads + Wait + Copy + Send + 'static,
    ensures { places_of host.new.pool ≡ places_of host.old.pool }
{
    let (near, far) = Wire::pair(alloc)?;
    let over = Arc::new(alloc, AtomicBool::new(false)).map_err(Refusal::from)?;
    let for_far = Arc::try_clone(&over)?;
    let mut side = Side::new(alloc, host, near)?;
    let handle = start(*rt, alloc, far, for_far)?;
    let played = side.play(rt, alloc, host);
    // The other machine plays on until then.
    over.store(true, Ordering::SeqCst);
    let there = handle.join(rt);
    let (here, seen) = played?;
    Ok(Ends {
        here,
        seen,
        there: there?,
    })
}

/// The other machine's thread.
fn start<R>(
    rt: R,
    alloc: Global,
    wire: Wire,
    over: Arc<AtomicBool, Global>,
) -> Result<JoinHandle<Result<State, Fault>>, AllocError>
where
    R: Threads + Wait + Copy + Send + 'static,
{
    let handle = thread::spawn(&rt, move || far::play(&rt, alloc, wire, over))?;
    Ok(handle)
}
