//! Scripts that are played live, from a reader to a writer.
ghost use Rattle.std.specs.Prelude.{◌≡◌, ◌≢◌, ◌≤◌, ◌⊎◌, ◌<◌, ◌+◌, ◌^◌, ◌++◌, ℕ, List, Err, IfErr, IfOk};
ghost use Rattle.std.specs.Prelude.{length, vec_len};
ghost use Rattle.roll_host.specs.Hosted.{came_by, issued_of, places_of, withdrawn_of};
ghost use Rattle.roll_pool.specs.Crews.{places_in};
ghost use Rattle.roll_pool.specs.Owners.{collected};
ghost use Rattle.roll_pool.specs.Settled.{Settles};
ghost use Rattle.roll_pool.specs.declared.owner.TheConstants.{WORKER_LIMIT as TEAM};
ghost use Rattle.roll_session.specs.Seen.{Seen};
ghost use Rattle.roll_text.specs.declared.streams.TheConstants.{TEXT_LIMIT};
ghost use Rattle.prog_scripts.specs.declared.fault.PlayFault.TheVariants.{Unreadable, Write as CannotWrite};
ghost use Rattle.prog_scripts.specs.Engines.{Outputs, Plays};
ghost use Rattle.prog_scripts.specs.Faults.{TakesAtMost};
ghost use Rattle.prog_scripts.specs.Plays.{IsPlay, play_of};
ghost use Rattle.prog_scripts.specs.Output.{game_from};
ghost use Rattle.roll_live.specs.Headlines.{HasHeadline};
ghost use Rattle.roll_live.specs.Lives.{IsFarAt, IsFarOf, IsFarUnder, IsOutput, IsUnreadable};
ghost use Rattle.roll_live.specs.Lives.{Writes, WritesUnder};

use crate::playing::Playing;
use prog_scripts::{Command, PlayFault, Script, push_not_started, read_script};
use roll_frame::Settings;
use roll_game::{Game, Shown};
use roll_host::Host;
use roll_pool::{Crew, Outcome, Owner, start_all};
use roll_session::Session;
use roll_text::write_all;
use std::alloc::{AllocFailed, Global};
use std::io::{Read, Write};
use std::sync::Wait;
use std::thread::Threads;

/// Plays a script live: reads all of it, plays it through a host with one link and a worker for each helper, writes the replies,
/// and answers how many of them are refusals. The game starts at `opening`; the helpers, 1 to 4, are games of its kind, each for a
/// thread of its own.
///
/// An `R` is answered by whether the log grew, and by the refusal that the pump told (`specs/Told.antt`). A `G` has its
/// jobs run and writes nothing; a `B` takes in whichever branches have come. That a run ends, and writes the same
/// whatever the schedule, is tested (`tests/runs/live.t`), not proved.
///
/// At most 1,048,577 bytes are read. Nothing is written unless the whole script can be read and played, and then all in large
/// pieces at the end. If the session doesn't start, its refusal is all that is written, and counts as one. A worker that
/// can't be started, and a word that is held, end the run as one for which there is no memory. All threads have ended by then,
/// whatever came of the script.
///
/// # Errors
///
/// `Unreadable` with the first line that no script with the same earlier lines has, or that of the first `R` whose frame is 100
/// or more past the session's, or with 0 if the text is too long; `Read` if the reader fails; `NoMemory` if the allocator has no
/// room, a game refuses, a worker can't be started, or a word is held. After these nothing is written. `Write` if the writer
/// fails: it has a front of the output, and not all of it. What was read by then is gone from the reader.
pub fn live<RT, G, R, W>(
    alloc: Global,
    rt: &RT,
    reader: &mut R,
    writer: &mut W,
    game: G,
    opening: G::Snapshot,
    helpers: Vec<G>,
) -> Result<u32, PlayFault>
where
    RT: Threads + Wait + Copy + Send + 'static,
    G: Shown + Send + Drop + 'static,
    G::State: Send + 'static,
    G::Snapshot: Send + 'static,
    R: Read,
    W: Write,
    requires { (1 ≤ vec_len helpers) × (vec_len helpers ≤ TEAM) }
    ensures plays { Plays
        (IsUnreadable (IsFarOf G.text_of (game_from (G.snapshot_value opening) G.step)))
        (IsOutput (Writes G.text_of (game_from (G.snapshot_value opening) G.step)))
        (R.remaining reader.old) (W.contents writer.old) (W.contents writer.new) result }
    ensures untouched { IfErr result (λ fault. (fault ≡ CannotWrite) ⊎ (writer.new ≡ writer.old)) }
    ensures taken { TakesAtMost (TEXT_LIMIT + 1) (R.remaining reader.old) (R.remaining reader.new) }
{
    let script = read_script(alloc, reader)?;
    write_live(alloc, rt, writer, &script, game, opening, helpers)
}

/// Plays a script live, and writes all that it writes at once.
///
/// # Errors
///
/// As for [`live`], but for those of the reader and of a text that is no script's.
pub fn write_live<RT, G, W>(
    alloc: Global,
    rt: &RT,
    writer: &mut W,
    script: &Script,
    game: G,
    opening: G::Snapshot,
    helpers: Vec<G>,
) -> Result<u32, PlayFault>
where
    RT: Threads + Wait + Copy + Send + 'static,
    G: Shown + Send + Drop + 'static,
    G::State: Send + 'static,
    G::Snapshot: Send + 'static,
    W: Write,
    requires fits { IsPlay (play_of script.now) }
    requires few { length script.now.commands.items < 2 ^ 32 }
    requires workers { (1 ≤ vec_len helpers) × (vec_len helpers ≤ TEAM) }
    ensures outputs { Outputs (Writes G.text_of
        (game_from (G.snapshot_value opening) G.step) (play_of script.now))
        (W.contents writer.old) (W.contents writer.new) result }
    ensures far { (line : ℕ) → result ≡ Err (Unreadable line)
        → IsFarOf G.text_of (game_from (G.snapshot_value opening) G.step)
        (play_of script.now) line }
    ensures untouched { IfErr result (λ fault. (fault ≡ CannotWrite) ⊎ (writer.new ≡ writer.old)) }
{
    let mut out = Vec::new(alloc);
    let settings = script.header.settings();
    let commands = &script.commands;
    let refused = push_live(
        alloc, rt, &mut out, settings, commands, game, opening, helpers,
    )?;
    write_all(writer, &out)?;
    Ok(refused)
}

/// Writes all that the commands of a session write at the end, and answers how many replies are refusals.
fn push_live<RT, G>(
    alloc: Global,
    rt: &RT,
    out: &mut Vec<u8>,
    settings: Settings,
    commands: &[Command],
    game: G,
    opening: G::Snapshot,
    helpers: Vec<G>,
) -> Result<u32, PlayFault>
where
    RT: Threads + Wait + Copy + Send + 'static,
    G: Shown + Send + Drop + 'static,
    G::State: Send + 'static,
    G::Snapshot: Send + 'static,
    requires few { length commands.now < 2 ^ 32 }
    requires workers { (1 ≤ vec_len helpers) × (vec_len helpers ≤ TEAM) }
    ensures written { IfOk result
        (λ refused. (written : List ℕ)
        × WritesUnder G.text_of (game_from (G.snapshot_value opening) G.step)
        settings commands.now written refused
        × (out.new.items ≡ out.old.items ++ written)) }
    ensures far { (line : ℕ) → result ≡ Err (Unreadable line)
        → IsFarUnder G.text_of (game_from (G.snapshot_value opening) G.step)
        settings commands.now line }
    ensures fault { IfErr result (λ fault. fault ≢ CannotWrite) }
{
    match Session::start(alloc, game, opening, settings) {
        Ok(session) => play_session(alloc, rt, out, commands, session, helpers),
        Err(fault) => push_not_started(out, fault.why),
    }
}

/// Plays the commands of a session with a worker for each helper.
fn play_session<RT, G>(
    alloc: Global,
    rt: &RT,
    out: &mut Vec<u8>,
    commands: &[Command],
    session: Session<G>,
    helpers: Vec<G>,
) -> Result<u32, PlayFault>
where
    RT: Threads + Wait + Copy + Send + 'static,
    G: Shown + Send + Drop + 'static,
    G::State: Send + 'static,
    G::Snapshot: Send + 'static,
    requires few { length commands.now < 2 ^ 32 }
    requires workers { (1 ≤ vec_len helpers) × (vec_len helpers ≤ TEAM) }
    ensures played { IfOk result
        (λ refused. (new : Seen) × (written : List ℕ)
        × HasHeadline G.step G.text_of session new commands.now written refused
        × (out.new.items ≡ out.old.items ++ written)) }
    ensures far { (line : ℕ) → result ≡ Err (Unreadable line)
        → IsFarAt G.step G.text_of session commands.now line }
    ensures fault { IfErr result (λ fault. fault ≢ CannotWrite) }
{
    let Ok((owner, ends)) = Owner::open(alloc, helpers.len()) else {
        return Err(PlayFault::NoMemory);
    };
    let Ok(crew) = start_all(*rt, alloc, ends, helpers) else {
        return Err(PlayFault::NoMemory);
    };
    match Host::with_workers(alloc, session, owner) {
        Ok(host) => play_hosted(rt, out, commands, host, crew),
        Err(AllocFailed { value: (_, owner) }) => {
            let (ends, _games) = crew.join(rt);
            let _outcome = owner.settle(ends);
            Err(PlayFault::NoMemory)
        }
    }
}

/// Plays the commands on a host whose workers run, and ends both.
fn play_hosted<RT, G>(
    rt: &RT,
    out: &mut Vec<u8>,
    commands: &[Command],
    host: Host<G>,
    crew: Crew<G>,
) -> Result<u32, PlayFault>
where
    RT: Threads + Wait,
    G: Shown + Drop,
    requires few { length commands.now < 2 ^ 32 }
    requires crew { places_in crew ≡ places_of host.pool }
    ensures played { IfOk result
        (λ refused. (new : Seen) × (written : List ℕ)
        × HasHeadline G.step G.text_of host.session new commands.now written refused
        × (out.new.items ≡ out.old.items ++ written)) }
    ensures far { (line : ℕ) → result ≡ Err (Unreadable line)
        → IsFarAt G.step G.text_of host.session commands.now line }
    ensures fault { IfErr result (λ fault. fault ≢ CannotWrite) }
{
    let mut host = host;
    host.session().laws();
    match host.add_link() {
        Ok(sender) => {
            let mut playing = Playing { host, sender };
            let played = playing.play_all(rt, out, commands);
            let Playing { host, sender: _ } = playing;
            let _outcome = end(rt, host, crew);
            played
        }
        Err(_) => {
            let _outcome = end(rt, host, crew);
            Err(PlayFault::NoMemory)
        }
    }
}

/// Has the workers stop, waits for them, and settles what became of their jobs.
fn end<RT: Threads, G: Game + Drop>(rt: &RT, host: Host<G>, crew: Crew<G>) -> Outcome<G>
    requires { places_in crew ≡ places_of host.pool }
    ensures { Settles (issued_of host.pool) (withdrawn_of host.pool)
        (collected (came_by host.pool)) result.late.items result.left.items }
{
    let (ends, _games) = crew.join(rt);
    let (_session, outcome) = host.settle(ends);
    outcome
}
