//! A turn of the match that an open session plays.
ghost use Rattle.std.specs.Prelude.{◌≡◌, ◌≤◌, ◌==◌, ◌++◌, [], false, is_some, length, IsFalse, not, unwrap_or};
ghost use Rattle.fazgrond_c.specs.Matches.{closing_after, code_of_due, code_of_stay, code_of_turn, first_after, handed_in, next_in, size_of_inputs, turn_out, IsBegun, MatchTurns, PlaysIfDue, PlaysWith};
ghost use Rattle.fazgrond_c.specs.Playing.{CatchesUp};

use crate::calls::{CLOSED, PENDING};
use crate::live::{Live, is_closed};
use crate::match_kinds::TurnOut;
use crate::online::Online;
use crate::peer_refusal::{code_of_fault, code_of_refusal, code_of_seam};
use crate::playing::{Inputs, Played, catch_up, own_words};
use roll_chain::SeamRefusal;
use roll_match::Turn;
use roll_mesh::PLAYER_LIMIT;
use roll_peer::PeerRefusal;
use roll_relay::HeldFault;
use roll_requests::{Closing, Elsewhere, JOBS_OUT};
use roll_session::Networked;
use std::alloc::Global;

/// The inputs of this machine's players have another length.
const INPUT_LENGTH: i32 = 334;

/// What the turn of the match itself has done.
#[derive(Drop)]
pub struct Begun {
    /// The code of what couldn't be done; else 0.
    pub code: i32,
    /// How many words that waited were handed over.
    pub handed: u32,
    /// Whether an epoch ended, and the next one has begun.
    pub has_gone_on: bool,
}

/// Takes a turn, unless requests are still to be taken.
pub fn turn(alloc: Global, live: &mut Live, inputs: &[u8], now: u32, out: &mut TurnOut) -> i32
    ensures { MatchTurns inputs.now now live.old live.new out.old out.new result }
{
    let Live {
        session,
        network,
        closing,
        first_job,
        ..
    } = live;
    let Some(online) = network else {
        return CLOSED;
    };
    if has_requests(closing, session) {
        return PENDING;
    }
    let begun = begin(alloc, session, online, closing, first_job, now);
    let played = play_if_due(session, online, inputs, &begun);
    *out = told(session, closing, online, &begun, &played);
    0
}

/// Whether requests are still to be taken.
fn has_requests(closing: &Option<Closing>, session: &Elsewhere) -> bool
    ensures some { result
        ≡ not (length (unwrap_or closing.now [] ++ session.now.requests) == 0) }
    ensures none { IsFalse result → unwrap_or closing.now [] ++ session.now.requests ≡ [] }
{
    !is_closed(closing) || !session.is_done()
}

/// How many bytes the inputs of this machine's players have.
fn size_of_inputs(online: &Online) -> usize
    ensures { result ≡ size_of_inputs online.now }
{
    let settings = online.it.settings();
    let own = own_words(&settings.owners, settings.me, PLAYER_LIMIT);
    own / usize::from(online.words()) * usize::from(online.input_size)
}

/// Takes the turn of the match itself.
fn begin(
    alloc: Global,
    session: &mut Elsewhere,
    online: &mut Online,
    closing: &mut Option<Closing>,
    first_job: &mut u32,
    now: u32,
) -> Begun
    ensures { IsBegun now online.old online.new session.old session.new closing.old closing.new
        first_job.old first_job.new result }
{
    online.it.give_engine(());
    let Turn {
        polled,
        handed,
        last,
        stays,
    } = online.it.turn(alloc, session, now);
    let has_gone_on = go_over(last, closing, first_job);
    Begun {
        code: code_of_turn(polled, handed, stays),
        handed: handed_in(handed),
        has_gone_on,
    }
}

/// What an epoch that ended leaves, if one did. Says whether one has.
fn go_over(last: Option<Closing>, closing: &mut Option<Closing>, first_job: &mut u32) -> bool
    ensures gone { result ≡ is_some last }
    ensures closing { closing.new ≡ closing_after last closing.old }
    ensures first { first_job.new ≡ first_after last first_job.old }
{
    match last {
        Some(last) => {
            *closing = Some(last);
            *first_job = first_job.wrapping_add(JOBS_OUT as u32);
            true
        }
        None => false,
    }
}

/// The code of a turn.
fn code_of_turn(
    polled: Result<Result<(), PeerRefusal>, HeldFault>,
    handed: Result<usize, HeldFault>,
    stays: Option<SeamRefusal>,
) -> i32
    ensures { result ≡ code_of_turn polled handed stays }
{
    match polled {
        Ok(Ok(())) => code_of_due(handed, stays),
        Ok(Err(why)) => code_of_refusal(why),
        Err(why) => code_of_fault(why),
    }
}

/// The code of what was due in it.
fn code_of_due(handed: Result<usize, HeldFault>, stays: Option<SeamRefusal>) -> i32
    ensures { result ≡ code_of_due handed stays }
{
    match handed {
        Ok(_) => code_of_stay(stays),
        Err(why) => code_of_fault(why),
    }
}

/// The code of why an epoch doesn't end.
fn code_of_stay(stays: Option<SeamRefusal>) -> i32
    ensures { result ≡ code_of_stay stays }
{
    match stays {
        Some(why) => code_of_seam(why),
        None => 0,
    }
}

/// How many words were handed over.
fn handed_in(handed: Result<usize, HeldFault>) -> u32
    ensures { result ≡ handed_in handed }
{
    match handed {
        Ok(count) => count.min(u32::MAX as usize) as u32,
        Err(_) => 0,
    }
}

/// Plays a frame, if that is due.
fn play_if_due(session: &mut Elsewhere, online: &Online, inputs: &[u8], begun: &Begun) -> Played
    ensures { PlaysIfDue inputs.now online.now begun.now session.old session.new result }
{
    if begun.has_gone_on || !online.it.is_running() {
        return Played {
            has_played: false,
            waits_for: 0,
        };
    }
    play(session, online, inputs)
}

/// Plays a frame, if there are inputs. If none is played, the session rolls back where that is due.
fn play(session: &mut Elsewhere, online: &Online, inputs: &[u8]) -> Played
    ensures { PlaysWith inputs.now online.now session.old session.new result }
{
    if inputs.is_empty() {
        return play_none(session, 0);
    }
    if inputs.len() != size_of_inputs(online) {
        return play_none(session, INPUT_LENGTH);
    }
    let settings = online.it.settings();
    let inputs = Inputs {
        owners: &settings.owners,
        me: settings.me,
        size: online.input_size,
        bytes: inputs,
    };
    inputs.play(session)
}

/// Plays no frame, for a reason that has this code.
fn play_none(session: &mut Elsewhere, waits_for: i32) -> Played
    ensures played { result ≡ record { has_played = false; waits_for = waits_for } }
    ensures caught { CatchesUp session.old session.new }
{
    catch_up(session);
    Played {
        has_played: false,
        waits_for,
    }
}

/// What C sees of the turn.
fn told(
    session: &Elsewhere,
    closing: &Option<Closing>,
    online: &Online,
    begun: &Begun,
    played: &Played,
) -> TurnOut
    ensures { result ≡ turn_out online.now begun.now played.now closing.now session.now }
{
    TurnOut {
        is_running: u32::from(online.it.is_running()),
        has_played: u32::from(played.has_played),
        has_gone_on: u32::from(begun.has_gone_on),
        has_requests: u32::from(has_requests(closing, session)),
        frame: session.frame(),
        handed: begun.handed,
        failed: begun.code,
        waits_for: played.waits_for,
        next_in: next_in(online, begun),
    }
}

/// In how many microseconds after this turn began the next one should.
fn next_in(online: &Online, begun: &Begun) -> u32
    ensures { result ≡ next_in online.now begun.now }
{
    if begun.has_gone_on {
        0
    } else {
        online.frame_time + online.frame_time * online.it.lead() / 32
    }
}
