//! Calls that ask for the inputs that wait for a session that plays a match.
ghost use Rattle.std.specs.Prelude.{◌≡◌};
ghost use Rattle.fazgrond_c.specs.Matches.{code_of_handing, AreListedOf, Does, DoesRead, IsGuessedOf, IsHandedOver, IsPressedNow, IsRerunOf};

use crate::calls::CLOSED;
use crate::jobs::numbered;
use crate::kinds::EntryOut;
use crate::live::Live;
use crate::network::first_of;
use crate::peer_refusal::code_of_fault;
use crate::waiting_calls::{write_first, write_rerun};
use roll_relay::HeldFault;

/// Writes the words that wait to the front of a buffer, as many as there is room for, and says how many they are.
pub fn list(live: &Live, out: &mut [EntryOut]) -> usize
    ensures { AreListedOf live.now out.old out.new result }
{
    match &live.network {
        Some(online) => write_first(online.it.waiting(), out),
        None => 0,
    }
}

/// Writes how many frames the session would run again, if it were told the first so many words that wait.
pub fn rerun(live: &Live, count: u32, frames: &mut u32) -> i32
    ensures { DoesRead (IsRerunOf count) live.now frames.old frames.new result }
{
    let Some(online) = &live.network else {
        return CLOSED;
    };
    write_rerun(&live.session, first_of(online.it.waiting(), count), frames)
}

/// Writes whether words are to be handed over before the session comes to its next frame.
pub fn is_pressed(live: &Live, flag: &mut u32) -> i32
    ensures { DoesRead IsPressedNow live.now flag.old flag.new result }
{
    let Some(online) = &live.network else {
        return CLOSED;
    };
    *flag = u32::from(online.it.is_pressed(&live.session));
    0
}

/// Makes a guess with all words that wait, and writes the number of its job, if there is a job.
pub fn guess(live: &mut Live, until: u32, job: &mut u32) -> i32
    ensures { IsGuessedOf until live.old live.new job.old job.new result }
{
    let Live {
        session,
        network,
        ..
    } = live;
    let Some(online) = network else {
        return CLOSED;
    };
    let outcome = session.guess_words(online.it.waiting(), until);
    numbered(live, job, outcome)
}

/// Hands over the first so many words that wait.
pub fn hand_over(live: &mut Live, count: u32) -> i32
    ensures { Does (IsHandedOver count) live.old live.new result }
{
    let Live {
        session,
        network,
        ..
    } = live;
    match network {
        Some(online) => code_of_handing(online.it.hand_over(session, count as usize)),
        None => CLOSED,
    }
}

/// The code of whether words were handed over.
fn code_of_handing(said: Result<(), HeldFault>) -> i32
    ensures { result ≡ code_of_handing said }
{
    match said {
        Ok(()) => 0,
        Err(why) => code_of_fault(why),
    }
}
