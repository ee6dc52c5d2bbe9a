//! Guesses and their jobs, for games in other languages.
ghost use Rattle.std.specs.Prelude.{◌≡◌};
ghost use Rattle.fazgrond_c.specs.Handles.{session_in, Makes, Writes};
ghost use Rattle.fazgrond_c.specs.Jobs.{code_of_guess, number_in, IsForgotten, IsGrafted, IsGuessed};

use crate::calls::{CLOSED, NOTHING, PENDING};
use crate::handle::Handle;
use crate::live::Live;
use crate::open::Open;
use roll_frame::Refusal;
use roll_requests::Declined;
use std::alloc::Global;

/// A guess: its job is asked for, and numbered.
#[unsafe(no_mangle)]
pub extern "C" fn fazgrond_guess(
    alloc: Global,
    handle: &mut Handle,
    player: u8,
    words: &[u32],
    until: u32,
    job: &mut u32,
) -> i32
    ensures { Writes session_in (IsGuessed player words.now until) handle.old.hold.value
        handle.new.hold.value job.old job.new result }
{
    let Some(mut held) = handle.take(alloc) else {
        return CLOSED;
    };
    let Open::Session(live) = &mut *held else {
        handle.put(held);
        return CLOSED;
    };
    let code = guess(live, player, words, until, job);
    handle.put(held);
    code
}

/// Takes in the branch of a job that was carried out. 202, and nothing is changed, if requests are still to be taken;
/// else the job is gone, whatever the answer.
#[unsafe(no_mangle)]
pub extern "C" fn fazgrond_graft(
    alloc: Global,
    handle: &mut Handle,
    job: u32,
    added: &mut u32,
) -> i32
    ensures { Writes session_in (IsGrafted job) handle.old.hold.value handle.new.hold.value
        added.old added.new result }
{
    let Some(mut held) = handle.take(alloc) else {
        return CLOSED;
    };
    let Open::Session(live) = &mut *held else {
        handle.put(held);
        return CLOSED;
    };
    let code = graft(live, job, added);
    handle.put(held);
    code
}

/// Gives a job up.
#[unsafe(no_mangle)]
pub extern "C" fn fazgrond_forget(alloc: Global, handle: &mut Handle, job: u32) -> i32
    ensures { Makes session_in (IsForgotten job) handle.old.hold.value handle.new.hold.value
        result }
{
    let Some(mut held) = handle.take(alloc) else {
        return CLOSED;
    };
    let Open::Session(live) = &mut *held else {
        handle.put(held);
        return CLOSED;
    };
    let code = forget(live, job);
    handle.put(held);
    code
}

/// Makes a guess, and writes the number of its job, if there is a job.
fn guess(live: &mut Live, player: u8, words: &[u32], until: u32, job: &mut u32) -> i32
    ensures { IsGuessed player words.now until live.old live.new job.old job.new result }
{
    let outcome = live.session.guess(player, words, until);
    numbered(live, job, outcome)
}

/// Writes the number of a guess's job, if there is a job.
pub fn numbered(live: &Live, job: &mut u32, outcome: Result<Option<u32>, Declined>) -> i32
    ensures code { result ≡ code_of_guess outcome }
    ensures written { job.new ≡ number_in live.now.first_job outcome job.old }
{
    match outcome {
        Ok(Some(number)) => {
            *job = live.first_job.wrapping_add(number);
            0
        }
        Ok(None) => NOTHING,
        Err(why) => why.refusal().code(),
    }
}

/// Takes in the branch of a job, unless requests are still to be taken.
fn graft(live: &mut Live, job: u32, added: &mut u32) -> i32
    ensures { IsGrafted job live.old live.new added.old added.new result }
{
    if !live.is_done() {
        return PENDING;
    }
    match live.session.graft(job.wrapping_sub(live.first_job)) {
        Ok(grafted) => {
            *added = grafted.added;
            0
        }
        Err(why) => why.code(),
    }
}

/// Gives a job up, if there is one of this number.
fn forget(live: &mut Live, job: u32) -> i32
    ensures { IsForgotten job live.old live.new result }
{
    if live.session.forget(job.wrapping_sub(live.first_job)) {
        0
    } else {
        Refusal::NoJob.code()
    }
}
