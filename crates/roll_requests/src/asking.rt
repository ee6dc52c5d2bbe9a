//! The requests of a roll, of a job, and of an end.
ghost use Rattle.std.specs.Prelude.{◌≡◌, ◌≤◌, ◌-◌, ◌+◌, ◌*◌, ◌++◌, ◌∷◌, [], length, slice_index_or, IsSomeAnd};
ghost use Rattle.roll_frame.specs.Core.{settled};
ghost use Rattle.roll_frame.specs.Timeline.{row_at};
ghost use Rattle.roll_session.specs.Ways.{IsGoing};
ghost use Rattle.roll_requests.specs.Ended.{open_row};
ghost use Rattle.roll_requests.specs.Requests.{advances, end_requests, frees, job_requests, last_or, reaching, roll_requests, runs};
ghost use Rattle.roll_requests.specs.Slotted.{is_taken, is_unheld};
ghost use Rattle.roll_requests.specs.declared.request.Request.TheVariants.{Advance, AdvanceAside, Save, SaveAside};
ghost use Rattle.roll_tree.specs.SavedStates.{state_named};

use crate::queue::Queue;
use crate::request::Request;
use crate::taken::Taken;
use roll_frame::Row;
use roll_session::{Core, Settling, Way};

/// Asks for a state to be current, unless it is.
fn reach(queue: &mut Queue, at: u32, slot: u32)
    requires { 1 ≤ queue.old.room }
    ensures asked { queue.new.requests ≡ queue.old.requests ++ reaching at slot }
    ensures room { queue.old.room ≤ queue.new.room + 1 }
{
    if at != slot {
        queue.push(Request::Load { slot });
    }
}

/// Asks for each slot to be freed that is taken and that nothing holds.
fn free_unheld(queue: &mut Queue, taken: &Taken, held: &Taken)
    requires { length taken.now ≤ queue.old.room }
    ensures asked { queue.new.requests
        ≡ queue.old.requests ++ frees (is_unheld taken.now held.now) (length taken.now) }
    ensures room { queue.old.room ≤ queue.new.room + length taken.now }
{
    for place in 0..taken.len() {
        let slot = place as u32;
        if taken.has(slot) && !held.has(slot) {
            queue.push(Request::Free { slot });
        }
    }
}

/// Asks for the states of a roll, and for each to be saved in its slot.
fn run(queue: &mut Queue, core: &Core<u32>, way: &Way, slots: &[u32])
    requires going { IsGoing core.now.saves way.now }
    requires many { length slots.now ≡ way.now.to - way.now.frame }
    requires room { 2 * length slots.now ≤ queue.old.room }
    ensures { queue.new.requests ≡ queue.old.requests
        ++ runs Advance Save (λ k. row_at core.now.saves.inputs.players (way.now.frame + k))
        slots.now (length slots.now) }
{
    for frame in way.frame..way.to {
        let row = core.row(frame);
        queue.push(Request::Advance { row });
        queue.push(Request::Save {
            slot: slots[(frame - way.frame) as usize],
        });
    }
}

/// Asks for a roll, and answers the slot of the state that is current after it.
pub fn ask_roll(
    queue: &mut Queue,
    at: u32,
    core: &Core<u32>,
    way: &Way,
    taken: &Taken,
    held: &Taken,
    slots: &[u32],
) -> u32
    requires going { IsGoing core.now.saves way.now }
    requires many { length slots.now ≡ way.now.to - way.now.frame }
    requires room { 1 + length taken.now + 2 * length slots.now ≤ queue.old.room }
    ensures { IsSomeAnd (state_named core.now.saves.tree way.now.at)
        (λ u. (result ≡ last_or u.snapshot slots.now) × (queue.new.requests
        ≡ queue.old.requests ++ roll_requests at u.snapshot taken.now held.now
        (λ k. row_at core.now.saves.inputs.players (way.now.frame + k)) slots.now)) }
{
    let start = *core.reached(way);
    reach(queue, at, start);
    free_unheld(queue, taken, held);
    run(queue, core, way, slots);
    last_or(start, slots)
}

/// The last of some slots, or else this one.
fn last_or(slot: u32, slots: &[u32]) -> u32
    ensures { result ≡ last_or slot slots.now }
{
    match slots.last() {
        Some(last) => *last,
        None => slot,
    }
}

/// Asks for a job to be run aside from the state in a slot, and for each state to be saved in its slot.
pub fn ask_job(queue: &mut Queue, slot: u32, rows: &[Row], slots: &[u32])
    requires many { length slots.now ≡ length rows.now }
    requires room { 1 + 2 * length slots.now ≤ queue.old.room }
    ensures { queue.new.requests ≡ queue.old.requests
        ++ job_requests slot (λ k. slice_index_or rows.now k []) slots.now }
{
    queue.push(Request::LoadAside { slot });
    for (place, row) in rows.iter().enumerate() {
        queue.push(Request::AdvanceAside { row: *row });
        queue.push(Request::SaveAside { slot: slots[place] });
    }
}

/// Asks for the timeline's frames from the settled one up to another, without their states.
fn run_open(queue: &mut Queue, core: &Core<u32>, end: u32)
    requires { end - settled core.now.seen.core ≤ queue.old.room }
    ensures asked { queue.new.requests ≡ queue.old.requests
        ++ advances (open_row core.now.seen.core) (end - settled core.now.seen.core) }
    ensures room { queue.old.room ≤ queue.new.room + (end - settled core.now.seen.core) }
{
    core.laws();
    for frame in core.settled()..end {
        queue.push(Request::Advance {
            row: core.row(frame),
        });
    }
}

/// Asks for each slot to be freed that is taken.
fn free_all(queue: &mut Queue, taken: &Taken)
    requires { length taken.now ≤ queue.old.room }
    ensures asked { queue.new.requests
        ≡ queue.old.requests ++ frees (is_taken taken.now) (length taken.now) }
    ensures room { queue.old.room ≤ queue.new.room + length taken.now }
{
    for place in 0..taken.len() {
        if taken.has(place as u32) {
            queue.push(Request::Free { slot: place as u32 });
        }
    }
}

/// Asks for the state of a frame, run from the settled one in its slot, to be the only one, current and in slot 0.
pub fn ask_end(queue: &mut Queue, at: u32, slot: u32, core: &Core<u32>, taken: &Taken, end: u32)
    requires { 2 + (end - settled core.now.seen.core) + length taken.now ≤ queue.old.room }
    ensures { queue.new.requests
        ≡ queue.old.requests ++ end_requests at slot taken.now
        (open_row core.now.seen.core) (end - settled core.now.seen.core) }
{
    reach(queue, at, slot);
    run_open(queue, core, end);
    free_all(queue, taken);
    queue.push(Request::Save { slot: 0 });
}
