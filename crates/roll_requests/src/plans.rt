//! What a roll, a job or an end needs, so that nothing of it can fail any more.
ghost use Rattle.std.specs.Prelude.{◌≡◌, ◌≤◌, ◌<◌, ◌+◌, ◌*◌, ◌-◌, ℕ, length, max, IfErr, IfNone, IfOk, IfSome, OnOk};
ghost use Rattle.roll_frame.specs.Core.{depth, settled};
ghost use Rattle.roll_session.specs.Calls.{IsRoll};
ghost use Rattle.roll_session.specs.Changes.{IsWhy};
ghost use Rattle.roll_session.specs.Gameless.{CanEnter};
ghost use Rattle.roll_requests.specs.Asked.{IsDeclinedRoll};
ghost use Rattle.roll_requests.specs.Ended.{end_refusal};
ghost use Rattle.roll_requests.specs.Planned.{IsHardly, IsRoom, IsShort};
ghost use Rattle.roll_requests.specs.Slotted.{free_slots, is_needed, is_taken, least_free, AreFree, AreTaken, AreWithin};
ghost use Rattle.slab.specs.Slab.{HasRoomFor};

use crate::declined::Declined;
use crate::job::{Job, fill_jobs};
use crate::limits::SLOTS;
use crate::queue::Queue;
use crate::taken::Taken;
use arrayvec::ArrayVec;
use roll_branch::PackedRoute;
use roll_frame::{BRANCH_LIMIT, PATH_LIMIT, Refusal, Route};
use roll_session::{Call, Core, Settling, Way};
use roll_tree::Tree;
use slab::Slab;
use std::alloc::Global;

/// A roll to be done, and the slots of its states.
#[derive(Drop)]
pub struct RollPlan {
    pub way: Way,
    pub slots: ArrayVec<u32, PATH_LIMIT>,
}

/// Finds slots for so many states of a roll, before which all slots are freed that nothing holds. None if too few are free then.
/// What is held is noted.
fn find_room(
    held: &mut Taken,
    taken: &Taken,
    tree: &Tree<u32>,
    jobs: &Slab<Job>,
    count: usize,
    limit: u32,
) -> Option<ArrayVec<u32, PATH_LIMIT>>
    requires taken { AreTaken tree.now.states jobs.now taken.now }
    requires few { count ≤ PATH_LIMIT }
    requires limit { limit ≤ SLOTS }
    ensures many { IfSome result (λ slots. length slots.items ≡ count) }
    ensures room { IfSome result (λ slots. IsRoom limit tree.now.states jobs.now
        (record { held = held.new; slots = slots.items })) }
    ensures short { IfNone result
        (length (free_slots (is_needed tree.now.states jobs.now) limit) < count) }
{
    held.clear_as(taken);
    held.fill_saved(tree);
    fill_jobs(held, jobs);
    let slots = held.find(count, limit)?;
    held.reach(&slots);
    Some(slots)
}

/// Judges a call that rolls, makes room for all that it needs, and notes what is held.
///
/// # Errors
///
/// As of the call of a session; `NoSlots` if too few slots are free. `NoMemory` only if none was reserved, or requests wait.
pub fn plan_roll(
    core: &mut Core<u32>,
    queue: &mut Queue,
    held: &mut Taken,
    taken: &Taken,
    jobs: &Slab<Job>,
    limit: u32,
    call: Call,
) -> Result<RollPlan, Declined>
    requires roll { IsRoll call }
    requires taken { AreTaken core.old.saves.tree.states jobs.now taken.now }
    requires limit { limit ≤ SLOTS }
    ensures can { IfOk result (λ plan. CanEnter core.new call plan.way) }
    ensures looked { OnOk result (core.new.seen
        ≡ record core.old.seen { reserved = max core.old.seen.reserved 1 }) }
    ensures reserved { OnOk result (1 ≤ core.new.seen.reserved) }
    ensures from { IfOk result (λ plan. plan.way.frame ≡ depth core.old.seen.core plan.way.to) }
    ensures many { IfOk result
        (λ plan. length plan.slots.items ≡ plan.way.to - plan.way.frame) }
    ensures room { IfOk result (λ plan. IsRoom limit core.new.saves.tree.states jobs.now
        (record { held = held.new; slots = plan.slots.items })) }
    ensures space { IfOk result
        (λ plan. 1 + length taken.now + 2 * length plan.slots.items ≤ queue.new.room) }
    ensures hardly { IsHardly core.old core.new }
    ensures requests { queue.new.requests ≡ queue.old.requests }
    ensures declined { IfErr result (IsDeclinedRoll core.old.seen core.old.saves.tree.states
        jobs.now queue.old.requests limit call) }
{
    let way = core.look(call)?;
    let count = (way.to - way.frame) as usize;
    let Some(slots) = find_room(held, taken, core.saved(), jobs, count, limit) else {
        return Err(Declined::NoSlots);
    };
    queue.reserve(1 + taken.len() + 2 * count)?;
    Ok(RollPlan { way, slots })
}

/// Finds slots for the states of a job that starts from the state in a slot, and makes room for all that it needs.
///
/// # Errors
///
/// `NoSlots` if too few are free, or `NoMemory`.
pub fn plan_job(
    alloc: Global,
    queue: &mut Queue,
    taken: &mut Taken,
    jobs: &mut Slab<Job>,
    start: u32,
    route: &Route,
    limit: u32,
) -> Result<Job, Declined>
    requires { limit ≤ SLOTS }
    ensures route { IfOk result (λ job. job.route ≡ route.now) }
    ensures start { IfOk result (λ job. job.start ≡ start) }
    ensures many { IfOk result (λ job. length job.slots ≡ length route.now.rows.items) }
    ensures few { IfOk result (λ job. length job.slots ≤ BRANCH_LIMIT) }
    ensures free { IfOk result (λ job. AreFree limit taken.old job.slots) }
    ensures least { IfOk result
        (λ job. job.slots ≡ least_free (is_taken taken.old) limit (length job.slots)) }
    ensures within { IfOk result (λ job. AreWithin taken.new job.slots) }
    ensures space { IfOk result (λ job. 1 + 2 * length job.slots ≤ queue.new.room) }
    ensures requests { queue.new.requests ≡ queue.old.requests }
    ensures taken { (slot : ℕ) → is_taken taken.new slot ≡ is_taken taken.old slot }
    ensures jobs { jobs.new ≡ record jobs.old { capacity = jobs.new.capacity } }
    ensures fits { OnOk result (HasRoomFor jobs.new 1) }
    ensures short { IfErr result (IsShort (length (free_slots (is_taken taken.old) limit))
        (length route.now.rows.items)) }
{
    let count = route.rows.len();
    let Some(found) = taken.find(count, limit) else {
        return Err(Declined::NoSlots);
    };
    taken.reach(&found);
    let slots = Vec::from_slice(alloc, &found)?;
    let packed = PackedRoute::new(alloc, route)?;
    queue.reserve(1 + 2 * count)?;
    jobs.reserve(1)?;
    Ok(Job {
        route: packed,
        start,
        slots,
    })
}

/// Makes room for the requests of an end at a frame.
///
/// # Errors
///
/// `InvalidRequest` if the frame lies before the settled one, else `NoMemory` if the allocator has no room.
pub fn plan_end(queue: &mut Queue, core: &Core<u32>, taken: &Taken, end: u32) -> Result<(), Refusal>
    ensures within { OnOk result (settled core.now.seen.core ≤ end) }
    ensures space { OnOk result
        (2 + (end - settled core.now.seen.core) + length taken.now ≤ queue.new.room) }
    ensures requests { queue.new.requests ≡ queue.old.requests }
    ensures refused { IfErr result (IsWhy (end_refusal core.now.seen.core end)) }
{
    let from = core.settled();
    if end < from {
        return Err(Refusal::InvalidRequest);
    }
    queue.reserve(2 + (end - from) as usize + taken.len())?;
    Ok(())
}
