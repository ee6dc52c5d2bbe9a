//! Calls through a handle.
ghost use Rattle.std.specs.Prelude.{◌≡◌, ◌≢◌, pos, Some, IfErr, IfOk, IsFalse, IsTrue, OnOk};
ghost use Rattle.roll_requests.specs.Made.{IsMade as IsMadeOf, KeepsLeading};
ghost use Rattle.fazgrond_c.specs.Made.{IsDeclined, IsMade, IsNotMade, IsPending};

use crate::handle::Handle;
use crate::live::Live;
use crate::open::Open;
use roll_frame::Reply;
use roll_session::Call;
use std::alloc::Global;

/// The handle is closed, or has something of another kind open.
pub const CLOSED: i32 = 201;
/// Requests were not taken yet.
pub const PENDING: i32 = 202;
/// There is no such thing.
pub const NOTHING: i32 = 203;
/// The buffer has less room than what is to be written.
pub const TOO_SHORT: i32 = 204;
/// A struct that was given has another size than this version's.
pub const OTHER_VERSION: i32 = 205;
/// The code of `Refusal::NoMemory`.
const NO_MEMORY: i32 = 107;

/// Opens something in the place of what a handle has open.
pub fn open_in(alloc: Global, handle: &mut Handle, it: Open) -> i32
    ensures opened { result ≡ pos 0 → handle.new.hold.value ≡ Some it }
    ensures refused { result ≢ pos 0
        → (result ≡ pos 107) × (handle.new.hold.value ≡ handle.old.hold.value) }
{
    let Ok(held) = Box::new(alloc, it) else {
        return NO_MEMORY;
    };
    let _old = handle.take(alloc);
    handle.put(held);
    0
}

/// Makes a call of the session that a handle has open.
///
/// # Errors
///
/// The code of why it is not made or refused.
pub fn call(alloc: Global, handle: &mut Handle, call: Call) -> Result<Reply, i32>
    ensures made { IfOk result (IsMade handle.old.hold.value handle.new.hold.value call) }
    ensures refused { IfErr result (IsNotMade handle.old.hold.value handle.new.hold.value call) }
{
    let Some(mut held) = handle.take(alloc) else {
        return Err(CLOSED);
    };
    let Open::Session(live) = &mut *held else {
        handle.put(held);
        return Err(CLOSED);
    };
    let outcome = make(live, call);
    handle.put(held);
    outcome
}

/// Makes a call of an open session, unless it has to wait for requests to be taken.
///
/// # Errors
///
/// The code of why it is not made or refused.
fn make(live: &mut Live, call: Call) -> Result<Reply, i32>
    ensures made { IfOk result (IsMadeOf live.old.session live.new.session call) }
    ensures taken { OnOk result (¬ IsPending live.old call) }
    ensures refused { IfErr result (IsDeclined live.old live.new call) }
    ensures leads { KeepsLeading live.old.session live.new.session }
    ensures advice { live.new.advice ≡ live.old.advice }
    ensures closing { live.new.closing ≡ live.old.closing }
    ensures first_job { live.new.first_job ≡ live.old.first_job }
    ensures network { live.new.network ≡ live.old.network }
{
    if is_pending(live, call) {
        return Err(PENDING);
    }
    match live.session.perform(call) {
        Ok(said) => Ok(said),
        Err(why) => Err(why.refusal().code()),
    }
}

/// Whether a call waits until all requests were taken.
fn is_pending(live: &Live, call: Call) -> bool
    ensures waits { IsTrue result → IsPending live.now call }
    ensures goes { IsFalse result → ¬ IsPending live.now call }
{
    matches!(call, Call::Sync | Call::Advance) && !live.is_done()
}
