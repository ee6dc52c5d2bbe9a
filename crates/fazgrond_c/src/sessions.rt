//! Sessions for games in other languages.
ghost use Rattle.std.specs.Prelude.{◌≡◌, ◌≢◌, pos, IfSome};
ghost use Rattle.fazgrond_c.specs.Handles.{session_in, Makes, Opens};
ghost use Rattle.fazgrond_c.specs.Made.{code_in, flag_of, reached_in, row_in, IsAnsweredBy, IsHandedBy, IsLimited, IsNoted, IsOpened, IsReserved, IsWhyClosed, IsWrittenBy};
ghost use Rattle.fazgrond_c.specs.declared.kinds.TheConstants.{SETTINGS_SIZE};

use crate::calls::{CLOSED, OTHER_VERSION, call, open_in};
use crate::handle::Handle;
use crate::kinds::{ReachedOut, RequestOut, RowOut, SETTINGS_SIZE, SettingsIn};
use crate::live::Live;
use crate::open::Open;
use crate::requests;
use roll_frame::{Refusal, Reply};
use roll_session::Call;
use std::alloc::Global;

/// Opens a session.
#[unsafe(no_mangle)]
pub extern "C" fn fazgrond_open(alloc: Global, handle: &mut Handle, settings: &SettingsIn) -> i32
    ensures opened { Opens session_in (IsOpened settings.now) handle.old.hold.value
        handle.new.hold.value result }
    ensures why { result ≢ pos 0 → IsWhyClosed settings.now result }
    ensures version { settings.now.size ≢ SETTINGS_SIZE → result ≡ pos 205 }
{
    if settings.size != SETTINGS_SIZE {
        return OTHER_VERSION;
    }
    let Some(settings) = settings.settings() else {
        return Refusal::InvalidRequest.code();
    };
    let live = match Live::open(alloc, settings) {
        Ok(live) => live,
        Err(why) => return why.code(),
    };
    open_in(alloc, handle, Open::Session(live))
}

/// Gives a local player's word of this frame.
#[unsafe(no_mangle)]
pub extern "C" fn fazgrond_add_local_input(
    alloc: Global,
    handle: &mut Handle,
    player: u8,
    word: u32,
) -> i32
    ensures { IsAnsweredBy handle.old.hold.value handle.new.hold.value
        (Call.Local player word) result }
{
    code_of(call(alloc, handle, Call::Local { player, word }))
}

/// Takes a remote player's next word. `repeated` says whether it was taken before.
#[unsafe(no_mangle)]
pub extern "C" fn fazgrond_remote_input(
    alloc: Global,
    handle: &mut Handle,
    player: u8,
    frame: u32,
    word: u32,
    repeated: &mut u32,
) -> i32
    ensures { IsWrittenBy flag_of handle.old.hold.value handle.new.hold.value
        (Call.Remote player frame word) repeated.old repeated.new result }
{
    let outcome = call(
        alloc,
        handle,
        Call::Remote {
            player,
            frame,
            word,
        },
    );
    match outcome {
        Ok(Reply::Repeated) => {
            *repeated = 1;
            0
        }
        Ok(_) => {
            *repeated = 0;
            0
        }
        Err(code) => code,
    }
}

/// A remote player leaves.
#[unsafe(no_mangle)]
pub extern "C" fn fazgrond_disconnect_player(alloc: Global, handle: &mut Handle, player: u8) -> i32
    ensures { IsAnsweredBy handle.old.hold.value handle.new.hold.value
        (Call.Disconnect player) result }
{
    code_of(call(alloc, handle, Call::Disconnect { player }))
}

/// The row of this frame, after a rollback where one is due. 202, and nothing is changed, if requests are still to be
/// taken; 107 also if it runs more frames than slots are free.
#[unsafe(no_mangle)]
pub extern "C" fn fazgrond_synchronize_input(
    alloc: Global,
    handle: &mut Handle,
    row: &mut RowOut,
) -> i32
    ensures { IsWrittenBy row_in handle.old.hold.value handle.new.hold.value Call.Sync row.old
        row.new result }
{
    match call(alloc, handle, Call::Sync) {
        Ok(said) => {
            write_row(row, &said);
            0
        }
        Err(code) => code,
    }
}

/// The next frame, after a rollback where one is due. 202 and 107 as of `fazgrond_synchronize_input`.
#[unsafe(no_mangle)]
pub extern "C" fn fazgrond_advance_frame(
    alloc: Global,
    handle: &mut Handle,
    reached: &mut ReachedOut,
) -> i32
    ensures { IsWrittenBy reached_in handle.old.hold.value handle.new.hold.value Call.Advance
        reached.old reached.new result }
{
    match call(alloc, handle, Call::Advance) {
        Ok(Reply::Reached { frame, from, rerun }) => {
            *reached = ReachedOut { frame, from, rerun };
            0
        }
        Ok(_) => 0,
        Err(code) => code,
    }
}

/// The requests of the last call, in their order: fills the buffer, and says how many they are. 0 where none is left.
/// The last ones of the epoch before come first, by themselves.
#[unsafe(no_mangle)]
pub extern "C" fn fazgrond_take_requests(
    alloc: Global,
    handle: &mut Handle,
    out: &mut [RequestOut],
) -> usize
    ensures { IsHandedBy handle.old.hold.value handle.new.hold.value out.old out.new result }
{
    let Some(mut held) = handle.take(alloc) else {
        return 0;
    };
    let Open::Session(live) = &mut *held else {
        handle.put(held);
        return 0;
    };
    let count = requests::take(live, out);
    handle.put(held);
    count
}

/// From now on no state is saved in a slot from this one on.
#[unsafe(no_mangle)]
pub extern "C" fn fazgrond_limit_slots(alloc: Global, handle: &mut Handle, slots: u32) -> i32
    ensures { Makes session_in (IsLimited slots) handle.old.hold.value handle.new.hold.value
        result }
{
    let Some(mut held) = handle.take(alloc) else {
        return CLOSED;
    };
    let Open::Session(live) = &mut *held else {
        handle.put(held);
        return CLOSED;
    };
    let code = limit(live, slots);
    handle.put(held);
    code
}

/// Makes room for so many more events. If it can't, nothing is changed: the log would pass its limit, else there is no
/// memory, but never for what was reserved before.
#[unsafe(no_mangle)]
pub extern "C" fn fazgrond_reserve_log(alloc: Global, handle: &mut Handle, events: u32) -> i32
    ensures { Makes session_in (IsReserved events) handle.old.hold.value handle.new.hold.value
        result }
{
    let Some(mut held) = handle.take(alloc) else {
        return CLOSED;
    };
    let Open::Session(live) = &mut *held else {
        handle.put(held);
        return CLOSED;
    };
    let code = reserve(live, events);
    handle.put(held);
    code
}

/// Notes by how many frames this machine is behind the other, and the other behind this one.
#[unsafe(no_mangle)]
pub extern "C" fn fazgrond_note_advantages(
    alloc: Global,
    handle: &mut Handle,
    local: i32,
    remote: i32,
) -> i32
    ensures { Makes session_in (IsNoted local remote) handle.old.hold.value handle.new.hold.value
        result }
{
    let Some(mut held) = handle.take(alloc) else {
        return CLOSED;
    };
    let Open::Session(live) = &mut *held else {
        handle.put(held);
        return CLOSED;
    };
    let code = note(live, local, remote);
    handle.put(held);
    code
}

/// Writes the row that a sync is answered.
fn write_row(row: &mut RowOut, said: &Reply)
    ensures { IfSome (row_in said.now) (λ there. row.new ≡ there) }
{
    if let Reply::Synchronized(there) = said {
        *row = RowOut::of(there);
    }
}

/// No state of a session is saved in a slot from this one on.
fn limit(live: &mut Live, slots: u32) -> i32
    ensures { IsLimited slots live.old live.new result }
{
    live.session.set_limit(slots);
    0
}

/// Makes room for so many more events of a session.
fn reserve(live: &mut Live, events: u32) -> i32
    ensures { IsReserved events live.old live.new result }
{
    match live.session.reserve_log(events) {
        Ok(()) => 0,
        Err(why) => why.code(),
    }
}

/// Notes the advantages of both sides.
fn note(live: &mut Live, local: i32, remote: i32) -> i32
    ensures { IsNoted local remote live.old live.new result }
{
    live.advice.note(local, remote);
    0
}

fn code_of(outcome: Result<Reply, i32>) -> i32
    ensures { result ≡ code_in outcome }
{
    match outcome {
        Ok(_) => 0,
        Err(code) => code,
    }
}
