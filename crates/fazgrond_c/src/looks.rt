//! What is read of a session, for games in other languages.
ghost use Rattle.std.specs.Prelude.{◌≡◌, ℕ, length, option_and_then, option_map, pos, slice_get, None, Some, if◌then◌else◌};
ghost use Rattle.roll_frame.specs.Advice.{advice_of};
ghost use Rattle.roll_frame.specs.Core.{settled as settled_frame};
ghost use Rattle.roll_frame.specs.Inputs.{player_at};
ghost use Rattle.roll_inputs.specs.Boards.{confirmed_word};
ghost use Rattle.roll_peer.specs.Turning.{ends_in_roll};
ghost use Rattle.fazgrond_c.specs.Handles.{session_in, Reads, ReadsSome};
ghost use Rattle.fazgrond_c.specs.Kinds.{entry_out, row_out};
ghost use Rattle.fazgrond_c.specs.StateKinds.{AreCopied};
ghost use Rattle.fazgrond_c.specs.Made.{settled_row, IsClaimOf, IsClaimed, IsSettledAt, IsWritten};
ghost use Rattle.roll_session.specs.Headline.{last_claim};

use crate::calls::{CLOSED, NOTHING, TOO_SHORT};
use crate::handle::Handle;
use crate::kinds::{EntryOut, RowOut};
use crate::live::Live;
use crate::open::Open;
use crate::reads::{entry_at, input_frame, written};
use roll_peer::ends_in_roll;
use roll_session::{Networked, Settling};
use std::alloc::Global;

/// The current frame.
#[unsafe(no_mangle)]
pub extern "C" fn fazgrond_frame(alloc: Global, handle: &mut Handle, frame: &mut u32) -> i32
    ensures { Reads session_in (λ live. live.session.seen.core.frame) handle.old.hold.value
        handle.new.hold.value frame.old frame.new result }
{
    let Some(held) = handle.take(alloc) else {
        return CLOSED;
    };
    let Open::Session(live) = &*held else {
        handle.put(held);
        return CLOSED;
    };
    *frame = live.session.frame();
    handle.put(held);
    0
}

/// How many rows are settled.
#[unsafe(no_mangle)]
pub extern "C" fn fazgrond_settled(alloc: Global, handle: &mut Handle, rows: &mut u32) -> i32
    ensures { Reads session_in (λ live. settled_frame live.session.seen.core) handle.old.hold.value
        handle.new.hold.value rows.old rows.new result }
{
    let Some(held) = handle.take(alloc) else {
        return CLOSED;
    };
    let Open::Session(live) = &*held else {
        handle.put(held);
        return CLOSED;
    };
    *rows = live.session.settled();
    handle.put(held);
    0
}

/// A settled row.
#[unsafe(no_mangle)]
pub extern "C" fn fazgrond_settled_row(
    alloc: Global,
    handle: &mut Handle,
    frame: u32,
    row: &mut RowOut,
) -> i32
    ensures { ReadsSome session_in
        (λ live. option_map row_out (settled_row live.session.seen.core frame))
        handle.old.hold.value handle.new.hold.value row.old row.new result }
{
    let Some(held) = handle.take(alloc) else {
        return CLOSED;
    };
    let Open::Session(live) = &*held else {
        handle.put(held);
        return CLOSED;
    };
    let settled = live.session.settled_row(frame);
    handle.put(held);
    match settled {
        Some(there) => {
            *row = RowOut::of(&there);
            0
        }
        None => NOTHING,
    }
}

/// How many words of a player are confirmed.
#[unsafe(no_mangle)]
pub extern "C" fn fazgrond_confirmed(
    alloc: Global,
    handle: &mut Handle,
    player: u8,
    words: &mut u32,
) -> i32
    ensures { ReadsSome session_in
        (λ live. option_map (λ p. length p.words) (player_at live.session.seen.core.players player))
        handle.old.hold.value handle.new.hold.value words.old words.new result }
{
    let Some(held) = handle.take(alloc) else {
        return CLOSED;
    };
    let Open::Session(live) = &*held else {
        handle.put(held);
        return CLOSED;
    };
    let there = live.session.confirmed(player);
    handle.put(held);
    written(words, there)
}

/// The confirmed word of a player at a frame.
#[unsafe(no_mangle)]
pub extern "C" fn fazgrond_confirmed_word(
    alloc: Global,
    handle: &mut Handle,
    player: u8,
    frame: u32,
    word: &mut u32,
) -> i32
    ensures { ReadsSome session_in (λ live. confirmed_word live.session.seen.core.players player
        frame) handle.old.hold.value handle.new.hold.value word.old word.new result }
{
    let Some(held) = handle.take(alloc) else {
        return CLOSED;
    };
    let Open::Session(live) = &*held else {
        handle.put(held);
        return CLOSED;
    };
    let there = live.session.confirmed_word(player, frame);
    handle.put(held);
    written(word, there)
}

/// The frame in which a local player's next word counts.
#[unsafe(no_mangle)]
pub extern "C" fn fazgrond_input_frame(
    alloc: Global,
    handle: &mut Handle,
    player: u8,
    frame: &mut u32,
) -> i32
    ensures { ReadsSome session_in (λ live. option_and_then
        (λ p. if p.local then Some (length p.words) else None)
        (player_at live.session.seen.core.players player))
        handle.old.hold.value handle.new.hold.value frame.old frame.new result }
{
    let Some(held) = handle.take(alloc) else {
        return CLOSED;
    };
    let Open::Session(live) = &*held else {
        handle.put(held);
        return CLOSED;
    };
    let there = input_frame(&live.session, player);
    handle.put(held);
    written(frame, there)
}

/// How many entries the log has.
#[unsafe(no_mangle)]
pub extern "C" fn fazgrond_log_length(
    alloc: Global,
    handle: &mut Handle,
    entries: &mut usize,
) -> i32
    ensures { Reads session_in (λ live. length live.session.seen.log) handle.old.hold.value
        handle.new.hold.value entries.old entries.new result }
{
    let Some(held) = handle.take(alloc) else {
        return CLOSED;
    };
    let Open::Session(live) = &*held else {
        handle.put(held);
        return CLOSED;
    };
    *entries = live.session.core().log().len();
    handle.put(held);
    0
}

/// An entry of the log.
#[unsafe(no_mangle)]
pub extern "C" fn fazgrond_log_entry(
    alloc: Global,
    handle: &mut Handle,
    place: usize,
    entry: &mut EntryOut,
) -> i32
    ensures { ReadsSome session_in
        (λ live. option_map entry_out (slice_get live.session.seen.log place)) handle.old.hold.value
        handle.new.hold.value entry.old entry.new result }
{
    let Some(held) = handle.take(alloc) else {
        return CLOSED;
    };
    let Open::Session(live) = &*held else {
        handle.put(held);
        return CLOSED;
    };
    let there = entry_at(live.session.core().log(), place);
    handle.put(held);
    match there {
        Some(there) => {
            *entry = there;
            0
        }
        None => NOTHING,
    }
}

/// The settled frame, and the slot in which its state lies.
#[unsafe(no_mangle)]
pub extern "C" fn fazgrond_settled_slot(
    alloc: Global,
    handle: &mut Handle,
    frame: &mut u32,
    slot: &mut u32,
) -> i32
    ensures { IsSettledAt handle.old.hold.value handle.new.hold.value frame.old frame.new slot.old
        slot.new result }
{
    let Some(held) = handle.take(alloc) else {
        return CLOSED;
    };
    let Open::Session(live) = &*held else {
        handle.put(held);
        return CLOSED;
    };
    *frame = live.session.settled();
    *slot = live.session.settled_slot();
    handle.put(held);
    0
}

/// Whether a call other than a graft was accepted since the last roll, or there was none so far. The state shown may
/// not be that of the inputs then.
#[unsafe(no_mangle)]
pub extern "C" fn fazgrond_has_news(alloc: Global, handle: &mut Handle, flag: &mut u32) -> i32
    ensures { Reads session_in (λ live. if ends_in_roll live.session.seen.log then 0 else 1)
        handle.old.hold.value handle.new.hold.value flag.old flag.new result }
{
    let Some(held) = handle.take(alloc) else {
        return CLOSED;
    };
    let Open::Session(live) = &*held else {
        handle.put(held);
        return CLOSED;
    };
    *flag = u32::from(!ends_in_roll(live.session.core().log()));
    handle.put(held);
    0
}

/// How many frames this machine should wait.
#[unsafe(no_mangle)]
pub extern "C" fn fazgrond_frames_ahead(alloc: Global, handle: &mut Handle, frames: &mut u32) -> i32
    ensures { Reads session_in (λ live. advice_of live.advice) handle.old.hold.value
        handle.new.hold.value frames.old frames.new result }
{
    let Some(held) = handle.take(alloc) else {
        return CLOSED;
    };
    let Open::Session(live) = &*held else {
        handle.put(held);
        return CLOSED;
    };
    *frames = live.advice.frames_ahead();
    handle.put(held);
    0
}

/// The text of the claim of the last rollback, if the buffer has room for it; how long it is in any case.
#[unsafe(no_mangle)]
pub extern "C" fn fazgrond_claim(
    alloc: Global,
    handle: &mut Handle,
    out: &mut [u8],
    size: &mut usize,
) -> i32
    ensures { IsClaimed handle.old.hold.value handle.new.hold.value out.old out.new size.old
        size.new result }
{
    let Some(held) = handle.take(alloc) else {
        return CLOSED;
    };
    let Open::Session(live) = &*held else {
        handle.put(held);
        return CLOSED;
    };
    let code = claim(alloc, live, out, size);
    handle.put(held);
    code
}

/// Writes the claim of the last rollback, if the buffer has room for it.
fn claim(alloc: Global, live: &Live, out: &mut [u8], size: &mut usize) -> i32
    ensures { IsClaimOf (last_claim live.now.session.seen) out.old out.new size.old size.new
        result }
{
    match live.claim(alloc) {
        Ok(text) => {
            *size = text.len();
            copied(out, text.as_slice())
        }
        Err(why) => why.code(),
    }
}

/// Writes bytes to the front of a buffer, if it has room for them.
pub fn copied(out: &mut [u8], bytes: &[u8]) -> i32
    ensures copied { AreCopied bytes.now out.old out.new result }
    ensures written { (had : ℕ) → IsWritten bytes.now out.old out.new had (length bytes.now)
        result }
{
    if bytes.len() > out.len() {
        return TOO_SHORT;
    }
    out[..bytes.len()].copy_from_slice(bytes);
    0
}
