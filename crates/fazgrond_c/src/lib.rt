//! Rollback sessions for games in other languages: the session says what the game is to do.
//!
//! `include/fazgrond.h` says what each call is for, what the structs have and the numbers mean, and what a call asks of
//! its caller. For any arguments that keep that, each export is safe and returns. A session opens with the headline of
//! `roll_requests` (`Leads`), and each call keeps it (`KeepsLeading`). So for every game: once C has carried out all
//! that `fazgrond_take_requests` has handed out since the session was opened, in order, and nothing is left to take,
//! the current state there is the serial run of the rows that the session shows.
//!
//! A handle has one thing open (a session, a peer, an end of a viewer's line, a player's habits, who gives or takes a
//! state) or nothing. To a call for another kind of thing it is closed. On a closed handle, also one that is lent, a
//! call answers 201, or a count of 0, and nothing is changed or written. A call that opens something puts it in the
//! place of what was open, or changes nothing. A call that writes a datagram needs room for 1,200 bytes: with less it
//! answers 204, and nothing is changed or counted.
#![tactic(auto)]

ghost use Rattle.std.specs.Prelude.{◌≡◌, ◌++◌, drop, length, take, None};

mod calls;
mod epoch_calls;
mod epoch_kinds;
mod epochs;
mod giver_calls;
mod givers;
mod habits;
mod handle;
mod hold;
mod jobs;
mod kinds;
mod line_calls;
mod line_kinds;
mod line_refusal;
mod lines;
mod live;
mod looks;
mod match_calls;
mod match_kinds;
mod match_reads;
mod match_settings;
mod match_turn;
mod match_waiting;
mod matches;
mod network;
mod online;
mod open;
mod parts;
mod peer_calls;
mod peer_kinds;
mod peer_refusal;
mod peers;
mod playing;
mod reads;
mod requests;
mod sessions;
mod state_kinds;
mod state_refusal;
mod states;
mod taker_calls;
mod takers;
mod texts;
mod viewer_calls;
mod viewers;
mod waiting;
mod waiting_calls;
mod windows;

ghost use Rattle.fazgrond_c.specs.Texts.{sentence_of, version_of};

pub use calls::{CLOSED, NOTHING, OTHER_VERSION, PENDING, TOO_SHORT};
pub use epoch_kinds::{EPOCH_SIZE, EpochIn, MARK_SIZE, MarkIn};
pub use habits::ForeseenOut;
pub use handle::Handle;
pub use kinds::{EntryOut, ReachedOut, RequestOut, RowOut, SETTINGS_SIZE, SettingsIn};
pub use line_kinds::{LineIn, LineState};
pub use live::Live;
pub use match_kinds::{StayedOut, TurnOut, UnfitOut};
pub use match_settings::{MATCH_SETTINGS_SIZE, MatchSettingsIn};
pub use network::Network;
pub use online::Online;
pub use open::Open;
pub use peer_kinds::{EventOut, MATCH_SIZE, MatchIn, StatsOut};
pub use state_kinds::{HeardOut, NameOut, TakerOut};
use std::alloc::Global;
use texts::{sentence_of, write_front};

/// The version of the library: its major, minor and patch numbers, the last two in 8 bits each.
#[unsafe(no_mangle)]
pub extern "C" fn fazgrond_version() -> u32
    ensures { result ≡ version_of 0 3 0 }
{
    0x00_03_00
}

/// Writes the sentence for the number of an answer or of an event, as much as the buffer has room for, and says how long it is: 0 if
/// there is no such number.
#[unsafe(no_mangle)]
pub extern "C" fn fazgrond_text(code: i32, out: &mut [u8]) -> usize
    ensures written { out.new
        ≡ take (length out.old) (sentence_of code) ++ drop (length (sentence_of code)) out.old }
    ensures size { result ≡ length (sentence_of code) }
{
    write_front(out, sentence_of(code).as_bytes())
}

/// Closes a handle, whatever it has open.
#[unsafe(no_mangle)]
pub extern "C" fn fazgrond_close(alloc: Global, handle: &mut Handle)
    ensures { handle.new.hold.value ≡ None }
{
    let _closed = handle.take(alloc);
}
