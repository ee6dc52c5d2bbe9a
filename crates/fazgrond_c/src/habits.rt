//! What was seen of a player, and guesses by it, for games in other languages.
ghost use Rattle.std.specs.Prelude.{◌≡◌, ◌≢◌, ◌≤◌, ◌++◌, drop, length, map, pos};
ghost use Rattle.fazgrond_c.specs.Habits.{foreseen_out, habits_in, AreForeseen, AreForeseenBy, IsOpened, IsSeen, IsWhyClosed};
ghost use Rattle.fazgrond_c.specs.Handles.{Makes, Opens};

use crate::calls::{CLOSED, open_in};
use crate::handle::Handle;
use crate::open::Open;
use roll_frame::{PATH_LIMIT, Refusal};
use roll_guess::{Guess, PlayerHabits, WordParts};
use std::alloc::Global;

/// Words that may come next: so many, how good a guess they are, and these.
#[repr(C)]
#[derive(Drop)]
pub struct ForeseenOut {
    pub count: u32,
    pub worth: u32,
    pub words: [u32; PATH_LIMIT],
}

impl ForeseenOut {
    /// The words of a guess.
    fn of(guess: &Guess) -> ForeseenOut
        ensures { result ≡ foreseen_out guess.now }
    {
        let mut words = [0; PATH_LIMIT];
        words[..guess.words.len()].copy_from_slice(guess.words.as_slice());
        ForeseenOut {
            count: guess.words.len() as u32,
            worth: guess.worth,
            words,
        }
    }
}

/// Opens the habits of a player, of whom nothing was seen yet, by these parts of its words. The
/// words are those that are likely.
#[unsafe(no_mangle)]
pub extern "C" fn fazgrond_habits_open(
    alloc: Global,
    handle: &mut Handle,
    parts: &[u32],
    likely: &[u32],
) -> i32
    ensures opened { Opens habits_in (IsOpened parts.now likely.now) handle.old.hold.value
        handle.new.hold.value result }
    ensures why { result ≢ pos 0 → IsWhyClosed parts.now result }
{
    let Ok(parts) = WordParts::new(parts) else {
        return Refusal::InvalidRequest.code();
    };
    let habits = PlayerHabits::new(&parts, likely);
    open_in(alloc, handle, Open::Habits(habits))
}

/// Notes the player's next confirmed word.
#[unsafe(no_mangle)]
pub extern "C" fn fazgrond_habits_note(alloc: Global, handle: &mut Handle, word: u32) -> i32
    ensures { Makes habits_in (IsSeen word) handle.old.hold.value handle.new.hold.value result }
{
    let Some(mut held) = handle.take(alloc) else {
        return CLOSED;
    };
    let Open::Habits(habits) = &mut *held else {
        handle.put(held);
        return CLOSED;
    };
    habits.note(word);
    handle.put(held);
    0
}

/// Writes the best guesses of the player's next words to the front of a buffer, if so many frames
/// have no word of it yet, and says how many these are.
#[unsafe(no_mangle)]
pub extern "C" fn fazgrond_habits_guesses(
    alloc: Global,
    handle: &mut Handle,
    frames: u32,
    out: &mut [ForeseenOut],
) -> usize
    ensures { AreForeseenBy frames handle.old.hold.value handle.new.hold.value out.old out.new
        result }
{
    let Some(held) = handle.take(alloc) else {
        return 0;
    };
    let Open::Habits(habits) = &*held else {
        handle.put(held);
        return 0;
    };
    let count = foresee(habits, frames, out);
    handle.put(held);
    count
}

/// Writes as many of the best guesses as there is room for.
fn foresee(habits: &PlayerHabits, frames: u32, out: &mut [ForeseenOut]) -> usize
    ensures { AreForeseen frames habits.now out.old out.new result }
{
    let ranking = habits.guesses(frames);
    let count = out.len().min(ranking.len());
    write_all(&ranking.as_slice()[..count], out);
    count
}

/// Writes guesses to the front of a buffer.
fn write_all(guesses: &[Guess], out: &mut [ForeseenOut])
    requires { length guesses.now ≤ length out.old }
    ensures { out.new ≡ map foreseen_out guesses.now ++ drop (length guesses.now) out.old }
{
    for (place, guess) in guesses.iter().enumerate() {
        out[place] = ForeseenOut::of(guess);
    }
}
