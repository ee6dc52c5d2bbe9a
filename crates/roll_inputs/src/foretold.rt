//! Words that have come, but that a board isn't told yet.
ghost use Rattle.std.specs.Prelude.{◌≡◌, ◌≤◌, ◌==◌, count_by, length, All, None};
ghost use Rattle.roll_frame.specs.Refusals.{first_refusal};
ghost use Rattle.roll_frame.specs.Timeline.{row_at as row_of};
ghost use Rattle.roll_inputs.specs.Boards.{players_of};
ghost use Rattle.roll_inputs.specs.Foretold.{each_tests, foretold, foretold_refusal, next_tests};

use crate::queue::Queue;
use crate::queues::{queue_of, row_at};
use crate::remote_word::{FORETOLD_LIMIT, RemoteWord};
use roll_frame::{Cell, PLAYER_LIMIT, Refusal, Row};

/// How many of these words are a player's.
fn count_words(words: &[RemoteWord], player: u8) -> usize
    ensures { result ≡ count_by (λ w. w.player == player) words.now }
{
    words.iter().filter(|word| word.player == player).count()
}

/// Why a word can't be the next of its player, if words before it were told.
fn next_refusal(queues: &[Queue], before: &[RemoteWord], word: RemoteWord) -> Option<Refusal>
    ensures { result
        ≡ first_refusal (next_tests (foretold (players_of queues.now) before.now) word) }
{
    let Some(queue) = queue_of(queues, word.player) else {
        return Some(Refusal::InvalidPlayer);
    };
    let told = queue.count();
    if queue.is_local() {
        Some(Refusal::InvalidPlayer)
    } else if queue.is_gone() {
        Some(Refusal::PlayerDisconnected)
    } else if word.frame < told {
        Some(Refusal::InvalidRequest)
    } else if (word.frame - told) as usize != count_words(before, word.player) {
        Some(Refusal::InvalidRequest)
    } else {
        None
    }
}

/// Why these words can't be told, if they can't.
pub(crate) fn words_refusal(queues: &[Queue], words: &[RemoteWord]) -> Option<Refusal>
    ensures { result ≡ foretold_refusal (players_of queues.now) words.now }
{
    if words.is_empty() || words.len() > FORETOLD_LIMIT {
        return Some(Refusal::InvalidRequest);
    }
    for place in 0..words.len() {
        let refusal = next_refusal(queues, &words[..place], words[place]);
        if refusal.is_some() {
            return refusal;
        }
    }
    None
}

/// Puts into the cells of a frame's row what these words make of them.
fn tell_cells(queues: &[Queue], words: &[RemoteWord], frame: u32, cells: &mut [Cell])
    requires next { first_refusal (each_tests (players_of queues.now) words.now) ≡ None }
    requires row { cells.old ≡ row_of (players_of queues.now) frame }
    ensures { cells.new ≡ row_of (foretold (players_of queues.now) words.now) frame }
{
    for word in words {
        let place = usize::from(word.player) - 1;
        cells[place] = queues[place].next_cell(cells[place], word, frame);
    }
}

/// The timeline's row of a frame, if these words were told.
pub(crate) fn foretold_row(queues: &[Queue], words: &[RemoteWord], frame: u32) -> Row
    requires some { 1 ≤ length queues.now }
    requires few { length queues.now ≤ PLAYER_LIMIT }
    requires held { All (λ q. q.from ≤ frame) queues.now }
    requires next { first_refusal (each_tests (players_of queues.now) words.now) ≡ None }
    ensures { result ≡ row_of (foretold (players_of queues.now) words.now) frame }
{
    let mut cells = row_at(queues, frame).cells();
    tell_cells(queues, words, frame, cells.as_mut_slice());
    Row::from_cells(cells.as_slice())
}
