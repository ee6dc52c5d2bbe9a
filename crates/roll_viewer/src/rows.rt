//! The rows that a play tells.
ghost use Rattle.std.specs.Prelude.{◌≡◌, ◌-◌, ◌≤◌, ◌==◌, length, take, drop, not};
ghost use Rattle.std.specs.List.{list_all};
ghost use Rattle.roll_frame.specs.declared.limits.TheConstants.{PLAYER_LIMIT as MOST_PLAYERS};
ghost use Rattle.roll_mesh.specs.declared.limits.TheConstants.{PLAYER_LIMIT};
ghost use Rattle.roll_wire.specs.Spelling.{turn};
ghost use Rattle.roll_viewer.specs.Rows.{are_rows, cell_in, first_of, first_row, follows, has_words, is_inside, is_said_once, least_with, most_of, row_count, row_in, AreTaken};

use crate::queue::RowQueue;
use arrayvec::ArrayVec;
use roll_frame::{Cell, PLAYER_LIMIT, Row};
use roll_mesh::Offer;
use roll_wire::Play;

/// How many words an offer has.
fn size(offer: Offer) -> u32
    ensures { result ≡ offer.end - offer.first }
{
    offer.end.saturating_sub(offer.first)
}

/// The words of an offer, and those after them.
fn share(offer: Offer, words: &[u32]) -> (&[u32], &[u32])
    ensures mine { result.0.now ≡ take (offer.end - offer.first) words.now }
    ensures others { result.1.now ≡ drop (offer.end - offer.first) words.now }
{
    let count = size(offer) as usize;
    words.split_at(count.min(words.len()))
}

/// A player's cell in the row of an index.
fn cell_in(words: &[u32], index: usize) -> Cell
    ensures { result ≡ cell_in index words.now }
{
    match words.get(index) {
        Some(word) => Cell::Word(*word),
        None => Cell::Gone,
    }
}

/// The row of an index, of these players.
fn row_in(offers: &[Offer], words: &[u32], index: usize) -> Row
    requires some { 1 ≤ length offers.now }
    requires few { length offers.now ≤ MOST_PLAYERS }
    ensures { result ≡ row_in offers.now words.now index }
{
    let mut cells: ArrayVec<Cell, PLAYER_LIMIT> = ArrayVec::new();
    let mut rest = words;
    for offer in offers {
        let (mine, others) = share(*offer, rest);
        cells.push(cell_in(mine, index));
        rest = others;
    }
    Row::from_cells(&cells)
}

/// How many rows these players have.
fn row_count(offers: &[Offer]) -> u32
    ensures { result ≡ row_count offers.now }
{
    let mut most = 0;
    for offer in offers {
        most = size(*offer).max(most);
    }
    most
}

/// The least of a number and these counts.
pub(crate) fn least_with(most: u32, counts: &[u32]) -> u32
    ensures { result ≡ least_with most counts.now }
{
    let mut least = most;
    for count in counts {
        least = least.min(*count);
    }
    least
}

/// The greatest of these counts.
pub(crate) fn most_of(counts: &[u32]) -> u32
    ensures { result ≡ most_of counts.now }
{
    let mut most = 0;
    for count in counts {
        most = (*count).max(most);
    }
    most
}

/// Whether words are offered.
pub(crate) fn has_words(offer: Offer) -> bool
    ensures { result ≡ has_words offer }
{
    offer.first < offer.end
}

/// The frame of the first row: the first of these that has words says it.
fn first_of(offers: &[Offer]) -> u32
    ensures { result ≡ first_of offers.now }
{
    for offer in offers {
        if has_words(*offer) {
            return offer.first;
        }
    }
    0
}

/// The frame of the first row.
pub(crate) fn first_row(play: &Play) -> u32
    ensures { result ≡ first_row (turn play.now) }
{
    first_of(&play.head.offers)
}

/// Whether the words of an offer begin where others said that they do.
fn follows(offer: Offer) -> bool
    ensures { result ≡ follows offer }
{
    !has_words(offer) || offer.first == 0
}

/// Whether all of these do.
fn all_follow(offers: &[Offer]) -> bool
    ensures { result ≡ list_all follows offers.now }
{
    offers.iter().all(|offer| follows(*offer))
}

/// Whether the first row is said once.
fn is_said_once(offers: &[Offer]) -> bool
    ensures { result ≡ is_said_once offers.now }
{
    for (place, offer) in offers.iter().enumerate() {
        if has_words(*offer) {
            return all_follow(&offers[place + 1..]);
        }
    }
    true
}

/// Whether no words are offered.
fn all_empty(offers: &[Offer]) -> bool
    ensures { result ≡ list_all (λ offer. not (has_words offer)) offers.now }
{
    offers.iter().all(|offer| !has_words(*offer))
}

/// Whether no machine is gone.
fn none_gone(gone: &[bool]) -> bool
    ensures { result ≡ list_all not gone.now }
{
    gone.iter().all(|is_gone| !*is_gone)
}

/// Whether all counts are 0.
fn all_zero(counts: &[u32]) -> bool
    ensures { result ≡ list_all (λ count. count == 0) counts.now }
{
    counts.iter().all(|count| *count == 0)
}

/// Whether a play tells nothing of who isn't in a match of so many players.
pub(crate) fn is_inside(players: usize, play: &Play) -> bool
    requires { players ≤ PLAYER_LIMIT }
    ensures { result ≡ is_inside players (turn play.now) }
{
    let head = &play.head;
    none_gone(&head.view.gone)
        && head.settled.is_none()
        && all_empty(&head.offers[players..])
        && all_zero(&head.view.has[players..])
}

/// Whether a play tells rows of so many players.
pub(crate) fn are_rows(players: usize, play: &Play) -> bool
    requires { players ≤ PLAYER_LIMIT }
    ensures { result ≡ are_rows players (turn play.now) }
{
    is_inside(players, play) && is_said_once(&play.head.offers[..players])
}

/// Takes in the rows that a viewer lacks, until no more may wait, and says how many.
pub(crate) fn take_rows(queue: &mut RowQueue, players: usize, play: &Play) -> u32
    requires { players ≤ PLAYER_LIMIT }
    ensures { AreTaken players (turn play.now) queue.old queue.new result }
{
    let offers = &play.head.offers[..players];
    let from = queue.count().saturating_sub(first_row(play));
    let end = row_count(offers);
    for index in from..end {
        if !queue.push(row_in(offers, &play.words, index as usize)) {
            return index - from;
        }
    }
    end.saturating_sub(from)
}
