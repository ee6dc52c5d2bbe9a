//! What a host tells a viewer.
ghost use Rattle.std.specs.Prelude.{◌≡◌, ℕ, ◌+◌, ◌-◌, ◌<◌, ◌≤◌, ◌++◌, length, option_map, true, false, slice_get};
ghost use Rattle.std.specs.Option.{option_map_or};
ghost use Rattle.roll_frame.specs.Core.{settled};
ghost use Rattle.roll_mesh.specs.Machines.{none_offered};
ghost use Rattle.roll_mesh.specs.declared.limits.TheConstants.{PLAYER_LIMIT};
ghost use Rattle.roll_member.specs.Telling.{words_at};
ghost use Rattle.roll_session.specs.Headline.{words_of};
ghost use Rattle.roll_wire.specs.Spelling.{count_of, is_turn, turn};
ghost use Rattle.roll_wire.specs.declared.limits.TheConstants.{WORD_LIMIT};
ghost use Rattle.roll_viewer.specs.Ends.{acknowledged};
ghost use Rattle.roll_viewer.specs.Seeing.{TellsRows};
ghost use Rattle.roll_viewer.specs.Telling.{has_by, has_of, room_after, said_as, said_once, span_of, spans_to, told_to, with_clocks, words_in};

use crate::rows::has_words;
use arrayvec::ArrayVec;
use roll_mesh::{MACHINE_LIMIT, Offer, PLAYER_LIMIT, View};
use roll_session::Settling;
use roll_wire::{Clocks, Head, Play, WORD_LIMIT};

const NONE: Offer = Offer { first: 0, end: 0 };

/// How many rows more are told a viewer who has so many.
pub(crate) fn room_after<S: Settling>(session: &S, had: u32) -> u32
    ensures room { result ≡ room_after (S.seen session.now).core had }
    ensures fits { had + result ≤ u32.MAX }
{
    let players = u32::from(session.players().max(1));
    session
        .settled()
        .saturating_sub(had)
        .min(WORD_LIMIT as u32 / players)
}

/// In how many settled rows the player at a place has a word. None if there is no such player.
fn has_of<S: Settling>(session: &S, place: usize) -> Option<u32>
    requires { place < PLAYER_LIMIT }
    ensures { result ≡ option_map (has_of (settled (S.seen session.now).core))
        (slice_get (S.seen session.now).core.players place) }
{
    session
        .confirmed(place as u8 + 1)
        .map(|count| count.min(session.settled()))
}

/// In how many settled rows each player has a word.
fn counts<S: Settling>(session: &S) -> [u32; PLAYER_LIMIT]
    ensures { result ≡ has_by (S.seen session.now).core }
{
    let mut counts = [0; PLAYER_LIMIT];
    for place in 0..PLAYER_LIMIT {
        counts[place] = has_of(session, place).unwrap_or(0);
    }
    counts
}

/// Where the words of the player at a place stand in so many rows from those on that a viewer has.
fn span_of<S: Settling>(session: &S, place: usize, had: u32, room: u32) -> Offer
    requires { place < PLAYER_LIMIT }
    ensures { result ≡ option_map_or (span_of (settled (S.seen session.now).core) had room)
        (slice_get (S.seen session.now).core.players place) none_offered }
{
    match has_of(session, place) {
        Some(count) => Offer {
            first: had,
            end: count.min(had.saturating_add(room)).max(had),
        },
        None => NONE,
    }
}

/// Each player's words in the rows that are told a viewer.
fn spans_to<S: Settling>(session: &S, had: u32) -> [Offer; PLAYER_LIMIT]
    ensures { result ≡ spans_to (S.seen session.now).core had }
{
    let room = room_after(session, had);
    let mut spans = [NONE; PLAYER_LIMIT];
    for place in 0..PLAYER_LIMIT {
        spans[place] = span_of(session, place, had, room);
    }
    spans
}

/// How a span is said, if its first row was said before or is to be.
fn said_as(is_said: bool, span: Offer) -> Offer
    ensures { result ≡ said_as is_said span }
{
    if !has_words(span) {
        NONE
    } else if is_said {
        Offer {
            first: 0,
            end: span.end.saturating_sub(span.first),
        }
    } else {
        span
    }
}

/// The offers of spans that all begin at one row: the first that has words says it.
fn said_once(spans: &[Offer; PLAYER_LIMIT]) -> [Offer; PLAYER_LIMIT]
    ensures { result ≡ said_once false spans.now }
{
    let mut offers = [NONE; PLAYER_LIMIT];
    let mut is_said = false;
    for place in 0..PLAYER_LIMIT {
        offers[place] = said_as(is_said, spans[place]);
        is_said = is_said || has_words(spans[place]);
    }
    offers
}

/// Adds a player's words of a span.
fn push_words<S: Settling>(
    words: &mut ArrayVec<u32, WORD_LIMIT>,
    session: &S,
    player: u8,
    span: Offer,
)
    requires { length words.old.items + (span.end - span.first) ≤ WORD_LIMIT }
    ensures { words.new.items
        ≡ words.old.items ++ words_at (words_of (S.seen session.now) player) span }
{
    for frame in span.first..span.end {
        if let Some(word) = session.confirmed_word(player, frame) {
            words.push(word);
        }
    }
}

/// The words in these spans.
fn words_in<S: Settling>(session: &S, spans: &[Offer]) -> ArrayVec<u32, WORD_LIMIT>
    requires players { length spans.now ≤ PLAYER_LIMIT }
    requires room { count_of spans.now ≤ WORD_LIMIT }
    ensures { result.items ≡ words_in (S.seen session.now).core.players spans.now }
{
    let mut words = ArrayVec::new();
    for (place, span) in spans.iter().enumerate() {
        push_words(&mut words, session, place as u8 + 1, *span);
    }
    words
}

/// What a host tells a viewer who has so many rows, with a number and clocks.
pub(crate) fn told_to<S: Settling>(
    session: &S,
    had: u32,
    number: u32,
    clocks: Option<Clocks>,
) -> Play
    ensures told { turn result ≡ with_clocks number clocks (told_to (S.seen session.now).core had) }
    ensures whole { is_turn (turn result) ≡ true }
{
    session.laws();
    let spans = spans_to(session, had);
    Play {
        head: Head {
            number,
            clocks,
            view: View {
                gone: [false; MACHINE_LIMIT],
                has: counts(session),
            },
            settled: None,
            offers: said_once(&spans),
        },
        marks: [None; PLAYER_LIMIT],
        words: words_in(session, &spans),
    }
}

/// What a viewer of a match of so many players says, who has so many rows, with a number and clocks.
pub(crate) fn acknowledged(players: usize, rows: u32, number: u32, clocks: Option<Clocks>) -> Play
    requires { players ≤ PLAYER_LIMIT }
    ensures said { turn result ≡ acknowledged players rows number clocks }
    ensures whole { is_turn (turn result) ≡ true }
{
    let mut has = [0; PLAYER_LIMIT];
    for place in 0..players {
        has[place] = rows;
    }
    Play {
        head: Head {
            number,
            clocks,
            view: View {
                gone: [false; MACHINE_LIMIT],
                has,
            },
            settled: None,
            offers: [NONE; PLAYER_LIMIT],
        },
        marks: [None; PLAYER_LIMIT],
        words: ArrayVec::new(),
    }
}

/// What a host tells is its settled rows.
pub(crate) fn tells_rows<S: Settling>(session: &S, had: u32)
    ensures { TellsRows (S.seen session.now).core had }
{
    session.laws();
}
