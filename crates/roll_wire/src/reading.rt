//! Bytes to datagrams.
ghost use Rattle.std.specs.Prelude.{◌≡◌, ◌<◌, ◌≤◌, is_none, None, Ok, IfOk};
ghost use Rattle.std.specs.List.{list_all, list_any};
ghost use Rattle.roll_mesh.specs.declared.limits.TheConstants.{PLAYER_LIMIT};
ghost use Rattle.roll_mesh.specs.declared.packet.Offer.{Offer};
ghost use Rattle.roll_wire.specs.Spelling.{Fits, Message, content, count_of, digits_limit, message, spelling, turn};
ghost use Rattle.roll_wire.specs.Reading.{Gives, all_of, byte_at, clocks_at, content_at, counted_at, digits_at, flag_at, head_at, hello_at, is_over, is_unmarked, mark_at, marked_at, marks_at, mask_at, masked_at, newcomer_at, no_offer, offer_at, optional_at, place_at, repeated, run_at, settled_at, short_at, turn_at, unmarked_of, view_at, within_at, word_at, words_at};
ghost use Rattle.roll_wire.specs.declared.limits.TheConstants.{WORD_LIMIT};

use crate::bytes::{bits_of, byte_of, envelope_of, magic_of, u32_at, u64_at};
use crate::datagram::{Body, Clocks, Datagram, Head, Hello, Mark, Marked, Newcomer, Play, Settled};
use crate::fault::WireFault;
use crate::limits::WORD_LIMIT;
use arrayvec::ArrayVec;
use roll_mesh::{Offer, PLAYER_LIMIT, View};

#[tactic(auto, unfolding(crate::specs::Reading::flag_at))]
fn flag_of(bytes: &[u8]) -> Result<(bool, &[u8]), WireFault>
    ensures { Gives (λ x. (x.0, x.1.now)) result (flag_at bytes.now) }
{
    match bytes {
        [] => Err(WireFault::Short),
        [0, rest @ ..] => Ok((false, rest)),
        [1, rest @ ..] => Ok((true, rest)),
        [_, ..] => Err(WireFault::Flag),
    }
}

/// A number in one byte, and so many more at most.
#[tactic(auto, unfolding(crate::specs::Reading::digits_at, crate::specs::Spelling::digits_limit))]
fn digits_of(more: u8, bytes: &[u8]) -> Result<(u32, &[u8]), WireFault>
    requires { more ≤ 4 }
    ensures gives { Gives (λ x. (x.0, x.1.now)) result (digits_at more bytes.now) }
    ensures below { IfOk result (λ x. x.0 < digits_limit more) }
{
    let (byte, rest) = byte_of(bytes)?;
    if more == 0 {
        return if byte < 16 {
            Ok((u32::from(byte), rest))
        } else {
            Err(WireFault::Long)
        };
    }
    if byte < 128 {
        return Ok((u32::from(byte), rest));
    }
    let (higher, rest) = digits_of(more - 1, rest)?;
    if higher == 0 {
        return Err(WireFault::Long);
    }
    Ok((u32::from(byte) - 128 + 128 * higher, rest))
}

fn short_of(bytes: &[u8]) -> Result<(u32, &[u8]), WireFault>
    ensures { Gives (λ x. (x.0, x.1.now)) result (short_at bytes.now) }
{
    digits_of(4, bytes)
}

#[tactic(auto, unfolding(crate::specs::Reading::mask_at))]
fn mask_of(bytes: &[u8]) -> Result<([bool; PLAYER_LIMIT], &[u8]), WireFault>
    ensures { Gives (λ x. (x.0, x.1.now)) result (mask_at bytes.now) }
{
    let (mask, rest) = byte_of(bytes)?;
    Ok((bits_of(mask), rest))
}

#[tactic(auto, unfolding(crate::specs::Reading::clocks_at))]
fn clocks_of(bytes: &[u8]) -> Result<(Clocks, &[u8]), WireFault>
    ensures { Gives (λ x. (x.0, x.1.now)) result (clocks_at bytes.now) }
{
    let (frame, rest) = short_of(bytes)?;
    let (heard_frame, rest) = short_of(rest)?;
    let (clock, rest) = short_of(rest)?;
    let (heard_clock, rest) = short_of(rest)?;
    let (held, rest) = short_of(rest)?;
    let clocks = Clocks {
        frame,
        heard_frame,
        clock,
        heard_clock,
        held,
    };
    Ok((clocks, rest))
}

#[tactic(auto, unfolding(crate::specs::Reading::optional_at))]
fn optional_clocks_of(bytes: &[u8]) -> Result<(Option<Clocks>, &[u8]), WireFault>
    ensures { Gives (λ x. (x.0, x.1.now)) result (optional_at clocks_at bytes.now) }
{
    let (is_there, rest) = flag_of(bytes)?;
    if !is_there {
        return Ok((None, rest));
    }
    let (clocks, rest) = clocks_of(rest)?;
    Ok((Some(clocks), rest))
}

#[tactic(auto, unfolding(crate::specs::Reading::settled_at))]
fn settled_of(bytes: &[u8]) -> Result<(Settled, &[u8]), WireFault>
    ensures { Gives (λ x. (x.0, x.1.now)) result (settled_at bytes.now) }
{
    let (frame, rest) = short_of(bytes)?;
    let (digest, rest) = u64_at(rest)?;
    Ok((Settled { frame, digest }, rest))
}

#[tactic(auto, unfolding(crate::specs::Reading::optional_at))]
fn optional_settled_of(bytes: &[u8]) -> Result<(Option<Settled>, &[u8]), WireFault>
    ensures { Gives (λ x. (x.0, x.1.now)) result (optional_at settled_at bytes.now) }
{
    let (is_there, rest) = flag_of(bytes)?;
    if !is_there {
        return Ok((None, rest));
    }
    let (settled, rest) = settled_of(rest)?;
    Ok((Some(settled), rest))
}

#[tactic(auto, unfolding(crate::specs::Reading::counted_at))]
fn counted_of(bytes: &[u8]) -> Result<(u32, &[u8]), WireFault>
    ensures { Gives (λ x. (x.0, x.1.now)) result (counted_at bytes.now) }
{
    let (count, rest) = short_of(bytes)?;
    if count == 0 {
        return Err(WireFault::Zero);
    }
    Ok((count, rest))
}

/// A player's number of words: 0 if it isn't there.
fn player_has_of(is_there: bool, bytes: &[u8]) -> Result<(u32, &[u8]), WireFault>
    ensures { Gives (λ x. (x.0, x.1.now)) result (place_at 0 counted_at is_there bytes.now) }
{
    if !is_there {
        return Ok((0, bytes));
    }
    counted_of(bytes)
}

#[tactic(auto, unfolding(crate::specs::Reading::offer_at))]
fn offer_of(bytes: &[u8]) -> Result<(Offer, &[u8]), WireFault>
    ensures { Gives (λ x. (x.0, x.1.now)) result (offer_at bytes.now) }
{
    let (first, rest) = short_of(bytes)?;
    let (count, rest) = byte_of(rest)?;
    let Some(end) = first.checked_add(u32::from(count)) else {
        return Err(WireFault::TooFar);
    };
    if end == 0 {
        return Err(WireFault::Zero);
    }
    Ok((Offer { first, end }, rest))
}

/// A player's offer: of no words if it isn't there.
fn player_offer_of(is_there: bool, bytes: &[u8]) -> Result<(Offer, &[u8]), WireFault>
    ensures { Gives (λ x. (x.0, x.1.now)) result (place_at no_offer offer_at is_there bytes.now) }
{
    if !is_there {
        return Ok((Offer { first: 0, end: 0 }, bytes));
    }
    offer_of(bytes)
}

#[tactic(auto, unfolding(crate::specs::Reading::run_at))]
fn run_of(run: Option<u8>, bytes: &[u8]) -> Result<(u8, &[u8]), WireFault>
    ensures { Gives (λ x. (x.0, x.1.now)) result (run_at run bytes.now) }
{
    match run {
        None => byte_of(bytes),
        Some(run) => Ok((run, bytes)),
    }
}

#[tactic(auto, unfolding(crate::specs::Reading::word_at))]
fn word_of(before: u32, run: u8, bytes: &[u8]) -> Result<(u32, Option<u8>, &[u8]), WireFault>
    ensures { Gives (λ x. (x.0, x.1, x.2.now)) result (word_at before run bytes.now) }
{
    if run > 0 {
        return Ok((before, Some(run - 1), bytes));
    }
    let (word, rest) = short_of(bytes)?;
    if word == before {
        return Err(WireFault::Run);
    }
    Ok((word, None, rest))
}

#[tactic(auto, unfolding(crate::specs::Reading::is_over))]
fn is_over(run: Option<u8>) -> bool
    ensures { result ≡ is_over run }
{
    match run {
        None => true,
        Some(left) => left == 0,
    }
}

#[tactic(auto, unfolding(crate::specs::Reading::masked_at))]
fn has_of(bytes: &[u8]) -> Result<([u32; PLAYER_LIMIT], &[u8]), WireFault>
    ensures { Gives (λ x. (x.0, x.1.now)) result (masked_at 0 counted_at bytes.now) }
{
    let (places, mut rest) = mask_of(bytes)?;
    let mut has = [0; PLAYER_LIMIT];
    for player in 0..PLAYER_LIMIT {
        let (count, after) = player_has_of(places[player], rest)?;
        has[player] = count;
        rest = after;
    }
    Ok((has, rest))
}

#[tactic(auto, unfolding(crate::specs::Reading::masked_at))]
fn offers_of(bytes: &[u8]) -> Result<([Offer; PLAYER_LIMIT], &[u8]), WireFault>
    ensures { Gives (λ x. (x.0, x.1.now)) result (masked_at no_offer offer_at bytes.now) }
{
    let (places, mut rest) = mask_of(bytes)?;
    let mut offers = [Offer { first: 0, end: 0 }; PLAYER_LIMIT];
    for player in 0..PLAYER_LIMIT {
        let (offer, after) = player_offer_of(places[player], rest)?;
        offers[player] = offer;
        rest = after;
    }
    Ok((offers, rest))
}

fn owners_of(bytes: &[u8]) -> Result<([u8; PLAYER_LIMIT], &[u8]), WireFault>
    ensures { Gives (λ x. (x.0, x.1.now)) result (repeated byte_at PLAYER_LIMIT bytes.now) }
{
    let mut owners = [0; PLAYER_LIMIT];
    let mut rest = bytes;
    for player in 0..PLAYER_LIMIT {
        let (owner, after) = byte_of(rest)?;
        owners[player] = owner;
        rest = after;
    }
    Ok((owners, rest))
}

#[tactic(auto, unfolding(crate::specs::Reading::hello_at))]
fn hello_of(bytes: &[u8]) -> Result<(Hello, &[u8]), WireFault>
    ensures { Gives (λ x. (x.0, x.1.now)) result (hello_at bytes.now) }
{
    let (machines, rest) = byte_of(bytes)?;
    let (words, rest) = byte_of(rest)?;
    let (owners, rest) = owners_of(rest)?;
    let (settings, rest) = u64_at(rest)?;
    let (opening, rest) = u64_at(rest)?;
    let (draw, rest) = u64_at(rest)?;
    let (echo, rest) = u64_at(rest)?;
    let (patience, rest) = u32_at(rest)?;
    let (abilities, rest) = byte_of(rest)?;
    let hello = Hello {
        machines,
        words,
        owners,
        settings,
        opening,
        draw,
        echo,
        patience,
        abilities,
    };
    Ok((hello, rest))
}

#[tactic(auto, unfolding(crate::specs::Reading::view_at))]
fn view_of(bytes: &[u8]) -> Result<(View, &[u8]), WireFault>
    ensures { Gives (λ x. (x.0, x.1.now)) result (view_at bytes.now) }
{
    let (gone, rest) = mask_of(bytes)?;
    let (has, rest) = has_of(rest)?;
    Ok((View { gone, has }, rest))
}

#[tactic(auto, unfolding(crate::specs::Reading::head_at))]
fn head_of(bytes: &[u8]) -> Result<(Head, &[u8]), WireFault>
    ensures { Gives (λ x. (x.0, x.1.now)) result (head_at bytes.now) }
{
    let (number, rest) = short_of(bytes)?;
    let (clocks, rest) = optional_clocks_of(rest)?;
    let (view, rest) = view_of(rest)?;
    let (settled, rest) = optional_settled_of(rest)?;
    let (offers, rest) = offers_of(rest)?;
    let head = Head {
        number,
        clocks,
        view,
        settled,
        offers,
    };
    Ok((head, rest))
}

/// How many words are offered.
pub fn count_of(offers: &[Offer; PLAYER_LIMIT]) -> usize
    ensures { result ≡ count_of offers.now }
{
    let mut count = 0;
    for offer in offers {
        count += offer.end.saturating_sub(offer.first) as usize;
    }
    count
}

fn words_of(count: usize, bytes: &[u8]) -> Result<(ArrayVec<u32, WORD_LIMIT>, &[u8]), WireFault>
    requires { count ≤ WORD_LIMIT }
    ensures { Gives (λ x. (x.0.items, x.1.now)) result (words_at count 0 None bytes.now) }
{
    let mut words = ArrayVec::new();
    let mut rest = bytes;
    let mut before = 0;
    let mut run = None;
    for _ in 0..count {
        let (left, behind) = run_of(run, rest)?;
        let (word, next, after) = word_of(before, left, behind)?;
        words.push(word);
        before = word;
        run = next;
        rest = after;
    }
    if !is_over(run) {
        return Err(WireFault::Run);
    }
    Ok((words, rest))
}

#[tactic(auto, unfolding(crate::specs::Reading::newcomer_at))]
fn newcomer_of(bytes: &[u8]) -> Result<(Option<Newcomer>, &[u8]), WireFault>
    ensures { Gives (λ x. (x.0, x.1.now)) result (newcomer_at bytes.now) }
{
    let (players, rest) = mask_of(bytes)?;
    if !has_any(&players) {
        return Ok((None, rest));
    }
    let (ticket, rest) = u64_at(rest)?;
    Ok((Some(Newcomer { players, ticket }), rest))
}

/// Whether one of these is set.
pub(crate) fn has_any(places: &[bool; PLAYER_LIMIT]) -> bool
    ensures { result ≡ list_any (λ b. b) places.now }
{
    places.iter().any(|is_set| *is_set)
}

/// A player's new delay, if its place says that there is one.
#[tactic(auto, unfolding(crate::specs::Reading::within_at))]
fn player_delay_of(is_there: bool, bytes: &[u8]) -> Result<(Option<u8>, &[u8]), WireFault>
    ensures { Gives (λ x. (x.0, x.1.now)) result (place_at None (within_at byte_at) is_there
        bytes.now) }
{
    if !is_there {
        return Ok((None, bytes));
    }
    let (delay, rest) = byte_of(bytes)?;
    Ok((Some(delay), rest))
}

#[tactic(auto, unfolding(crate::specs::Reading::masked_at))]
fn delays_of(bytes: &[u8]) -> Result<([Option<u8>; PLAYER_LIMIT], &[u8]), WireFault>
    ensures { Gives (λ x. (x.0, x.1.now)) result (masked_at None (within_at byte_at) bytes.now) }
{
    let (places, mut rest) = mask_of(bytes)?;
    let mut delays = [None; PLAYER_LIMIT];
    for player in 0..PLAYER_LIMIT {
        let (delay, after) = player_delay_of(places[player], rest)?;
        delays[player] = delay;
        rest = after;
    }
    Ok((delays, rest))
}

#[tactic(auto, unfolding(crate::specs::Reading::mark_at))]
fn mark_of(bytes: &[u8]) -> Result<(Mark, &[u8]), WireFault>
    ensures { Gives (λ x. (x.0, x.1.now)) result (mark_at bytes.now) }
{
    let (newcomer, rest) = newcomer_of(bytes)?;
    let (delays, rest) = delays_of(rest)?;
    let (threshold, rest) = byte_of(rest)?;
    let mark = Mark {
        newcomer,
        delays,
        threshold,
    };
    Ok((mark, rest))
}

#[tactic(auto, unfolding(crate::specs::Reading::marked_at))]
fn marked_of(bytes: &[u8]) -> Result<(Marked, &[u8]), WireFault>
    ensures { Gives (λ x. (x.0, x.1.now)) result (marked_at bytes.now) }
{
    let (frame, rest) = short_of(bytes)?;
    let (mark, rest) = mark_of(rest)?;
    Ok((Marked { frame, mark }, rest))
}

/// The mark of a player's word, if its place says that there is one.
#[tactic(auto, unfolding(crate::specs::Reading::within_at))]
fn player_mark_of(is_there: bool, bytes: &[u8]) -> Result<(Option<Marked>, &[u8]), WireFault>
    ensures { Gives (λ x. (x.0, x.1.now)) result (place_at None (within_at marked_at) is_there
        bytes.now) }
{
    if !is_there {
        return Ok((None, bytes));
    }
    let (marked, rest) = marked_of(bytes)?;
    Ok((Some(marked), rest))
}

#[tactic(auto, unfolding(crate::specs::Reading::masked_at))]
fn marks_of(bytes: &[u8]) -> Result<([Option<Marked>; PLAYER_LIMIT], &[u8]), WireFault>
    ensures { Gives (λ x. (x.0, x.1.now)) result (marks_at bytes.now) }
{
    let (places, mut rest) = mask_of(bytes)?;
    let mut marks = [None; PLAYER_LIMIT];
    for player in 0..PLAYER_LIMIT {
        let (marked, after) = player_mark_of(places[player], rest)?;
        marks[player] = marked;
        rest = after;
    }
    Ok((marks, rest))
}

#[tactic(auto, unfolding(crate::specs::Reading::turn_at))]
fn play_of(bytes: &[u8]) -> Result<(Play, &[u8]), WireFault>
    ensures { Gives (λ x. (turn x.0, x.1.now)) result (turn_at bytes.now) }
{
    let (head, rest) = head_of(bytes)?;
    let count = count_of(&head.offers);
    if count > WORD_LIMIT {
        return Err(WireFault::TooMany);
    }
    let (marks, rest) = marks_of(rest)?;
    let (words, rest) = words_of(count, rest)?;
    let play = Play { head, marks, words };
    Ok((play, rest))
}

#[tactic(auto, unfolding(crate::specs::Reading::content_at))]
fn body_of(bytes: &[u8]) -> Result<(Body, &[u8]), WireFault>
    ensures { Gives (λ x. (content x.0, x.1.now)) result (content_at bytes.now) }
{
    match bytes {
        [] => Err(WireFault::Short),
        [0, rest @ ..] => {
            let (hello, rest) = hello_of(rest)?;
            Ok((Body::Hello(hello), rest))
        }
        [1, rest @ ..] => {
            let (play, rest) = play_of(rest)?;
            Ok((Body::Play(play), rest))
        }
        [2, rest @ ..] => {
            let (why, rest) = byte_of(rest)?;
            Ok((Body::Bye { why }, rest))
        }
        [_, ..] => Err(WireFault::Kind),
    }
}

#[tactic(auto, unfolding(crate::specs::Reading::all_of))]
fn all(bytes: &[u8]) -> Result<Datagram, WireFault>
    ensures { Gives message result (all_of bytes.now) }
{
    let (_magic, rest) = magic_of(bytes)?;
    let (envelope, rest) = envelope_of(rest)?;
    let (body, rest) = body_of(rest)?;
    if !rest.is_empty() {
        return Err(WireFault::Trailing);
    }
    Ok(Datagram { envelope, body })
}

/// The datagram that the bytes spell, all of them.
///
/// # Errors
///
/// The first fault from left to right, if they spell none.
pub fn decode(bytes: &[u8]) -> Result<Datagram, WireFault>
    // What is read is spelled so.
    ensures found { IfOk result (λ d. Fits (message d) × (bytes.now ≡ spelling (message d))) }
    // What is spelled so is read.
    ensures only { (m : Message) → Fits m → bytes.now ≡ spelling m → Gives message result (Ok m) }
    // Which fault it is.
    ensures exact { Gives message result (all_of bytes.now) }
{
    all(bytes)
}

/// The datagram that the bytes spell, if no word in it has a mark: for who can't take marks, and so mustn't take such words.
///
/// # Errors
///
/// The first fault from left to right, if they spell none; else `Mark`, if a word has one.
#[tactic(auto, unfolding(crate::specs::Reading::unmarked_of))]
pub fn decode_unmarked(bytes: &[u8]) -> Result<Datagram, WireFault>
    ensures found { IfOk result (λ d. Fits (message d) × (bytes.now ≡ spelling (message d))) }
    ensures exact { Gives message result (unmarked_of bytes.now) }
{
    let datagram = decode(bytes)?;
    if !is_unmarked(&datagram.body) {
        return Err(WireFault::Mark);
    }
    Ok(datagram)
}

fn is_unmarked(body: &Body) -> bool
    ensures { result ≡ is_unmarked (content body.now) }
{
    match body {
        Body::Play(play) => are_none(&play.marks),
        Body::Hello(_) | Body::Bye { .. } => true,
    }
}

fn are_none(marks: &[Option<Marked>; PLAYER_LIMIT]) -> bool
    ensures { result ≡ list_all is_none marks.now }
{
    marks.iter().all(|marked| marked.is_none())
}
