//! Words that wait for a session: whether they are its next ones, and how it is told them.
ghost use Rattle.std.specs.Prelude.{◌≡◌, ℕ, ◌+◌, ◌≤◌, [], true, IfErr, OnErr, OnOk, length, slice_get};
ghost use Rattle.roll_session.specs.Changes.{reserve_refusal, FitsLog, IsWhy};
ghost use Rattle.roll_relay.specs.Told.{are_next, is_next, roomier, told, words_among, Fits, IsHeldFault};

use crate::fault::HeldFault;
use crate::held::Waiting;
use roll_frame::QUEUE_LIMIT;
use roll_session::{RemoteWord, Settling, Source};

/// How many of these words are a player's.
pub(crate) fn count_among(words: &[RemoteWord], player: u8) -> usize
    ensures count { result ≡ length (words_among words.now player) }
    ensures few { result ≤ length words.now }
{
    let mut count = 0;
    for word in words {
        if word.player == player {
            count += 1;
        }
    }
    count
}

/// Whether a word is the next one of a remote player who is there, after others that wait, and there is room for it.
pub(crate) fn is_next<S: Settling>(session: &S, before: &[RemoteWord], word: &RemoteWord) -> bool
    ensures { result ≡ is_next (S.seen session.now) before.now word.now }
{
    let Some(count) = session.confirmed(word.player) else {
        return false;
    };
    let waiting = count_among(before, word.player);
    !session.is_local(word.player)
        && session.source(word.player, count) != Some(Source::Gone)
        && u64::from(word.frame) == u64::from(count) + waiting as u64
        && u64::from(word.frame) < u64::from(session.settled()) + QUEUE_LIMIT as u64
}

/// Whether each of these is.
fn are_next<S: Settling>(session: &S, words: &[RemoteWord]) -> bool
    ensures { result ≡ are_next (S.seen session.now) words.now }
{
    for place in 0..words.len() {
        if !is_next(session, &words[..place], &words[place]) {
            return false;
        }
    }
    true
}

/// Makes room in a session for the words that wait, if they are its next ones.
pub(crate) fn make_room<S: Settling>(session: &mut S, words: &Waiting) -> Result<(), HeldFault>
    ensures fits { OnOk result (Fits (S.seen session.new) words.now.items) }
    ensures room { OnOk result (length words.now.items ≤ (S.seen session.new).reserved) }
    ensures made { OnOk result
        (S.seen session.new ≡ roomier (length words.now.items) (S.seen session.old)) }
    ensures log { OnOk result (FitsLog (S.seen session.new) (length words.now.items)) }
    ensures accepted { OnOk result (are_next (S.seen session.old) words.now.items ≡ true) }
    ensures refused { IfErr result (IsHeldFault (S.seen session.old) words.now.items) }
    ensures unchanged { OnErr result (session.new ≡ session.old) }
    ensures untouched { words.now.items ≡ [] → session.new ≡ session.old }
    ensures keeps { S.keeps session.old session.new }
{
    if !are_next(session, words.as_slice()) {
        return Err(HeldFault::OtherSession);
    }
    session.laws();
    if words.is_empty() {
        return Ok(());
    }
    match session.reserve_log(words.len() as u32) {
        Ok(()) => Ok(()),
        Err(why) => Err(HeldFault::Session(why)),
    }
}

/// Tells a session words that it takes.
pub(crate) fn tell<S: Settling>(session: &mut S, words: &[RemoteWord])
    requires fits { Fits (S.seen session.old) words.now }
    requires room { length words.now ≤ (S.seen session.old).reserved }
    ensures told { S.seen session.new ≡ told (S.seen session.old) words.now }
    ensures keeps { S.keeps session.old session.new }
{
    for word in words {
        match session.remote_input(word.player, word.frame, word.word) {
            Ok(_) => {}
            Err(_) => unreachable!(),
        }
    }
}

/// Of a player's words among these, the one at a place.
pub(crate) fn word_among(words: &[RemoteWord], player: u8, place: u32) -> Option<u32>
    ensures { result ≡ slice_get (words_among words.now player) place }
{
    let mut before = 0;
    for word in words {
        if word.player == player {
            if before == place {
                return Some(word.word);
            }
            before += 1;
        }
    }
    None
}
