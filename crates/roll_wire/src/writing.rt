//! Datagrams to bytes.
ghost use Rattle.std.specs.Prelude.{◌≡◌, ℕ, ◌+◌, ◌*◌, ◌<◌, ◌≤◌, ◌^◌, slice_index, ◌++◌, length, map, drop, true, false, is_some, IfSome, IfNone};
ghost use Rattle.std.specs.List.{AllByRecursion, flat_map};
ghost use Rattle.roll_wire.specs.Spelling.{Fits, IsByte, IsClocks, IsContent, IsHead, IsHello, IsMark, IsMarked, IsNewcomer, IsNumber, IsOffer, IsSettled, IsTurn, are_offers, are_spelled, body, byte, clocks, content, count_of, digits, digits_limit, envelope, flag, has_players, head, hello, is_counted, is_offer, is_offered, is_spelled, is_turn, is_whole, mark, marked, marks, mask, masked, message, newcomer, number, offer, optional, pending, present, repeats, rest_of, runs, settled, short, spelling, turn, view, within};
ghost use Rattle.roll_wire.specs.declared.limits.TheConstants.{DATAGRAM_LIMIT, WORD_LIMIT};
ghost use Rattle.roll_mesh.specs.declared.limits.TheConstants.{MACHINE_LIMIT, PLAYER_LIMIT};

use crate::bytes::{mask_of, put_byte, put_envelope, put_u32, put_u64};
use crate::datagram::{Body, Clocks, Datagram, Head, Hello, Mark, Marked, Newcomer, Play, Settled};
use crate::limits::{DATAGRAM_LIMIT, MAGIC, WORD_LIMIT};
use crate::reading::{count_of, has_any};
use arrayvec::ArrayVec;
use roll_mesh::{MACHINE_LIMIT, Offer, PLAYER_LIMIT, View};

type Bytes = ArrayVec<u8, DATAGRAM_LIMIT>;

/// A number in one byte, and so many more at most.
#[tactic(auto, unfolding(crate::specs::Spelling::digits, crate::specs::Spelling::digits_limit))]
fn put_digits(out: &mut Bytes, more: u8, n: u32)
    requires fits { n < digits_limit more }
    requires room { length out.old.items + (more + 1) ≤ DATAGRAM_LIMIT }
    ensures items { out.new.items ≡ out.old.items ++ digits more n }
    ensures len { length out.new.items ≤ length out.old.items + (more + 1) }
{
    if n < 128 {
        out.push(n as u8);
        return;
    }
    out.push(128 + (n % 128) as u8);
    put_digits(out, more - 1, n / 128);
}

fn put_short(out: &mut Bytes, n: u32)
    requires { length out.old.items + 5 ≤ DATAGRAM_LIMIT }
    ensures items { out.new.items ≡ out.old.items ++ short n }
    ensures len { length out.new.items ≤ length out.old.items + 5 }
    ensures fits { IsNumber n }
{
    put_digits(out, 4, n);
}

fn put_mask(out: &mut Bytes, places: &[bool; PLAYER_LIMIT])
    requires { length out.old.items + 1 ≤ DATAGRAM_LIMIT }
    ensures items { out.new.items ≡ out.old.items ++ byte (mask places.now) }
    ensures len { length out.new.items ≡ length out.old.items + 1 }
    ensures all { length places.now ≡ PLAYER_LIMIT }
{
    out.push(mask_of(places.as_slice()));
}

fn put_clocks(out: &mut Bytes, c: &Clocks)
    requires { length out.old.items + 25 ≤ DATAGRAM_LIMIT }
    ensures items { out.new.items ≡ out.old.items ++ clocks c.now }
    ensures len { length out.new.items ≤ length out.old.items + 25 }
    ensures fits { IsClocks c.now }
{
    put_short(out, c.frame);
    put_short(out, c.heard_frame);
    put_short(out, c.clock);
    put_short(out, c.heard_clock);
    put_short(out, c.held);
}

fn put_optional_clocks(out: &mut Bytes, c: &Option<Clocks>)
    requires { length out.old.items + 26 ≤ DATAGRAM_LIMIT }
    ensures items { out.new.items ≡ out.old.items ++ optional clocks c.now }
    ensures len { length out.new.items ≤ length out.old.items + 26 }
    ensures fits { IfSome c.now IsClocks }
{
    match c {
        None => put_flag(out, false),
        Some(c) => {
            put_flag(out, true);
            put_clocks(out, c);
        }
    }
}

fn put_settled(out: &mut Bytes, s: &Settled)
    requires { length out.old.items + 13 ≤ DATAGRAM_LIMIT }
    ensures items { out.new.items ≡ out.old.items ++ settled s.now }
    ensures len { length out.new.items ≤ length out.old.items + 13 }
    ensures fits { IsSettled s.now }
{
    put_short(out, s.frame);
    put_u64(out, s.digest);
}

fn put_optional_settled(out: &mut Bytes, s: &Option<Settled>)
    requires { length out.old.items + 14 ≤ DATAGRAM_LIMIT }
    ensures items { out.new.items ≡ out.old.items ++ optional settled s.now }
    ensures len { length out.new.items ≤ length out.old.items + 14 }
    ensures fits { IfSome s.now IsSettled }
{
    match s {
        None => put_flag(out, false),
        Some(s) => {
            put_flag(out, true);
            put_settled(out, s);
        }
    }
}

/// A player's number of words, if there are any.
fn put_player_has(out: &mut Bytes, n: u32)
    requires { length out.old.items + 5 ≤ DATAGRAM_LIMIT }
    ensures items { out.new.items ≡ out.old.items ++ present is_counted short n }
    ensures len { length out.new.items ≤ length out.old.items + 5 }
    ensures fits { IsNumber n }
{
    if n != 0 {
        put_short(out, n);
    }
}

fn put_offer(out: &mut Bytes, o: &Offer)
    requires fits { is_offer o.now ≡ true }
    requires room { length out.old.items + 6 ≤ DATAGRAM_LIMIT }
    ensures items { out.new.items ≡ out.old.items ++ offer o.now }
    ensures len { length out.new.items ≤ length out.old.items + 6 }
    ensures fits { IsOffer o.now }
{
    put_short(out, o.first);
    put_byte(out, (o.end - o.first) as u8);
}

/// A player's offer, if it isn't (0, 0).
fn put_player_offer(out: &mut Bytes, o: &Offer)
    requires fits { is_offer o.now ≡ true }
    requires room { length out.old.items + 6 ≤ DATAGRAM_LIMIT }
    ensures items { out.new.items ≡ out.old.items ++ present is_offered offer o.now }
    ensures len { length out.new.items ≤ length out.old.items + 6 }
    ensures fits { IsOffer o.now }
{
    if o.end != 0 {
        put_offer(out, o);
    }
}

fn put_flag(out: &mut Bytes, is_set: bool)
    requires { length out.old.items + 1 ≤ DATAGRAM_LIMIT }
    ensures items { out.new.items ≡ out.old.items ++ flag is_set }
    ensures len { length out.new.items ≡ length out.old.items + 1 }
{
    out.push(if is_set { 1 } else { 0 });
}

/// How often the words begin with the one before them.
fn repeats(before: u32, words: &[u32]) -> u8
    requires { length words.now ≤ WORD_LIMIT }
    ensures { result ≡ repeats before words.now }
{
    let mut count = 0;
    for word in words {
        if *word != before {
            return count;
        }
        count += 1;
    }
    count
}

/// Whether there are words of each player.
fn counted(has: &[u32; PLAYER_LIMIT]) -> [bool; PLAYER_LIMIT]
    ensures { result ≡ map is_counted has.now }
{
    let mut places = [false; PLAYER_LIMIT];
    for player in 0..PLAYER_LIMIT {
        places[player] = has[player] != 0;
    }
    places
}

fn put_has(out: &mut Bytes, has: &[u32; PLAYER_LIMIT])
    requires { length out.old.items + 41 ≤ DATAGRAM_LIMIT }
    ensures items { out.new.items ≡ out.old.items ++ masked is_counted short has.now }
    ensures len { length out.new.items ≤ length out.old.items + 41 }
    ensures fits { (length has.now ≡ PLAYER_LIMIT) × AllByRecursion IsNumber has.now }
{
    put_mask(out, &counted(has));
    for n in has {
        put_player_has(out, *n);
    }
}

/// Whether each player's offer isn't (0, 0).
fn offered(offers: &[Offer; PLAYER_LIMIT]) -> [bool; PLAYER_LIMIT]
    ensures { result ≡ map is_offered offers.now }
{
    let mut places = [false; PLAYER_LIMIT];
    for player in 0..PLAYER_LIMIT {
        places[player] = offers[player].end != 0;
    }
    places
}

fn put_offers(out: &mut Bytes, offers: &[Offer; PLAYER_LIMIT])
    requires each { are_offers offers.now ≡ true }
    requires room { length out.old.items + 49 ≤ DATAGRAM_LIMIT }
    ensures items { out.new.items ≡ out.old.items ++ masked is_offered offer offers.now }
    ensures len { length out.new.items ≤ length out.old.items + 49 }
    ensures fits { (length offers.now ≡ PLAYER_LIMIT) × AllByRecursion IsOffer offers.now }
{
    put_mask(out, &offered(offers));
    for o in offers {
        put_player_offer(out, o);
    }
}

fn put_view(out: &mut Bytes, v: &View)
    requires { length out.old.items + 42 ≤ DATAGRAM_LIMIT }
    ensures items { out.new.items ≡ out.old.items ++ view v.now }
    ensures len { length out.new.items ≤ length out.old.items + 42 }
    ensures gone { length v.now.gone ≡ MACHINE_LIMIT }
    ensures has { (length v.now.has ≡ PLAYER_LIMIT) × AllByRecursion IsNumber v.now.has }
{
    put_mask(out, &v.gone);
    put_has(out, &v.has);
}

fn put_head(out: &mut Bytes, h: &Head)
    requires offers { are_offers h.now.offers ≡ true }
    requires room { length out.old.items + 136 ≤ DATAGRAM_LIMIT }
    ensures items { out.new.items ≡ out.old.items ++ head h.now }
    ensures len { length out.new.items ≤ length out.old.items + 136 }
    ensures fits { IsHead h.now }
{
    put_short(out, h.number);
    put_optional_clocks(out, &h.clocks);
    put_view(out, &h.view);
    put_optional_settled(out, &h.settled);
    put_offers(out, &h.offers);
}

fn put_owners(out: &mut Bytes, owners: &[u8; PLAYER_LIMIT])
    requires { length out.old.items + 8 ≤ DATAGRAM_LIMIT }
    ensures items { out.new.items ≡ out.old.items ++ flat_map byte owners.now }
    ensures len { length out.new.items ≡ length out.old.items + 8 }
    ensures fits { (length owners.now ≡ PLAYER_LIMIT) × AllByRecursion IsByte owners.now }
{
    for owner in owners {
        put_byte(out, *owner);
    }
}

fn put_hello(out: &mut Bytes, h: &Hello)
    requires { length out.old.items + 47 ≤ DATAGRAM_LIMIT }
    ensures items { out.new.items ≡ out.old.items ++ hello h.now }
    ensures fits { IsHello h.now }
{
    put_byte(out, h.machines);
    put_byte(out, h.words);
    put_owners(out, &h.owners);
    put_u64(out, h.settings);
    put_u64(out, h.opening);
    put_u64(out, h.draw);
    put_u64(out, h.echo);
    put_u32(out, h.patience);
    put_byte(out, h.abilities);
}

/// Who comes, and for which players.
fn put_newcomer(out: &mut Bytes, n: &Option<Newcomer>)
    requires { length out.old.items + 9 ≤ DATAGRAM_LIMIT }
    ensures items { out.new.items ≡ out.old.items ++ newcomer n.now }
    ensures len { length out.new.items ≤ length out.old.items + 9 }
    ensures fits { has_players n.now ≡ true → IfSome n.now IsNewcomer }
{
    match n {
        None => put_byte(out, 0),
        Some(n) => {
            put_mask(out, &n.players);
            put_u64(out, n.ticket);
        }
    }
}

/// A player's new delay, if it is to have one.
fn put_player_delay(out: &mut Bytes, d: Option<u8>)
    requires { length out.old.items + 1 ≤ DATAGRAM_LIMIT }
    ensures items { out.new.items ≡ out.old.items ++ present is_some (within byte) d }
    ensures len { length out.new.items ≤ length out.old.items + 1 }
    ensures fits { IfSome d IsByte }
{
    if let Some(d) = d {
        put_byte(out, d);
    }
}

/// Whether each player is to have another delay.
fn delayed(delays: &[Option<u8>; PLAYER_LIMIT]) -> [bool; PLAYER_LIMIT]
    ensures { result ≡ map is_some delays.now }
{
    let mut places = [false; PLAYER_LIMIT];
    for player in 0..PLAYER_LIMIT {
        places[player] = delays[player].is_some();
    }
    places
}

fn put_delays(out: &mut Bytes, delays: &[Option<u8>; PLAYER_LIMIT])
    requires { length out.old.items + 9 ≤ DATAGRAM_LIMIT }
    ensures items { out.new.items ≡ out.old.items ++ masked is_some (within byte) delays.now }
    ensures len { length out.new.items ≤ length out.old.items + 9 }
    ensures fits { (length delays.now ≡ PLAYER_LIMIT)
        × AllByRecursion (λ d. IfSome d IsByte) delays.now }
{
    put_mask(out, &delayed(delays));
    for d in delays {
        put_player_delay(out, *d);
    }
}

fn put_mark(out: &mut Bytes, m: &Mark)
    requires { length out.old.items + 19 ≤ DATAGRAM_LIMIT }
    ensures items { out.new.items ≡ out.old.items ++ mark m.now }
    ensures len { length out.new.items ≤ length out.old.items + 19 }
    ensures fits { has_players m.now.newcomer ≡ true → IsMark m.now }
{
    put_newcomer(out, &m.newcomer);
    put_delays(out, &m.delays);
    put_byte(out, m.threshold);
}

fn put_marked(out: &mut Bytes, m: &Marked)
    requires { length out.old.items + 24 ≤ DATAGRAM_LIMIT }
    ensures items { out.new.items ≡ out.old.items ++ marked m.now }
    ensures len { length out.new.items ≤ length out.old.items + 24 }
    ensures fits { has_players m.now.mark.newcomer ≡ true → IsMarked m.now }
{
    put_short(out, m.frame);
    put_mark(out, &m.mark);
}

/// The mark of a player's word, if it has one.
fn put_player_mark(out: &mut Bytes, m: &Option<Marked>)
    requires spelled { is_spelled m.now ≡ true }
    requires room { length out.old.items + 24 ≤ DATAGRAM_LIMIT }
    ensures items { out.new.items ≡ out.old.items ++ present is_some (within marked) m.now }
    ensures len { length out.new.items ≤ length out.old.items + 24 }
    ensures fits { IfSome m.now IsMarked }
{
    if let Some(m) = m {
        put_marked(out, m);
    }
}

/// Whether a word of each player has a mark.
fn has_marks(marks: &[Option<Marked>; PLAYER_LIMIT]) -> [bool; PLAYER_LIMIT]
    ensures { result ≡ map is_some marks.now }
{
    let mut places = [false; PLAYER_LIMIT];
    for player in 0..PLAYER_LIMIT {
        places[player] = marks[player].is_some();
    }
    places
}

fn put_marks(out: &mut Bytes, ms: &[Option<Marked>; PLAYER_LIMIT])
    requires spelled { are_spelled ms.now ≡ true }
    requires room { length out.old.items + 193 ≤ DATAGRAM_LIMIT }
    ensures items { out.new.items ≡ out.old.items ++ marks ms.now }
    ensures len { length out.new.items ≤ length out.old.items + 193 }
    ensures fits { (length ms.now ≡ PLAYER_LIMIT)
        × AllByRecursion (λ m. IfSome m IsMarked) ms.now }
{
    put_mask(out, &has_marks(ms));
    for m in ms {
        put_player_mark(out, m);
    }
}

/// The length of the run that the words begin with, unless it stands already.
fn put_lead(out: &mut Bytes, inside: bool, before: u32, words: &[u32])
    requires some { 1 ≤ length words.now }
    requires few { length words.now ≤ WORD_LIMIT }
    requires room { length out.old.items + 1 ≤ DATAGRAM_LIMIT }
    ensures items { out.new.items ++ rest_of before words.now
        ≡ out.old.items ++ pending inside before words.now }
    ensures len { length out.new.items ≤ length out.old.items + 1 }
{
    if !inside {
        out.push(repeats(before, words));
    }
}

/// The first of the words: the word before the next one, and whether that is in the middle of a
/// run.
fn put_word(out: &mut Bytes, inside: bool, before: u32, words: &[u32]) -> (u32, bool)
    requires some { 1 ≤ length words.now }
    requires few { length words.now ≤ WORD_LIMIT }
    requires room { length out.old.items + 6 ≤ DATAGRAM_LIMIT }
    ensures items { out.new.items ++ pending result.1 result.0 (drop 1 words.now)
        ≡ out.old.items ++ pending inside before words.now }
    ensures len { length out.new.items ≤ length out.old.items + 6 }
{
    put_lead(out, inside, before, words);
    let word = words[0];
    if word == before {
        return (before, true);
    }
    put_short(out, word);
    (word, false)
}

fn put_words(out: &mut Bytes, words: &[u32])
    requires few { length words.now ≤ WORD_LIMIT }
    requires room { length out.old.items + 6 * length words.now ≤ DATAGRAM_LIMIT }
    ensures items { out.new.items ≡ out.old.items ++ runs words.now }
    ensures fits { (i : ℕ) → slice_index words.now i < 2 ^ 32 }
{
    let mut before = 0;
    let mut inside = false;
    for place in 0..words.len() {
        let (word, within) = put_word(out, inside, before, &words[place..]);
        before = word;
        inside = within;
    }
}

fn put_play(out: &mut Bytes, play: &Play)
    requires whole { is_turn (turn play.now) ≡ true }
    requires room { length out.old.items + (329 + 6 * WORD_LIMIT) ≤ DATAGRAM_LIMIT }
    ensures items { out.new.items ≡ out.old.items
        ++ (head play.now.head ++ (marks play.now.marks ++ runs play.now.words.items)) }
    ensures fits { IsTurn (turn play.now) }
{
    put_head(out, &play.head);
    put_marks(out, &play.marks);
    put_words(out, play.words.as_slice());
}

fn put_body(out: &mut Bytes, b: &Body)
    requires whole { is_whole (content b.now) ≡ true }
    requires room { length out.old.items + (330 + 6 * WORD_LIMIT) ≤ DATAGRAM_LIMIT }
    ensures items { out.new.items ≡ out.old.items ++ body (content b.now) }
    ensures fits { IsContent (content b.now) }
{
    match b {
        Body::Hello(hello) => {
            put_byte(out, 0);
            put_hello(out, hello);
        }
        Body::Play(play) => {
            put_byte(out, 1);
            put_play(out, play);
        }
        Body::Bye { why } => {
            put_byte(out, 2);
            put_byte(out, *why);
        }
    }
}

/// Whether a turn's offers are in order, as many words are offered as there are, and its marks have a spelling.
fn is_turn(play: &Play) -> bool
    ensures { result ≡ is_turn (turn play.now) }
{
    are_offers(&play.head.offers)
        && count_of(&play.head.offers) == play.words.len()
        && are_spelled(&play.marks)
}

/// Whether somebody who comes is to own a player; so it is too if nobody comes.
pub fn has_players(n: &Option<Newcomer>) -> bool
    ensures { result ≡ has_players n.now }
{
    match n {
        None => true,
        Some(n) => has_any(&n.players),
    }
}

/// Whether a mark's newcomer is.
fn is_spelled(m: &Option<Marked>) -> bool
    ensures { result ≡ is_spelled m.now }
{
    match m {
        None => true,
        Some(m) => has_players(&m.mark.newcomer),
    }
}

fn are_spelled(ms: &[Option<Marked>; PLAYER_LIMIT]) -> bool
    ensures { result ≡ are_spelled ms.now }
{
    for m in ms {
        if !is_spelled(m) {
            return false;
        }
    }
    true
}

/// The spelling of a mark, but for its word's frame: what the number of the next epoch is made of.
pub fn spell_mark(m: &Mark) -> ArrayVec<u8, DATAGRAM_LIMIT>
    ensures { result.items ≡ mark m.now }
{
    let mut out = ArrayVec::new();
    put_mark(&mut out, m);
    out
}

fn is_whole(b: &Body) -> bool
    ensures { result ≡ is_whole (content b.now) }
{
    match b {
        Body::Play(play) => is_turn(play),
        Body::Hello(_) | Body::Bye { .. } => true,
    }
}

/// Whether an offer doesn't end before it begins, and a byte counts its words.
fn is_offer(o: &Offer) -> bool
    ensures { result ≡ is_offer o.now }
{
    o.first <= o.end && o.end - o.first < 256
}

fn are_offers(offers: &[Offer; PLAYER_LIMIT]) -> bool
    ensures { result ≡ are_offers offers.now }
{
    for o in offers {
        if !is_offer(o) {
            return false;
        }
    }
    true
}

/// The one spelling of a datagram, 1,200 bytes at most: the greatest has 1,183. None if it has none: if it is a turn
/// that has another number of words than it offers, that offers words that end before they begin, or that has a mark by which somebody
/// is to come who is to own no player.
pub fn encode(datagram: &Datagram) -> Option<ArrayVec<u8, DATAGRAM_LIMIT>>
    ensures spelled { IfSome result (λ bytes. Fits (message datagram.now)
        × (bytes.items ≡ spelling (message datagram.now))) }
    ensures none { IfNone result (Fits (message datagram.now) → ⊥) }
    ensures part { IfNone result (is_whole (content datagram.now.body) ≡ false) }
{
    if !is_whole(&datagram.body) {
        return None;
    }
    let mut out = ArrayVec::new();
    put_u32(&mut out, MAGIC);
    put_envelope(&mut out, &datagram.envelope);
    put_body(&mut out, &datagram.body);
    Some(out)
}
