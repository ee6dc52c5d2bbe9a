//! Words of a packet become remote words of the session.
ghost use Rattle.std.specs.Prelude.{◌≡◌, ℕ, ◌+◌, ◌-◌, ◌*◌, ◌≤◌, ◌<◌, length, slice_index, drop, take, true, false};
ghost use Rattle.roll_member.specs.Joined.{count_of, fewest, is_awaited, known, AreCounts};
ghost use Rattle.roll_member.specs.Taking.{are_full, counted_to, is_first, is_full, news, shares, up_to, words_heard, CanTake, HasRoom, Hearing, IsFair, IsLed, IsTaken, Leads, TakesAll, TakesFirst, TakesPlace, TakesWords};
ghost use Rattle.roll_mesh.specs.declared.limits.TheConstants.{INPUT_LIMIT, PLAYER_LIMIT};
ghost use Rattle.roll_session.specs.Changes.{FitsLog};
ghost use Rattle.roll_session.specs.Headline.{words_of};

use roll_frame::Refusal;
use roll_mesh::{Mesh, Offer, PLAYER_LIMIT, Seat};
use roll_session::Networked;
use roll_wire::{WORD_LIMIT, count_of};

/// How many words of a player were taken, and why no more of them, if not all were.
#[derive(Clone, Copy)]
pub(crate) struct Took {
    count: u32,
    why: Option<Refusal>,
}

/// Takes a player's next words, until the session refuses one.
fn take_words<S: Networked>(session: &mut S, player: u8, first: u32, words: &[u32]) -> Took
    requires room { first + length words.now ≤ u32.MAX }
    requires next { 1 ≤ length words.now → first ≡ length (words_of (S.seen session.old) player) }
    ensures took { TakesWords S.step (S.seen session.old) (S.seen session.new) player first
        words.now result }
    ensures led { IsLed (S.seen session.new) player first result.count }
    ensures keeps { S.keeps session.old session.new }
{
    let mut count = 0;
    for word in words {
        session.laws();
        if let Err(why) = session.remote_input(player, first + count, *word) {
            return Took {
                count,
                why: Some(why),
            };
        }
        count += 1;
    }
    Took { count, why: None }
}

/// Takes words of a player that the session can't refuse.
fn follow_words<S: Networked>(session: &mut S, player: u8, first: u32, words: &[u32])
    requires room { first + length words.now ≤ u32.MAX }
    requires can { CanTake (S.seen session.old) player first (length words.now) }
    ensures taken { IsTaken S.step (S.seen session.old) (S.seen session.new) player first
        words.now }
    ensures keeps { S.keeps session.old session.new }
{
    session.laws();
    let mut count = 0;
    for word in words {
        match session.remote_input(player, first + count, *word) {
            Ok(_) => count += 1,
            Err(_) => unreachable!(),
        }
    }
}

/// For how many of so many frames of an input there is room in the log, and why not for all.
#[derive(Clone, Copy)]
struct Room {
    frames: usize,
    why: Option<Refusal>,
}

/// Makes room in the log for frames of an input of several words: for all of them, as far as a packet has as many, else for one, if there
/// is room for that.
fn make_room<S: Networked>(session: &mut S, input: u8, wanted: usize) -> Room
    requires { input ≤ INPUT_LIMIT }
    ensures roomy { HasRoom input (S.seen session.old) wanted result.frames result.why }
    ensures same { S.seen session.new
        ≡ record (S.seen session.old) { reserved = (S.seen session.new).reserved } }
    ensures alone { input ≡ 1 → (S.seen session.new).reserved ≡ (S.seen session.old).reserved }
    ensures more { (S.seen session.old).reserved ≤ (S.seen session.new).reserved }
    ensures enough { 2 ≤ input → input * result.frames ≤ (S.seen session.new).reserved }
    ensures fits { 2 ≤ input → 1 ≤ result.frames → FitsLog (S.seen session.old)
        (input * result.frames) }
    ensures keeps { S.keeps session.old session.new }
{
    if input < 2 {
        return Room {
            frames: wanted,
            why: None,
        };
    }
    let frames = wanted.min(WORD_LIMIT);
    match session.reserve_log(u32::from(input) * frames as u32) {
        Ok(()) => Room { frames, why: None },
        Err(why) => {
            let one = frames.min(1);
            let frames = match session.reserve_log(u32::from(input) * one as u32) {
                Ok(()) => one,
                Err(_) => 0,
            };
            Room {
                frames,
                why: Some(why),
            }
        }
    }
}

/// Takes the next words of an input's first player, as far as the session takes them, and has room for as many of the input's others.
fn take_first<S: Networked>(
    session: &mut S,
    input: u8,
    player: u8,
    first: u32,
    words: &[u32],
) -> Took
    requires few { input ≤ INPUT_LIMIT }
    requires room { first + length words.now ≤ u32.MAX }
    requires next { 1 ≤ length words.now → first ≡ length (words_of (S.seen session.old) player) }
    ensures took { TakesFirst S.step input (S.seen session.old) (S.seen session.new) player first
        words.now result }
    ensures leads { Leads input (S.seen session.new) player first result.count }
    ensures many { result.count ≤ length words.now }
    ensures keeps { S.keeps session.old session.new }
{
    let room = make_room(session, input, words.len());
    let (now, _) = words.split_at(room.frames);
    let took = take_words(session, player, first, now);
    Took {
        count: took.count,
        why: took.why.or(room.why),
    }
}

/// Of a player's words in a packet, those from one count on, up to another.
fn news(offer: Offer, words: &[u32], has: u32, most: u32) -> &[u32]
    ensures { result.now ≡ news offer words.now has most }
{
    let end = most.saturating_sub(offer.first) as usize;
    let start = has.saturating_sub(offer.first) as usize;
    let (front, _) = words.split_at(end.min(words.len()));
    let (_, news) = front.split_at(start.min(front.len()));
    news
}

/// The words of an offer, and those after them.
fn share(offer: Offer, words: &[u32]) -> (&[u32], &[u32])
    ensures mine { result.0.now ≡ take (offer.end - offer.first) words.now }
    ensures others { result.1.now ≡ drop (offer.end - offer.first) words.now }
{
    let count = offer.end.saturating_sub(offer.first) as usize;
    words.split_at(count.min(words.len()))
}

/// Takes the next words of the player at a place: of an input's first word as far as the session takes them, and of another just as many
/// as of that.
fn take_place<S: Networked>(
    session: &mut S,
    seat: &Seat,
    place: usize,
    first: u32,
    words: &[u32],
    led: u32,
) -> Took
    requires few { seat.now.words ≤ INPUT_LIMIT }
    requires place { place < PLAYER_LIMIT }
    requires room { first + length words.now ≤ u32.MAX }
    requires next { 1 ≤ length words.now
        → first ≡ length (words_of (S.seen session.old) (place + 1)) }
    requires can { is_first seat.now.words place ≡ false → (led ≤ length words.now)
        × CanTake (S.seen session.old) (place + 1) first led }
    ensures took { TakesPlace S.step seat.now.words place first led words.now (S.seen session.old)
        (S.seen session.new) result }
    ensures leads { is_first seat.now.words place ≡ true → Leads seat.now.words
        (S.seen session.new) (place + 1) first result.count }
    ensures many { result.count ≤ length words.now }
    ensures keeps { S.keeps session.old session.new }
{
    if seat.first_of(place) == place {
        return take_first(session, seat.words, place as u8 + 1, first, words);
    }
    let (now, _) = words.split_at(led as usize);
    follow_words(session, place as u8 + 1, first, now);
    Took {
        count: led,
        why: None,
    }
}

/// Takes the words of a packet up to these counts, player by player, until the session refuses one of an input's first word. Says why the
/// last that was refused was so.
pub(crate) fn take_all<S: Networked>(
    session: &mut S,
    seat: &Seat,
    offers: &[Offer; PLAYER_LIMIT],
    words: &[u32],
    has: &[u32; PLAYER_LIMIT],
    most: &[u32; PLAYER_LIMIT],
) -> Option<Refusal>
    requires fair { IsFair (record {
      input = seat.now.words;
      offers = offers.now;
      words = shares offers.now words.now;
      has = has.now;
      most = most.now;
    }) (S.seen session.old) }
    requires up { (p : ℕ) → p < PLAYER_LIMIT → slice_index has.now p ≤ slice_index most.now p }
    ensures took { (led : ℕ) × TakesAll S.step (record {
      input = seat.now.words;
      offers = offers.now;
      words = shares offers.now words.now;
      has = has.now;
      most = most.now;
    }) (S.seen session.old) PLAYER_LIMIT (S.seen session.new) led result }
    ensures keeps { S.keeps session.old session.new }
{
    let mut rest = words;
    let mut refusal = None;
    let mut led = 0;
    for place in 0..PLAYER_LIMIT {
        session.laws();
        let offer = offers[place];
        let (mine, others) = share(offer, rest);
        let news = news(offer, mine, has[place], most[place]);
        let took = take_place(session, seat, place, has[place], news, led);
        led = took.count;
        refusal = took.why.or(refusal);
        rest = others;
    }
    refusal
}

/// The words of a packet, unless there are fewer than it offers, and an input has several.
pub(crate) fn words_heard<'a>(
    input: u8,
    offers: &[Offer; PLAYER_LIMIT],
    words: &'a [u32],
) -> &'a [u32]
    ensures { result.now ≡ words_heard input offers.now words.now }
{
    if input == 1 || count_of(offers) <= words.len() {
        words
    } else {
        let (none, _) = words.split_at(0);
        none
    }
}

/// How many words of each player may be taken of a packet of which so many count, if none of a frame from the end on is taken. But of
/// players whose owner is gone they are, as long as words before the end are waited for: all who stay have to have as many of them before
/// such a player leaves.
#[tactic(auto, unfolding(crate::specs::Taking::up_to))]
pub(crate) fn up_to(mesh: &Mesh, end: u32, most: &[u32; PLAYER_LIMIT]) -> [u32; PLAYER_LIMIT]
    ensures { result ≡ up_to mesh.now.seat mesh.now.machine end most.now }
{
    let full = are_full(mesh, end, most);
    let has = mesh.has();
    let mut counts = [0; PLAYER_LIMIT];
    for place in 0..PLAYER_LIMIT {
        counts[place] = counted_to(mesh, full, end, most, place).max(has[place]);
    }
    counts
}

/// Whether no word before the end is waited for, if so many of each player count.
#[tactic(auto, unfolding(crate::specs::Taking::are_full))]
fn are_full(mesh: &Mesh, end: u32, most: &[u32; PLAYER_LIMIT]) -> bool
    ensures { result ≡ are_full mesh.now.seat mesh.now.machine end most.now }
{
    for place in 0..PLAYER_LIMIT {
        if !is_full(mesh, end, most, place) {
            return false;
        }
    }
    true
}

/// Whether no word before the end is waited for of the player at a place.
fn is_full(mesh: &Mesh, end: u32, most: &[u32; PLAYER_LIMIT], place: usize) -> bool
    requires { place < PLAYER_LIMIT }
    ensures { result ≡ is_full mesh.now.seat mesh.now.machine end most.now place }
{
    !is_awaited(mesh, place) || end <= most[place]
}

/// Whether words of the player at a place may come: it is another machine's, and hasn't left.
fn is_awaited(mesh: &Mesh, place: usize) -> bool
    requires { place < PLAYER_LIMIT }
    ensures { result ≡ is_awaited mesh.now.seat mesh.now.machine place }
{
    let seat = mesh.seat();
    let owner = seat.owners[place];
    owner < seat.machines && owner != seat.me && mesh.left(place as u8).is_none()
}

/// How many words of the player at a place count, if none of a frame from the end on does, unless its owner is gone and words before the
/// end are waited for.
fn counted_to(mesh: &Mesh, full: bool, end: u32, most: &[u32; PLAYER_LIMIT], place: usize) -> u32
    requires { place < PLAYER_LIMIT }
    ensures { result ≡ counted_to mesh.now.seat mesh.now.machine.gone full end most.now place }
{
    if mesh.is_gone(mesh.seat().owners[place]) && !full {
        most[place]
    } else {
        most[place].min(end)
    }
}

/// How many words of the player at a place a session has.
pub(crate) fn count_at<S: Networked>(session: &S, place: usize) -> u32
    requires { place < 255 }
    ensures { result ≡ length (words_of (S.seen session.now) (place + 1)) }
{
    session.confirmed(place as u8 + 1).unwrap_or(0)
}

/// The least number of words of the player at a place and of so many after it.
fn fewest<S: Networked>(session: &S, place: usize, more: u8) -> u32
    requires { place + more < 255 }
    ensures { result ≡ fewest (count_of (S.seen session.now)) place more }
{
    let mut least = count_at(session, place);
    for other in 0..usize::from(more) {
        least = least.min(count_at(session, place + other + 1));
    }
    least
}

/// How many words of the player at a place the match may know.
pub(crate) fn known<S: Networked>(session: &S, seat: &Seat, place: usize) -> u32
    requires place { place < PLAYER_LIMIT }
    requires few { seat.now.words ≤ INPUT_LIMIT }
    ensures { result ≡ known (S.seen session.now) seat.now place }
{
    if seat.owners[place] == seat.me {
        fewest(session, seat.first_of(place), seat.words.saturating_sub(1))
    } else {
        count_at(session, place)
    }
}

/// How many words of each player the match may know.
pub(crate) fn counts<S: Networked>(session: &S, seat: &Seat) -> [u32; PLAYER_LIMIT]
    requires { seat.now.words ≤ INPUT_LIMIT }
    ensures { AreCounts (S.seen session.now) seat.now result }
{
    let mut counts = [0; PLAYER_LIMIT];
    for place in 0..PLAYER_LIMIT {
        counts[place] = known(session, seat, place);
    }
    counts
}
