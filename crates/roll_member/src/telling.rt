//! What a machine tells another, with its words.
ghost use Rattle.std.specs.Prelude.{◌≡◌, ℕ, ◌+◌, ◌-◌, ◌<◌, ◌≤◌, ◌++◌, length};
ghost use Rattle.roll_member.specs.Telling.{queued, room_for, wanted, words_at, words_told, IsOfferOf};
ghost use Rattle.roll_mesh.specs.Machines.{offer_at};
ghost use Rattle.roll_mesh.specs.declared.limits.TheConstants.{INPUT_LIMIT, PLAYER_LIMIT};
ghost use Rattle.roll_session.specs.Headline.{words_of as words_in};
ghost use Rattle.roll_wire.specs.Spelling.{count_of};
ghost use Rattle.roll_wire.specs.declared.limits.TheConstants.{WORD_LIMIT};

use arrayvec::ArrayVec;
use roll_mesh::{Mesh, Offer, PLAYER_LIMIT, Packet};
use roll_session::Networked;
use roll_wire::{WORD_LIMIT, count_of};

/// What a machine tells another.
#[derive(Debug, Drop)]
pub struct Told {
    /// What it knows, and which words it tells.
    pub packet: Packet,
    /// The words: those of player 0, then those of player 1, and so on.
    pub words: ArrayVec<u32, WORD_LIMIT>,
}

/// What a machine would be told if there were as much room for each player as a packet has.
fn wanted(mesh: &Mesh, machine: u8) -> Packet
    ensures { result ≡ wanted mesh.now machine }
{
    mesh.tell(machine, &[WORD_LIMIT as u32; PLAYER_LIMIT])
}

/// How many words a machine hasn't said that it has, of each player as many as fit.
pub(crate) fn queued(mesh: &Mesh, machine: u8) -> u32
    ensures { result ≡ queued mesh.now machine }
{
    count_of(&wanted(mesh, machine).offers) as u32
}

/// How many words of each player fit: those that a machine needs, input by input, until there is no more room, as many of one word of an
/// input as of another.
pub(crate) fn room_for(mesh: &Mesh, machine: u8) -> [u32; PLAYER_LIMIT]
    requires some { 1 ≤ mesh.now.seat.words }
    requires few { mesh.now.seat.words ≤ INPUT_LIMIT }
    ensures { result ≡ room_for mesh.now machine }
{
    let wanted = wanted(mesh, machine);
    let seat = mesh.seat();
    let words = u32::from(seat.words);
    let mut left = WORD_LIMIT as u32;
    let mut fits = 0;
    let mut room = [0; PLAYER_LIMIT];
    for place in 0..PLAYER_LIMIT {
        if seat.first_of(place) == place {
            let offer = wanted.offers[place];
            fits = offer.end.saturating_sub(offer.first).min(left / words);
            left -= fits * words;
        }
        room[place] = fits;
    }
    room
}

/// Adds the words of an offer.
fn push_words<S: Networked>(
    words: &mut ArrayVec<u32, WORD_LIMIT>,
    session: &S,
    player: u8,
    offer: Offer,
)
    requires there { IsOfferOf (words_in (S.seen session.now) player) offer }
    requires room { length words.old.items + (offer.end - offer.first) ≤ WORD_LIMIT }
    ensures { words.new.items
        ≡ words.old.items ++ words_at (words_in (S.seen session.now) player) offer }
{
    for frame in offer.first..offer.end {
        if let Some(word) = session.confirmed_word(player, frame) {
            words.push(word);
        }
    }
}

/// The words that a packet of this machine offers.
pub(crate) fn words_of<S: Networked>(session: &S, packet: &Packet) -> ArrayVec<u32, WORD_LIMIT>
    requires there { (p : ℕ) → p < PLAYER_LIMIT
        → IsOfferOf (words_in (S.seen session.now) (p + 1)) (offer_at packet.now p) }
    requires room { count_of packet.now.offers ≤ WORD_LIMIT }
    ensures { result.items ≡ words_told (S.seen session.now) packet.now.offers 0 }
{
    let offers: &[Offer] = &packet.offers;
    let mut words = ArrayVec::new();
    for (place, offer) in offers.iter().enumerate() {
        push_words(&mut words, session, place as u8 + 1, *offer);
    }
    words
}
