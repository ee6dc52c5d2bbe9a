//! Who takes a state.
ghost use Rattle.std.specs.Prelude.{◌≡◌, ◌≤◌, ◌<◌, ◌+◌, ◌*◌, length, option_map, IfErr, IfOk, IfSome, IfNone, OnOk, OnSome, Some, None, false, not, ◌&&◌, slice_index_or};
ghost use Rattle.std.specs.Option.{option_or};
ghost use Rattle.sha2.specs.Sha256.{sha256};
ghost use Rattle.roll_mesh.specs.declared.limits.TheConstants.{MACHINE_LIMIT as MOST_MACHINES};
ghost use Rattle.roll_state.specs.Spelling.{part, wish};
ghost use Rattle.roll_state.specs.States.{taker_fault};
ghost use Rattle.roll_state.specs.declared.limits.TheConstants.{PIECE_LIMIT};
ghost use Rattle.roll_state.specs.Taking.{after_ask, after_heard, after_received, ask, asked, heard, heard_of, held_after, is_allowed, left_in, opened_taker, received, refusal_of, said_ask};

use crate::datagram::{Ask, Piece, StateBody, StateDatagram};
use crate::giver::Giver;
use crate::heard::Heard;
use crate::limits::ASK_LIMIT;
use crate::name::{StateName, digest_of};
use crate::pieces::Pieces;
use crate::refusal::{StateFault, StateRefusal};
use crate::sealing::{open, say};
use arrayvec::ArrayVec;
use roll_contact::Key;
use roll_mesh::MACHINE_LIMIT;
use roll_wire::DATAGRAM_LIMIT;
use std::alloc::Global;
use std::marker::Model;

/// Who takes a state of a known name. All of its memory is taken as it is opened.
#[derive(Drop)]
pub struct Taker {
    name: StateName,
    held: Pieces,
    next: usize,
    only: Option<u8>,
    barred: [bool; MACHINE_LIMIT],
}

/// A clause sees the pieces that are there, and of whom further ones are taken.
impl Model for Taker {
    ghost use Rattle.roll_state.specs.Taking.{IsTaken, Taking};

    ghost Value = { Taking };

    ghost view = { λ t. record {
      name = t.name;
      held = t.held;
      next = t.next;
      only = t.only;
      barred = t.barred;
    } };

    ghost invariant = { λ t. IsTaken t.name t.held };
}

/// A piece of a host comes, of a state with a digest: what comes of it.
fn take_in(held: &mut Pieces, digest: &[u8; 32], host: u8, piece: &Piece) -> Heard
    requires inside { piece.now.place < length held.old.from }
    requires room { PIECE_LIMIT * piece.now.place + length piece.now.bytes.items
        ≤ length held.old.bytes }
    ensures heard { result
        ≡ heard_of digest.now host piece.now.place piece.now.bytes.items held.old }
    ensures held { held.new
        ≡ held_after digest.now host piece.now.place piece.now.bytes.items held.old }
{
    if held.is_there(piece.place) {
        return Heard::Again;
    }
    held.put(host, piece.place, &piece.bytes);
    if held.left() > 0 {
        return Heard::Taken;
    }
    if digest_of(held.bytes()) == *digest {
        return Heard::Whole;
    }
    let sole = if held.are_from(host) {
        Some(host)
    } else {
        None
    };
    held.clear();
    Heard::Wrong(sole)
}

impl Taker {
    /// Who takes the state of this name, and has no piece of it. A state of more bytes than the limit is refused before any memory
    /// is taken.
    ///
    /// # Errors
    ///
    /// `Empty` or `TooLong`: the name is of no byte, or of more than the limit. Else `NoMemory`, if the allocator has no room.
    pub fn open(alloc: Global, name: StateName, limit: u32) -> Result<Taker, StateFault>
        ensures opened { IfOk result (λ taker. taker ≡ opened_taker name) }
        ensures accepted { OnOk result (taker_fault name.length limit ≡ None) }
        ensures refused { IfErr result (λ why.
            option_or (taker_fault name.length limit) (Some StateFault.NoMemory) ≡ Some why) }
    {
        if name.length == 0 {
            return Err(StateFault::Empty);
        }
        if name.length > limit {
            return Err(StateFault::TooLong);
        }
        match Pieces::new(alloc, name.length as usize, name.count()) {
            Ok(held) => Ok(Taker {
                name,
                held,
                next: 0,
                only: None,
                barred: [false; MACHINE_LIMIT],
            }),
            Err(_) => Err(StateFault::NoMemory),
        }
    }

    /// What the state is called.
    pub fn name(&self) -> StateName
        ensures { result ≡ self.now.name }
    {
        self.name
    }

    /// How many pieces are missing. 0 if and only if the state is whole.
    pub fn left(&self) -> usize
        ensures { result ≡ left_in self.now.held }
    {
        self.held.left()
    }

    /// Whether pieces of a machine are taken for now: ask those alone.
    pub fn takes_of(&self, host: u8) -> bool
        requires { host < MOST_MACHINES }
        ensures { result ≡ (not (slice_index_or self.now.barred host false)
            && is_allowed self.now.only host) }
    {
        !self.barred[host as usize] && self.is_allowed(host)
    }

    /// Whether it is the machine whose pieces are taken alone, if there is one.
    fn is_allowed(&self, host: u8) -> bool
        ensures { result ≡ is_allowed self.now.only host }
    {
        match self.only {
            Some(alone) => alone == host,
            None => true,
        }
    }

    /// From now on pieces of this machine alone are taken, or of each that didn't give a wrong state. Call it if the one whose
    /// pieces are taken alone gives none.
    pub fn take_of(&mut self, host: Option<u8>)
        ensures { self.new ≡ record self.old { only = host } }
    {
        self.only = host;
    }

    /// The missing pieces that are to be asked for next.
    fn places(&self, most: usize) -> ArrayVec<u32, ASK_LIMIT>
        ensures { result.items ≡ asked self.now most }
    {
        let most = most.min(ASK_LIMIT);
        let count = self.name.count();
        let mut places = ArrayVec::new();
        self.held.add_missing(self.next, count, most, &mut places);
        self.held
            .add_missing(0, self.next.min(count), most, &mut places);
        places
    }

    /// The missing pieces to ask for next, so many at most, and no more than 16: from the one behind those that were asked for
    /// last, and from the first one on again once the last was. None if none is missing, or none is to be asked for.
    pub fn ask(&mut self, most: usize) -> Option<Ask>
        ensures asked { option_map wish result ≡ ask self.old most }
        ensures next { self.new ≡ after_ask self.old most }
    {
        let places = self.places(most);
        let last = *places.last()?;
        self.next = last as usize + 1;
        Some(Ask {
            state: self.name,
            places,
        })
    }

    /// The bytes that ask for the next pieces, as `ask` names them, for who has the key, in the name of this machine.
    pub fn send(
        &mut self,
        key: &Key,
        sender: u8,
        most: usize,
    ) -> Option<ArrayVec<u8, DATAGRAM_LIMIT>>
        ensures sent { option_map (λ bytes. bytes.items) result
            ≡ said_ask self.old key.now sender most }
        ensures next { self.new ≡ after_ask self.old most }
    {
        let ask = self.ask(most)?;
        Some(say(key, sender, StateBody::Ask(ask)))
    }

    /// Why a piece of a host isn't taken.
    fn refusal(&self, host: u8, piece: &Piece) -> Option<StateRefusal>
        ensures { result ≡ refusal_of self.now host (part piece.now) }
    {
        if !self.name.is_same(&piece.state) {
            Some(StateRefusal::OtherState)
        } else if host as usize >= MACHINE_LIMIT {
            Some(StateRefusal::Stranger)
        } else if self.barred[host as usize] {
            Some(StateRefusal::Barred)
        } else if !self.is_allowed(host) {
            Some(StateRefusal::NotNow)
        } else if piece.place as usize >= self.name.count() {
            Some(StateRefusal::PastTheEnd)
        } else if piece.bytes.len() != self.name.size(piece.place) {
            Some(StateRefusal::WrongLength)
        } else {
            None
        }
    }

    /// Hears a piece that a host gave.
    ///
    /// # Errors
    ///
    /// `OtherState`, `Stranger`, `Barred`, `NotNow`, `PastTheEnd` or `WrongLength`: the first of these, and nothing is changed.
    pub fn hear(&mut self, host: u8, piece: &Piece) -> Result<Heard, StateRefusal>
        ensures heard { result ≡ heard self.old host (part piece.now) }
        ensures after { self.new ≡ after_heard self.old host (part piece.now) }
    {
        if let Some(why) = self.refusal(host, piece) {
            return Err(why);
        }
        let heard = take_in(&mut self.held, &self.name.digest, host, piece);
        if let Heard::Wrong(sole) = heard {
            self.next = 0;
            match sole {
                Some(_) => {
                    self.only = None;
                    self.barred[host as usize] = true;
                }
                None => self.only = Some(host),
            }
        }
        Ok(heard)
    }

    /// Hears bytes that were sealed by a key: a piece, of the machine that they name as their sender. Who has the key
    /// may name any: so if all pairs of machines have one number, each can send pieces in another's name.
    ///
    /// # Errors
    ///
    /// `NotSealed`, `NoDatagram` or `OtherKind`, or why `hear` doesn't take the piece. Nothing is changed then.
    pub fn receive(&mut self, key: &Key, bytes: &[u8]) -> Result<Heard, StateRefusal>
        ensures received { result ≡ received self.old key.now bytes.now }
        ensures after { self.new ≡ after_received self.old key.now bytes.now }
    {
        let StateDatagram { envelope, body } = open(key, bytes)?;
        match body {
            StateBody::Piece(piece) => self.hear(envelope.sender, &piece),
            StateBody::Ask(_) => Err(StateRefusal::OtherKind),
        }
    }

    /// The state's bytes, once they are whole.
    pub fn bytes(&self) -> Option<&[u8]>
        ensures bytes { IfSome result (λ bytes. bytes.now ≡ self.now.held.bytes) }
        ensures whole { OnSome result (left_in self.now.held ≡ 0) }
        ensures right { OnSome result (sha256 self.now.held.bytes ≡ self.now.name.digest) }
        ensures missing { IfNone result (1 ≤ left_in self.now.held) }
    {
        if self.held.left() == 0 {
            Some(self.held.bytes())
        } else {
            None
        }
    }

    /// Who gives the state, once it is whole: so others can take it of this machine too.
    pub fn into_giver(self) -> Option<Giver>
        ensures giver { IfSome result
            (λ giver. giver ≡ record { name = self.name; bytes = self.held.bytes }) }
        ensures whole { OnSome result (left_in self.held ≡ 0) }
        ensures missing { IfNone result (1 ≤ left_in self.held) }
    {
        if self.held.left() > 0 {
            return None;
        }
        let Taker { name, held, .. } = self;
        Some(Giver::of(name, held.into_bytes()))
    }
}
