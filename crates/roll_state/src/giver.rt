//! Who gives a state.
ghost use Rattle.std.specs.Prelude.{◌≡◌, option_map, IfErr, IfOk, IfSome, OnOk, Some, None};
ghost use Rattle.std.specs.Vec.{vec_len};
ghost use Rattle.roll_wire.specs.Spelling.{IsEnvelope};
ghost use Rattle.roll_state.specs.Giving.{answer, is_asked, part_at, reply, Giving};
ghost use Rattle.roll_state.specs.Sealing.{Opens};
ghost use Rattle.roll_state.specs.Spelling.{part, wish, IsName};
ghost use Rattle.roll_state.specs.States.{giver_fault, name_of, IsNameOf};

use crate::datagram::{Ask, Piece, StateBody};
use crate::limits::PIECE_LIMIT;
use crate::name::StateName;
use crate::reading::kept;
use crate::refusal::{StateFault, StateRefusal};
use crate::sealing::{open, say};
use arrayvec::ArrayVec;
use roll_contact::Key;
use roll_wire::DATAGRAM_LIMIT;
use std::marker::Model;

/// Who has a state, and gives its pieces to those who ask for them. It keeps nothing of who asked, and sends nothing that wasn't
/// asked for.
#[derive(Drop)]
pub struct Giver {
    name: StateName,
    bytes: Vec<u8>,
}

/// A clause sees the state's name and its bytes.
impl Model for Giver {
    ghost use Rattle.roll_state.specs.Giving.{Giving};
    ghost use Rattle.roll_state.specs.States.{IsNameOf};

    ghost Value = { Giving };

    ghost view = { λ giver. record { name = giver.name; bytes = giver.bytes.items } };

    ghost invariant = { λ giver. IsNameOf giver.name giver.bytes.items };
}

impl Giver {
    /// Who gives these bytes, the state of this number and of a frame.
    ///
    /// # Errors
    ///
    /// `Empty` or `TooLong`, if there are none, or 2^32 or more.
    pub fn new(which: u64, frame: u32, bytes: Vec<u8>) -> Result<Giver, StateFault>
        ensures opened { IfOk result
            (λ giver. giver
            ≡ record { name = name_of which frame bytes.items; bytes = bytes.items }) }
        ensures accepted { OnOk result (giver_fault (vec_len bytes) ≡ None) }
        ensures refused { IfErr result (λ why. giver_fault (vec_len bytes) ≡ Some why) }
    {
        if bytes.is_empty() {
            return Err(StateFault::Empty);
        }
        match StateName::of(which, frame, &bytes) {
            Some(name) => Ok(Giver { name, bytes }),
            None => Err(StateFault::TooLong),
        }
    }

    /// Who gives these bytes, whose name this is.
    pub(crate) fn of(name: StateName, bytes: Vec<u8>) -> Giver
        requires { IsNameOf name bytes.items }
        ensures { result ≡ record { name = name; bytes = bytes.items } }
    {
        Giver { name, bytes }
    }

    /// What the state is called.
    pub fn name(&self) -> StateName
        ensures name { result ≡ self.now.name }
        ensures right { IsNameOf result self.now.bytes }
    {
        self.name
    }

    /// Its bytes.
    pub fn bytes(&self) -> &[u8]
        ensures { result.now ≡ self.now.bytes }
    {
        self.bytes.as_slice()
    }

    /// Its piece at a place.
    fn piece(&self, place: u32) -> Option<Piece>
        ensures { option_map part result ≡ part_at self.now place }
    {
        if place as usize >= self.name.count() {
            return None;
        }
        let start = PIECE_LIMIT * place as usize;
        let end = start + self.name.size(place);
        Some(Piece {
            state: self.name,
            place,
            bytes: kept(&self.bytes[start..end]),
        })
    }

    /// Whether an ask is for this state.
    fn is_asked(&self, state: &StateName) -> bool
        ensures { result ≡ is_asked self.now state.now }
    {
        self.name.is_same(state)
            || StateName::unknown(self.name.which, self.name.frame).is_same(state)
    }

    /// The piece that an ask names at an index, from 0. None if it is for another state, or names fewer pieces, or one that there
    /// isn't.
    pub fn answer(&self, ask: &Ask, index: usize) -> Option<Piece>
        ensures { option_map part result ≡ answer self.now (wish ask.now) index }
    {
        if !self.is_asked(&ask.state) {
            return None;
        }
        let place = ask.places.get(index)?;
        self.piece(*place)
    }

    /// The bytes that this machine sends for the piece that an ask names at an index, from 0, if the ask came as these bytes. None
    /// if it names fewer pieces, or one that there isn't. Call it with 0, 1 and so on, as often as an ask is to be answered at
    /// most.
    ///
    /// # Errors
    ///
    /// `NotSealed`, `NoDatagram`, `OtherKind` or `OtherState`.
    pub fn reply(
        &self,
        key: &Key,
        sender: u8,
        bytes: &[u8],
        index: usize,
    ) -> Result<Option<ArrayVec<u8, DATAGRAM_LIMIT>>, StateRefusal>
        ensures replied { Opens (option_map (λ bytes. bytes.items)) result
            (reply self.now key.now sender bytes.now index) }
        // Who has the key can read it.
        ensures fits { IfOk result (λ sent. IfSome sent (λ bytes. IsName self.now.name
            × IsEnvelope (record { match_number = key.now.number; sender = sender }))) }
    {
        let datagram = open(key, bytes)?;
        let StateBody::Ask(ask) = datagram.body else {
            return Err(StateRefusal::OtherKind);
        };
        if !self.is_asked(&ask.state) {
            return Err(StateRefusal::OtherState);
        }
        match self.answer(&ask, index) {
            Some(piece) => Ok(Some(say(key, sender, StateBody::Piece(piece)))),
            None => Ok(None),
        }
    }
}
