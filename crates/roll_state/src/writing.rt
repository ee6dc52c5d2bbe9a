//! Datagrams to bytes.
ghost use Rattle.std.specs.Prelude.{◌≡◌, ◌+◌, ◌*◌, ◌≤◌, ◌++◌, length};
ghost use Rattle.std.specs.List.{flat_map, AllByRecursion};
ghost use Rattle.roll_wire.specs.Spelling.{envelope, number, IsNumber};
ghost use Rattle.roll_state.specs.Spelling.{body, content, message, name, spelling, Fits, IsContent, IsName};
ghost use Rattle.roll_wire.specs.declared.limits.TheConstants.{DATAGRAM_LIMIT};
ghost use Rattle.roll_state.specs.declared.limits.TheConstants.{ASK_LIMIT, PIECE_LIMIT};

use crate::datagram::{Ask, Piece, StateBody, StateDatagram};
use crate::limits::{ASK, ASK_LIMIT, PIECE, PIECE_LIMIT};
use crate::name::StateName;
use arrayvec::ArrayVec;
use roll_wire::bytes::{put, put_envelope, put_u32, put_u64};
use roll_wire::{DATAGRAM_LIMIT, MAGIC};

type Bytes = ArrayVec<u8, DATAGRAM_LIMIT>;

pub(crate) fn put_name(out: &mut Bytes, s: &StateName)
    requires { length out.old.items + 48 ≤ DATAGRAM_LIMIT }
    ensures items { out.new.items ≡ out.old.items ++ name s.now }
    ensures len { length out.new.items ≡ length out.old.items + 48 }
    ensures fits { IsName s.now }
{
    put_u64(out, s.which);
    put_u32(out, s.frame);
    put_u32(out, s.length);
    put(out, &s.digest);
}

fn put_places(out: &mut Bytes, places: &[u32])
    requires { length out.old.items + 4 * length places.now ≤ DATAGRAM_LIMIT }
    ensures items { out.new.items ≡ out.old.items ++ flat_map number places.now }
    ensures fits { AllByRecursion IsNumber places.now }
{
    for place in places {
        put_u32(out, *place);
    }
}

fn put_piece(out: &mut Bytes, piece: &Piece)
    requires { length out.old.items + (52 + PIECE_LIMIT) ≤ DATAGRAM_LIMIT }
    ensures items { out.new.items ≡ out.old.items
        ++ (name piece.now.state ++ (number piece.now.place ++ piece.now.bytes.items)) }
    ensures fits { IsContent (content (StateBody.Piece piece.now)) }
{
    put_name(out, &piece.state);
    put_u32(out, piece.place);
    put(out, piece.bytes.as_slice());
}

fn put_ask(out: &mut Bytes, ask: &Ask)
    requires { length out.old.items + (48 + 4 * ASK_LIMIT) ≤ DATAGRAM_LIMIT }
    ensures items { out.new.items ≡ out.old.items
        ++ (name ask.now.state ++ flat_map number ask.now.places.items) }
    ensures fits { IsContent (content (StateBody.Ask ask.now)) }
{
    put_name(out, &ask.state);
    put_places(out, ask.places.as_slice());
}

fn put_body(out: &mut Bytes, b: &StateBody)
    requires { length out.old.items + (53 + PIECE_LIMIT) ≤ DATAGRAM_LIMIT }
    ensures items { out.new.items ≡ out.old.items ++ body (content b.now) }
    ensures fits { IsContent (content b.now) }
{
    match b {
        StateBody::Piece(piece) => {
            out.push(PIECE);
            put_piece(out, piece);
        }
        StateBody::Ask(ask) => {
            out.push(ASK);
            put_ask(out, ask);
        }
    }
}

/// The one spelling of a datagram: 66 bytes and those of a piece, or 62 and four for each place asked for.
pub fn encode(datagram: &StateDatagram) -> ArrayVec<u8, DATAGRAM_LIMIT>
    ensures spelled { result.items ≡ spelling (message datagram.now) }
    ensures fits { Fits (message datagram.now) }
{
    let mut out = ArrayVec::new();
    put_u32(&mut out, MAGIC);
    put_envelope(&mut out, &datagram.envelope);
    put_body(&mut out, &datagram.body);
    out
}
