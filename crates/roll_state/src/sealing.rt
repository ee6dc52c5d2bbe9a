//! Datagrams of states as they are on the network.
ghost use Rattle.std.specs.Prelude.{◌≡◌};
ghost use Rattle.roll_state.specs.Sealing.{message_by, opened, said_by, sender_of, Opens};
ghost use Rattle.roll_state.specs.Spelling.{content, message, Fits};

use crate::datagram::{StateBody, StateDatagram};
use crate::limits::{ASK, PIECE};
use crate::reading::decode;
use crate::refusal::StateRefusal;
use crate::writing::encode;
use arrayvec::ArrayVec;
use roll_contact::Key;
use roll_contact::seal::{seal, unseal};
use roll_wire::{DATAGRAM_LIMIT, Envelope};

/// How many bytes each datagram has at least.
const HEADER: usize = 14;
/// Where its sender stands.
const SENDER_AT: usize = 12;
/// Where its kind stands.
const KIND_AT: usize = 13;

/// The bytes by which a sender says something to who has the key.
pub fn say(key: &Key, sender: u8, body: StateBody) -> ArrayVec<u8, DATAGRAM_LIMIT>
    ensures said { result.items ≡ said_by key.now sender (content body) }
    ensures fits { Fits (message_by key.now sender (content body)) }
{
    let envelope = Envelope {
        match_number: key.number,
        sender,
    };
    let mut bytes = encode(&StateDatagram { envelope, body });
    seal(&mut bytes, key);
    bytes
}

/// Who sent bytes, if by their kind they are a piece or an ask: by whose key they are to be opened. None if they are for a match.
pub fn sender_of(bytes: &[u8]) -> Option<u8>
    ensures { result ≡ sender_of bytes.now }
{
    if bytes.len() < HEADER || (bytes[KIND_AT] != PIECE && bytes[KIND_AT] != ASK) {
        return None;
    }
    Some(bytes[SENDER_AT])
}

/// What bytes say that were sealed by a key.
///
/// # Errors
///
/// `NotSealed`, if they weren't; `NoDatagram`, if they were and are no piece and no ask.
#[tactic(auto, unfolding(crate::specs::Sealing::opened))]
pub fn open(key: &Key, bytes: &[u8]) -> Result<StateDatagram, StateRefusal>
    ensures { Opens message result (opened key.now bytes.now) }
{
    let Some(text) = unseal(bytes, key) else {
        return Err(StateRefusal::NotSealed);
    };
    match decode(&text) {
        Ok(datagram) => Ok(datagram),
        Err(fault) => Err(StateRefusal::NoDatagram(fault)),
    }
}
