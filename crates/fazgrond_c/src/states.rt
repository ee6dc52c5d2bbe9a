//! States in pieces without an end of a transfer, for games in other languages.
ghost use Rattle.std.specs.Prelude.{◌≡◌};
ghost use Rattle.roll_contact.specs.Keys.{greeting_key};
ghost use Rattle.roll_state.specs.Sealing.{opened};
ghost use Rattle.roll_state.specs.Spelling.{digest_with};
ghost use Rattle.fazgrond_c.specs.StateKinds.{name_in, name_read, IsFirstAsk, IsNameIn, IsSenderOf};

use crate::calls::{NOTHING, TOO_SHORT};
use crate::peer_calls::write;
use crate::state_kinds::NameOut;
use crate::state_refusal::code_of_state;
use arrayvec::ArrayVec;
use roll_state::{Ask, Key, StateBody, StateName, StateRefusal, open, say, sender_of};
use roll_wire::DATAGRAM_LIMIT;

/// Who sent bytes, if they are a piece or an ask.
#[unsafe(no_mangle)]
pub extern "C" fn fazgrond_state_sender(bytes: &[u8], machine: &mut u8) -> i32
    ensures { IsSenderOf bytes.now machine.old machine.new result }
{
    match sender_of(bytes) {
        Some(sender) => {
            *machine = sender;
            0
        }
        None => NOTHING,
    }
}

/// A digest that has a state in it, beside what another has.
#[unsafe(no_mangle)]
pub extern "C" fn fazgrond_state_digest(name: &NameOut, digest: u64) -> u64
    ensures { result ≡ digest_with (name_in name.now) digest }
{
    name.name().digest_with(digest)
}

/// What asks for the first piece of a state of which nothing is known but which one it is.
#[unsafe(no_mangle)]
pub extern "C" fn fazgrond_state_ask(
    number: u64,
    sender: u8,
    which: u64,
    frame: u32,
    out: &mut [u8],
    size: &mut usize,
) -> i32
    ensures { IsFirstAsk number sender which frame out.old out.new size.old size.new result }
{
    if out.len() < DATAGRAM_LIMIT {
        return TOO_SHORT;
    }
    let mut places = ArrayVec::new();
    places.push(0);
    let ask = Ask {
        state: StateName::unknown(which, frame),
        places,
    };
    let bytes = say(&Key::of_hellos(number), sender, StateBody::Ask(ask));
    write(out, size, &bytes);
    0
}

/// What the state is called that bytes are a piece of.
#[unsafe(no_mangle)]
pub extern "C" fn fazgrond_state_told(number: u64, bytes: &[u8], name: &mut NameOut) -> i32
    ensures { IsNameIn number bytes.now name.old name.new result }
{
    match name_of_piece(number, bytes) {
        Ok(said) => {
            *name = NameOut::of(&said);
            0
        }
        Err(why) => code_of_state(why),
    }
}

/// The name in bytes that are a piece.
fn name_of_piece(number: u64, bytes: &[u8]) -> Result<StateName, StateRefusal>
    ensures { result ≡ name_read (opened (greeting_key number) bytes.now) }
{
    match open(&Key::of_hellos(number), bytes)?.body {
        StateBody::Piece(piece) => Ok(piece.state),
        StateBody::Ask(_) => Err(StateRefusal::OtherKind),
    }
}
