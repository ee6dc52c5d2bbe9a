//! Laws of a state's transfer, each the contract of a function that makes no call.
ghost use Rattle.roll_state.specs.Crossing.{GiversSendWhatIsAsked, TakersAskForWhatIsMissing, TakersHoldWhatWasGiven};
ghost use Rattle.roll_state.specs.Reading.{ReadAgain};
ghost use Rattle.roll_state.specs.Spelling.{OneText};

/// No two datagrams have one text.
pub fn one_text()
    ensures { OneText }
{}

/// The text of a datagram is read as that datagram.
pub fn read_again()
    ensures { ReadAgain }
{}

/// A giver sends pieces alone that an ask names, once for each time that it names them: 16 at most, in datagrams of no
/// more than 66 bytes beside the piece's own.
pub fn givers_send_what_is_asked()
    ensures { GiversSendWhatIsAsked }
{}

/// A taker asks for pieces alone that are missing, and for some as long as some are.
pub fn takers_ask_for_what_is_missing()
    ensures { TakersAskForWhatIsMissing }
{}

/// Whatever the network loses, delays, doubles or reorders, and whatever others send: what a taker has of honest givers is their
/// state's, none of them is barred, and what is whole has the state's digest. If all are honest, it is the state. And a
/// taker hears each piece that a giver of its state sends it, unless it takes none of that machine for now.
///
/// A machine is honest if each piece that names it as its sender was sent by a giver, whose state is this one if it has
/// the taker's name. That no other bytes have the same length and digest is no theorem; nor is it that all pieces come,
/// which a test shows (`tests/rattle/test_parts`).
pub fn takers_hold_what_was_given()
    ensures { TakersHoldWhatWasGiven }
{}
