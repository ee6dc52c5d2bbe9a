//! Laws of datagrams, each the contract of a function that makes no call.
ghost use Rattle.roll_wire.specs.Reading.{ReadAgain};
ghost use Rattle.roll_wire.specs.Spelling.{OneText};

/// No two datagrams have one text.
pub fn one_text()
    ensures { OneText }
{}

/// The text of a datagram is read as that datagram.
pub fn read_again()
    ensures { ReadAgain }
{}
