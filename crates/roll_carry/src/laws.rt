//! Laws of what is carried: each is the contract of a function that makes no call.
ghost use Rattle.roll_carry.specs.Sharing.{NobodyIsCrowdedOut, QuietAreTaken, SharesAreKept};
ghost use Rattle.roll_carry.specs.Spelling.{OneText};
ghost use Rattle.roll_carry.specs.Ways.{WaysAreFound};

/// No two datagrams have one text.
pub fn one_text()
    ensures { OneText }
{}

/// The machines that are found to have a way to another, by so many others at most, are those from which the map shows one.
pub fn ways_are_found()
    ensures { WaysAreFound }
{}

/// Of what waits for one machine, what one maker made never has more than its share of bytes, or is one parcel alone.
pub fn shares_are_kept()
    ensures { SharesAreKept }
{}

/// Whatever others gave: a parcel of a maker of which nothing waits is taken, unless all that waits leaves it no room.
pub fn quiet_are_taken()
    ensures { QuietAreTaken }
{}

/// So nobody is crowded out: where each other maker keeps to its share, a parcel of a maker of which nothing waits is taken if it has no
/// more than 170 bytes with its label in a match of eight machines, and no more than 593 in one of three.
pub fn nobody_is_crowded_out()
    ensures { NobodyIsCrowdedOut }
{}
