//! Laws of connections, each the contract of a function that makes no call.
ghost use Rattle.std.specs.Prelude.{◌≡◌, ◌^◌, pos};
ghost use Rattle.roll_contact.specs.Laws.{CopiesEndNoSilence, HeardIsOld, KeysDiffer, OnlyAnEchoIsBelieved, RefusalsEndNoSilence};
ghost use Rattle.roll_contact.specs.declared.clock.TheConstants.{AHEAD};
ghost use Rattle.roll_contact.specs.declared.contact.TheConstants.{BEHIND_LIMIT, CLOCKS_EVERY, CLOCKS_IN_PATIENCE, HALF, HELLO_AT, HELLO_EVERY, PATIENCE_PARTS, ROUND_TRIP_LIMIT, UNANSWERED};
ghost use Rattle.roll_contact.specs.declared.key.TheConstants.{BLOCK};
ghost use Rattle.roll_contact.specs.declared.seal.TheConstants.{INNER, OUTER};
ghost use Rattle.roll_contact.specs.declared.terms.TheConstants.{CARRIES, LASTS};
ghost use Rattle.roll_contact.specs.declared.window.TheConstants.{PLACES, REACH};
ghost use Rattle.roll_contact.specs.Windows.{NoneIsTakenTwice};

/// A draw is believed only by a hello that says this opening's own draw and means the same match. No hello without that
/// draw puts another in the place of the one that is believed, or is told as a restart.
pub fn only_an_echo_is_believed()
    ensures { OnlyAnEchoIsBelieved }
{}

/// Once a play was heard, plays whose clocks came back before end no silence, however many of them come and in whatever
/// order. Before that an end isn't silent.
pub fn copies_end_no_silence()
    ensures { CopiesEndNoSilence }
{}

/// What is refused ends no silence.
pub fn refusals_end_no_silence()
    ensures { RefusalsEndNoSilence }
{}

/// A play that was heard is never newer again: sent once more, it says nothing of who is heard straight.
pub fn heard_is_old()
    ensures { HeardIsOld }
{}

/// The numbers that clauses cite by name.
pub fn limits_are()
    ensures unanswered { UNANSWERED ≡ 10 }
    ensures clocks_every { CLOCKS_EVERY ≡ 16 }
    ensures clocks_in_patience { CLOCKS_IN_PATIENCE ≡ 16 }
    ensures patience_parts { PATIENCE_PARTS ≡ 4 }
    ensures hello_every { HELLO_EVERY ≡ 16 }
    ensures hello_at { HELLO_AT ≡ 8 }
    ensures round_trip { ROUND_TRIP_LIMIT ≡ 60000 }
    ensures behind { BEHIND_LIMIT ≡ pos 1048576 }
    ensures half { HALF ≡ 2 ^ 31 }
    ensures ahead { AHEAD ≡ 2 ^ 31 }
    ensures block { BLOCK ≡ 64 }
    ensures inner { INNER ≡ 54 }
    ensures outer { OUTER ≡ 92 }
    ensures carries { CARRIES ≡ 1 }
    ensures lasts { LASTS ≡ 2 }
    ensures reach { REACH ≡ 1024 }
    ensures places { PLACES ≡ 17 }
{}

/// Openings whose draws differ seal by keys that differ. A datagram that was sealed by one key is opened by another only if both
/// make the same tag of it.
pub fn keys_differ()
    ensures { KeysDiffer }
{}

/// Whatever numbers come, and in whatever order, none is taken twice.
pub fn none_is_taken_twice()
    ensures { NoneIsTakenTwice }
{}
