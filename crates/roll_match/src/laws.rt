//! Laws of a match, each the contract of a function that makes no call.
ghost use Rattle.roll_match.specs.Deeds.{WhatBeginsIsCalled, WhatIsHeardIsCalled, WhatIsSentIsCalled};
ghost use Rattle.roll_match.specs.Epochs.{EachIsPlayed};
ghost use Rattle.roll_match.specs.InTime.{NoInputWaitsLonger};
ghost use Rattle.roll_match.specs.Judged.{SoundStays, WhatIsJudged};
ghost use Rattle.roll_match.specs.Later.{WhatEndedStays, WhatIsKnownStays};
ghost use Rattle.roll_match.specs.OneMatch.{OneMatch, WhatGoesOn};

use crate::lasting::Lasting;

/// Two machines that stay in a match through its epochs play one match in all of them: in each epoch they settle the same rows, and
/// come to the same states where their games are alike; they leave each epoch by the same end, and open the next one alike. So it
/// is whatever the machines of the match call, whatever the network does with what they send, and whatever waits for their sessions.
/// What is supposed of the two is one record, `StayTogether`, with a sentence for each of its fields.
pub fn one_match()
    ensures { OneMatch }
{}

/// Each epoch of a match is a match of its own: so what is proved of a match of one epoch holds in each.
pub fn each_is_played()
    ensures { EachIsPlayed }
{}

/// What a match makes of bytes that came are calls of its network in this epoch, one after another, whether they came straight or another
/// machine carried them, and whatever waits.
pub fn what_is_heard_is_called()
    ensures { WhatIsHeardIsCalled }
{}

/// What the start of a turn makes of a match is calls of its network in this epoch, one after another: who is heard in the epoch before, or
/// gone, is so in this one too; marks are judged; and the network polls.
pub fn what_begins_is_called<S: Lasting>()
    ensures { WhatBeginsIsCalled S.Past }
{}

/// What a match makes of a datagram that goes to a machine, straight or by another machine that carries it, is one call of its network in
/// this epoch, and the datagram is what that call sends.
pub fn what_is_sent_is_called()
    ensures { WhatIsSentIsCalled }
{}

/// Whatever is called of a match and of its session: once there were as many turns as inputs may wait, or their epoch has ended, their
/// session was told each input that waited before. A turn counts in which `handed` is no error.
pub fn no_input_waits_longer<S: Lasting>()
    ensures { NoInputWaitsLonger S.Engine S.step S.Past.step S.seen S.Past.seen S.has_gone_on
        S.has_not_gone_on }
{}

/// What `one_match` supposes of a machine that goes on in its next epoch is what the call answers that goes on.
pub fn what_goes_on<S>()
    ensures { WhatGoesOn S }
{}

/// Once marks are judged, as `turn` does, those are void that are so by the rules, and no others; and that stays so until marks come.
pub fn what_is_judged()
    ensures judged { WhatIsJudged }
    ensures stays { SoundStays }
{}

/// Where an epoch ended at a machine it ends for ever, by the same mark, and the next one has the same terms, whatever the machines call
/// later and whatever the network does, unless this machine finds a mark before that end void once it has gone on.
pub fn what_ended_stays()
    ensures { WhatEndedStays }
{}

/// Rows that a session knows stay known, and the state after them stays the same, whatever events come to the session later.
pub fn what_is_known_stays()
    ensures { WhatIsKnownStays }
{}
