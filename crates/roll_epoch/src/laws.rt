//! Laws of epochs, each the contract of a function that makes no call.
ghost use Rattle.roll_epoch.specs.Laws.{EndsAreOne, EndsStay, InputsStayWhole, NobodyLosesAPlayer, OfOnePastOneEnd, OfOnePastOneNext, PlayersStay, SomebodyIsAbsent};

/// Of what is known there is one end.
pub fn ends_are_one()
    ensures { EndsAreOne }
{}

/// Who knows the same marks of the rows before a frame, of players who hadn't left there, finds the same end, once as
/// many rows are settled.
pub fn of_one_past_one_end()
    ensures { OfOnePastOneEnd }
{}

/// An end that was found stays when more rows are settled.
pub fn ends_stay()
    ensures { EndsStay }
{}

/// Who knows the same of where players left before the end opens the same next epoch. A player who left later is as one
/// who hasn't left.
pub fn of_one_past_one_next()
    ensures { OfOnePastOneNext }
{}

/// A machine that stays keeps its players and its number; whoever comes has the lowest number that nobody has who
/// stays, and no player of them. Each other player of the match becomes free, or is owned by whoever comes.
pub fn nobody_loses_a_player()
    ensures { NobodyLosesAPlayer }
{}

/// A match has the same players in each epoch: none comes that wasn't there, and of those that are there none goes.
pub fn players_stay()
    ensures { PlayersStay }
{}

/// If each input has one owner, each has one in the next epoch: whoever comes gets whole inputs.
pub fn inputs_stay_whole()
    ensures { InputsStayWhole }
{}

/// If a player is free, there is a machine that owns none, of 8.
pub fn somebody_is_absent()
    ensures { SomebodyIsAbsent }
{}
