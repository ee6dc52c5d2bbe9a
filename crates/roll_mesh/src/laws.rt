//! Laws of a match, over any steps of any number of machines, and any network that delivers only what was sent, as
//! often and as late as it likes. Each is the contract of a function that makes no call.
//!
//! Each call of a mesh is a step or changes nothing, so they hold of any meshes that hear packets as they were told,
//! trimmed or not. A mesh has counts alone: the laws of words are for whoever keeps the words beside it, and gives,
//! tells and hears them as `give_word`, `tell_words` and `hear_words` in `specs/Words.antt` say, as a member of
//! `roll_member` does. No law says that something happens in time, and none speaks of a machine that tells what isn't
//! so.
ghost use Rattle.roll_mesh.specs.HoldingUp.{WaitersHoldUpNobody};
ghost use Rattle.roll_mesh.specs.Laws.{GoneStaysGone, HearsTheSame, NobodyIsBelievedBeyond, OwnersHaveMost, TheyAgree, TheyGetOn, WhoStaysHasAsMany};
ghost use Rattle.roll_mesh.specs.Seams.{OfOneCountOnePast, TheyCloseAlike};
ghost use Rattle.roll_mesh.specs.Words.{BeginsTheOwners, CountsAreLengths, CountsArePlayed, OwnersHaveWhatTheyGave, TheyHaveWhatWasGiven};

/// If a player has left one machine, each machine that this one doesn't regard as gone has just as many words of that
/// player, then and ever after.
pub fn who_stays_has_as_many()
    ensures { WhoStaysHasAsMany }
{}

/// Two machines let a player leave at the same number of words, unless each regards the other as gone.
pub fn they_agree()
    ensures { TheyAgree }
{}

/// A machine comes to have more words of a player only by giving one of its own, or by hearing a packet of the player's
/// owner, or of a machine that regards the owner as gone: then no more than it trimmed the packet to.
pub fn nobody_is_believed_beyond()
    ensures { NobodyIsBelievedBeyond }
{}

/// No machine has more words of a player than the player's owner.
pub fn owners_have_most()
    ensures { OwnersHaveMost }
{}

/// A machine that is regarded as gone stays gone, and who has left has left for ever.
pub fn gone_stays_gone()
    ensures { GoneStaysGone }
{}

/// Those who stay never lock one another, whatever came before: by telling, hearing and letting players leave alone
/// they can come to where each player of a machine that doesn't stay has left each of them. Of at most 8 machines.
pub fn they_get_on()
    ensures { TheyGetOn }
{}

/// Each machine has, of each player's words, a beginning of what the player's owner has and of what it gave: the same
/// words in the same order.
pub fn they_have_what_was_given()
    ensures owners { BeginsTheOwners }
    ensures given { TheyHaveWhatWasGiven }
{}

/// The owner of a player has of it the words that it gave, in order.
pub fn owners_have_what_they_gave()
    ensures { OwnersHaveWhatTheyGave }
{}

/// With the words a match goes on as it does by counts alone, and each machine has as many words as it counts.
pub fn counts_are_of_words()
    ensures played { CountsArePlayed }
    ensures lengths { CountsAreLengths }
{}

/// A packet without its offers of no words is heard as the whole one.
pub fn shortened_is_heard_alike()
    ensures { HearsTheSame }
{}

/// Of a chain of machines that wait for each other only the end holds up the match: a machine that by what it told last
/// waits for a word doesn't, once the words that it gave have come.
pub fn waiters_hold_up_nobody()
    ensures { WaitersHoldUpNobody }
{}

/// Two machines that know all words before a frame, and of which neither regards the other as gone, count as many words of
/// each player before it.
pub fn they_close_alike()
    ensures { TheyCloseAlike }
{}

/// Two machines that know all words before a frame, and count as many of a player before it, have the same ones, whoever is
/// gone for whom.
pub fn of_one_count_one_past()
    ensures { OfOneCountOnePast }
{}
