//! Laws, each the contract of a function that makes no call.
ghost use Rattle.roll_member.specs.Laws.{InputsAreWhole, NothingPastItIsSettled, OwnWordsAreGiven};

/// A word that a session takes of a local player is one that its machine gives, once it meets the session again, where
/// an input has one word. Where it has several they are given once all are there, as `two_peers_one_match` of
/// `roll_peer` has it.
pub fn own_words_are_given()
    ensures { OwnWordsAreGiven }
{}

/// Of another machine's player a session that is tied to its mesh has all words of a frame or none, and so it leaves.
pub fn inputs_are_whole()
    ensures { InputsAreWhole }
{}

/// What a player of another machine hasn't given yet keeps a session that is tied from settling a frame, until that
/// player leaves.
pub fn nothing_past_it_is_settled()
    ensures { NothingPastItIsSettled }
{}
