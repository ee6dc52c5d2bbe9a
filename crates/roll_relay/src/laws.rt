//! Laws of words that are held back.
ghost use Rattle.roll_relay.specs.Laws.{HeldWordsAreHeard};
ghost use Rattle.roll_relay.specs.OneMatch.{HoldersAreOne, HoldersGoOn};
ghost use Rattle.roll_relay.specs.Passing.{NoWordWaitsLonger};

/// A session that is told words that were held back is one that heard them as they came: all that holds of sessions holds of it.
/// Each player has given the words that it had, and then its own among these.
pub fn held_words_are_heard()
    ensures { HeldWordsAreHeard }
{}

/// Whatever is heard, given or played meanwhile: once there were as many turns as words may wait, their session was told each word
/// that waited before the first of them.
pub fn no_word_waits_longer()
    ensures { NoWordWaitsLonger }
{}

/// Two machines of a match that stay settle the same rows, and come to the same states, also if words are held back from their
/// sessions. So it is up to each frame that both sessions have settled themselves: the network may take them to have
/// settled more.
pub fn holders_are_one_match()
    ensures { HoldersAreOne }
{}

/// What a program calls of a session from which words are held back is a step of the match: to the network its words go
/// on, as long as those that wait are still its next ones.
pub fn holders_go_on()
    ensures { HoldersGoOn }
{}
