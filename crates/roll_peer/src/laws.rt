//! Laws of peers, each the contract of a function that makes no call.
ghost use Rattle.std.specs.Prelude.{◌≡◌, ◌-◌, ◌^◌};
ghost use Rattle.roll_peer.specs.Laws.{EventsNameMachines, NothingElseIsHeard};
ghost use Rattle.roll_peer.specs.MarkLaws.{TheyKnowOneMark, WhatWasPutIsKnown, WhoHasTheWordHasItsMark};
ghost use Rattle.roll_peer.specs.OneMatch.{TwoPeersKnowOne, TwoPeersOneMatch};
ghost use Rattle.roll_peer.specs.Openings.{WhatOpenedStays};
ghost use Rattle.roll_peer.specs.declared.comparison.TheConstants.{SEARCH_LIMIT};
ghost use Rattle.roll_peer.specs.declared.digests.TheConstants.{DIGEST_LIMIT};
ghost use Rattle.roll_peer.specs.declared.event.TheConstants.{EVENT_LIMIT};
ghost use Rattle.roll_peer.specs.declared.marking.TheConstants.{NO_END};
ghost use Rattle.roll_peer.specs.declared.pace.TheConstants.{ASK_EVERY};
ghost use Rattle.roll_peer.specs.declared.receiving.TheConstants.{HEAD, KIND_AT, SENDER_AT};
ghost use Rattle.roll_peer.specs.declared.sending.TheConstants.{SETTLED_EVERY};
ghost use Rattle.roll_peer.specs.declared.settings.TheConstants.{COMER_PATIENCE};
ghost use Rattle.roll_peer.specs.declared.stall.TheConstants.{LEAP};

/// A play or a bye is heard only if it was sealed by the draws of this opening and of the sender's one that is believed. With
/// `roll_contact`'s laws: nothing of another match, of another opening, or for another receiver, unless the hash has a collision.
/// That nobody makes a tag who doesn't know the number rests on HMAC with SHA-256, cut to 8 bytes, and is no theorem.
pub fn nothing_else_is_heard()
    ensures { NothingElseIsHeard }
{}

/// Each event that waits names a machine of the match, or none.
pub fn events_name_machines()
    ensures { EventsNameMachines }
{}

/// Machines that stay play one match: of two of which neither regards the other as gone, each settles the same rows as the other, and
/// comes by them to the same state if their games are alike; and players who left both left at one frame. So it is whatever the
/// machines call, and whatever the network loses, repeats, delays or makes up: of what comes, a machine hears as a play only what
/// another of the match has sealed.
///
/// Each network is opened once, by `open` or by `follow`: the law is of each epoch of a match by itself, whoever is
/// gone as it begins. Of both machines it supposes that their sessions were told of others by these networks alone.
pub fn two_peers_one_match()
    ensures { TwoPeersOneMatch }
{}

/// What `two_peers_one_match` says of rows that both have settled holds of all rows that both know: up to each frame before which
/// each of them has every player's words, or the player has left it before. So it holds up to the end of an epoch too, whose last
/// rows needn't be settled there.
pub fn two_peers_know_one()
    ensures { TwoPeersKnowOne }
{}

/// A session keeps the opening that its network was opened beside, whatever the machines of the match call later, and whatever the
/// network does.
pub fn what_opened_stays()
    ensures { WhatOpenedStays }
{}

/// A mark comes with its word: each machine that has a word of a player knows the mark that the player's owner knows of it, and none if
/// the owner knows none. So two machines that have the word know the same of its mark, whoever is gone for whom; and once a mark was
/// put on a word, each that has the word knows it. This holds whatever the machines call, and whatever the network does, as in
/// `two_peers_one_match`.
pub fn who_has_the_word_has_its_mark()
    ensures owner { WhoHasTheWordHasItsMark }
    ensures any { TheyKnowOneMark }
    ensures put { WhatWasPutIsKnown }
{}

/// The numbers that clauses cite by name. Times are milliseconds.
pub fn limits_are()
    ensures search { SEARCH_LIMIT ≡ 2000 }
    ensures digests { DIGEST_LIMIT ≡ 256 }
    ensures settled_every { SETTLED_EVERY ≡ 64 }
    ensures events { EVENT_LIMIT ≡ 64 }
    ensures comer_patience { COMER_PATIENCE ≡ 10000 }
    ensures leap { LEAP ≡ 1000 }
    ensures ask_every { ASK_EVERY ≡ 40 }
    ensures no_end { NO_END ≡ 2 ^ 32 - 1 }
    ensures sender_at { SENDER_AT ≡ 12 }
    ensures kind_at { KIND_AT ≡ 13 }
    ensures head { HEAD ≡ 14 }
{}
