//! Laws of rollback sessions, over any events of any session that starts. Each is the contract of a function
//! that makes no call: a crate cites a law by calling its function, or by the lemma of its name.
#![tactic(auto)]

ghost use Rattle.roll_laws.specs.Laws.{StartsAreSmall, KnownCellsStay, SettledNeverFalls, SettledRowsStay, ImpossibleStays, WordsRuleOut, LeavingRulesOut, LongBeginSettled, PrefixesAreSaved, SavedOnce, KeptBeginSettled, KeptArePrefixed, StartIsKept, RolledIsTimeOrDead, WindowIsBounded, CostIsSmall, FewAreKept, RollsFit, PeersAgree, RollIsPlan, RollsAreLeast, ClaimsAreRight, OrderKeepsAll, ClaimsNameLeast, DeeperDiffer, PruningLosesNothing, KeptAfter, SettledAfter, GuessedCells, JobsStartKept, LogReplays, EntriesWereAccepted, LogIsCounted, KeptAreShort, QueuesAreShort, LocalWordsAreDelayed, FramesEnd, LogEnds, PlayersStay};
ghost use Rattle.roll_laws.specs.Grafted.{NewPathsRun, AcceptedAreWorth, JobsAreNew};

/// A session that starts has sizes within the profile's limits.
pub fn starts_are_small()
    ensures { StartsAreSmall }
{}

/// Confirmed cells, and those of players who are gone, never change.
pub fn known_cells_stay()
    ensures { KnownCellsStay }
{}

/// The settled frame never falls.
pub fn settled_never_falls()
    ensures { SettledNeverFalls }
{}

/// The settled rows never change.
pub fn settled_rows_stay()
    ensures { SettledRowsStay }
{}

/// A path that is not possible never becomes possible.
pub fn impossible_stays()
    ensures { ImpossibleStays }
{}

/// A player's next word leaves, of the possible paths, those without another cell in its frame.
pub fn words_rule_out()
    ensures { WordsRuleOut }
{}

/// A player who leaves leaves, of the possible paths, those without another cell than a gone one from there on.
pub fn leaving_rules_out()
    ensures { LeavingRulesOut }
{}

/// The possible paths no shorter than the settled frame are those that begin with the settled rows.
pub fn long_begin_settled()
    ensures { LongBeginSettled }
{}

/// Each prefix of a saved path is saved.
pub fn prefixes_are_saved()
    ensures { PrefixesAreSaved }
{}

/// No path is saved twice.
pub fn saved_once()
    ensures { SavedOnce }
{}

/// Each kept path begins with the settled rows.
pub fn kept_begin_settled()
    ensures { KeptBeginSettled }
{}

/// Each prefix of a kept path, no shorter than the settled frame, is kept.
pub fn kept_are_prefixed()
    ensures { KeptArePrefixed }
{}

/// The path that a roll to the frame or a later one starts from is kept.
pub fn start_is_kept()
    ensures { StartIsKept }
{}

/// A path that a roll added begins the timeline or is not possible.
pub fn rolled_is_time_or_dead()
    ensures { RolledIsTimeOrDead }
{}

/// The frame is at most the threshold past the settled frame.
pub fn window_is_bounded()
    ensures { WindowIsBounded }
{}

/// A roll to the frame or the next costs at most the threshold and one.
pub fn cost_is_small()
    ensures { CostIsSmall }
{}

/// There are at most as many kept paths as branches may fill, the threshold and two: 250, or 241 in the wide profile.
pub fn few_are_kept()
    ensures { FewAreKept }
{}

/// While a roll runs, the kept states and those that it adds fit a tree of 256.
pub fn rolls_fit()
    ensures { RollsFit }
{}

/// Two cores with the same confirmed words below a frame that both have settled have the same rows and run up to it.
pub fn peers_agree()
    ensures { PeersAgree }
{}

/// A roll is a plan, and costs what it says.
pub fn roll_is_plan()
    ensures { RollIsPlan }
{}

/// No plan from a state that was ever saved costs less than the roll.
pub fn rolls_are_least()
    ensures { RollsAreLeast }
{}

/// The claim of the last roll is right.
pub fn claims_are_right()
    ensures { ClaimsAreRight }
{}

/// The kept paths of a claim are all of those kept, each once, in the order of paths.
pub fn order_keeps_all()
    ensures { OrderKeepsAll }
{}

/// The claim of the last roll names least places.
pub fn claims_name_least()
    ensures { ClaimsNameLeast }
{}

/// In a right claim no deeper kept path agrees with the time.
pub fn deeper_differ()
    ensures { DeeperDiffer }
{}

/// The kept paths alone tell where a roll starts.
pub fn pruning_loses_nothing()
    ensures { PruningLosesNothing }
{}

/// What is kept after an event are the live ones of those kept before and those that it added.
pub fn kept_after()
    ensures { KeptAfter }
{}

/// The settled frame after an event is found among those.
pub fn settled_after()
    ensures { SettledAfter }
{}

/// A guess is the known cells, then its words, then the last of them by the mask.
pub fn guessed_cells()
    ensures { GuessedCells }
{}

/// A guess's job starts from the longest kept path that begins the guess, and has its next rows.
pub fn jobs_start_kept()
    ensures { JobsStartKept }
{}

/// The log of the accepted events leads to the same core.
pub fn log_replays()
    ensures { LogReplays }
{}

/// Each entry of a log was accepted where the entries before it lead to.
pub fn entries_were_accepted()
    ensures { EntriesWereAccepted }
{}

/// The core counts the entries of that log.
pub fn log_is_counted()
    ensures { LogIsCounted }
{}

/// A kept path ends at most 24 rows past the settled frame.
pub fn kept_are_short()
    ensures { KeptAreShort }
{}

/// A player has at most 128 confirmed words past the settled frame, a local one fewer.
pub fn queues_are_short()
    ensures { QueuesAreShort }
{}

/// A local player has a word for each frame of its delay, for each frame before this one, and for this one if it was given.
pub fn local_words_are_delayed()
    ensures { LocalWordsAreDelayed }
{}

/// The frame never passes the limit.
pub fn frames_end()
    ensures { FramesEnd }
{}

/// The log never passes its limit.
pub fn log_ends()
    ensures { LogEnds }
{}

/// The players stay as many as the settings say.
pub fn players_stay()
    ensures { PlayersStay }
{}

/// A graft adds the branch's prefixes past the longest kept one, up to the longest possible one.
pub fn new_paths_run()
    ensures { NewPathsRun }
{}

/// From its anchor on, each state of an accepted branch is worth the run of its path from the opening.
pub fn accepted_are_worth()
    ensures { AcceptedAreWorth }
{}

/// A guess's job, grafted before any other event, adds the path of each of its rows, and is refused for want of room alone.
pub fn jobs_are_new()
    ensures { JobsAreNew }
{}
