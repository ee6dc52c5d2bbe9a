//! A session without a game.
ghost use Rattle.std.specs.Prelude.{◌≡◌, ◌≤◌, ◌<◌, ◌-◌, ◌∷◌, [], false, is_none, length, max, nat_lt, IfOk, IfErr, IfSome, IsSomeAnd, None, OnOk, OnErr, option_map, Some, if◌then◌else◌};
ghost use Rattle.roll_frame.specs.Claims.{claim_of, IsRight};
ghost use Rattle.roll_frame.specs.Core.{cost, depth, kept, settled as settled_frame};
ghost use Rattle.roll_frame.specs.Events.{branch_of, is_repeat, tests_of};
ghost use Rattle.roll_frame.specs.Grafts.{new_paths};
ghost use Rattle.roll_frame.specs.Inputs.{of_player, player_at};
ghost use Rattle.roll_frame.specs.Refusals.{first_refusal};
ghost use Rattle.roll_frame.specs.Settings.{start_refusal};
ghost use Rattle.roll_frame.specs.Timeline.{row_at};
ghost use Rattle.roll_game.specs.Counts.{no_calls, IsRefusedAt};
ghost use Rattle.roll_inputs.specs.Boards.{confirmed_word, source_at};
ghost use Rattle.roll_session.specs.Answered.{counts_by, replied, with_entries, IsAnswered};
ghost use Rattle.roll_session.specs.Calls.{entry_of, event_of, input_reply, judged, IsAdmitted, IsAllowed, IsInput, IsRoll, IsRollTo};
ghost use Rattle.roll_session.specs.Changes.{after_graft, after_partial, graft_refusal, reserve_refusal, FitsLog, IsRefused, IsWhy};
ghost use Rattle.roll_session.specs.Gameless.{bare_branch, route_refusal_of, still, unroomed, with_game, CanEnter, IsLooked, KeepsAll, KeepsBranch, KeepsGiven, KeepsGrafted, KeepsWorths};
ghost use Rattle.roll_session.specs.Foretold.{guess_words_refusal_of, rerun_of, words_job_of, words_refusal_of};
ghost use Rattle.roll_session.specs.Guessing.{guess_job_of, guess_refusal_of};
ghost use Rattle.roll_session.specs.Headline.{last_claim};
ghost use Rattle.roll_session.specs.Held.{inputs_of};
ghost use Rattle.roll_session.specs.Planned.{IsPlanOfRoll};
ghost use Rattle.roll_session.specs.Saves.{IsRunTo};
ghost use Rattle.roll_session.specs.Seen.{game_of, FollowsLog};
ghost use Rattle.roll_session.specs.Standing.{from_start, settled_rows};
ghost use Rattle.roll_session.specs.Started.{first_seen};
ghost use Rattle.roll_session.specs.Ways.{IsGoing};
ghost use Rattle.roll_tree.specs.SavedStates.{paths_of, state_named};

use crate::event::{Call, Grafted};
use crate::guess::{count_rerun, foretold_rows, guessed_rows, start_along};
use crate::log::Log;
use crate::place::{add_new_states, route_refusal};
use crate::roll::{Rolled, roll};
use crate::room::Room;
use crate::saves::Saves;
use crate::way::{Way, add_rolled};
use roll_branch::PackedRoute;
use roll_frame::{Claim, Refusal, Reply, Route, Row, Settings};
use roll_game::Game;
use roll_inputs::{Board, Heard, RemoteWord, Source};
use roll_plan::{Plan, Planner};
use roll_tree::Tree;
use std::alloc::Global;
use std::marker::Model;

/// A session whose game runs elsewhere: what it is told of each saved state, such as where that is, it keeps beside the state's
/// path.
///
/// It can't tell whether the states that it is handed are right. If each is worth what the rows up to it lead to, so is
/// each state that it keeps, in any game.
#[derive(Drop)]
pub struct Core<S> {
    pub(crate) settings: Settings,
    pub(crate) saves: Saves<S>,
    planner: Planner,
    log: Log,
    room: Room,
}

impl<S> Model for Core<S> {
    ghost use Rattle.roll_session.specs.Gameless.{Bare, IsBare, seen_bare, unroomed};
    ghost use Rattle.roll_session.specs.Held.{HasRoom};

    ghost Value = { Bare S };

    ghost view = { λ s. record { seen = seen_bare s.settings s.log.entries s.room.promised; saves = unroomed s.saves } };

    ghost invariant = { λ s. IsBare s.settings s.log.entries s.saves s.planner × HasRoom s.log s.saves s.room };
}

impl<S> Core<S> {
    /// A session at its start, with what it is told of the opening.
    ///
    /// # Errors
    ///
    /// What is wrong with the settings, else `NoMemory` if the allocator has no room.
    pub fn new(alloc: Global, opening: S, settings: Settings) -> Result<Core<S>, Refusal>
    where
        S: Drop,
        ensures accepted { OnOk result (start_refusal settings ≡ None) }
        ensures seen { IfOk result (λ core. core.seen ≡ first_seen settings [] no_calls) }
        ensures alone { IfOk result (λ core. core.saves.tree.states
            ≡ record { name = core.saves.tree.root; path = []; snapshot = opening } ∷ []) }
        ensures refused { IfErr result (IsWhy (start_refusal settings)) }
    {
        let board = Board::new(alloc, &settings)?;
        let Ok(planner) = Planner::new(alloc, settings.players) else {
            return Err(Refusal::NoMemory);
        };
        let Ok(saves) = Saves::new(alloc, board, opening) else {
            return Err(Refusal::NoMemory);
        };
        Ok(Core {
            settings,
            saves,
            planner,
            log: Log::new(alloc),
            room: Room {
                promised: 0,
                there: 0,
            },
        })
    }

    /// Takes a player's input, or sees that it was taken before. Whatever the states are worth, those that are kept still are.
    ///
    /// # Errors
    ///
    /// As of the call of a session.
    pub fn take(&mut self, call: Call) -> Result<Heard, Refusal>
    where
        S: Drop,
        requires input { IsInput call }
        ensures answered { IsAnswered still self.old.seen self.new.seen (event_of call)
            (replied (λ heard. input_reply call heard) result) }
        ensures keeps { KeepsAll self.old.saves self.new.saves }
        ensures shown { self.new.seen.core.shown ≡ self.old.seen.core.shown }
    {
        match self.admit(call)? {
            Heard::Taken => {
                self.apply_input(call);
                Ok(Heard::Taken)
            }
            Heard::Repeated => Ok(Heard::Repeated),
        }
    }

    /// Judges a call that rolls, makes room for its entry, and answers where the roll starts and ends.
    ///
    /// # Errors
    ///
    /// As of the call of a session, but that no game refuses.
    pub fn look(&mut self, call: Call) -> Result<Way, Refusal>
        requires { IsRoll call }
        ensures way { IfOk result (CanEnter self.new call) }
        ensures from { IfOk result (λ way. way.frame ≡ depth self.old.seen.core way.to) }
        ensures looked { OnOk result (IsLooked self.old self.new) }
        ensures refused { IfErr result (λ why. IsAnswered still self.old.seen self.new.seen
            (event_of call) (Reply.Refused why)) }
        ensures unchanged { OnErr result (self.new ≡ self.old) }
    {
        self.admit(call)?;
        Ok(self.begin(call))
    }

    /// The state that a roll stands at.
    pub fn reached(&self, way: &Way) -> &S
        requires { IsGoing self.now.saves way.now }
        ensures { IsSomeAnd (state_named self.now.saves.tree way.now.at)
            (λ s. s.snapshot ≡ result.now) }
    {
        self.saves.reached(way)
    }

    /// Takes in the states of a roll that was looked at, all of them, in their order.
    pub fn enter(&mut self, call: Call, way: Way, states: &[S])
    where
        S: Copy,
        requires can { CanEnter self.old call way }
        requires all { length states.now ≡ way.to - way.frame }
        requires room { 1 ≤ self.old.seen.reserved }
        ensures entered { self.new.seen
            ≡ with_entries self.old.seen (entry_of call ∷ []) self.old.seen.counts }
        ensures keeps { KeepsGiven self.old.saves self.new.saves way.frame states.now }
    {
        self.saves.plan(&mut self.planner, &way);
        add_rolled(&mut self.saves, way, states);
        self.saves.finish_roll(call);
        self.saves.settle();
        self.log.add_call(call);
        self.room.spend();
    }

    /// Why a branch along this route would be refused now, if it would. `same` is whether its state at its anchor is the saved
    /// one.
    pub fn graft_refusal(&self, route: &Route, same: bool) -> Option<Refusal>
        ensures { result ≡ route_refusal_of same self.now route.now }
    {
        let most = usize::from(self.settings.profile.branch_limit());
        let refusal = route_refusal(&self.saves, route, most, same);
        if refusal.is_some() {
            refusal
        } else if self.log.len() >= self.settings.log as usize {
            Some(Refusal::LogFull)
        } else {
            None
        }
    }

    /// Takes in a branch along this route, with the states that it ran to. `same` is whether its state at its anchor is the
    /// saved one. A refused branch is dropped.
    ///
    /// # Errors
    ///
    /// What [`graft_refusal`](Self::graft_refusal) answers, else `NoMemory` if the allocator has no room. Nothing is changed.
    pub fn graft(
        &mut self,
        ticket: u64,
        route: PackedRoute,
        states: Vec<S>,
        same: bool,
    ) -> Result<Grafted, Refusal>
    where
        S: Drop,
        requires { length states.items ≡ length route.rows.items }
        ensures accepted { OnOk result (route_refusal_of same self.old route ≡ None) }
        ensures grafted { IfOk result (λ grafted. grafted.added
            ≡ length (new_paths self.old.seen.core (branch_of route))) }
        ensures taken { OnOk result
            (self.new.seen ≡ after_graft self.old.seen (bare_branch ticket route)) }
        ensures keeps { OnOk result
            (KeepsGrafted self.old.saves self.new.saves route states.items) }
        ensures branch { OnOk result
            (KeepsBranch self.old.saves self.new.saves route states.items) }
        ensures refused { IfErr result (IsRefused (route_refusal_of same self.old route)
            self.old.seen self.new.seen) }
        ensures unchanged { OnErr result (self.new ≡ self.old) }
    {
        let along = route.get();
        if let Some(why) = self.graft_refusal(&along, same) {
            return Err(why);
        }
        self.reserve_log(1)?;
        Ok(self.enter_branch(ticket, route, &along, states))
    }

    /// A guess: if this player gave these words next. Answers the state that its job starts from, by name, and the job's route.
    /// None if all of it is kept.
    ///
    /// # Errors
    ///
    /// What the tests of a guess say, in their order.
    pub fn guess(
        &self,
        player: u8,
        words: &[u32],
        until: u32,
    ) -> Result<Option<(usize, Route)>, Refusal>
        ensures job { IfOk result (λ start. option_map (λ s. bare_branch 0 s.1) start
            ≡ guess_job_of still self.now.seen player words.now until) }
        ensures node { IfOk result (λ start. IfSome start
            (λ s. IsSomeAnd (state_named self.now.saves.tree s.0)
            (λ u. u.path ≡ s.1.path.rows.items))) }
        ensures accepted { OnOk result
            (guess_refusal_of self.now.seen player words.now until ≡ None) }
        ensures refused { IfErr result
            (λ why. guess_refusal_of self.now.seen player words.now until ≡ Some why) }
    {
        let board = self.saves.board();
        if let Some(why) = board.guess_refusal(player, words, until) {
            return Err(why);
        }
        let rows = guessed_rows(board, player, words, until);
        Ok(start_along(&self.saves, rows.as_slice()))
    }

    /// A guess with words that have come, but that it isn't told yet, as that of a session. Answers the state that its job starts
    /// from, by name, and the job's route. None if all of it is kept.
    ///
    /// # Errors
    ///
    /// What the tests of the words and of the frame say, in their order.
    pub fn guess_words(
        &self,
        words: &[RemoteWord],
        until: u32,
    ) -> Result<Option<(usize, Route)>, Refusal>
        ensures job { IfOk result (λ start. option_map (λ s. bare_branch 0 s.1) start
            ≡ words_job_of still self.now.seen words.now until) }
        ensures node { IfOk result (λ start. IfSome start
            (λ s. IsSomeAnd (state_named self.now.saves.tree s.0)
            (λ u. u.path ≡ s.1.path.rows.items))) }
        ensures accepted { OnOk result
            (guess_words_refusal_of self.now.seen words.now until ≡ None) }
        ensures refused { IfErr result
            (λ why. guess_words_refusal_of self.now.seen words.now until ≡ Some why) }
    {
        let board = self.saves.board();
        if let Some(why) = board.foretold_refusal(words, until) {
            return Err(why);
        }
        let rows = foretold_rows(board, words, until);
        Ok(start_along(&self.saves, rows.as_slice()))
    }

    /// How many frames a roll to the current frame would run, if it were told these words, as of a session.
    ///
    /// # Errors
    ///
    /// What the tests of the words say, in their order.
    pub fn rerun(&self, words: &[RemoteWord]) -> Result<u32, Refusal>
        ensures frames { IfOk result (λ frames. frames ≡ rerun_of self.now.seen words.now) }
        ensures accepted { OnOk result (words_refusal_of self.now.seen words.now ≡ None) }
        ensures refused { IfErr result
            (λ why. words_refusal_of self.now.seen words.now ≡ Some why) }
    {
        if let Some(why) = self.saves.board().words_refusal(words) {
            return Err(why);
        }
        Ok(count_rerun(&self.saves, words))
    }

    /// The claim of the last roll: what was kept before it, and why it started where it did.
    ///
    /// # Errors
    ///
    /// `NoPlan` if there is no last plan, else `NoMemory` if the allocator has no room.
    pub fn claim(&self, alloc: Global) -> Result<Claim, Refusal>
        ensures claim { IfOk result (λ claim. IfSome self.now.seen.core.last
            (λ roll. claim ≡ claim_of self.now.seen.settings.players roll)) }
        ensures last { IfOk result (λ claim. last_claim self.now.seen ≡ Some claim) }
        ensures right { IfOk result (λ claim. IsRight claim) }
        ensures made { OnOk result (is_none self.now.seen.core.last ≡ false) }
        ensures refused { IfErr result (λ why. why ≡ (if is_none self.now.seen.core.last
            then Refusal.NoPlan else Refusal.NoMemory)) }
    {
        self.planner.claim(alloc)
    }

    /// Makes room for so many more events, as a session's `reserve_log` does.
    ///
    /// # Errors
    ///
    /// `LogFull` if the log would pass its limit, else `NoMemory` if the allocator has no room.
    pub fn reserve_log(&mut self, events: u32) -> Result<(), Refusal>
        ensures fits { OnOk result (FitsLog self.old.seen events) }
        ensures reserved { OnOk result (self.new ≡ record self.old {
          seen = record self.old.seen { reserved = max self.old.seen.reserved events };
        }) }
        ensures refused { IfErr result (IsWhy (reserve_refusal self.old.seen events)) }
        ensures short { OnErr result
            (FitsLog self.old.seen events → self.old.seen.reserved < events) }
        ensures unchanged { OnErr result (self.new ≡ self.old) }
    {
        if events as usize > self.settings.log as usize - self.log.len() {
            return Err(Refusal::LogFull);
        }
        self.room.promise(&mut self.log, &mut self.saves, events)?;
        Ok(())
    }

    /// The log is one that events of a session leave whose game is still, and the saved states are those that it keeps.
    pub fn laws(&self)
        ensures log { FollowsLog still self.now.seen }
        ensures inputs { self.now.saves.inputs
            ≡ inputs_of self.now.seen.settings self.now.seen.core }
        ensures kept { from_start (settled_rows self.now.seen.core)
            (paths_of self.now.saves.tree) ≡ kept self.now.seen.core }
        ensures within { self.now.saves.inputs.settled ≤ self.now.seen.core.frame }
        ensures base { self.now.saves.tree.base ≡ self.now.saves.inputs.settled }
        ensures bare { self.now.seen ≡ with_game [] no_calls self.now.seen }
    {
        self.saves.laws();
    }

    /// The timeline's row of a frame from the settled one on.
    pub fn row(&self, frame: u32) -> Row
        requires { self.now.saves.inputs.settled ≤ frame }
        ensures { result ≡ row_at self.now.saves.inputs.players frame }
    {
        self.saves.board().row(frame)
    }

    /// The current frame.
    pub fn frame(&self) -> u32
        ensures { result ≡ self.now.seen.core.frame }
    {
        self.saves.board().frame()
    }

    /// How many players there are. They are numbered from 1.
    pub fn players(&self) -> u8
        ensures { result ≡ length self.now.seen.core.players }
    {
        self.settings.players
    }

    /// Whether there is such a player, and it is local.
    pub fn is_local(&self, player: u8) -> bool
        ensures { result ≡ of_player (λ p. p.local) self.now.seen.core.players player }
    {
        self.saves.board().is_local(player)
    }

    /// How many words of a player are confirmed. None if there is no such player.
    pub fn confirmed(&self, player: u8) -> Option<u32>
        ensures { result
            ≡ option_map (λ p. length p.words) (player_at self.now.seen.core.players player) }
    {
        self.saves.board().confirmed(player)
    }

    /// The confirmed word of a player at a frame, settled or not. None if it isn't confirmed, and if there is no such player.
    pub fn confirmed_word(&self, player: u8, frame: u32) -> Option<u32>
        ensures { result ≡ confirmed_word self.now.seen.core.players player frame }
    {
        self.saves.confirmed_word(player, frame)
    }

    /// Where a player's cell of a frame, past or to come, is from. None where there is no such player.
    pub fn source(&self, player: u8, frame: u32) -> Option<Source>
        ensures { result
            ≡ option_map (source_at frame) (player_at self.now.seen.core.players player) }
    {
        self.saves.board().source(player, frame)
    }

    /// How many rows are settled.
    pub fn settled(&self) -> u32
        ensures { result ≡ settled_frame self.now.seen.core }
    {
        self.saves.board().settled()
    }

    /// A settled row: it never changes. None from the settled frame on.
    pub fn settled_row(&self, frame: u32) -> Option<Row>
        ensures { result ≡ (if nat_lt frame (settled_frame self.now.seen.core)
            then Some (row_at self.now.seen.core.players frame) else None) }
    {
        self.saves.settled_row(frame)
    }

    /// The plan of the last roll, as that of a session.
    pub(crate) fn last_plan(&self) -> Option<&Plan>
        ensures when { is_none result ≡ is_none self.now.seen.core.last }
        ensures plan { IfSome self.now.seen.core.last (λ roll. IfSome result
            (λ plan. IsPlanOfRoll self.now.seen.settings.players roll plan.now)) }
    {
        self.planner.last()
    }

    /// The timeline and the saved states.
    pub(crate) fn saves(&self) -> &Saves<S>
        ensures { unroomed result.now ≡ self.now.saves }
    {
        &self.saves
    }

    /// The accepted events.
    pub fn log(&self) -> &Log
        ensures { result.now.entries ≡ self.now.seen.log }
    {
        &self.log
    }

    /// The settings that it was started with.
    pub fn settings(&self) -> &Settings
        ensures { result.now ≡ self.now.seen.settings }
    {
        &self.settings
    }

    /// The saved states.
    pub fn saved(&self) -> &Tree<S>
        ensures { result.now ≡ self.now.saves.tree }
    {
        self.saves.tree()
    }

    /// Judges a call, and makes sure that there is room for its entry.
    #[inline(always)]
    pub(crate) fn admit(&mut self, call: Call) -> Result<Heard, Refusal>
        ensures heard { IfOk result
            (λ heard. IsAdmitted still self.old.seen self.new.seen call heard) }
        ensures saves { self.new.saves ≡ self.old.saves }
        ensures refused { IfErr result (λ why. IsAnswered still self.old.seen self.new.seen
            (event_of call) (Reply.Refused why)) }
        ensures unchanged { OnErr result (self.new ≡ self.old) }
    {
        match self.judge(call) {
            Ok(Heard::Taken) => {
                self.reserve_log(1)?;
                Ok(Heard::Taken)
            }
            Ok(Heard::Repeated) => Ok(Heard::Repeated),
            Err(why) => Err(why),
        }
    }

    /// What the rules say of a call, apart from a full log.
    #[inline(always)]
    fn judge(&self, call: Call) -> Result<Heard, Refusal>
        ensures { result ≡ judged (is_repeat self.now.seen.core (entry_of call))
            (first_refusal (tests_of self.now.seen.settings (game_of still self.now.seen)
            self.now.seen.core [] (entry_of call))) }
    {
        self.saves.judge(call)
    }

    /// Takes in a branch that the rules accept, and that ran along this route.
    pub(crate) fn enter_branch(
        &mut self,
        ticket: u64,
        route: PackedRoute,
        along: &Route,
        states: Vec<S>,
    ) -> Grafted
    where
        S: Drop,
        requires along { along.now ≡ route }
        requires many { length states.items ≡ length route.rows.items }
        requires accepted { graft_refusal still self.old.seen (bare_branch ticket route) ≡ None }
        requires room { 1 ≤ self.old.seen.reserved }
        ensures entered { self.new.seen
            ≡ after_graft self.old.seen (bare_branch ticket route) }
        ensures added { result.added
            ≡ length (new_paths self.old.seen.core (branch_of route)) }
        ensures keeps { KeepsGrafted self.old.saves self.new.saves route states.items }
        ensures branch { KeepsBranch self.old.saves self.new.saves route states.items }
    {
        self.saves.laws();
        let added = add_new_states(&mut self.saves, along, states);
        self.saves.settle();
        self.log.add_graft(ticket, route);
        self.room.spend();
        Grafted { added }
    }

    /// Where the roll of a call starts and ends.
    fn begin(&mut self, call: Call) -> Way
        requires { IsRoll call }
        ensures going { IsGoing self.new.saves result }
        ensures to { IsRollTo self.old.seen.core call result.to }
        ensures from { result.frame ≡ depth self.old.seen.core result.to }
        ensures seen { self.new.seen ≡ self.old.seen }
        ensures told { self.new.saves ≡ record self.old.saves {
          tree = record self.old.saves.tree { time = self.new.saves.tree.time };
        } }
    {
        let to = self.goal_of(call);
        self.saves.laws();
        self.saves.way_to(to)
    }

    /// Takes a player's input that the rules accept.
    fn apply_input(&mut self, call: Call)
    where
        S: Drop,
        requires input { IsInput call }
        requires allowed { IsAllowed still self.old.seen call }
        requires room { 1 ≤ self.old.seen.reserved }
        ensures taken { self.new.seen
            ≡ with_entries self.old.seen (entry_of call ∷ []) self.old.seen.counts }
        ensures shown { self.new.seen.core.shown ≡ self.old.seen.core.shown }
        ensures keeps { KeepsAll self.old.saves self.new.saves }
    {
        self.saves.laws();
        self.saves.take(call);
        self.saves.settle();
        self.log.add_call(call);
        self.room.spend();
    }

    /// The frame that a call rolls to.
    fn goal_of(&self, call: Call) -> u32
        requires { IsRoll call }
        ensures { IsRollTo self.now.seen.core call result }
    {
        self.saves.laws();
        let frame = self.saves.board().frame();
        match call {
            Call::Advance => frame + 1,
            _ => frame,
        }
    }
}

/// Rolls to the frame of a call that the rules accept, by the game at hand. Where the game refuses, it says how many states were saved,
/// and there is no plan.
pub(crate) fn roll_by<G: Game>(
    game: &mut G,
    core: &mut Core<G::Snapshot>,
    call: Call,
    to: u32,
) -> Result<Rolled<G::State>, u32>
    requires to { IsRollTo core.old.seen.core call to }
    requires allowed { IsAllowed still core.old.seen call }
    requires room { 1 ≤ core.old.seen.reserved }
    ensures entered { OnOk result (core.new.seen
        ≡ with_entries core.old.seen (entry_of call ∷ []) core.old.seen.counts) }
    ensures from { IfOk result (λ rolled. rolled.from ≡ depth core.old.seen.core to) }
    ensures within { IfOk result (λ rolled. rolled.from ≤ to) }
    ensures state { IfOk result (λ rolled. IsRunTo G.snapshot_value G.step core.old.saves to
        (G.state_value rolled.state)) }
    ensures counts { OnOk result (G.call_counts game.new
        ≡ counts_by core.old.seen.core (entry_of call) (G.call_counts game.old)) }
    ensures values { KeepsWorths G.snapshot_value G.step core.old.saves core.new.saves }
    ensures made { IfErr result (λ made. made ≤ cost core.old.seen.core to) }
    ensures cut { IfErr result (λ made. core.new.seen
        ≡ after_partial core.old.seen to made core.old.seen.counts) }
    ensures refused { IfErr result
        (λ made. IsRefusedAt made (G.call_counts game.old) (G.call_counts game.new)) }
{
    core.saves.laws();
    match roll(game, &mut core.saves, &mut core.planner, to) {
        Ok(rolled) => {
            core.saves.finish_roll(call);
            core.saves.settle();
            core.log.add_call(call);
            core.room.spend();
            Ok(rolled)
        }
        Err(made) => {
            core.saves.settle();
            core.log.add_partial(to, made);
            core.room.spend();
            Err(made)
        }
    }
}
