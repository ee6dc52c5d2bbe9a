//! The session.
ghost use Rattle.std.specs.Prelude.{◌≡◌, ℕ, ◌≤◌, ◌<◌, ◌+◌, ◌-◌, ◌∷◌, [], length, true, false, map, max, nat_lt, IfOk, OnOk, IfErr, OnErr, IfSome, IsSome, is_none, option_and_then, option_copied, None, Some, if◌then◌else◌};
ghost use Rattle.std.specs.Option.{option_map};
ghost use Rattle.roll_frame.specs.Claims.{claim_of, path_from, IsRight};
ghost use Rattle.roll_frame.specs.Core.{depth, kept as kept_of, settled as settled_frame};
ghost use Rattle.roll_frame.specs.Events.{answer, branch_of};
ghost use Rattle.roll_frame.specs.Grafts.{new_paths};
ghost use Rattle.roll_frame.specs.Inputs.{is_repeated, of_player, player_at};
ghost use Rattle.roll_frame.specs.Order.{in_order};
ghost use Rattle.roll_frame.specs.Paths.{run as run_of};
ghost use Rattle.roll_frame.specs.Settings.{delay_at, start_refusal};
ghost use Rattle.roll_frame.specs.Timeline.{row_at as row_of, timeline};
ghost use Rattle.roll_game.specs.Counts.{counted, no_calls};
ghost use Rattle.roll_game.specs.declared.counts.Call.TheVariants.{Load as Loads, Copy as Copies};
ghost use Rattle.roll_inputs.specs.Boards.{confirmed_word, source_at};
ghost use Rattle.roll_session.specs.Foretold.{guess_words_refusal_of, rerun_of, words_job_of, words_refusal_of};
ghost use Rattle.roll_session.specs.Gameless.{with_game};
ghost use Rattle.roll_session.specs.Guessing.{guess_job_of, guess_refusal_of, IsCopied};
ghost use Rattle.roll_session.specs.Held.{Shows};
ghost use Rattle.roll_session.specs.Planned.{IsPlanOfRoll};
ghost use Rattle.roll_session.specs.Answered.{counts_by, replied, with_entries, IsAnswered};
ghost use Rattle.roll_session.specs.Calls.{entry_of, event_of, input_reply, IsAdmitted, IsAllowed, IsInput, IsRollTo};
ghost use Rattle.roll_session.specs.Changes.{advance_refusal, after_advance, after_disconnect, after_graft, after_local, after_sync, disconnect_refusal, graft_refusal, local_refusal, reached_by, remote_refusal, reserve_refusal, sync_refusal, FitsLog, IsHeard, IsPartial, IsRefused, IsRollRefused, IsWhy};
ghost use Rattle.roll_session.specs.Seen.{FollowsLog, IsLeast};
ghost use Rattle.roll_session.specs.Started.{first_seen, IsGivenBack};
ghost use Rattle.roll_session.specs.Headline.{last_claim, value_shown};

use crate::event::{Call, Grafted, Reached};
use crate::gameless::{Core, roll_by};
use crate::guess::{foretold_rows, guessed_rows, job_along};
use crate::log::Log;
use crate::place::branch_refusal;
use crate::roll::Rolled;
use roll_branch::{Branch, Job, Parts as BranchParts};
use roll_frame::{Claim, Event, Path, Refusal, Reply, Route, Row, Settings};
use roll_game::{Game, StartFault};
use roll_inputs::{Heard, RemoteWord, Source};
use roll_plan::Plan;
use std::alloc::Global;
use std::marker::Model;
use std::mem;

/// A game that is run ahead on predicted inputs, and again if they were wrong.
///
/// Only `start`, rolls and guesses ask the game for a load, a save, a copy or an advance. A roll, of
/// `synchronize_input` or `advance_frame`, asks for one load, also if it runs no frame, and for an advance and a save
/// for each frame that it runs.
#[derive(Drop)]
pub struct Session<G: Game> {
    game: G,
    opening: G::Snapshot,
    core: Core<G::Snapshot>,
    current: Option<G::State>,
}

impl<G: Game> Model for Session<G> {
    ghost use Rattle.roll_session.specs.Gameless.{with_game, HasGame};
    ghost use Rattle.roll_session.specs.Seen.{Seen};

    ghost Value = { Seen };

    ghost view = { λ s. with_game (G.snapshot_value s.opening) (G.call_counts s.game) s.core.seen };

    ghost invariant = { λ s. HasGame G.state_value G.snapshot_value G.step (G.snapshot_value s.opening) s.core s.current };
}

impl<G: Game> Session<G> {
    /// Starts a session at frame 0, with the opening shown. The game is asked for a copy of the opening, and then to load it.
    ///
    /// # Errors
    ///
    /// What is wrong with the settings, else `NoMemory` if the allocator has no room, or the game refuses. Game and opening
    /// are handed back.
    pub fn start(
        alloc: Global,
        game: G,
        opening: G::Snapshot,
        settings: Settings,
    ) -> Result<Session<G>, StartFault<G>>
        ensures accepted { OnOk result (start_refusal settings ≡ None) }
        ensures session { IfOk result (λ session. session ≡ first_seen settings
            (G.snapshot_value opening)
            (counted Loads true (counted Copies true (G.call_counts game)))) }
        ensures refused { IfErr result (λ fault. IsWhy (start_refusal settings) fault.why) }
        ensures opening_back { IfErr result (λ fault. fault.opening ≡ opening) }
        ensures game_back { IfErr result (λ fault. IsGivenBack (start_refusal settings)
            (G.call_counts game) (G.call_counts fault.game)) }
    {
        let mut game = game;
        if let Some(why) = settings.refusal() {
            return Err(StartFault { why, game, opening });
        }
        let why = Refusal::NoMemory;
        let Ok(first) = game.copy(&opening) else {
            return Err(StartFault { why, game, opening });
        };
        let Ok(core) = Core::new(alloc, first, settings) else {
            return Err(StartFault { why, game, opening });
        };
        let Ok(state) = game.load(&opening) else {
            return Err(StartFault { why, game, opening });
        };
        core.laws();
        Ok(Session {
            game,
            opening,
            core,
            current: Some(state),
        })
    }

    /// The row of this frame. Rolls back if a prediction was wrong, and shows the state of this frame. No plan from any state
    /// that was ever saved runs fewer frames.
    ///
    /// # Errors
    ///
    /// `LogFull`, else `NoMemory` if the allocator has no room, and nothing is changed, or if the game refuses: what it has
    /// saved by then stays, nothing is shown, and the call can be made again.
    pub fn synchronize_input(&mut self) -> Result<Row, Refusal>
        ensures accepted { OnOk result (sync_refusal self.old ≡ None) }
        ensures row { IfOk result
            (λ row. row ≡ row_of self.old.core.players self.old.core.frame) }
        ensures rolled { OnOk result (self.new ≡ after_sync self.old) }
        ensures least { IsLeast self.old.core self.old.core.frame }
        ensures refused { IfErr result
            (IsRollRefused (sync_refusal self.old) self.old self.new self.old.core.frame) }
    {
        self.core.laws();
        let frame = self.core.frame();
        let row = self.core.row(frame);
        self.roll_to(Call::Sync, frame)?;
        Ok(row)
    }

    /// Goes on to the next frame, and shows its state. Rolls back first if a prediction was wrong. No plan from any state that
    /// was ever saved runs fewer frames.
    ///
    /// # Errors
    ///
    /// `LocalInputMissing` if a local player has not given its word of this frame, then `LogFull`, else `NoMemory` as for
    /// [`synchronize_input`](Self::synchronize_input).
    pub fn advance_frame(&mut self) -> Result<Reached, Refusal>
        ensures accepted { OnOk result (advance_refusal self.old ≡ None) }
        ensures reached { IfOk result (λ reached. reached ≡ reached_by self.old.core) }
        ensures rolled { OnOk result (self.new ≡ after_advance self.old) }
        ensures least { IsLeast self.old.core (self.old.core.frame + 1) }
        ensures refused { IfErr result
            (IsRollRefused (advance_refusal self.old) self.old self.new (self.old.core.frame + 1)) }
    {
        self.core.laws();
        let next = self.core.frame() + 1;
        let from = self.roll_to(Call::Advance, next)?;
        Ok(Reached {
            frame: next,
            from,
            rerun: next - from,
        })
    }

    /// Gives a local player's word of this frame. It counts in a later one if the player has a delay.
    ///
    /// # Errors
    ///
    /// `InvalidPlayer`, `InputTwice`, `PredictionThreshold`, `FrameLimit`, in this order, then `LogFull`, else `NoMemory` if the
    /// allocator has no room. Nothing is changed.
    pub fn add_local_input(&mut self, player: u8, word: u32) -> Result<(), Refusal>
        ensures accepted { OnOk result (local_refusal self.old player ≡ None) }
        ensures taken { OnOk result (self.new ≡ after_local self.old player word) }
        ensures refused { IfErr result
            (IsRefused (local_refusal self.old player) self.old self.new) }
    {
        self.take(Call::Local { player, word })?;
        Ok(())
    }

    /// Takes the next word of a remote player, or sees that it was taken before.
    ///
    /// # Errors
    ///
    /// `InvalidPlayer`, `PlayerDisconnected`, `Conflict` with another word that was taken, `Gap` before it, `QueueFull` 128
    /// words past the settled frame, in this order, then `LogFull`, else `NoMemory` if the allocator has no room. Nothing is
    /// changed.
    pub fn remote_input(&mut self, player: u8, frame: u32, word: u32) -> Result<Heard, Refusal>
        ensures heard { IfOk result (IsHeard self.old self.new player frame word) }
        ensures fresh { OnErr result
            (is_repeated self.old.core.players player frame word ≡ false) }
        ensures refused { IfErr result
            (IsRefused (remote_refusal self.old player frame) self.old self.new) }
    {
        self.take(Call::Remote {
            player,
            frame,
            word,
        })
    }

    /// A remote player leaves: its cells are gone from the frame of its next word on.
    ///
    /// # Errors
    ///
    /// `InvalidPlayer`, `PlayerDisconnected`, in this order, then `LogFull`, else `NoMemory` if the allocator has no room.
    /// Nothing is changed.
    pub fn disconnect_player(&mut self, player: u8) -> Result<Event, Refusal>
        ensures accepted { OnOk result (disconnect_refusal self.old player ≡ None) }
        ensures taken { OnOk result (self.new ≡ after_disconnect self.old player) }
        ensures event { IfOk result (λ event. event ≡ Event.DisconnectedFromPeer player) }
        ensures refused { IfErr result
            (IsRefused (disconnect_refusal self.old player) self.old self.new) }
    {
        self.take(Call::Disconnect { player })?;
        Ok(Event::DisconnectedFromPeer { player })
    }

    /// Why a branch would be refused now, if it would: what `graft` would answer, but for want of memory.
    pub fn graft_refusal(&self, branch: &Branch<G>) -> Option<Refusal>
        ensures { result ≡ graft_refusal G.step self.now branch.now }
    {
        self.refusal_along(branch, &branch.route())
    }

    fn refusal_along(&self, branch: &Branch<G>, route: &Route) -> Option<Refusal>
        requires { route.now ≡ branch.now.route }
        ensures { result ≡ graft_refusal G.step self.now branch.now }
    {
        self.core.laws();
        let settings = self.core.settings();
        let most = usize::from(settings.profile.branch_limit());
        let refusal = branch_refusal(&self.game, self.core.saves(), branch, route, most);
        if refusal.is_some() {
            refusal
        } else if self.core.log().len() >= settings.log as usize {
            Some(Refusal::LogFull)
        } else {
            None
        }
    }

    /// Takes a branch in: saves its new states, moved, not copied, and settles what can be settled then. A refused branch
    /// is dropped.
    ///
    /// # Errors
    ///
    /// What [`graft_refusal`](Self::graft_refusal) answers, else `NoMemory` if the allocator has no room. Nothing is changed.
    pub fn graft(&mut self, branch: Branch<G>) -> Result<Grafted, Refusal>
        ensures accepted { OnOk result (graft_refusal G.step self.old branch ≡ None) }
        ensures grafted { IfOk result (λ grafted. grafted.added
            ≡ length (new_paths self.old.core (branch_of branch.route))) }
        ensures taken { OnOk result (self.new ≡ after_graft self.old branch) }
        ensures refused { IfErr result
            (IsRefused (graft_refusal G.step self.old branch) self.old self.new) }
    {
        let route = branch.route();
        if let Some(why) = self.refusal_along(&branch, &route) {
            return Err(why);
        }
        self.reserve_log(1)?;
        Ok(self.take_branch(branch, &route))
    }

    /// A guess: if this player gave these words next. The job is to run the timeline that this would make, up to a
    /// frame, from the deepest kept state on its way, at most 8 rows. None if all of it is kept. A guess is no event,
    /// and isn't logged.
    ///
    /// # Errors
    ///
    /// What the tests of a guess say, in their order, else `NoMemory` if the allocator has no room, or the game refuses
    /// its copy, for which it is asked last.
    pub fn guess(
        &mut self,
        alloc: Global,
        player: u8,
        words: &[u32],
        until: u32,
    ) -> Result<Option<Job<G>>, Refusal>
        ensures job { IfOk result
            (λ job. job ≡ guess_job_of G.step self.old player words.now until) }
        ensures accepted { OnOk result (guess_refusal_of self.old player words.now until ≡ None) }
        ensures refused { IfErr result
            (IsWhy (guess_refusal_of self.old player words.now until)) }
        ensures unasked { IsSome (guess_refusal_of self.old player words.now until)
            → self.new ≡ self.old }
        ensures asked { IsCopied self.old.counts self.new.counts result }
        ensures same { self.new ≡ record self.old { counts = self.new.counts } }
    {
        self.core.laws();
        let saves = self.core.saves();
        let board = saves.board();
        if let Some(why) = board.guess_refusal(player, words, until) {
            return Err(why);
        }
        let rows = guessed_rows(board, player, words, until);
        job_along(&mut self.game, saves, alloc, rows.as_slice())
    }

    /// A guess with words that have come, but that it isn't told yet, in their order: each has to be the next of its player,
    /// 1 to 64 of them. The job is to run the timeline that they would make, as that of [`guess`](Self::guess).
    ///
    /// # Errors
    ///
    /// What the tests of the words and of the frame say, in their order, else `NoMemory` if the allocator has no room, or the
    /// game refuses its copy, for which it is asked last.
    pub fn guess_words(
        &mut self,
        alloc: Global,
        words: &[RemoteWord],
        until: u32,
    ) -> Result<Option<Job<G>>, Refusal>
        ensures job { IfOk result (λ job. job ≡ words_job_of G.step self.old words.now until) }
        ensures accepted { OnOk result
            (guess_words_refusal_of self.old words.now until ≡ None) }
        ensures refused { IfErr result
            (IsWhy (guess_words_refusal_of self.old words.now until)) }
        ensures unasked { IsSome (guess_words_refusal_of self.old words.now until)
            → self.new ≡ self.old }
        ensures asked { IsCopied self.old.counts self.new.counts result }
        ensures same { self.new ≡ record self.old { counts = self.new.counts } }
    {
        self.core.laws();
        let saves = self.core.saves();
        let board = saves.board();
        if let Some(why) = board.foretold_refusal(words, until) {
            return Err(why);
        }
        let rows = foretold_rows(board, words, until);
        job_along(&mut self.game, saves, alloc, rows.as_slice())
    }

    /// How many frames a roll to the current frame would run, if it were told these words, which are as those of
    /// [`guess_words`](Self::guess_words).
    ///
    /// # Errors
    ///
    /// What the tests of the words say, in their order.
    pub fn rerun(&self, words: &[RemoteWord]) -> Result<u32, Refusal>
        ensures frames { IfOk result (λ frames. frames ≡ rerun_of self.now words.now) }
        ensures accepted { OnOk result (words_refusal_of self.now words.now ≡ None) }
        ensures refused { IfErr result
            (λ why. words_refusal_of self.now words.now ≡ Some why) }
    {
        self.core.rerun(words)
    }

    /// Takes a player's input, or sees that it was taken before.
    #[inline(always)]
    fn take(&mut self, call: Call) -> Result<Heard, Refusal>
        requires input { IsInput call }
        ensures { IsAnswered G.step self.old self.new (event_of call)
            (replied (λ heard. input_reply call heard) result) }
    {
        self.core.laws();
        self.core.take(call)
    }

    /// Rolls to the call's frame, and says where the roll started.
    fn roll_to(&mut self, call: Call, to: u32) -> Result<u32, Refusal>
        requires to { IsRollTo self.old.core call to }
        ensures answered { IsAnswered G.step self.old self.new (event_of call)
            (replied (λ from. answer self.old.core (entry_of call)) result) }
        ensures from { IfOk result (λ from. from ≡ depth self.old.core to) }
        ensures within { IfOk result (λ from. from ≤ to) }
        ensures least { IsLeast self.old.core to }
    {
        self.laws();
        self.admit(call)?;
        self.roll_on(call, to)
    }

    /// Judges a call, and makes sure that there is room for its entry.
    #[inline(always)]
    fn admit(&mut self, call: Call) -> Result<Heard, Refusal>
        ensures heard { IfOk result (λ heard. IsAdmitted G.step self.old self.new call heard) }
        ensures refused { IfErr result
            (λ why. IsAnswered G.step self.old self.new (event_of call) (Reply.Refused why)) }
    {
        self.core.admit(call)
    }

    /// Takes in a branch that the rules accept, and that ran along this route.
    fn take_branch(&mut self, branch: Branch<G>, along: &Route) -> Grafted
        requires along { along.now ≡ branch.route }
        requires accepted { graft_refusal G.step self.old branch ≡ None }
        requires room { 1 ≤ self.old.reserved }
        ensures entered { self.new ≡ after_graft self.old branch }
        ensures added { result.added ≡ length (new_paths self.old.core (branch_of branch.route)) }
    {
        self.core.laws();
        let BranchParts {
            ticket,
            route,
            states,
        } = branch.into_parts();
        self.core.enter_branch(ticket, route, along, states)
    }

    /// Rolls to the frame of a call that the rules accept, and says where the roll started.
    fn roll_on(&mut self, call: Call, to: u32) -> Result<u32, Refusal>
        requires to { IsRollTo self.old.core call to }
        requires allowed { IsAllowed G.step self.old call }
        requires room { 1 ≤ self.old.reserved }
        ensures entered { OnOk result
            (self.new ≡ with_entries self.old (entry_of call ∷ [])
            (counts_by self.old.core (entry_of call) self.old.counts)) }
        ensures from { IfOk result (λ from. from ≡ depth self.old.core to) }
        ensures within { IfOk result (λ from. from ≤ to) }
        ensures cut { OnErr result (IsPartial self.old self.new to) }
        ensures why { IfErr result (λ why. why ≡ Refusal.NoMemory) }
    {
        self.core.laws();
        match roll_by(&mut self.game, &mut self.core, call, to) {
            Ok(Rolled { state, from }) => {
                self.current = Some(state);
                Ok(from)
            }
            Err(_) => {
                self.current = None;
                Err(Refusal::NoMemory)
            }
        }
    }

    /// Makes room for so many more events: while the game refuses nothing, none of them is refused for want of memory.
    /// Each entry that the log then gets counts as one of them. A call for no more than are left changes nothing, and is
    /// never refused for want of memory.
    ///
    /// # Errors
    ///
    /// `LogFull` if the log would pass its limit, else `NoMemory` if the allocator has no room.
    pub fn reserve_log(&mut self, events: u32) -> Result<(), Refusal>
        ensures fits { OnOk result (FitsLog self.old events) }
        ensures reserved { OnOk result
            (self.new ≡ record self.old { reserved = max self.old.reserved events }) }
        ensures refused { IfErr result (IsWhy (reserve_refusal self.old events)) }
        ensures short { OnErr result (FitsLog self.old events → self.old.reserved < events) }
        ensures unchanged { OnErr result (self.new ≡ self.old) }
    {
        self.core.reserve_log(events)
    }

    /// The log is one that events of a session that starts leave: so each law of `roll_laws` holds of the session's core.
    pub fn laws(&self)
        ensures log { FollowsLog G.step self.now }
        ensures least { (m : ℕ) → IsLeast self.now.core m }
    {
        self.core.laws();
    }

    /// The accepted events.
    pub fn log(&self) -> &Log
        ensures { result.now.entries ≡ self.now.log }
    {
        self.core.log()
    }

    /// The current frame.
    pub fn frame(&self) -> u32
        ensures { result ≡ self.now.core.frame }
    {
        self.core.frame()
    }

    /// The settings that it was started with.
    pub fn settings(&self) -> &Settings
        ensures { result.now ≡ self.now.settings }
    {
        self.core.settings()
    }

    /// How many players there are. They are numbered from 1.
    pub fn players(&self) -> u8
        ensures { result ≡ length self.now.core.players }
    {
        self.core.players()
    }

    /// Whether there is such a player, and it is local.
    pub fn is_local(&self, player: u8) -> bool
        ensures { result ≡ of_player (λ p. p.local) self.now.core.players player }
    {
        self.core.is_local(player)
    }

    /// The frame in which a local player's next word counts: as many frames from now as its delay, and one more once it
    /// has given its word of this frame. None if there is no such player, or it isn't local.
    pub fn input_frame(&self, player: u8) -> Option<u32>
        ensures counted { result ≡ option_and_then
            (λ p. if p.local then Some (length p.words) else None)
            (player_at self.now.core.players player) }
        ensures delayed { IfSome result (λ frame. frame
            ≡ self.now.core.frame + delay_at self.now.settings (player - 1)
            + (if of_player (λ p. p.given) self.now.core.players player then 1 else 0)) }
    {
        self.core.laws();
        if self.core.is_local(player) {
            self.core.confirmed(player)
        } else {
            None
        }
    }

    /// How many words of a player are confirmed: the frame whose word must come next. None if there is no such player.
    pub fn confirmed(&self, player: u8) -> Option<u32>
        ensures { result
            ≡ option_map (λ p. length p.words) (player_at self.now.core.players player) }
    {
        self.core.confirmed(player)
    }

    /// The confirmed word of a player at a frame, settled or not. None if it isn't confirmed, and if there is no such
    /// player.
    pub fn confirmed_word(&self, player: u8, frame: u32) -> Option<u32>
        ensures { result ≡ confirmed_word self.now.core.players player frame }
    {
        self.core.confirmed_word(player, frame)
    }

    /// Where a player's cell of a frame, past or to come, is from. None where there is no such player.
    pub fn source(&self, player: u8, frame: u32) -> Option<Source>
        ensures { result ≡ option_map (source_at frame) (player_at self.now.core.players player) }
    {
        self.core.source(player, frame)
    }

    /// The state that is shown: the opening at first, then where the last roll led. Inputs and grafts don't change it.
    /// None after a roll that the game refused, until one succeeds.
    pub fn current(&self) -> Option<&G::State>
        ensures shows { Shows G.state_value G.step self.now.opening self.now.core.shown
            (option_copied result) }
        ensures value { option_map G.state_value (option_copied result)
            ≡ value_shown G.step self.now }
    {
        self.current.as_ref()
    }

    /// How many rows are settled.
    pub fn settled(&self) -> u32
        ensures { result ≡ settled_frame self.now.core }
    {
        self.core.settled()
    }

    /// A settled row: it never changes. None from the settled frame on.
    pub fn settled_row(&self, frame: u32) -> Option<Row>
        ensures { result ≡ (if nat_lt frame (settled_frame self.now.core)
            then Some (row_of self.now.core.players frame) else None) }
    {
        self.core.settled_row(frame)
    }

    /// The state after the settled rows.
    pub fn settled_state(&self) -> &G::Snapshot
        ensures { G.snapshot_value result.now ≡ run_of G.step self.now.opening
            (timeline self.now.core.players (settled_frame self.now.core)) }
    {
        self.core.laws();
        let tree = self.core.saved();
        tree.get(tree.root())
    }

    /// The plan of the last roll. None at first, and after a roll that the game refused, until one succeeds.
    pub fn last_plan(&self) -> Option<&Plan>
        ensures when { is_none result ≡ is_none self.now.core.last }
        ensures plan { IfSome self.now.core.last (λ roll. IfSome result
            (λ plan. IsPlanOfRoll self.now.settings.players roll plan.now)) }
    {
        self.core.last_plan()
    }

    /// The claim of the last roll: what was kept before it, and why it started where it did. That it lists each path
    /// that was kept, once, is the law `order_keeps_all`.
    ///
    /// # Errors
    ///
    /// `NoPlan` if there is no last plan, else `NoMemory` if the allocator has no room.
    pub fn claim(&self, alloc: Global) -> Result<Claim, Refusal>
        ensures claim { IfOk result (λ claim. IfSome self.now.core.last
            (λ roll. claim ≡ claim_of self.now.settings.players roll)) }
        ensures last { IfOk result (λ claim. last_claim self.now ≡ Some claim) }
        ensures right { IfOk result (λ claim. IsRight claim) }
        ensures made { OnOk result (is_none self.now.core.last ≡ false) }
        ensures refused { IfErr result (λ why. why
            ≡ (if is_none self.now.core.last then Refusal.NoPlan else Refusal.NoMemory)) }
    {
        self.core.claim(alloc)
    }

    /// The paths of all kept states, in their order: those that can still matter.
    ///
    /// # Errors
    ///
    /// `NoMemory` if the allocator has no room.
    pub fn kept(&self, alloc: Global) -> Result<Vec<Path>, Refusal>
        ensures kept { IfOk result (λ paths. paths.items
            ≡ map (path_from (settled_frame self.now.core)) (in_order (kept_of self.now.core))) }
        ensures refused { IfErr result (λ why. why ≡ Refusal.NoMemory) }
    {
        self.core.laws();
        Ok(self.core.saved().kept(alloc)?)
    }

    /// Takes the session apart.
    pub fn into_parts(self) -> Parts<G>
        ensures opening { G.snapshot_value result.opening ≡ self.opening }
        ensures shown { Shows G.state_value G.step self.opening self.core.shown result.shown }
        ensures counts { G.call_counts result.game ≡ self.counts }
        ensures core { result.core.seen ≡ with_game [] no_calls self }
    {
        self.core.laws();
        Parts {
            game: self.game,
            opening: self.opening,
            shown: self.current,
            core: self.core,
        }
    }

    /// The game, as it was handed in or advanced since.
    pub fn game(&self) -> &G
        ensures { G.call_counts result.now ≡ self.now.counts }
    {
        &self.game
    }

    /// Puts another engine of the same game in the game's place, and hands out the one that was there: to take from it
    /// what it has gathered beside its states, such as sounds to play. A clause sees of an engine its counts alone:
    /// that the new one runs from then on, and the old one comes out, is tested (`tests/rattle/test_parts`).
    pub fn swap_game(&mut self, game: G) -> G
        ensures out { G.call_counts result ≡ self.old.counts }
        ensures put { self.new ≡ record self.old { counts = G.call_counts game } }
    {
        mem::replace(&mut self.game, game)
    }
}

/// What a session is taken apart into.
#[derive(Drop)]
pub struct Parts<G: Game> {
    pub game: G,
    /// The snapshot that the session was opened with.
    pub opening: G::Snapshot,
    /// The state that was shown, if there was one.
    pub shown: Option<G::State>,
    /// All else: the session without its game.
    pub core: Core<G::Snapshot>,
}
