//! A session whose game is played elsewhere.
ghost use Rattle.std.specs.Prelude.{◌≡◌, ◌==◌, ◌≤◌, ◌<◌, ◌++◌, ◌∷◌, [], drop, false, true, is_none, is_some, length, max, min, take, IfErr, IfOk, IfSome, IsSomeAnd, List, None, OnErr, OnOk, Some, if◌then◌else◌};
ghost use Rattle.roll_frame.specs.Claims.{claim_of, IsRight};
ghost use Rattle.roll_frame.specs.Core.{settled};
ghost use Rattle.roll_frame.specs.Settings.{start_refusal};
ghost use Rattle.roll_frame.specs.Timeline.{row_at};
ghost use Rattle.roll_game.specs.Counts.{no_calls};
ghost use Rattle.roll_session.specs.Answered.{replied, with_entries, IsAnswered};
ghost use Rattle.roll_session.specs.Calls.{entry_of, event_of, input_reply, IsAllowed, IsInput, IsRoll};
ghost use Rattle.roll_session.specs.Changes.{reserve_refusal, FitsLog, IsWhy};
ghost use Rattle.roll_session.specs.Foretold.{guess_words_refusal_of, rerun_of, words_job_of, words_refusal_of};
ghost use Rattle.roll_session.specs.Gameless.{bare_branch, still};
ghost use Rattle.roll_session.specs.Guessing.{guess_job_of, guess_refusal_of};
ghost use Rattle.roll_session.specs.Headline.{last_claim};
ghost use Rattle.roll_session.specs.Started.{first_seen};
ghost use Rattle.roll_tree.specs.SavedStates.{state_named};
ghost use Rattle.slab.specs.Slab.{get, slab_len, SameValues, Updates};
ghost use Rattle.roll_requests.specs.Asked.{rows_to_run, IsDeclinedRoll, IsGiven, IsHandedIn, IsIdle, IsNotGuessed, IsNumbered, IsSettledSlot, Leads, Rolls, SameTaken};
ghost use Rattle.roll_requests.specs.Ended.{end_refusal, IsEnded};
ghost use Rattle.roll_requests.specs.Planned.{IsShort};
ghost use Rattle.roll_requests.specs.Requests.{Adds};
ghost use Rattle.roll_requests.specs.Slotted.{free_slots, is_taken};
ghost use Rattle.roll_requests.specs.Sufficing.{most_slots};
ghost use Rattle.roll_requests.specs.declared.request.Request.{Request as Asks};

use crate::asking::{ask_end, ask_job, ask_roll};
use crate::closing::Closing;
use crate::declined::Declined;
use crate::job::{JOBS_OUT, Job, free_number};
use crate::limits::SLOTS;
use crate::plans::{RollPlan, plan_end, plan_job, plan_roll};
use crate::queue::Queue;
use crate::request::Request;
use crate::taken::Taken;
use roll_frame::{Claim, Refusal, Route, Row, Settings};
use roll_session::{Call, Core, Grafted, Heard, Reached, RemoteWord};
use slab::Slab;
use std::alloc::Global;
use std::marker::Model;
use std::mem;

/// A session whose game is played elsewhere: what it would do with the game becomes a list of requests, which are handed out in
/// order. Each state that is saved, or that a job has, is in a slot elsewhere.
#[derive(Drop)]
pub struct Elsewhere {
    alloc: Global,
    core: Core<u32>,
    queue: Queue,
    // The slot of the current state.
    at: u32,
    taken: Taken,
    // What a roll finds held.
    held: Taken,
    limit: u32,
    jobs: Slab<Job>,
}

impl Model for Elsewhere {
    ghost use Rattle.roll_requests.specs.Asked.{Asked};
    ghost use Rattle.roll_requests.specs.Slotted.{AreLimited, IsSlotted};

    ghost Value = { Asked };

    ghost view = { λ e. record { seen = e.core.seen; saves = e.core.saves; at = e.at; requests = e.queue.requests; limit = e.limit; jobs = e.jobs; taken = e.taken } };

    ghost invariant = { λ e. IsSlotted e.core.saves.tree.states e.jobs e.at e.taken × AreLimited e.limit e.jobs };
}

impl Elsewhere {
    /// A session at its start, whose opening is the current state elsewhere, and is in slot 0. It may use all slots.
    ///
    /// # Errors
    ///
    /// What is wrong with the settings, else `NoMemory` if the allocator has no room.
    pub fn start(alloc: Global, settings: Settings) -> Result<Elsewhere, Refusal>
        ensures seen { IfOk result (λ e. e.seen ≡ first_seen settings [] no_calls) }
        ensures at { IfOk result (λ e. e.at ≡ 0) }
        ensures requests { IfOk result (λ e. e.requests ≡ []) }
        ensures limit { IfOk result (λ e. e.limit ≡ SLOTS) }
        ensures jobs { IfOk result (λ e. e.jobs.slots ≡ []) }
        ensures taken { IfOk result (λ e. e.taken ≡ true ∷ []) }
        ensures leads { IfOk result (Leads []) }
        ensures refused { IfErr result (IsWhy (start_refusal settings)) }
    {
        if let Some(why) = settings.refusal() {
            return Err(why);
        }
        let queue = Queue::new(alloc)?;
        let taken = Taken::opening(alloc)?;
        let held = Taken::none(alloc)?;
        let core = Core::new(alloc, 0, settings)?;
        core.laws();
        Ok(Elsewhere {
            alloc,
            core,
            queue,
            at: 0,
            taken,
            held,
            limit: SLOTS as u32,
            jobs: Slab::new(alloc),
        })
    }

    /// There are always as many slots as can be needed at once.
    pub fn slots_are_there(&self)
        ensures { most_slots self.now ≤ SLOTS }
    {
        self.core.laws();
    }

    /// From now on new states are saved only in slots below this one. A call that finds too few of them free is declined.
    pub fn set_limit(&mut self, slots: u32)
        ensures limit { self.new ≡ record self.old { limit = min slots SLOTS } }
        ensures leads { (past : List Asks) → Leads past self.old → Leads past self.new }
    {
        self.limit = slots.min(SLOTS as u32);
    }

    /// From which slot on no state is saved.
    pub fn limit(&self) -> u32
        ensures value { result ≡ self.now.limit }
        ensures most { result ≤ SLOTS }
    {
        self.limit
    }

    /// Takes a player's input, or sees that it was taken before.
    ///
    /// # Errors
    ///
    /// As of the call of a session.
    pub fn take(&mut self, call: Call) -> Result<Heard, Refusal>
        requires input { IsInput call }
        ensures answered { IsAnswered still self.old.seen self.new.seen (event_of call)
            (replied (λ heard. input_reply call heard) result) }
        ensures rest { self.new
            ≡ record self.old { seen = self.new.seen; saves = self.new.saves } }
        ensures leads { (past : List Asks) → Leads past self.old → Leads past self.new }
    {
        self.core.laws();
        let outcome = self.core.take(call);
        self.core.laws();
        outcome
    }

    /// Goes to the frame of a call that rolls, by requests, and answers where that led. No plan runs fewer frames.
    ///
    /// # Errors
    ///
    /// As of the call of a session; `NoSlots` if it runs more frames than there are slots that no saved state and no job has.
    /// `NoMemory` only if no event was reserved, or requests wait. Nothing is changed, but for what is reserved.
    pub fn roll(&mut self, call: Call) -> Result<Reached, Declined>
        requires { IsRoll call }
        ensures allowed { OnOk result (IsAllowed still self.old.seen call) }
        ensures entered { OnOk result (self.new.seen
            ≡ with_entries self.old.seen (entry_of call ∷ []) self.old.seen.counts) }
        ensures rolls { IfOk result (Rolls self.old self.new call) }
        ensures jobs { self.new.jobs ≡ self.old.jobs }
        ensures limit { self.new.limit ≡ self.old.limit }
        ensures leads { (past : List Asks) → Leads past self.old → Leads past self.new }
        ensures declined { IfErr result (IsDeclinedRoll self.old.seen
            self.old.saves.tree.states self.old.jobs self.old.requests self.old.limit call) }
        ensures unchanged { OnErr result (IsIdle self.old self.new) }
    {
        let plan = plan_roll(
            &mut self.core,
            &mut self.queue,
            &mut self.held,
            &self.taken,
            &self.jobs,
            self.limit,
            call,
        )?;
        let RollPlan { way, slots } = plan;
        self.core.laws();
        self.at = ask_roll(
            &mut self.queue,
            self.at,
            &self.core,
            &way,
            &self.taken,
            &self.held,
            &slots,
        );
        self.held.fill_all(&slots);
        mem::swap(&mut self.taken, &mut self.held);
        self.core.enter(call, way, &slots);
        self.core.laws();
        Ok(Reached {
            frame: way.to,
            from: way.frame,
            rerun: way.to - way.frame,
        })
    }

    /// A guess: if this player gave these words next. Has the timeline that this would make run elsewhere, aside of the current
    /// state, from the deepest saved state on its way up to a frame, at most 8 rows, and answers the number of this job. Once
    /// that is carried out, the job can be grafted. None if all of it is kept.
    ///
    /// # Errors
    ///
    /// `Full` if 64 jobs are out, else what the tests of a guess say, in their order, else `NoMemory` if the allocator has no
    /// room, or `NoSlots` if too few slots are free.
    pub fn guess(&mut self, player: u8, words: &[u32], until: u32) -> Result<Option<u32>, Declined>
        ensures job { IfOk result (IsNumbered
            (guess_job_of still self.old.seen player words.now until) self.old self.new) }
        ensures accepted { OnOk result
            (guess_refusal_of self.old.seen player words.now until ≡ None) }
        ensures adds { OnOk result (Adds self.old.limit 0
            (rows_to_run (guess_job_of still self.old.seen player words.now until))
            self.old.jobs self.old.requests self.new.requests) }
        ensures rest { self.new ≡ record self.old {
          requests = self.new.requests;
          jobs = self.new.jobs;
          taken = self.new.taken;
        } }
        ensures leads { (past : List Asks) → Leads past self.old → Leads past self.new }
        ensures declined { IfErr result (IsNotGuessed
            (guess_refusal_of self.old.seen player words.now until)
            (guess_job_of still self.old.seen player words.now until) self.old) }
        ensures unasked { OnErr result (self.new.requests ≡ self.old.requests) }
        ensures unchanged { OnErr result (SameValues self.old.jobs self.new.jobs) }
        ensures taken { OnErr result (SameTaken self.old.taken self.new.taken) }
    {
        let Some(number) = free_number(&self.jobs) else {
            return Err(Declined::Refused(Refusal::Full));
        };
        let Some((node, route)) = self.core.guess(player, words, until)? else {
            return Ok(None);
        };
        self.core.laws();
        self.make_job(number, node, &route)?;
        Ok(Some(number))
    }

    /// A guess with words that have come, but that it isn't told yet, in their order: each has to be the next of its player,
    /// 1 to 64 of them. All else is as of [`guess`](Self::guess).
    ///
    /// # Errors
    ///
    /// `Full` if 64 jobs are out, else what the tests of the words and of the frame say, in their order, else `NoMemory` if the
    /// allocator has no room, or `NoSlots` if too few slots are free.
    pub fn guess_words(&mut self, words: &[RemoteWord], until: u32) -> Result<Option<u32>, Declined>
        ensures job { IfOk result (IsNumbered
            (words_job_of still self.old.seen words.now until) self.old self.new) }
        ensures accepted { OnOk result
            (guess_words_refusal_of self.old.seen words.now until ≡ None) }
        ensures adds { OnOk result (Adds self.old.limit 0
            (rows_to_run (words_job_of still self.old.seen words.now until))
            self.old.jobs self.old.requests self.new.requests) }
        ensures rest { self.new ≡ record self.old {
          requests = self.new.requests;
          jobs = self.new.jobs;
          taken = self.new.taken;
        } }
        ensures leads { (past : List Asks) → Leads past self.old → Leads past self.new }
        ensures declined { IfErr result (IsNotGuessed
            (guess_words_refusal_of self.old.seen words.now until)
            (words_job_of still self.old.seen words.now until) self.old) }
        ensures unasked { OnErr result (self.new.requests ≡ self.old.requests) }
        ensures unchanged { OnErr result (SameValues self.old.jobs self.new.jobs) }
        ensures taken { OnErr result (SameTaken self.old.taken self.new.taken) }
    {
        let Some(number) = free_number(&self.jobs) else {
            return Err(Declined::Refused(Refusal::Full));
        };
        let Some((node, route)) = self.core.guess_words(words, until)? else {
            return Ok(None);
        };
        self.core.laws();
        self.make_job(number, node, &route)?;
        Ok(Some(number))
    }

    /// How many frames a roll to the current frame would ask for, if it were told these words, which are as those of
    /// [`guess_words`](Self::guess_words).
    ///
    /// # Errors
    ///
    /// What the tests of the words say, in their order.
    pub fn rerun(&self, words: &[RemoteWord]) -> Result<u32, Refusal>
        ensures frames { IfOk result (λ frames. frames ≡ rerun_of self.now.seen words.now) }
        ensures accepted { OnOk result (words_refusal_of self.now.seen words.now ≡ None) }
        ensures refused { IfErr result
            (λ why. words_refusal_of self.now.seen words.now ≡ Some why) }
    {
        self.core.rerun(words)
    }

    /// Lends slots to a job that runs a route from a saved state, and asks for what it runs.
    fn make_job(&mut self, number: u32, node: usize, route: &Route) -> Result<(), Declined>
        requires next { number ≡ self.old.jobs.vacant_key }
        requires vacant { get self.old.jobs number ≡ None }
        requires few { slab_len self.old.jobs < JOBS_OUT }
        requires node { IsSomeAnd (state_named self.old.saves.tree node)
            (λ u. u.path ≡ route.now.path.rows.items) }
        requires base { route.now.path.base ≡ self.old.saves.inputs.settled }
        ensures job { OnOk result
            (IsGiven (bare_branch 0 route.now) self.old self.new number) }
        ensures adds { OnOk result (Adds self.old.limit 0 (length route.now.rows.items)
            self.old.jobs self.old.requests self.new.requests) }
        ensures rest { self.new ≡ record self.old {
          requests = self.new.requests;
          jobs = self.new.jobs;
          taken = self.new.taken;
        } }
        ensures leads { (past : List Asks) → Leads past self.old → Leads past self.new }
        ensures short { IfErr result
            (IsShort (length (free_slots (is_taken self.old.taken) self.old.limit))
            (length route.now.rows.items)) }
        ensures unasked { OnErr result (self.new.requests ≡ self.old.requests) }
        ensures unchanged { OnErr result (SameValues self.old.jobs self.new.jobs) }
        ensures taken { OnErr result (SameTaken self.old.taken self.new.taken) }
    {
        let start = *self.core.saved().get(node);
        let job = plan_job(
            self.alloc,
            &mut self.queue,
            &mut self.taken,
            &mut self.jobs,
            start,
            route,
            self.limit,
        )?;
        ask_job(&mut self.queue, start, route.rows.as_slice(), job.slots());
        self.taken.fill_all(job.slots());
        self.jobs.insert_reserved(job);
        Ok(())
    }

    /// Takes in the branch of a job, which must have been carried out. The job is gone in any case.
    ///
    /// # Errors
    ///
    /// `NoJob` if there is none of this number, else what the tests of a graft say, in their order, else `NoMemory` if the
    /// allocator has no room.
    pub fn graft(&mut self, job: u32) -> Result<Grafted, Refusal>
        ensures grafted { IsHandedIn self.old.seen self.new.seen (get self.old.jobs job) result }
        ensures jobs { Updates self.old.jobs self.new.jobs job None }
        ensures rest { self.new ≡ record self.old {
          seen = self.new.seen;
          saves = self.new.saves;
          jobs = self.new.jobs;
        } }
        ensures leads { (past : List Asks) → Leads past self.old → Leads past self.new }
    {
        let Some(job) = self.jobs.try_remove(job as usize) else {
            return Err(Refusal::NoJob);
        };
        self.core.laws();
        let outcome = self.core.graft(0, job.route, job.slots, true);
        self.core.laws();
        outcome
    }

    /// How many jobs are out.
    pub fn jobs_out(&self) -> usize
        ensures { result ≡ slab_len self.now.jobs }
    {
        self.jobs.len()
    }

    /// Gives a job up, and says whether there was one of this number. From now on others may get its slots, so none of
    /// its requests may be carried out later than those after them.
    pub fn forget(&mut self, job: u32) -> bool
        ensures there { result ≡ is_some (get self.old.jobs job) }
        ensures jobs { Updates self.old.jobs self.new.jobs job None }
        ensures rest { self.new ≡ record self.old { jobs = self.new.jobs } }
        ensures leads { (past : List Asks) → Leads past self.old → Leads past self.new }
    {
        self.jobs.try_remove(job as usize).is_some()
    }

    /// Makes room for so many more events, as a session's `reserve_log` does.
    ///
    /// # Errors
    ///
    /// `LogFull` if the log would pass its limit, else `NoMemory` if the allocator has no room.
    pub fn reserve_log(&mut self, events: u32) -> Result<(), Refusal>
        ensures fits { OnOk result (FitsLog self.old.seen events) }
        ensures reserved { OnOk result (self.new ≡ record self.old {
          seen = record self.old.seen { reserved = max self.old.seen.reserved events };
        }) }
        ensures refused { IfErr result (IsWhy (reserve_refusal self.old.seen events)) }
        ensures short { OnErr result
            (FitsLog self.old.seen events → self.old.seen.reserved < events) }
        ensures unchanged { OnErr result (self.new ≡ self.old) }
        ensures leads { (past : List Asks) → Leads past self.old → Leads past self.new }
    {
        self.core.reserve_log(events)?;
        Ok(())
    }

    /// Makes room for the requests of an end at a frame, as [`end`](Self::end) does.
    ///
    /// # Errors
    ///
    /// `InvalidRequest` if the frame lies before the settled one, else `NoMemory` if the allocator has no room.
    pub fn reserve_end(&mut self, end: u32) -> Result<(), Refusal>
        ensures within { OnOk result (settled self.old.seen.core ≤ end) }
        ensures refused { IfErr result (IsWhy (end_refusal self.old.seen.core end)) }
        ensures unchanged { self.new ≡ self.old }
    {
        plan_end(&mut self.queue, &self.core, &self.taken, end)
    }

    /// Ends the session at a frame from the settled one on: asks for the state of that frame to be current elsewhere and in slot
    /// 0, and for all other slots to be freed. So the session that goes on from there starts, once these requests are carried
    /// out, as one whose opening that state is. Jobs that are out are given up, and their slots freed.
    ///
    /// # Errors
    ///
    /// The session itself, unchanged, as [`reserve_end`](Self::reserve_end) has it: if the frame lies before the settled one, or
    /// the allocator has no room for the requests.
    pub fn end(self, end: u32) -> Result<(Core<u32>, Closing), Elsewhere>
        ensures ended { IfOk result (λ it. IsEnded self end it.0 it.1) }
        ensures unchanged { IfErr result (λ session. session ≡ self) }
    {
        let mut session = self;
        if plan_end(&mut session.queue, &session.core, &session.taken, end).is_err() {
            return Err(session);
        }
        let slot = session.settled_slot();
        session.core.laws();
        let Elsewhere {
            core,
            mut queue,
            at,
            taken,
            ..
        } = session;
        ask_end(&mut queue, at, slot, &core, &taken, end);
        Ok((core, Closing::of(queue)))
    }

    /// The claim of the last roll: what was kept before it, and why it started where it did.
    ///
    /// # Errors
    ///
    /// `NoPlan` if there was none, else `NoMemory` if the allocator has no room.
    pub fn claim(&self, alloc: Global) -> Result<Claim, Refusal>
        ensures claim { IfOk result (λ claim. IfSome self.now.seen.core.last
            (λ roll. claim ≡ claim_of self.now.seen.settings.players roll)) }
        ensures last { IfOk result (λ claim. last_claim self.now.seen ≡ Some claim) }
        ensures right { IfOk result (λ claim. IsRight claim) }
        ensures made { OnOk result (is_none self.now.seen.core.last ≡ false) }
        ensures refused { IfErr result (λ why. why
            ≡ (if is_none self.now.seen.core.last then Refusal.NoPlan else Refusal.NoMemory)) }
    {
        self.core.claim(alloc)
    }

    /// The session itself, without its requests.
    pub fn core(&self) -> &Core<u32>
        ensures seen { result.now.seen ≡ self.now.seen }
        ensures saves { result.now.saves ≡ self.now.saves }
    {
        &self.core
    }

    /// The slot of the state at the settled frame.
    pub fn settled_slot(&self) -> u32
        ensures { IsSettledSlot self.now.saves.tree result }
    {
        let tree = self.core.saved();
        *tree.get(tree.root())
    }

    /// The timeline's row of a frame from the settled one on.
    pub fn row(&self, frame: u32) -> Row
        requires { self.now.saves.inputs.settled ≤ frame }
        ensures { result ≡ row_at self.now.saves.inputs.players frame }
    {
        self.core.row(frame)
    }

    /// The requests that are still to be handed out, in their order.
    pub fn requests(&self) -> &[Request]
        ensures { result.now ≡ self.now.requests }
    {
        self.queue.requests()
    }

    /// The next requests are handed out, so many of them, or all if there are fewer.
    pub fn hand_out(&mut self, count: usize)
        ensures left { self.new ≡ record self.old { requests = drop count self.old.requests } }
        ensures leads { (past : List Asks) → Leads past self.old
            → Leads (past ++ take count self.old.requests) self.new }
    {
        self.queue.hand_out(count);
    }

    /// Whether all requests were handed out.
    pub fn is_done(&self) -> bool
        ensures { result ≡ (length self.now.requests == 0) }
    {
        self.queue.is_done()
    }
}
