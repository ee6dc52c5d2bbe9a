//! A session, its links and its workers.
ghost use Rattle.std.specs.Prelude.{◌≡◌, ◌+◌, ◌<◌, ◌≤◌, [], ◌∷◌, ◌++◌, false, true, drop, length, map, max, nat_le, option_map, slice_get, None, Some, if◌then◌else◌, IfNone, IfSome, IfOk, IfErr, OnOk, OnErr};
ghost use Rattle.roll_frame.specs.Timeline.{row_at};
ghost use Rattle.roll_session.specs.Changes.{advance_refusal, after_advance, after_disconnect, after_local, after_sync, disconnect_refusal, local_refusal, reached_by, reserve_refusal, sync_refusal, FitsLog, IsRefused, IsRollRefused, IsWhy};
ghost use Rattle.roll_session.specs.Seen.{IsLeast};
ghost use Rattle.roll_host.specs.Absorbs.{IsAbsorbed};
ghost use Rattle.roll_host.specs.Guesses.{HandsOut, IsAsBefore, IsLetGo, MakesPlace, Speculates, SpeculatesWords, Withdraws, WithdrawsNone};
ghost use Rattle.roll_host.specs.Hosted.{came_by, issued_of, jobs_out, new_link, places_of, rings_of, with_came, withdrawn_of, EndsLink};
ghost use Rattle.roll_host.specs.Lending.{LendsSession};
ghost use Rattle.roll_host.specs.Pumps.{IsPumped};
ghost use Rattle.roll_host.specs.declared.limits.TheConstants.{LINK_LIMIT as LINKS};
ghost use Rattle.roll_pool.specs.Owners.{collected, out_of};
ghost use Rattle.roll_pool.specs.declared.owner.TheConstants.{JOBS_OUT as MOST};
ghost use Rattle.roll_pool.specs.Rule.{SameItems};
ghost use Rattle.roll_pool.specs.Settled.{Settles, tickets_of};
ghost use Rattle.std.specs.Borrow.{sem};
ghost use Rattle.std.specs.List.{range_with_len};

use crate::absorb::{Absorbed, absorb_results};
use crate::limits::LINK_LIMIT;
use crate::pump::{Pumped, pump_links};
use roll_branch::Job;
use roll_frame::{Event, Refusal, Row};
use roll_game::Game;
use roll_link::{Finished, Link, LinkSender};
use roll_pool::{JOBS_OUT, Outcome, Owner, WorkerEnd};
use roll_session::{Reached, RemoteWord, Session};
use std::alloc::{AllocFailed, Global};
use std::marker::Model;

/// A session whose remote words come by links, and whose guesses are run by workers if it has some. It waits for no other
/// thread.
#[derive(Drop)]
pub struct Host<G: Game> {
    session: Session<G>,
    links: Vec<Link>,
    pool: Option<Owner<G>>,
    alloc: Global,
}

/// A clause sees the session, the links and the pool of the workers.
impl<G: Game> Model for Host<G> {
    ghost use Rattle.std.specs.Prelude.{◌≤◌, length, vec_capacity};
    ghost use Rattle.roll_branch.specs.declared.branch.Done.{Done};
    ghost use Rattle.roll_host.specs.Hosted.{Hosted};
    ghost use Rattle.roll_host.specs.declared.limits.TheConstants.{LINK_LIMIT};

    ghost Value = { Hosted (Done G G.State G.Snapshot) };

    ghost view = { λ h. record { session = h.session; links = h.links.items; pool = h.pool } };

    ghost invariant = { λ h. (LINK_LIMIT ≤ vec_capacity h.links) × (length h.links.items ≤ LINK_LIMIT) };
}

impl<G: Game> Host<G> {
    /// A host with no link, room for 4, and no workers.
    ///
    /// # Errors
    ///
    /// If the allocator has no room, the session is handed back.
    pub fn new(alloc: Global, session: Session<G>) -> Result<Host<G>, AllocFailed<Session<G>>>
        ensures host { IfOk result
            (λ host. host ≡ record { session = session; links = []; pool = None }) }
        ensures back { IfErr result (λ failed. failed.value ≡ session) }
    {
        match Vec::with_capacity(alloc, LINK_LIMIT) {
            Ok(links) => Ok(Host {
                session,
                links,
                pool: None,
                alloc,
            }),
            Err(_) => Err(AllocFailed { value: session }),
        }
    }

    /// A host with the workers of a pool, with no link, and room for 4.
    ///
    /// # Errors
    ///
    /// If the allocator has no room, the session and the pool's owner are handed back.
    pub fn with_workers(
        alloc: Global,
        session: Session<G>,
        owner: Owner<G>,
    ) -> Result<Host<G>, AllocFailed<(Session<G>, Owner<G>)>>
        ensures host { IfOk result
            (λ host. host ≡ record { session = session; links = []; pool = Some owner }) }
        ensures back { IfErr result (λ failed. failed.value ≡ (session, owner)) }
    {
        match Vec::with_capacity(alloc, LINK_LIMIT) {
            Ok(links) => Ok(Host {
                session,
                links,
                pool: Some(owner),
                alloc,
            }),
            Err(_) => Err(AllocFailed {
                value: (session, owner),
            }),
        }
    }

    /// One link more, and its sender's end. Links are numbered 0, 1, .. in the order in which they are added.
    ///
    /// # Errors
    ///
    /// `InvalidRequest` if there are 4, else `NoMemory` if the allocator has no room.
    pub fn add_link(&mut self) -> Result<LinkSender, Refusal>
        ensures added { IfOk result (λ sender. self.new
            ≡ record self.old { links = self.old.links ++ new_link sender.ring ∷ [] }) }
        ensures sender { IfOk result (λ sender. sender.sent ≡ []) }
        ensures place { OnOk result (length self.old.links < LINKS) }
        ensures refused { IfErr result (λ why. why ≡ (if nat_le LINKS (length self.old.links)
            then Refusal.InvalidRequest else Refusal.NoMemory)) }
        ensures unchanged { OnErr result (self.new ≡ self.old) }
    {
        if self.links.len() >= LINK_LIMIT {
            return Err(Refusal::InvalidRequest);
        }
        let (sender, link) = Link::open(self.alloc)?;
        self.links.push_reserved(link);
        Ok(sender)
    }

    /// Applies what came by the links, in their order, at most 64 items of each, as `remote_input` would. An item that
    /// is refused for good counts as applied, and the last such refusal is told; one that is refused as `QueueFull`,
    /// `LogFull` or `NoMemory` is held, its link stops, and the next pump tries it first. So no word is lost, doubled
    /// or made up. What was sent by now is found: that is tested (`tests/runs/links.t`), and proved of links that have
    /// ended.
    pub fn pump(&mut self) -> Pumped
        ensures pumped { IsPumped G.step self.old.session self.old.links
            self.new.session self.new.links result }
        ensures rings { rings_of self.new.links ≡ rings_of self.old.links }
        ensures pool { self.new.pool ≡ self.old.pool }
    {
        pump_links(&mut self.session, &mut self.links)
    }

    /// Collects what the workers have run, at most 64 results, and grafts each branch among them, in the order in which
    /// they are collected. A branch that is refused is dropped, also where it is for want of memory. That it finds the
    /// results that are there is tested, and not proved (`tests/runs/host_branches.t`).
    pub fn absorb(&mut self) -> Absorbed
        ensures absorbed { IsAbsorbed G.step self.old.session (came_by self.old.pool)
            self.new.session (came_by self.new.pool) result }
        ensures rest { self.new ≡ record self.old {
          session = self.new.session;
          pool = option_map (with_came (came_by self.new.pool)) self.old.pool;
        } }
        ensures places { places_of self.new.pool ≡ places_of self.old.pool }
        ensures alone { IfNone self.old.pool ((self.new ≡ self.old)
            × (result ≡ record { taken = 0; added = 0; dropped = 0; unmade = 0 })) }
    {
        match &mut self.pool {
            Some(owner) => absorb_results(&mut self.session, owner),
            None => Absorbed::default(),
        }
    }

    /// Hands the job of a guess to the workers: if this player gave these words next, up to a frame. The number of the job,
    /// or `None` if all that it would run is kept already. If 64 jobs are out, the oldest that no worker has taken is
    /// withdrawn for it, and let go of.
    ///
    /// # Errors
    ///
    /// `Full` if there are no workers; else those of `Session::guess`; else `Full` if 64 jobs are out and the workers have
    /// taken all of them; else those of `Owner::issue`. In the last two cases the job is dropped.
    pub fn speculate(
        &mut self,
        player: u8,
        words: &[u32],
        until: u32,
    ) -> Result<Option<u64>, Refusal>
        ensures speculated { Speculates G.step self.old self.new player words.now until result }
        ensures links { self.new.links ≡ self.old.links }
        ensures places { places_of self.new.pool ≡ places_of self.old.pool }
    {
        let Some(owner) = &mut self.pool else {
            return Err(Refusal::Full);
        };
        let job = self.session.guess(self.alloc, player, words, until)?;
        hand_out(owner, job)
    }

    /// Hands the job of a guess to the workers: if the session is told these words next, which have come, but which it isn't told
    /// yet, up to a frame. Else as [`speculate`](Self::speculate).
    ///
    /// # Errors
    ///
    /// `Full` if there are no workers; else those of `Session::guess_words`; else as `speculate` once a job is made.
    pub fn speculate_words(
        &mut self,
        words: &[RemoteWord],
        until: u32,
    ) -> Result<Option<u64>, Refusal>
        ensures speculated { SpeculatesWords G.step self.old self.new words.now until result }
        ensures links { self.new.links ≡ self.old.links }
        ensures places { places_of self.new.pool ≡ places_of self.old.pool }
    {
        let Some(owner) = &mut self.pool else {
            return Err(Refusal::Full);
        };
        let job = self.session.guess_words(self.alloc, words, until)?;
        hand_out(owner, job)
    }

    /// Withdraws the oldest job that no worker has taken, and lets go of it: its number. `None` if none is seen. Before the
    /// guesses of a new frame, what is left of those of older ones can be withdrawn so: workers take the oldest job first.
    pub fn withdraw(&mut self) -> Option<u64>
        ensures some { IfSome result (λ ticket. Withdraws self.old.pool self.new.pool ticket) }
        ensures none { IfNone result (WithdrawsNone self.old.pool self.new.pool) }
        ensures rest { self.new ≡ record self.old { pool = self.new.pool } }
        ensures places { places_of self.new.pool ≡ places_of self.old.pool }
    {
        match &mut self.pool {
            Some(owner) => let_go(owner),
            None => None,
        }
    }

    /// How many jobs are out: issued, and neither collected nor withdrawn.
    pub fn jobs_out(&self) -> usize
        ensures { result ≡ jobs_out self.now.pool }
    {
        match &self.pool {
            Some(owner) => owner.out(),
            None => 0,
        }
    }

    /// Tells the workers, if there are any, to stop. Each still ends the job that it is at. No clause says that it
    /// closes their pool: that is tested (`tests/runs/host_branches.t`).
    pub fn close(&self) {
        if let Some(owner) = &self.pool {
            owner.close();
        }
    }

    /// The sender of a link has finished: how many of the items that it sent are not applied yet. Pumps go on taking these.
    pub fn end_link(&mut self, link: usize, finished: Finished) -> u32
        requires { slice_get (rings_of self.old.links) link ≡ Some finished.ring }
        ensures ended { EndsLink self.old self.new link finished result }
        ensures rings { rings_of self.new.links ≡ rings_of self.old.links }
    {
        self.links[link].end(finished)
    }

    /// Gives a local player's word of this frame.
    ///
    /// # Errors
    ///
    /// Those of `Session::add_local_input`.
    pub fn add_local_input(&mut self, player: u8, word: u32) -> Result<(), Refusal>
        ensures accepted { OnOk result (local_refusal self.old.session player ≡ None) }
        ensures taken { OnOk result
            (self.new.session ≡ after_local self.old.session player word) }
        ensures refused { IfErr result (IsRefused (local_refusal self.old.session player)
            self.old.session self.new.session) }
        ensures rest { self.new ≡ record self.old { session = self.new.session } }
    {
        self.session.add_local_input(player, word)
    }

    /// A remote player leaves.
    ///
    /// # Errors
    ///
    /// Those of `Session::disconnect_player`.
    pub fn disconnect_player(&mut self, player: u8) -> Result<Event, Refusal>
        ensures accepted { OnOk result (disconnect_refusal self.old.session player ≡ None) }
        ensures taken { OnOk result
            (self.new.session ≡ after_disconnect self.old.session player) }
        ensures event { IfOk result (λ event. event ≡ Event.DisconnectedFromPeer player) }
        ensures refused { IfErr result (IsRefused (disconnect_refusal self.old.session player)
            self.old.session self.new.session) }
        ensures rest { self.new ≡ record self.old { session = self.new.session } }
    {
        self.session.disconnect_player(player)
    }

    /// The row of this frame. Rolls back if a prediction was wrong.
    ///
    /// # Errors
    ///
    /// Those of `Session::synchronize_input`.
    pub fn synchronize_input(&mut self) -> Result<Row, Refusal>
        ensures accepted { OnOk result (sync_refusal self.old.session ≡ None) }
        ensures row { IfOk result (λ row. row
            ≡ row_at self.old.session.core.players self.old.session.core.frame) }
        ensures rolled { OnOk result (self.new.session ≡ after_sync self.old.session) }
        ensures least { IsLeast self.old.session.core self.old.session.core.frame }
        ensures refused { IfErr result (IsRollRefused (sync_refusal self.old.session)
            self.old.session self.new.session self.old.session.core.frame) }
        ensures rest { self.new ≡ record self.old { session = self.new.session } }
    {
        self.session.synchronize_input()
    }

    /// Goes on to the next frame. Rolls back first if a prediction was wrong.
    ///
    /// # Errors
    ///
    /// Those of `Session::advance_frame`.
    pub fn advance_frame(&mut self) -> Result<Reached, Refusal>
        ensures accepted { OnOk result (advance_refusal self.old.session ≡ None) }
        ensures reached { IfOk result (λ reached. reached ≡ reached_by self.old.session.core) }
        ensures rolled { OnOk result (self.new.session ≡ after_advance self.old.session) }
        ensures least { IsLeast self.old.session.core (self.old.session.core.frame + 1) }
        ensures refused { IfErr result (IsRollRefused (advance_refusal self.old.session)
            self.old.session self.new.session (self.old.session.core.frame + 1)) }
        ensures rest { self.new ≡ record self.old { session = self.new.session } }
    {
        self.session.advance_frame()
    }

    /// Makes room for so many more events, as the session does: while the game refuses nothing, none of them is refused, or
    /// held, for want of memory.
    ///
    /// # Errors
    ///
    /// Those of `Session::reserve_log`.
    pub fn reserve_log(&mut self, events: u32) -> Result<(), Refusal>
        ensures fits { OnOk result (FitsLog self.old.session events) }
        ensures reserved { OnOk result (self.new ≡ record self.old {
          session = record self.old.session { reserved = max self.old.session.reserved events };
        }) }
        ensures refused { IfErr result (IsWhy (reserve_refusal self.old.session events)) }
        ensures short { OnErr result (FitsLog self.old.session events
            → self.old.session.reserved < events) }
        ensures unchanged { OnErr result (self.new ≡ self.old) }
    {
        self.session.reserve_log(events)
    }

    /// The session.
    pub fn session(&self) -> &Session<G>
        ensures { result.now ≡ self.now.session }
    {
        &self.session
    }

    /// The session, lent to what takes a `&mut Session`. After that the host has what was left there, be it another session.
    /// It pumps and absorbs nothing, and withdraws no job: links and workers stay as they are.
    pub fn session_mut(&mut self) -> &mut Session<G>
        ensures* lends { sem 𝓛 (LendsSession G.row G.State.row G.Snapshot.row
            G.Game.own G.RawGame.own self.entry result) }
        ensures session { result.now ≡ self.old.session }
    {
        &mut self.session
    }

    /// Ends a host whose workers have come back, with all their ends in order of worker: the session, and what became of the
    /// jobs. Without workers there are no ends and no jobs. It takes no memory, and lets go of the links.
    pub fn settle(self, ends: Vec<WorkerEnd<G>>) -> (Session<G>, Outcome<G>)
        requires { map (λ end. end.place) ends.items ≡ places_of self.pool }
        ensures session { result.0 ≡ self.session }
        ensures counts { (result.1.issued ≡ length (issued_of self.pool))
            × (result.1.collected ≡ length (collected (came_by self.pool)))
            × (result.1.withdrawn ≡ length (withdrawn_of self.pool)) }
        ensures jobs { Settles (issued_of self.pool) (withdrawn_of self.pool)
            (collected (came_by self.pool)) result.1.late.items result.1.left.items }
        ensures left { result.1.left.items ≡ drop
            (length (collected (came_by self.pool)) + length (withdrawn_of self.pool)
            + length result.1.late.items) (issued_of self.pool) }
        ensures tickets { SameItems
            (tickets_of (collected (came_by self.pool) ++ result.1.late.items)
            (withdrawn_of self.pool ++ result.1.left.items)) (range_with_len 0 result.1.issued) }
    {
        let Host {
            session,
            links: _,
            pool,
            alloc,
        } = self;
        match pool {
            Some(owner) => (session, owner.settle(ends)),
            None => {
                let outcome = Outcome {
                    issued: 0,
                    collected: 0,
                    withdrawn: 0,
                    late: Vec::new(alloc),
                    left: Vec::new(alloc),
                };
                (session, outcome)
            }
        }
    }

    /// The session. The links are let go of, and so is the owner of the workers' pool.
    pub fn into_session(self) -> Session<G>
        ensures { result ≡ self.session }
    {
        self.session
    }
}

/// Withdraws the oldest job that no worker has taken, and lets go of it: its number.
fn let_go<G: Game>(owner: &mut Owner<G>) -> Option<u64>
    ensures some { IfSome result (λ ticket. IsLetGo owner.old owner.new ticket) }
    ensures none { IfNone result (IsAsBefore owner.old owner.new) }
    ensures places { owner.new.places ≡ owner.old.places }
{
    let job = owner.withdraw()?;
    Some(job.ticket())
}

/// Whether there is a place for a job more. Where 64 are out, the oldest that no worker has taken is withdrawn, and let go of.
fn make_place<G: Game>(owner: &mut Owner<G>) -> bool
    ensures made { result ≡ true → MakesPlace owner.old owner.new }
    ensures room { result ≡ true → out_of owner.new < MOST }
    ensures crowded { result ≡ false → (MOST ≤ out_of owner.old) × IsAsBefore owner.old owner.new }
    ensures places { owner.new.places ≡ owner.old.places }
{
    owner.out() < JOBS_OUT || let_go(owner).is_some()
}

/// Hands the job of a guess out, if it has one, once there is a place for it: the job's number.
fn hand_out<G: Game>(owner: &mut Owner<G>, job: Option<Job<G>>) -> Result<Option<u64>, Refusal>
    ensures handed { HandsOut job owner.old owner.new result }
    ensures places { owner.new.places ≡ owner.old.places }
{
    let Some(job) = job else {
        return Ok(None);
    };
    if !make_place(owner) {
        return Err(Refusal::Full);
    }
    match owner.issue(job) {
        Ok(ticket) => Ok(Some(ticket)),
        Err(fault) => Err(fault.why),
    }
}
