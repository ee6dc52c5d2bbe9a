//! The owner's end of a pool.
ghost use Rattle.std.specs.Prelude.{◌≡◌, ◌<◌, [], ◌∷◌, ◌++◌, length, get_or, set, vec_len, IfSome, IfNone};
ghost use Rattle.roll_pool.specs.Owners.{came_by, rings_of};

use crate::results::Results;
use crate::rule::{Deque, Issues, Withdraws};
use crate::signals::Signals;
use roll_branch::{Done, Job};
use roll_frame::Refusal;
use roll_game::Game;
use std::alloc::Global;
use std::marker::Model;
use std::sync::Arc;

/// The most jobs that are out at a time: issued, and neither collected nor withdrawn.
pub const JOBS_OUT: usize = 64;

/// The most workers of a pool.
pub const WORKER_LIMIT: usize = 4;

const TICKET_LIMIT: u64 = 1 << 62;

/// The end that hands out jobs and collects their results.
#[derive(Drop)]
pub struct Owner<G: Game> {
    pub(crate) deque: Deque<G>,
    pub(crate) rings: Vec<Results<G>>,
    pub(crate) issued: u64,
    pub(crate) collected: u64,
    pub(crate) withdrawn: u64,
    pub(crate) signals: Arc<Signals, Global>,
    // Room for what is out at the end.
    pub(crate) late: Vec<Done<G>>,
    pub(crate) left: Vec<Job<G>>,
}

/// A clause sees the jobs that were issued and those that were withdrawn, and for each worker its place and what was collected
/// from it.
impl<G: Game> Model for Owner<G> {
    ghost use Rattle.std.specs.Arc.{arc_value};
    ghost use Rattle.std.specs.Prelude.{◌≡◌, length, vec_len, vec_capacity};
    ghost use Rattle.crossbeam_deque.specs.Handles.{worker_view, worker_deque, worker_flavor, worker_index, worker_capacity};
    ghost use Rattle.roll_branch.specs.declared.branch.Done.{Done};
    ghost use Rattle.roll_pool.specs.Owners.{Pool, collected as in_all, IsSound, HasRoom, came_by, rings_of, places_at};
    ghost use Rattle.roll_pool.specs.Rings.{signals_at};

    ghost Value = { Pool (Done G G.State G.Snapshot) };

    ghost view = { λ o. record { places = places_at (worker_deque o.deque) (signals_at (arc_value o.signals)) (rings_of o.rings.items); issued = (worker_view o.deque).issued; withdrawn = (worker_view o.deque).jobs; came = came_by o.rings.items; capacity = worker_capacity o.deque } };

    ghost invariant = { λ o. IsSound (worker_view o.deque) (worker_flavor o.deque) (worker_index o.deque) (worker_capacity o.deque) (vec_len o.rings) o.issued o.collected o.withdrawn × (o.collected ≡ length (in_all (came_by o.rings.items))) × HasRoom o.late.items (vec_capacity o.late) × HasRoom o.left.items (vec_capacity o.left) };
}

/// Why a job was not issued, and the job.
#[derive(Drop)]
pub struct IssueFault<G: Game> {
    pub why: Refusal,
    pub job: Job<G>,
}

impl<G: Game> Owner<G> {
    ghost use Rattle.std.specs.Prelude.{◌≡◌, ◌+◌, ◌≤◌, ◌⊎◌, ◌^◌, [], ◌∷◌, ◌++◌, length, nat_le, if◌then◌else◌, IfOk, IfErr, OnErr, OnOk, IfSome, IfNone};
    ghost use Rattle.roll_pool.specs.Owners.{back_of, out_of, IsCollected, IsWithdrawn};
    ghost use Rattle.roll_pool.specs.declared.owner.TheConstants.{JOBS_OUT as MOST};

    /// Numbers a job and hands it out. The numbers are 0, 1, 2, and so on.
    ///
    /// # Errors
    ///
    /// `Full` if 64 jobs are out; else `QueueRefused` if 2^62 jobs were issued, or if the queue needs to grow and has
    /// no memory for it, which isn't asked of it for its first jobs, as many as its capacity. The job is handed back as it was.
    pub fn issue(&mut self, job: Job<G>) -> Result<u64, IssueFault<G>>
        ensures ticket { IfOk result (λ ticket. ticket ≡ length self.old.issued) }
        ensures issued { IfOk result
            (λ ticket. self.new.issued ≡ self.old.issued ++ record job { ticket = ticket } ∷ []) }
        ensures room { OnOk result (out_of self.old + 1 ≤ MOST) }
        ensures refused { IfErr result
            (λ fault. fault.why ≡ (if nat_le MOST
            (out_of self.old) then Refusal.Full else Refusal.QueueRefused)) }
        ensures queue { IfErr result
            (λ fault. fault.why ≡ Refusal.QueueRefused → (2 ^ 62 ≤ length self.old.issued)
            ⊎ (self.old.capacity ≤ length self.old.issued)) }
        ensures back { IfErr result (λ fault. fault.job ≡ job) }
        ensures unchanged { OnErr result (self.new.issued ≡ self.old.issued) }
        ensures same { (self.new.places ≡ self.old.places) × (self.new.came ≡ self.old.came)
            × (self.new.withdrawn ≡ self.old.withdrawn) × (self.old.capacity ≤ self.new.capacity) }
    {
        if self.out() >= JOBS_OUT {
            return Err(IssueFault {
                why: Refusal::Full,
                job,
            });
        }
        let why = Refusal::QueueRefused;
        if self.issued >= TICKET_LIMIT {
            return Err(IssueFault { why, job });
        }
        let ticket = self.issued;
        let before = job.ticket();
        let mut job = job;
        job.set_ticket(ticket);
        if let Err(mut job) = self.deque.push_as::<Issues>(job) {
            job.set_ticket(before);
            return Err(IssueFault { why, job });
        }
        self.issued += 1;
        self.signals.jobs.ring();
        Ok(ticket)
    }

    /// The next result of the first worker, in order, that has one. `None` if no result is seen.
    ///
    /// The clauses say that it is the next one of some worker. That this is the first worker that has one is tested
    /// (`tests/runs/workers.t`).
    pub fn collect(&mut self) -> Option<Done<G>>
        ensures some { IfSome result (λ done. IsCollected self.old.came self.new.came done) }
        ensures none { IfNone result (self.new ≡ self.old) }
        ensures same { self.new ≡ record self.old { came = self.new.came } }
    {
        if self.out() == 0 {
            return None;
        }
        for place in 0..self.rings.len() {
            if let Some(done) = pop_at(&mut self.rings, place) {
                self.collected += 1;
                self.signals.places.ring();
                return Some(done);
            }
        }
        None
    }

    /// Takes back the oldest job that no worker has taken. `None` if none is seen.
    ///
    /// The clauses say that the job was issued, and after those that were withdrawn before. That no worker has it or
    /// gets it, [`settle`](Self::settle) says: it counts the job as withdrawn, and no result has its number.
    pub fn withdraw(&mut self) -> Option<Job<G>>
        ensures some { IfSome result (λ job. IsWithdrawn self.old self.new job) }
        ensures none { IfNone result
            (self.new ≡ record self.old { capacity = self.new.capacity }) }
        ensures queue { self.old.capacity ≤ self.new.capacity }
    {
        if self.out() == 0 {
            return None;
        }
        let job = self.deque.pop_as::<Withdraws>()?;
        self.withdrawn += 1;
        Some(job)
    }

    /// How many jobs were issued.
    pub fn issued(&self) -> u64
        ensures { result ≡ length self.now.issued }
    {
        self.issued
    }

    /// How many jobs are out: issued, and neither collected nor withdrawn.
    pub fn out(&self) -> usize
        ensures count { result + back_of self.now ≡ length self.now.issued }
        ensures few { result ≤ MOST }
    {
        (self.issued - self.collected - self.withdrawn) as usize
    }

    /// Tells the workers to stop. Each still ends the job that it is at. That a closed pool stops them is tested
    /// (`tests/runs/workers.t`).
    pub fn close(&self) {
        self.signals.close();
    }
}

/// The next result of one worker.
fn pop_at<G: Game>(rings: &mut Vec<Results<G>>, place: usize) -> Option<Done<G>>
    requires { place < vec_len rings.old }
    ensures same { (rings_of rings.new.items ≡ rings_of rings.old.items)
        × (vec_len rings.new ≡ vec_len rings.old) }
    ensures some { IfSome result
        (λ done. came_by rings.new.items
        ≡ set (came_by rings.old.items) place
        (get_or (came_by rings.old.items) place [] ++ done ∷ [])) }
    ensures none { IfNone result (rings.new.items ≡ rings.old.items) }
{
    let ring = &mut rings[place];
    ring.pop()
}
