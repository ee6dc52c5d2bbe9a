//! Jobs that are out.
ghost use Rattle.std.specs.Prelude.{◌≡◌, ◌≤◌, ◌<◌, ◌⊎◌, ◌^◌, ◌||◌, ℕ, length, IfNone, IfSome, None, OnSome, Some};
ghost use Rattle.slab.specs.Slab.{get, slab_len};
ghost use Rattle.roll_requests.specs.Slotted.{holds, is_out, is_taken, Guessed, HasPlaces};

use crate::taken::Taken;
use roll_branch::PackedRoute;
use slab::Slab;
use std::marker::Model;

/// So many jobs can be out at once.
pub const JOBS_OUT: usize = 64;

/// A job that is out: where it runs, the slot of the state that it starts from, and the slot of the state after each row. It may
/// be carried out late, so it holds all of these.
#[derive(Drop)]
pub struct Job {
    pub route: PackedRoute,
    pub start: u32,
    pub slots: Vec<u32>,
}

impl Model for Job {
    ghost use Rattle.std.specs.Prelude.{◌≡◌, length};
    ghost use Rattle.roll_requests.specs.Slotted.{Guessed};

    ghost Value = { Guessed };

    ghost view = { λ job. record { route = job.route; start = job.start; slots = job.slots.items } };

    ghost invariant = { λ job. length job.slots.items ≡ length job.route.rows.items };
}

impl Job {
    /// The slot of the state that it starts from.
    pub fn start(&self) -> u32
        ensures { result ≡ self.now.start }
    {
        self.start
    }

    /// The slots of its states.
    pub fn slots(&self) -> &[u32]
        ensures { result.now ≡ self.now.slots }
    {
        self.slots.as_slice()
    }
}

/// The number of the next job, if there may be one more.
pub fn free_number(jobs: &Slab<Job>) -> Option<u32>
    ensures next { IfSome result (λ number. number ≡ jobs.now.vacant_key) }
    ensures vacant { IfSome result (λ number. get jobs.now number ≡ None) }
    ensures few { OnSome result (slab_len jobs.now < JOBS_OUT) }
    ensures full { IfNone result
        ((JOBS_OUT ≤ slab_len jobs.now) ⊎ (2 ^ 32 ≤ jobs.now.vacant_key)) }
{
    if jobs.len() >= JOBS_OUT {
        return None;
    }
    u32::try_from(jobs.vacant_key()).ok()
}

/// Takes the slots that the jobs hold.
pub fn fill_jobs(slots: &mut Taken, jobs: &Slab<Job>)
    requires { (n : ℕ) (job : Guessed) → get jobs.now n ≡ Some job
        → HasPlaces slots.old job }
    ensures filled { (slot : ℕ) → is_taken slots.new slot
        ≡ (is_taken slots.old slot || is_out jobs.now slot) }
    ensures many { length slots.new ≡ length slots.old }
{
    for (_, job) in jobs.iter() {
        fill_job(slots, job);
    }
}

/// Takes the slots that a job holds.
fn fill_job(slots: &mut Taken, job: &Job)
    requires { HasPlaces slots.old job.now }
    ensures filled { (slot : ℕ) → is_taken slots.new slot
        ≡ (is_taken slots.old slot || holds job.now slot) }
    ensures many { length slots.new ≡ length slots.old }
{
    slots.fill(job.start());
    slots.fill_all(job.slots());
}
