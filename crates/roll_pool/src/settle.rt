//! What is left of a pool once its workers have come back.
ghost use Rattle.std.specs.Prelude.{◌≡◌, ◌+◌, ◌≤◌, ◌++◌, [], true, length, drop, vec_len, vec_capacity};
ghost use Rattle.crossbeam_deque.specs.Handles.{worker_view, worker_deque, worker_flavor};
ghost use Rattle.roll_pool.specs.Rule.{SameItems, counting_back, working};
ghost use Rattle.roll_pool.specs.Dones.{AreResults};
ghost use Rattle.roll_pool.specs.Settled.{IsLate};
ghost use Rattle.roll_pool.specs.declared.owner.TheConstants.{JOBS_OUT};
ghost use Rattle.roll_pool.specs.declared.results.TheConstants.{RESULT_PLACES};

use crate::owner::Owner;
use crate::results::Results;
use crate::rule::{Deque, Hand, TakesBack};
use crate::worker::WorkerEnd;
use roll_branch::{Done, Job};
use roll_game::Game;

/// What became of the jobs of a pool.
#[derive(Drop)]
pub struct Outcome<G: Game> {
    /// How many jobs were issued.
    pub issued: u64,
    /// How many results were collected before.
    pub collected: u64,
    /// How many jobs were withdrawn before.
    pub withdrawn: u64,
    /// The results that were not collected, by worker.
    pub late: Vec<Done<G>>,
    /// The jobs that no worker took, in the order of their numbers: the last ones that were issued.
    pub left: Vec<Job<G>>,
}

impl<G: Game> Owner<G> {
    ghost use Rattle.std.specs.Prelude.{◌≡◌, ◌+◌, ◌++◌, length, map, drop, vec_len};
    ghost use Rattle.std.specs.List.{range_with_len};
    ghost use Rattle.roll_pool.specs.Owners.{collected, back_of};
    ghost use Rattle.roll_pool.specs.Rule.{SameItems};
    ghost use Rattle.roll_pool.specs.Settled.{Settles, late_of, tickets_of};

    /// Ends a pool whose workers have come back, with all their ends in order of worker. It takes no memory.
    pub fn settle(self, ends: Vec<WorkerEnd<G>>) -> Outcome<G>
        requires { map (λ end. end.place) ends.items ≡ self.places }
        ensures counts { (result.issued ≡ length self.issued)
            × (result.collected ≡ length (collected self.came))
            × (result.withdrawn ≡ length self.withdrawn) }
        ensures jobs { Settles self.issued self.withdrawn
            (collected self.came) result.late.items result.left.items }
        ensures late { result.late.items ≡ late_of self.came ends.items }
        ensures left { result.left.items
            ≡ drop (back_of self + length result.late.items) self.issued }
        ensures tickets { SameItems (tickets_of (collected self.came ++ result.late.items)
            (self.withdrawn ++ result.left.items)) (range_with_len 0 result.issued) }
        ensures sum { result.issued ≡ result.collected + result.withdrawn
            + vec_len result.late + vec_len result.left }
    {
        let Owner {
            mut deque,
            rings,
            issued,
            collected,
            withdrawn,
            signals,
            mut late,
            mut left,
        } = self;
        let mut in_order = rings.into_iter();
        for end in ends {
            let Some(ring) = in_order.next() else {
                unreachable!()
            };
            take_pass(&mut deque, ring, end, &mut late);
        }
        take_back(&mut deque, &mut left);
        drop(signals);
        Outcome {
            issued,
            collected,
            withdrawn,
            late,
            left,
        }
    }
}

/// Takes in a worker's pass, and the results that were not collected.
fn take_pass<G: Game>(
    deque: &mut Deque<G>,
    ring: Results<G>,
    end: WorkerEnd<G>,
    late: &mut Vec<Done<G>>,
)
    requires of_pool { (end.place.deque ≡ worker_deque deque.old) × (end.place.ring ≡ ring.ring) }
    requires owns { (worker_view deque.old).owns ≡ true }
    requires room { vec_len late.old + RESULT_PLACES ≤ vec_capacity late.old }
    ensures deque { (worker_deque deque.new ≡ worker_deque deque.old)
        × (worker_flavor deque.new ≡ worker_flavor deque.old) }
    ensures view { worker_view deque.new
        ≡ counting_back (worker_view deque.old) (working end.jobs) }
    ensures room { (vec_len late.new ≤ vec_len late.old + RESULT_PLACES)
        × (vec_capacity late.new ≡ vec_capacity late.old) }
    ensures told { AreResults end.jobs end.results }
    ensures late { IsLate ring.came end.results late.old.items late.new.items }
{
    let WorkerEnd {
        thief: _,
        pass,
        mut results,
        signals: _,
        closed: _,
    } = end;
    let Results { mut consumer } = ring;
    deque.absorb::<Hand>(pass);
    let waiting = consumer.slots_beside(&mut results);
    for _ in 0..waiting {
        late.push_reserved(consumer.pop_known());
    }
}

/// Takes back the jobs that nobody took.
fn take_back<G: Game>(deque: &mut Deque<G>, left: &mut Vec<Job<G>>)
    requires owner { ((worker_view deque.old).owns ≡ true) × ((worker_view deque.old).others ≡ 0)
        × (worker_flavor deque.old ≡ 0) }
    requires room { (length (worker_view deque.old).issued
        ≤ length (worker_view deque.old).jobs + JOBS_OUT) × (left.old.items ≡ [])
        × (JOBS_OUT ≤ vec_capacity left.old) }
    ensures all { SameItems ((worker_view deque.old).jobs ++ left.new.items)
        (worker_view deque.old).issued }
    ensures left { left.new.items
        ≡ drop (length (worker_view deque.old).jobs) (worker_view deque.old).issued }
{
    while let Some(job) = deque.pop_as::<TakesBack>() {
        left.push_reserved(job);
    }
}
