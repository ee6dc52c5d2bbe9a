//! A new pool.
ghost use Rattle.std.specs.Arc.{arc_value};
ghost use Rattle.std.specs.Prelude.{◌≡◌, ◌≤◌, [], true, map, replicate, vec_len, vec_capacity, IfOk};
ghost use Rattle.crossbeam_deque.specs.Handles.{worker_view, worker_deque, worker_flavor, worker_index, worker_capacity};
ghost use Rattle.roll_pool.specs.Owners.{came_by, rings_of, places_at};
ghost use Rattle.roll_pool.specs.Rings.{signals_at};
ghost use Rattle.roll_pool.specs.Rule.{counting_out, tally};
ghost use Rattle.roll_pool.specs.Workers.{fresh};

use crate::owner::{JOBS_OUT, Owner, WORKER_LIMIT};
use crate::results::{RESULT_PLACES, Results};
use crate::rule::{Deque, Hand};
use crate::signals::Signals;
use crate::worker::WorkerEnd;
use roll_frame::Refusal;
use roll_game::Game;
use rtrb::RingBuffer;
use std::alloc::{AllocError, Global};
use std::sync::Arc;

impl<G: Game> Owner<G> {
    ghost use Rattle.std.specs.Prelude.{◌≡◌, ◌≤◌, [], map, length, replicate, nat_eq, nat_lt, IfOk, IfErr, OnOk, ◌||◌, if◌then◌else◌};
    ghost use Rattle.roll_pool.specs.Workers.{fresh};
    ghost use Rattle.roll_pool.specs.declared.owner.TheConstants.{JOBS_OUT as MOST, WORKER_LIMIT as TEAM};

    /// A pool of so many workers, 1 to 4, in which nothing was issued: its owner, and the ends of the workers in order.
    ///
    /// # Errors
    ///
    /// `InvalidRequest` if the number is not 1 to 4; else `NoMemory` if the allocator has no room.
    pub fn open(alloc: Global, workers: usize) -> Result<(Owner<G>, Vec<WorkerEnd<G>>), Refusal>
        ensures places { IfOk result (λ pool. map (λ end. end.place) pool.1.items ≡ pool.0.places) }
        ensures ends { IfOk result (λ pool. pool.1.items ≡ map fresh pool.0.places) }
        ensures team { IfOk result
            (λ pool. (length pool.0.places ≡ workers) × (pool.0.came ≡ replicate workers [])) }
        ensures new { IfOk result
            (λ pool. (pool.0.issued ≡ []) × (pool.0.withdrawn ≡ [])) }
        ensures capacity { IfOk result (λ pool. MOST ≤ pool.0.capacity) }
        ensures refused { IfErr result (λ why. why ≡ (if nat_eq workers 0 || nat_lt TEAM workers
            then Refusal.InvalidRequest else Refusal.NoMemory)) }
        ensures range { OnOk result ((1 ≤ workers) × (workers ≤ TEAM)) }
    {
        if workers == 0 || workers > WORKER_LIMIT {
            return Err(Refusal::InvalidRequest);
        }
        let (late, left) = rooms(alloc)?;
        let signals = Arc::new(alloc, Signals::new())?;
        let mut deque = Deque::fifo_as(alloc, JOBS_OUT)?;
        let (rings, ends) = hire_all(alloc, &mut deque, &signals, workers)?;
        let owner = Owner {
            deque,
            rings,
            issued: 0,
            collected: 0,
            withdrawn: 0,
            signals,
            late,
            left,
        };
        Ok((owner, ends))
    }
}

/// Room for the results and for the jobs that are out at the end.
fn rooms<D: Drop, J: Drop>(alloc: Global) -> Result<(Vec<D>, Vec<J>), AllocError>
    ensures late { IfOk result (λ rooms. (rooms.0.items ≡ []) × (JOBS_OUT ≤ vec_capacity rooms.0)) }
    ensures left { IfOk result (λ rooms. (rooms.1.items ≡ []) × (JOBS_OUT ≤ vec_capacity rooms.1)) }
{
    let late = Vec::with_capacity(alloc, JOBS_OUT)?;
    let left = Vec::with_capacity(alloc, JOBS_OUT)?;
    Ok((late, left))
}

/// So many workers: the owner's ends of their rings, and their own ends.
fn hire_all<G: Game>(
    alloc: Global,
    deque: &mut Deque<G>,
    signals: &Arc<Signals, Global>,
    workers: usize,
) -> Result<(Vec<Results<G>>, Vec<WorkerEnd<G>>), AllocError>
    requires new { worker_view deque.old ≡ tally true [] 0 0 [] }
    ensures same { IfOk result
        (λ _. (worker_deque deque.new ≡ worker_deque deque.old)
        × (worker_flavor deque.new ≡ worker_flavor deque.old)
        × (worker_index deque.new ≡ worker_index deque.old)
        × (worker_capacity deque.old ≤ worker_capacity deque.new)) }
    ensures view { IfOk result (λ _. worker_view deque.new ≡ tally true [] workers 0 []) }
    ensures ends { IfOk result
        (λ hired. hired.1.items ≡ map fresh
        (places_at (worker_deque deque.new) (signals_at (arc_value signals.now))
        (rings_of hired.0.items))) }
    ensures came { IfOk result
        (λ hired. (came_by hired.0.items ≡ replicate workers []) × (vec_len hired.0 ≡ workers)
        × (vec_len hired.1 ≡ workers)) }
{
    let mut rings = Vec::with_capacity(alloc, workers)?;
    let mut ends = Vec::with_capacity(alloc, workers)?;
    for _ in 0..workers {
        let (ring, end) = hire(alloc, deque, signals)?;
        rings.push_reserved(ring);
        ends.push_reserved(end);
    }
    Ok((rings, ends))
}

/// One more worker: the owner's end of its ring, and its own end.
fn hire<G: Game>(
    alloc: Global,
    deque: &mut Deque<G>,
    signals: &Arc<Signals, Global>,
) -> Result<(Results<G>, WorkerEnd<G>), AllocError>
    requires { (worker_view deque.old).owns ≡ true }
    ensures same { IfOk result
        (λ _. (worker_deque deque.new ≡ worker_deque deque.old)
        × (worker_flavor deque.new ≡ worker_flavor deque.old)
        × (worker_index deque.new ≡ worker_index deque.old)
        × (worker_capacity deque.old ≤ worker_capacity deque.new)) }
    ensures view { IfOk result (λ _. worker_view deque.new ≡ counting_out (worker_view deque.old)) }
    ensures ends { IfOk result
        (λ ends. (ends.0.came ≡ [])
        × (ends.1 ≡ fresh
        (record {
          deque = worker_deque deque.new;
          ring = ends.0.ring;
          signals = signals_at
              (arc_value signals.now);
        }))) }
{
    let signals = Arc::try_clone(signals)?;
    let thief = deque.stealer()?;
    let (results, consumer) = RingBuffer::new(alloc, RESULT_PLACES)?;
    let end = WorkerEnd {
        thief,
        pass: deque.another::<Hand>(),
        results,
        signals,
        closed: None,
    };
    Ok((Results { consumer }, end))
}
