//! A pool's workers are put to work.
ghost use Rattle.std.specs.Prelude.{◌≡◌, map, vec_len, IfOk, IfErr};
ghost use Rattle.roll_pool.specs.Crews.{places_in};

use crate::crew::Crew;
use crate::worker::WorkerEnd;
use roll_frame::Refusal;
use roll_game::Game;
use std::alloc::Global;
use std::sync::Wait;
use std::thread::Threads;

/// Starts each worker of a pool in a thread of its own, with one of these games, in order. Each works until the pool is closed.
///
/// # Errors
///
/// `NoMemory` if the allocator has no room, or if a thread can't be started: the pool is closed then, and the workers
/// that were started are joined (tested in `tests/runs/faults.t`). All ends and games are dropped, so the owner can't
/// be settled, and results that it hasn't collected are lost with it.
pub fn start_all<R, G>(
    rt: R,
    alloc: Global,
    ends: Vec<WorkerEnd<G>>,
    games: Vec<G>,
) -> Result<Crew<G>, Refusal>
where
    R: Threads + Wait + Copy + Send + 'static,
    G: Game + Send + Drop + 'static,
    G::State: Send + 'static,
    G::Snapshot: Send + 'static,
    requires { vec_len games ≡ vec_len ends }
    ensures ends { IfOk result (λ crew. map (λ member. member.end) crew ≡ ends.items) }
    ensures games { IfOk result
        (λ crew. map (λ member. member.counts) crew
        ≡ map (λ game. G.call_counts game) games.items) }
    ensures places { IfOk result (λ crew. places_in crew ≡ map (λ end. end.place) ends.items) }
    ensures refused { IfErr result (λ why. why ≡ Refusal.NoMemory) }
{
    let mut crew = Crew::new(alloc);
    let mut in_order = games.into_iter();
    for end in ends {
        let Some(game) = in_order.next() else {
            unreachable!()
        };
        if let Err(why) = crew.hire(rt, end, game) {
            drop(crew.join(&rt));
            return Err(why);
        }
    }
    Ok(crew)
}
