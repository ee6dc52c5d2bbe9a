//! The thread of a worker.
ghost use Rattle.std.specs.Prelude.{◌≡◌, IfOk, IfErr};
ghost use Rattle.roll_pool.specs.Served.{HasServed};

use crate::signals::Closed;
use crate::worker::{OpenGate, WorkerEnd};
use roll_frame::Refusal;
use roll_game::Game;
use std::marker::Model;
use std::snapshot::Snapshot;
use std::sync::Wait;
use std::thread;
use std::thread::{Promise, PromisedHandle, Threads};

/// A thread hands back the end and the game that it was given, after it served until the pool was closed.
#[derive(Drop)]
pub(crate) struct HandsBack<G: Game> {
    end: Snapshot<WorkerEnd<G>>,
    game: Snapshot<G>,
}

impl<G: Game> Promise<(WorkerEnd<G>, G)> for HandsBack<G> {
    ghost use Rattle.roll_pool.specs.Served.{HasServed};

    ghost kept_by = { λ promise result. HasServed (record { end = promise.end.value; counts = G.call_counts promise.game.value }) (record { end = result.0; counts = G.call_counts result.1 }) };
}

/// A worker's thread.
#[derive(Drop)]
pub(crate) struct Handle<G: Game + Drop> {
    thread: PromisedHandle<(WorkerEnd<G>, G), HandsBack<G>>,
}

/// A clause sees the worker as the thread was given it.
impl<G: Game + Drop> Model for Handle<G> {
    ghost use Rattle.roll_branch.specs.declared.branch.Done.{Done};
    ghost use Rattle.roll_pool.specs.Served.{Member};

    ghost Value = { Member (Done G G.State G.Snapshot) };

    ghost view = { λ h. record { end = h.thread.promise.end.value; counts = G.call_counts h.thread.promise.game.value } };
}

impl<G: Game + Drop> Handle<G> {
    /// Starts a thread in which a worker serves.
    pub fn start<R>(rt: R, end: WorkerEnd<G>, game: G) -> Result<Handle<G>, Refusal>
    where
        R: Threads + Wait + Copy + Send + 'static,
        G: Send + 'static,
        G::State: Send + 'static,
        G::Snapshot: Send + 'static,
        ensures handle { IfOk result
            (λ handle. handle ≡ record { end = end; counts = G.call_counts game }) }
        ensures refused { IfErr result (λ why. why ≡ Refusal.NoMemory) }
    {
        let promise = HandsBack {
            end: Snapshot::of(&end),
            game: Snapshot::of(&game),
        };
        let thread = thread::spawn_with(
            &rt,
            promise,
            move || -> (WorkerEnd<G>, G)
                ensures { HasServed (record { end = end; counts = G.call_counts game })
                    (record { end = result.0; counts = G.call_counts result.1 }) }
            {
                let mut end = end;
                let mut game = game;
                end.serve(&rt, &mut game, &OpenGate);
                (end, game)
            },
        );
        match thread {
            Ok(thread) => Ok(Handle { thread }),
            Err(_) => Err(Refusal::NoMemory),
        }
    }

    /// Waits for the thread, whose pool was closed.
    pub fn join<R: Threads>(self, rt: &R, _closed: Closed) -> (WorkerEnd<G>, G)
        ensures { HasServed self (record { end = result.0; counts = G.call_counts result.1 }) }
    {
        self.thread.join(rt)
    }
}
