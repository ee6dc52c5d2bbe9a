//! A worker's end of a pool.
ghost use Rattle.std.specs.Prelude.{◌≡◌};

use crate::rule::{Takes, Tally, Thief};
use crate::signals::{Closed, Signals};
use crossbeam_deque::{Pass, Steal};
use roll_branch::{Done, Job, extend};
use roll_game::Game;
use rtrb::Producer;
use std::alloc::Global;
use std::marker::Model;
use std::sync::{Arc, Wait};
use std::thread;

/// How often a worker looks for something to do before it sleeps.
const TRIES: u32 = 64;

/// A worker's end: what it takes jobs by, and the ring for its results.
#[derive(Drop)]
pub struct WorkerEnd<G: Game> {
    pub(crate) thief: Thief<G>,
    pub(crate) pass: Pass<Job<G>, Tally<Job<G>>>,
    pub(crate) results: Producer<Done<G>>,
    pub(crate) signals: Arc<Signals, Global>,
    // What shows that the pool is closed, once this end has seen it.
    pub(crate) closed: Option<Closed>,
}

/// A clause sees its place in the pool, the jobs that it took and the results that it pushed, and whether it has seen the close.
impl<G: Game> Model for WorkerEnd<G> {
    ghost use Rattle.std.specs.Arc.{arc_value};
    ghost use Rattle.std.specs.Prelude.{is_some};
    ghost use Rattle.crossbeam_deque.specs.Handles.{view as known, IsPassOf, stealer_deque};
    ghost use Rattle.rtrb.specs.Ring.{sent, known_free};
    ghost use Rattle.roll_branch.specs.declared.branch.Done.{Done};
    ghost use Rattle.roll_pool.specs.Rule.{working};
    ghost use Rattle.roll_pool.specs.Rings.{ring_at, signals_at};
    ghost use Rattle.roll_pool.specs.Workers.{Seated, IsSound};

    ghost Value = { Seated (Done G G.State G.Snapshot) };

    ghost view = { λ e. record { place = record { deque = stealer_deque e.thief; ring = ring_at e.results.end; signals = signals_at (arc_value e.signals) }; jobs = (known e.pass).jobs; results = sent e.results; stopped = is_some e.closed } };

    ghost invariant = { λ e. IsSound (IsPassOf (stealer_deque e.thief) e.pass) (known e.pass) (sent e.results) (known_free e.results) };
}

/// What one turn of a worker did.
#[derive(Clone, Copy, Debug, PartialEq, Eq)]
pub enum Worked {
    /// It ran the job of this number.
    Did(u64),
    /// It found no job, or another worker was at the deque.
    Empty,
    /// Its ring of results is full.
    RingFull,
    /// The pool is closed.
    Closed,
}

/// What is told of each job's start and end, on the worker's thread.
pub trait Gate {
    /// The job was taken, and is about to be run.
    fn taken(&self, ticket: u64);

    /// The job's result was pushed.
    fn left(&self, ticket: u64);
}

/// A gate that does nothing.
#[derive(Clone, Copy, Debug)]
pub struct OpenGate;

impl Gate for OpenGate {
    fn taken(&self, _ticket: u64) {}

    fn left(&self, _ticket: u64) {}
}

impl<G: Game> WorkerEnd<G> {
    ghost use Rattle.roll_pool.specs.Served.{HasServed};
    ghost use Rattle.roll_pool.specs.Works.{Works};

    /// Tries once to take a job, runs it on the game and pushes its result. It waits for nobody and takes no memory.
    pub fn work_one(&mut self, game: &mut G, gate: &impl Gate) -> Worked
        ensures place { self.new.place ≡ self.old.place }
        ensures works { Works result self.old self.new (G.call_counts game.old)
            (G.call_counts game.new) }
    {
        if let Some(closed) = self.signals.close_seen() {
            self.closed = Some(closed);
            return Worked::Closed;
        }
        if self.results.is_full() {
            return Worked::RingFull;
        }
        let Steal::Success(job) = self.thief.steal_as::<Takes>(&mut self.pass) else {
            return Worked::Empty;
        };
        let ticket = job.ticket();
        gate.taken(ticket);
        self.results.push_reserved(extend(game, job));
        gate.left(ticket);
        Worked::Did(ticket)
    }

    /// Works until the pool is closed. If it finds no job for a while, it sleeps until one is issued; if its ring is
    /// full for a while, until a result is collected. The close wakes it too. It returns only after a close: what it
    /// then keeps (`Closed` in `signals.rt`), the signals of a closed pool alone make.
    pub fn serve<R: Wait>(&mut self, rt: &R, game: &mut G, gate: &impl Gate)
        ensures place { self.new.place ≡ self.old.place }
        ensures served { HasServed (record { end = self.old; counts = G.call_counts game.old })
            (record { end = self.new; counts = G.call_counts game.new }) }
    {
        for _ in rt.forever() {
            let jobs = self.signals.jobs.heard();
            let places = self.signals.places.heard();
            match self.try_to_work(game, gate) {
                Worked::Closed => return,
                Worked::Did(_) => {}
                Worked::Empty => self.signals.jobs.sleep(rt, jobs),
                Worked::RingFull => self.signals.places.sleep(rt, places),
            }
        }
    }

    /// Tries to work, so many times if there is nothing to do. Between two tries it lets other threads run.
    fn try_to_work(&mut self, game: &mut G, gate: &impl Gate) -> Worked
        ensures { Works result self.old self.new (G.call_counts game.old) (G.call_counts game.new) }
    {
        for _ in 0..TRIES {
            match self.work_one(game, gate) {
                Worked::Empty | Worked::RingFull => thread::yield_now(),
                worked => return worked,
            }
        }
        self.work_one(game, gate)
    }
}
