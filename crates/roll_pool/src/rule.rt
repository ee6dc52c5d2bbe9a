//! The rule of the deque: what its owner and its workers know together of the jobs.
use crossbeam_deque::protocol::{Join, Outcome, Protocol, Split};
use crossbeam_deque::{Stealer, Worker};
use roll_branch::Job;
use roll_game::Game;
use std::alloc::Global;
use std::collections::LinkedList;

/// What a pass knows, for proofs alone: no value of it is made.
pub(crate) struct Tally<T> {
    // It is the owner's pass, which knows the jobs that were issued and counts the passes that are out.
    owns: bool,
    issued: LinkedList<T>,
    others: u64,
    // 1 for a worker's pass, until it is joined.
    out: u64,
    // The jobs that it took from the deque.
    jobs: LinkedList<T>,
}

/// Each job that left the deque is with one pass.
pub(crate) struct Once;

impl<G: Game> Protocol<Job<G>, Tally<Job<G>>> for Once {
    ghost use Rattle.roll_pool.specs.Rule.{Shares, owner_first, worker_spent};

    ghost holds = { Shares };

    ghost first = { owner_first };

    ghost guest = { worker_spent };
}

/// A job joins the deque.
pub(crate) struct Issues;

impl<G: Game> Outcome<Job<G>, Tally<Job<G>>> for Issues {
    ghost use Rattle.std.specs.Prelude.{◌≡◌};
    ghost use Rattle.roll_pool.specs.Rule.{issuing};

    ghost then = { λ v xs w. w ≡ issuing v xs };
}

/// A job leaves the deque.
pub(crate) struct Takes;

impl<G: Game> Outcome<Job<G>, Tally<Job<G>>> for Takes {
    ghost use Rattle.std.specs.Prelude.{◌≡◌};
    ghost use Rattle.roll_pool.specs.Rule.{taking};

    ghost then = { λ v xs w. w ≡ taking v xs };
}

/// The owner takes a job back while workers are out, and learns that it was issued after those that it took back before.
pub(crate) struct Withdraws;

impl<G: Game> Outcome<Job<G>, Tally<Job<G>>> for Withdraws {
    ghost use Rattle.std.specs.Prelude.{◌≡◌};
    ghost use Rattle.roll_pool.specs.Rule.{taking, AreLater};

    ghost then = { λ v xs w. (w ≡ taking v xs) × AreLater v xs };
}

/// The owner takes a job back, and learns that it is the next of those that were issued; once there is none, that it has all.
pub(crate) struct TakesBack;

impl<G: Game> Outcome<Job<G>, Tally<Job<G>>> for TakesBack {
    ghost use Rattle.std.specs.Prelude.{◌≡◌};
    ghost use Rattle.roll_pool.specs.Rule.{taking, AreNext, HasAll};

    ghost then = { λ v xs w. (w ≡ taking v xs) × AreNext v xs };

    ghost empty = { HasAll };
}

/// A pass for a worker is cut off the owner's, or put back.
pub(crate) struct Hand;

impl<T> Split<Tally<T>> for Hand {
    ghost use Rattle.roll_pool.specs.Rule.{counting_out, worker_first};

    ghost left = { counting_out };

    ghost right = { λ v. worker_first };
}

impl<T> Join<Tally<T>> for Hand {
    ghost use Rattle.roll_pool.specs.Rule.{counting_back, worker_spent};

    ghost both = { counting_back };

    ghost spent = { worker_spent };
}

pub(crate) type Deque<G> = Worker<Job<G>, Global, Tally<Job<G>>, Once>;

pub(crate) type Thief<G> = Stealer<Job<G>, Global, Tally<Job<G>>, Once>;
