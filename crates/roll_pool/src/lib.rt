//! A pool of workers that run branches ahead of a session: one owner hands out jobs, each worker takes some of them, and the
//! results come back by a ring for each worker.
//!
//! At most one worker runs a job, and none is lost. That shows at the end: `Owner::settle` takes all ends back, and
//! finds each job that was issued in one place. That a worker finds the jobs that are there, and wakes for them, no
//! clause says: tests show it (`tests/runs/workers.t`, and on threads `tests/rattle/test_threads`).
//!
//! Only what has `Wait` or `Threads` in its bounds waits for another thread: `serve`, `join`, and `start_all` if it
//! fails.
#![tactic(auto)]

mod crew;
mod handle;
mod open;
mod owner;
mod results;
mod rule;
mod settle;
mod signals;
mod start;
mod worker;

pub use crew::Crew;
pub use owner::{IssueFault, JOBS_OUT, Owner, WORKER_LIMIT};
pub use results::RESULT_PLACES;
pub use settle::Outcome;
pub use start::start_all;
pub use worker::{Gate, OpenGate, Worked, WorkerEnd};
