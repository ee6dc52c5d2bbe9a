//! What the owner of a pool tells its workers, beside the jobs.
use std::sync::atomic::{AtomicU64, Ordering};
use std::sync::{OnceLock, Wait};

/// What workers sleep on until it rings.
#[derive(Drop)]
pub(crate) struct Bell {
    rings: AtomicU64,
    sleepers: AtomicU64,
}

impl Bell {
    fn new() -> Bell {
        Bell {
            rings: AtomicU64::new(0),
            sleepers: AtomicU64::new(0),
        }
    }

    /// Wakes those that sleep. Who is about to sleep doesn't.
    pub fn ring(&self) {
        self.rings.fetch_add(1, Ordering::SeqCst);
        if self.sleepers.load(Ordering::SeqCst) != 0 {
            self.rings.wake_all();
        }
    }

    /// How often it rang, of which a sleep compares 32 bits. Take it before the last look for what is waited for.
    pub fn heard(&self) -> u32 {
        (self.rings.load(Ordering::SeqCst) & u64::from(u32::MAX)) as u32
    }

    /// Sleeps, unless it rang since.
    pub fn sleep<R: Wait>(&self, rt: &R, heard: u32) {
        self.sleepers.fetch_add(1, Ordering::SeqCst);
        self.rings.park(rt, heard);
        self.sleepers.fetch_sub(1, Ordering::SeqCst);
    }
}

/// Whether the pool is closed, and what its workers sleep on. The close rings too.
#[derive(Drop)]
pub(crate) struct Signals {
    closed: OnceLock<()>,
    /// It rings when a job is issued.
    pub jobs: Bell,
    /// It rings when a result is collected.
    pub places: Bell,
}

/// What shows that a pool was closed: its signals alone make it.
#[derive(Clone, Copy)]
pub(crate) struct Closed(());

impl Signals {
    /// The signals of an open pool.
    pub fn new() -> Signals {
        Signals {
            closed: OnceLock::new(),
            jobs: Bell::new(),
            places: Bell::new(),
        }
    }

    /// Closes the pool. In one that is closed it changes nothing.
    pub fn close(&self) -> Closed {
        let _ = self.closed.try_set(());
        self.jobs.ring();
        self.places.ring();
        Closed(())
    }

    /// What shows that the pool is closed. None if it isn't.
    pub fn close_seen(&self) -> Option<Closed> {
        match self.closed.get() {
            Some(()) => Some(Closed(())),
            None => None,
        }
    }
}
