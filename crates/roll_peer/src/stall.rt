//! For how long another machine has held up the match.
ghost use Rattle.std.specs.Prelude.{◌≡◌, false};
ghost use Rattle.roll_peer.specs.Stalls.{first_stall, goes_on, held_for, is_overdue, is_taking, is_to_tell, same_wait, watched};

use roll_contact::since;

/// In milliseconds: what lasts longer between two looks is a clock that leapt, or a program that stood still.
const LEAP: u32 = 1_000;

/// What a machine that holds up the match is waited for.
#[derive(Clone, Copy, Debug)]
pub(crate) enum Wait {
    /// Its first clocks in this epoch.
    Coming,
    /// The next word of a player of its own, of whom there are so many.
    Giving(u32),
    /// That it takes more words of this machine's players than so many.
    Taking(u32),
}

impl Wait {
    /// Whether another wait is for the same.
    fn is_same(self, other: Wait) -> bool
        ensures { result ≡ same_wait self other }
    {
        match (self, other) {
            (Wait::Coming, Wait::Coming) => true,
            (Wait::Giving(one), Wait::Giving(other)) => one == other,
            (Wait::Taking(one), Wait::Taking(other)) => one == other,
            _ => false,
        }
    }
}

/// For how long a machine has held up the match.
#[derive(Clone, Copy, Debug)]
pub(crate) struct Stall {
    /// What it is waited for, if it holds up the match.
    wait: Option<Wait>,
    /// Since when it is waited for that.
    since: u32,
    /// When it was looked at last.
    seen: u32,
    /// Whether that was told.
    pub(crate) told: bool,
    /// Whether it was told that the machine hasn't come.
    pub(crate) missed: bool,
    /// Whether it was seen that the machine is past its first frame, in this epoch or one before that it played too.
    pub(crate) begun: bool,
    /// Whether it was seen that it has come to this epoch.
    pub(crate) came: bool,
}

impl Stall {
    /// It holds up nobody.
    pub(crate) fn new() -> Stall
        ensures { result ≡ first_stall }
    {
        Stall {
            wait: None,
            since: 0,
            seen: 0,
            told: false,
            missed: false,
            begun: false,
            came: false,
        }
    }

    /// At a moment, the machine is waited for, or isn't.
    pub(crate) fn watch(&mut self, wait: Option<Wait>, now: u32)
        ensures { self.new ≡ watched wait now self.old }
    {
        if !self.goes_on(wait, now) {
            self.wait = wait;
            self.since = now;
            self.told = false;
        }
        self.seen = now;
    }

    /// Whether it holds up the match as it did when it was looked at last, which was just now.
    fn goes_on(&self, wait: Option<Wait>, now: u32) -> bool
        ensures { result ≡ goes_on wait now self.now }
    {
        match (wait, self.wait) {
            (Some(wait), Some(before)) => wait.is_same(before) && since(now, self.seen) <= LEAP,
            _ => false,
        }
    }

    /// Whether it is waited for that it takes words.
    pub(crate) fn is_taking(&self) -> bool
        ensures { result ≡ is_taking self.now.wait }
    {
        matches!(self.wait, Some(Wait::Taking(_)))
    }

    /// For how many milliseconds.
    pub(crate) fn lasted(&self, now: u32) -> u32
        ensures { result ≡ held_for self.now now }
    {
        since(now, self.since)
    }

    /// Whether that is to be told now.
    pub(crate) fn is_to_tell(&self, now: u32, notify_after: u32) -> bool
        ensures { result ≡ is_to_tell self.now now notify_after }
    {
        notify_after > 0 && !self.told && self.lasted(now) > notify_after
    }

    /// Whether the machine is to be regarded as gone, which may hold up the match for so long; 0: for ever.
    pub(crate) fn is_overdue(&self, now: u32, limit: u32) -> bool
        ensures { result ≡ is_overdue self.now now limit }
    {
        limit > 0 && self.lasted(now) > limit
    }
}
