//! Hellos that come and aren't of this match.
ghost use Rattle.std.specs.Prelude.{◌≡◌, true};
ghost use Rattle.roll_peer.specs.Strangers.{are_to_tell, no_strangers, one_stranger_more};

/// Hellos that came and aren't of this match.
#[derive(Clone, Copy, Debug)]
pub(crate) struct Strangers {
    /// How many came.
    count: u32,
    /// Whether that was told.
    told: bool,
}

impl Strangers {
    /// None came.
    pub(crate) fn new() -> Strangers
        ensures { result ≡ no_strangers }
    {
        Strangers {
            count: 0,
            told: false,
        }
    }

    /// One more came.
    pub(crate) fn note(&mut self)
        ensures { self.new ≡ one_stranger_more self.old }
    {
        self.count = self.count.saturating_add(1);
    }

    /// Whether it is to be told that some came, if anything is.
    pub(crate) fn are_to_tell(&self) -> bool
        ensures { result ≡ are_to_tell self.now }
    {
        !self.told && self.count > 0
    }

    /// It is told how many came, which is never told again.
    pub(crate) fn tell(&mut self) -> u32
        ensures count { result ≡ self.old.count }
        ensures told { self.new ≡ record self.old { told = true } }
    {
        self.told = true;
        self.count
    }
}
