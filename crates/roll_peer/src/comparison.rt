//! How a machine's settled states compare with this one's: which is the first frame that differs.
ghost use Rattle.std.specs.Prelude.{◌≡◌, ◌<◌, ◌≤◌};
ghost use Rattle.roll_mesh.specs.declared.limits.TheConstants.{MACHINE_LIMIT};
ghost use Rattle.roll_peer.specs.Comparisons.{compared, compared_with, found_alike, found_other, halving, is_over, no_comparison, seeking, sought, to_tell};
ghost use Rattle.roll_peer.specs.Receiving.{comparing};
ghost use Rattle.roll_peer.specs.Turning.{desync_at, desync_in, desync_until};

use crate::digests::Digests;
use crate::event::PeerEvent;
use crate::peer::Peer;
use roll_contact::since;
use roll_mesh::MACHINE_LIMIT;
use roll_wire::Settled;

/// For how many milliseconds the first frame that differs is sought.
const SEARCH_LIMIT: u32 = 2_000;

/// What was found of a machine's settled states by their digests.
#[derive(Clone, Copy, Debug)]
pub(crate) struct Comparison {
    /// The first frame that may differ: one more than the last that was found alike.
    from: u32,
    /// The least frame that was found to differ.
    differs: Option<u32>,
    /// When the first such frame was found, if one was.
    seen: u32,
    /// Whether it was told which frame differs.
    told: bool,
}

impl Comparison {
    /// Nothing was compared.
    pub(crate) fn new() -> Comparison
        ensures { result ≡ no_comparison }
    {
        Comparison {
            from: 0,
            differs: None,
            seen: 0,
            told: false,
        }
    }

    /// A machine's settled state was heard of, at a moment.
    fn compare(&mut self, digests: &Digests, settled: Option<Settled>, now: u32)
        ensures { self.new ≡ compared digests.now settled now self.old }
    {
        if let Some(settled) = settled {
            self.compare_with(settled, digests.at(settled.frame), now);
        }
    }

    fn compare_with(&mut self, settled: Settled, ours: Option<u64>, now: u32)
        ensures { self.new ≡ compared_with settled now ours self.old }
    {
        match ours {
            None => {}
            Some(ours) if ours == settled.digest => self.find_alike(settled.frame),
            Some(_) => self.find_other(settled.frame, now),
        }
    }

    /// A frame was found alike.
    fn find_alike(&mut self, frame: u32)
        ensures { self.new ≡ found_alike frame self.old.differs self.old }
    {
        match self.differs {
            Some(least) if frame >= least => {}
            _ => self.from = self.from.max(frame.saturating_add(1)),
        }
    }

    /// A frame was found to differ.
    fn find_other(&mut self, frame: u32, now: u32)
        ensures { self.new ≡ found_other frame now self.old.differs self.old }
    {
        match self.differs {
            None => {
                self.differs = Some(frame);
                self.seen = now;
            }
            Some(least) => self.differs = Some(least.min(frame)),
        }
    }

    /// The least frame that was found to differ, for as long as the first one is sought.
    pub(crate) fn sought(&self, now: u32) -> Option<u32>
        ensures { result ≡ sought now self.now }
    {
        if since(now, self.seen) <= SEARCH_LIMIT {
            self.differs
        } else {
            None
        }
    }

    /// The digest by which the first frame that differs is sought, in a packet of this number.
    pub(crate) fn seeking(&self, digests: &Digests, number: u32, differs: u32) -> Option<Settled>
        ensures { result ≡ seeking digests.now number self.now differs }
    {
        if number % 2 == 0 {
            self.halving(digests, differs)
        } else {
            digests.noted(differs)
        }
    }

    /// The digest by which the other machine halves the frames that may be the first to differ.
    fn halving(&self, digests: &Digests, differs: u32) -> Option<Settled>
        ensures { result ≡ halving digests.now self.now differs }
    {
        let before = digests.noted(self.from.saturating_sub(1));
        digests.nearest(self.from, differs).or(before)
    }

    /// Whether no earlier frame that differs can be found.
    fn is_over(&self, digests: &Digests, now: u32, is_gone: bool, differs: u32) -> bool
        ensures { result ≡ is_over digests.now now is_gone self.now differs }
    {
        digests.nearest(self.from, differs).is_none()
            || since(now, self.seen) > SEARCH_LIMIT
            || is_gone
    }

    /// The frame that is to be told now, if any is.
    fn to_tell(&self, digests: &Digests, now: u32, is_gone: bool) -> Option<u32>
        ensures { result ≡ to_tell digests.now now is_gone self.now self.now.differs }
    {
        let differs = self.differs?;
        if !self.told && self.is_over(digests, now, is_gone, differs) {
            Some(differs)
        } else {
            None
        }
    }
}

impl Peer {
    /// A machine's settled state was heard of.
    pub(crate) fn compare(&mut self, machine: u8, settled: Option<Settled>)
        requires { machine < MACHINE_LIMIT }
        ensures { self.new ≡ comparing machine settled self.old }
    {
        let now = self.clock.moment;
        self.comparisons[usize::from(machine)].compare(&self.digests, settled, now);
    }

    /// Tells of machines whose states differ.
    #[tactic(auto, using(crate::proofs::Untils::desync_none, crate::proofs::Untils::desync_next))]
    pub(crate) fn tell_desyncs(&mut self, machines: u8, now: u32)
        requires { machines ≤ MACHINE_LIMIT }
        ensures { self.new ≡ desync_until now machines self.old }
    {
        for machine in 0..machines {
            self.tell_desync(machine, now);
        }
    }

    fn tell_desync(&mut self, machine: u8, now: u32)
        requires { machine < MACHINE_LIMIT }
        ensures { self.new ≡ desync_at now machine self.old }
    {
        if let Some(frame) = self.desync(machine, now) {
            self.comparisons[usize::from(machine)].told = true;
            self.events.push(PeerEvent::Desync { machine, frame });
        }
    }

    /// The frame of which it is to be told that a machine's state differs.
    fn desync(&self, machine: u8, now: u32) -> Option<u32>
        requires { machine < MACHINE_LIMIT }
        ensures { result ≡ desync_in self.now now machine }
    {
        let is_gone = self.member.mesh().is_gone(machine);
        self.comparisons[usize::from(machine)].to_tell(&self.digests, now, is_gone)
    }
}
