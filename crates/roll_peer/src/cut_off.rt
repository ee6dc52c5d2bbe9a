//! Whether a machine hears most of the others, or is cut off from them.
ghost use Rattle.std.specs.Prelude.{◌≡◌, ◌<◌, ◌≤◌, ◌&&◌, false, IfSome};
ghost use Rattle.std.specs.Option.{option_map_or};
ghost use Rattle.roll_mesh.specs.declared.limits.TheConstants.{MACHINE_LIMIT};
ghost use Rattle.roll_peer.specs.CutOffs.{are_most, count_of, cut_off_noted, cut_off_since, first_silent, hears_most, is_cut_off, is_heard, is_here, lowest_here, most_noted, over_if};
ghost use Rattle.roll_contact.specs.Contacts.{is_silent};
ghost use Rattle.roll_peer.specs.Peered.{contact_at, first_cut_off};

use crate::event::PeerEvent;
use crate::peer::Peer;
use roll_contact::since;

/// Whether a machine hears most of the others, and since when it is cut off from them.
#[derive(Clone, Copy, Debug)]
pub struct CutOff {
    /// Whether it hears most of those that aren't gone. If not, it calls nobody gone.
    pub hears_most: bool,
    /// Since when it is cut off.
    pub since: Option<u32>,
    /// Whether the match is over here, and that was told: it was cut off for so long, or another machine regards it as gone.
    pub is_over: bool,
}

impl CutOff {
    /// Nothing is known yet.
    pub(crate) fn new() -> CutOff
        ensures { result ≡ first_cut_off }
    {
        CutOff {
            hears_most: true,
            since: None,
            is_over: false,
        }
    }
}

impl Peer {
    /// Whether a machine isn't gone.
    fn is_here(&self, machine: u8) -> bool
        ensures { result ≡ is_here self.now machine }
    {
        !self.member.mesh().is_gone(machine)
    }

    /// Whether it is this one, or isn't gone, and was heard within half of the time after which it would be.
    fn is_heard(&self, now: u32, machine: u8) -> bool
        requires { machine < MACHINE_LIMIT }
        ensures { result ≡ is_heard self.now now machine }
    {
        let contact = &self.contacts[usize::from(machine)];
        self.is_here(machine)
            && (machine == self.member.mesh().seat().me
                || self.settings.silent_after == 0
                || contact.confirmed
                    && contact.unanswered_for(now) <= self.settings.silent_after / 2)
    }

    /// How many machines aren't gone.
    #[tactic(auto, using(crate::proofs::Counts::count_none, crate::proofs::Counts::count_next))]
    fn count_here(&self) -> u32
        ensures count { result ≡ count_of (is_here self.now) self.now.settings.machines }
        ensures few { result ≤ MACHINE_LIMIT }
    {
        let mut count = 0;
        for machine in 0..self.settings.machines {
            count += u32::from(self.is_here(machine));
        }
        count
    }

    /// How many of them this machine hears, itself among them.
    #[tactic(auto, using(crate::proofs::Counts::count_none, crate::proofs::Counts::count_next))]
    fn count_heard(&self, now: u32) -> u32
        ensures count { result ≡ count_of (is_heard self.now now) self.now.settings.machines }
        ensures few { result ≤ MACHINE_LIMIT }
    {
        let mut count = 0;
        for machine in 0..self.settings.machines {
            count += u32::from(self.is_heard(now, machine));
        }
        count
    }

    /// The lowest machine that isn't gone.
    #[tactic(auto, using(crate::proofs::Counts::first_passes, crate::proofs::Counts::none_passes))]
    fn lowest_here(&self) -> Option<u8>
        ensures lowest { result ≡ lowest_here self.now }
        ensures place { IfSome result (λ machine. machine < MACHINE_LIMIT) }
    {
        for machine in 0..self.settings.machines {
            if self.is_here(machine) {
                return Some(machine);
            }
        }
        None
    }

    /// Whether this machine hears the lowest that isn't gone.
    fn hears_lowest(&self, now: u32) -> bool
        ensures { result ≡ option_map_or (is_heard self.now now) (lowest_here self.now) false }
    {
        match self.lowest_here() {
            Some(lowest) => self.is_heard(now, lowest),
            None => false,
        }
    }

    /// Whether this machine hears most of those that aren't gone, itself among them.
    fn hears_most(&self, now: u32) -> bool
        ensures { result ≡ hears_most self.now now }
    {
        are_most(
            self.count_heard(now),
            self.count_here(),
            self.hears_lowest(now),
        )
    }

    /// The first machine that isn't gone and was silent for so long that it should be.
    #[tactic(auto, using(crate::proofs::Counts::first_passes, crate::proofs::Counts::none_passes))]
    fn first_silent(&self, now: u32) -> Option<u8>
        ensures { result ≡ first_silent self.now now }
    {
        for machine in 0..self.settings.machines {
            if self.is_long_silent(now, machine) {
                return Some(machine);
            }
        }
        None
    }

    fn is_long_silent(&self, now: u32, machine: u8) -> bool
        requires { machine < MACHINE_LIMIT }
        ensures { result ≡ (is_here self.now machine
            && is_silent (contact_at self.now machine) now self.now.settings.silent_after) }
    {
        self.is_here(machine)
            && self.contacts[usize::from(machine)].is_silent(now, self.settings.silent_after)
    }

    /// Whether the match has begun, somebody is silent for so long, and this machine doesn't hear most.
    fn is_cut_off(&self, now: u32) -> bool
        ensures { result ≡ is_cut_off self.now now }
    {
        self.running && self.first_silent(now).is_some() && !self.hears_most(now)
    }

    /// It is looked at whether this machine hears most, and told if it is cut off.
    pub(crate) fn note_most(&mut self, now: u32)
        ensures { self.new ≡ most_noted now self.old }
    {
        self.cut_off.hears_most = self.hears_most(now);
        if self.is_cut_off(now) {
            self.tell_cut_off(now);
        } else {
            self.cut_off.since = None;
        }
    }

    /// That this machine is cut off is told as it begins, and that the match is over here once it has lasted as long again.
    fn tell_cut_off(&mut self, now: u32)
        ensures { self.new ≡ cut_off_since now self.old.cut_off.since self.old }
    {
        let silent_after = self.settings.silent_after;
        match self.cut_off.since {
            None => {
                self.cut_off.since = Some(now);
                self.events.push(PeerEvent::CutOff {
                    over_in: silent_after,
                });
            }
            Some(at) => self.end_if(since(now, at) > silent_after),
        }
    }

    /// The match is over here, if it is by this or was before; that is told once.
    pub(crate) fn end_if(&mut self, is_over: bool)
        ensures { self.new ≡ over_if is_over self.old }
    {
        if is_over && !self.cut_off.is_over {
            self.cut_off.is_over = true;
            self.events.push(PeerEvent::Dropped);
        }
    }
}

/// Whether so many who are heard are most of so many.
fn are_most(heard: u32, here: u32, lowest: bool) -> bool
    requires { heard ≤ MACHINE_LIMIT }
    ensures { result ≡ are_most heard here lowest }
{
    2 * heard > here || here == 2 || here == 2 * heard && lowest
}
