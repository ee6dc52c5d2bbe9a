//! How the network of a match goes on in the match's next epoch.
ghost use Rattle.std.specs.Prelude.{◌≡◌, ◌≢◌, ◌<◌, ◌&&◌, true, None, OnOk, IfErr, IfOk, nat_lt, not, slice_index_or, ◌==◌};
ghost use Rattle.roll_member.specs.Joined.{join_refusal};
ghost use Rattle.roll_mesh.specs.Machines.{is_in, leave};
ghost use Rattle.roll_mesh.specs.declared.limits.TheConstants.{MACHINE_LIMIT};
ghost use Rattle.roll_mesh.specs.Meshes.{leave_refusal, stepped};
ghost use Rattle.roll_peer.specs.Following.{begins_without, contacts_next, dispute_beside, disputes_next, gone_first, heard_beside, is_out, known_next, stalls_next, IsFollowedAs};
ghost use Rattle.roll_peer.specs.Peered.{without_all, IsWhyNot};
ghost use Rattle.roll_peer.specs.Settings.{are_delayed_alike, seat_of};

use crate::comparison::Comparison;
use crate::cut_off::CutOff;
use crate::digests::Digests;
use crate::keys::sealers;
use crate::opening::take_seat;
use crate::pace::Pace;
use crate::peer::Peer;
use crate::refusal::OpenRefusal;
use crate::settings::MatchSettings;
use crate::stall::Stall;
use crate::strangers::Strangers;
use roll_contact::Contact;
use roll_member::Member;
use roll_mesh::{MACHINE_LIMIT, PLAYER_LIMIT};
use roll_session::Networked;
use std::alloc::Global;

/// Who sits at a place as a match goes on in its next epoch.
#[derive(Clone, Copy, Debug, PartialEq, Eq)]
pub enum Seating {
    /// The machine that sat there in the epoch before.
    Stays,
    /// Another machine, of which nothing is known yet.
    Comes,
    /// Nobody.
    Empty,
}

impl Seating {
    /// Whether nobody is heard there at first, where the machine before was gone or not.
    fn is_out(self, was_gone: bool) -> bool
        ensures { result ≡ is_out self was_gone }
    {
        match self {
            Seating::Stays => was_gone,
            Seating::Comes => false,
            Seating::Empty => true,
        }
    }
}

impl Peer {
    /// Opens the network of the match's next epoch, beside that epoch's session. What is known of the machines that stay goes over, so
    /// nobody has to greet whom it plays with already, and whoever is gone is gone there too. The events that wait go over too. This
    /// epoch's network stays as it is.
    ///
    /// # Errors
    ///
    /// As of `open`; but the numbers that its settings share may be 0, since they are made of those of the epoch before.
    pub fn follow<S: Networked>(
        &self,
        alloc: Global,
        session: &S,
        settings: MatchSettings,
        seating: &[Seating; MACHINE_LIMIT],
    ) -> Result<Peer, OpenRefusal>
        ensures followed { IfOk result (IsFollowedAs (S.seen session.now) settings self.now
            seating.now) }
        ensures accepted { OnOk result (join_refusal (S.seen session.now) (seat_of settings) ≡
            None) }
        ensures drawn { OnOk result (settings.draw ≢ 0) }
        ensures delayed { OnOk result (are_delayed_alike (S.seen session.now).settings settings ≡
            true) }
        ensures refused { IfErr result (IsWhyNot (S.seen session.now) settings) }
    {
        if settings.draw == 0 {
            return Err(OpenRefusal::NoDraw);
        }
        let Ok(pace) = Pace::new(alloc) else {
            return Err(OpenRefusal::NoMemory);
        };
        match take_seat(session, &settings) {
            Ok(member) => Ok(Peer {
                member: self.without_gone(member, &settings, seating),
                settings,
                clock: self.clock,
                contacts: self.contacts_next(seating),
                stalls: self.stalls_next(seating),
                running: self.running,
                known_gone: self.known_next(seating),
                events: self.events.copy(),
                digests: Digests::new(),
                comparisons: [Comparison::new(); MACHINE_LIMIT],
                pace,
                frame: session.frame(),
                cut_off: CutOff::new(),
                marks: [None; PLAYER_LIMIT],
                voids: [false; PLAYER_LIMIT],
                disputes: self.disputes_next(seating),
                opened: self.clock.moment,
                strangers: Strangers::new(),
                follows: true,
                sealers: sealers(),
                openers: sealers(),
            }),
            Err(why) => Err(why),
        }
    }

    /// A machine is heard here too where another network of this same machine has heard it: that of the epoch before, by which alone one
    /// is heard that hasn't come to this epoch yet. So it isn't silent here as long as it is heard there; `Resumed` is told if it was.
    /// What the other network has told of its marks is told here too. A program calls this for each machine that stays, in each turn, as
    /// long as it has both. Nothing happens if there is no such
    /// other machine, if it is gone, or unless both networks play with the same opening of it.
    pub fn hear_too(&mut self, machine: u8, other: &Peer)
        ensures { self.new ≡ heard_beside machine other.now self.old }
    {
        if self.is_lost(machine) {
            return;
        }
        let player = self.dispute_beside(machine, other);
        let place = usize::from(machine);
        let before = self.contacts[place];
        let mut contact = before;
        contact.hear_too(&other.contacts[place], self.clock.moment);
        self.contacts[place] = contact;
        self.events.heard(machine, &before, &contact);
        self.tell_dispute(machine, player);
    }

    /// Whether a machine is gone as the next epoch begins.
    fn begins_without(
        &self,
        settings: &MatchSettings,
        seating: &[Seating; MACHINE_LIMIT],
        machine: u8,
    ) -> bool
        requires { machine < MACHINE_LIMIT }
        ensures { result ≡ begins_without self.now settings.now seating.now machine }
    {
        machine < settings.machines
            && machine != settings.me
            && seating[usize::from(machine)].is_out(self.member.mesh().is_gone(machine))
    }

    /// A member that regards those as gone.
    fn without_gone(
        &self,
        member: Member,
        settings: &MatchSettings,
        seating: &[Seating; MACHINE_LIMIT],
    ) -> Member
        requires seat { member.mesh.seat ≡ seat_of settings.now }
        ensures mesh { result.mesh ≡ without_all (gone_first self.now settings.now seating.now)
            member.mesh }
        ensures limits { result.limits ≡ member.limits }
        ensures seat { result.mesh.seat ≡ seat_of settings.now }
    {
        let mut member = member;
        for machine in 0..MACHINE_LIMIT as u8 {
            if self.begins_without(settings, seating, machine) {
                leave(&mut member, machine);
            }
        }
        member
    }

    /// What is known of each machine as the next epoch begins.
    fn contacts_next(&self, seating: &[Seating; MACHINE_LIMIT]) -> [Contact; MACHINE_LIMIT]
        ensures { result ≡ contacts_next self.now seating.now }
    {
        let mut contacts = [Contact::new(); MACHINE_LIMIT];
        for machine in 0..MACHINE_LIMIT {
            if seating[machine] == Seating::Stays {
                contacts[machine] = self.contacts[machine];
            }
        }
        contacts
    }

    /// Of which machines it was told that they know another mark, as the next epoch begins.
    fn disputes_next(&self, seating: &[Seating; MACHINE_LIMIT]) -> [Option<u8>; MACHINE_LIMIT]
        ensures { result ≡ disputes_next self.now seating.now }
    {
        let mut disputes = [None; MACHINE_LIMIT];
        for machine in 0..MACHINE_LIMIT {
            if matches!(seating[machine], Seating::Stays) {
                disputes[machine] = self.disputes[machine];
            }
        }
        disputes
    }

    /// For how long each machine has held up the match as the next epoch begins: not yet; but it is known which ones have begun.
    fn stalls_next(&self, seating: &[Seating; MACHINE_LIMIT]) -> [Stall; MACHINE_LIMIT]
        ensures { result ≡ stalls_next self.now seating.now }
    {
        let mut stalls = [Stall::new(); MACHINE_LIMIT];
        for machine in 0..MACHINE_LIMIT {
            if matches!(seating[machine], Seating::Stays) {
                stalls[machine].begun = self.has_begun(machine as u8);
            }
        }
        stalls
    }

    /// Of which player another network of this machine has told that a machine knows another mark, if both play with the same opening
    /// of it.
    fn dispute_beside(&self, machine: u8, other: &Peer) -> Option<u8>
        requires { machine < MACHINE_LIMIT }
        ensures { result ≡ dispute_beside self.now other.now machine }
    {
        let place = usize::from(machine);
        let (one, another) = (&self.contacts[place], &other.contacts[place]);
        if one.is_playing() && another.is_playing() && one.draw == another.draw {
            other.disputes[place]
        } else {
            None
        }
    }

    /// Of which machines it was told as the next epoch begins that they are gone.
    fn known_next(&self, seating: &[Seating; MACHINE_LIMIT]) -> [bool; MACHINE_LIMIT]
        ensures { result ≡ known_next self.now seating.now }
    {
        let mut known = [false; MACHINE_LIMIT];
        for machine in 0..MACHINE_LIMIT {
            known[machine] = seating[machine].is_out(self.known_gone[machine]);
        }
        known
    }
}

/// A machine is gone from the first.
fn leave(member: &mut Member, machine: u8)
    requires { leave_refusal member.old.mesh machine ≡ None }
    ensures mesh { member.new.mesh ≡ stepped (λ seat here. leave seat machine here)
        member.old.mesh }
    ensures limits { member.new.limits ≡ member.old.limits }
{
    match member.leave(machine) {
        Ok(()) => {}
        Err(_) => unreachable!(),
    }
}
