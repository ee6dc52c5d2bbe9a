//! Whether this machine runs ahead of the others.
ghost use Rattle.std.specs.Prelude.{◌≡◌, ◌<◌, IfOk, IfErr, Some, slice_index_or};
ghost use Rattle.roll_mesh.specs.declared.limits.TheConstants.{MACHINE_LIMIT as MACHINES};
ghost use Rattle.roll_peer.specs.Paces.{lead_of, no_pace, paced, slower, slowest, wait_of};

use roll_contact::Contact;
use roll_frame::{Advice, Refusal};
use roll_mesh::{MACHINE_LIMIT, Mesh};
use std::alloc::Global;

/// In how many turns one asks once for advice: the advice is the same until more is noted.
const ASK_EVERY: u32 = 40;

/// Notes how far the machines are from one another, and says now and then how long to wait.
#[derive(Debug, Drop)]
pub(crate) struct Pace {
    advice: Advice,
    turns: u32,
}

impl Pace {
    /// Nothing is noted.
    pub(crate) fn new(alloc: Global) -> Result<Pace, Refusal>
        ensures { IfOk result (λ pace. pace ≡ no_pace) }
    {
        Ok(Pace {
            advice: Advice::new(alloc)?,
            turns: 0,
        })
    }

    /// Notes a turn, and says how many frames to wait, if it is time to ask and this machine is ahead.
    pub(crate) fn turn(&mut self, contacts: &[Contact; MACHINE_LIMIT], mesh: &Mesh) -> Option<u32>
        ensures paced { self.new ≡ paced (slowest mesh.now.machine.gone contacts.now MACHINES)
            self.old }
        ensures wait { result ≡ wait_of (slowest mesh.now.machine.gone contacts.now MACHINES)
            self.old }
    {
        match slowest(contacts, mesh) {
            Some((own, other)) => self.note(own, other),
            None => None,
        }
    }

    /// Notes a turn in which the machine that this one is furthest ahead of is this far behind.
    fn note(&mut self, own: i32, other: i32) -> Option<u32>
        ensures paced { self.new ≡ paced (Some (own, other)) self.old }
        ensures wait { result ≡ wait_of (Some (own, other)) self.old }
    {
        self.advice.note(own, other);
        self.turns = self.turns.saturating_add(1);
        if self.turns < ASK_EVERY {
            return None;
        }
        self.turns = 0;
        match self.advice.frames_ahead() {
            0 => None,
            frames => Some(frames),
        }
    }
}

/// By how many frames this machine is behind another, and the other behind this one, as it says. None if it is gone, or hasn't told
/// its clocks.
fn lead_of(contacts: &[Contact; MACHINE_LIMIT], mesh: &Mesh, machine: u8) -> Option<(i32, i32)>
    requires { machine < MACHINES }
    ensures { result ≡ lead_of mesh.now.machine.gone contacts.now machine }
{
    let contact = &contacts[usize::from(machine)];
    if mesh.is_gone(machine) || !contact.is_playing() || contact.their_clocks.is_none() {
        None
    } else {
        Some((contact.behind, contact.their_behind))
    }
}

/// Of two, the one that this machine is further ahead of; the first if they are alike.
fn slower(one: Option<(i32, i32)>, other: Option<(i32, i32)>) -> Option<(i32, i32)>
    ensures { result ≡ slower one other }
{
    match (one, other) {
        (None, other) => other,
        (Some(one), None) => Some(one),
        (Some(one), Some(other)) if other.0 < one.0 => Some(other),
        (Some(one), Some(_)) => Some(one),
    }
}

/// The machine that this one is furthest ahead of.
#[tactic(auto, using(crate::proofs::Untils::slowest_none, crate::proofs::Untils::slowest_next))]
fn slowest(contacts: &[Contact; MACHINE_LIMIT], mesh: &Mesh) -> Option<(i32, i32)>
    ensures { result ≡ slowest mesh.now.machine.gone contacts.now MACHINES }
{
    let mut most = None;
    for machine in 0..MACHINE_LIMIT as u8 {
        most = slower(most, lead_of(contacts, mesh, machine));
    }
    most
}
