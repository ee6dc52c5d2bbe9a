//! What a machine carries for others, and has carried by others.
ghost use Rattle.std.specs.Prelude.{◌≡◌, ◌<◌, ◌≤◌, [], replicate, true, IfOk, IfSome};
ghost use Rattle.roll_mesh.specs.Machines.{is_in};
ghost use Rattle.roll_carry.specs.Carrying.{after_told, all_owed, first_owed, is_owed, lane_count, opened_carrying, turned};
ghost use Rattle.roll_carry.specs.Mapping.{after_map, heard_straight};
ghost use Rattle.roll_mesh.specs.declared.limits.TheConstants.{MACHINE_LIMIT};

use crate::datagram::Hearing;
use crate::limits::TELL_EVERY;
use crate::map::LineMap;
use crate::outbox::Lane;
use crate::ways::Machines;
use roll_mesh::MACHINE_LIMIT;
use std::alloc::{AllocError, Global};
use std::marker::Model;

/// What a machine carries for others, and has carried by others. It knows neither sessions nor keys: whoever has it says which
/// machines are shut, since they are gone or don't play yet, and seals what goes out.
///
/// It takes memory when it is made, for a match of three machines or more, and none after that. At most four datagrams
/// wait for one machine: a parcel for which these have no room, or whose maker would have more than its share waiting,
/// is dropped. No clause says that what is carried arrives: it may be dropped at each machine, as on a line. That it
/// arrives where lines break is tested (`tests/c/carrying.c`, `tests/c/trials/lines.c`).
#[derive(Debug, Drop)]
pub struct Carrier {
    pub(crate) map: LineMap,
    pub(crate) turns: u32,
    pub(crate) owed: [bool; MACHINE_LIMIT],
    pub(crate) given: [[u32; MACHINE_LIMIT]; MACHINE_LIMIT],
    pub(crate) lanes: Vec<Lane>,
}

/// A clause sees all of it.
impl Model for Carrier {
    ghost use Rattle.std.specs.Prelude.{◌≡◌, ◌<◌, ◌≤◌, length};
    ghost use Rattle.roll_carry.specs.Carrying.{lane_count, Carrying};
    ghost use Rattle.roll_mesh.specs.declared.limits.TheConstants.{MACHINE_LIMIT};

    ghost Value = { Carrying };

    ghost view = { λ c. record {
      map = c.map;
      turns = c.turns;
      owed = c.owed;
      given = c.given;
      lanes = c.lanes.items;
    } };

    ghost invariant = { λ c. (c.map.me < MACHINE_LIMIT) × (c.map.machines ≤ MACHINE_LIMIT)
        × (length c.lanes.items ≡ lane_count c.map.machines) };
}

impl Carrier {
    /// Nothing is known but who this machine is: nobody is known to hear anybody.
    ///
    /// # Errors
    ///
    /// If there is no memory.
    pub fn new(alloc: Global, me: u8, machines: u8) -> Result<Carrier, AllocError>
        requires me { me < MACHINE_LIMIT }
        requires machines { machines ≤ MACHINE_LIMIT }
        ensures { IfOk result (λ carrier. carrier ≡ opened_carrying me machines) }
    {
        let lanes = lanes_for(alloc, machines)?;
        Ok(Carrier {
            map: LineMap::new(me, machines),
            turns: 0,
            owed: [false; MACHINE_LIMIT],
            given: [[0; MACHINE_LIMIT]; MACHINE_LIMIT],
            lanes,
        })
    }

    /// What is known of who hears whom.
    pub fn map(&self) -> &LineMap
        ensures map { result.now ≡ self.now.map }
        ensures machines { result.now.machines ≤ MACHINE_LIMIT }
    {
        &self.map
    }

    /// Something came straight of a machine.
    pub fn heard_straight(&mut self, machine: u8, now: u32)
        ensures { self.new ≡ record self.old { map = heard_straight machine now self.old.map } }
    {
        self.map.heard_straight(machine, now);
    }

    /// A machine told whom each hears, machine 0 first.
    pub fn take_map(&mut self, told: &[Hearing])
        ensures { self.new ≡ record self.old { map = after_map told.now self.old.map } }
    {
        self.map.take(told);
    }

    /// Whether the map goes to a machine in this turn.
    fn is_owed(&self, machine: usize) -> bool
        ensures { result ≡ is_owed self.now.map self.now.turns machine }
    {
        self.map.machines > 2
            && machine < usize::from(self.map.machines)
            && machine != usize::from(self.map.me)
            && (self.map.telling > 0
                || (self.turns as usize + usize::from(self.map.me)) % TELL_EVERY == 0)
    }

    /// To which machines the map goes in this turn.
    fn all_owed(&self) -> Machines
        ensures { result ≡ all_owed self.now.map self.now.turns }
    {
        let mut owed = [false; MACHINE_LIMIT];
        for machine in 0..MACHINE_LIMIT {
            owed[machine] = self.is_owed(machine);
        }
        owed
    }

    /// The first machine of these to which the map is still to go in this turn.
    fn first_owed(&self, ready: &Machines) -> Option<usize>
        ensures first { result ≡ first_owed self.now ready.now }
        ensures place { IfSome result (λ machine. machine < MACHINE_LIMIT) }
        ensures ready { IfSome result (λ machine. is_in ready.now machine ≡ true) }
    {
        for machine in 0..MACHINE_LIMIT {
            if ready[machine] && self.owed[machine] {
                return Some(machine);
            }
        }
        None
    }

    /// To which of these machines the map is to be told next in this turn. None if to none of them.
    pub fn next_to_tell(&mut self, ready: &[bool; MACHINE_LIMIT]) -> Option<u8>
        ensures to { result ≡ first_owed self.old ready.now }
        ensures told { self.new ≡ after_told self.old (first_owed self.old ready.now) }
        ensures place { IfSome result (λ machine. machine < MACHINE_LIMIT) }
        ensures ready { IfSome result (λ machine. is_in ready.now machine ≡ true) }
    {
        let machine = self.first_owed(ready)?;
        self.owed[machine] = false;
        Some(machine as u8)
    }

    /// A turn begins, at a moment.
    pub fn turn(&mut self, now: u32)
        ensures { self.new ≡ turned now self.old }
    {
        self.map.look(now);
        self.turns = self.turns.wrapping_add(1);
        self.owed = self.all_owed();
    }
}

/// A lane for each machine, if others than the two ends are there.
fn lanes_for(alloc: Global, machines: u8) -> Result<Vec<Lane>, AllocError>
    ensures { IfOk result (λ lanes. lanes.items ≡ replicate (lane_count machines) []) }
{
    let count = if machines > 2 { MACHINE_LIMIT } else { 0 };
    let mut lanes = Vec::with_capacity(alloc, count)?;
    for _ in 0..count {
        lanes.push(Lane::new())?;
    }
    Ok(lanes)
}
