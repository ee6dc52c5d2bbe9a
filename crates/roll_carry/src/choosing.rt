//! By whom a datagram is carried.
ghost use Rattle.std.specs.Prelude.{◌≡◌, ◌<◌, true, IfSome};
ghost use Rattle.roll_carry.specs.Carrying.{carrier_at, carrier_count, carrier_for, carriers, chosen, counted, given_of, in_turn, is_closed, open_ways, precedes, rank, steps_by, steps_of};
ghost use Rattle.roll_mesh.specs.Machines.{at_places};
ghost use Rattle.roll_mesh.specs.declared.limits.TheConstants.{MACHINE_LIMIT};

use crate::carrier::Carrier;
use crate::limits::PASS_OVER;
use crate::ways::{Machines, Ways, is_in, least_between, ways_to};
use roll_mesh::MACHINE_LIMIT;

/// In how many steps each machine hands a datagram on to the one that it is for; None if it doesn't.
type Carriers = [Option<usize>; MACHINE_LIMIT];

impl Carrier {
    /// Who this machine is.
    pub(crate) fn me(&self) -> usize
        ensures me { result ≡ self.now.map.me }
        ensures place { result < MACHINE_LIMIT }
    {
        usize::from(self.map.me)
    }

    /// Whether nothing goes by a machine.
    fn is_closed(&self, maker: usize, shut: &Machines, machine: usize) -> bool
        requires { machine < MACHINE_LIMIT }
        ensures { result ≡ is_closed self.now maker shut.now machine }
    {
        shut[machine]
            || machine == self.me()
            || machine == maker
            || machine >= usize::from(self.map.machines)
    }

    /// The machines by which nothing goes.
    fn closed(&self, maker: usize, shut: &Machines) -> Machines
        ensures { result ≡ at_places (is_closed self.now maker shut.now) shut.now }
    {
        let mut closed = *shut;
        for machine in 0..MACHINE_LIMIT {
            closed[machine] = self.is_closed(maker, shut, machine);
        }
        closed
    }

    /// The ways to a machine, by machines by which something goes.
    fn open_ways(&self, maker: usize, shut: &Machines, to: usize) -> Ways
        ensures { result ≡ open_ways self.now maker shut.now to }
    {
        ways_to(&self.map.lines, &self.closed(maker, shut), to)
    }

    /// In how many steps a machine hands on what one made for another. The receiver itself gets what a third one made.
    #[tactic(auto, unfolding(crate::specs::Carrying::steps_by))]
    fn steps_by(
        &self,
        maker: usize,
        shut: &Machines,
        ways: &Ways,
        to: usize,
        machine: usize,
    ) -> Option<usize>
        ensures { result ≡ steps_by self.now maker shut.now ways.now to machine }
    {
        if !self.map.shows(machine, self.me()) {
            None
        } else if machine != to {
            let between = least_between(ways, machine)?;
            Some(between + 1)
        } else if maker == self.me() || is_in(shut, to) {
            None
        } else {
            Some(0)
        }
    }

    /// The carriers of what one machine made for another.
    #[tactic(auto, unfolding(crate::specs::Carrying::carriers))]
    fn carriers(&self, maker: usize, shut: &Machines, to: usize) -> Carriers
        ensures { result ≡ carriers self.now maker shut.now to }
    {
        let ways = self.open_ways(maker, shut, to);
        let mut carriers = [None; MACHINE_LIMIT];
        for machine in 0..MACHINE_LIMIT {
            carriers[machine] = self.steps_by(maker, shut, &ways, to, machine);
        }
        carriers
    }

    /// How many datagrams that one machine made for another were given to carriers.
    fn given_of(&self, maker: usize, to: usize) -> u32
        ensures { result ≡ given_of self.now maker to }
    {
        match self.given.get(to) {
            Some(row) => match row.get(maker) {
                Some(given) => *given,
                None => 0,
            },
            None => 0,
        }
    }

    /// One more was given.
    pub(crate) fn count(&mut self, maker: usize, to: usize)
        requires { maker < MACHINE_LIMIT }
        ensures { self.new ≡ counted self.old maker to }
    {
        if to < MACHINE_LIMIT {
            self.given[to][maker] = self.given[to][maker].wrapping_add(1);
        }
    }

    /// Who gets next what one machine made for another.
    pub(crate) fn carrier_for(&self, maker: usize, shut: &Machines, to: usize) -> Option<usize>
        ensures next { result ≡ carrier_for self.now maker shut.now to }
    {
        chosen(&self.carriers(maker, shut, to), self.given_of(maker, to))
    }
}

/// The steps of a carrier; None for any other machine.
fn steps_of(carriers: &Carriers, machine: usize) -> Option<usize>
    ensures { result ≡ steps_of carriers.now machine }
{
    match carriers.get(machine) {
        Some(steps) => *steps,
        None => None,
    }
}

/// Whether one carrier comes before another: it has fewer steps, or as many and the lower number.
fn precedes(one: Option<usize>, other: Option<usize>, is_lower: bool) -> bool
    ensures { result ≡ precedes one other is_lower }
{
    match (one, other) {
        (Some(steps), Some(others)) => steps < others || steps == others && is_lower,
        (Some(_), None) => true,
        (None, _) => false,
    }
}

/// How many carriers come before a machine.
fn rank(carriers: &Carriers, machine: usize) -> usize
    ensures { result ≡ rank carriers.now machine }
{
    let steps = steps_of(carriers, machine);
    (0..MACHINE_LIMIT)
        .filter(|other| precedes(steps_of(carriers, *other), steps, *other < machine))
        .count()
}

/// How many carriers there are.
fn carrier_count(carriers: &Carriers) -> usize
    ensures { result ≡ carrier_count carriers.now }
{
    (0..MACHINE_LIMIT)
        .filter(|machine| steps_of(carriers, *machine).is_some())
        .count()
}

/// The carrier before which so many come.
fn carrier_at(carriers: &Carriers, place: usize) -> Option<usize>
    ensures { result ≡ carrier_at carriers.now place }
{
    (0..MACHINE_LIMIT).find(|machine| {
        steps_of(carriers, *machine).is_some() && rank(carriers, *machine) == place
    })
}

/// Which of so many carriers gets the next datagram, after so many.
fn in_turn(given: u32, count: usize) -> usize
    requires { 0 < count }
    ensures { result ≡ in_turn given count }
{
    let given = given as usize;
    (given + given / PASS_OVER) % count
}

/// The carrier that gets the next datagram, after so many.
fn chosen(carriers: &Carriers, given: u32) -> Option<usize>
    ensures { result ≡ chosen carriers.now given }
{
    let count = carrier_count(carriers);
    if count == 0 {
        None
    } else {
        carrier_at(carriers, in_turn(given, count))
    }
}
