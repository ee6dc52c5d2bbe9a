//! Ways from machine to machine, by what a map says of who hears whom straight.
ghost use Rattle.std.specs.Prelude.{◌≡◌, ◌<◌};
ghost use Rattle.roll_carry.specs.Ways.{hears, is_heard_by, is_heard_in, is_near, least_between, ways_to};
ghost use Rattle.roll_mesh.specs.Machines.{at_places, is_in};
ghost use Rattle.roll_mesh.specs.declared.limits.TheConstants.{MACHINE_LIMIT};

use crate::datagram::Hearing;
use crate::limits::BETWEEN_LIMIT;
use roll_mesh::MACHINE_LIMIT;

/// A set of machines: a place for each.
pub(crate) type Machines = [bool; MACHINE_LIMIT];

/// What is known of who hears whom: a place for each machine.
pub(crate) type Lines = [Hearing; MACHINE_LIMIT];

/// Whether a machine is in a set.
pub(crate) fn is_in(set: &Machines, machine: usize) -> bool
    ensures { result ≡ is_in set.now machine }
{
    machine < MACHINE_LIMIT && set[machine]
}

/// Whether a machine hears another straight.
pub(crate) fn hears(lines: &Lines, machine: usize, other: usize) -> bool
    ensures { result ≡ hears lines.now machine other }
{
    match lines.get(machine) {
        Some(hearing) => is_in(&hearing.hears, other),
        None => false,
    }
}

/// Of each number of machines between, from 0 on: those that aren't shut and have a way to a machine by so many at most.
pub(crate) type Ways = [Machines; BETWEEN_LIMIT];

/// The ways to a machine.
#[tactic(auto, using(crate::proofs::Found::ways_none, crate::proofs::Found::ways_next))]
pub(crate) fn ways_to(lines: &Lines, shut: &Machines, to: usize) -> Ways
    ensures { result ≡ ways_to lines.now shut.now to }
{
    let mut reached = heard_by(lines, shut, to);
    let mut ways = [[false; MACHINE_LIMIT]; BETWEEN_LIMIT];
    for between in 0..BETWEEN_LIMIT {
        ways[between] = reached;
        reached = widened(lines, shut, &reached);
    }
    ways
}

/// By how many others at least a way leads from a machine. None if none does.
pub(crate) fn least_between(ways: &Ways, machine: usize) -> Option<usize>
    ensures { result ≡ least_between ways.now machine }
{
    (0..BETWEEN_LIMIT).find(|between| is_in(&ways[*between], machine))
}

/// The machines that aren't shut and that a machine hears.
fn heard_by(lines: &Lines, shut: &Machines, to: usize) -> Machines
    ensures { result ≡ at_places (is_heard_by lines.now shut.now to) shut.now }
{
    let mut heard = *shut;
    for machine in 0..MACHINE_LIMIT {
        heard[machine] = is_heard_by(lines, shut, to, machine);
    }
    heard
}

/// Whether a machine isn't shut, and another hears it straight.
fn is_heard_by(lines: &Lines, shut: &Machines, to: usize, machine: usize) -> bool
    ensures { result ≡ is_heard_by lines.now shut.now to machine }
{
    !is_in(shut, machine) && hears(lines, to, machine)
}

/// A set, and the machines that aren't shut and that one of it hears.
fn widened(lines: &Lines, shut: &Machines, set: &Machines) -> Machines
    ensures { result ≡ at_places (is_near lines.now shut.now set.now) set.now }
{
    let mut wider = *set;
    for machine in 0..MACHINE_LIMIT {
        wider[machine] = is_near(lines, shut, set, machine);
    }
    wider
}

/// Whether a machine is of a set, or isn't shut and one of the set hears it.
fn is_near(lines: &Lines, shut: &Machines, set: &Machines, machine: usize) -> bool
    ensures { result ≡ is_near lines.now shut.now set.now machine }
{
    is_in(set, machine) || !is_in(shut, machine) && is_heard_in(lines, set, machine)
}

/// Whether a machine of a set hears another straight.
fn is_heard_in(lines: &Lines, set: &Machines, machine: usize) -> bool
    ensures { result ≡ is_heard_in lines.now set.now machine }
{
    for other in 0..MACHINE_LIMIT {
        if set[other] && hears(lines, other, machine) {
            return true;
        }
    }
    false
}
