//! Who sits where in the next epoch.
ghost use Rattle.std.specs.Prelude.{◌≡◌, ◌<◌, ◌==◌};
ghost use Rattle.std.specs.List.{list_any};
ghost use Rattle.roll_mesh.specs.declared.limits.TheConstants.{MACHINE_LIMIT};
ghost use Rattle.roll_chain.specs.Seams.{owns, seating, seating_at, stay_where};

use roll_epoch::Terms;
use roll_mesh::{MACHINE_LIMIT, PLAYER_LIMIT};
use roll_peer::Seating;

/// Whether a machine owns a player.
pub(crate) fn owns(owners: &[u8; PLAYER_LIMIT], machine: u8) -> bool
    ensures { result ≡ owns owners.now machine }
{
    owners.iter().any(|owner| *owner == machine)
}

/// Who sits at a machine's place in the epoch after one that ended at a frame: whoever owns a player in both, if none of its players left
/// before the end, stays.
fn seating_at(
    old: &Terms,
    new: &Terms,
    end: u32,
    left: &[Option<u32>; PLAYER_LIMIT],
    machine: u8,
) -> Seating
    ensures { result ≡ seating_at old.now new.now end left.now machine }
{
    if !owns(&new.owners, machine) {
        Seating::Empty
    } else if owns(&old.owners, machine) && old.stays(machine, end, left) {
        Seating::Stays
    } else {
        Seating::Comes
    }
}

/// Who sits where.
pub(crate) fn seating(
    old: &Terms,
    new: &Terms,
    end: u32,
    left: &[Option<u32>; PLAYER_LIMIT],
) -> [Seating; MACHINE_LIMIT]
    ensures { result ≡ seating old.now new.now end left.now }
{
    let mut seating = [Seating::Empty; MACHINE_LIMIT];
    for machine in 0..MACHINE_LIMIT {
        seating[machine] = seating_at(old, new, end, left, machine as u8);
    }
    seating
}

/// At which places somebody stays.
pub(crate) fn stay_where(seating: &[Seating; MACHINE_LIMIT]) -> [bool; MACHINE_LIMIT]
    ensures { result ≡ stay_where seating.now }
{
    let mut stays = [false; MACHINE_LIMIT];
    for machine in 0..MACHINE_LIMIT {
        stays[machine] = seating[machine] == Seating::Stays;
    }
    stays
}
