//! How the machines of an epoch sit in a match.
ghost use Rattle.std.specs.Prelude.{◌≡◌, ℕ, ◌<◌, ◌≤◌, IfSome};
ghost use Rattle.roll_mesh.specs.declared.limits.TheConstants.{MACHINE_LIMIT, PLAYER_LIMIT};
ghost use Rattle.roll_epoch.specs.Ends.{owner_of};
ghost use Rattle.roll_epoch.specs.Seats.{absent, behind, machines_to, owner_or_absent, owners_with_absent};
ghost use Rattle.roll_epoch.specs.Successions.{stays};
ghost use Rattle.roll_epoch.specs.declared.limits.TheConstants.{FREE};

use crate::limits::FREE;
use crate::owners::{Owners, free_seat, stays};
use crate::terms::Terms;
use roll_mesh::{MACHINE_LIMIT, PLAYER_LIMIT};

/// Who owns a player where the free ones are the absent machine's.
fn owner_or_absent(absent: Option<u8>, owner: u8) -> u8
    ensures { result ≡ owner_or_absent absent owner }
{
    if owner == FREE {
        absent.unwrap_or(FREE)
    } else {
        owner
    }
}

/// One more than a machine's number; of a number that no machine has 0.
fn behind(owner: u8) -> u8
    ensures behind { result ≡ behind owner }
    ensures most { result ≤ MACHINE_LIMIT }
{
    if usize::from(owner) < MACHINE_LIMIT {
        owner + 1
    } else {
        0
    }
}

/// One more than the greatest number of a machine that owns a player, and 2 at least.
fn count(owners: &Owners) -> u8
    ensures count { result ≡ machines_to owners.now PLAYER_LIMIT }
    ensures most { result ≤ MACHINE_LIMIT }
{
    let mut machines = 2u8;
    for player in 0..PLAYER_LIMIT {
        machines = machines.max(behind(owners[player]));
    }
    machines
}

impl Terms {
    /// Whether no player of a machine left before an end, if players left at these numbers of words: if so, it stays in the match.
    pub fn stays(&self, machine: u8, end: u32, left: &[Option<u32>; PLAYER_LIMIT]) -> bool
        ensures { result ≡ stays self.now.owners left.now end machine }
    {
        stays(&self.owners, left, end, machine)
    }

    /// The lowest number, 0 to 7, of a machine that owns no player: nobody sits there. None only if 8 machines own players, and then no
    /// player is free.
    pub fn absent(&self) -> Option<u8>
        ensures lowest { result ≡ absent self.now.owners }
        ensures inside { IfSome result (λ m. m < MACHINE_LIMIT) }
    {
        free_seat(&self.owners)
    }

    /// The machine that owns each player in a match that has one for each: the absent machine has those that are free.
    pub fn owners_with_absent(&self) -> [u8; PLAYER_LIMIT]
        ensures owners { result ≡ owners_with_absent self.now.owners }
        ensures somebodys { (p : ℕ) → p < PLAYER_LIMIT → owner_of result p ≡ FREE → ⊥ }
    {
        let absent = self.absent();
        let mut owners = self.owners;
        for player in 0..PLAYER_LIMIT {
            owners[player] = owner_or_absent(absent, self.owners[player]);
        }
        owners
    }

    /// How many machines such a match has, 2 to 8: all that own players then have lower numbers.
    pub fn machines(&self) -> u8
        ensures count { result ≡ machines_to (owners_with_absent self.now.owners) PLAYER_LIMIT }
        ensures least { 2 ≤ result }
        ensures most { result ≤ MACHINE_LIMIT }
        ensures all { (p : ℕ) → p < PLAYER_LIMIT
            → owner_of (owners_with_absent self.now.owners) p < MACHINE_LIMIT
            → owner_of (owners_with_absent self.now.owners) p < result }
    {
        count(&self.owners_with_absent())
    }
}
