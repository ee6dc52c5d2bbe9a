//! By what is sealed that machines carry for one another.
ghost use Rattle.std.specs.Prelude.{◌≡◌, ◌<◌, ◌≤◌};
ghost use Rattle.roll_mesh.specs.declared.limits.TheConstants.{MACHINE_LIMIT};
ghost use Rattle.roll_peer.specs.Sending.{can_carry, carried_key, carrier_key};

use crate::peer::Peer;
use crate::settings::MatchSettings;
use roll_contact::Key;
use roll_contact::seal::Sealer;
use roll_mesh::MACHINE_LIMIT;
use std::array;

/// For each machine one that keeps the states of a key, at first of one by which nothing is sealed.
pub(crate) fn sealers() -> [Sealer; MACHINE_LIMIT] {
    array::from_fn(|_| Sealer::new(Key::of_hellos(0)))
}

impl Peer {
    /// What the match was opened with.
    pub fn settings(&self) -> &MatchSettings
        ensures settings { result.now ≡ self.now.settings }
        ensures machines { result.now.machines ≤ MACHINE_LIMIT }
        ensures me { result.now.me < result.now.machines }
    {
        &self.settings
    }

    /// The moment that its own clock shows, in milliseconds since a moment of its own choice. It begins anew after 2^32.
    pub fn moment(&self) -> u32
        ensures { result ≡ self.now.clock.moment }
    {
        self.clock.moment
    }

    /// Whether a machine and this one hand on datagrams for each other: it plays with this one, isn't gone, and both say that they carry.
    #[tactic(auto, unfolding(crate::specs::Sending::can_carry))]
    pub fn can_carry(&self, machine: u8) -> bool
        ensures { result ≡ can_carry self.now machine }
    {
        let place = usize::from(machine);
        !self.is_lost(machine)
            && place < self.contacts.len()
            && self.contacts[place].is_playing()
            && self.contacts[place].carries
    }

    /// By what this machine seals a map, or what it hands on, for another. None unless they hand on datagrams for each other.
    #[tactic(auto, unfolding(crate::specs::Sending::can_carry))]
    pub fn carrier_key(&self, machine: u8) -> Option<Key>
        ensures { result ≡ carrier_key self.now machine }
    {
        if !self.can_carry(machine) {
            return None;
        }
        let place = usize::from(machine);
        Some(Key {
            number: self.settings.numbers[place],
            from: self.settings.draw,
            to: self.contacts[place].draw,
        })
    }

    /// By what such a datagram of another is sealed for this one. None unless they hand on datagrams for each other.
    #[tactic(auto, unfolding(crate::specs::Sending::can_carry))]
    pub fn carried_key(&self, machine: u8) -> Option<Key>
        ensures { result ≡ carried_key self.now machine }
    {
        if !self.can_carry(machine) {
            return None;
        }
        let place = usize::from(machine);
        Some(Key {
            number: self.settings.numbers[place],
            from: self.contacts[place].draw,
            to: self.settings.draw,
        })
    }
}
