//! What is known of a match that goes on in epochs.
ghost use Rattle.std.specs.Prelude.{◌≡◌, ◌<◌, false, true};
ghost use Rattle.std.specs.List.{list_all, list_any, range_with_len};
ghost use Rattle.roll_mesh.specs.declared.limits.TheConstants.{MACHINE_LIMIT, PLAYER_LIMIT};
ghost use Rattle.roll_chain.specs.Chains.{first_chain, has_given, has_stayed, is_past_over, is_seen, is_word_of, numbers_in, only_terms, settings_in, settings_of};

use roll_epoch::{Terms, hash_of, key_of};
use roll_frame::Profile;
use roll_mesh::{MACHINE_LIMIT, Mesh, PLAYER_LIMIT};
use roll_peer::{MatchSettings, Peer};

/// A match that goes on in epochs: parts of it whose machines, owners, delays and threshold stay the same. It stands beside the network
/// of this epoch, a [`Peer`], and the session beside both: give its calls always the same ones. A program opens it for the epoch in
/// which it begins, and the network with its `settings`. A match that takes no marks has one epoch, which never ends.
#[derive(Clone, Copy, Debug)]
pub struct Chain {
    pub(crate) base: MatchSettings,
    pub(crate) profile: Profile,
    pub(crate) terms: Terms,
    pub(crate) comers: u64,
    pub(crate) stays: [bool; MACHINE_LIMIT],
}

impl Chain {
    /// A match that begins here with an epoch of these terms. Of the settings each epoch has its own owners, machines and numbers; all
    /// else is the match's, and it takes marks. The profile is that of the sessions. By the number of comers, 64 bits that all machines of the match know, those
    /// are known who may come: see [`ticket_for`]. If it is 0, anybody may by whose mark a machine of the match has somebody come.
    pub fn new(base: MatchSettings, profile: Profile, terms: Terms, comers: u64) -> Chain
        ensures { result ≡ first_chain true base profile terms comers }
    {
        Chain {
            base: MatchSettings {
                takes_marks: true,
                ..base
            },
            profile,
            terms,
            comers,
            stays: [false; MACHINE_LIMIT],
        }
    }

    /// A match of these settings that takes no marks, whatever they say: so it stays in its first epoch.
    pub fn of_one_epoch(base: MatchSettings, profile: Profile) -> Chain
        ensures { result ≡ first_chain false base profile (only_terms base) 0 }
    {
        let owners = base.owners;
        let terms = Terms {
            id: 0,
            base: 0,
            owners,
            delays: [0; PLAYER_LIMIT],
            threshold: 0,
            words: base.words,
        };
        Chain {
            base: MatchSettings {
                takes_marks: false,
                ..base
            },
            profile,
            terms,
            comers: 0,
            stays: [false; MACHINE_LIMIT],
        }
    }

    /// How this epoch opened.
    pub fn terms(&self) -> &Terms
        ensures { result.now ≡ self.now.terms }
    {
        &self.terms
    }

    /// Whether the match goes on in epochs: it takes marks.
    pub fn lasts(&self) -> bool
        ensures { result ≡ self.now.base.takes_marks }
    {
        self.base.takes_marks
    }

    /// With which settings the network of this epoch opens. If the match goes on in epochs, their digest has the number of comers in it,
    /// and a player whom nobody owns is of a machine that is absent.
    pub fn settings(&self) -> MatchSettings
        ensures { result ≡ settings_of self.now }
    {
        if self.lasts() {
            self.settings_in(&self.terms)
        } else {
            self.base
        }
    }

    /// With which settings the network of an epoch opens.
    pub(crate) fn settings_in(&self, terms: &Terms) -> MatchSettings
        ensures { result ≡ settings_in self.now terms.now }
    {
        MatchSettings {
            machines: terms.machines(),
            owners: terms.owners_with_absent(),
            numbers: numbers_in(&self.base.numbers, terms.id),
            digest: hash_of(self.base.digest, self.comers),
            words: terms.words,
            takes_marks: true,
            ..self.base
        }
    }

    /// Whether a machine is in this epoch and was in the one before. Of the epoch with which the match was opened here nobody has.
    pub fn has_stayed(&self, machine: u8) -> bool
        ensures { result ≡ has_stayed self.now machine }
    {
        usize::from(machine) < MACHINE_LIMIT && self.stays[usize::from(machine)]
    }

    /// Whether the epoch before needn't be told on: each other machine that isn't gone has come to this one, since a word of one of its
    /// players is known.
    pub(crate) fn is_past_over(&self, peer: &Peer) -> bool
        ensures { result ≡ is_past_over peer.now }
    {
        for machine in 0..MACHINE_LIMIT as u8 {
            if !is_seen(peer, machine) {
                return false;
            }
        }
        true
    }
}

/// Whether there is no such other machine, it is gone, or it has come to this epoch.
fn is_seen(peer: &Peer, machine: u8) -> bool
    ensures { result ≡ is_seen peer.now machine }
{
    peer.is_lost(machine) || has_given(peer.mesh(), machine)
}

/// Whether a machine has given a word in this epoch, as far as is known.
fn has_given(mesh: &Mesh, machine: u8) -> bool
    ensures { result ≡ has_given mesh.now machine }
{
    for player in 0..PLAYER_LIMIT {
        if is_word_of(mesh, machine, player) {
            return true;
        }
    }
    false
}

/// Whether a player is a machine's, and a word of it is known.
fn is_word_of(mesh: &Mesh, machine: u8, player: usize) -> bool
    requires { player < PLAYER_LIMIT }
    ensures { result ≡ is_word_of mesh.now machine player }
{
    mesh.seat().owners[player] == machine && mesh.has()[player] > 0
}

/// The numbers of the pairs in an epoch, by which they seal.
fn numbers_in(base: &[u64; MACHINE_LIMIT], id: u64) -> [u64; MACHINE_LIMIT]
    ensures { result ≡ numbers_in base.now id }
{
    let mut numbers = [0; MACHINE_LIMIT];
    for machine in 0..MACHINE_LIMIT {
        numbers[machine] = key_of(base[machine], id);
    }
    numbers
}
