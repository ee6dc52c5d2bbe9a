//! What two ends have to have alike.
ghost use Rattle.std.specs.Prelude.{◌≡◌, IfNone};
ghost use Rattle.roll_contact.specs.Terms.{abilities_of, are_said, hello_of, mismatch_of, says_lasting};

use crate::contact::Opening;
use roll_mesh::PLAYER_LIMIT;
use roll_wire::Hello;

/// What an end can that hands on datagrams of others: the lowest bit of a hello's abilities.
pub(crate) const CARRIES: u8 = 1;
/// What an end says whose match goes on in epochs: the next bit.
pub(crate) const LASTS: u8 = 2;

/// What two ends compare before they believe each other: the same at all machines of a match, and at both ends of a viewer's line.
#[derive(Clone, Copy, Debug)]
pub struct Terms {
    /// How many machines there are, 2 to 8.
    pub machines: u8,
    /// The machine that owns each player, player 1 first; 255 if there is no such player.
    pub owners: [u8; PLAYER_LIMIT],
    /// A digest of all else that must be alike, but for the opening state: the game, the session's limits.
    pub digest: u64,
    /// A digest of the game's opening state.
    pub opening: u64,
    /// How many words an input has, 1 to 4; 1 at both ends of a viewer's line.
    pub words: u8,
    /// Whether the match goes on in epochs, so that its machines take marks; false at both ends of a viewer's line.
    pub lasts: bool,
}

/// What two ends have otherwise.
#[derive(Clone, Copy, Debug, PartialEq, Eq)]
pub enum Field {
    /// How many machines there are.
    Machines,
    /// Which machine owns which player.
    Owners,
    /// How many words an input has.
    Words,
    /// Whether the match goes on in epochs.
    Lasting,
    /// The digest of all else that must be alike, but for the opening state.
    Settings,
    /// The digest of the game's opening state.
    Opening,
}

impl Terms {
    /// What an end says of itself, to one of whom it heard this draw last; 0 if none.
    pub fn hello(&self, opening: &Opening, echo: u64) -> Hello
        ensures { result ≡ hello_of self.now opening.now echo }
    {
        Hello {
            machines: self.machines,
            words: self.words,
            owners: self.owners,
            settings: self.digest,
            opening: self.opening,
            draw: opening.draw,
            echo,
            patience: opening.silent_after,
            abilities: abilities(opening.carries, self.lasts),
        }
    }

    /// The first field that a hello has otherwise. If there is none, it says the same terms.
    pub fn mismatch(&self, hello: &Hello) -> Option<Field>
        ensures first { result ≡ mismatch_of self.now hello.now }
        ensures alike { IfNone result (are_said self.now hello.now) }
    {
        if hello.machines != self.machines {
            Some(Field::Machines)
        } else if hello.owners != self.owners {
            Some(Field::Owners)
        } else if hello.words != self.words {
            Some(Field::Words)
        } else if says_lasting(hello) != self.lasts {
            Some(Field::Lasting)
        } else if hello.settings != self.digest {
            Some(Field::Settings)
        } else if hello.opening != self.opening {
            Some(Field::Opening)
        } else {
            None
        }
    }
}

/// The bits of what an end can, and of how its match is.
fn abilities(carries: bool, lasts: bool) -> u8
    ensures { result ≡ abilities_of carries lasts }
{
    (if carries { CARRIES } else { 0 }) + (if lasts { LASTS } else { 0 })
}

/// Whether a hello is of a match that goes on in epochs. Other bits mean nothing here.
fn says_lasting(hello: &Hello) -> bool
    ensures { result ≡ says_lasting hello.now }
{
    hello.abilities / LASTS % 2 == 1
}
