//! What a peer tells its program.
ghost use Rattle.std.specs.Prelude.{◌≡◌};
ghost use Rattle.roll_mesh.specs.declared.limits.TheConstants.{PLAYER_LIMIT as PLAYERS};
ghost use Rattle.roll_peer.specs.Notices.{after_heard, came, found_out, newly, place_of, player_left, refusing, restarting, resumed, told, told_of};

use crate::event::{Events, PeerEvent};
use roll_contact::{Contact, Field, Stage};
use roll_member::Left;
use roll_mesh::PLAYER_LIMIT;

impl Events {
    /// Tells an event, if there is one.
    pub(crate) fn tell(&mut self, event: Option<PeerEvent>)
        ensures { self.new ≡ told self.old event }
    {
        if let Some(event) = event {
            self.push(event);
        }
    }

    /// A machine was heard, which led from a contact to another.
    #[tactic(auto, unfolding(crate::specs::Notices::after_heard))]
    pub(crate) fn heard(&mut self, machine: u8, before: &Contact, after: &Contact)
        ensures { self.new ≡ after_heard machine before.now after.now self.old }
    {
        self.tell(resumed(machine, before, after));
        self.tell(came(machine, before.stage, after.stage));
        self.tell(found_out(machine, before.differs, after.differs));
        self.tell(restarting(machine, before, after));
        self.tell(refusing(machine, before, after));
    }

    /// Players left the session.
    #[tactic(auto, using(crate::proofs::Untils::told_none, crate::proofs::Untils::told_next))]
    pub(crate) fn left(&mut self, left: &Left)
        ensures { self.new ≡ told_of (player_left left.now.players) PLAYERS self.old }
    {
        for place in 0..PLAYER_LIMIT {
            if left.players[place] {
                let player = place as u8 + 1;
                self.push(PeerEvent::DisconnectedFromPeer { player });
            }
        }
    }
}

/// A machine that was silent is heard again.
fn resumed(machine: u8, before: &Contact, after: &Contact) -> Option<PeerEvent>
    ensures { result ≡ resumed machine before.now after.now }
{
    if before.interrupted && !after.interrupted {
        Some(PeerEvent::Resumed { machine })
    } else {
        None
    }
}

/// What is told of a machine that came from one stage to another, or stays.
fn came(machine: u8, before: Stage, after: Stage) -> Option<PeerEvent>
    ensures { result ≡ came machine before after }
{
    match (before, after) {
        (Stage::Playing, _) => None,
        (_, Stage::Playing) => Some(PeerEvent::Synchronized { machine }),
        (Stage::Silent, Stage::Greeted) => Some(PeerEvent::Synchronizing {
            machine,
            count: 1,
            total: 2,
        }),
        _ => None,
    }
}

/// The place of a field among all.
fn place_of(field: Field) -> u8
    ensures { result ≡ place_of field }
{
    match field {
        Field::Machines => 0,
        Field::Owners => 1,
        Field::Settings => 2,
        Field::Words => 3,
        Field::Lasting => 4,
        Field::Opening => 5,
    }
}

/// A field by which a machine is found to mean another match, unless it was so before.
fn newly(before: Option<Field>, after: Option<Field>) -> Option<Field>
    ensures { result ≡ newly before after }
{
    match (before, after) {
        (Some(old), Some(new)) if place_of(old) == place_of(new) => None,
        (_, new) => new,
    }
}

/// What is told of a machine that is found to mean another match.
fn found_out(machine: u8, before: Option<Field>, after: Option<Field>) -> Option<PeerEvent>
    ensures { result ≡ found_out machine before after }
{
    match newly(before, after) {
        Some(field) => Some(PeerEvent::Mismatch { machine, field }),
        None => None,
    }
}

/// What is told of a machine that was opened anew, for the first time.
fn restarting(machine: u8, before: &Contact, after: &Contact) -> Option<PeerEvent>
    ensures { result ≡ restarting machine before.now after.now }
{
    if before.restarted == 0 && after.restarted > 0 {
        Some(PeerEvent::Restarted { machine })
    } else {
        None
    }
}

/// What is told of a machine the first of whose packets is refused.
fn refusing(machine: u8, before: &Contact, after: &Contact) -> Option<PeerEvent>
    ensures { result ≡ refusing machine before.now after.now }
{
    if before.refused == 0 && after.refused > 0 {
        Some(PeerEvent::Refused { machine })
    } else {
        None
    }
}
