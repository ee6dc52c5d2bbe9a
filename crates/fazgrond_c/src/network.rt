//! The network of a match, the words that it holds back from the session beside it, and what it carries for others.
ghost use Rattle.std.specs.Prelude.{◌≡◌, ◌≤◌, take};
ghost use Rattle.fazgrond_c.specs.Epochs.{epoch_turned};
ghost use Rattle.fazgrond_c.specs.Waiting.{IsHeldFor};
ghost use Rattle.roll_relay.specs.declared.held.TheConstants.{TURN_LIMIT};

use roll_chain::Epochs;
use roll_peer::Peer;
use roll_relay::{Held, Relay, RemoteWord};
use roll_session::Core;

/// The network of a match at one machine.
#[derive(Drop)]
pub struct Network {
    pub peer: Peer,
    /// What is held back from the session.
    pub held: Held,
    /// What it carries for others, and has carried.
    pub relay: Relay,
    /// How the match goes on, if it does so in epochs.
    pub epochs: Option<Epochs<Core<u32>>>,
}

impl Network {
    /// One that holds words back for so many turns at most; for 0, none.
    pub fn new(peer: Peer, turns: u32, relay: Relay, epochs: Option<Epochs<Core<u32>>>) -> Network
        requires { turns ≤ TURN_LIMIT }
        ensures peer { result.peer ≡ peer }
        ensures held { IsHeldFor turns result.held }
        ensures relay { result.relay ≡ relay }
        ensures epochs { result.epochs ≡ epochs }
    {
        Network {
            peer,
            held: Held::new(turns as u8).unwrap(),
            relay,
            epochs,
        }
    }

    /// A turn begins for the epochs of the match.
    pub fn begin_epoch_turn(&mut self)
        ensures { self.new ≡ epoch_turned self.old }
    {
        if let Some(epochs) = &mut self.epochs {
            epochs.turn(&mut self.peer);
        }
    }

    /// The first so many of the words that wait, or all if there are fewer.
    pub fn first(&self, count: u32) -> &[RemoteWord]
        ensures { result.now ≡ take count self.now.held.words.items }
    {
        first_of(self.held.waiting(), count)
    }
}

/// The first so many of some words, or all if there are fewer.
pub fn first_of(words: &[RemoteWord], count: u32) -> &[RemoteWord]
    ensures { result.now ≡ take count words.now }
{
    let count = words.len().min(count as usize);
    &words[..count]
}
