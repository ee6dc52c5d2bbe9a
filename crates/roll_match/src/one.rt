//! A match at one machine.
use crate::lasting::Lasting;
use roll_chain::Epochs;
use roll_peer::Peer;
use roll_relay::{Held, Relay};

/// A match of 2 to 8 machines, as one of them plays it over a network. It has no game, no socket and no thread: it makes datagrams, and
/// takes those that come. The session stands beside it, and each call that needs the session is lent it: lend always the same one.
///
/// A turn of the main loop, some 60 times a second:
///
/// - `receive` for each datagram that came;
/// - `turn`, and at the end of an epoch what it leaves to the program;
/// - if `is_running`: give the session an input of each player of this machine, and advance it; `note` the digest of its settled state;
/// - `next` until it answers None: send each datagram to the machine that it names;
/// - `event` until it answers None.
///
/// The loop is the same for two machines and for eight, and whether lines break, inputs are held back, players come and go, or not: what
/// the settings don't ask for is there and does nothing.
#[derive(Drop)]
pub struct Match<S: Lasting> {
    pub(crate) peer: Peer,
    pub(crate) held: Held,
    pub(crate) relay: Relay,
    pub(crate) epochs: Epochs<S::Past>,
    /// What the session of the next epoch needs.
    pub(crate) engine: Option<S::Engine>,
    /// Why this machine leaves, once it does.
    pub(crate) leaving: Option<u8>,
    /// The moment of this turn.
    pub(crate) moment: u32,
    /// At how many places, of each machine in this epoch and in the one before, all went out in this turn that goes straight.
    pub(crate) gone_out: u8,
}
