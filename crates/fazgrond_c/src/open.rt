//! What a handle may have open.
use crate::live::Live;
use crate::network::Network;
use roll_guess::PlayerHabits;
use roll_state::{Giver, Taker};
use roll_viewer::{Viewer, ViewerLine};

/// What a handle has open: a session, the network of a match, a host's end of a viewer's line, a viewer, a player's
/// habits, or who gives or takes a state.
#[derive(Drop)]
pub enum Open {
    Session(Live),
    Peer(Network),
    Line(ViewerLine),
    Viewer(Viewer),
    Habits(PlayerHabits),
    Giver(Giver),
    Taker(Taker),
}
