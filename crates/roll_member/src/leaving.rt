//! The players of gone machines leave the session.
ghost use Rattle.std.specs.Prelude.{◌<◌};
ghost use Rattle.roll_member.specs.Leaving.{Disconnects, DisconnectsAll};
ghost use Rattle.roll_mesh.specs.declared.limits.TheConstants.{PLAYER_LIMIT};

use roll_frame::Refusal;
use roll_mesh::{Mesh, PLAYER_LIMIT};
use roll_session::Networked;

/// Who left the session.
#[derive(Clone, Copy, Debug)]
pub struct Left {
    /// Whether each player left now, player 1 first.
    pub players: [bool; PLAYER_LIMIT],
    /// Why one who is to leave is still there: `LogFull` or `NoMemory`. The last, if there are several.
    pub refusal: Option<Refusal>,
}

/// Whether a player left the session now, or why it couldn't.
#[derive(Clone, Copy)]
pub(crate) struct Parted {
    left: bool,
    refusal: Option<Refusal>,
}

/// Disconnects the player at a place if it has left the mesh.
fn disconnect<S: Networked>(session: &mut S, mesh: &Mesh, place: u8) -> Parted
    requires { place < PLAYER_LIMIT }
    ensures parted { Disconnects (S.seen session.old) mesh.now.machine place (S.seen session.new)
        result }
    ensures keeps { S.keeps session.old session.new }
{
    let nothing = Parted {
        left: false,
        refusal: None,
    };
    if mesh.left(place).is_none() {
        return nothing;
    }
    match session.disconnect_player(place + 1) {
        Ok(_) => Parted {
            left: true,
            refusal: None,
        },
        Err(Refusal::PlayerDisconnected) => nothing,
        Err(why) => Parted {
            left: false,
            refusal: Some(why),
        },
    }
}

/// Disconnects each player that has left the mesh.
pub(crate) fn disconnect_all<S: Networked>(session: &mut S, mesh: &Mesh) -> Left
    ensures left { DisconnectsAll (S.seen session.old) mesh.now.machine (S.seen session.new)
        result }
    ensures keeps { S.keeps session.old session.new }
{
    let mut players = [false; PLAYER_LIMIT];
    let mut refusal = None;
    for place in 0..PLAYER_LIMIT {
        let parted = disconnect(session, mesh, place as u8);
        players[place] = parted.left;
        refusal = parted.refusal.or(refusal);
    }
    Left { players, refusal }
}
