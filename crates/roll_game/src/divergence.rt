//! Games that never diverge.
ghost use Rattle.roll_game.specs.Divergence.{NeverDiverges};

use crate::game::Game;

/// A game never diverges: the same rows never lead from one value to two different ones. It makes no call.
pub fn never_diverges<G: Game>()
    ensures { NeverDiverges G.ran }
{}
