//! Calls of a game that go together.
ghost use Rattle.std.specs.Prelude.{◌≡◌, ◌⊎◌, IfOk, OnErr, OnOk, true, false};
ghost use Rattle.roll_game.specs.Counts.{counted};
ghost use Rattle.roll_game.specs.declared.counts.Call.TheVariants.{Advance, Save};

use crate::game::{NoMemory, RawGame};
use roll_frame::Row;

/// Advances by a row, and saves the state that this led to. What a refused call leaves in the state is open.
pub fn advance_and_save<R: RawGame>(
    game: &mut R,
    state: &mut R::State,
    row: &Row,
) -> Result<R::Snapshot, NoMemory>
    ensures ran { OnOk result (R.ran (R.state_value state.old) row.now (R.state_value state.new)) }
    ensures snapshot { IfOk result (λ snapshot. R.snapshot_value snapshot ≡ R.state_value
        state.new) }
    ensures counts { OnOk result (R.call_counts game.new ≡ counted Save true
        (counted Advance true (R.call_counts game.old))) }
    ensures refused { OnErr result
        ((R.call_counts game.new ≡ counted Advance false (R.call_counts game.old))
        ⊎ (R.call_counts game.new ≡ counted Save false
        (counted Advance true (R.call_counts game.old)))) }
{
    game.advance(state, row)?;
    game.save(state)
}
