//! The second run of rows.
ghost use Rattle.std.specs.Prelude.{◌≡◌, ◌<◌, length, map, IfOk, OnErr, ℕ};
ghost use Rattle.roll_game.specs.Counts.{IsRefusedAt, rolled};
ghost use Rattle.roll_synctest.specs.Runs.{IsRerun, IsTrace, rerun_frames};

use roll_frame::Row;
use roll_game::{NoMemory, RawGame, advance_and_save};

/// How rows came out that were run again.
#[derive(Drop)]
pub enum Rerun<N> {
    /// Each result is that of the first run. The last one, as it was saved again.
    Agrees(N),
    /// The place of the first result that differs.
    Differs(usize),
}

/// Loads a saved state and runs rows again, up to the first result that differs from that of the first run.
pub fn run_again<R: RawGame>(
    game: &mut R,
    from: &R::Snapshot,
    rows: &[Row],
    results: &[R::Snapshot],
) -> Result<Rerun<R::Snapshot>, NoMemory>
    requires some { 0 < length rows.now }
    requires trace { IsTrace R.ran (R.snapshot_value from.now) rows.now
        (map R.snapshot_value results.now) }
    ensures rerun { IfOk result (IsRerun R.ran (R.snapshot_value from.now) rows.now
        (map R.snapshot_value results.now) R.snapshot_value) }
    ensures counts { IfOk result (λ rerun. R.call_counts game.new ≡ rolled
        (rerun_frames (length rows.now) rerun) (R.call_counts game.old)) }
    ensures refused { OnErr result ((made : ℕ) × (made < length rows.now) × IsRefusedAt made
        (R.call_counts game.old) (R.call_counts game.new)) }
{
    let Ok(loaded) = game.load(from) else {
        return Err(NoMemory);
    };
    let mut state = loaded;
    let mut last = None;
    for place in 0..rows.len() {
        let Ok(again) = advance_and_save(game, &mut state, &rows[place]) else {
            return Err(NoMemory);
        };
        if !game.same(&results[place], &again) {
            return Ok(Rerun::Differs(place));
        }
        last = Some(again);
    }
    Ok(Rerun::Agrees(last.unwrap()))
}
