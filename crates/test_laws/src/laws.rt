//! What whoever holds a session or a sync test knows of it by the laws, without its fields.
ghost use Rattle.std.specs.Prelude.{◌≡◌, ◌≢◌, ◌≤◌, ◌+◌, ℕ, Some, OnOk, length, option_copied, vec_capacity, vec_len};
ghost use Rattle.roll_frame.specs.Core.{kept, settled};
ghost use Rattle.roll_frame.specs.declared.row.Cell.{Cell};
ghost use Rattle.roll_laws.specs.Laws.{known_cell, most_kept};

use roll_frame::{Refusal, Reply, Row};
use roll_game::{Game, NoMemory, never_diverges};
use roll_session::{Request, Session};
use roll_synctest::{SyncTest, Verdict};
use std::collections::VecDeque;

/// A session keeps few states, whatever was asked of it.
pub fn keeps_few<G: Game>(session: &Session<G>)
    ensures { length (kept session.now.core) ≤ most_kept session.now.settings.profile }
{
    session.laws();
}

/// Does what a queue asks for. The settled frame doesn't fall, and each cell that is known stays as it is.
pub fn goes_on<G: Game>(
    session: &mut Session<G>,
    requests: &mut VecDeque<Request<G>>,
    replies: &mut Vec<Reply>,
) -> Result<(), NoMemory>
    requires { vec_len replies.old + length requests.old.items ≤ vec_capacity replies.old }
    ensures settled { OnOk result (settled session.old.core ≤ settled session.new.core) }
    ensures known { OnOk result ((place t : ℕ) (cell : Cell) → known_cell session.old.core.players
        place t ≡ Some cell → known_cell session.new.core.players place t ≡ Some cell) }
{
    session.laws();
    session.run(requests, replies)?;
    Ok(())
}

/// Steps a sync test. A game never comes out different.
pub fn steps_without_mismatch<G: Game>(
    test: &mut SyncTest<G>,
    row: &Row,
) -> Result<Verdict, Refusal>
    ensures { (frame : ℕ) → result ≢ Ok (Verdict.Mismatch frame) }
{
    never_diverges::<G>();
    test.step(row)
}
