//! The run of a job.
ghost use Rattle.std.specs.Prelude.{◌≡◌, ◌<◌, ◌≤◌, [], length, vec_capacity, is_ok, IfOk};
ghost use Rattle.roll_branch.specs.Ends.{Ends, IsAsked, is_grown};
ghost use Rattle.roll_branch.specs.Routed.{AreStates};

use crate::branch::{Branch, Done};
use crate::job::Job;
use roll_frame::Row;
use roll_game::{Game, NoMemory, advance_and_save};

/// Runs a job's rows on a game, and saves the state after each.
///
/// Any engine of the session's game can run it, on any thread. It takes no memory of its own. Where the game refuses, the
/// states that were saved by then are dropped.
pub fn extend<G: Game>(game: &mut G, job: Job<G>) -> Done<G>
    ensures done { Ends job result }
    ensures counts { IsAsked (is_grown result) (length job.route.rows.items)
        (G.call_counts game.old) (G.call_counts game.new) }
{
    let Job {
        ticket,
        route,
        from,
        room,
    } = job;
    match run_rows(game, &from, route.get().rows.as_slice(), room) {
        Ok(states) => Done::Grown(Branch {
            ticket,
            route,
            from,
            states,
        }),
        Err(NoMemory) => Done::Refused(ticket),
    }
}

/// The states after each of these rows.
fn run_rows<G: Game>(
    game: &mut G,
    from: &G::Snapshot,
    rows: &[Row],
    room: Vec<G::Snapshot>,
) -> Result<Vec<G::Snapshot>, NoMemory>
    requires some { 0 < length rows.now }
    requires empty { room.items ≡ [] }
    requires room { length rows.now ≤ vec_capacity room }
    ensures states { IfOk result (λ states. AreStates G.snapshot_value G.step
        (G.snapshot_value from.now) rows.now states.items) }
    ensures counts { IsAsked (is_ok result) (length rows.now) (G.call_counts game.old)
        (G.call_counts game.new) }
{
    let Ok(loaded) = game.load(from) else {
        return Err(NoMemory);
    };
    let mut state = loaded;
    let mut states = room;
    for row in rows {
        let Ok(snapshot) = advance_and_save(game, &mut state, row) else {
            return Err(NoMemory);
        };
        states.push(snapshot).unwrap();
    }
    Ok(states)
}
