//! The roll: from the best saved state to a frame, saving each state on the way.
ghost use Rattle.std.specs.Prelude.{◌≡◌, ◌≤◌, ◌+◌, ◌-◌, length, All, IfOk, IfErr, OnOk, OnErr, Some, None};
ghost use Rattle.roll_frame.specs.Claims.{AreRowsOf};
ghost use Rattle.roll_game.specs.Counts.{IsRefusedAt, rolled};
ghost use Rattle.roll_plan.specs.Plans.{planned_roll};
ghost use Rattle.roll_tree.specs.SavedStates.{paths_of};
ghost use Rattle.roll_session.specs.Saves.{rows_to, deepest_toward, GrowsBy, IsRunTo, KeepsValues};
ghost use Rattle.roll_session.specs.Ways.{IsGoing};

use crate::saves::Saves;
use crate::way::Way;
use roll_frame::{PATH_LIMIT, TREE_LIMIT};
use roll_game::{Game, advance_and_save};
use roll_plan::Planner;

/// Loads the state that a roll stands at, and advances it to the roll's frame, saving each state. Where the game refuses,
/// it says how many states were saved.
fn run_on<G: Game>(
    game: &mut G,
    saves: &mut Saves<G::Snapshot>,
    start: Way,
) -> Result<G::State, u32>
    requires { IsGoing saves.old start }
    ensures inputs { saves.new.inputs ≡ saves.old.inputs }
    ensures room { saves.new.room ≡ saves.old.room }
    ensures paths { OnOk result (GrowsBy saves.old saves.new start.to (start.to - start.frame)) }
    ensures values { KeepsValues G.snapshot_value G.step saves.old saves.new }
    ensures state { IfOk result
        (λ state. IsRunTo G.snapshot_value G.step saves.old start.to (G.state_value state)) }
    ensures counts { OnOk result
        (G.call_counts game.new ≡ rolled (start.to - start.frame) (G.call_counts game.old)) }
    ensures made { IfErr result (λ made. made ≤ start.to - start.frame) }
    ensures partial { IfErr result (GrowsBy saves.old saves.new start.to) }
    ensures refused { IfErr result
        (λ made. IsRefusedAt made (G.call_counts game.old) (G.call_counts game.new)) }
{
    let Ok(loaded) = game.load(saves.reached(&start)) else {
        return Err(0);
    };
    let mut state = loaded;
    let mut way = start;
    for frame in start.frame..start.to {
        let row = saves.next_row(&way);
        let Ok(snapshot) = advance_and_save(game, &mut state, &row) else {
            return Err(frame - start.frame);
        };
        saves.go_on(&mut way, snapshot);
    }
    Ok(state)
}

/// The state at the end of a roll, and the length of the path that it started from.
#[derive(Drop)]
pub struct Rolled<S> {
    pub state: S,
    pub from: u32,
}

/// Rolls to a frame, and takes down the plan. Where the game refuses, it says how many states were saved, and there is
/// no plan.
pub fn roll<G: Game>(
    game: &mut G,
    saves: &mut Saves<G::Snapshot>,
    planner: &mut Planner,
    to: u32,
) -> Result<Rolled<G::State>, u32>
    requires low { saves.old.inputs.frame ≤ to }
    requires high { to ≤ saves.old.inputs.frame + 1 }
    requires fits { length saves.old.tree.states +
        (to - saves.old.inputs.settled - deepest_toward saves.old to) ≤ TREE_LIMIT }
    requires time { AreRowsOf planner.old.players (rows_to saves.old.inputs to) }
    requires widths { All (AreRowsOf planner.old.players) (paths_of saves.old.tree) }
    ensures inputs { saves.new.inputs ≡ saves.old.inputs }
    ensures room { saves.new.room ≡ saves.old.room }
    ensures from { IfOk result
        (λ rolled. rolled.from ≡ saves.old.inputs.settled + deepest_toward saves.old to) }
    ensures within { IfOk result (λ rolled. rolled.from ≤ to) }
    ensures paths { OnOk result (GrowsBy saves.old saves.new to
        (to - saves.old.inputs.settled - deepest_toward saves.old to)) }
    ensures values { KeepsValues G.snapshot_value G.step saves.old saves.new }
    ensures state { IfOk result
        (λ rolled. IsRunTo G.snapshot_value G.step saves.old to (G.state_value rolled.state)) }
    ensures plan { OnOk result (planner.new ≡ record planner.old {
      last = Some (planned_roll saves.old.tree (rows_to saves.old.inputs to));
    }) }
    ensures counts { OnOk result
        (G.call_counts game.new ≡ rolled
        (to - saves.old.inputs.settled - deepest_toward saves.old to) (G.call_counts game.old)) }
    ensures made { IfErr result
        (λ made. made ≤ to - saves.old.inputs.settled - deepest_toward saves.old to) }
    ensures partial { IfErr result (GrowsBy saves.old saves.new to) }
    ensures refused { IfErr result
        (λ made. IsRefusedAt made (G.call_counts game.old) (G.call_counts game.new)) }
    ensures no_plan { OnErr result (planner.new ≡ record planner.old { last = None }) }
{
    saves.laws();
    let start = saves.way_to(to);
    saves.plan(planner, &start);
    match run_on(game, saves, start) {
        Ok(state) => Ok(Rolled {
            state,
            from: start.frame,
        }),
        Err(made) => {
            planner.forget();
            Err(made)
        }
    }
}
