//! A roll in progress, whoever runs the game.
ghost use Rattle.std.specs.Prelude.{◌≡◌, ◌+◌, ◌-◌, ◌<◌, ◌≤◌, length, IsSomeAnd};
ghost use Rattle.roll_frame.specs.Timeline.{row_at};
ghost use Rattle.roll_tree.specs.SavedStates.{state_named, with_state};
ghost use Rattle.roll_session.specs.Gameless.{KeepsRolled};
ghost use Rattle.roll_session.specs.Saves.{GrowsBy};
ghost use Rattle.roll_session.specs.Ways.{next_state, IsGoing};

use crate::saves::Saves;
use roll_frame::Row;

/// A roll in progress: it stands at the deepest saved state on the timeline's way to a frame.
#[derive(Clone, Copy, Debug)]
pub struct Way {
    /// The saved state's name.
    pub at: usize,
    /// The frame that it is the state of.
    pub frame: u32,
    /// The frame that the roll goes to.
    pub to: u32,
}

impl<S> Saves<S> {
    /// The state that a roll stands at.
    pub fn reached(&self, way: &Way) -> &S
        requires { IsGoing self.now way.now }
        ensures { IsSomeAnd (state_named self.now.tree way.now.at)
            (λ s. s.snapshot ≡ result.now) }
    {
        self.tree().get(way.at)
    }

    /// The row that leads to a roll's next state.
    pub fn next_row(&self, way: &Way) -> Row
        requires going { IsGoing self.now way.now }
        requires more { way.now.frame < way.now.to }
        ensures { result ≡ row_at self.now.inputs.players way.now.frame }
    {
        self.told_row(way.frame)
    }

    /// Saves the next state of a roll, and goes on to it.
    pub fn go_on(&mut self, way: &mut Way, snapshot: S)
    where
        S: Drop,
        requires going { IsGoing self.old way.old }
        requires more { way.old.frame < way.old.to }
        ensures going { IsGoing self.new way.new }
        ensures frame { way.new.frame ≡ way.old.frame + 1 }
        ensures to { way.new.to ≡ way.old.to }
        ensures inputs { self.new.inputs ≡ self.old.inputs }
        ensures room { self.new.room ≡ self.old.room }
        ensures added { self.new.tree
            ≡ with_state self.old.tree (next_state self.old way.old.frame way.new.at snapshot) }
    {
        self.laws();
        let row = self.told_row(way.frame);
        way.at = self.add_state(way.at, row, snapshot);
        way.frame += 1;
    }
}

/// Saves the states of a roll, or the first of them.
pub fn add_rolled<S: Copy>(saves: &mut Saves<S>, start: Way, states: &[S])
    requires going { IsGoing saves.old start }
    requires few { length states.now ≤ start.to - start.frame }
    ensures inputs { saves.new.inputs ≡ saves.old.inputs }
    ensures room { saves.new.room ≡ saves.old.room }
    ensures paths { GrowsBy saves.old saves.new start.to (length states.now) }
    ensures kept { KeepsRolled saves.old saves.new start.frame states.now (length states.now) }
{
    let end = start.frame + states.len() as u32;
    let mut way = start;
    for frame in start.frame..end {
        let snapshot = states[(frame - start.frame) as usize];
        saves.go_on(&mut way, snapshot);
    }
}
