//! Both sides of a match, and the line between them.
use crate::line::Line;
use crate::peer::{Fault, LAST_FRAME, Side};
use std::alloc::Global;

/// After how many turns a match is broken off.
const MOST_TURNS: u32 = 3 * LAST_FRAME;

/// Two sides, and what is under way between them.
#[derive(Drop)]
pub struct Duel {
    pub first: Side,
    pub second: Side,
    line: Line,
}

impl Duel {
    /// Both sides before the match.
    pub fn new(alloc: Global) -> Result<Duel, Fault> {
        Ok(Duel {
            first: Side::new(alloc, 0, 2)?,
            second: Side::new(alloc, 1, 1)?,
            line: Line::new(alloc),
        })
    }

    /// Plays the match, whose second side starts so many turns late. After the last frame both sides go on until each has all,
    /// and knows that the other has.
    pub fn play(&mut self, alloc: Global, late: u32) -> Result<(), Fault> {
        for turn in 0..MOST_TURNS {
            if self.first.is_done() && self.second.is_done() {
                break;
            }
            self.first.turn(alloc, turn, &mut self.line)?;
            if turn >= late {
                self.second.turn(alloc, turn, &mut self.line)?;
            }
        }
        Ok(())
    }
}
