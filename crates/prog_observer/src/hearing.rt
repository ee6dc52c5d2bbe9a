//! When the words of a player came.
ghost use Rattle.std.specs.Prelude.{◌≡◌, IfOk, OnOk};
ghost use Rattle.prog_observer.specs.Hearing.{after_hearing, cell_at, cells_of, heard_words, lane_of, lane_shown, shown_at};

use prog_picture::{Cell, Lane};
use roll_frame::{Cell as Shown, Row};
use roll_game::Game;
use roll_session::Session;
use std::alloc::{AllocError, Global};

/// A word of a player.
#[derive(Clone, Copy, Debug, PartialEq, Eq)]
pub struct Heard {
    pub word: u32,
    /// The frame in which it came.
    pub at: u32,
}

/// The words of a player that have come.
#[derive(Drop)]
pub struct Hearing {
    pub player: u8,
    /// Its words, from frame 0 on.
    pub words: Vec<Heard>,
}

impl Hearing {
    /// Notes the words that have come since, in this frame. If memory runs out, the first of them may have been noted.
    pub fn hear<G: Game>(&mut self, session: &Session<G>, at: u32) -> Result<(), AllocError>
        ensures { OnOk result
            (heard_words self.new ≡ after_hearing session.now at (heard_words self.old)) }
    {
        let known = session.confirmed(self.player).unwrap_or(0);
        let first = self.words.len().min(known as usize) as u32;
        for frame in first..known {
            let word = session.confirmed_word(self.player, frame).unwrap_or(0);
            self.words.push(Heard { word, at })?;
        }
        Ok(())
    }

    /// The player's lane, where these rows were shown as their frames were first run.
    pub fn lane(&self, alloc: Global, is_local: bool, firsts: &[Row]) -> Result<Lane, AllocError>
        ensures { IfOk result
            (λ lane. lane_shown lane ≡ lane_of is_local firsts.now (heard_words self.now)) }
    {
        Ok(Lane {
            player: self.player,
            is_local,
            cells: self.cells(alloc, firsts)?,
        })
    }

    /// The player's cells, up to the last that is known or was shown.
    fn cells(&self, alloc: Global, firsts: &[Row]) -> Result<Vec<Option<Cell>>, AllocError>
        ensures { IfOk result (λ cells. cells.items ≡ cells_of (heard_words self.now) firsts.now) }
    {
        (0..self.words.len().max(firsts.len()))
            .map(|frame| self.cell(frame, firsts))
            .collect(alloc)
    }

    /// The cell of a frame. None if the player had left by then.
    fn cell(&self, frame: usize, firsts: &[Row]) -> Option<Cell>
        ensures { result ≡ cell_at (heard_words self.now) firsts.now frame }
    {
        let shown = shown_at(firsts, frame, self.player);
        match self.words.get(frame) {
            Some(heard) => Some(Cell {
                word: heard.word,
                shown: shown.unwrap_or(heard.word),
                heard: Some(heard.at),
            }),
            None => {
                let word = shown?;
                Some(Cell {
                    word,
                    shown: word,
                    heard: None,
                })
            }
        }
    }
}

/// The word that was shown of a player as a frame was first run, if it was run and the player hadn't left.
fn shown_at(firsts: &[Row], frame: usize, player: u8) -> Option<u32>
    ensures { result ≡ shown_at firsts.now frame player }
{
    let row = firsts.get(frame)?;
    match row.get(usize::from(player.saturating_sub(1)))? {
        Shown::Word(word) => Some(word),
        Shown::Gone => None,
    }
}
