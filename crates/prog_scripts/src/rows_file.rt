//! Files of rows, for sync tests.
ghost use Rattle.std.specs.Prelude.{◌≡◌, ℕ, Err, IfOk};
ghost use Rattle.roll_text.specs.Lines.{text_of};
ghost use Rattle.roll_text.specs.Text.{IsUnreadableAt};
ghost use Rattle.prog_scripts.specs.RowsFiles.{IsRowsFile, IsRowsText, file_lines, file_of};
ghost use Rattle.prog_scripts.specs.declared.script.ScriptFault.TheVariants.{Unreadable};

use crate::script::ScriptFault;
use roll_cert::{named_number, read_row};
use roll_frame::Row;
use roll_text::split_line;
use std::alloc::Global;

/// Rows of so many players, 1 to 4.
#[derive(Debug, Drop)]
pub struct RowsFile {
    pub players: u8,
    pub rows: Vec<Row>,
}

impl RowsFile {
    /// The file that a text spells.
    ///
    /// # Errors
    ///
    /// `Unreadable` with the first line that no such file with the same earlier lines has; `NoMemory` if the allocator has no
    /// room.
    pub fn read(alloc: Global, text: &[u8]) -> Result<RowsFile, ScriptFault>
        ensures fits { IfOk result (λ file. IsRowsFile (file_of file)) }
        ensures spelled { IfOk result (λ file. text.now ≡ text_of (file_lines (file_of file))) }
        ensures unreadable { (line : ℕ) → result ≡ Err (Unreadable line)
            → IsUnreadableAt line IsRowsText text.now }
    {
        let Some((first, mut rest)) = split_line(text) else {
            return Err(ScriptFault::Unreadable(1));
        };
        let Some(players) = named_number(first, b"rolltest 1 players ", 1, 4) else {
            return Err(ScriptFault::Unreadable(1));
        };
        let players = players as u8;
        let mut rows = Vec::new(alloc);
        let mut line = 2;
        while !rest.is_empty() {
            let Some((front, after)) = split_line(rest) else {
                return Err(ScriptFault::Unreadable(line));
            };
            let Some(row) = read_row(alloc, front, players)? else {
                return Err(ScriptFault::Unreadable(line));
            };
            rows.push(row)?;
            rest = after;
            line += 1;
        }
        Ok(RowsFile { players, rows })
    }
}
