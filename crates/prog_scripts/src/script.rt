//! Whole scripts.
ghost use Rattle.std.specs.Prelude.{◌≡◌, ◌≤◌, ℕ, ◌++◌, Err, IfOk, length};
ghost use Rattle.roll_text.specs.Text.{IsUnreadableAt};
ghost use Rattle.prog_scripts.specs.Headers.{IsSetup, header_of, setup_of};
ghost use Rattle.prog_scripts.specs.Plays.{IsOutlined, IsPlay, IsScript, play_lines, play_of};
ghost use Rattle.prog_scripts.specs.declared.script.ScriptFault.TheVariants.{NoMemory, Unreadable};
ghost use Rattle.roll_text.specs.Lines.{ended, text_of};
ghost use Rattle.roll_text.specs.declared.streams.TheConstants.{TEXT_LIMIT};

use crate::command::{Command, first_command};
use crate::header::Header;
use roll_text::split_line;
use std::alloc::{AllocError, AllocFailed, Global};
use thiserror::Error;

/// The line of a script's first command.
const FIRST_COMMAND: u64 = 2;

/// A script: how its session is opened, and what is asked of it.
#[derive(Debug, Drop)]
pub struct Script {
    pub header: Header,
    pub commands: Vec<Command>,
}

/// Why a text was not read as a script.
#[derive(Clone, Copy, Debug, PartialEq, Eq, Error)]
pub enum ScriptFault {
    /// The first line, from 1, that no script with the same earlier lines has.
    #[error("unreadable: line {0}")]
    Unreadable(u64),
    #[error("out of memory")]
    NoMemory,
}

impl From<AllocError> for ScriptFault {
    ghost from_gives = { λ _ fault. fault ≡ NoMemory };

    fn from(_error: AllocError) -> ScriptFault {
        ScriptFault::NoMemory
    }
}

impl<T: Drop> From<AllocFailed<T>> for ScriptFault {
    ghost from_gives = { λ _ fault. fault ≡ NoMemory };

    fn from(_error: AllocFailed<T>) -> ScriptFault {
        ScriptFault::NoMemory
    }
}

impl Script {
    /// The script that a text spells.
    ///
    /// # Errors
    ///
    /// `Unreadable` with the first line that no script with the same earlier lines has; `NoMemory` if the allocator has no room.
    pub fn read(alloc: Global, text: &[u8]) -> Result<Script, ScriptFault>
        ensures fits { IfOk result (λ script. IsPlay (play_of script)) }
        ensures spelled { IfOk result (λ script. text.now ≡ text_of (play_lines (play_of script))) }
        ensures unreadable { (line : ℕ) → result ≡ Err (Unreadable line)
            → IsUnreadableAt line IsScript text.now }
    {
        let (header, mut rest) = split_header(alloc, text)?;
        let mut commands = Vec::new(alloc);
        let mut line = FIRST_COMMAND;
        while !rest.is_empty() {
            let Some((command, after)) = first_command(alloc, rest)? else {
                return Err(ScriptFault::Unreadable(line));
            };
            commands.push(command)?;
            rest = after;
            line += 1;
        }
        Ok(Script { header, commands })
    }
}

/// Sees that a text is a script's. Of the script it keeps the header alone, and where the commands' lines begin.
///
/// # Errors
///
/// As for [`Script::read`].
pub fn outline(alloc: Global, text: &[u8]) -> Result<(Header, &[u8]), ScriptFault>
    requires { length text.now ≤ TEXT_LIMIT }
    ensures outlined { IfOk result (λ found. IsOutlined (setup_of found.0) found.1.now text.now) }
    ensures unreadable { (line : ℕ) → result ≡ Err (Unreadable line)
        → IsUnreadableAt line IsScript text.now }
{
    let (header, commands) = split_header(alloc, text)?;
    let mut rest = commands;
    let mut line = FIRST_COMMAND;
    while !rest.is_empty() {
        let Some((_, after)) = first_command(alloc, rest)? else {
            return Err(ScriptFault::Unreadable(line));
        };
        rest = after;
        line += 1;
    }
    Ok((header, commands))
}

/// The header of a script, and what follows its line.
fn split_header(alloc: Global, text: &[u8]) -> Result<(Header, &[u8]), ScriptFault>
    ensures header { IfOk result
        (λ found. IsSetup (setup_of found.0)
        × (text.now ≡ ended (header_of (setup_of found.0)) ++ found.1.now)) }
    ensures unreadable { (line : ℕ) → result ≡ Err (Unreadable line)
        → IsUnreadableAt line IsScript text.now }
{
    let Some((first, rest)) = split_line(text) else {
        return Err(ScriptFault::Unreadable(1));
    };
    let Some(header) = Header::read(alloc, first)? else {
        return Err(ScriptFault::Unreadable(1));
    };
    Ok((header, rest))
}
