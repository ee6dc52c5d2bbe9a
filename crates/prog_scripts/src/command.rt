//! The commands of a script.
ghost use Rattle.std.specs.Prelude.{◌≡◌, ◌∷◌, [], ◌++◌, IfOk, IfSome, map, codes};
ghost use Rattle.std.specs.Fmt.{decimal};
ghost use Rattle.std.specs.Option.{option_map};
ghost use Rattle.roll_text.specs.Lines.{ended};
ghost use Rattle.roll_text.specs.Numbers.{IsWord};
ghost use Rattle.prog_scripts.specs.Plays.{CutsCommand};
ghost use Rattle.prog_scripts.specs.Commands.{IsCommand, fields_of, line_of};
ghost use Rattle.roll_text.specs.Text.{Reads};

use roll_frame::PATH_LIMIT;
use roll_text::{few_fields, leading_number, number, numbers, split_line};
use std::alloc::{AllocError, Global};

/// A command has at most this many fields.
const FIELD_LIMIT: usize = 4;

/// A line of a script below its header. Any number of 32 bits can stand in it: what names nothing is refused when it
/// is played.
#[derive(Debug, Drop)]
pub enum Command {
    /// `L p w`: the word of a local player for this frame.
    Local {
        player: u32,
        word: u32,
    },
    /// `R p f w`: a remote player's word for frame f.
    Remote {
        player: u32,
        frame: u32,
        word: u32,
    },
    /// `D p`: the player leaves.
    Disconnect {
        player: u32,
    },
    /// `S`: rolls back if a prediction was wrong.
    Sync,
    /// `A`: the next frame.
    Advance,
    /// `G p until w,w,..`: a guess of the player's next words, 1 to 24 of them, up to frame `until`.
    Guess {
        player: u32,
        until: u32,
        words: Vec<u32>,
    },
    /// `B j`: job j is run, and its branch taken in.
    Extend {
        job: u32,
    },
    /// `C`: the claim of the last roll.
    Claim,
}

impl Command {
    /// The command that a line spells, given without its end.
    ///
    /// # Errors
    ///
    /// `AllocError` if the allocator has no room.
    pub fn read(alloc: Global, line: &[u8]) -> Result<Option<Command>, AllocError>
        ensures { IfOk result (λ command. Reads IsCommand line_of line.now command) }
    {
        let Some(fields) = few_fields::<FIELD_LIMIT>(line, b' ') else {
            return Ok(None);
        };
        Command::from_fields(alloc, &fields)
    }

    fn from_fields(alloc: Global, fields: &[&[u8]]) -> Result<Option<Command>, AllocError>
        ensures { IfOk result (λ command. Reads IsCommand fields_of
            (map (λ field. field.now) fields.now) command) }
    {
        match fields {
            [kind] => Ok(alone(kind)),
            [kind, number] => Ok(with_number(kind, number)),
            [kind, player, word] => Ok(local(kind, player, word)),
            [kind, player, frame, values] => with_values(alloc, kind, player, frame, values),
            _ => Ok(None),
        }
    }
}

/// The command in the first line of a text, and what follows that line. None if no command's line comes first.
///
/// # Errors
///
/// `AllocError` if the allocator has no room.
#[inline(always)]
pub fn first_command(alloc: Global, text: &[u8]) -> Result<Option<(Command, &[u8])>, AllocError>
    ensures { IfOk result (λ found. CutsCommand text.now
        (option_map (λ cut. (cut.0, cut.1.now)) found)) }
{
    if let Some(found) = frequent(text) {
        Ok(Some(found))
    } else {
        any_command(alloc, text)
    }
}

/// As `first_command`, by a look for the line's end.
#[inline(never)]
fn any_command(alloc: Global, text: &[u8]) -> Result<Option<(Command, &[u8])>, AllocError>
    ensures { IfOk result (λ found. CutsCommand text.now
        (option_map (λ cut. (cut.0, cut.1.now)) found)) }
{
    let Some((line, after)) = split_line(text) else {
        return Ok(None);
    };
    let Some(command) = Command::read(alloc, line)? else {
        return Ok(None);
    };
    Ok(Some((command, after)))
}

/// The command in the first line of a text, and what follows that line, if it is one of those that each frame has. They are
/// read from left to right, without a look for the line's end.
#[inline(always)]
fn frequent(text: &[u8]) -> Option<(Command, &[u8])>
    ensures { IfSome result (λ cut. IsCommand cut.0
        × (text.now ≡ ended (line_of cut.0) ++ cut.1.now)) }
{
    let Some((kind, rest)) = text.split_first() else {
        return None;
    };
    match *kind {
        b'L' => frequent_local(rest),
        b'R' => frequent_remote(rest),
        b'A' => ended_by(Command::Advance, rest),
        b'S' => ended_by(Command::Sync, rest),
        _ => None,
    }
}

#[inline(always)]
fn frequent_local(text: &[u8]) -> Option<(Command, &[u8])>
    ensures { IfSome result (λ cut. IsCommand cut.0
        × (76 ∷ text.now ≡ ended (line_of cut.0) ++ cut.1.now)) }
{
    let Some((player, rest)) = spaced_number(text) else {
        return None;
    };
    let Some((word, rest)) = spaced_number(rest) else {
        return None;
    };
    ended_by(Command::Local { player, word }, rest)
}

#[inline(always)]
fn frequent_remote(text: &[u8]) -> Option<(Command, &[u8])>
    ensures { IfSome result (λ cut. IsCommand cut.0
        × (82 ∷ text.now ≡ ended (line_of cut.0) ++ cut.1.now)) }
{
    let Some((player, rest)) = spaced_number(text) else {
        return None;
    };
    let Some((frame, rest)) = spaced_number(rest) else {
        return None;
    };
    let Some((word, rest)) = spaced_number(rest) else {
        return None;
    };
    ended_by(
        Command::Remote {
            player,
            frame,
            word,
        },
        rest,
    )
}

/// The number after a space at the beginning of a text, and what follows it.
#[inline(always)]
fn spaced_number(text: &[u8]) -> Option<(u32, &[u8])>
    ensures { IfSome result (λ cut. IsWord cut.0 × (text.now ≡ 32 ∷ decimal cut.0 ++ cut.1.now)) }
{
    match text.split_first() {
        Some((b' ', rest)) => leading_number(rest),
        _ => None,
    }
}

/// A command with what follows the end of its line, which is at the beginning of a text.
#[inline(always)]
fn ended_by(command: Command, text: &[u8]) -> Option<(Command, &[u8])>
    ensures { IfSome result (λ cut. (cut.0 ≡ command) × (text.now ≡ 10 ∷ cut.1.now)) }
{
    match text.split_first() {
        Some((b'\n', after)) => Some((command, after)),
        _ => None,
    }
}

/// A command of one letter.
fn alone(kind: &[u8]) -> Option<Command>
    ensures { Reads IsCommand fields_of (kind.now ∷ []) result }
{
    match kind {
        b"S" => Some(Command::Sync),
        b"A" => Some(Command::Advance),
        b"C" => Some(Command::Claim),
        _ => None,
    }
}

/// A command of a letter and a number.
fn with_number(kind: &[u8], text: &[u8]) -> Option<Command>
    ensures { Reads IsCommand fields_of (kind.now ∷ text.now ∷ []) result }
{
    let Some(n) = number(text) else {
        return None;
    };
    match kind {
        b"D" => Some(Command::Disconnect { player: n }),
        b"B" => Some(Command::Extend { job: n }),
        _ => None,
    }
}

fn local(kind: &[u8], player: &[u8], word: &[u8]) -> Option<Command>
    ensures { Reads IsCommand fields_of (kind.now ∷ player.now ∷ word.now ∷ []) result }
{
    let Some(player) = number(player) else {
        return None;
    };
    let Some(word) = number(word) else {
        return None;
    };
    match kind {
        b"L" => Some(Command::Local { player, word }),
        _ => None,
    }
}

/// A command of a letter, a player, a frame, and a word or several.
fn with_values(
    alloc: Global,
    kind: &[u8],
    player: &[u8],
    frame: &[u8],
    values: &[u8],
) -> Result<Option<Command>, AllocError>
    ensures { IfOk result (λ command. Reads IsCommand fields_of
        (kind.now ∷ player.now ∷ frame.now ∷ values.now ∷ []) command) }
{
    let Some(player) = number(player) else {
        return Ok(None);
    };
    let Some(frame) = number(frame) else {
        return Ok(None);
    };
    match kind {
        b"R" => Ok(remote(player, frame, values)),
        b"G" => guess(alloc, player, frame, values),
        _ => Ok(None),
    }
}

fn remote(player: u32, frame: u32, word: &[u8]) -> Option<Command>
    ensures { Reads IsCommand fields_of
        (codes "R" ∷ decimal player ∷ decimal frame ∷ word.now ∷ []) result }
{
    let Some(word) = number(word) else {
        return None;
    };
    Some(Command::Remote {
        player,
        frame,
        word,
    })
}

fn guess(
    alloc: Global,
    player: u32,
    until: u32,
    words: &[u8],
) -> Result<Option<Command>, AllocError>
    ensures { IfOk result (λ command. Reads IsCommand fields_of
        (codes "G" ∷ decimal player ∷ decimal until ∷ words.now ∷ []) command) }
{
    let Some(words) = numbers(alloc, words)? else {
        return Ok(None);
    };
    if words.len() > PATH_LIMIT {
        return Ok(None);
    }
    Ok(Some(Command::Guess {
        player,
        until,
        words,
    }))
}
