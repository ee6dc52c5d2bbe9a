//! The numbers of the refusals.
ghost use Rattle.std.specs.Prelude.{◌≡◌, ◌++◌, ℕ, List, OnOk};
ghost use Rattle.std.specs.String.{string_bytes};
ghost use Rattle.prog_explain.specs.Refused.{refused_note};

use roll_frame::Refusal;
use std::alloc::AllocError;
use std::fmt::Write;

/// The refusals that a script or a sync test can be answered with, in the order of their numbers.
pub const REFUSALS: [Refusal; 25] = [
    Refusal::InvalidPlayer,
    Refusal::PlayerOutOfRange,
    Refusal::PredictionThreshold,
    Refusal::PlayerDisconnected,
    Refusal::TooManySpectators,
    Refusal::InvalidRequest,
    Refusal::LocalInputMissing,
    Refusal::InputTwice,
    Refusal::Gap,
    Refusal::Conflict,
    Refusal::QueueFull,
    Refusal::FrameLimit,
    Refusal::NoMemory,
    Refusal::Stranger,
    Refusal::TooFar,
    Refusal::Late,
    Refusal::Orphan,
    Refusal::Dead,
    Refusal::TreeFull,
    Refusal::LogFull,
    Refusal::QueueRefused,
    Refusal::Stopped,
    Refusal::NoPlan,
    Refusal::Full,
    Refusal::NoJob,
];

/// Writes a line for each refusal at the end, behind an LF: its number, name and sentence.
pub fn push_refusals(out: &mut String) -> Result<(), AllocError> {
    for why in REFUSALS {
        write!(out, "\n  {:<4} {why:?}: {why}", why.code())?;
    }
    Ok(())
}

/// Writes a line on the refusal of the command in the line of this number: the refusal's number, and behind it its name
/// and sentence, of which no clause says what they are.
pub fn push_refused(notes: &mut String, line: u64, why: Refusal) -> Result<(), AllocError>
    ensures { OnOk result ((meaning : List ℕ)
        × (string_bytes notes.new ≡ string_bytes notes.old ++ refused_note line why meaning)) }
{
    let meaning = format!(in *notes.allocator(); "{why:?}: {why}")?;
    push_note(notes, line, why, meaning.as_str())
}

fn push_note(notes: &mut String, line: u64, why: Refusal, meaning: &str) -> Result<(), AllocError>
    ensures { OnOk result (string_bytes notes.new
        ≡ string_bytes notes.old ++ refused_note line why meaning.now) }
{
    let code = why.code().unsigned_abs();
    writeln!(notes, "line {line}: refused {code}: {meaning}")
}
