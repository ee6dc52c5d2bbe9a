//! The script that a reader holds.
ghost use Rattle.std.specs.Prelude.{◌≡◌, ◌≢◌, ◌<◌, ◌+◌, ◌^◌, ℕ, Err, IfErr, IfOk, IfSome, length};
ghost use Rattle.roll_text.specs.Lines.{text_of as text_of_lines};
ghost use Rattle.roll_text.specs.Streams.{IsBadAt};
ghost use Rattle.roll_text.specs.declared.streams.TheConstants.{TEXT_LIMIT};
ghost use Rattle.prog_scripts.specs.declared.fault.PlayFault.TheVariants.{Unreadable, Write as CannotWrite};
ghost use Rattle.prog_scripts.specs.Faults.{TakesAtMost};
ghost use Rattle.prog_scripts.specs.Plays.{IsPlay, IsScript, play_lines, play_of};

use crate::fault::PlayFault;
use crate::script::{Script, ScriptFault};
use roll_text::read_all;
use std::alloc::Global;
use std::io::Read;

impl From<ScriptFault> for PlayFault {
    ghost use Rattle.std.specs.Prelude.{◌≡◌};
    ghost use Rattle.prog_scripts.specs.Faults.{fault_of_script};

    ghost from_gives = { λ error fault. fault ≡ fault_of_script error };

    fn from(error: ScriptFault) -> PlayFault {
        match error {
            ScriptFault::Unreadable(line) => PlayFault::Unreadable(line),
            ScriptFault::NoMemory => PlayFault::NoMemory,
        }
    }
}

/// The script that a reader holds. At most 1,048,577 bytes are read.
///
/// # Errors
///
/// `Unreadable` with the first line that no script with the same earlier lines has, or with 0 if the text is too long; `Read` if
/// the reader fails; `NoMemory` if the allocator has no room. What was read by then is gone from the reader.
pub fn read_script<R: Read>(alloc: Global, reader: &mut R) -> Result<Script, PlayFault>
    ensures fits { IfOk result (λ script. IsPlay (play_of script)) }
    ensures few { IfOk result (λ script. length script.commands.items < 2 ^ 32) }
    ensures spelled { IfOk result
        (λ script. IfSome (R.remaining reader.old)
        (λ text. text ≡ text_of_lines (play_lines (play_of script)))) }
    ensures unreadable { (line : ℕ) → result ≡ Err (Unreadable line)
        → IfSome (R.remaining reader.old) (IsBadAt IsScript line) }
    ensures fault { IfErr result (λ fault. fault ≢ CannotWrite) }
    ensures taken { TakesAtMost (TEXT_LIMIT + 1) (R.remaining reader.old) (R.remaining reader.new) }
{
    let text = read_all(alloc, reader)?;
    let script = Script::read(alloc, &text)?;
    Ok(script)
}
