//! Claims that are checked, from a reader to a writer.
ghost use Rattle.std.specs.Prelude.{◌≡◌, ◌≢◌, ◌⊎◌, ◌+◌, ◌++◌, ℕ, List, Err, IfErr, IfOk, IfSome, OnOk};
ghost use Rattle.std.specs.Prelude.{string_bytes};
ghost use Rattle.roll_frame.specs.Claims.{IsRight};
ghost use Rattle.roll_text.specs.Lines.{ended, text_of};
ghost use Rattle.roll_text.specs.Streams.{IsBadAt};
ghost use Rattle.roll_text.specs.declared.streams.TheConstants.{TEXT_LIMIT};
ghost use Rattle.roll_cert.specs.Texts.{IsClaimText, IsSized, claim_lines};
ghost use Rattle.prog_scripts.specs.declared.fault.PlayFault.TheVariants.{NoMemory, Unreadable};
ghost use Rattle.prog_scripts.specs.declared.fault.PlayFault.TheVariants.{Write as CannotWrite};
ghost use Rattle.prog_scripts.specs.Engines.{Outputs, Plays};
ghost use Rattle.prog_scripts.specs.Faults.{TakesAtMost, fault_of_claim};
ghost use Rattle.roll_cli.specs.Certified.{IsAnswered, IsCertified, right_line, wrong_line};

use prog_scripts::PlayFault;
use roll_cert::{Flaw, check};
use roll_frame::{Claim, Refusal};
use roll_text::{read_all, write_all};
use std::alloc::{AllocError, Global};
use std::fmt::Write as _;
use std::io::{Read, Write};

/// Checks the claim whose text a reader holds, and answers whether it is right. One line is written: `yes`, from which
/// frame to which the roll went, and how many frames it ran, or `no` and the claim's first flaw.
///
/// At most 1,048,577 bytes are read. Nothing is written unless the whole claim can be read.
///
/// # Errors
///
/// `Unreadable` with the first line that no claim with the same earlier lines has, or with 0 if the text is too long; `Read` if
/// the reader fails; `NoMemory` if the allocator has no room. After these nothing is written. `Write` if the writer fails: it
/// has a part of the line, and not all of it. What was read by then is gone from the reader.
pub fn certify<R: Read, W: Write>(
    alloc: Global,
    reader: &mut R,
    writer: &mut W,
) -> Result<bool, PlayFault>
    ensures plays { Plays (IsBadAt IsClaimText) IsCertified
        (R.remaining reader.old) (W.contents writer.old) (W.contents writer.new) result }
    ensures untouched { IfErr result (λ fault. (fault ≡ CannotWrite) ⊎ (writer.new ≡ writer.old)) }
    ensures taken { TakesAtMost (TEXT_LIMIT + 1) (R.remaining reader.old) (R.remaining reader.new) }
{
    let claim = read_claim(alloc, reader)?;
    write_answer(alloc, writer, &claim)
}

/// The claim whose text a reader holds.
fn read_claim<R: Read>(alloc: Global, reader: &mut R) -> Result<Claim, PlayFault>
    ensures fits { IfOk result (λ claim. IsSized claim) }
    ensures spelled { IfOk result
        (λ claim. IfSome (R.remaining reader.old) (λ text. text ≡ text_of (claim_lines claim))) }
    ensures unreadable { (line : ℕ) → result ≡ Err (Unreadable line)
        → IfSome (R.remaining reader.old) (IsBadAt IsClaimText line) }
    ensures fault { IfErr result (λ fault. fault ≢ CannotWrite) }
    ensures taken { TakesAtMost (TEXT_LIMIT + 1) (R.remaining reader.old) (R.remaining reader.new) }
{
    let text = read_all(alloc, reader)?;
    match roll_cert::read(alloc, &text) {
        Ok(claim) => Ok(claim),
        Err(why) => Err(fault(why)),
    }
}

/// What a refused claim is to the program; there is no other refusal than these two.
fn fault(why: Refusal) -> PlayFault
    ensures { result ≡ fault_of_claim why }
{
    match why {
        Refusal::Unreadable(line) => PlayFault::Unreadable(u64::from(line)),
        _ => PlayFault::NoMemory,
    }
}

/// Writes the answer to a claim at once.
fn write_answer<W: Write>(alloc: Global, writer: &mut W, claim: &Claim) -> Result<bool, PlayFault>
    ensures outputs { Outputs (IsAnswered claim.now)
        (W.contents writer.old) (W.contents writer.new) result }
    ensures fault { IfErr result
        (λ fault. (fault ≡ CannotWrite) ⊎ ((fault ≡ NoMemory) × (writer.new ≡ writer.old))) }
{
    let mut out = String::new(alloc);
    let right = push_answer(&mut out, claim)?;
    write_all(writer, out.as_bytes())?;
    Ok(right)
}

/// Writes the answer to a claim at the end.
fn push_answer(out: &mut String, claim: &Claim) -> Result<bool, AllocError>
    ensures { IfOk result (λ right. (written : List ℕ) × IsAnswered claim.now written right
        × (string_bytes out.new ≡ string_bytes out.old ++ written)) }
{
    match check(claim) {
        Ok(()) => {
            push_right(out, claim)?;
            Ok(true)
        }
        Err(flaw) => {
            push_wrong(out, flaw)?;
            Ok(false)
        }
    }
}

fn push_right(out: &mut String, claim: &Claim) -> Result<(), AllocError>
    requires { IsRight claim.now }
    ensures { OnOk result (string_bytes out.new ≡ string_bytes out.old
        ++ ended (right_line claim.now)) }
{
    let from = u64::from(claim.from);
    let to = u64::from(claim.base) + claim.time.len() as u64;
    let rerun = to - from;
    writeln!(out, "yes: from {from} to {to} rerun {rerun}")
}

fn push_wrong(out: &mut String, flaw: Flaw) -> Result<(), AllocError>
    ensures { OnOk result (string_bytes out.new ≡ string_bytes out.old ++ ended (wrong_line flaw)) }
{
    match flaw {
        Flaw::Shape => out.push_str("no: shape\n"),
        Flaw::FromNotKept => out.push_str("no: from not kept\n"),
        Flaw::Range(entry) => writeln!(out, "no: range {entry}"),
        Flaw::Equal(entry) => writeln!(out, "no: equal {entry}"),
        Flaw::Twice(entry) => writeln!(out, "no: twice {entry}"),
        Flaw::Missing(state) => writeln!(out, "no: missing {state}"),
    }
}
