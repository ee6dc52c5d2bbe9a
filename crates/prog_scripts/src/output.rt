//! What is written of a session.
ghost use Rattle.std.specs.Prelude.{◌≡◌, ◌≢◌, ◌⊎◌, ◌++◌, IfErr, IfOk, OnOk, codes};
ghost use Rattle.prog_scripts.specs.declared.fault.PlayFault.TheVariants.{NoMemory, Write as CannotWrite};
ghost use Rattle.std.specs.Fmt.{decimal};
ghost use Rattle.roll_session.specs.Seen.{game_of};
ghost use Rattle.roll_text.specs.Lines.{ended};
ghost use Rattle.prog_scripts.specs.Engines.{Outputs};
ghost use Rattle.prog_scripts.specs.Output.{IsRefusedAlone, claim_refusal, claim_text, frame_line, refused_line, reply_line};

use crate::fault::PlayFault;
use roll_frame::{Refusal, Reply};
use roll_game::Shown;
use roll_session::Session;
use roll_text::{push_number, push_signed, write_all};
use std::alloc::{AllocError, Global};
use std::io::Write;

/// Writes the claim of the last roll, or the refusal if there is none, and answers why it was refused, if it was.
///
/// # Errors
///
/// `NoMemory` if the allocator has no room. A part of the refusal may stand written, and nothing of a claim.
#[inline(never)]
pub fn push_claim<G: Shown>(
    alloc: Global,
    out: &mut Vec<u8>,
    session: &Session<G>,
) -> Result<Option<Refusal>, PlayFault>
    ensures written { OnOk result
        (out.new.items ≡ out.old.items ++ claim_text session.now.settings session.now.core) }
    ensures refused { IfOk result (λ why. why ≡ claim_refusal session.now.core) }
    ensures fault { IfErr result (λ fault. fault ≡ PlayFault.NoMemory) }
{
    match session.claim(alloc) {
        Ok(claim) => {
            let text = roll_cert::write(alloc, &claim)?;
            out.extend_from_slice(&text)?;
            Ok(None)
        }
        Err(Refusal::NoPlan) => {
            push_reply(out, session, Reply::Refused(Refusal::NoPlan))?;
            Ok(Some(Refusal::NoPlan))
        }
        Err(_) => Err(PlayFault::NoMemory),
    }
}

/// Writes the line of a reply.
///
/// # Errors
///
/// `NoMemory` if the allocator has no room, or if the game refuses the text of its state. A part of the line may stand written.
#[inline(always)]
pub fn push_reply<G: Shown>(
    out: &mut Vec<u8>,
    session: &Session<G>,
    reply: Reply,
) -> Result<(), PlayFault>
    ensures written { OnOk result
        (out.new.items ≡ out.old.items
        ++ ended (reply_line G.text_of (game_of G.step session.now) session.now.core reply)) }
    ensures fault { IfErr result (λ fault. fault ≡ PlayFault.NoMemory) }
{
    match reply {
        Reply::Refused(why) => push_refused(out, why)?,
        Reply::Done => out.extend_from_slice(b"ok")?,
        Reply::Taken => out.extend_from_slice(b"taken")?,
        Reply::Repeated => out.extend_from_slice(b"repeated")?,
        Reply::Disconnected { player } => push_named(out, b"gone ", u32::from(player))?,
        Reply::Synchronized(_) | Reply::Reached { .. } => push_frame(out, session)?,
        Reply::Grafted { added } => push_named(out, b"added ", added)?,
    }
    out.extend_from_slice(b"\n")?;
    Ok(())
}

/// Writes the line of a guess that gave a job, with the job's number and how many rows it has.
///
/// # Errors
///
/// `AllocError` if the allocator has no room. A part of the line may stand written.
pub fn push_job(out: &mut Vec<u8>, number: u32, rows: u32) -> Result<(), AllocError>
    ensures { OnOk result (out.new.items ≡ out.old.items
        ++ ended (codes "job " ++ (decimal number ++ (codes " rows " ++ decimal rows)))) }
{
    push_named(out, b"job ", number)?;
    push_named(out, b" rows ", rows)?;
    out.extend_from_slice(b"\n")
}

/// Writes what a roll led to, without the line's end.
#[inline(never)]
fn push_frame<G: Shown>(out: &mut Vec<u8>, session: &Session<G>) -> Result<(), PlayFault>
    ensures written { OnOk result
        (out.new.items ≡ out.old.items
        ++ frame_line G.text_of (game_of G.step session.now) session.now.core) }
    ensures fault { IfErr result (λ fault. fault ≡ PlayFault.NoMemory) }
{
    let Some(plan) = session.last_plan() else {
        return Ok(());
    };
    let Some(state) = session.current() else {
        return Ok(());
    };
    push_named(out, b"frame ", session.frame())?;
    push_named(out, b" from ", plan.from)?;
    push_named(out, b" rerun ", plan.rerun)?;
    push_named(out, b" settled ", session.settled())?;
    out.extend_from_slice(b" state ")?;
    session.game().text(state, out)?;
    Ok(())
}

/// Writes a refusal, without the line's end.
///
/// # Errors
///
/// `AllocError` if the allocator has no room. A part of it may stand written.
#[inline(never)]
pub fn push_refused(out: &mut Vec<u8>, why: Refusal) -> Result<(), AllocError>
    ensures { OnOk result (out.new.items ≡ out.old.items ++ refused_line why) }
{
    out.extend_from_slice(b"refused ")?;
    push_signed(out, why.code())?;
    Ok(())
}

/// Writes a number behind its name.
///
/// # Errors
///
/// `AllocError` if the allocator has no room. A part of it may stand written.
#[inline(always)]
pub fn push_named(out: &mut Vec<u8>, name: &[u8], n: u32) -> Result<(), AllocError>
    ensures { OnOk result (out.new.items ≡ out.old.items ++ (name.now ++ decimal n)) }
{
    out.extend_from_slice(name)?;
    push_number(out, n)?;
    Ok(())
}

/// Writes why there is no game to play.
///
/// # Errors
///
/// `NoMemory` if the allocator has no room, or if that is the refusal: nothing is written. `Write` if the writer fails: it has a
/// part of the line, and not all of it.
pub fn write_not_started<W: Write>(
    alloc: Global,
    writer: &mut W,
    why: Refusal,
) -> Result<u32, PlayFault>
    ensures outputs { Outputs (IsRefusedAlone why)
        (W.contents writer.old) (W.contents writer.new) result }
    ensures fault { IfErr result
        (λ fault. (fault ≡ CannotWrite) ⊎ ((fault ≡ NoMemory) × (writer.new ≡ writer.old))) }
{
    let mut out = Vec::new(alloc);
    let refused = push_not_started(&mut out, why)?;
    write_all(writer, &out)?;
    Ok(refused)
}

/// Writes why a session didn't start, unless memory was refused: the only reply, and a refusal.
///
/// # Errors
///
/// `NoMemory` if the allocator has no room, or if that is the refusal. A part of the line may stand written.
pub fn push_not_started(out: &mut Vec<u8>, why: Refusal) -> Result<u32, PlayFault>
    ensures written { OnOk result (out.new.items ≡ out.old.items ++ ended (refused_line why)) }
    ensures refused { IfOk result (λ refused. (refused ≡ 1) × (why ≢ Refusal.NoMemory)) }
    ensures fault { IfErr result (λ fault. fault ≡ NoMemory) }
{
    if why == Refusal::NoMemory {
        return Err(PlayFault::NoMemory);
    }
    push_refused(out, why)?;
    out.extend_from_slice(b"\n")?;
    Ok(1)
}
