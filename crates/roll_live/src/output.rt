//! What is written of a session that is played live.
ghost use Rattle.std.specs.Prelude.{◌≡◌, ◌++◌, IfErr, OnOk};
ghost use Rattle.roll_session.specs.Seen.{game_of};
ghost use Rattle.roll_text.specs.Lines.{ended};
ghost use Rattle.roll_live.specs.Told.{live_line, state_line};

use prog_scripts::{PlayFault, push_named, push_reply};
use roll_frame::Reply;
use roll_game::Shown;
use roll_session::Session;

/// Writes the line of a reply.
///
/// # Errors
///
/// `NoMemory` if the allocator has no room, or if the game refuses the text of its state. A part of the line may stand written.
pub fn push_line<G: Shown>(
    out: &mut Vec<u8>,
    session: &Session<G>,
    reply: Reply,
) -> Result<(), PlayFault>
    ensures written { OnOk result
        (out.new.items ≡ out.old.items
        ++ ended (live_line G.text_of (game_of G.step session.now) session.now.core reply)) }
    ensures fault { IfErr result (λ fault. fault ≡ PlayFault.NoMemory) }
{
    match reply {
        Reply::Synchronized(_) | Reply::Reached { .. } => {
            push_state(out, session)?;
            out.extend_from_slice(b"\n")?;
            Ok(())
        }
        _ => push_reply(out, session, reply),
    }
}

/// Writes the frame and the state, without the line's end.
fn push_state<G: Shown>(out: &mut Vec<u8>, session: &Session<G>) -> Result<(), PlayFault>
    ensures written { OnOk result
        (out.new.items ≡ out.old.items
        ++ state_line G.text_of (game_of G.step session.now) session.now.core) }
    ensures fault { IfErr result (λ fault. fault ≡ PlayFault.NoMemory) }
{
    let Some(state) = session.current() else {
        return Ok(());
    };
    push_named(out, b"frame ", session.frame())?;
    out.extend_from_slice(b" state ")?;
    session.game().text(state, out)?;
    Ok(())
}
