//! The calls of a session of a game elsewhere, each with its reply.
ghost use Rattle.std.specs.Prelude.{◌≡◌, IfErr, IfOk};
ghost use Rattle.roll_requests.specs.Made.{IsMade, IsNotMade, KeepsLeading};
ghost use Rattle.roll_session.specs.Calls.{input_reply, IsInput};

use crate::declined::Declined;
use crate::elsewhere::Elsewhere;
use roll_frame::Reply;
use roll_session::{Call, Heard, Networked, Reached};

impl Elsewhere {
    /// Makes a call, and answers its reply.
    ///
    /// # Errors
    ///
    /// As of the call of a session; `NoSlots` if it rolls and too few slots are free. Nothing is changed, but for what is reserved.
    pub fn perform(&mut self, call: Call) -> Result<Reply, Declined>
        ensures made { IfOk result (IsMade self.old self.new call) }
        ensures declined { IfErr result (IsNotMade self.old self.new call) }
        ensures leads { KeepsLeading self.old self.new }
    {
        match call {
            Call::Sync => self.synchronize(),
            Call::Advance => self.advance(),
            _ => self.hear(call),
        }
    }

    fn synchronize(&mut self) -> Result<Reply, Declined>
        ensures made { IfOk result (IsMade self.old self.new Call.Sync) }
        ensures declined { IfErr result (IsNotMade self.old self.new Call.Sync) }
        ensures leads { KeepsLeading self.old self.new }
    {
        self.core().laws();
        let row = self.row(self.frame());
        self.roll(Call::Sync)?;
        Ok(Reply::Synchronized(row))
    }

    fn advance(&mut self) -> Result<Reply, Declined>
        ensures made { IfOk result (IsMade self.old self.new Call.Advance) }
        ensures declined { IfErr result (IsNotMade self.old self.new Call.Advance) }
        ensures leads { KeepsLeading self.old self.new }
    {
        let Reached { frame, from, rerun } = self.roll(Call::Advance)?;
        Ok(Reply::Reached { frame, from, rerun })
    }

    fn hear(&mut self, call: Call) -> Result<Reply, Declined>
        requires { IsInput call }
        ensures made { IfOk result (IsMade self.old self.new call) }
        ensures declined { IfErr result (IsNotMade self.old self.new call) }
        ensures leads { KeepsLeading self.old self.new }
    {
        let heard = self.take(call)?;
        Ok(reply_to(call, heard))
    }
}

/// The reply to an input that was taken, or taken before.
fn reply_to(call: Call, heard: Heard) -> Reply
    ensures { result ≡ input_reply call heard }
{
    match (call, heard) {
        (Call::Remote { .. }, Heard::Taken) => Reply::Taken,
        (Call::Remote { .. }, Heard::Repeated) => Reply::Repeated,
        (Call::Disconnect { player }, _) => Reply::Disconnected { player },
        _ => Reply::Done,
    }
}
