//! Sessions that take the calls of their own program.
ghost use Rattle.std.specs.Bool.{OnFalse, OnTrue};

use roll_frame::Reply;
use roll_game::Game;
use roll_requests::Elsewhere;
use roll_session::{Call, Request, Session};

/// A session that takes the calls of its own program, wherever its game is.
pub(crate) trait Plays {
    ghost use Rattle.roll_session.specs.declared.event.Call.{Call};

    /// What a call makes of it that is taken.
    ghost makes: { Self → Self → Call → Type 0 };

    /// What one makes of it that isn't.
    ghost declines: { Self → Self → Call → Type 0 };

    /// Makes a call, and says whether it was taken.
    fn make(&mut self, call: Call) -> bool
        ensures made { OnTrue result (makes self.old self.new call) }
        ensures declined { OnFalse result (declines self.old self.new call) };
}

impl Plays for Elsewhere {
    ghost use Rattle.roll_chain.specs.Calls.{DeclinesCall, MakesCall};

    ghost makes = { MakesCall };

    ghost declines = { DeclinesCall };

    fn make(&mut self, call: Call) -> bool {
        self.perform(call).is_ok()
    }
}

impl<G: Game> Plays for Session<G> {
    ghost use Rattle.roll_chain.specs.Calls.{DeclinesHere, MakesHere};

    ghost makes = { MakesHere G.step };

    ghost declines = { DeclinesHere G.step };

    fn make(&mut self, call: Call) -> bool {
        match self.perform(Request::Call(call)) {
            Ok(Reply::Refused(_)) => false,
            Ok(_) => true,
            Err(_) => false,
        }
    }
}
