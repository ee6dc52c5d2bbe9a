//! Jobs that are carried out late.
ghost use Rattle.std.specs.Prelude.{List};
ghost use Rattle.roll_frame.specs.Games.{Value};
ghost use Rattle.roll_session.specs.Seen.{Step};
ghost use Rattle.roll_requests.specs.Carried.{Elsewhere};
ghost use Rattle.roll_requests.specs.Late.{MayWait};
ghost use Rattle.roll_requests.specs.Slotted.{Guessed};
ghost use Rattle.roll_requests.specs.declared.request.Request.{Request};

/// A job may be carried out when it suits, on any thread: what was asked since it was asked for comes to the same without it, and
/// it comes to the same after that.
pub fn jobs_may_wait()
    ensures { (step : Step) (there : Elsewhere Value) (job : Guessed) (requests : List Request)
        → MayWait step there job requests }
{}
