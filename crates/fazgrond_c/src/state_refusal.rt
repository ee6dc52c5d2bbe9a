//! The numbers of why no end of a state's transfer is opened, and of why it doesn't hear bytes.
ghost use Rattle.std.specs.Prelude.{◌≡◌, pos};
ghost use Rattle.fazgrond_c.specs.StateKinds.{code_of_end, code_of_state};

use roll_state::{StateFault, StateRefusal};

/// The number of why there is no giver of a state, or no taker.
pub fn code_of_end(why: StateFault) -> i32
    ensures { result ≡ pos (code_of_end why) }
{
    match why {
        StateFault::Empty => 11,
        StateFault::TooLong => 320,
        StateFault::NoMemory => 107,
    }
}

/// The number of why bytes weren't heard.
pub fn code_of_state(why: StateRefusal) -> i32
    ensures { result ≡ pos (code_of_state why) }
{
    match why {
        StateRefusal::NotSealed => 301,
        StateRefusal::NoDatagram(_) => 302,
        StateRefusal::Stranger => 303,
        StateRefusal::OtherKind => 314,
        StateRefusal::OtherState => 315,
        StateRefusal::Barred => 316,
        StateRefusal::NotNow => 317,
        StateRefusal::PastTheEnd => 318,
        StateRefusal::WrongLength => 319,
    }
}
