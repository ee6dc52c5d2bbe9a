//! The numbers of why no end of a line is opened, and of why it doesn't hear bytes.
ghost use Rattle.std.specs.Prelude.{◌≡◌, pos};
ghost use Rattle.fazgrond_c.specs.LineKinds.{code_of_fault, code_of_line};

use roll_viewer::{LineFault, LineRefusal};

/// The number of why no end of a line was opened.
pub fn code_of_fault(why: LineFault) -> i32
    ensures { result ≡ pos (code_of_fault why) }
{
    match why {
        LineFault::NoDraw => 11,
        LineFault::Machines | LineFault::Host => 303,
        LineFault::NoMemory => 107,
    }
}

/// The number of why an end of a line didn't hear bytes.
pub fn code_of_line(why: LineRefusal) -> i32
    ensures { result ≡ pos (code_of_line why) }
{
    match why {
        LineRefusal::NotSealed => 301,
        LineRefusal::NoDatagram(_) => 302,
        LineRefusal::Mismatched(_) => 306,
        LineRefusal::Ended => 308,
        LineRefusal::Stranger => 309,
        LineRefusal::NoRows => 310,
        LineRefusal::Gap => 311,
    }
}
