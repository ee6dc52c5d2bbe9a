//! A clock that never goes back.
ghost use Rattle.std.specs.Prelude.{◌≡◌};
ghost use Rattle.roll_contact.specs.Clocks.{first_clock, since, ticked};

/// Differences of two moments from here on are of a moment that lies before the other.
const AHEAD: u32 = 1 << 31;

/// How many milliseconds ago a moment was. None, if it is still to come: a difference of 2^31 or more is 0.
pub fn since(now: u32, moment: u32) -> u32
    ensures { result ≡ since now moment }
{
    let passed = now.wrapping_sub(moment);
    if passed < AHEAD { passed } else { 0 }
}

/// A program's clock as its connections see it, in milliseconds that begin anew after 2^32: if the program's clock goes back, this
/// one stands.
#[derive(Clone, Copy, Debug)]
pub struct Clock {
    /// The moment that it shows.
    pub moment: u32,
    /// What the program's own clock showed last.
    pub last: Option<u32>,
}

impl Clock {
    /// A clock that shows this moment until the program's own is read.
    pub fn new(moment: u32) -> Clock
        ensures { result ≡ first_clock moment }
    {
        Clock { moment, last: None }
    }

    /// The program's own clock shows this.
    pub fn tick(&mut self, now: u32) -> u32
        ensures ticked { self.new ≡ ticked now self.old }
        ensures moment { result ≡ self.new.moment }
    {
        let passed = match self.last {
            Some(last) => since(now, last),
            None => 0,
        };
        self.moment = self.moment.wrapping_add(passed);
        self.last = Some(now);
        self.moment
    }
}
