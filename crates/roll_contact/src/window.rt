//! The window of numbers.
ghost use Rattle.std.specs.Prelude.{◌≡◌, ℕ, List, [], ◌∷◌, replicate, length, true, false};
ghost use Rattle.roll_contact.specs.Windows.{IsWindowOf, after, all_after, answers_of, has, is_new, place_of};

/// A number is too old once one has been taken that is more than so many above it.
pub const REACH: u64 = 1_024;

/// How many numbers a run has: those from a multiple of 64 on.
const RUN: u64 = 64;

/// How many runs a window has places for: numbers within reach of one another touch 17 runs at most.
pub const PLACES: usize = 17;

/// Which numbers were taken, of those that are not too old. A window of zeros has taken none. What it has of older ones
/// doesn't matter: they are never taken.
#[derive(Clone, Copy, Debug)]
#[repr(C)]
pub struct Window {
    /// The highest number that was taken, 0 if none was.
    pub highest: u64,
    /// Which run of numbers each place has: a run's first number, divided by 64.
    pub runs: [u64; PLACES],
    /// The numbers that were taken of the run at each place, its first number's bit the lowest.
    pub bits: [u64; PLACES],
}

fn place_of(number: u64) -> usize
    ensures value { result ≡ place_of number }
{
    (number / RUN % PLACES as u64) as usize
}

impl Window {
    /// None was taken.
    pub fn new() -> Window
        ensures zeros { result
            ≡ record { highest = 0; runs = replicate PLACES 0; bits = replicate PLACES 0 } }
        ensures empty { IsWindowOf [] result }
    {
        Window {
            highest: 0,
            runs: [0; PLACES],
            bits: [0; PLACES],
        }
    }

    /// Whether a number is new: it wasn't taken, and none was taken that is over 1,024 above it.
    pub fn is_new(&self, number: u64) -> bool
        ensures { (taken : List ℕ) → IsWindowOf taken self.now → result ≡ is_new taken number }
    {
        self.highest.saturating_sub(number) <= REACH && !self.has(number)
    }

    fn has(&self, number: u64) -> bool
        ensures { result ≡ has self.now number }
    {
        let place = place_of(number);
        self.runs[place] == number / RUN && self.bits[place] >> (number % RUN) & 1 == 1
    }

    /// Takes a number, if it is new. Else nothing changes.
    pub fn note(&mut self, number: u64)
        ensures taken { (taken : List ℕ) → IsWindowOf taken self.old
            → IsWindowOf (after taken number) self.new }
        ensures refused { (taken : List ℕ) → IsWindowOf taken self.old
            → is_new taken number ≡ false → self.new ≡ self.old }
    {
        if self.is_new(number) {
            self.put(number);
        }
    }

    // Whatever else is at the number's place is too old.
    fn put(&mut self, number: u64)
        ensures { (taken : List ℕ) → IsWindowOf taken self.old → is_new taken number ≡ true
            → IsWindowOf (number ∷ taken) self.new }
    {
        let place = place_of(number);
        let run = number / RUN;
        let bits = if self.runs[place] == run {
            self.bits[place]
        } else {
            0
        };
        self.runs[place] = run;
        self.bits[place] = bits | 1 << (number % RUN);
        self.highest = self.highest.max(number);
    }

    /// Takes a number, if it is new, and says whether it did. Else nothing changes.
    pub fn take(&mut self, number: u64) -> bool
        ensures taken { (taken : List ℕ) → IsWindowOf taken self.old
            → IsWindowOf (after taken number) self.new }
        ensures answer { (taken : List ℕ) → IsWindowOf taken self.old
            → result ≡ is_new taken number }
        ensures refused { result ≡ false → self.new ≡ self.old }
    {
        let is_new = self.is_new(number);
        if is_new {
            self.put(number);
        }
        is_new
    }

    /// Takes numbers that came one after another, and says of each whether it was taken.
    pub fn take_all(&mut self, came: &[u64], answers: &mut [bool])
        requires { length answers.old ≡ length came.now }
        ensures taken { (taken : List ℕ) → IsWindowOf taken self.old
            → IsWindowOf (all_after taken came.now) self.new }
        ensures answers { (taken : List ℕ) → IsWindowOf taken self.old
            → answers.new ≡ answers_of taken came.now }
    {
        for (at, number) in came.iter().enumerate() {
            answers[at] = self.take(*number);
        }
    }
}
