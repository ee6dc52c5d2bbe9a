//! What C sees of a state that is sent in pieces.
ghost use Rattle.std.specs.Prelude.{◌≡◌};
ghost use Rattle.fazgrond_c.specs.StateKinds.{heard_out, name_in, name_out};

use roll_state::{Heard, StateName};

/// No machine has this number.
pub const NO_MACHINE: u8 = 255;

/// What a state is called.
#[repr(C)]
#[derive(Drop)]
pub struct NameOut {
    pub which: u64,
    pub frame: u32,
    pub length: u32,
    pub digest: [u8; 32],
}

impl NameOut {
    /// The name of a state.
    pub fn of(name: &StateName) -> NameOut
        ensures { result ≡ name_out name.now }
    {
        NameOut {
            which: name.which,
            frame: name.frame,
            length: name.length,
            digest: name.digest,
        }
    }

    /// The name that was given.
    pub fn name(&self) -> StateName
        ensures { result ≡ name_in self.now }
    {
        StateName {
            which: self.which,
            frame: self.frame,
            length: self.length,
            digest: self.digest,
        }
    }
}

/// What came of a piece, and the machine that alone gave a wrong state; 255 if there is none.
#[repr(C)]
#[derive(Drop)]
pub struct HeardOut {
    pub what: u32,
    pub machine: u32,
}

impl HeardOut {
    /// What came of a piece.
    pub fn of(heard: Heard) -> HeardOut
        ensures { result ≡ heard_out heard }
    {
        let (what, machine) = match heard {
            Heard::Again => (1, NO_MACHINE),
            Heard::Taken => (2, NO_MACHINE),
            Heard::Whole => (3, NO_MACHINE),
            Heard::Wrong(sole) => (4, sole.unwrap_or(NO_MACHINE)),
        };
        HeardOut {
            what,
            machine: u32::from(machine),
        }
    }
}

/// How many pieces a state has, and how many of them are missing.
#[repr(C)]
#[derive(Drop)]
pub struct TakerOut {
    pub pieces: usize,
    pub left: usize,
}
