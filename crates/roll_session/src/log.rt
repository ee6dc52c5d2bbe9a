//! The log of a session: its accepted events, in 12 bytes each.
ghost use Rattle.std.specs.Prelude.{◌≡◌, ◌==◌, ℕ, List, ◌≤◌, ◌<◌, ◌+◌, ◌∷◌, ◌++◌, [], length, OnOk, OnErr, Some, option_map, slice_get};
ghost use Rattle.roll_frame.specs.declared.entry.Entry.TheVariants.{Graft as Grafts, Partial as Partials};
ghost use Rattle.roll_session.specs.Calls.{entry_of};
ghost use Rattle.roll_session.specs.Logs.{entry_in, logged_entry, IsWithin};
ghost use Rattle.roll_session.specs.declared.log.Origin.{Origin};

use crate::event::Call;
use roll_branch::PackedRoute;
use roll_frame::LOG_LIMIT;
use std::alloc::{AllocError, Global};
use std::marker::Model;

/// The accepted events of a session. An entry takes 12 bytes. What one of a branch takes besides lies apart, since a log
/// has many entries and few of these: 16 bytes, and its packed route.
#[derive(Drop)]
pub struct Log {
    slots: Vec<Slot>,
    grafts: Vec<Origin>,
}

/// An entry of a log.
#[derive(Clone, Copy, Debug)]
pub enum Logged<'a> {
    Call(Call),
    /// A branch was taken in: its job's number, and where it ran.
    Graft { ticket: u64, route: &'a PackedRoute },
    /// The game refused in a roll to a frame, after so many new states were saved.
    Partial { to: u32, made: u32 },
}

/// An entry as the log keeps it: a call, the place of a graft's origin, or a roll that the game cut short.
#[derive(Clone, Copy)]
enum Slot {
    Local { player: u8, word: u32 },
    Remote { player: u8, frame: u32, word: u32 },
    Disconnect { player: u8 },
    Sync,
    Advance,
    Graft { place: u32 },
    Partial { to: u32, made: u32 },
}

const _: () = prove!(size_of::<Slot>() == 12);

/// The number of a branch's job, and where the branch ran.
#[derive(Drop)]
struct Origin {
    ticket: u64,
    route: PackedRoute,
}

const _: () = prove!(size_of::<Origin>() == 16);

impl Model for Log {
    ghost use Rattle.roll_session.specs.Logs.{Filed, IsFiled, filed};

    ghost Value = { Filed };

    ghost view = { filed };

    ghost invariant = { IsFiled };
}

impl Log {
    /// No entry. It takes no memory.
    pub fn new(alloc: Global) -> Log
        ensures { result.entries ≡ [] }
    {
        Log {
            slots: Vec::new(alloc),
            grafts: Vec::new(alloc),
        }
    }

    /// How many entries there are.
    #[inline(always)]
    pub fn len(&self) -> usize
        ensures { result ≡ length self.now.entries }
    {
        self.slots.len()
    }

    /// Whether there is no entry.
    pub fn is_empty(&self) -> bool
        ensures { result ≡ (length self.now.entries == 0) }
    {
        self.slots.is_empty()
    }

    /// The entry of this place, counted from 0, if there is one.
    pub fn get(&self, place: usize) -> Option<Logged<'_>>
        ensures { option_map logged_entry result ≡ slice_get self.now.entries place }
    {
        if place < self.slots.len() {
            Some(self.at(place))
        } else {
            None
        }
    }

    /// The entry of this place.
    pub(crate) fn at(&self, place: usize) -> Logged<'_>
        requires { place < length self.now.entries }
        ensures { slice_get self.now.entries place ≡ Some (logged_entry result) }
    {
        match self.slots[place] {
            Slot::Local { player, word } => Logged::Call(Call::Local { player, word }),
            Slot::Remote {
                player,
                frame,
                word,
            } => Logged::Call(Call::Remote {
                player,
                frame,
                word,
            }),
            Slot::Disconnect { player } => Logged::Call(Call::Disconnect { player }),
            Slot::Sync => Logged::Call(Call::Sync),
            Slot::Advance => Logged::Call(Call::Advance),
            Slot::Graft { place } => {
                let origin = &self.grafts[place as usize];
                Logged::Graft {
                    ticket: origin.ticket,
                    route: &origin.route,
                }
            }
            Slot::Partial { to, made } => Logged::Partial { to, made },
        }
    }

    /// Makes room for so many entries more, whichever they are.
    #[inline(always)]
    pub fn reserve(&mut self, count: usize) -> Result<(), AllocError>
        ensures entries { self.new.entries ≡ self.old.entries }
        ensures kept { self.old.room ≤ self.new.room }
        ensures made { OnOk result (count ≤ self.new.room) }
        ensures short { OnErr result (self.old.room < count) }
    {
        self.slots.reserve(count)?;
        self.grafts.reserve(count)
    }

    /// Adds a call if there is room for it.
    #[inline(always)]
    pub fn add_call(&mut self, call: Call)
        requires { 1 ≤ self.old.room }
        ensures entries { self.new.entries ≡ self.old.entries ++ entry_of call ∷ [] }
        ensures room { self.old.room ≤ self.new.room + 1 }
    {
        self.slots.push_reserved(slot_of(call));
    }

    /// Adds a branch that was taken in, if there is room for it.
    pub fn add_graft(&mut self, ticket: u64, route: PackedRoute)
        requires room { 1 ≤ self.old.room }
        requires few { length self.old.entries ≤ LOG_LIMIT }
        ensures entries { self.new.entries ≡ self.old.entries ++ Grafts ticket route ∷ [] }
        ensures room { self.old.room ≤ self.new.room + 1 }
    {
        let place = self.grafts.len() as u32;
        self.grafts.push_reserved(Origin { ticket, route });
        self.slots.push_reserved(Slot::Graft { place });
    }

    /// Adds a roll that the game cut short, if there is room for it.
    pub fn add_partial(&mut self, to: u32, made: u32)
        requires { 1 ≤ self.old.room }
        ensures entries { self.new.entries ≡ self.old.entries ++ Partials to made ∷ [] }
        ensures room { self.old.room ≤ self.new.room + 1 }
    {
        self.slots.push_reserved(Slot::Partial { to, made });
    }
}

/// What a log keeps of a call.
#[inline(always)]
fn slot_of(call: Call) -> Slot
    ensures entry { (grafts : List Origin) → entry_in grafts result ≡ entry_of call }
    ensures within { (count : ℕ) → IsWithin count result }
{
    match call {
        Call::Local { player, word } => Slot::Local { player, word },
        Call::Remote {
            player,
            frame,
            word,
        } => Slot::Remote {
            player,
            frame,
            word,
        },
        Call::Disconnect { player } => Slot::Disconnect { player },
        Call::Sync => Slot::Sync,
        Call::Advance => Slot::Advance,
    }
}
