//! The slots for states elsewhere.
ghost use Rattle.std.specs.Prelude.{◌≡◌, ◌≤◌, ◌<◌, ◌||◌, ◌∷◌, [], ℕ, false, length, max, slice_set, true, All, IfNone, IfOk, IfSome};
ghost use Rattle.roll_requests.specs.Slotted.{free_slots, is_among, is_saved, is_taken, least_free, AreFree};
ghost use Rattle.roll_tree.specs.SavedStates.{Saved};

use crate::limits::SLOTS;
use arrayvec::ArrayVec;
use roll_frame::PATH_LIMIT;
use roll_tree::Tree;
use std::alloc::{AllocError, Global};
use std::marker::Model;

/// Which slots are taken, from slot 0 on.
#[derive(Drop)]
pub struct Taken {
    taken: Vec<bool>,
}

impl Model for Taken {
    ghost use Rattle.roll_requests.specs.declared.limits.TheConstants.{SLOTS};
    ghost use Rattle.std.specs.Prelude.{◌≤◌, length, vec_capacity, Bool, List};

    ghost Value = { List Bool };

    ghost view = { λ s. s.taken.items };

    ghost invariant = { λ s. (length s.taken.items ≤ SLOTS) × (SLOTS ≤ vec_capacity s.taken) };
}

impl Taken {
    /// No slots, with room for all.
    pub fn none(alloc: Global) -> Result<Taken, AllocError>
        ensures { IfOk result (λ slots. slots ≡ []) }
    {
        Ok(Taken {
            taken: Vec::with_capacity(alloc, SLOTS)?,
        })
    }

    /// The opening's slot is taken.
    pub fn opening(alloc: Global) -> Result<Taken, AllocError>
        ensures { IfOk result (λ slots. slots ≡ true ∷ []) }
    {
        let mut slots = Taken::none(alloc)?;
        slots.taken.push_reserved(true);
        Ok(slots)
    }

    /// As many slots as others, of which none is taken.
    pub fn clear_as(&mut self, others: &Taken)
        ensures many { length self.new ≡ length others.now }
        ensures none { (slot : ℕ) → is_taken self.new slot ≡ false }
    {
        self.taken.clear();
        self.lengthen(others.len());
    }

    /// How many there are up to the last that was ever taken.
    pub fn len(&self) -> usize
        ensures value { result ≡ length self.now }
        ensures few { result ≤ SLOTS }
    {
        self.taken.len()
    }

    /// Whether a slot is taken.
    pub fn has(&self, slot: u32) -> bool
        ensures { result ≡ is_taken self.now slot }
    {
        match self.taken.get(slot as usize) {
            Some(taken) => *taken,
            None => false,
        }
    }

    /// Takes a slot.
    pub fn fill(&mut self, slot: u32)
        requires { slot < length self.old }
        ensures { self.new ≡ slice_set self.old slot true }
    {
        self.taken[slot as usize] = true;
    }

    /// Takes these slots.
    pub fn fill_all(&mut self, slots: &[u32])
        requires { All (λ slot. slot < length self.old) slots.now }
        ensures filled { (slot : ℕ) → is_taken self.new slot
            ≡ (is_taken self.old slot || is_among slots.now slot) }
        ensures many { length self.new ≡ length self.old }
    {
        for slot in slots {
            self.fill(*slot);
        }
    }

    /// Takes the slots of the saved states.
    pub fn fill_saved(&mut self, tree: &Tree<u32>)
        requires { All (λ (u : Saved ℕ). u.snapshot < length self.old) tree.now.states }
        ensures filled { (slot : ℕ) → is_taken self.new slot
            ≡ (is_taken self.old slot || is_saved tree.now.states slot) }
        ensures many { length self.new ≡ length self.old }
    {
        tree.laws();
        let names = tree.names();
        for place in 0..names.len() {
            self.fill(*tree.get(names[place]));
        }
    }

    /// The first slots below a limit that aren't taken, or none if there are fewer.
    pub fn find(&self, count: usize, limit: u32) -> Option<ArrayVec<u32, PATH_LIMIT>>
        requires { count ≤ PATH_LIMIT }
        ensures many { IfSome result (λ slots. length slots.items ≡ count) }
        ensures free { IfSome result (λ slots. AreFree limit self.now slots.items) }
        ensures least { IfSome result
            (λ slots. slots.items ≡ least_free (is_taken self.now) limit count) }
        ensures short { IfNone result
            (length (free_slots (is_taken self.now) limit) < count) }
    {
        let mut slots = ArrayVec::new();
        for slot in 0..limit {
            if slots.len() == count {
                break;
            }
            if !self.has(slot) {
                slots.push(slot);
            }
        }
        if slots.len() == count {
            Some(slots)
        } else {
            None
        }
    }

    /// Makes places for these slots.
    pub fn reach(&mut self, slots: &[u32])
        requires { All (λ slot. slot < SLOTS) slots.now }
        ensures within { All (λ slot. slot < length self.new) slots.now }
        ensures same { (slot : ℕ) → is_taken self.new slot ≡ is_taken self.old slot }
        ensures many { length self.old ≤ length self.new }
    {
        for slot in slots {
            self.lengthen(*slot as usize + 1);
        }
    }

    /// Makes places for the slots below this one.
    fn lengthen(&mut self, len: usize)
        requires { len ≤ SLOTS }
        ensures many { length self.new ≡ max (length self.old) len }
        ensures same { (slot : ℕ) → is_taken self.new slot ≡ is_taken self.old slot }
    {
        for _ in self.taken.len()..len {
            self.taken.push_reserved(false);
        }
    }
}
