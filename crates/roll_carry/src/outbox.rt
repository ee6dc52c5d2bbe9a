//! Parcels that wait to be sent.
ghost use Rattle.std.specs.Prelude.{◌≡◌, ◌≤◌, ◌*◌, [], length, drop, nat_eq, option_map, sum_by, true, Some, IfSome};
ghost use Rattle.roll_carry.specs.Waiting.{has_place, has_room, is_fair, made_by, place_for, pushed, put_at, share_of, waiting_of};
ghost use Rattle.roll_carry.specs.Reading.{parcels_in, IsArea};
ghost use Rattle.roll_carry.specs.Spelling.{parcel_value};
ghost use Rattle.roll_carry.specs.declared.limits.TheConstants.{AREA_LIMIT, TAIL_LEAST, TAIL_LIMIT, WAITING_LIMIT};
ghost use Rattle.std.specs.List.{slice_get};

use crate::datagram::Parcel;
use crate::limits::{AREA_LIMIT, LABEL, WAITING_LIMIT};
use crate::reading::made_by;
use crate::writing::push_parcel;
use arrayvec::ArrayVec;
use std::marker::Model;

pub(crate) type Area = ArrayVec<u8, AREA_LIMIT>;

/// The datagrams that wait for one machine, the oldest first: of each the bytes of its parcels.
#[derive(Debug, Drop)]
pub(crate) struct Lane {
    areas: ArrayVec<Area, WAITING_LIMIT>,
}

/// A clause sees their bytes.
impl Model for Lane {
    ghost use Rattle.std.specs.Prelude.{map, All};
    ghost use Rattle.roll_carry.specs.Reading.{IsArea};
    ghost use Rattle.roll_carry.specs.Waiting.{Lane as Areas};

    ghost Value = { Areas };

    ghost view = { λ lane. map (λ area. area.items) lane.areas.items };

    // They are parcels to the end.
    ghost invariant = { λ lane. All (λ area. IsArea area.items) lane.areas.items };
}

impl Lane {
    /// Nothing waits.
    pub(crate) fn new() -> Lane
        ensures { result ≡ [] }
    {
        Lane {
            areas: ArrayVec::new(),
        }
    }

    /// Whether nothing waits.
    pub(crate) fn is_empty(&self) -> bool
        ensures { result ≡ nat_eq (length self.now) 0 }
    {
        self.areas.is_empty()
    }

    /// Whether one of its datagrams has room for a parcel.
    fn has_room(&self, parcel: &Parcel, place: usize) -> bool
        requires { length parcel.now.tail.now ≤ TAIL_LIMIT }
        ensures { result ≡ has_room self.now (parcel_value parcel.now) place }
    {
        match self.areas.get(place) {
            Some(area) => area.len() + LABEL + parcel.tail.len() <= AREA_LIMIT,
            None => false,
        }
    }

    /// The first of its datagrams that has room for a parcel.
    fn place_for(&self, parcel: &Parcel) -> Option<usize>
        requires { length parcel.now.tail.now ≤ TAIL_LIMIT }
        ensures place { result ≡ place_for self.now (parcel_value parcel.now) }
        ensures room { IfSome result (λ place. has_room self.now (parcel_value parcel.now) place ≡
            true) }
    {
        (0..WAITING_LIMIT).find(|place| self.has_room(parcel, *place))
    }

    /// How many bytes of a maker's parcels wait.
    fn waiting_of(&self, maker: u8) -> usize
        ensures value { result ≡ waiting_of self.now maker }
        ensures few { result ≤ WAITING_LIMIT * AREA_LIMIT }
    {
        waiting_in(self.areas.as_slice(), maker)
    }

    /// Whether a parcel keeps within its maker's share in a match of so many machines, or none of that maker waits.
    #[tactic(auto, unfolding(crate::specs::Waiting::is_fair))]
    fn is_fair(&self, parcel: &Parcel, machines: u8) -> bool
        requires least { TAIL_LEAST ≤ length parcel.now.tail.now }
        requires most { length parcel.now.tail.now ≤ TAIL_LIMIT }
        requires machines { 2 ≤ machines }
        ensures { result ≡ is_fair machines self.now (parcel_value parcel.now) }
    {
        let waiting = self.waiting_of(parcel.maker());
        waiting == 0 || waiting + LABEL + parcel.tail.len() <= share_of(machines)
    }

    /// A parcel goes into one of its datagrams.
    fn add(&mut self, place: usize, parcel: &Parcel)
        requires least { TAIL_LEAST ≤ length parcel.now.tail.now }
        requires room { has_room self.old (parcel_value parcel.now) place ≡ true }
        ensures { self.new ≡ put_at self.old (parcel_value parcel.now) (Some place) }
    {
        push_parcel(&mut self.areas[place], parcel);
    }

    /// A parcel waits too, if that is fair in a match of so many machines and there is room for it. Says whether.
    pub(crate) fn push(&mut self, parcel: &Parcel, machines: u8) -> bool
        requires least { TAIL_LEAST ≤ length parcel.now.tail.now }
        requires most { length parcel.now.tail.now ≤ TAIL_LIMIT }
        requires machines { 2 ≤ machines }
        ensures lane { self.new ≡ pushed machines self.old (parcel_value parcel.now) }
        ensures said { result ≡ has_place machines self.old (parcel_value parcel.now) }
    {
        if !self.is_fair(parcel, machines) {
            return false;
        }
        if let Some(place) = self.place_for(parcel) {
            self.add(place, parcel);
            return true;
        }
        if self.areas.len() == WAITING_LIMIT {
            return false;
        }
        let mut area = Area::new();
        push_parcel(&mut area, parcel);
        self.areas.push(area);
        true
    }

    /// The oldest datagram, if one waits.
    pub(crate) fn pop(&mut self) -> Option<Area>
        ensures first { option_map (λ area. area.items) result ≡ slice_get self.old 0 }
        ensures area { IfSome result (λ area. IsArea area.items) }
        ensures rest { self.new ≡ drop 1 self.old }
    {
        if self.areas.is_empty() {
            None
        } else {
            Some(self.areas.remove(0))
        }
    }
}

/// How many bytes of one maker's parcels may wait for a machine in a match of so many.
fn share_of(machines: u8) -> usize
    requires { 2 ≤ machines }
    ensures { result ≡ share_of machines }
{
    WAITING_LIMIT * AREA_LIMIT / (usize::from(machines) - 1)
}

/// How many bytes of one maker's parcels are in some datagrams.
fn waiting_in(areas: &[Area], maker: u8) -> usize
    requires { length areas.now ≤ WAITING_LIMIT }
    ensures value { result ≡ sum_by (λ area. made_by maker (parcels_in area.items)) areas.now }
    ensures few { result ≤ length areas.now * AREA_LIMIT }
{
    let mut bytes = 0;
    for area in areas {
        bytes += made_by(area, maker);
    }
    bytes
}
