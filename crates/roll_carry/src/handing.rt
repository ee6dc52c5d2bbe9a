//! What is sent and handed on by others, and what goes out.
ghost use Rattle.std.specs.Prelude.{◌≡◌, ◌<◌, ◌≤◌, ◌&&◌, length, nat_lt, true, is_some, Some, IfSome};
ghost use Rattle.roll_carry.specs.Carrying.{after_carried, after_handed, after_joined, after_sent, after_taken, carried, first_waited_for, goes_at_once, has_broken_line, has_company, is_broken, is_direct, is_for_another, is_straight_due, is_waited_for, joins, waiting_for};
ghost use Rattle.roll_carry.specs.Reading.{IsArea};
ghost use Rattle.roll_carry.specs.Spelling.{maker_of, parcel_value};
ghost use Rattle.roll_carry.specs.Waiting.{has_place, lane_of};
ghost use Rattle.roll_carry.specs.declared.limits.TheConstants.{TAIL_LEAST, TAIL_LIMIT};
ghost use Rattle.roll_mesh.specs.Machines.{is_in};
ghost use Rattle.roll_mesh.specs.declared.limits.TheConstants.{MACHINE_LIMIT};
ghost use Rattle.std.specs.List.{slice_get};

use crate::carrier::Carrier;
use crate::datagram::Parcel;
use crate::limits::{AREA_LIMIT, STEP_LIMIT, STRAIGHT_AT, STRAIGHT_EVERY};
use crate::ways::{Machines, is_in};
use arrayvec::ArrayVec;
use roll_mesh::MACHINE_LIMIT;

impl Carrier {
    /// A parcel waits for who gets it next, if there is room for it. Says whether.
    fn wait(&mut self, hop: usize, parcel: &Parcel) -> bool
        requires least { TAIL_LEAST ≤ length parcel.now.tail.now }
        requires most { length parcel.now.tail.now ≤ TAIL_LIMIT }
        ensures waits { self.new ≡ waiting_for self.old hop (parcel_value parcel.now) }
        ensures said { result ≡ (nat_lt hop (length self.old.lanes) && has_place
            self.old.map.machines (lane_of self.old.lanes hop) (parcel_value parcel.now)) }
    {
        hop < self.lanes.len() && self.lanes[hop].push(parcel, self.map.machines)
    }

    /// A parcel waits for its carrier, if there is one.
    fn give(&mut self, maker: usize, hop: Option<usize>, parcel: &Parcel)
        requires maker { maker < MACHINE_LIMIT }
        requires least { TAIL_LEAST ≤ length parcel.now.tail.now }
        requires most { length parcel.now.tail.now ≤ TAIL_LIMIT }
        ensures { self.new ≡ carried self.old maker hop (parcel_value parcel.now) }
    {
        if let Some(hop) = hop {
            self.count(maker, usize::from(parcel.to));
            self.wait(hop, parcel);
        }
    }

    /// A datagram of this machine is for another: it is carried, if the line between the two isn't whole by the map.
    /// All machines that hear this one, and from which a way leads there by machines that aren't shut, carry in turn,
    /// those with fewer steps first; after every 16 datagrams of one maker for one receiver one carrier is passed over.
    pub fn carry(&mut self, shut: &[bool; MACHINE_LIMIT], to: u8, tail: &[u8])
        requires least { TAIL_LEAST ≤ length tail.now }
        requires most { length tail.now ≤ TAIL_LIMIT }
        ensures { self.new ≡ after_carried self.old shut.now to tail.now }
    {
        if self.map.is_whole_line(usize::from(to)) {
            return;
        }
        let me = self.me();
        let hop = self.carrier_for(me, shut, usize::from(to));
        let parcel = Parcel {
            to,
            steps: STEP_LIMIT,
            tail,
        };
        self.give(me, hop, &parcel);
    }

    /// Whether this machine's own datagram goes to another straight in this turn.
    fn is_straight_due(&self, shut: &Machines, to: u8) -> bool
        ensures { result ≡ is_straight_due self.now shut.now to }
    {
        let me = self.me();
        self.map.shows(usize::from(to), me)
            || (self.turns as usize + me) % STRAIGHT_EVERY == STRAIGHT_AT
            || self.carrier_for(me, shut, usize::from(to)).is_none()
    }

    /// Whether the line to a machine is broken with which this one carries.
    fn is_broken(&self, shut: &Machines, machine: u8) -> bool
        ensures { result ≡ is_broken self.now shut.now machine }
    {
        machine != self.map.me
            && !is_in(shut, usize::from(machine))
            && !self.map.is_whole_line(usize::from(machine))
    }

    /// Whether some line is.
    fn has_broken_line(&self, shut: &Machines) -> bool
        ensures { result ≡ has_broken_line self.now shut.now }
    {
        (0..self.map.machines).any(|machine| self.is_broken(shut, machine))
    }

    /// Whether something waits for a machine.
    fn holds_some(&self, hop: usize) -> bool
        ensures { result ≡ nat_lt 0 (length (lane_of self.now.lanes hop)) }
    {
        match self.lanes.get(hop) {
            Some(lane) => !lane.is_empty(),
            None => false,
        }
    }

    /// Whether something may wait for a machine with which what goes straight can go.
    fn has_company(&self, shut: &Machines, to: usize) -> bool
        ensures { result ≡ has_company self.now shut.now to }
    {
        self.holds_some(to) || self.has_broken_line(shut)
    }

    /// What goes straight to a machine waits for it, if something may be carried to it with which it can go. Says whether.
    fn join(&mut self, shut: &Machines, to: u8, tail: &[u8]) -> bool
        requires least { TAIL_LEAST ≤ length tail.now }
        requires most { length tail.now ≤ TAIL_LIMIT }
        ensures joined { self.new ≡ after_joined self.old shut.now to tail.now }
        ensures said { result ≡ joins self.old shut.now to tail.now }
    {
        let place = usize::from(to);
        if is_in(shut, place) || !self.has_company(shut, place) {
            return false;
        }
        self.wait(place, &Parcel { to, steps: 0, tail })
    }

    /// A datagram of this machine is for another: it is carried, if the line between the two isn't whole; and if it
    /// goes straight in this turn, it waits to go with what is carried to that machine, or is to go out at once. Says
    /// whether it is to go out at once. It goes straight in each turn if the other machine hears this one or nobody
    /// carries, and else in one of 17.
    pub fn send(&mut self, shut: &[bool; MACHINE_LIMIT], to: u8, tail: &[u8]) -> bool
        requires least { TAIL_LEAST ≤ length tail.now }
        requires most { length tail.now ≤ TAIL_LIMIT }
        ensures sent { self.new ≡ after_sent self.old shut.now to tail.now }
        ensures at_once { result ≡ goes_at_once self.old shut.now to tail.now }
    {
        let is_due = self.is_straight_due(shut, to);
        self.carry(shut, to, tail);
        is_due && !self.join(shut, to, tail)
    }

    /// Whether a parcel is for another machine of the match, and was made by a third one, and has steps left.
    fn is_for_another(&self, parcel: &Parcel) -> bool
        requires { TAIL_LEAST ≤ length parcel.now.tail.now }
        ensures for_another { result ≡ is_for_another self.now (parcel_value parcel.now) }
        ensures maker { result ≡ true → maker_of (parcel_value parcel.now) < MACHINE_LIMIT }
        ensures steps { result ≡ true → 0 < parcel.now.steps }
    {
        let maker = parcel.maker();
        0 < parcel.steps
            && parcel.steps <= STEP_LIMIT
            && parcel.to < self.map.machines
            && parcel.to != self.map.me
            && maker < self.map.machines
            && maker != self.map.me
            && maker != parcel.to
    }

    /// Whether the machine that a parcel is for gets it next.
    fn is_direct(&self, shut: &Machines, to: usize) -> bool
        ensures { result ≡ is_direct self.now shut.now to }
    {
        self.map.is_whole_line(to) && !is_in(shut, to)
    }

    /// A parcel that another machine gave this one is handed on with a step less, if it is for a third one and somebody gets it next.
    pub fn hand_on(&mut self, shut: &[bool; MACHINE_LIMIT], parcel: &Parcel)
        requires least { TAIL_LEAST ≤ length parcel.now.tail.now }
        requires most { length parcel.now.tail.now ≤ TAIL_LIMIT }
        ensures { self.new ≡ after_handed self.old shut.now (parcel_value parcel.now) }
    {
        if !self.is_for_another(parcel) {
            return;
        }
        let to = usize::from(parcel.to);
        let next = Parcel {
            to: parcel.to,
            steps: parcel.steps - 1,
            tail: parcel.tail,
        };
        if self.is_direct(shut, to) {
            self.wait(to, &next);
        } else {
            let maker = usize::from(parcel.maker());
            let hop = self.carrier_for(maker, shut, to);
            self.give(maker, hop, &next);
        }
    }

    /// Whether something waits for a machine that is ready.
    fn is_waited_for(&self, ready: &Machines, hop: usize) -> bool
        ensures { result ≡ is_waited_for self.now ready.now hop }
    {
        is_in(ready, hop) && self.holds_some(hop)
    }

    /// The first machine of these for which something waits.
    fn first_waited_for(&self, ready: &Machines) -> Option<usize>
        ensures first { result ≡ first_waited_for self.now ready.now }
        ensures place { IfSome result (λ hop. hop < length self.now.lanes) }
        ensures some { IfSome result (λ hop. 0 < length (lane_of self.now.lanes hop)) }
        ensures ready { IfSome result (λ hop. is_in ready.now hop ≡ true) }
    {
        for hop in 0..MACHINE_LIMIT {
            if self.is_waited_for(ready, hop) {
                return Some(hop);
            }
        }
        None
    }

    /// The bytes of the parcels of the oldest datagram that waits for the first of these machines. None if none waits for them.
    pub fn take(&mut self, ready: &[bool; MACHINE_LIMIT]) -> Option<(u8, ArrayVec<u8, AREA_LIMIT>)>
        ensures taken { self.new ≡ after_taken self.old (first_waited_for self.old ready.now) }
        ensures none { is_some result ≡ is_some (first_waited_for self.old ready.now) }
        ensures first { IfSome result (λ taken. (Some taken.0 ≡ first_waited_for self.old ready.now)
            × (slice_get (lane_of self.old.lanes taken.0) 0 ≡ Some taken.1.items)) }
        ensures area { IfSome result (λ taken. IsArea taken.1.items) }
        ensures ready { IfSome result (λ taken. is_in ready.now taken.0 ≡ true) }
    {
        let hop = self.first_waited_for(ready)?;
        let area = self.lanes[hop].pop()?;
        Some((hop as u8, area))
    }
}
