//! What goes between machines whose line may be broken.
ghost use Rattle.std.specs.Prelude.{◌≡◌, ℕ, ◌≤◌, nat_lt, List, length, true, Err, Ok, IfErr, IfOk, OnErr, if◌then◌else◌};
ghost use Rattle.roll_carry.specs.Carrying.{turned};
ghost use Rattle.roll_carry.specs.Mapping.{after_map, heard_straight};
ghost use Rattle.roll_carry.specs.Reading.{parcels_in as parcels_of};
ghost use Rattle.roll_carry.specs.Spelling.{datagram_of, IsParcel, ParcelValue, parcel_value};
ghost use Rattle.roll_carry.specs.declared.datagram.Hearing.{Hearing};
ghost use Rattle.roll_carry.specs.declared.limits.TheConstants.{AREA_LIMIT, TAIL_LEAST};
ghost use Rattle.roll_mesh.specs.Machines.{is_in};
ghost use Rattle.roll_peer.specs.Peered.{contact_at};
ghost use Rattle.roll_peer.specs.Sending.{can_carry};
ghost use Rattle.roll_peer.specs.Receiving.{byte_at, moment_of, sender_of};
ghost use Rattle.roll_peer.specs.Requests.{HearsBytes};
ghost use Rattle.roll_relay.specs.Relaying.{are_here, carriers_in, handing, has_carriers, hearing, is_of_lines, is_said, kind_of, map_in, opened_beside, parcels_in, ready_of, shut_of, taken_kind, text_in, Hears, HearsInside, HearsParcel, HearsParcels, HoldsParcels, IsUnheard};

use crate::heard::Heard;
use arrayvec::ArrayVec;
use roll_carry::{CARRIED, Carrier, Hearing, MAP, Parcel, first_parcel, read_map, read_parcels};
use roll_contact::seal::unseal;
use roll_mesh::MACHINE_LIMIT;
use roll_peer::{Ignored, MatchSettings, Peer, Received};
use roll_session::Networked;
use roll_wire::DATAGRAM_LIMIT;
use std::alloc::{AllocError, Global};
use std::marker::Model;

/// Where a datagram has its sender's number, its maker's, and its kind.
const SENDER_AT: usize = 12;

const KIND_AT: usize = 13;
/// How many machines a match has at most.
const MACHINES: u8 = 8;

/// A set of machines: a place for each.
type Machines = [bool; MACHINE_LIMIT];

/// What goes between machines of a match whose line may be broken. It stands beside the network of the match, which each call is lent:
/// give always the same one.
///
/// A program gives what came to `receive`, in the place of the peer's, makes a turn of the peer and then `turn`, sends what `send` makes
/// for each other machine, and then what `next` gives, until it gives nothing.
#[derive(Debug, Drop)]
pub struct Relay {
    pub(crate) carrier: Carrier,
}

/// A clause sees what is carried.
impl Model for Relay {
    ghost use Rattle.roll_carry.specs.Carrying.{Carrying};

    ghost Value = { Carrying };

    ghost view = { λ relay. relay.carrier };
}

impl Relay {
    /// Nobody is known to hear anybody. If the match isn't played so that machines carry for one another, or has two, nobody carries:
    /// then all goes straight.
    ///
    /// # Errors
    ///
    /// If there is no memory.
    pub fn open(alloc: Global, peer: &Peer) -> Result<Relay, AllocError>
        ensures { IfOk result (λ relay. relay ≡ opened_beside peer.now) }
    {
        let settings = peer.settings();
        let carriers = carriers_in(settings);
        let carrier = Carrier::new(alloc, settings.me, carriers)?;
        Ok(Relay { carrier })
    }

    /// Whether machines carry for this one.
    pub(crate) fn has_carriers(&self) -> bool
        ensures { result ≡ has_carriers self.now }
    {
        self.carrier.map().machines > 0
    }

    /// As which kind bytes are taken that came.
    fn taken_kind(&self, bytes: &[u8]) -> u8
        ensures { result ≡ taken_kind self.now bytes.now }
    {
        if self.has_carriers() {
            byte_of(bytes, KIND_AT)
        } else {
            0
        }
    }

    /// A turn begins, at the moment that the peer's clock shows.
    pub fn turn(&mut self, peer: &Peer)
        ensures { self.new ≡ turned (moment_of peer.now) self.old }
    {
        self.carrier.turn(peer.moment());
    }

    /// Hears bytes that came by the network, at a moment: a datagram of the match, which the peer hears; who hears whom; or what another
    /// machine carries. What is inside for this machine the peer hears as if it had come straight, and of what is for others at most
    /// one datagram goes on for each. It takes memory as the peer's `receive` does.
    ///
    /// A play that is newer than all before shows that the line works, if the machine that made it sent or gave it
    /// itself. What is for another machine is handed on unless its maker or that one is gone; a map, or what is
    /// carried, is dropped inside of what is carried.
    ///
    /// # Errors
    ///
    /// Why they weren't heard. Then nothing changed but what the peer's `receive` changes, and nothing at all if they
    /// were a map, or what a machine carries.
    pub fn receive<S: Networked>(
        &mut self,
        peer: &mut Peer,
        session: &mut S,
        bytes: &[u8],
        now: u32,
    ) -> Result<Heard, Ignored>
        ensures heard { IfOk result (Hears S.step now
            (record {
              beside = record { session = S.seen session.old; peer = peer.old };
              carrying = self.old;
            })
            (record {
              beside = record { session = S.seen session.new; peer = peer.new };
              carrying = self.new;
            })
            bytes.now) }
        ensures said { IfOk result
            (λ heard. is_said (taken_kind self.old bytes.now) heard ≡ true) }
        ensures ignored { IfErr result (IsUnheard S.step now (taken_kind self.old bytes.now)
            (record { session = S.seen session.old; peer = peer.old })
            (record { session = S.seen session.new; peer = peer.new }) bytes.now) }
        ensures unchanged { OnErr result (self.new ≡ self.old) }
        ensures session { OnErr result (session.new ≡ session.old) }
        ensures keeps { S.keeps session.old session.new }
    {
        match self.taken_kind(bytes) {
            MAP => self.receive_map(peer, bytes),
            CARRIED => self.receive_parcels(peer, session, bytes, now),
            _ => self.receive_straight(peer, session, bytes, now),
        }
    }

    /// A datagram that came straight.
    fn receive_straight<S: Networked>(
        &mut self,
        peer: &mut Peer,
        session: &mut S,
        bytes: &[u8],
        now: u32,
    ) -> Result<Heard, Ignored>
        ensures heard { IfOk result (λ heard. (received : Received)
            × (heard ≡ Heard.Straight received)
            × HearsBytes S.step (record { session = S.seen session.old; peer = peer.old })
            (record { session = S.seen session.new; peer = peer.new }) now bytes.now (Ok received)
            × (self.new ≡ hearing peer.old peer.new (sender_of bytes.now) self.old)) }
        ensures ignored { IfErr result (λ why. HearsBytes S.step
            (record { session = S.seen session.old; peer = peer.old })
            (record { session = S.seen session.new; peer = peer.new }) now bytes.now (Err why)) }
        ensures unchanged { OnErr result (self.new ≡ self.old) }
        ensures session { OnErr result (session.new ≡ session.old) }
        ensures keeps { S.keeps session.old session.new }
    {
        let sender = byte_of(bytes, SENDER_AT);
        let before = peer.after(sender);
        match peer.receive(session, bytes, now) {
            Ok(received) => {
                self.note_straight(peer, sender, before);
                Ok(Heard::Straight(received))
            }
            Err(why) => Err(why),
        }
    }

    /// What came straight was heard. It shows that the line works if it is a play that is newer than all before: whatever else comes may
    /// be old, and kept by somebody.
    fn note_straight(&mut self, peer: &Peer, machine: u8, before: u32)
        ensures { self.new ≡ (if nat_lt before (contact_at peer.now machine).after
            then record self.old { map = heard_straight machine (moment_of peer.now) self.old.map }
            else self.old) }
    {
        if before < peer.after(machine) {
            self.carrier.heard_straight(machine, peer.moment());
        }
    }

    /// What another machine tells of who hears whom.
    fn receive_map(&mut self, peer: &Peer, bytes: &[u8]) -> Result<Heard, Ignored>
        ensures heard { IfOk result (λ heard. (heard ≡ Heard.Map (sender_of bytes.now))
            × ((told : List Hearing) × (map_in peer.now bytes.now ≡ Ok told)
            × (self.new ≡ record self.old { map = after_map told self.old.map }))) }
        ensures ignored { IfErr result (λ why. map_in peer.now bytes.now ≡ Err why) }
        ensures unchanged { OnErr result (self.new ≡ self.old) }
    {
        let sender = byte_of(bytes, SENDER_AT);
        let told = map_in(peer, bytes)?;
        self.carrier.take_map(told.as_slice());
        Ok(Heard::Map { sender })
    }

    /// What another machine carries.
    fn receive_parcels<S: Networked>(
        &mut self,
        peer: &mut Peer,
        session: &mut S,
        bytes: &[u8],
        now: u32,
    ) -> Result<Heard, Ignored>
        ensures heard { IfOk result (λ heard. (heard ≡ Heard.Carried (sender_of bytes.now))
            × ((parcels : List ParcelValue) × HoldsParcels peer.old bytes.now parcels
            × HearsParcels S.step now (sender_of bytes.now)
            (record {
              beside = record { session = S.seen session.old; peer = peer.old };
              carrying = self.old;
            })
            parcels
            (record {
              beside = record { session = S.seen session.new; peer = peer.new };
              carrying = self.new;
            }))) }
        ensures ignored { IfErr result (λ why. parcels_in peer.old bytes.now ≡ Err why) }
        ensures unchanged { OnErr result (self.new ≡ self.old) }
        ensures peer { OnErr result (peer.new ≡ peer.old) }
        ensures session { OnErr result (session.new ≡ session.old) }
        ensures keeps { S.keeps session.old session.new }
    {
        let sender = byte_of(bytes, SENDER_AT);
        let text = text_in(peer, bytes)?;
        match read_parcels(&text) {
            Ok(area) => {
                self.hear_parcels(peer, session, sender, area, now);
                Ok(Heard::Carried { sender })
            }
            Err(fault) => Err(Ignored::NoDatagram(fault)),
        }
    }

    /// One parcel after another that a machine gave: those of this machine are heard, and any other handed on.
    fn hear_parcels<S: Networked>(
        &mut self,
        peer: &mut Peer,
        session: &mut S,
        sender: u8,
        area: &[u8],
        now: u32,
    )
        requires { length area.now ≤ AREA_LIMIT }
        ensures heard { HearsParcels S.step now sender
            (record {
              beside = record { session = S.seen session.old; peer = peer.old };
              carrying = self.old;
            })
            (parcels_of area.now)
            (record {
              beside = record { session = S.seen session.new; peer = peer.new };
              carrying = self.new;
            }) }
        ensures keeps { S.keeps session.old session.new }
    {
        if let Some((parcel, others)) = first_parcel(area) {
            self.hear_parcel(peer, session, sender, &parcel, now);
            self.hear_parcels(peer, session, sender, others, now);
        }
    }

    /// This machine's own parcel is heard, and any other handed on.
    fn hear_parcel<S: Networked>(
        &mut self,
        peer: &mut Peer,
        session: &mut S,
        sender: u8,
        parcel: &Parcel,
        now: u32,
    )
        requires { IsParcel (parcel_value parcel.now) }
        ensures heard { HearsParcel S.step now sender
            (record {
              beside = record { session = S.seen session.old; peer = peer.old };
              carrying = self.old;
            })
            (record {
              beside = record { session = S.seen session.new; peer = peer.new };
              carrying = self.new;
            })
            (parcel_value parcel.now) }
        ensures keeps { S.keeps session.old session.new }
    {
        if parcel.to == peer.settings().me {
            self.hear_own(peer, session, sender, parcel, now);
        } else {
            self.hand_on(peer, parcel);
        }
    }

    /// What a machine gave for this one is heard. Only the giver's own plays raise its number: if it rises, one has come straight.
    fn hear_own<S: Networked>(
        &mut self,
        peer: &mut Peer,
        session: &mut S,
        sender: u8,
        parcel: &Parcel,
        now: u32,
    )
        requires { IsParcel (parcel_value parcel.now) }
        ensures heard { HearsInside S.step now
            (is_of_lines (kind_of (datagram_of (parcel_value parcel.now))))
            (record { session = S.seen session.old; peer = peer.old })
            (record { session = S.seen session.new; peer = peer.new })
            (datagram_of (parcel_value parcel.now)) }
        ensures straight { self.new ≡ hearing peer.old peer.new sender self.old }
        ensures keeps { S.keeps session.old session.new }
    {
        let before = peer.after(sender);
        hear_inside(peer, session, &parcel.datagram(), now);
        self.note_straight(peer, sender, before);
    }

    /// A parcel for another machine is handed on, unless either end is gone.
    fn hand_on(&mut self, peer: &Peer, parcel: &Parcel)
        requires { IsParcel (parcel_value parcel.now) }
        ensures { self.new ≡ handing peer.now (parcel_value parcel.now) self.old }
    {
        if are_here(peer, parcel) {
            self.carrier.hand_on(&shut_of(peer), parcel);
        }
    }
}

/// How many machines of a match carry for one another.
fn carriers_in(settings: &MatchSettings) -> u8
    ensures number { result ≡ carriers_in settings.now }
    ensures few { result ≤ settings.now.machines }
{
    if settings.carries && settings.machines > 2 {
        settings.machines
    } else {
        0
    }
}

/// What was inside a parcel for this machine is heard, as if it had come straight. A map, or what is carried, isn't: its maker has none of
/// these carried, so whoever gave it would only have its maker look like a liar.
fn hear_inside<S: Networked>(peer: &mut Peer, session: &mut S, bytes: &[u8], now: u32)
    ensures heard { HearsInside S.step now (is_of_lines (kind_of bytes.now))
        (record { session = S.seen session.old; peer = peer.old })
        (record { session = S.seen session.new; peer = peer.new }) bytes.now }
    ensures keeps { S.keeps session.old session.new }
{
    match byte_of(bytes, KIND_AT) {
        MAP | CARRIED => {}
        _ => {
            let _ = peer.receive(session, bytes, now);
        }
    }
}

/// Whether the maker of a parcel and who it is for are both in the match, and not gone here.
fn are_here(peer: &Peer, parcel: &Parcel) -> bool
    requires { TAIL_LEAST ≤ length parcel.now.tail.now }
    ensures { result ≡ are_here peer.now (parcel_value parcel.now) }
{
    !peer.is_lost(parcel.maker()) && !peer.is_lost(parcel.to)
}

/// The machines with which this one hands on datagrams.
pub(crate) fn ready_of(peer: &Peer) -> Machines
    ensures ready { result ≡ ready_of peer.now }
    ensures each { (m : ℕ) → is_in result m ≡ true → can_carry peer.now m ≡ true }
{
    let mut ready = [false; MACHINE_LIMIT];
    for machine in 0..MACHINES {
        ready[usize::from(machine)] = peer.can_carry(machine);
    }
    ready
}

/// All others.
pub(crate) fn shut_of(peer: &Peer) -> Machines
    ensures { result ≡ shut_of peer.now }
{
    let mut shut = [false; MACHINE_LIMIT];
    for machine in 0..MACHINES {
        shut[usize::from(machine)] = !peer.can_carry(machine);
    }
    shut
}

/// What a machine that carries sealed as these bytes.
fn text_in(peer: &Peer, bytes: &[u8]) -> Result<ArrayVec<u8, DATAGRAM_LIMIT>, Ignored>
    ensures text { IfOk result (λ text. text_in peer.now bytes.now ≡ Ok text.items) }
    ensures ignored { IfErr result (λ why. text_in peer.now bytes.now ≡ Err why) }
{
    let Some(key) = peer.carried_key(byte_of(bytes, SENDER_AT)) else {
        return Err(Ignored::NotSealed);
    };
    match unseal(bytes, &key) {
        Some(text) => Ok(text),
        None => Err(Ignored::NotSealed),
    }
}

/// The map that bytes hold.
fn map_in(peer: &Peer, bytes: &[u8]) -> Result<ArrayVec<Hearing, MACHINE_LIMIT>, Ignored>
    ensures map { IfOk result (λ map. map_in peer.now bytes.now ≡ Ok map.items) }
    ensures ignored { IfErr result (λ why. map_in peer.now bytes.now ≡ Err why) }
{
    let text = text_in(peer, bytes)?;
    match read_map(&text) {
        Ok(map) => Ok(map),
        Err(fault) => Err(Ignored::NoDatagram(fault)),
    }
}

/// The byte at a place, 0 if there is none.
fn byte_of(bytes: &[u8], place: usize) -> u8
    ensures { result ≡ byte_at bytes.now place }
{
    if place < bytes.len() { bytes[place] } else { 0 }
}
