//! The network of a match at one machine: the datagrams that it hears and sends, and what it knows by them.
ghost use Rattle.std.specs.Prelude.{◌≡◌, ◌≢◌, [], true, false, None, Some, IfErr, IfOk, OnErr, OnOk, slice_get};
ghost use Rattle.roll_member.specs.Beside.{IsOf};
ghost use Rattle.roll_member.specs.Joined.{join_refusal, IsTied};
ghost use Rattle.roll_mesh.specs.Machines.{leave};
ghost use Rattle.roll_mesh.specs.Meshes.{leave_refusal, stepped};
ghost use Rattle.roll_mesh.specs.declared.limits.TheConstants.{MACHINE_LIMIT};
ghost use Rattle.roll_frame.specs.Core.{settled};
ghost use Rattle.roll_peer.specs.Digests.{noted};
ghost use Rattle.roll_peer.specs.Events.{popped};
ghost use Rattle.roll_peer.specs.Peered.{contact_at, BeginsAs, IsOpenedAs, IsWhyNot};
ghost use Rattle.roll_peer.specs.Receiving.{meeting, IsOther};
ghost use Rattle.roll_peer.specs.Settings.{are_delayed_alike, has_numbers, seat_of};

use crate::comparison::Comparison;
use crate::cut_off::CutOff;
use crate::digests::Digests;
use crate::event::{Events, PeerEvent};
use crate::keys::sealers;
use crate::marking::KnownMarks;
use crate::opening::take_seat;
use crate::pace::Pace;
use crate::refusal::{OpenRefusal, OtherSession};
use crate::settings::MatchSettings;
use crate::stall::Stall;
use crate::strangers::Strangers;
use roll_contact::seal::Sealer;
use roll_contact::{Clock, Contact, Stage};
use roll_member::Member;
use roll_mesh::{MACHINE_LIMIT, Mesh, MeshRefusal, PLAYER_LIMIT};
use roll_session::{Networked, Settling};
use std::alloc::Global;
use std::marker::Model;

/// The network of a match at one machine: what it knows of the other machines, and what it has to tell its program. The session
/// stands beside it, with its game or without one, and is lent to the calls that need it: give always the same one, and tell it of
/// others by these calls alone. They tell it words of others, and that others leave, each as its rules have it, and a
/// `turn` makes one roll at most. Nothing else happens to it.
///
/// A program calls `receive` for each datagram that came, gives its players' words to the session once `is_running` says that the
/// match has begun, makes a `turn`, and sends what `send` makes for each other machine: all this some 60 times a second. All moments
/// are its own clock's, in milliseconds; the clock begins anew after 2^32. If it goes back, no time passes; if it jumps ahead, nobody
/// is gone before clocks that are sent after that had the time to come back.
#[derive(Drop)]
pub struct Peer {
    pub(crate) member: Member,
    pub(crate) settings: MatchSettings,
    pub(crate) clock: Clock,
    pub(crate) contacts: [Contact; MACHINE_LIMIT],
    pub(crate) stalls: [Stall; MACHINE_LIMIT],
    pub(crate) running: bool,
    pub(crate) known_gone: [bool; MACHINE_LIMIT],
    pub(crate) events: Events,
    pub(crate) digests: Digests,
    pub(crate) comparisons: [Comparison; MACHINE_LIMIT],
    pub(crate) pace: Pace,
    pub(crate) frame: u32,
    pub(crate) cut_off: CutOff,
    pub(crate) marks: KnownMarks,
    pub(crate) voids: [bool; PLAYER_LIMIT],
    pub(crate) disputes: [Option<u8>; MACHINE_LIMIT],
    pub(crate) opened: u32,
    pub(crate) strangers: Strangers,
    pub(crate) follows: bool,
    pub(crate) sealers: [Sealer; MACHINE_LIMIT],
    pub(crate) openers: [Sealer; MACHINE_LIMIT],
}

/// A clause sees all of it but what it keeps of the keys by which datagrams for each machine were sealed last, and those of it.
impl Model for Peer {
    ghost use Rattle.std.specs.Prelude.{◌≡◌, ◌<◌, ◌≤◌, true};
    ghost use Rattle.roll_mesh.specs.declared.limits.TheConstants.{MACHINE_LIMIT};
    ghost use Rattle.roll_peer.specs.Peered.{Peered};
    ghost use Rattle.roll_peer.specs.Settings.{seat_of};
    ghost use Rattle.roll_wire.specs.Spelling.{are_spelled};

    ghost Value = { Peered };

    ghost view = { λ p. record {
      member = p.member;
      settings = p.settings;
      clock = p.clock;
      contacts = p.contacts;
      stalls = p.stalls;
      running = p.running;
      waiting = p.events;
      known_gone = p.known_gone;
      digests = p.digests;
      comparisons = p.comparisons;
      pace = p.pace;
      frame = p.frame;
      cut_off = p.cut_off;
      marks = p.marks;
      voids = p.voids;
      disputes = p.disputes;
      opened = p.opened;
      strangers = p.strangers;
      follows = p.follows;
    } };

    ghost invariant = { λ p. (p.member.mesh.seat ≡ seat_of p.settings)
        × (p.settings.machines ≤ MACHINE_LIMIT) × (p.settings.me < p.settings.machines)
        × (are_spelled p.marks ≡ true) };
}

impl Peer {
    /// Opens the network of a match beside a session, which takes its seat in it. Nothing of the session changes, and its game isn't
    /// asked for anything.
    ///
    /// # Errors
    ///
    /// The first of these that holds: the settings have no draw; a number that they share with another machine is 0; there is no
    /// memory; the words of an input of this machine have not one delay; the session can't take its seat.
    pub fn open<S: Networked>(
        alloc: Global,
        session: &S,
        settings: MatchSettings,
    ) -> Result<Peer, OpenRefusal>
        ensures opened { IfOk result (IsOpenedAs (S.seen session.now) settings) }
        ensures tied { IfOk result (λ peer. IsTied (S.seen session.now) peer.member.mesh) }
        ensures begins { IfOk result (BeginsAs (S.seen session.now) settings []) }
        ensures accepted { OnOk result (join_refusal (S.seen session.now) (seat_of settings) ≡
            None) }
        ensures drawn { OnOk result (settings.draw ≢ 0) }
        ensures numbered { OnOk result (has_numbers settings ≡ true) }
        ensures delayed { OnOk result (are_delayed_alike (S.seen session.now).settings settings ≡
            true) }
        ensures refused { IfErr result (IsWhyNot (S.seen session.now) settings) }
    {
        if settings.draw == 0 {
            return Err(OpenRefusal::NoDraw);
        }
        if !settings.has_numbers() {
            return Err(OpenRefusal::NoNumber);
        }
        let Ok(pace) = Pace::new(alloc) else {
            return Err(OpenRefusal::NoMemory);
        };
        match take_seat(session, &settings) {
            Ok(member) => Ok(Peer {
                member,
                settings,
                clock: Clock::new(settings.first_moment()),
                contacts: [Contact::new(); MACHINE_LIMIT],
                stalls: [Stall::new(); MACHINE_LIMIT],
                running: false,
                known_gone: [false; MACHINE_LIMIT],
                events: Events::new(),
                digests: Digests::new(),
                comparisons: [Comparison::new(); MACHINE_LIMIT],
                pace,
                frame: session.frame(),
                cut_off: CutOff::new(),
                marks: [None; PLAYER_LIMIT],
                voids: [false; PLAYER_LIMIT],
                disputes: [None; MACHINE_LIMIT],
                opened: settings.first_moment(),
                strangers: Strangers::new(),
                follows: false,
                sealers: sealers(),
                openers: sealers(),
            }),
            Err(why) => Err(why),
        }
    }

    /// Regards a machine as gone, from now on and for ever.
    ///
    /// # Errors
    ///
    /// `InvalidMachine` if there is no such machine, `OwnMachine` if it is this one. Nothing is changed then.
    pub fn disconnect(&mut self, machine: u8) -> Result<(), MeshRefusal>
        ensures left { OnOk result (self.new ≡ record self.old {
          member = record self.old.member {
            mesh = stepped (λ seat here. leave seat machine here) self.old.member.mesh;
          };
        }) }
        ensures accepted { OnOk result (leave_refusal self.old.member.mesh machine ≡ None) }
        ensures refused { IfErr result
            (λ why. leave_refusal self.old.member.mesh machine ≡ Some why) }
        ensures unchanged { OnErr result (self.new ≡ self.old) }
    {
        self.member.leave(machine)
    }

    /// Notes the digest of the session's settled state, by which the machines see that they play the same game. It stays until
    /// that of a frame is noted which is a multiple of 256 frames later. One datagram in 64 to each machine tells the
    /// last one, if it is a play. While the first frame that differs is sought, each play tells one by which that is
    /// found, if it was noted.
    ///
    /// # Errors
    ///
    /// If the session isn't this match's. Nothing is changed then.
    pub fn note_settled<S: Settling>(
        &mut self,
        session: &S,
        digest: u64,
    ) -> Result<(), OtherSession>
        ensures noted { OnOk result (self.new ≡ record (meeting (S.seen session.now) self.old) {
          digests = noted (settled (S.seen session.now).core) digest self.old.digests;
        }) }
        ensures accepted { OnOk result (IsOf (S.seen session.now) self.old.member) }
        ensures other { OnErr result (IsOther (S.seen session.now) self.old) }
        ensures unchanged { OnErr result (self.new ≡ self.old) }
    {
        if !self.member.meet(session) {
            return Err(OtherSession);
        }
        self.digests.note(session.settled(), digest);
        Ok(())
    }

    /// Notes the digest of a state that the session has settled at a frame, for a program that holds words back: its session has
    /// settled less than the network knows. Else as `note_settled`.
    pub fn note_state_at(&mut self, frame: u32, digest: u64)
        ensures { self.new ≡ record self.old { digests = noted frame digest self.old.digests } }
    {
        self.digests.note(frame, digest);
    }

    /// What happened, the oldest first. If 64 events wait, the oldest of them is dropped for a new one.
    pub fn next_event(&mut self) -> Option<PeerEvent>
        ensures event { result ≡ slice_get self.old.waiting.events 0 }
        ensures rest { self.new ≡ record self.old { waiting = popped self.old.waiting } }
    {
        self.events.pop()
    }

    /// How far this machine and another have come to play with each other. `Silent` if there is no such machine.
    pub fn stage(&self, machine: u8) -> Stage
        ensures { result ≡ (contact_at self.now machine).stage }
    {
        match self.contacts.get(usize::from(machine)) {
            Some(contact) => contact.stage,
            None => Stage::Silent,
        }
    }

    /// Whether the match has begun: all machines that aren't gone had heard each other. Before that the session gets no words.
    pub fn is_running(&self) -> bool
        ensures { result ≡ self.now.running }
    {
        self.running
    }

    /// How many events were dropped, since 64 waited already.
    pub fn lost_events(&self) -> u32
        ensures { result ≡ self.now.waiting.lost }
    {
        self.events.lost()
    }

    /// What this machine knows of the others: who has how many words, and who is gone.
    pub fn mesh(&self) -> &Mesh
        ensures { result.now ≡ self.now.member.mesh }
    {
        self.member.mesh()
    }
}
