//! What a peer tells its caller, and the queue of it.
ghost use Rattle.std.specs.Prelude.{◌≡◌, ◌≤◌, [], length, pos, slice_get};
ghost use Rattle.roll_peer.specs.Codes.{code_of};
ghost use Rattle.roll_peer.specs.Events.{popped, pushed};
ghost use Rattle.roll_peer.specs.declared.event.TheConstants.{EVENT_LIMIT};

use roll_contact::Field;
use std::marker::Model;

/// A notification to the caller, as GGPO's events. Machines are counted from 0, players from 1.
#[derive(Clone, Copy, Debug, PartialEq, Eq)]
pub enum PeerEvent {
    /// A machine was heard of, and the match isn't played with it yet.
    Synchronizing {
        /// The machine.
        machine: u8,
        /// How many steps of synchronizing are done.
        count: u8,
        /// Of how many.
        total: u8,
    },
    /// This machine and another have heard each other, and mean the same match.
    Synchronized {
        /// The other machine.
        machine: u8,
    },
    /// The match begins: this machine is synchronized with all others.
    Running,
    /// The player is disconnected from now on.
    DisconnectedFromPeer {
        /// The player's number, from 1.
        player: u8,
    },
    /// This machine is ahead, and should wait for the others. At most one poll in 40 tells it, of those that find the
    /// session at another frame; it goes by the machine that this one was furthest ahead of at each of them.
    TimeSync {
        /// How many frames to wait.
        frames_ahead: u32,
    },
    /// A machine has been silent for a while.
    Interrupted {
        /// The machine.
        machine: u8,
        /// After how many milliseconds more of silence it is regarded as gone.
        disconnect_in: u32,
    },
    /// A machine that was silent was heard again.
    Resumed {
        /// The machine.
        machine: u8,
    },
    /// A machine has another state than this one at a frame that is settled at both: they don't play the same game. It is the first such
    /// frame, as far as both machines noted digests; or the least that was found 2 seconds after the first one was, or once the machine
    /// is gone. Told once of each machine in an epoch.
    Desync {
        /// The other machine.
        machine: u8,
        /// The frame.
        frame: u32,
    },
    /// A machine means another match than this one.
    Mismatch {
        /// The other machine.
        machine: u8,
        /// The first field that it has otherwise.
        field: Field,
    },
    /// Another machine regards this one as gone, or this one was cut off for too long: the match is over here. Told once in an epoch.
    Dropped,
    /// This machine hears too few of the others, and so calls nobody gone: either the network is split, and they are the larger part,
    /// or it hears nobody.
    CutOff {
        /// After how many milliseconds more the match is over here, which `Dropped` tells.
        over_in: u32,
    },
    /// A machine is regarded as gone from now on: it said bye, or was silent or gave no words for too long, or others regard it as
    /// gone.
    Left {
        /// The machine.
        machine: u8,
        /// Why it left, as its bye said; 0 if none was heard.
        bye: u8,
    },
    /// A machine was opened anew in the middle of the match. It can't come back to it: its first opening is silent from now on. Told
    /// once of each machine.
    Restarted {
        /// The machine.
        machine: u8,
    },
    /// A machine holds up the match: it gives no words, though it could and this one waits for them, or takes none of this one's, or
    /// stays in the epoch before.
    Stalled {
        /// The machine.
        machine: u8,
        /// After how many milliseconds more it is regarded as gone, 0 if it isn't at all.
        disconnect_in: u32,
    },
    /// Something that a machine sealed was refused, or words of it. Told once of each machine; its statistics count the others.
    Refused {
        /// The machine.
        machine: u8,
    },
    /// A machine knows another mark of a player than this machine: the player's machine told it in two ways, or one of those that tell of
    /// it lies. Told once of each machine in a match.
    TwoMarks {
        /// The machine.
        machine: u8,
        /// The player's number, from 1.
        player: u8,
    },
    /// A machine hasn't come so far. The match waits for it.
    Missing {
        /// The machine.
        machine: u8,
    },
    /// A machine hasn't come so far, and hellos have that aren't of this match: their machines mean another match, or have another
    /// version, or one of them has this one's place.
    Strangers {
        /// How many of them came since this network was opened.
        count: u32,
    },
}

impl PeerEvent {
    /// The event's number: that of `ggponet.h`, or one above 1100 if there is none.
    pub fn code(&self) -> i32
        ensures { result ≡ pos (code_of self.now) }
    {
        match self {
            PeerEvent::Synchronizing { .. } => 1001,
            PeerEvent::Synchronized { .. } => 1002,
            PeerEvent::Running => 1003,
            PeerEvent::DisconnectedFromPeer { .. } => 1004,
            PeerEvent::TimeSync { .. } => 1005,
            PeerEvent::Interrupted { .. } => 1006,
            PeerEvent::Resumed { .. } => 1007,
            PeerEvent::Left { .. } => 1101,
            PeerEvent::Desync { .. } => 1102,
            PeerEvent::Mismatch { .. } => 1103,
            PeerEvent::Dropped => 1104,
            PeerEvent::Restarted { .. } => 1105,
            PeerEvent::Stalled { .. } => 1106,
            PeerEvent::Refused { .. } => 1107,
            PeerEvent::Missing { .. } => 1108,
            PeerEvent::CutOff { .. } => 1109,
            PeerEvent::Strangers { .. } => 1110,
            PeerEvent::TwoMarks { .. } => 1111,
        }
    }
}

/// The most events that wait.
const EVENT_LIMIT: usize = 64;

/// Events that wait for the caller, the oldest first, and how many were dropped.
#[derive(Drop)]
pub(crate) struct Events {
    events: [PeerEvent; EVENT_LIMIT],
    count: usize,
    lost: u32,
}

/// A clause sees the events that wait, and the count of the lost ones.
impl Model for Events {
    ghost use Rattle.std.specs.Prelude.{◌≤◌, take};
    ghost use Rattle.roll_peer.specs.Waiting.{Waiting};
    ghost use Rattle.roll_peer.specs.declared.event.TheConstants.{EVENT_LIMIT};

    ghost Value = { Waiting };

    ghost view = { λ e. record { events = take e.count e.events; lost = e.lost } };

    ghost invariant = { λ e. e.count ≤ EVENT_LIMIT };
}

impl Events {
    /// No event waits.
    pub(crate) fn new() -> Events
        ensures { result ≡ record { events = []; lost = 0 } }
    {
        Events {
            events: [PeerEvent::Running; EVENT_LIMIT],
            count: 0,
            lost: 0,
        }
    }

    /// The same events wait, in the network of the next epoch.
    pub(crate) fn copy(&self) -> Events
        ensures { result ≡ self.now }
    {
        Events {
            events: self.events,
            count: self.count,
            lost: self.lost,
        }
    }

    /// One more event waits. If 64 waited already, the oldest of them is dropped.
    pub(crate) fn push(&mut self, event: PeerEvent)
        ensures pushed { self.new ≡ pushed self.old event }
        ensures few { length self.new.events ≤ EVENT_LIMIT }
    {
        if self.count < EVENT_LIMIT {
            self.events[self.count] = event;
            self.count += 1;
        } else {
            self.events.rotate_left(1);
            self.events[EVENT_LIMIT - 1] = event;
            self.lost = self.lost.saturating_add(1);
        }
    }

    /// Takes the oldest event, if one waits.
    pub(crate) fn pop(&mut self) -> Option<PeerEvent>
        ensures event { result ≡ slice_get self.old.events 0 }
        ensures rest { self.new ≡ popped self.old }
    {
        if self.count == 0 {
            return None;
        }
        let event = self.events[0];
        self.events.rotate_left(1);
        self.count -= 1;
        Some(event)
    }

    /// How many events were dropped.
    pub(crate) fn lost(&self) -> u32
        ensures { result ≡ self.now.lost }
    {
        self.lost
    }
}
