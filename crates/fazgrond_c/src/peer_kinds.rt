//! What C sees of a match.
ghost use Rattle.std.specs.Prelude.{◌≡◌, ◌≤◌, ◌<◌, ℕ, IfErr, IfNone, IfOk, IfSome, slice_index};
ghost use Rattle.roll_mesh.specs.declared.limits.TheConstants.{PLAYER_LIMIT as PLAYERS};
ghost use Rattle.fazgrond_c.specs.PeerKinds.{bare, event_out, field_out, stats_out, AreMatched, HasNoRoom};

use roll_frame::PLAYER_LIMIT;
use roll_mesh::MACHINE_LIMIT;
use roll_peer::{Field, MatchSettings, PeerEvent, Stats};
use roll_relay::TURN_LIMIT;

/// How many bytes `MatchIn` takes.
pub const MATCH_SIZE: u32 = 168;

const _: () = prove!(size_of::<MatchIn>() == 168);

/// How a peer is opened beside a session.
#[repr(C)]
#[derive(Drop)]
pub struct MatchIn {
    /// That of this struct.
    pub size: u32,
    pub numbers: [u64; MACHINE_LIMIT],
    pub draw: u64,
    pub digest: u64,
    /// A digest of the opening state.
    pub opening: u64,
    /// By what it is known who may come to a match that goes on; 0: anybody may.
    pub comers: u64,
    pub me: u32,
    pub machines: u32,
    pub owners: [u32; PLAYER_LIMIT],
    pub silent_after: u32,
    pub notify_after: u32,
    pub stalled_after: u32,
    pub words: u32,
    /// For how many turns at most words are held back; 0: they aren't.
    pub held_turns: u32,
}

impl MatchIn {
    /// The match, if each number has room where it belongs. A machine that carries says so of two machines too: they may become more.
    pub fn settings(&self, carries: bool) -> Option<MatchSettings>
        ensures matched { IfSome result (AreMatched self.now carries) }
        ensures none { IfNone result (HasNoRoom self.now) }
    {
        let (Ok(me), Ok(machines)) = (u8::try_from(self.me), u8::try_from(self.machines)) else {
            return None;
        };
        let Ok(words) = u8::try_from(self.words) else {
            return None;
        };
        if self.held_turns as usize > TURN_LIMIT {
            return None;
        }
        let owners = bytes_of(&self.owners)?;
        Some(MatchSettings {
            me,
            machines,
            owners,
            numbers: self.numbers,
            draw: self.draw,
            digest: self.digest,
            opening: self.opening,
            silent_after: self.silent_after,
            notify_after: self.notify_after,
            stalled_after: self.stalled_after,
            carries,
            takes_marks: false,
            words,
        })
    }
}

/// Numbers as bytes, if each is one.
pub fn bytes_of(numbers: &[u32; PLAYER_LIMIT]) -> Option<[u8; PLAYER_LIMIT]>
    ensures bytes { IfSome result (λ bytes. bytes ≡ numbers.now) }
    ensures none { IfNone result ((p : ℕ) × (256 ≤ slice_index numbers.now p)) }
{
    narrow(numbers).ok()
}

/// Numbers as bytes, or the place of one that isn't.
pub fn narrow(numbers: &[u32; PLAYER_LIMIT]) -> Result<[u8; PLAYER_LIMIT], u32>
    ensures bytes { IfOk result (λ bytes. bytes ≡ numbers.now) }
    ensures inside { IfErr result (λ place. place < PLAYERS) }
    ensures large { IfErr result (λ place. 256 ≤ slice_index numbers.now place) }
{
    let mut bytes = [0; PLAYER_LIMIT];
    for place in 0..PLAYER_LIMIT {
        let Ok(byte) = u8::try_from(numbers[place]) else {
            return Err(place as u32);
        };
        bytes[place] = byte;
    }
    Ok(bytes)
}

/// An event: its code, and what it says. What it doesn't say is 0.
#[repr(C)]
#[derive(Drop)]
pub struct EventOut {
    pub code: u32,
    pub machine: u32,
    pub player: u32,
    pub count: u32,
    pub total: u32,
    pub frames_ahead: u32,
    pub disconnect_in: u32,
    pub frame: u32,
    pub field: u32,
    pub bye: u32,
}

impl EventOut {
    /// An event.
    pub fn of(event: &PeerEvent) -> EventOut
        ensures { result ≡ event_out event.now }
    {
        match *event {
            PeerEvent::Synchronizing {
                machine,
                count,
                total,
            } => EventOut::after_steps(machine, count, total),
            PeerEvent::Synchronized { machine } => EventOut::by(1002, machine),
            PeerEvent::Running => EventOut::bare(1003),
            PeerEvent::DisconnectedFromPeer { player } => EventOut {
                player: u32::from(player),
                ..EventOut::bare(1004)
            },
            PeerEvent::TimeSync { frames_ahead } => EventOut {
                frames_ahead,
                ..EventOut::bare(1005)
            },
            PeerEvent::Interrupted {
                machine,
                disconnect_in,
            } => EventOut::before_end(1006, machine, disconnect_in),
            PeerEvent::Resumed { machine } => EventOut::by(1007, machine),
            PeerEvent::Left { machine, bye } => EventOut {
                bye: u32::from(bye),
                ..EventOut::by(1101, machine)
            },
            PeerEvent::Desync { machine, frame } => EventOut {
                frame,
                ..EventOut::by(1102, machine)
            },
            PeerEvent::Mismatch { machine, field } => EventOut {
                field: number_of(field),
                ..EventOut::by(1103, machine)
            },
            PeerEvent::Dropped => EventOut::bare(1104),
            PeerEvent::Restarted { machine } => EventOut::by(1105, machine),
            PeerEvent::Stalled {
                machine,
                disconnect_in,
            } => EventOut::before_end(1106, machine, disconnect_in),
            PeerEvent::Refused { machine } => EventOut::by(1107, machine),
            PeerEvent::Missing { machine } => EventOut::by(1108, machine),
            PeerEvent::CutOff { over_in } => EventOut {
                disconnect_in: over_in,
                ..EventOut::bare(1109)
            },
            PeerEvent::Strangers { count } => EventOut {
                count,
                ..EventOut::bare(1110)
            },
            PeerEvent::TwoMarks { machine, player } => EventOut {
                player: u32::from(player),
                ..EventOut::by(1111, machine)
            },
        }
    }

    /// One that says nothing but its code.
    fn bare(code: u32) -> EventOut
        ensures { result ≡ bare code }
    {
        EventOut {
            code,
            machine: 0,
            player: 0,
            count: 0,
            total: 0,
            frames_ahead: 0,
            disconnect_in: 0,
            frame: 0,
            field: 0,
            bye: 0,
        }
    }

    /// One that says a machine.
    fn by(code: u32, machine: u8) -> EventOut
        ensures { result ≡ record (bare code) { machine = machine } }
    {
        EventOut {
            machine: u32::from(machine),
            ..EventOut::bare(code)
        }
    }

    /// One that says how far it is with a machine.
    fn after_steps(machine: u8, count: u8, total: u8) -> EventOut
        ensures { result ≡ record (bare 1001) { machine = machine; count = count; total = total } }
    {
        EventOut {
            count: u32::from(count),
            total: u32::from(total),
            ..EventOut::by(1001, machine)
        }
    }

    /// One that says when a machine is gone.
    fn before_end(code: u32, machine: u8, disconnect_in: u32) -> EventOut
        ensures { result ≡ record (bare code) { machine = machine; disconnect_in = disconnect_in } }
    {
        EventOut {
            disconnect_in,
            ..EventOut::by(code, machine)
        }
    }
}

/// The number of a field that two machines have otherwise.
fn number_of(field: Field) -> u32
    ensures { result ≡ field_out field }
{
    match field {
        Field::Machines => 1,
        Field::Owners => 2,
        Field::Settings => 3,
        Field::Words => 4,
        Field::Lasting => 5,
        Field::Opening => 6,
    }
}

/// What was counted and measured of a machine.
#[repr(C)]
#[derive(Drop)]
pub struct StatsOut {
    pub is_measured: u32,
    pub round_trip: u32,
    pub sent: u32,
    pub received: u32,
    pub lost: u32,
    pub words_queued: u32,
    pub frames_behind: i32,
    pub their_frames_behind: i32,
    pub refused: u32,
    pub dropped: u32,
    pub restarted: u32,
}

impl StatsOut {
    /// What was counted.
    pub fn of(stats: &Stats) -> StatsOut
        ensures { result ≡ stats_out stats.now }
    {
        StatsOut {
            is_measured: u32::from(stats.round_trip.is_some()),
            round_trip: stats.round_trip.unwrap_or(0),
            sent: stats.sent,
            received: stats.received,
            lost: stats.lost,
            words_queued: stats.words_queued,
            frames_behind: stats.frames_behind,
            their_frames_behind: stats.their_frames_behind,
            refused: stats.refused,
            dropped: stats.dropped,
            restarted: u32::from(stats.restarted),
        }
    }
}
