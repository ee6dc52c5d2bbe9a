//! Why a peer refuses a call, and the numbers of it.
ghost use Rattle.std.specs.Prelude.{◌≡◌, ◌<◌, pos};
ghost use Rattle.roll_mesh.specs.declared.limits.TheConstants.{PLAYER_LIMIT};
ghost use Rattle.fazgrond_c.specs.PeerKinds.{are_within, code_of_ignored, code_of_join, code_of_joining, code_of_mark, code_of_mark_fault, code_of_mesh, code_of_open, code_of_opening, code_of_refusal, code_of_seam, code_of_seat, is_counted, is_within_at};
ghost use Rattle.fazgrond_c.specs.Waiting.{code_of_fault};

use roll_chain::SeamRefusal;
use roll_epoch::MarkFault;
use roll_frame::Refusal;
use roll_member::JoinRefusal;
use roll_mesh::{INPUT_LIMIT, MACHINE_LIMIT, MeshRefusal, PLAYER_LIMIT, Seat};
use roll_peer::{Ignored, MarkRefusal, MatchSettings, OpenRefusal, PeerRefusal};
use roll_relay::HeldFault;

/// Bytes aren't sealed for this match and opening.
pub const NOT_SEALED: i32 = 301;
/// The session isn't the match's.
pub const OTHER_SESSION: i32 = 313;
/// The match takes no marks.
const NO_MARKS: i32 = 321;
/// The player has a mark already.
const MARKED: i32 = 322;
/// Words of one input have other delays than each other.
pub const UNLIKE_DELAYS: i32 = 323;
/// The words of an input have two owners.
const TWO_OWNERS: i32 = 324;
/// An input has words past the last player.
const TOO_MANY_WORDS: i32 = 325;

/// The number of why bytes weren't heard.
pub fn code_of_ignored(why: Ignored) -> i32
    ensures { result ≡ pos (code_of_ignored why) }
{
    match why {
        Ignored::NotSealed => NOT_SEALED,
        Ignored::NoDatagram(_) => 302,
        Ignored::InvalidMachine => 303,
        Ignored::OwnMachine => 304,
        Ignored::MachineGone => 305,
        Ignored::Overstated => 307,
        Ignored::Outside => 312,
        Ignored::OtherSession => OTHER_SESSION,
    }
}

/// The number of why a peer refuses a call.
pub fn code_of_refusal(why: PeerRefusal) -> i32
    ensures { result ≡ pos (code_of_refusal why) }
{
    match why {
        PeerRefusal::OtherSession => OTHER_SESSION,
        PeerRefusal::Session(why) => why.code(),
    }
}

/// The number of why a session isn't told the words that wait.
pub fn code_of_fault(why: HeldFault) -> i32
    ensures { result ≡ pos (code_of_fault why) }
{
    match why {
        HeldFault::OtherSession => OTHER_SESSION,
        HeldFault::Session(why) => why.code(),
    }
}

/// The number of why a mesh refuses a call.
pub fn code_of_mesh(why: MeshRefusal) -> i32
    ensures { result ≡ pos (code_of_mesh why) }
{
    match why {
        MeshRefusal::InvalidSeat | MeshRefusal::InvalidMachine => 303,
        MeshRefusal::OwnMachine => 304,
        MeshRefusal::MachineGone => 305,
        MeshRefusal::InvalidPlayer => Refusal::InvalidPlayer.code(),
        MeshRefusal::CountFull => Refusal::QueueFull.code(),
        MeshRefusal::Overstated => 307,
        MeshRefusal::Uneven => 312,
    }
}

/// The number of why a session can't take its seat.
fn code_of_join(why: JoinRefusal) -> i32
    ensures { result ≡ pos (code_of_join why) }
{
    match why {
        JoinRefusal::InvalidSeat => 303,
        JoinRefusal::Players => Refusal::InvalidPlayer.code(),
        JoinRefusal::Started => Refusal::InvalidRequest.code(),
    }
}

/// The number of why a peer can't be opened.
pub fn code_of_open(why: OpenRefusal) -> i32
    ensures { result ≡ pos (code_of_open why) }
{
    match why {
        OpenRefusal::Join(why) => code_of_join(why),
        OpenRefusal::NoDraw => Refusal::InvalidRequest.code(),
        OpenRefusal::NoNumber => 326,
        OpenRefusal::Delays => UNLIKE_DELAYS,
        OpenRefusal::NoMemory => Refusal::NoMemory.code(),
    }
}

/// The number of why a peer can't be opened for a match. Where its machines and owners are none, it says what is wrong with the owners.
pub fn code_of_opening(settings: &MatchSettings, why: OpenRefusal) -> i32
    ensures { result ≡ pos (code_of_opening settings.now why) }
{
    match why {
        OpenRefusal::Join(why) => code_of_joining(settings, why),
        OpenRefusal::NoDraw | OpenRefusal::NoNumber | OpenRefusal::Delays | OpenRefusal::NoMemory =>
            { code_of_open(why) }
    }
}

/// The number of why a session can't take its seat in a match.
fn code_of_joining(settings: &MatchSettings, why: JoinRefusal) -> i32
    ensures { result ≡ pos (code_of_joining settings.now why) }
{
    match why {
        JoinRefusal::InvalidSeat => code_of_seat(&Seat {
            owners: settings.owners,
            machines: settings.machines,
            words: settings.words,
            me: settings.me,
        }),
        JoinRefusal::Players | JoinRefusal::Started => code_of_join(why),
    }
}

/// The number of why a seat is none.
fn code_of_seat(seat: &Seat) -> i32
    ensures { result ≡ pos (code_of_seat seat.now) }
{
    if !is_counted(seat) {
        303
    } else if are_within(seat) {
        TWO_OWNERS
    } else {
        TOO_MANY_WORDS
    }
}

/// Whether there are 2 to 8 machines, this one among them, and 1 to 4 words in an input.
fn is_counted(seat: &Seat) -> bool
    ensures { result ≡ is_counted seat.now }
{
    2 <= seat.machines
        && usize::from(seat.machines) <= MACHINE_LIMIT
        && seat.me < seat.machines
        && 1 <= seat.words
        && seat.words <= INPUT_LIMIT
}

/// Whether no input has words past the last player.
fn are_within(seat: &Seat) -> bool
    ensures { result ≡ are_within seat.now }
{
    for player in 0..PLAYER_LIMIT {
        if !is_within_at(seat, player) {
            return false;
        }
    }
    true
}

/// Whether the input of a player has none, or there is no such input.
fn is_within_at(seat: &Seat, player: usize) -> bool
    requires { player < PLAYER_LIMIT }
    ensures { result ≡ is_within_at seat.now player }
{
    seat.owners[player] >= seat.machines
        || seat.first_of(player) + usize::from(seat.words) <= PLAYER_LIMIT
}

/// The number of why a mark would be void.
pub fn code_of_mark_fault(why: MarkFault) -> i32
    ensures { result ≡ pos (code_of_mark_fault why) }
{
    match why {
        MarkFault::Threshold => 327,
        MarkFault::Delay => 328,
        MarkFault::OthersDelay => 329,
        MarkFault::UnlikeDelays => UNLIKE_DELAYS,
        MarkFault::Ticket => 330,
    }
}

/// The number of why no mark is put on a word.
pub fn code_of_mark(why: MarkRefusal) -> i32
    ensures { result ≡ pos (code_of_mark why) }
{
    match why {
        MarkRefusal::NotTaken => NO_MARKS,
        MarkRefusal::NotOwn => Refusal::InvalidPlayer.code(),
        MarkRefusal::Marked => MARKED,
        MarkRefusal::NoPlayer => Refusal::InvalidRequest.code(),
        MarkRefusal::OtherSession => OTHER_SESSION,
    }
}

/// The number of why a match doesn't go on in its next epoch.
pub fn code_of_seam(why: SeamRefusal) -> i32
    ensures { result ≡ pos (code_of_seam why) }
{
    match why {
        SeamRefusal::JobsOut => 331,
        SeamRefusal::Session(why) => why.code(),
        SeamRefusal::Network(why) => code_of_open(why),
    }
}
