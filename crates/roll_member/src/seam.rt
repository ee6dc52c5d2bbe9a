//! How the session of a match's next epoch goes on from that of this one.
ghost use Rattle.std.specs.Prelude.{◌≡◌, ◌<◌, ◌≤◌, length};
ghost use Rattle.roll_frame.specs.declared.limits.TheConstants.{FRAME_LIMIT};
ghost use Rattle.roll_member.specs.Seam.{given_after, given_at, last_before, settings_after};
ghost use Rattle.roll_mesh.specs.declared.limits.TheConstants.{PLAYER_LIMIT};
ghost use Rattle.roll_session.specs.Headline.{words_of};

use crate::words::count_at;
use roll_frame::{DELAY_LIMIT, Settings};
use roll_mesh::PLAYER_LIMIT;
use roll_session::Networked;

/// The settings with which the session of the next epoch starts if this one's epoch ends at a frame: each player's last word before it is
/// what is predicted of that player until it gives one; and what a local player gave for that frame and those after it is given again, as
/// far as its delay goes. Where it gave fewer words its last one is given again. All else is as it was: delays, a threshold or local
/// players that change are set after that.
pub fn settings_after<S: Networked>(session: &S, end: u32) -> Settings
    requires { end ≤ FRAME_LIMIT }
    ensures { result ≡ settings_after (S.seen session.now) end }
{
    let mut before = [0; PLAYER_LIMIT];
    let mut first = [[0; DELAY_LIMIT as usize]; PLAYER_LIMIT];
    for place in 0..PLAYER_LIMIT {
        before[place] = last_before(session, place, end);
        first[place] = given_after(session, place, end);
    }
    session.settings().following(before, first)
}

/// The words that the player at a place gave from a frame on.
fn given_after<S: Networked>(session: &S, place: usize, end: u32) -> [u32; DELAY_LIMIT as usize]
    requires place { place < PLAYER_LIMIT }
    requires end { end ≤ FRAME_LIMIT }
    ensures { result ≡ given_after (S.seen session.now) place end }
{
    let mut given = [0; DELAY_LIMIT as usize];
    for frame in 0..DELAY_LIMIT as usize {
        given[frame] = given_at(session, place, end + frame as u32);
    }
    given
}

/// The word that the player at a place, counted from 0, gave for a frame of the session, counted from 0 too; or else the last that it
/// gave, or the one before frame 0 if it has given none. A program has it for a player's words at the seam of two epochs: so
/// `settings_after` gives them again.
pub fn given_at<S: Networked>(session: &S, place: usize, frame: u32) -> u32
    requires { place < PLAYER_LIMIT }
    ensures { result ≡ given_at (S.seen session.now) place frame }
{
    match session.confirmed_word(place as u8 + 1, frame) {
        Some(word) => word,
        None => last_before(session, place, count_at(session, place)),
    }
}

/// The last word of the player at a place before a frame, or the one before frame 0 if it has given none.
fn last_before<S: Networked>(session: &S, place: usize, end: u32) -> u32
    requires { place < PLAYER_LIMIT }
    ensures { result ≡ last_before (S.seen session.now) place end }
{
    let count = count_at(session, place).min(end);
    if count == 0 {
        return session.settings().before[place];
    }
    match session.confirmed_word(place as u8 + 1, count - 1) {
        Some(word) => word,
        None => unreachable!(),
    }
}
