//! Calls that ask for the words that wait beside an open peer, most of them lent its session.
ghost use Rattle.std.specs.Prelude.{◌≡◌, ◌≤◌, ◌++◌, drop, length, map};
ghost use Rattle.fazgrond_c.specs.Waiting.{word_out, AreHandedDue, AreHandedFirst, AreListed, IsForetold, IsPressed, IsRerun, IsRerunBy};

use crate::jobs::numbered;
use crate::kinds::EntryOut;
use crate::live::Live;
use crate::network::Network;
use crate::peer_refusal::code_of_fault;
use roll_relay::RemoteWord;
use roll_requests::Elsewhere;

/// Writes the words that wait to the front of a buffer, as many as there is room for, and says how many they are.
pub fn list(network: &Network, out: &mut [EntryOut]) -> usize
    ensures { AreListed network.now.held.words.items out.old out.new result }
{
    write_first(network.held.waiting(), out)
}

/// Writes words to the front of a buffer, as many as there is room for, and says how many they are.
pub fn write_first(words: &[RemoteWord], out: &mut [EntryOut]) -> usize
    ensures { AreListed words.now out.old out.new result }
{
    let count = out.len().min(words.len());
    write_all(&words[..count], out);
    count
}

/// Writes words to the front of a buffer.
fn write_all(words: &[RemoteWord], out: &mut [EntryOut])
    requires { length words.now ≤ length out.old }
    ensures { out.new ≡ map word_out words.now ++ drop (length words.now) out.old }
{
    for (place, word) in words.iter().enumerate() {
        out[place] = EntryOut::of_word(word);
    }
}

/// Writes how many frames the session would run again, if it were told the first so many words that wait.
pub fn rerun(network: &Network, live: &Live, count: u32, frames: &mut u32) -> i32
    ensures { IsRerun count network.now live.now frames.old frames.new result }
{
    write_rerun(&live.session, network.first(count), frames)
}

/// Writes how many frames a session would run again, if it were told these words.
pub fn write_rerun(session: &Elsewhere, words: &[RemoteWord], frames: &mut u32) -> i32
    ensures { IsRerunBy session.now.seen words.now frames.old frames.new result }
{
    match session.rerun(words) {
        Ok(there) => {
            *frames = there;
            0
        }
        Err(why) => why.code(),
    }
}

/// Writes whether words are to be handed over before the session comes to its next frame.
pub fn is_pressed(network: &Network, live: &Live, flag: &mut u32) -> i32
    ensures { IsPressed network.now live.now flag.old flag.new result }
{
    *flag = u32::from(network.held.is_pressed(&live.session));
    0
}

/// Makes a guess with all words that wait, and writes the number of its job, if there is a job.
pub fn guess(network: &Network, live: &mut Live, until: u32, job: &mut u32) -> i32
    ensures { IsForetold until network.now network.now live.old live.new job.old job.new result }
{
    let outcome = live.session.guess_words(network.held.waiting(), until);
    numbered(live, job, outcome)
}

/// Hands over the first so many words that wait.
pub fn hand_over(network: &mut Network, live: &mut Live, count: u32) -> i32
    ensures { AreHandedFirst count network.old network.new live.old live.new result }
{
    match network.held.hand_over(&mut live.session, count as usize) {
        Ok(()) => 0,
        Err(why) => code_of_fault(why),
    }
}

/// A turn is over: hands over the words that have waited for as many turns as they may, and writes how many they were.
pub fn hand_over_due(network: &mut Network, live: &mut Live, handed: &mut u32) -> i32
    ensures { AreHandedDue network.old network.new live.old live.new handed.old handed.new result }
{
    match network.held.turn(&mut live.session) {
        Ok(count) => {
            *handed = count as u32;
            0
        }
        Err(why) => code_of_fault(why),
    }
}
