//! Requests as values, and whole lists of them.
ghost use Rattle.std.specs.Prelude.{◌≡◌, ◌≢◌, ◌≤◌, ◌+◌, ◌++◌, ◌∷◌, [], drop, is_ok, length, map, vec_capacity, vec_len, IfErr, IfOk, OnErr, OnOk};
ghost use Rattle.roll_session.specs.Answered.{replied, replies_to, IsAnswered, IsPlayed, IsReplied, IsShort};
ghost use Rattle.roll_session.specs.Calls.{asked, event_of};
ghost use Rattle.roll_session.specs.Headline.{Headline};
ghost use Rattle.roll_session.specs.Logs.{logged_entry};
ghost use Rattle.roll_session.specs.Replaying.{AreLogged, IsReplayed, IsStopped, IsWantOfMemory, Stops};
ghost use Rattle.roll_session.specs.Requests.{all_asked, IsEndedEarly, IsHeadline};
ghost use Rattle.roll_session.specs.Seen.{plain};

use crate::event::{Call, Grafted, Reached, ReplayFault, Request};
use crate::log::{Log, Logged};
use crate::session::Session;
use roll_frame::{Refusal, Reply};
use roll_game::{Game, NoMemory};
use roll_inputs::Heard;
use std::collections::VecDeque;

impl<G: Game> Session<G> {
    /// Does what is asked for, and answers its reply. A refusal is a reply like any other.
    ///
    /// # Errors
    ///
    /// `NoMemory` alone.
    #[inline(always)]
    pub fn perform(&mut self, request: Request<G>) -> Result<Reply, NoMemory>
        ensures replied { IfOk result
            (λ said. IsReplied G.step self.old self.new (asked request) said) }
        ensures short { OnErr result (IsShort G.step self.old self.new (asked request)) }
    {
        match self.answer(request) {
            Ok(said) => Ok(said),
            Err(Refusal::NoMemory) => Err(NoMemory),
            Err(why) => Ok(Reply::Refused(why)),
        }
    }

    /// Does what is asked for, and answers the reply if it is accepted.
    #[inline(always)]
    fn answer(&mut self, request: Request<G>) -> Result<Reply, Refusal>
        ensures answered { IsAnswered G.step self.old self.new (asked request)
            (replied (λ said. said) result) }
        ensures said { IfOk result (λ said. said ≢ Reply.Refused Refusal.NoMemory) }
    {
        match request {
            Request::Call(call) => self.make(call),
            Request::Graft(branch) => {
                let Grafted { added } = self.graft(branch)?;
                Ok(Reply::Grafted { added })
            }
        }
    }

    /// Makes one call, and answers the reply if it is accepted.
    #[inline(always)]
    fn make(&mut self, call: Call) -> Result<Reply, Refusal>
        ensures answered { IsAnswered G.step self.old self.new (event_of call)
            (replied (λ said. said) result) }
        ensures said { IfOk result (λ said. said ≢ Reply.Refused Refusal.NoMemory) }
    {
        match call {
            Call::Local { player, word } => {
                self.add_local_input(player, word)?;
                Ok(Reply::Done)
            }
            Call::Remote {
                player,
                frame,
                word,
            } => match self.remote_input(player, frame, word)? {
                Heard::Taken => Ok(Reply::Taken),
                Heard::Repeated => Ok(Reply::Repeated),
            },
            Call::Disconnect { player } => {
                self.disconnect_player(player)?;
                Ok(Reply::Disconnected { player })
            }
            Call::Sync => Ok(Reply::Synchronized(self.synchronize_input()?)),
            Call::Advance => {
                let Reached { frame, from, rerun } = self.advance_frame()?;
                Ok(Reply::Reached { frame, from, rerun })
            }
        }
    }

    /// Does in turn what a queue asks for, and adds the replies, refused ones among them, to a list that has room for them.
    ///
    /// # Errors
    ///
    /// `NoMemory` alone: what came before was done, and what comes after it is left in the queue.
    pub fn run(
        &mut self,
        requests: &mut VecDeque<Request<G>>,
        replies: &mut Vec<Reply>,
    ) -> Result<(), NoMemory>
        requires { vec_len replies.old + length requests.old.items ≤ vec_capacity replies.old }
        ensures headline { IsHeadline (is_ok result) G.step self.old self.new requests.old.items
            requests.new.items (drop (length replies.old.items) replies.new.items) }
        ensures played { OnOk result
            (IsPlayed G.step self.old self.new (all_asked requests.old.items)) }
        ensures replies { OnOk result (replies.new.items
            ≡ replies.old.items ++ replies_to G.step self.old (all_asked requests.old.items)) }
        ensures empty { OnOk result (requests.new.items ≡ []) }
        ensures left { OnErr result (IsEndedEarly G.step self.old self.new requests.old.items
            requests.new.items replies.old.items replies.new.items) }
    {
        self.laws();
        while let Some(request) = requests.pop_front() {
            let reply = self.perform(request)?;
            replies.push_reserved(reply);
        }
        Ok(())
    }

    /// Makes the calls of a log in turn. A log without grafts and without rolls that the game cut short, which a session
    /// with the same settings left, is refused nowhere by a session at its start, and leads to the same core.
    ///
    /// # Errors
    ///
    /// What comes before the entry of the fault is done. That entry changes nothing, but for a roll that the game refuses.
    pub fn replay(&mut self, log: &Log) -> Result<(), ReplayFault>
        ensures headline { OnOk result
            (Headline G.step self.old self.new (map plain log.now.entries)
            (replies_to G.step self.old (map plain log.now.entries))) }
        ensures replayed { OnOk result (IsReplayed G.step self.old self.new log.now.entries) }
        ensures stopped { IfErr result
            (λ fault. IsStopped G.step self.old self.new log.now.entries fault) }
        ensures own { self.old.log ≡ [] → AreLogged self.old.settings log.now.entries
            → IfErr result IsWantOfMemory }
    {
        self.laws();
        for place in 0..log.len() {
            self.redo(log.at(place), place)?;
        }
        Ok(())
    }

    /// Makes the call of the entry at a place of a log.
    fn redo(&mut self, entry: Logged<'_>, place: usize) -> Result<(), ReplayFault>
        ensures redone { OnOk result
            (IsReplayed G.step self.old self.new (logged_entry entry.entry ∷ [])) }
        ensures stops { IfErr result
            (λ fault. Stops G.step self.old self.new (logged_entry entry.entry) place fault) }
    {
        let Logged::Call(call) = entry else {
            return Err(ReplayFault::NotACall { place });
        };
        match self.perform(Request::Call(call)) {
            Ok(Reply::Repeated) => Err(ReplayFault::Repeated { place }),
            Ok(Reply::Refused(why)) => Err(ReplayFault::Refused { place, why }),
            Ok(_) => Ok(()),
            Err(NoMemory) => Err(ReplayFault::NoMemory { place }),
        }
    }
}
