//! Requests of a host as values, and whole lists of them.
ghost use Rattle.std.specs.Prelude.{◌≡◌, ◌≤◌, ◌+◌, [], drop, fold, is_ok, length, vec_capacity, vec_len, All, IfOk, OnErr, OnOk};
ghost use Rattle.roll_host.specs.Headline.{IsHeadline};
ghost use Rattle.roll_host.specs.Hosted.{places_of, rings_of};
ghost use Rattle.roll_host.specs.Requests.{rings_after, rings_by, EndsOwn, IsDone, IsDoneTo, IsEndedEarly, IsShortOf};

use crate::host::Host;
use crate::request::{HostReply, HostRequest};
use roll_frame::Refusal;
use roll_game::{Game, NoMemory};
use std::collections::VecDeque;

impl<G: Game> Host<G> {
    /// Does what is asked for, and answers its reply. A refusal is a reply like any other.
    ///
    /// # Errors
    ///
    /// `NoMemory` alone. A pump and an absorb never end so: a pump holds the item, and an absorb drops the branch.
    pub fn perform(&mut self, request: HostRequest<G>) -> Result<HostReply, NoMemory>
        requires { EndsOwn (rings_of self.old.links) request }
        ensures done { IfOk result (λ reply. IsDone G.step self.old self.new request reply) }
        ensures short { OnErr result (IsShortOf G.step self.old self.new request) }
        ensures rings { rings_of self.new.links ≡ rings_by (rings_of self.old.links) result }
        ensures places { places_of self.new.pool ≡ places_of self.old.pool }
    {
        match request {
            HostRequest::Session(request) => {
                let said = self.session_mut().perform(request)?;
                Ok(HostReply::Session(said))
            }
            HostRequest::Pump => Ok(HostReply::Pumped(self.pump())),
            HostRequest::Absorb => Ok(HostReply::Absorbed(self.absorb())),
            HostRequest::Speculate {
                player,
                words,
                until,
            } => match self.speculate(player, words.as_slice(), until) {
                Ok(ticket) => Ok(HostReply::Speculated(Ok(ticket))),
                Err(Refusal::NoMemory) => Err(NoMemory),
                Err(why) => Ok(HostReply::Speculated(Err(why))),
            },
            HostRequest::AddLink => match self.add_link() {
                Ok(sender) => Ok(HostReply::LinkAdded(Ok(sender))),
                Err(Refusal::NoMemory) => Err(NoMemory),
                Err(why) => Ok(HostReply::LinkAdded(Err(why))),
            },
            HostRequest::EndLink { link, finished } => {
                Ok(HostReply::LinkEnded(self.end_link(link, finished)))
            }
            HostRequest::ReserveLog { events } => match self.reserve_log(events) {
                Ok(()) => Ok(HostReply::LogReserved(Ok(()))),
                Err(Refusal::NoMemory) => Err(NoMemory),
                Err(why) => Ok(HostReply::LogReserved(Err(why))),
            },
            HostRequest::Close => {
                self.close();
                Ok(HostReply::Closed)
            }
        }
    }

    /// Does in turn what a queue asks for, and adds the replies to a list that has room for them.
    ///
    /// A pump stands for the items that it applied, an absorb for the branches that it grafted, a call of the session
    /// for itself, and all others for no event. The session is that after these events, whatever the threads did, and
    /// its headline holds over all of them; only the copies that guesses had made, and what `reserve_log` reserved,
    /// come on top. So laws of sessions hold of hosts: `crates/test_laws/src/host_laws.rt` takes some.
    ///
    /// # Errors
    ///
    /// `NoMemory` alone: what came before was done, and what comes after it is left in the queue.
    pub fn run(
        &mut self,
        requests: &mut VecDeque<HostRequest<G>>,
        replies: &mut Vec<HostReply>,
    ) -> Result<(), NoMemory>
        requires room { vec_len replies.old + length requests.old.items ≤ vec_capacity replies.old }
        requires ends { All (EndsOwn (rings_of self.old.links)) requests.old.items }
        ensures headline { IsHeadline (is_ok result) G.step self.old self.new requests.old.items
            requests.new.items replies.old.items replies.new.items }
        ensures done { OnOk result (IsDoneTo G.step self.old self.new
            requests.old.items [] replies.old.items replies.new.items) }
        ensures empty { OnOk result (requests.new.items ≡ []) }
        ensures left { OnErr result (IsEndedEarly G.step self.old self.new
            requests.old.items requests.new.items replies.old.items replies.new.items) }
        ensures rings { rings_of self.new.links ≡ fold rings_after (rings_of self.old.links)
            (drop (length replies.old.items) replies.new.items) }
        ensures places { places_of self.new.pool ≡ places_of self.old.pool }
    {
        self.session().laws();
        while let Some(request) = requests.pop_front() {
            let reply = self.perform(request)?;
            replies.push_reserved(reply);
        }
        Ok(())
    }
}
