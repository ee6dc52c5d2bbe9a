//! Whole lists of what a main loop asks for.
ghost use Rattle.std.specs.Prelude.{◌≡◌, ◌≢◌, ◌≤◌, ◌+◌, is_ok, length, vec_capacity, vec_len, IfOk, OnErr, OnOk};
ghost use Rattle.roll_peer.specs.Headline.{IsHeadline};
ghost use Rattle.roll_peer.specs.Requests.{IsDone, IsShortOf};

use crate::peer::Peer;
use crate::refusal::PeerRefusal;
use crate::request::{PeerReply, PeerRequest};
use roll_frame::Refusal;
use roll_game::{Game, NoMemory};
use roll_session::{Reached, Session};
use std::collections::VecDeque;

impl Peer {
    /// Does what is asked for, and answers its reply. A refusal is a reply like any other.
    ///
    /// # Errors
    ///
    /// `NoMemory` alone, of a call of the session or of a turn's roll.
    pub fn perform<G: Game>(
        &mut self,
        session: &mut Session<G>,
        request: PeerRequest<G>,
    ) -> Result<PeerReply, NoMemory>
        ensures done { IfOk result (λ reply. IsDone G.step (record {
          session = session.old;
          peer = self.old;
        })
            (record { session = session.new; peer = self.new }) request reply) }
        ensures short { OnErr result (IsShortOf G.step (record {
          session = session.old;
          peer = self.old;
        })
            (record { session = session.new; peer = self.new }) request) }
    {
        match request {
            PeerRequest::Session(request) => {
                let said = session.perform(request)?;
                Ok(PeerReply::Session(said))
            }
            PeerRequest::Receive { bytes, now } => Ok(PeerReply::Received(self.receive(
                session,
                bytes.as_slice(),
                now,
            ))),
            PeerRequest::Poll { now } => Ok(PeerReply::Polled(self.poll(session, now))),
            PeerRequest::Turn { now } => {
                let turned = unless_short(self.turn(session, now))?;
                Ok(PeerReply::Turned(turned))
            }
        }
    }

    /// Does in turn what a queue asks for, any calls of a session, datagrams and turns in any order, and adds the replies to a list
    /// that has room for them. The headline of sessions holds over all events that these stood for: the session's own,
    /// and those of others that were heard in between.
    ///
    /// # Errors
    ///
    /// `NoMemory` alone: what came before was done, and what comes after it is left in the queue.
    pub fn run<G: Game>(
        &mut self,
        session: &mut Session<G>,
        requests: &mut VecDeque<PeerRequest<G>>,
        replies: &mut Vec<PeerReply>,
    ) -> Result<(), NoMemory>
        requires { vec_len replies.old + length requests.old.items ≤ vec_capacity replies.old }
        ensures { IsHeadline (is_ok result) G.step (record {
          session = session.old;
          peer = self.old;
        })
            (record { session = session.new; peer = self.new }) requests.old.items
            requests.new.items replies.old.items replies.new.items }
    {
        session.laws();
        while let Some(request) = requests.pop_front() {
            let reply = self.perform(session, request)?;
            replies.push_reserved(reply);
        }
        Ok(())
    }
}

/// Where a turn led, unless memory ran out for it.
fn unless_short(
    turned: Result<Option<Reached>, PeerRefusal>,
) -> Result<Result<Option<Reached>, PeerRefusal>, NoMemory>
    ensures same { IfOk result (λ same. same ≡ turned) }
    ensures other { OnOk result (turned ≢ Err (PeerRefusal.Session Refusal.NoMemory)) }
    ensures short { OnErr result (turned ≡ Err (PeerRefusal.Session Refusal.NoMemory)) }
{
    match turned {
        Ok(reached) => Ok(Ok(reached)),
        Err(PeerRefusal::OtherSession) => Ok(Err(PeerRefusal::OtherSession)),
        Err(PeerRefusal::Session(Refusal::NoMemory)) => Err(NoMemory),
        Err(PeerRefusal::Session(why)) => Ok(Err(PeerRefusal::Session(why))),
    }
}
