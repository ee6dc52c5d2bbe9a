//! A script that is being played live.
ghost use Rattle.std.specs.List.{flat_map};
ghost use Rattle.std.specs.Prelude.{◌≡◌, ◌≢◌, ◌≤◌, ◌⊎◌, ◌<◌, ◌+◌, ◌^◌, ◌++◌, ◌∷◌, [], ℕ, List, Err, IfErr, IfOk, OnOk, length, map};
ghost use Rattle.roll_branch.specs.Routed.{Routed};
ghost use Rattle.roll_host.specs.Heard.{AreHeard};
ghost use Rattle.roll_host.specs.Hosted.{places_of};
ghost use Rattle.roll_link.specs.declared.remote.Remote.{Remote as Item};
ghost use Rattle.roll_session.specs.Answered.{IsPlayed};
ghost use Rattle.roll_session.specs.Calls.{event_of as event_of_call, grafting};
ghost use Rattle.prog_scripts.specs.Output.{is_refused as refuses};
ghost use Rattle.roll_live.specs.Lives.{IsFarAt};
ghost use Rattle.roll_live.specs.Tellings.{IsLive};
ghost use Rattle.roll_live.specs.Told.{guessed_counts, item_reply as replied_by, items_of, IsAsked, IsFar, IsHeard, IsTold};

use crate::output::push_line;
use prog_scripts::{Command, PlayFault, call, player_number};
use roll_frame::{Refusal, Reply};
use roll_game::{Game, Shown};
use roll_host::{Host, HostReply, HostRequest};
use roll_link::{LinkSender, Remote};
use roll_session::{Call, Request};
use std::sync::Wait;

/// How far ahead of the session a remote word may be: one whose frame is so much past the session's can't be read.
pub const AHEAD_LIMIT: u32 = 100;

/// A script that is being played live: a host with one link, and the link's sender.
#[derive(Drop)]
pub struct Playing<G: Game> {
    pub host: Host<G>,
    pub sender: LinkSender,
}

impl<G: Shown> Playing<G> {
    /// Plays the commands, of which the first stands in line 2, writes their replies at the end, and answers how many are
    /// refusals.
    ///
    /// # Errors
    ///
    /// `Unreadable` with the line of the first `R` whose frame is 100 or more past the session's; `NoMemory` if the allocator
    /// has no room, a game refuses, or a word is held. What was played and written by then stays.
    pub fn play_all<RT: Wait>(
        &mut self,
        rt: &RT,
        out: &mut Vec<u8>,
        commands: &[Command],
    ) -> Result<u32, PlayFault>
        requires { length commands.now < 2 ^ 32 }
        ensures played { IfOk result
            (λ refused. (written : List ℕ)
            × IsLive G.step G.text_of self.old.host.session self.new.host.session
            commands.now written refused
            × (out.new.items ≡ out.old.items ++ written)) }
        ensures far { (line : ℕ) → result ≡ Err (PlayFault.Unreadable line)
            → IsFarAt G.step G.text_of self.old.host.session commands.now line }
        ensures fault { IfErr result
            (λ fault. (fault ≢ PlayFault.Read) × (fault ≢ PlayFault.Write)) }
        ensures sent { OnOk result
            (self.new.sender.sent ≡ self.old.sender.sent ++ flat_map items_of commands.now) }
        ensures places { places_of self.new.host.pool ≡ places_of self.old.host.pool }
    {
        let mut refused = 0;
        let mut line = 1;
        for command in commands {
            line += 1;
            if self.play(rt, out, line, command)? {
                refused += 1;
            }
        }
        Ok(refused)
    }

    /// Plays the command in this line, writes its reply, if it has one, and answers whether it was refused.
    fn play<RT: Wait>(
        &mut self,
        rt: &RT,
        out: &mut Vec<u8>,
        line: u64,
        command: &Command,
    ) -> Result<bool, PlayFault>
        ensures told { IfOk result
            (λ refused. (text : List ℕ)
            × IsTold G.step G.text_of self.old.host.session self.new.host.session command.now
            (record { text = text; refused = refused }) × (out.new.items ≡ out.old.items ++ text)) }
        ensures fault { IfErr result
            (λ fault. (fault ≡ PlayFault.NoMemory)
            ⊎ ((fault ≡ PlayFault.Unreadable line) × IsFar self.old.host.session command.now)) }
        ensures sent { OnOk result
            (self.new.sender.sent ≡ self.old.sender.sent ++ items_of command.now) }
        ensures places { places_of self.new.host.pool ≡ places_of self.old.host.pool }
    {
        match command {
            Command::Remote {
                player,
                frame,
                word,
            } => {
                let item = Remote {
                    player: player_number(*player),
                    frame: *frame,
                    word: *word,
                };
                self.hear(rt, out, line, item)
            }
            Command::Guess {
                player,
                until,
                words,
            } => {
                self.guess(player_number(*player), words, *until);
                Ok(false)
            }
            Command::Extend { .. } => {
                self.absorb();
                Ok(false)
            }
            _ => match call(command) {
                Some(call) => self.answer(out, call),
                None => Ok(false),
            },
        }
    }

    /// Makes a call, and writes its reply.
    fn answer(&mut self, out: &mut Vec<u8>, call: Call) -> Result<bool, PlayFault>
        ensures sender { self.new.sender ≡ self.old.sender }
        ensures told { IfOk result
            (λ refused. (text : List ℕ)
            × IsAsked G.step G.text_of self.old.host.session self.new.host.session
            (event_of_call call) (record { text = text; refused = refused })
            × (out.new.items ≡ out.old.items ++ text)) }
        ensures fault { IfErr result (λ fault. fault ≡ PlayFault.NoMemory) }
        ensures places { places_of self.new.host.pool ≡ places_of self.old.host.pool }
    {
        let request = HostRequest::Session(Request::Call(call));
        let HostReply::Session(said) = self.host.perform(request)? else {
            unreachable!()
        };
        push_line(out, self.host.session(), said)?;
        Ok(is_refused(&said))
    }

    /// Sends an item, has it applied, and writes what is replied to it.
    fn hear<RT: Wait>(
        &mut self,
        rt: &RT,
        out: &mut Vec<u8>,
        line: u64,
        item: Remote,
    ) -> Result<bool, PlayFault>
        ensures sent { OnOk result (self.new.sender.sent ≡ self.old.sender.sent ++ item ∷ []) }
        ensures told { IfOk result
            (λ refused. (text : List ℕ)
            × IsHeard G.step G.text_of self.old.host.session self.new.host.session item
            (record { text = text; refused = refused }) × (out.new.items ≡ out.old.items ++ text)) }
        ensures fault { IfErr result
            (λ fault. (fault ≡ PlayFault.NoMemory)
            ⊎ ((fault ≡ PlayFault.Unreadable line)
            × (self.old.host.session.core.frame + AHEAD_LIMIT ≤ item.frame))) }
        ensures places { places_of self.new.host.pool ≡ places_of self.old.host.pool }
    {
        let frame = self.host.session().frame();
        if item.frame.saturating_sub(frame) >= AHEAD_LIMIT {
            return Err(PlayFault::Unreadable(line));
        }
        let logged = self.host.session().log().len();
        let refusal = self.apply(rt, item)?;
        let session = self.host.session();
        let said = item_reply(session.log().len() > logged, refusal);
        push_line(out, session, said)?;
        Ok(is_refused(&said))
    }

    /// Sends an item, and pumps until something is applied, which nothing else can be. Answers why it was refused, if it was.
    fn apply<RT: Wait>(&mut self, rt: &RT, item: Remote) -> Result<Option<Refusal>, PlayFault>
        ensures sent { OnOk result (self.new.sender.sent ≡ self.old.sender.sent ++ item ∷ []) }
        ensures heard { IfOk result
            (λ why. (items : List Item) × (refused : ℕ)
            × AreHeard G.step self.old.host.session self.new.host.session items refused why
            × (1 ≤ length items)) }
        ensures fault { IfErr result (λ fault. fault ≡ PlayFault.NoMemory) }
        ensures places { places_of self.new.host.pool ≡ places_of self.old.host.pool }
    {
        if self.sender.send(item).is_err() {
            return Err(PlayFault::NoMemory);
        }
        for _ in rt.forever() {
            let did = self.host.pump();
            if did.held.is_some() {
                return Err(PlayFault::NoMemory);
            }
            if did.applied > 0 {
                return Ok(did.refusal);
            }
        }
        unreachable!()
    }

    /// Has the workers run a guess. If it is refused it isn't run, and nothing else is different.
    fn guess(&mut self, player: u8, words: &[u32], until: u32)
        ensures sender { self.new.sender ≡ self.old.sender }
        ensures session { self.new.host.session ≡ record self.old.host.session {
          counts = guessed_counts
              self.old.host.session.counts self.new.host.session.counts;
        } }
        ensures places { places_of self.new.host.pool ≡ places_of self.old.host.pool }
    {
        let _ = self.host.speculate(player, words, until);
    }

    /// Takes in the branches that have come.
    fn absorb(&mut self)
        ensures sender { self.new.sender ≡ self.old.sender }
        ensures played { (branches : List Routed)
            × IsPlayed G.step self.old.host.session self.new.host.session (map grafting branches) }
        ensures places { places_of self.new.host.pool ≡ places_of self.old.host.pool }
    {
        self.host.absorb();
    }
}

/// The reply to an item that was applied, by whether the log grew, and by the refusal that the pump told, if it told one.
fn item_reply(has_grown: bool, refusal: Option<Refusal>) -> Reply
    ensures { result ≡ replied_by has_grown refusal }
{
    if has_grown {
        return Reply::Taken;
    }
    match refusal {
        Some(why) => Reply::Refused(why),
        None => Reply::Repeated,
    }
}

fn is_refused(reply: &Reply) -> bool
    ensures { result ≡ refuses reply.now }
{
    matches!(reply, Reply::Refused(_))
}
