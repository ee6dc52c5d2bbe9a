//! Scripts that are being played.
ghost use Rattle.std.specs.Prelude.{◌≡◌, List, ◌<◌, ◌+◌, ◌^◌, ◌++◌, [], IfErr, IfOk, OnOk, length, slice_set, None};
ghost use Rattle.std.specs.Result.{result_err};
ghost use Rattle.roll_frame.specs.Events.{after, reply};
ghost use Rattle.roll_session.specs.Calls.{asked};
ghost use Rattle.roll_text.specs.Lines.{ended};
ghost use Rattle.prog_scripts.specs.Output.{after_command, event_text, guess_line, guessed, job_at, refusal_by, refusal_in, refusals_from, with_job, written_by, written_from};
ghost use Rattle.roll_cli.specs.Playings.{game_of};
ghost use Rattle.prog_scripts.specs.Plays.{AreCommands};
ghost use Rattle.prog_scripts.specs.declared.command.Command.{Command};

use prog_scripts::{
    Command, PlayFault, call, first_command, player_number, push_claim, push_job, push_reply,
};
use roll_branch::{Done, Job, extend};
use roll_frame::{Refusal, Reply};
use roll_game::{Game, Shown};
use roll_session::{Call, Request, Session};
use std::alloc::Global;
use std::marker::Model;

/// So many bytes a command's line has, about.
const COMMAND_SIZE: usize = 6;

/// A script that is being played.
#[derive(Drop)]
pub struct Playing<G: Game> {
    session: Session<G>,
    /// Runs the jobs.
    helper: G,
    /// The jobs that guesses gave, in the order of their numbers. None if one was taken.
    jobs: Vec<Option<Job<G>>>,
}

impl<G: Game> Model for Playing<G> {
    ghost use Rattle.roll_cli.specs.Playings.{Played};

    ghost Value = { Played };

    ghost view = { λ p. record {
      settings = p.session.settings;
      opening = p.session.opening;
      now = record { core = p.session.core; jobs = p.jobs.items };
    } };
}

impl<G: Shown> Playing<G> {
    /// A session of which nothing was asked for yet, and a second game of its kind, which is to run its jobs.
    pub fn new(alloc: Global, session: Session<G>, helper: G) -> Playing<G>
        ensures { result ≡ record {
          settings = session.settings;
          opening = session.opening;
          now = record { core = session.core; jobs = [] };
        } }
    {
        Playing {
            session,
            helper,
            jobs: Vec::new(alloc),
        }
    }

    /// The session that is asked.
    pub fn session(&self) -> &Session<G>
        ensures settings { result.now.settings ≡ self.now.settings }
        ensures opening { result.now.opening ≡ self.now.opening }
        ensures core { result.now.core ≡ self.now.now.core }
    {
        &self.session
    }

    /// Makes room at once for the events that so long a text of commands asks for, about. If it is refused, room is made
    /// as they come.
    pub fn expect(&mut self, commands: &[u8])
        ensures { self.new ≡ self.old }
    {
        if let Ok(events) = u32::try_from(commands.len() / COMMAND_SIZE) {
            let _ = self.session.reserve_log(events);
        }
    }

    /// Plays the commands whose lines a text is, writes their replies at the end, and answers how many are refusals.
    ///
    /// # Errors
    ///
    /// `NoMemory` if the allocator has no room, or a game refuses. What was played and written by then stays.
    pub fn play_all(
        &mut self,
        alloc: Global,
        out: &mut Vec<u8>,
        commands: &[u8],
    ) -> Result<u32, PlayFault>
        requires readable { (list : List Command) × AreCommands commands.now list }
        requires few { length self.old.now.jobs + length commands.now < 2 ^ 32 }
        ensures played { IfOk result
            (λ refused. (list : List Command) × AreCommands commands.now list
            × (out.new.items ≡ out.old.items
            ++ written_from G.text_of self.old.settings
            (game_of G.step self.old) self.old.now list)
            × (refused ≡ refusals_from self.old.settings
            (game_of G.step self.old) self.old.now list)) }
        ensures fault { IfErr result (λ fault. fault ≡ PlayFault.NoMemory) }
    {
        let mut rest = commands;
        let mut refused = 0;
        while !rest.is_empty() {
            let Some((command, after)) = first_command(alloc, rest)? else {
                unreachable!()
            };
            if self.play(alloc, out, &command)?.is_some() {
                refused += 1;
            }
            rest = after;
        }
        Ok(refused)
    }

    /// Plays a command, writes its reply, and answers why it was refused, if it was.
    ///
    /// # Errors
    ///
    /// `NoMemory` if the allocator has no room, or a game refuses. What was played and written by then stays.
    #[inline(always)]
    pub fn play(
        &mut self,
        alloc: Global,
        out: &mut Vec<u8>,
        command: &Command,
    ) -> Result<Option<Refusal>, PlayFault>
        requires { length self.old.now.jobs < 2 ^ 32 }
        ensures played { OnOk result
            (self.new ≡ record self.old {
              now = after_command self.old.settings
                  (game_of G.step self.old) self.old.now command.now;
            }) }
        ensures written { OnOk result
            (out.new.items ≡ out.old.items
            ++ written_by G.text_of self.old.settings
            (game_of G.step self.old) self.old.now command.now) }
        ensures refused { IfOk result
            (λ why. why ≡ refusal_by self.old.settings
            (game_of G.step self.old) self.old.now command.now) }
        ensures fault { IfErr result (λ fault. fault ≡ PlayFault.NoMemory) }
    {
        self.session.laws();
        if let Some(call) = call(command) {
            return self.answer(out, Request::Call(call));
        }
        match command {
            Command::Guess {
                player,
                until,
                words,
            } => self.guess(alloc, out, player_number(*player), words, *until),
            Command::Extend { job } => self.extend(out, *job),
            _ => push_claim(alloc, out, &self.session),
        }
    }

    /// Does what is asked for, writes the reply, and answers why it was refused, if it was.
    #[inline(always)]
    fn answer(
        &mut self,
        out: &mut Vec<u8>,
        request: Request<G>,
    ) -> Result<Option<Refusal>, PlayFault>
        ensures played { OnOk result
            (self.new ≡ record self.old {
              now = record self.old.now {
                core = after self.old.settings
                    (game_of G.step self.old) self.old.now.core (asked request);
              };
            }) }
        ensures written { OnOk result
            (out.new.items ≡ out.old.items
            ++ event_text G.text_of self.old.settings (game_of G.step self.old) self.old.now.core
            (asked request)) }
        ensures refused { IfOk result
            (λ why. why ≡ refusal_in
            (reply self.old.settings (game_of G.step self.old) self.old.now.core (asked request))) }
        ensures fault { IfErr result (λ fault. fault ≡ PlayFault.NoMemory) }
    {
        let reply = self.session.perform(request)?;
        push_reply(out, &self.session, reply)?;
        Ok(refusal_of(&reply))
    }

    /// Takes a job, runs it, and asks for its branch to be taken in.
    #[inline(never)]
    fn extend(&mut self, out: &mut Vec<u8>, number: u32) -> Result<Option<Refusal>, PlayFault>
        ensures played { OnOk result
            (self.new ≡ record self.old {
              now = after_command self.old.settings
                  (game_of G.step self.old) self.old.now (Command.Extend number);
            }) }
        ensures written { OnOk result
            (out.new.items ≡ out.old.items
            ++ written_by G.text_of self.old.settings (game_of G.step self.old) self.old.now
            (Command.Extend number)) }
        ensures refused { IfOk result
            (λ why. why ≡ refusal_by self.old.settings
            (game_of G.step self.old) self.old.now (Command.Extend number)) }
        ensures fault { IfErr result (λ fault. fault ≡ PlayFault.NoMemory) }
    {
        let Some(job) = take_job(&mut self.jobs, number as usize) else {
            push_reply(out, &self.session, Reply::Refused(Refusal::NoJob))?;
            return Ok(Some(Refusal::NoJob));
        };
        let Done::Grown(branch) = extend(&mut self.helper, job) else {
            return Err(PlayFault::NoMemory);
        };
        self.answer(out, Request::Graft(branch))
    }

    /// Has a guess made, and writes its job's number, which is the next.
    #[inline(never)]
    fn guess(
        &mut self,
        alloc: Global,
        out: &mut Vec<u8>,
        player: u8,
        words: &[u32],
        until: u32,
    ) -> Result<Option<Refusal>, PlayFault>
        requires { length self.old.now.jobs < 2 ^ 32 }
        ensures played { OnOk result
            (self.new ≡ record self.old {
              now = record self.old.now {
                jobs = with_job self.old.now.jobs (guessed self.old.settings
                    (game_of G.step self.old) self.old.now.core player words.now until);
              };
            }) }
        ensures written { OnOk result
            (out.new.items ≡ out.old.items
            ++ ended (guess_line (length self.old.now.jobs)
            (guessed self.old.settings
            (game_of G.step self.old) self.old.now.core player words.now until))) }
        ensures refused { IfOk result
            (λ why. why ≡ result_err
            (guessed self.old.settings
            (game_of G.step self.old) self.old.now.core player words.now until)) }
        ensures fault { IfErr result (λ fault. fault ≡ PlayFault.NoMemory) }
    {
        match self.session.guess(alloc, player, words, until) {
            Ok(Some(job)) => {
                push_job(out, self.jobs.len() as u32, job.route().rows.len() as u32)?;
                self.jobs.push(Some(job))?;
                Ok(None)
            }
            Ok(None) => {
                out.extend_from_slice(b"kept\n")?;
                Ok(None)
            }
            Err(Refusal::NoMemory) => Err(PlayFault::NoMemory),
            Err(why) => {
                push_reply(out, &self.session, Reply::Refused(why))?;
                Ok(Some(why))
            }
        }
    }
}

/// Takes a job away, if there is one of this number.
fn take_job<G: Game>(jobs: &mut Vec<Option<Job<G>>>, number: usize) -> Option<Job<G>>
    ensures job { result ≡ job_at jobs.old.items number }
    ensures left { jobs.new.items ≡ slice_set jobs.old.items number None }
{
    jobs.get_mut(number)?.take()
}

/// The refusal that a reply is, if it is one.
#[inline(always)]
fn refusal_of(reply: &Reply) -> Option<Refusal>
    ensures { result ≡ refusal_in reply.now }
{
    match reply {
        Reply::Refused(why) => Some(*why),
        _ => None,
    }
}
