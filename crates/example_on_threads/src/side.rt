//! This side of the match: its frame loop, over a host with workers and the match beside the host's session. What
//! the other presses is held back from the session until the workers have run its frames, so that a rollback runs none.
ghost use Rattle.std.specs.Prelude.{◌≡◌};
ghost use Rattle.fazgrond.specs.Hosted.{places_of};

use crate::machine::{Fault, LAST_FRAME, MOST, buttons, digest, moment, the_match};
use crate::wire::Wire;
use fazgrond::{
    Chain, Feed, Habits, HeldFault, Host, Match, PeerEvent, Profile, Refusal, RemoteWord, Session,
    Spectator, ends_in_roll,
};
use game_fighter::{Fight, State};
use std::alloc::Global;
use std::sync::Wait;
use std::thread;

/// This side's player, and the other.
pub const PLAYER: u8 = 1;

const OTHER_PLAYER: u8 = 2;

/// This machine, and the other.
const ME: u8 = 0;

const OTHER: u8 = 1;

/// For how many turns a word of the other is held back at most.
const TURNS: u8 = 2;

/// How many guesses the workers are handed at most after a frame.
const GUESSES: usize = 4;

/// What the frame loop keeps beside the host.
#[derive(Drop)]
pub struct Side {
    it: Match<Session<Fight>>,
    wire: Wire,
    /// How many words that wait for the session the workers were last handed.
    handed: usize,
    turn: u32,
    /// How many turns more this side waits for the other.
    wait: u32,
    feed: Feed,
    viewer: Spectator<Fight>,
    /// The frame that the viewer has seen.
    seen: u32,
    /// What was seen of the other player.
    habits: Habits,
    /// How many of its words were noted.
    noted: u32,
}

impl Side {
    pub fn new(alloc: Global, host: &Host<Fight>, wire: Wire) -> Result<Side, Fault> {
        let chain = Chain::of_one_epoch(the_match(ME), Profile::Ggpo);
        let it = Match::open(alloc, host.session(), chain, TURNS)?;
        let mut feed = Feed::new(alloc)?;
        let receiver = feed.add()?;
        match Spectator::new(Fight::new(), &Fight::opening(), receiver) {
            Ok(viewer) => Ok(Side {
                it,
                wire,
                handed: 0,
                turn: 0,
                wait: 0,
                feed,
                viewer,
                seen: 0,
                habits: Habits::new(&[]),
                noted: 0,
            }),
            Err(fault) => Err(fault.why.into()),
        }
    }

    /// Plays until the viewer has seen all frames and the other machine has all words: the state after them, and what the viewer
    /// saw.
    pub fn play<R: Wait>(
        &mut self,
        rt: &R,
        alloc: Global,
        host: &mut Host<Fight>,
    ) -> Result<(State, State), Fault>
        ensures { places_of host.new.pool ≡ places_of host.old.pool }
    {
        for _ in rt.forever() {
            self.take_turn(alloc, host)?;
            if self.seen == LAST_FRAME && self.has_told_all() {
                let seen = self.viewer.state().copied();
                return Ok((
                    *host.session().settled_state(),
                    seen.ok_or(Refusal::Stopped)?,
                ));
            }
            thread::yield_now();
        }
        unreachable!()
    }

    /// A turn of the frame loop.
    fn take_turn(&mut self, alloc: Global, host: &mut Host<Fight>) -> Result<(), Fault>
        ensures { places_of host.new.pool ≡ places_of host.old.pool }
    {
        self.turn = self.turn.wrapping_add(1);
        let now = moment(self.turn);
        self.hear(host, now);
        // What the workers ran.
        host.absorb();
        self.hand_over(host)?;
        self.begin(alloc, host, now)?;
        self.press(host)?;
        self.play_frame(host)?;
        self.run_ahead(host);
        self.tell(host)?;
        self.note_events()?;
        self.show(host)?;
        Ok(())
    }

    /// Hears what has come: the other's words wait.
    fn hear(&mut self, host: &mut Host<Fight>, now: u32)
        ensures { places_of host.new.pool ≡ places_of host.old.pool }
    {
        for _ in 0..MOST {
            let Some(bytes) = self.wire.receive() else {
                break;
            };
            // What is ignored changed nothing of the match.
            let _ = self.it.receive(host.session_mut(), &bytes, now);
        }
    }

    /// A turn of the match begins.
    fn begin(&mut self, alloc: Global, host: &mut Host<Fight>, now: u32) -> Result<(), Fault>
        ensures { places_of host.new.pool ≡ places_of host.old.pool }
    {
        let turned = self.it.turn(alloc, host.session_mut(), now);
        turned.polled??;
        turned.handed?;
        Ok(())
    }

    /// Takes what the match tells: for how many turns to wait, and that the machines differ.
    fn note_events(&mut self) -> Result<(), Fault> {
        for _ in 0..MOST {
            match self.it.event() {
                Some(PeerEvent::TimeSync { frames_ahead }) => self.wait = frames_ahead,
                Some(PeerEvent::Desync { .. }) => return Err(Fault::Desync),
                Some(_) => {}
                None => break,
            }
        }
        Ok(())
    }

    /// Tells the session words that wait, once it would run no frame again for them. After two turns it is told them anyway.
    fn hand_over(&mut self, host: &mut Host<Fight>) -> Result<(), HeldFault>
        ensures { places_of host.new.pool ≡ places_of host.old.pool }
    {
        let ready = ready(host.session(), self.it.waiting(), self.handed);
        self.it.hand_over(host.session_mut(), ready)
    }

    /// Gives the word of the buttons, once the match has begun, unless this side has to wait.
    fn press(&mut self, host: &mut Host<Fight>) -> Result<(), Refusal>
        ensures { places_of host.new.pool ≡ places_of host.old.pool }
    {
        let frame = host.session().frame();
        if frame == LAST_FRAME || !self.it.is_running() || self.is_to_wait() {
            return Ok(());
        }
        match host.add_local_input(PLAYER, buttons(PLAYER, frame)) {
            // Too far ahead of what is confirmed.
            Ok(()) | Err(Refusal::PredictionThreshold) => Ok(()),
            Err(why) => Err(why),
        }
    }

    /// Whether the other is to catch up first.
    fn is_to_wait(&mut self) -> bool {
        let waits = self.wait > 0;
        self.wait = self.wait.saturating_sub(1);
        waits
    }

    /// Goes to the next frame if this side's word of it is there; else rolls back, if there is anything new.
    fn play_frame(&mut self, host: &mut Host<Fight>) -> Result<(), Refusal>
        ensures { places_of host.new.pool ≡ places_of host.old.pool }
    {
        if !self.it.is_running() {
            return Ok(());
        }
        match host.advance_frame() {
            Ok(_) => Ok(()),
            Err(Refusal::LocalInputMissing) => roll_back(host),
            Err(why) => Err(why),
        }
    }

    /// Has the workers run the frames of the words that wait; if none does, they run guesses.
    fn run_ahead(&mut self, host: &mut Host<Fight>)
        ensures { places_of host.new.pool ≡ places_of host.old.pool }
    {
        self.handed = self.it.waiting().len();
        if self.handed == 0 {
            self.guess(host);
            return;
        }
        let frame = host.session().frame();
        // If it is refused, the words are told in time all the same.
        let _ = host.speculate_words(self.it.waiting(), frame);
    }

    /// Has the workers run what comes of it if the other player goes on as it did, or changes as it often does. A guess that is
    /// refused costs nothing.
    fn guess(&mut self, host: &mut Host<Fight>)
        ensures { places_of host.new.pool ≡ places_of host.old.pool }
    {
        let session = host.session();
        let confirmed = session.confirmed(OTHER_PLAYER).unwrap_or(0);
        for frame in self.noted..confirmed {
            if let Some(word) = session.confirmed_word(OTHER_PLAYER, frame) {
                self.habits.note(word);
            }
        }
        self.noted = confirmed;
        let best = self.habits.choose(session, OTHER_PLAYER);
        for guess in best.iter().take(GUESSES) {
            let _ = host.speculate(OTHER_PLAYER, guess.words.as_slice(), guess.until);
        }
    }

    /// Tells the other machine what it lacks, and the digest of what is settled.
    fn tell(&mut self, host: &mut Host<Fight>) -> Result<(), Fault>
        ensures { places_of host.new.pool ≡ places_of host.old.pool }
    {
        let session = host.session();
        self.it.note(session, digest(session.settled_state()));
        for _ in 0..MOST {
            match self.it.next(host.session_mut()) {
                Some((_, bytes)) => self.wire.send(&bytes)?,
                None => break,
            }
        }
        Ok(())
    }

    /// Whether the other machine said that it has all words of this side.
    fn has_told_all(&self) -> bool {
        match self.it.stats(OTHER) {
            Some(stats) => stats.words_queued == 0,
            None => false,
        }
    }

    /// Sends the viewer what is settled, and has it run. A viewer may as well run on a thread of its own.
    fn show(&mut self, host: &Host<Fight>) -> Result<(), Refusal> {
        self.feed.push(host.session());
        for _ in 0..LAST_FRAME {
            match self.viewer.step() {
                Ok(frame) => self.seen = frame,
                // No row is there.
                Err(Refusal::PredictionThreshold) => break,
                Err(why) => return Err(why),
            }
        }
        Ok(())
    }
}

/// Of how many of these words a session can be told so that it runs no frame again: of all; else of as many as the workers were
/// handed; else of none.
fn ready(session: &Session<Fight>, words: &[RemoteWord], handed: usize) -> usize {
    let handed = handed.min(words.len());
    if matches!(session.rerun(words), Ok(0)) {
        words.len()
    } else if matches!(session.rerun(&words[..handed]), Ok(0)) {
        handed
    } else {
        0
    }
}

/// Rolls back, unless nothing but branches came since the last frame.
fn roll_back(host: &mut Host<Fight>) -> Result<(), Refusal>
    ensures { places_of host.new.pool ≡ places_of host.old.pool }
{
    if !ends_in_roll(host.session().log()) {
        host.synchronize_input()?;
    }
    Ok(())
}
