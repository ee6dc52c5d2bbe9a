//! The host's end of a viewer's line.
ghost use Rattle.std.specs.Prelude.{◌≡◌, ◌≤◌, option_map, true, Some, None, IfErr, IfOk, IfSome, OnOk};
ghost use Rattle.roll_wire.specs.Spelling.{is_turn, turn, Fits, Leaves, Plays};
ghost use Rattle.roll_viewer.specs.Ends.{after_ack, host_after, host_message, host_sends, host_told, ignored_by_host, opened_host, unheard_by_host, with_told, HostHears};
ghost use Rattle.roll_viewer.specs.Lines.{after_bye, after_refusal, after_unread, clocks_at, farewell, fault_of, is_silent, message_of, opened, silence};
ghost use Rattle.roll_viewer.specs.Seeing.{TellsRows};
ghost use Rattle.roll_viewer.specs.Telling.{told_to, with_clocks};
ghost use Rattle.roll_viewer.specs.declared.line.TheConstants.{VIEWER as VIEWER_END};

use crate::line::{Line, VIEWER};
use crate::refusal::{LineFault, LineRefusal};
use crate::rows::{is_inside, least_with};
use crate::settings::LineSettings;
use crate::telling::{room_after, tells_rows, told_to};
use arrayvec::ArrayVec;
use roll_contact::Stage;
use roll_mesh::PLAYER_LIMIT;
use roll_session::Settling;
use roll_wire::{Body, DATAGRAM_LIMIT, Play};
use std::marker::Model;

/// The host's end of a viewer's line: what a machine of a match knows of one viewer. It takes no memory.
///
/// A program has one for each viewer, and maps addresses to them. It calls `receive` for what came of the viewer, and sends what
/// `send` makes, some 60 times a second. All moments are its own clock's, in milliseconds; the clock begins anew after 2^32.
#[derive(Debug, Drop)]
pub struct ViewerLine {
    line: Line,
    had: u32,
    told: u32,
}

/// A clause sees what is known of the viewer, how many rows it has said that it has, and how many it was told.
impl Model for ViewerLine {
    ghost use Rattle.std.specs.Prelude.{◌≤◌};
    ghost use Rattle.roll_viewer.specs.Ends.{Hosted};

    ghost Value = { Hosted };

    ghost view = { λ host. record { line = host.line; had = host.had; told = host.told } };

    ghost invariant = { λ host. host.had ≤ host.told };
}

impl ViewerLine {
    /// A line with a viewer of whom nothing was heard.
    ///
    /// # Errors
    ///
    /// `NoDraw`, `Machines` or `Host`: what is wrong with the settings.
    pub fn open(settings: LineSettings) -> Result<ViewerLine, LineFault>
        ensures opened { IfOk result (λ host. host ≡ opened_host settings) }
        ensures accepted { OnOk result (fault_of settings ≡ None) }
        ensures refused { IfErr result (λ why. fault_of settings ≡ Some why) }
    {
        match settings.fault() {
            Some(why) => Err(why),
            None => Ok(ViewerLine {
                line: Line::new(settings),
                had: 0,
                told: 0,
            }),
        }
    }

    /// Hears bytes that came from the viewer, at a moment.
    ///
    /// # Errors
    ///
    /// Why they weren't heard: `LineRefusal` says what that changes. A viewer who means another match is told nothing until it
    /// means this one.
    pub fn receive(&mut self, bytes: &[u8], now: u32) -> Result<(), LineRefusal>
        ensures received { OnOk result (HostHears self.old self.new bytes.now now) }
        ensures accepted { OnOk result
            (ignored_by_host self.old (opened self.old.line VIEWER_END bytes.now) ≡ None) }
        ensures ignored { IfErr result
            (λ why. ignored_by_host self.old (opened self.old.line VIEWER_END bytes.now) ≡ Some
            why) }
        ensures rest { IfErr result (λ why. self.new ≡ record self.old {
          line = after_refusal
              self.old.line now why (opened self.old.line VIEWER_END bytes.now);
        }) }
    {
        match self.line.open(VIEWER, bytes)? {
            Body::Hello(hello) => self.line.hear_hello(&hello, now),
            Body::Play(play) => self.hear_play(&play, now),
            Body::Bye { .. } => {
                self.line.end();
                Ok(())
            }
        }
    }

    /// A play is heard, if it tells nothing of who isn't in the match.
    fn hear_play(&mut self, play: &Play, now: u32) -> Result<(), LineRefusal>
        ensures heard { OnOk result
            (self.new ≡ host_after self.old now (Plays (turn play.now))) }
        ensures accepted { OnOk result
            (unheard_by_host self.old (Plays (turn play.now)) ≡ None) }
        ensures refused { IfErr result
            (λ why. unheard_by_host self.old (Plays (turn play.now)) ≡ Some why) }
        ensures rest { IfErr result
            (λ why. self.new ≡ record self.old { line = after_unread why self.old.line }) }
    {
        if !is_inside(self.line.settings.players(), play) {
            self.line.refuse();
            return Err(LineRefusal::NoRows);
        }
        self.line.hear_play(&play.head, self.told, now);
        self.acknowledge(&play.head.view.has);
        Ok(())
    }

    /// The viewer says how many rows it has of each player.
    fn acknowledge(&mut self, has: &[u32; PLAYER_LIMIT])
        ensures { self.new ≡ record self.old { had = after_ack self.old has.now } }
    {
        let players = self.line.settings.players();
        let rows = least_with(self.told, &has[..players]);
        self.had = self.had.max(rows);
    }

    /// The bytes to send to the viewer in this turn of the match's session, at a moment: a hello, until its draw is believed, and
    /// then now and again until its first play comes; else the settled rows that it hasn't said that it has, as many as fit.
    /// None once the line has ended.
    pub fn send<S: Settling>(
        &mut self,
        session: &S,
        now: u32,
    ) -> Option<ArrayVec<u8, DATAGRAM_LIMIT>>
        ensures sent { option_map (λ bytes. bytes.items) result
            ≡ host_sends self.old (S.seen session.now).core now }
        ensures fits { IfSome result
            (λ bytes. Fits (host_message self.old (S.seen session.now).core now)) }
        ensures told { self.new ≡ host_told self.old (S.seen session.now).core now }
        ensures rows { TellsRows (S.seen session.now).core self.old.had }
    {
        tells_rows(session, self.had);
        if self.line.ended {
            return None;
        }
        let host = self.line.settings.host;
        if self.line.contact.says_hello() {
            return Some(self.line.greet(host, now));
        }
        let play = self.tell(session, now);
        Some(self.line.play(host, play, now))
    }

    /// The next rows, which the viewer is told from now on.
    fn tell<S: Settling>(&mut self, session: &S, now: u32) -> Play
        ensures play { turn result ≡ with_clocks self.old.line.contact.sent
            (clocks_at self.old.line (with_told self.old (S.seen session.now).core).told now)
            (told_to (S.seen session.now).core self.old.had) }
        ensures whole { is_turn (turn result) ≡ true }
        ensures told { self.new ≡ with_told self.old (S.seen session.now).core }
    {
        let end = self.had + room_after(session, self.had);
        self.told = self.told.max(end);
        let clocks = self.line.clocks(self.told, now);
        told_to(session, self.had, self.line.contact.sent, clocks)
    }

    /// This machine leaves the viewer, and the line ends: the bytes that say so, if the viewer's draw is believed. Send them a few
    /// times, since they may be lost.
    pub fn bye(&mut self) -> Option<ArrayVec<u8, DATAGRAM_LIMIT>>
        ensures said { option_map (λ bytes. bytes.items) result
            ≡ farewell self.old.line self.old.line.settings.host }
        ensures fits { IfSome result
            (λ bytes. Fits (message_of self.old.line self.old.line.settings.host (Leaves 0))) }
        ensures ended { self.new ≡ record self.old { line = after_bye self.old.line } }
    {
        let host = self.line.settings.host;
        self.line.bye(host)
    }

    /// How many rows the viewer has said that it has, of those that it was told: of a play the least of its counts. It
    /// never falls.
    pub fn had(&self) -> u32
        ensures had { result ≡ self.now.had }
        ensures told { result ≤ self.now.told }
    {
        self.had
    }

    /// How many rows the viewer was told, at most.
    pub fn told(&self) -> u32
        ensures { result ≡ self.now.told }
    {
        self.told
    }

    /// For how many milliseconds the viewer has answered nothing, if its draw is believed; else 0. What is only copied is no answer.
    pub fn silence(&self, now: u32) -> u32
        ensures { result ≡ silence self.now.line now }
    {
        self.line.silence(now)
    }

    /// Whether the viewer has answered nothing for longer than `silent_after`, though enough was asked: end the line then. One who
    /// was opened anew can't go on with it.
    pub fn is_silent(&self, now: u32) -> bool
        ensures { result ≡ is_silent self.now.line now }
    {
        self.line.is_silent(now)
    }

    /// How far the two have come.
    pub fn stage(&self) -> Stage
        ensures { result ≡ self.now.line.contact.stage }
    {
        self.line.contact.stage
    }

    /// Whether one of the two has said bye.
    pub fn has_ended(&self) -> bool
        ensures { result ≡ self.now.line.ended }
    {
        self.line.ended
    }
}
