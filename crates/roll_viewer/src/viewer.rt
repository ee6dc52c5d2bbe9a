//! The viewer's end of a line.
ghost use Rattle.std.specs.Prelude.{◌≡◌, ◌≤◌, option_map, slice_get, Some, None, IfErr, IfOk, OnOk};
ghost use Rattle.std.specs.Option.{option_or};
ghost use Rattle.roll_frame.specs.declared.limits.TheConstants.{FRAME_LIMIT};
ghost use Rattle.roll_wire.specs.Spelling.{turn, Plays};
ghost use Rattle.roll_viewer.specs.Ends.{ignored_by_viewer, opened_viewer, unheard_by_viewer, viewer_sends, viewer_told, HearsRows, ViewerHears};
ghost use Rattle.roll_viewer.specs.Lines.{after_bye, after_refusal, after_unread, farewell, fault_of, is_silent, opened, silence};
ghost use Rattle.roll_viewer.specs.Queued.{with_taken, IsHandedOn};
ghost use Rattle.roll_viewer.specs.declared.refusal.LineFault.TheVariants.{NoMemory};
ghost use Rattle.roll_viewer.specs.declared.line.TheConstants.{VIEWER as VIEWER_END};

use crate::line::{Line, VIEWER};
use crate::queue::RowQueue;
use crate::refusal::{LineFault, LineRefusal};
use crate::rows::{are_rows, first_row, most_of, take_rows};
use crate::settings::LineSettings;
use crate::telling::acknowledged;
use arrayvec::ArrayVec;
use roll_contact::Stage;
use roll_frame::Row;
use roll_spectate::RowSender;
use roll_wire::{Body, DATAGRAM_LIMIT, Play};
use std::alloc::Global;
use std::marker::Model;

/// The viewer's end of a line: it hears the settled rows of a match from its host, and keeps up to 64 of them until they are
/// taken.
///
/// A program calls `receive` for what came of the host, takes the rows that came, and sends what `send` makes, some 60 times a
/// second. All moments are its own clock's, in milliseconds; the clock begins anew after 2^32.
#[derive(Drop)]
pub struct Viewer {
    line: Line,
    rows: RowQueue,
    settled: u32,
}

/// A clause sees what is known of the host, the rows that came, and how many rows the host said that it has.
impl Model for Viewer {
    ghost use Rattle.roll_viewer.specs.Ends.{Viewing};

    ghost Value = { Viewing };

    ghost view = { λ viewer. record { line = viewer.line; rows = viewer.rows; settled = viewer.settled } };
}

impl Viewer {
    /// A viewer who heard nothing, with room for 64 rows.
    ///
    /// # Errors
    ///
    /// `NoDraw`, `Machines` or `Host`: what is wrong with the settings. Else `NoMemory`, if the allocator has no room.
    pub fn open(alloc: Global, settings: LineSettings) -> Result<Viewer, LineFault>
        ensures opened { IfOk result (λ viewer. viewer ≡ opened_viewer settings) }
        ensures accepted { OnOk result (fault_of settings ≡ None) }
        ensures refused { IfErr result
            (λ why. option_or (fault_of settings) (Some NoMemory) ≡ Some why) }
    {
        if let Some(why) = settings.fault() {
            return Err(why);
        }
        match RowQueue::new(alloc) {
            Ok(rows) => Ok(Viewer {
                line: Line::new(settings),
                rows,
                settled: 0,
            }),
            Err(_) => Err(LineFault::NoMemory),
        }
    }

    /// Hears bytes that came from the host, at a moment. Of the rows that they tell those are taken in that the viewer lacks, until
    /// 64 wait, or as many came as a session has frames: how many these were. The others come again.
    ///
    /// # Errors
    ///
    /// Why they weren't heard: `LineRefusal` says what that changes.
    pub fn receive(&mut self, bytes: &[u8], now: u32) -> Result<u32, LineRefusal>
        ensures received { IfOk result (ViewerHears self.old self.new bytes.now now) }
        ensures accepted { OnOk result (ignored_by_viewer self.old
            (opened self.old.line self.old.line.settings.host bytes.now) ≡ None) }
        ensures ignored { IfErr result (λ why. ignored_by_viewer self.old
            (opened self.old.line self.old.line.settings.host bytes.now) ≡ Some why) }
        ensures rest { IfErr result (λ why. self.new ≡ record self.old {
          line = after_refusal
              self.old.line now why
              (opened self.old.line self.old.line.settings.host bytes.now);
        }) }
    {
        let host = self.line.settings.host;
        match self.line.open(host, bytes)? {
            Body::Hello(hello) => {
                self.line.hear_hello(&hello, now)?;
                Ok(0)
            }
            Body::Play(play) => self.hear_play(&play, now),
            Body::Bye { .. } => {
                self.line.end();
                Ok(0)
            }
        }
    }

    /// A play is heard.
    fn hear_play(&mut self, play: &Play, now: u32) -> Result<u32, LineRefusal>
        ensures heard { IfOk result (HearsRows self.old self.new now (turn play.now)) }
        ensures accepted { OnOk result (unheard_by_viewer self.old (Plays (turn play.now)) ≡ None) }
        ensures refused { IfErr result
            (λ why. unheard_by_viewer self.old (Plays (turn play.now)) ≡ Some why) }
        ensures rest { IfErr result
            (λ why. self.new ≡ record self.old { line = after_unread why self.old.line }) }
    {
        let players = self.line.settings.players();
        if !are_rows(players, play) {
            self.line.refuse();
            return Err(LineRefusal::NoRows);
        }
        let rows = self.rows.count();
        if first_row(play) > rows {
            return Err(LineRefusal::Gap);
        }
        self.line.hear_play(&play.head, rows, now);
        self.settled = self.settled.max(most_of(&play.head.view.has));
        Ok(take_rows(&mut self.rows, players, play))
    }

    /// Takes the first row that waits. None if and only if none does.
    pub fn next_row(&mut self) -> Option<Row>
        ensures which { result ≡ slice_get self.old.rows.waiting 0 }
        ensures rest { self.new ≡ record self.old { rows = with_taken 1 self.old.rows } }
    {
        self.rows.pop()
    }

    /// Sends a `Spectator` the rows that wait, by the ring that [`open_ring`](roll_spectate::open_ring) made, until
    /// that is full, or was sent as many as a session has frames, and says how many. The ring is to be one by which
    /// nothing else is sent.
    pub fn hand_to(&mut self, sender: &mut RowSender) -> u32
        ensures rows { IsHandedOn self.old.rows self.new.rows sender.old sender.new result }
        ensures rest { self.new ≡ record self.old { rows = self.new.rows } }
    {
        self.rows.hand_to(sender)
    }

    /// The bytes to send to the host in this turn, at a moment: a hello, until its draw is believed, and then now and again until
    /// its first play comes; else how many rows the viewer has. None once the line has ended.
    pub fn send(&mut self, now: u32) -> Option<ArrayVec<u8, DATAGRAM_LIMIT>>
        ensures sent { option_map (λ bytes. bytes.items) result ≡ viewer_sends self.old now }
        ensures told { self.new ≡ viewer_told self.old now }
    {
        if self.line.ended {
            return None;
        }
        if self.line.contact.says_hello() {
            return Some(self.line.greet(VIEWER, now));
        }
        let rows = self.rows.count();
        let clocks = self.line.clocks(rows, now);
        let number = self.line.contact.sent;
        let play = acknowledged(self.line.settings.players(), rows, number, clocks);
        Some(self.line.play(VIEWER, play, now))
    }

    /// The viewer leaves, and the line ends: the bytes that say so, if the host's draw is believed. Send them a few times, since
    /// they may be lost.
    pub fn bye(&mut self) -> Option<ArrayVec<u8, DATAGRAM_LIMIT>>
        ensures said { option_map (λ bytes. bytes.items) result
            ≡ farewell self.old.line VIEWER_END }
        ensures ended { self.new ≡ record self.old { line = after_bye self.old.line } }
    {
        self.line.bye(VIEWER)
    }

    /// How many rows came, those that were taken too.
    pub fn rows(&self) -> u32
        ensures rows { result ≡ self.now.rows.count }
        ensures few { result ≤ FRAME_LIMIT }
    {
        self.rows.count()
    }

    /// The most rows that the host has said that it has.
    pub fn settled(&self) -> u32
        ensures { result ≡ self.now.settled }
    {
        self.settled
    }

    /// For how many milliseconds the host has answered nothing, if its draw is believed; else 0. What is only copied is no answer.
    pub fn silence(&self, now: u32) -> u32
        ensures { result ≡ silence self.now.line now }
    {
        self.line.silence(now)
    }

    /// Whether the host has answered nothing for longer than `silent_after`, though enough was asked: end the line then. One who
    /// was opened anew can't go on with it.
    pub fn is_silent(&self, now: u32) -> bool
        ensures { result ≡ is_silent self.now.line now }
    {
        self.line.is_silent(now)
    }

    /// How far the two have come.
    pub fn stage(&self) -> Stage
        ensures { result ≡ self.now.line.contact.stage }
    {
        self.line.contact.stage
    }

    /// Whether one of the two has said bye.
    pub fn has_ended(&self) -> bool
        ensures { result ≡ self.now.line.ended }
    {
        self.line.ended
    }
}
