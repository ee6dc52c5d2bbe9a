//! The inputs of all players.
ghost use Rattle.std.specs.Prelude.{◌≡◌, ◌≢◌, ◌+◌, ◌≤◌, [], ◌∷◌, length, map, min, Some, None, true, false, All, IsTrue, IsSomeAnd, IfOk, IfErr, OnOk, OnErr, unwrap_or, if◌then◌else◌};
ghost use Rattle.roll_frame.specs.Core.{row_possible};
ghost use Rattle.roll_frame.specs.Events.{all_given};
ghost use Rattle.roll_frame.specs.Inputs.{changed, of_player, player_at, is_repeated, with_words, with_given, with_gone, with_none_given};
ghost use Rattle.roll_frame.specs.Refusals.{first_refusal};
ghost use Rattle.roll_frame.specs.Settings.{most_threshold, start_refusal};
ghost use Rattle.roll_frame.specs.declared.limits.TheConstants.{FRAME_LIMIT, PLAYER_LIMIT};
ghost use Rattle.roll_frame.specs.declared.profile.Profile.TheVariants.{Wide};
ghost use Rattle.roll_frame.specs.Timeline.{timeline, front as front_of, row_at as row_of};
ghost use Rattle.roll_inputs.specs.Boards.{first_inputs, with_player, local_refusal, remote_refusal, disconnect_refusal, guess_refusal, confirmed_word, count_of, source_at, KeepsCells};
ghost use Rattle.roll_inputs.specs.Foretold.{foretold, foretold_refusal, foretold_until_refusal, until_tests};
ghost use Rattle.std.specs.Option.{option_map};

use crate::foretold::{foretold_row, words_refusal};
use crate::heard::Heard;
use crate::queue::Queue;
use crate::queues::{
    allows, first_queues, front, is_missing, queue_of, row_at, settle_all, start_frames,
};
use crate::record::Record;
use crate::remote_word::RemoteWord;
use crate::source::Source;
use roll_frame::{PATH_LIMIT, Refusal, Row, Settings};
use std::alloc::Global;
use std::marker::Model;

/// The inputs of all players, and the timeline that follows from them.
///
/// Only `new` takes memory: the words past the settled frame lie in rings that it makes. A contract sees all words
/// that were ever confirmed. Players are numbered from 1.
#[derive(Drop)]
pub struct Board {
    queues: Vec<Queue>,
    frame: u32,
    settled: u32,
    threshold: u32,
    limit: u32,
}

impl Model for Board {
    ghost use Rattle.roll_inputs.specs.Boards.{Inputs, players_of, IsBoard};

    ghost Value = { Inputs };

    ghost view = { λ b. record { players = players_of b.queues.items; frame = b.frame; settled = b.settled; threshold = b.threshold; limit = b.limit } };

    ghost invariant = { λ b. IsBoard b.queues.items b.frame b.settled b.threshold b.limit };
}

impl Board {
    /// The players at the start. The limit of the log is judged with the other settings, though a board has no log.
    ///
    /// # Errors
    ///
    /// The refusal of the settings, else `NoMemory` where the allocator has no room.
    pub fn new(alloc: Global, settings: &Settings) -> Result<Board, Refusal>
        ensures board { IfOk result (λ board. board ≡ first_inputs settings.now) }
        ensures accepted { OnOk result (start_refusal settings.now ≡ None) }
        ensures refused { IfErr result (λ why. why ≡ unwrap_or (start_refusal settings.now)
            Refusal.NoMemory) }
    {
        if let Some(why) = settings.refusal() {
            return Err(why);
        }
        let Ok(queues) = first_queues(alloc, settings) else {
            return Err(Refusal::NoMemory);
        };
        Ok(Board {
            queues,
            frame: 0,
            settled: 0,
            threshold: settings.threshold,
            limit: settings.limit,
        })
    }

    /// Why a local word would be refused now, if it would.
    pub fn local_refusal(&self, player: u8) -> Option<Refusal>
        ensures { result ≡ local_refusal self.now player }
    {
        let Some(queue) = queue_of(&self.queues, player) else {
            return Some(Refusal::InvalidPlayer);
        };
        if !queue.is_local() {
            Some(Refusal::InvalidPlayer)
        } else if queue.is_given() {
            Some(Refusal::InputTwice)
        } else if self.frame >= self.threshold && self.frame - self.threshold >= self.front() {
            Some(Refusal::PredictionThreshold)
        } else if self.frame == self.limit {
            Some(Refusal::FrameLimit)
        } else {
            None
        }
    }

    /// Gives a local player's word of this frame.
    pub fn local(&mut self, player: u8, word: u32) -> Result<(), Refusal>
        ensures accepted { OnOk result (local_refusal self.old player ≡ None) }
        ensures given { OnOk result (self.new ≡ with_player (with_given word) self.old player) }
        ensures refused { IfErr result (λ why. local_refusal self.old player ≡ Some why) }
        ensures unchanged { OnErr result (self.new ≡ self.old) }
        ensures cells { KeepsCells self.old.players self.new.players player }
        ensures rows { timeline self.new.players self.old.settled ≡ timeline self.old.players
            self.old.settled }
    {
        if let Some(why) = self.local_refusal(player) {
            return Err(why);
        }
        self.queues[usize::from(player) - 1].give(word);
        Ok(())
    }

    /// What a remote word would be answered now. `past` is the settled rows.
    pub fn remote_reply(
        &self,
        past: &Record,
        player: u8,
        frame: u32,
        word: u32,
    ) -> Result<Heard, Refusal>
        requires past { past.now.rows ≡ timeline self.now.players self.now.settled }
        ensures heard { IfOk result
            (λ heard. heard ≡ (if is_repeated self.now.players player frame word then Heard.Repeated
            else Heard.Taken)) }
        ensures accepted { IfOk result (λ heard. heard ≡ Heard.Taken
            → remote_refusal self.now player frame ≡ None) }
        ensures refused { IfErr result (λ why. remote_refusal self.now player frame ≡ Some why) }
        ensures new { OnErr result (is_repeated self.now.players player frame word ≡ false) }
    {
        let Some(queue) = queue_of(&self.queues, player) else {
            return Err(Refusal::InvalidPlayer);
        };
        queue.reply(past, usize::from(player) - 1, frame, word)
    }

    /// Takes the next word of a remote player, or sees that it was taken before. `past` is the settled rows.
    pub fn remote(
        &mut self,
        past: &Record,
        player: u8,
        frame: u32,
        word: u32,
    ) -> Result<Heard, Refusal>
        requires past { past.now.rows ≡ timeline self.old.players self.old.settled }
        ensures heard { IfOk result
            (λ heard. heard ≡ (if is_repeated self.old.players player frame word then Heard.Repeated
            else Heard.Taken)) }
        ensures accepted { IfOk result (λ heard. heard ≡ Heard.Taken
            → remote_refusal self.old player frame ≡ None) }
        ensures words { OnOk result (self.new ≡ (if is_repeated self.old.players player frame word
            then self.old else with_player (with_words (word ∷ [])) self.old player)) }
        ensures refused { IfErr result (λ why. remote_refusal self.old player frame ≡ Some why) }
        ensures new { OnErr result (is_repeated self.old.players player frame word ≡ false) }
        ensures unchanged { OnErr result (self.new ≡ self.old) }
        ensures cells { KeepsCells self.old.players self.new.players player }
        ensures rows { timeline self.new.players self.old.settled ≡ timeline self.old.players
            self.old.settled }
    {
        let heard = self.remote_reply(past, player, frame, word)?;
        if heard == Heard::Taken {
            self.queues[usize::from(player) - 1].hear(word);
        }
        Ok(heard)
    }

    /// Why a disconnect would be refused now, if it would.
    pub fn disconnect_refusal(&self, player: u8) -> Option<Refusal>
        ensures { result ≡ disconnect_refusal self.now player }
    {
        let Some(queue) = queue_of(&self.queues, player) else {
            return Some(Refusal::InvalidPlayer);
        };
        if queue.is_local() {
            Some(Refusal::InvalidPlayer)
        } else if queue.is_gone() {
            Some(Refusal::PlayerDisconnected)
        } else {
            None
        }
    }

    /// A remote player leaves.
    pub fn disconnect(&mut self, player: u8) -> Result<(), Refusal>
        ensures accepted { OnOk result (disconnect_refusal self.old player ≡ None) }
        ensures gone { OnOk result (self.new ≡ with_player with_gone self.old player) }
        ensures refused { IfErr result (λ why. disconnect_refusal self.old player ≡ Some why) }
        ensures unchanged { OnErr result (self.new ≡ self.old) }
        ensures cells { KeepsCells self.old.players self.new.players player }
        ensures rows { timeline self.new.players self.old.settled ≡ timeline self.old.players
            self.old.settled }
    {
        if let Some(why) = self.disconnect_refusal(player) {
            return Err(why);
        }
        self.queues[usize::from(player) - 1].leave();
        Ok(())
    }

    /// Begins the next frame, with no word given.
    pub fn next(&mut self)
        requires given { IsTrue (all_given self.old.players) }
        requires near { self.old.frame ≤ self.old.settled + self.old.threshold }
        ensures begun { self.new ≡ record self.old {
          frame = self.old.frame + 1;
          players = map with_none_given self.old.players;
        } }
        ensures rows { timeline self.new.players self.old.settled ≡ timeline self.old.players
            self.old.settled }
    {
        self.frame += 1;
        start_frames(&mut self.queues);
    }

    /// The current frame.
    pub fn frame(&self) -> u32
        ensures { result ≡ self.now.frame }
    {
        self.frame
    }

    /// The settled frame: the rows below it are settled.
    pub fn settled(&self) -> u32
        ensures { result ≡ self.now.settled }
    {
        self.settled
    }

    /// Whether each local player has given its word of this frame.
    pub fn ready(&self) -> bool
        ensures { result ≡ all_given self.now.players }
    {
        !is_missing(&self.queues)
    }

    /// The timeline's row of a frame.
    pub fn row(&self, frame: u32) -> Row
        requires { self.now.settled ≤ frame }
        ensures { result ≡ row_of self.now.players frame }
    {
        row_at(&self.queues, frame)
    }

    /// Why a guess would be refused: that this player gives these words next, with rows up to a frame.
    pub fn guess_refusal(&self, player: u8, words: &[u32], until: u32) -> Option<Refusal>
        ensures { result ≡ guess_refusal self.now player words.now until }
    {
        let Some(queue) = queue_of(&self.queues, player) else {
            return Some(Refusal::InvalidPlayer);
        };
        if queue.is_gone() {
            Some(Refusal::PlayerDisconnected)
        } else if words.is_empty() || words.len() > PATH_LIMIT {
            Some(Refusal::InvalidRequest)
        } else {
            self.until_refusal(until)
        }
    }

    /// Why words that have come can't be told, if they can't: each has to be the next of its player, after those before it.
    pub fn words_refusal(&self, words: &[RemoteWord]) -> Option<Refusal>
        ensures { result ≡ foretold_refusal self.now.players words.now }
    {
        words_refusal(&self.queues, words)
    }

    /// Why a guess would be refused: that these words are told, with rows up to a frame.
    pub fn foretold_refusal(&self, words: &[RemoteWord], until: u32) -> Option<Refusal>
        ensures { result ≡ foretold_until_refusal self.now words.now until }
    {
        let refusal = self.words_refusal(words);
        if refusal.is_some() {
            refusal
        } else {
            self.until_refusal(until)
        }
    }

    /// Why rows wouldn't be guessed up to a frame.
    fn until_refusal(&self, until: u32) -> Option<Refusal>
        ensures { result ≡ first_refusal (until_tests self.now.settled self.now.limit until) }
    {
        if until <= self.settled || until - self.settled > PATH_LIMIT as u32 {
            Some(Refusal::InvalidRequest)
        } else if until > self.limit {
            Some(Refusal::InvalidRequest)
        } else {
            None
        }
    }

    /// The timeline's row of a frame, if these words were told.
    pub fn foretold(&self, words: &[RemoteWord], frame: u32) -> Row
        requires held { self.now.settled ≤ frame }
        requires next { foretold_refusal self.now.players words.now ≡ None }
        ensures { result ≡ row_of (foretold self.now.players words.now) frame }
    {
        foretold_row(&self.queues, words, frame)
    }

    /// The timeline's row of a frame, if this player gave these words next.
    pub fn guessed(&self, player: u8, words: &[u32], frame: u32) -> Row
        requires held { self.now.settled ≤ frame }
        requires there { IsSomeAnd (player_at self.now.players player) (λ p. p.gone ≡ false) }
        requires some { 1 ≤ length words.now }
        ensures { result ≡ row_of (changed (with_words words.now) self.now.players player) frame }
    {
        let place = usize::from(player) - 1;
        let mut cells = self.row(frame).cells();
        cells[place] = self.queues[place].guessed(words, frame);
        Row::from_cells(cells.as_slice())
    }

    /// Whether a row may be the timeline's of a frame: it has a cell for each player, and those known.
    pub fn allows(&self, frame: u32, row: &Row) -> bool
        requires { self.now.settled ≤ frame }
        ensures { result ≡ row_possible frame self.now.players row.now }
    {
        allows(&self.queues, frame, row)
    }

    /// How many rows are confirmed by all players that are not gone.
    pub fn front(&self) -> u32
        ensures { result ≡ front_of self.now.players }
    {
        front(&self.queues)
    }

    /// How many players there are.
    pub fn players(&self) -> usize
        ensures { result ≡ length self.now.players }
    {
        self.queues.len()
    }

    /// How many words of a player are confirmed.
    pub fn count(&self, player: u8) -> u32
        requires some { 1 ≤ player }
        requires few { player ≤ length self.now.players }
        ensures { result ≡ count_of self.now.players player }
    {
        self.queues[usize::from(player) - 1].count()
    }

    /// How many words of a player are confirmed. None where there is no such player.
    pub fn confirmed(&self, player: u8) -> Option<u32>
        ensures { result ≡ option_map (λ p. length p.words) (player_at self.now.players player) }
    {
        let queue = queue_of(&self.queues, player)?;
        Some(queue.count())
    }

    /// The confirmed word of a player at a frame, settled or not. None where it isn't confirmed, and where there is no
    /// such player. `past` is the settled rows.
    pub fn confirmed_word(&self, past: &Record, player: u8, frame: u32) -> Option<u32>
        requires { past.now.rows ≡ timeline self.now.players self.now.settled }
        ensures { result ≡ confirmed_word self.now.players player frame }
    {
        let queue = queue_of(&self.queues, player)?;
        queue.word(past, usize::from(player) - 1, frame)
    }

    /// Where a player's cell of any frame comes from. None where there is no such player.
    pub fn source(&self, player: u8, frame: u32) -> Option<Source>
        ensures { result ≡ option_map (source_at frame) (player_at self.now.players player) }
    {
        let queue = queue_of(&self.queues, player)?;
        Some(queue.source(frame))
    }

    /// Whether there is such a player, and it is local.
    pub fn is_local(&self, player: u8) -> bool
        ensures { result ≡ of_player (λ p. p.local) self.now.players player }
    {
        match queue_of(&self.queues, player) {
            Some(queue) => queue.is_local(),
            None => false,
        }
    }

    /// Settles the rows below a frame: their words are let go.
    pub fn settle(&mut self, to: u32)
        requires reached { self.old.settled ≤ to }
        requires confirmed { to ≤ min (front_of self.old.players) self.old.frame }
        ensures { self.new ≡ record self.old { settled = to } }
    {
        settle_all(&mut self.queues, to);
        self.settled = to;
    }

    /// What holds of every board. It does nothing.
    pub fn laws(&self)
        ensures some { 1 ≤ length self.now.players }
        ensures few { length self.now.players ≤ PLAYER_LIMIT }
        ensures reached { self.now.settled ≤ self.now.frame }
        ensures window { self.now.frame ≤ self.now.settled + self.now.threshold + 1 }
        ensures narrow { self.now.threshold ≤ most_threshold Wide }
        ensures short { self.now.frame ≤ FRAME_LIMIT }
        ensures stays { All (λ p. p.local ≡ true → p.gone ≡ false) self.now.players }
        ensures ahead { All (λ p. p.gone ≡ false → self.now.settled ≤ length p.words)
            self.now.players }
    {
        let _ = &self.queues;
    }
}
