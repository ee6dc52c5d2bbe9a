//! One player's input queue.
ghost use Rattle.std.specs.Prelude.{◌≡◌, ◌+◌, ◌<◌, ◌≤◌, ◌^◌, IfOk, length, [], ◌∷◌, ◌==◌, slice_get, if◌then◌else◌, Some, None, false, IfErr, OnErr};
ghost use Rattle.roll_frame.specs.Core.{cell_possible};
ghost use Rattle.roll_frame.specs.Inputs.{is_repeated, remote_tests, with_words, with_given, with_gone, with_none_given};
ghost use Rattle.roll_frame.specs.Refusals.{first_refusal};
ghost use Rattle.roll_frame.specs.Settings.{first_player, delay_at};
ghost use Rattle.roll_frame.specs.Timeline.{cell_at, Player};
ghost use Rattle.roll_inputs.specs.Boards.{source_at};

use crate::heard::Heard;
use crate::history::History;
use crate::record::Record;
use crate::remote_word::RemoteWord;
use crate::source::Source;
use circular_buffer::HeapCircularBuffer;
use roll_frame::{Cell, DELAY_LIMIT, PLAYER_LIMIT, QUEUE_LIMIT, Refusal, Settings};
use std::alloc::{AllocError, Global};
use std::marker::Model;

/// What is known of one player. The ring has the confirmed words from a frame on.
#[derive(Drop)]
pub(crate) struct Queue {
    ring: HeapCircularBuffer<u32>,
    from: u32,
    count: u32,
    before: u32,
    last: u32,
    mask: u32,
    local: bool,
    gone: bool,
    given: bool,
    history: History,
}

impl Model for Queue {
    ghost use Rattle.roll_inputs.specs.Queues.{Known, known, IsQueue};

    ghost Value = { Known };

    ghost view = { known };

    ghost invariant = { IsQueue };
}

impl Queue {
    ghost use Rattle.roll_inputs.specs.Queues.{HasPast};

    /// A player at the start, with a word for each frame of delay.
    pub(crate) fn new(alloc: Global, settings: &Settings, place: u8) -> Result<Queue, AllocError>
        requires place { place < PLAYER_LIMIT }
        requires delay { delay_at settings.now place ≤ DELAY_LIMIT }
        ensures { IfOk result (λ q. q ≡ record {
          player = first_player settings.now place;
          from = 0;
        }) }
    {
        let at = usize::from(place);
        let mut queue = Queue {
            ring: HeapCircularBuffer::with_capacity(alloc, QUEUE_LIMIT)?,
            from: 0,
            count: 0,
            before: settings.before[at],
            last: settings.before[at],
            mask: settings.masks[at],
            local: settings.is_local(place),
            gone: false,
            given: false,
            history: History::new(),
        };
        for frame in 0..settings.delays[at] {
            queue.hear(settings.first[at][frame as usize]);
        }
        Ok(queue)
    }

    pub(crate) fn is_local(&self) -> bool
        ensures { result ≡ self.now.player.local }
    {
        self.local
    }

    pub(crate) fn is_gone(&self) -> bool
        ensures { result ≡ self.now.player.gone }
    {
        self.gone
    }

    /// Whether the word of this frame was given.
    pub(crate) fn is_given(&self) -> bool
        ensures { result ≡ self.now.player.given }
    {
        self.given
    }

    /// How many words are confirmed.
    pub(crate) fn count(&self) -> u32
        ensures { result ≡ length self.now.player.words }
    {
        self.count
    }

    /// The cell of a frame: confirmed, gone or predicted.
    pub(crate) fn cell(&self, frame: u32) -> Cell
        requires { self.now.from ≤ frame }
        ensures { result ≡ cell_at frame self.now.player }
    {
        if frame < self.count {
            match self.ring.get((frame - self.from) as usize) {
                Some(word) => Cell::Word(*word),
                None => unreachable!(),
            }
        } else if self.gone {
            Cell::Gone
        } else {
            Cell::Word(self.last & self.mask)
        }
    }

    /// The cell of a frame, if the player gave these words next.
    pub(crate) fn guessed(&self, words: &[u32], frame: u32) -> Cell
        requires held { self.now.from ≤ frame }
        requires there { self.now.player.gone ≡ false }
        requires some { 1 ≤ length words.now }
        ensures { result ≡ cell_at frame (with_words words.now self.now.player) }
    {
        if frame < self.count {
            return self.cell(frame);
        }
        let place = (frame - self.count) as usize;
        if place < words.len() {
            Cell::Word(words[place])
        } else {
            Cell::Word(words[words.len() - 1] & self.mask)
        }
    }

    /// The player's cell of a frame once a word more is told, from what it was before, whatever words were told meanwhile.
    pub(crate) fn next_cell(&self, cell: Cell, told: &RemoteWord, frame: u32) -> Cell
        ensures { (player : Player) → player.mask ≡ self.now.player.mask → player.gone ≡ false
            → length player.words ≡ told.now.frame → cell ≡ cell_at frame player
            → result ≡ cell_at frame (with_words (told.now.word ∷ []) player) }
    {
        if frame < told.frame {
            cell
        } else if frame == told.frame {
            Cell::Word(told.word)
        } else {
            Cell::Word(told.word & self.mask)
        }
    }

    /// Whether this cell may be the player's in a frame: it is the known one, or none is known.
    pub(crate) fn allows(&self, frame: u32, cell: Cell) -> bool
        requires { self.now.from ≤ frame }
        ensures { result ≡ cell_possible frame self.now.player cell }
    {
        if frame < self.count || self.gone {
            cell == self.cell(frame)
        } else {
            true
        }
    }

    /// Where the cell of a frame comes from.
    pub(crate) fn source(&self, frame: u32) -> Source
        ensures { result ≡ source_at frame self.now.player }
    {
        if frame < self.count {
            Source::Confirmed
        } else if self.gone {
            Source::Gone
        } else {
            Source::Predicted
        }
    }

    /// The confirmed word of a frame. `past` has the rows below the ring's first frame, with the player's cells at a place.
    pub(crate) fn word(&self, past: &Record, place: usize, frame: u32) -> Option<u32>
        requires { HasPast self.now past.now.rows place }
        ensures { result ≡ slice_get self.now.player.words frame }
    {
        if frame >= self.count {
            None
        } else if frame < self.from {
            past.cell(frame as usize, place).map(|cell| cell.word())
        } else {
            self.ring.get((frame - self.from) as usize).copied()
        }
    }

    /// What a remote word is answered, by the tests of this player alone. `past` as in `word`.
    pub(crate) fn reply(
        &self,
        past: &Record,
        place: usize,
        frame: u32,
        word: u32,
    ) -> Result<Heard, Refusal>
        requires past { HasPast self.now past.now.rows place }
        requires ahead { self.now.player.gone ≡ false
            → self.now.from ≤ length self.now.player.words }
        ensures heard { IfOk result
            (λ heard. heard ≡ (if is_repeated (self.now.player ∷ []) 1 frame word
            then Heard.Repeated else Heard.Taken)) }
        ensures accepted { IfOk result (λ heard. heard ≡ Heard.Taken
            → first_refusal (remote_tests (self.now.player ∷ []) self.now.from 1 frame) ≡ None) }
        ensures refused { IfErr result
            (λ why. first_refusal (remote_tests (self.now.player ∷ []) self.now.from 1 frame) ≡ Some
            why) }
        ensures new { OnErr result (is_repeated (self.now.player ∷ []) 1 frame word ≡ false) }
    {
        if self.local {
            Err(Refusal::InvalidPlayer)
        } else if self.gone {
            Err(Refusal::PlayerDisconnected)
        } else if frame < self.count {
            if self.word(past, place, frame) == Some(word) {
                Ok(Heard::Repeated)
            } else {
                Err(Refusal::Conflict)
            }
        } else if frame > self.count {
            Err(Refusal::Gap)
        } else if (self.count - self.from) as usize >= QUEUE_LIMIT {
            Err(Refusal::QueueFull)
        } else {
            Ok(Heard::Taken)
        }
    }

    /// Confirms the next word.
    pub(crate) fn hear(&mut self, word: u32)
        requires ahead { self.old.from ≤ length self.old.player.words }
        requires room { length self.old.player.words < self.old.from + QUEUE_LIMIT }
        requires fits { length self.old.player.words + 1 < 2 ^ 32 }
        ensures { self.new ≡ record self.old { player = with_words (word ∷ []) self.old.player } }
    {
        self.ring.push_back(word);
        self.history = self.history.and(&word);
        self.count += 1;
        self.last = word;
    }

    /// Confirms the next word, which is that of this frame.
    pub(crate) fn give(&mut self, word: u32)
        requires ahead { self.old.from ≤ length self.old.player.words }
        requires room { length self.old.player.words < self.old.from + QUEUE_LIMIT }
        requires fits { length self.old.player.words + 1 < 2 ^ 32 }
        ensures { self.new ≡ record self.old { player = with_given word self.old.player } }
    {
        self.hear(word);
        self.given = true;
    }

    /// The player leaves.
    pub(crate) fn leave(&mut self)
        ensures { self.new ≡ record self.old { player = with_gone self.old.player } }
    {
        self.gone = true;
    }

    /// Begins a frame, with no word given.
    pub(crate) fn start_frame(&mut self)
        ensures { self.new ≡ record self.old { player = with_none_given self.old.player } }
    {
        self.given = false;
    }

    /// Lets go of the words below a frame.
    pub(crate) fn settle(&mut self, to: u32)
        requires { self.old.from ≤ to }
        ensures { self.new ≡ record self.old { from = to } }
    {
        let settled = (to - self.from) as usize;
        let left = self.ring.len().saturating_sub(settled);
        self.ring.truncate_front(left);
        self.from = to;
    }
}
