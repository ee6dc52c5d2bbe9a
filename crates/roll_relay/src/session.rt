//! A session and the words that are held back from it, as the network of a match sees them.
ghost use Rattle.std.specs.Prelude.{◌≡◌, ◌≢◌, ◌+◌, ◌-◌, ◌≤◌, ◌<◌, [], ◌∷◌, ◌++◌, length, max, true, IfErr, IfOk, IsSome, IsTrue, None, OnErr, OnOk};
ghost use Rattle.roll_frame.specs.Inputs.{disconnect_tests};
ghost use Rattle.roll_frame.specs.Refusals.{first_refusal};
ghost use Rattle.roll_frame.specs.declared.event.Event.TheVariants.{DisconnectedFromPeer};
ghost use Rattle.roll_relay.specs.Told.{as_told, is_next, roomless, told, Fits, Takes};
ghost use Rattle.roll_relay.specs.Rooms.{KeepRoom};
ghost use Rattle.roll_relay.specs.Waits.{Waits};
ghost use Rattle.roll_relay.specs.declared.held.TheConstants.{HELD_LIMIT as MOST_HELD};
ghost use Rattle.roll_session.specs.Changes.{after_disconnect, disconnect_refusal, reserve_refusal, FitsLog, IsRefused, IsWhy};

use crate::held::Held;
use crate::words::{count_among, is_next, tell, word_among};
use arrayvec::ArrayVec;
use roll_frame::{Event, Refusal, Settings};
use roll_session::{Heard, Networked, RemoteWord, Settling, Source};
use std::mem;

/// A session as if it had heard the words that are held back from it.
#[derive(Drop)]
pub(crate) struct HeldSession<'a, S: Settling> {
    pub(crate) session: &'a mut S,
    pub(crate) held: &'a mut Held,
    pub(crate) reserved: u32,
    ghost fits: { Fits (S.seen session.now) held.now.words.items },
    ghost room: { length held.now.words.items + reserved ≤ (S.seen session.now).reserved },
    ghost log: { FitsLog (S.seen session.now) (length held.now.words.items + reserved) },
}

impl<'a, S: Settling> HeldSession<'a, S> {
    /// Tells the session all words that are held back.
    fn tell_all(&mut self)
        ensures none { self.new.held.now.words.items ≡ [] }
        ensures session { S.seen self.new.session.now
            ≡ told (S.seen self.old.session.now) self.old.held.now.words.items }
        ensures reserved { self.new.reserved ≡ self.old.reserved }
        ensures same_session { self.new.session.ghost_name ≡ self.old.session.ghost_name }
        ensures waits { Waits (S.seen self.old.session.now) (S.seen self.new.session.now)
            self.old.held.now self.new.held.now }
        ensures same_held { self.new.held.ghost_name ≡ self.old.held.ghost_name }
        ensures keeps { S.keeps self.old.session.now self.new.session.now }
    {
        let words = mem::replace(&mut self.held.words, ArrayVec::new());
        self.held.waited = ArrayVec::new();
        tell(self.session, words.as_slice());
    }

    /// There is room for one event more: for certain, if one is reserved.
    fn make_room(&mut self) -> Result<(), Refusal>
        ensures room { OnOk result (1
            ≤ (told (S.seen self.new.session.now) self.new.held.now.words.items).reserved) }
        ensures log { OnOk result (FitsLog (S.seen self.new.session.now)
            (length self.new.held.now.words.items + 1)) }
        ensures refused { IfErr result (IsWhy (reserve_refusal (S.seen self.old.session.now)
            (length self.old.held.now.words.items + 1))) }
        ensures unreserved { OnErr result (self.old.reserved ≡ 0) }
        ensures same { roomless (S.seen self.new.session.now) ≡ roomless
            (S.seen self.old.session.now) }
        ensures words { self.new.held.now.words.items ≡ self.old.held.now.words.items }
        ensures reserved { self.new.reserved ≡ self.old.reserved }
        ensures same_session { self.new.session.ghost_name ≡ self.old.session.ghost_name }
        ensures waits { Waits (S.seen self.old.session.now) (S.seen self.new.session.now)
            self.old.held.now self.new.held.now }
        ensures same_held { self.new.held.ghost_name ≡ self.old.held.ghost_name }
        ensures made { OnOk result
            ((told (S.seen self.new.session.now) self.new.held.now.words.items).reserved
            ≡ max (told (S.seen self.old.session.now) self.old.held.now.words.items).reserved 1) }
        ensures unmade { OnErr result (self.new.session.now ≡ self.old.session.now) }
        ensures keeps { S.keeps self.old.session.now self.new.session.now }
    {
        if self.reserved > 0 {
            return Ok(());
        }
        let waiting = self.held.words.len() as u32;
        match self.session.reserve_log(waiting + 1) {
            Ok(()) => Ok(()),
            Err(why) => Err(why),
        }
    }

    /// There is a place for one word more: if as many are held back as can be, they are told.
    fn make_place(&mut self)
        ensures few { length self.new.held.now.words.items < MOST_HELD }
        ensures same { told (S.seen self.new.session.now) self.new.held.now.words.items
            ≡ told (S.seen self.old.session.now) self.old.held.now.words.items }
        ensures reserved { self.new.reserved ≡ self.old.reserved }
        ensures same_session { self.new.session.ghost_name ≡ self.old.session.ghost_name }
        ensures waits { Waits (S.seen self.old.session.now) (S.seen self.new.session.now)
            self.old.held.now self.new.held.now }
        ensures same_held { self.new.held.ghost_name ≡ self.old.held.ghost_name }
        ensures keeps { S.keeps self.old.session.now self.new.session.now }
    {
        if self.held.words.is_full() {
            self.tell_all();
        }
    }

    /// Holds back one word more.
    fn hold(&mut self, word: RemoteWord)
        requires few { length self.old.held.now.words.items < MOST_HELD }
        requires takes { Takes
            (told (S.seen self.old.session.now) self.old.held.now.words.items) word }
        requires some { 1 ≤
            (told (S.seen self.old.session.now) self.old.held.now.words.items).reserved }
        requires holds { self.old.held.now.turns ≢ 0 }
        ensures words { self.new.held.now.words.items ≡ self.old.held.now.words.items ++ word ∷ [] }
        ensures reserved { self.new.reserved ≡ self.old.reserved - 1 }
        ensures session { self.new.session.now ≡ self.old.session.now }
        ensures same_session { self.new.session.ghost_name ≡ self.old.session.ghost_name }
        ensures waits { Waits (S.seen self.old.session.now) (S.seen self.new.session.now)
            self.old.held.now self.new.held.now }
        ensures same_held { self.new.held.ghost_name ≡ self.old.held.ghost_name }
    {
        self.reserved = self.reserved.saturating_sub(1);
        self.held.words.push(word);
    }

    /// Whether a word is held back: words are, and it is the next one of a player.
    fn holds(&self, word: &RemoteWord) -> bool
        ensures next { IsTrue result → is_next (S.seen self.now.session.now)
            self.now.held.now.words.items word.now ≡ true }
        ensures some { IsTrue result → self.now.held.now.turns ≢ 0 }
    {
        self.held.turns != 0 && is_next(self.session, self.held.words.as_slice(), word)
    }

    /// Why a player can't leave: there is no such remote player, or it has left already.
    fn leave_refusal(&self, player: u8) -> Option<Refusal>
        ensures { result ≡ first_refusal
            (disconnect_tests
            (told (S.seen self.now.session.now) self.now.held.now.words.items).core.players
            player) }
    {
        let Some(count) = self.confirmed(player) else {
            return Some(Refusal::InvalidPlayer);
        };
        if self.is_local(player) {
            Some(Refusal::InvalidPlayer)
        } else if self.source(player, count) == Some(Source::Gone) {
            Some(Refusal::PlayerDisconnected)
        } else {
            None
        }
    }

    /// A remote player leaves, with all its words: so all that wait are told first, but not if it can't leave.
    fn leave(&mut self, player: u8) -> Result<Event, Refusal>
        ensures accepted { OnOk result (disconnect_refusal (as_told (S.seen self.old.session.now)
            self.old.held.now.words.items self.old.reserved) player ≡ None) }
        ensures taken { OnOk result
            (as_told (S.seen self.new.session.now) self.new.held.now.words.items self.new.reserved ≡
            after_disconnect (as_told (S.seen self.old.session.now) self.old.held.now.words.items
            self.old.reserved) player) }
        ensures event { IfOk result (λ event. event ≡ DisconnectedFromPeer player) }
        ensures refused { IfErr result
            (IsRefused (disconnect_refusal
            (as_told (S.seen self.old.session.now) self.old.held.now.words.items self.old.reserved)
            player) (as_told (S.seen self.old.session.now) self.old.held.now.words.items
            self.old.reserved) (as_told (S.seen self.new.session.now) self.new.held.now.words.items
            self.new.reserved)) }
        ensures kept { IsSome (first_refusal (disconnect_tests
            (told (S.seen self.old.session.now) self.old.held.now.words.items).core.players player))
            → self.new ≡ self.old }
        ensures same_session { self.new.session.ghost_name ≡ self.old.session.ghost_name }
        ensures same_held { self.new.held.ghost_name ≡ self.old.held.ghost_name }
        ensures waits { Waits (S.seen self.old.session.now) (S.seen self.new.session.now)
            self.old.held.now self.new.held.now }
        ensures rooms { KeepRoom
            (told (S.seen self.old.session.now) self.old.held.now.words.items)
            (told (S.seen self.new.session.now) self.new.held.now.words.items)
            self.old.reserved self.new.reserved }
        ensures keeps { S.keeps self.old.session.now self.new.session.now }
    {
        if let Some(why) = self.leave_refusal(player) {
            return Err(why);
        }
        self.tell_all(); // It leaves with all its words.
        let reserved = self.reserved;
        self.reserved = reserved.saturating_sub(1);
        match self.session.disconnect_player(player) {
            Ok(event) => Ok(event),
            Err(why) => {
                self.reserved = reserved;
                Err(why)
            }
        }
    }
}

impl<'a, S: Settling> Networked for HeldSession<'a, S> {
    ghost use Rattle.std.specs.Prelude.{◌≡◌, refl};
    ghost use Rattle.std.proofs.Common.{◌∙◌};
    ghost use Rattle.roll_relay.specs.Rooms.{keep_itself, keep_more, KeepRoom};
    ghost use Rattle.roll_relay.specs.Told.{as_told, told};
    ghost use Rattle.roll_relay.specs.Waits.{Waits, wait_itself, wait_more};

    ghost seen = { λ h. as_told (S.seen h.session.now) h.held.now.words.items h.reserved };

    ghost step = { S.step };

    ghost keeps = { λ old new. (new.session.ghost_name ≡ old.session.ghost_name)
        × ((new.held.ghost_name ≡ old.held.ghost_name)
        × (Waits (S.seen old.session.now) (S.seen new.session.now) old.held.now new.held.now
        × (KeepRoom (told (S.seen old.session.now) old.held.now.words.items)
        (told (S.seen new.session.now) new.held.now.words.items) old.reserved new.reserved
        × S.keeps old.session.now new.session.now))) };

    ghost keeps_itself = { λ it. (
      refl,
      (
        refl,
        (
          wait_itself (S.seen it.session.now) it.held.now,
          (
            keep_itself (told (S.seen it.session.now) it.held.now.words.items) it.reserved,
            S.keeps_itself it.session.now,
          ),
        ),
      ),
    ) };

    ghost keeps_on = { λ a b c one two. (
      two.0 ∙ one.0,
      (
        two.1.0 ∙ one.1.0,
        (
          wait_more (S.seen a.session.now) (S.seen b.session.now) (S.seen c.session.now) a.held.now b.held.now c.held.now
              one.1.1.0 two.1.1.0,
          (
            keep_more (told (S.seen a.session.now) a.held.now.words.items)
                (told (S.seen b.session.now) b.held.now.words.items)
                (told (S.seen c.session.now) c.held.now.words.items) a.reserved b.reserved c.reserved
                one.1.1.1.0 two.1.1.1.0,
            S.keeps_on a.session.now b.session.now c.session.now one.1.1.1.1 two.1.1.1.1,
          ),
        ),
      ),
    ) };

    fn settings(&self) -> &Settings {
        self.session.settings()
    }

    fn frame(&self) -> u32 {
        self.session.frame()
    }

    fn players(&self) -> u8 {
        self.session.players()
    }

    fn is_local(&self, player: u8) -> bool {
        self.session.is_local(player)
    }

    fn confirmed(&self, player: u8) -> Option<u32> {
        self.laws();
        let count = self.session.confirmed(player)?;
        Some(count + count_among(self.held.words.as_slice(), player) as u32)
    }

    fn confirmed_word(&self, player: u8, frame: u32) -> Option<u32> {
        let count = self.session.confirmed(player)?;
        if frame < count {
            self.session.confirmed_word(player, frame)
        } else {
            word_among(self.held.words.as_slice(), player, frame - count)
        }
    }

    fn source(&self, player: u8, frame: u32) -> Option<Source> {
        if frame < self.confirmed(player)? {
            Some(Source::Confirmed)
        } else {
            self.session.source(player, frame)
        }
    }

    fn laws(&self) {
        self.session.laws();
    }

    fn reserve_log(&mut self, events: u32) -> Result<(), Refusal> {
        self.session.laws();
        let waiting = self.held.words.len() as u32;
        match self.session.reserve_log(waiting.saturating_add(events)) {
            Ok(()) => {
                self.reserved = self.reserved.max(events);
                Ok(())
            }
            Err(why) => Err(why),
        }
    }

    fn remote_input(&mut self, player: u8, frame: u32, word: u32) -> Result<Heard, Refusal> {
        let word = RemoteWord {
            player,
            frame,
            word,
        };
        if self.holds(&word) {
            self.session.laws();
            return match self.make_room() {
                Ok(()) => {
                    self.make_place();
                    self.hold(word);
                    Ok(Heard::Taken)
                }
                Err(why) => Err(why),
            };
        }
        self.tell_all();
        let reserved = self.reserved;
        self.reserved = reserved.saturating_sub(1);
        match self.session.remote_input(player, frame, word.word) {
            Ok(Heard::Taken) => Ok(Heard::Taken),
            Ok(Heard::Repeated) => {
                self.reserved = reserved;
                Ok(Heard::Repeated)
            }
            Err(why) => {
                self.reserved = reserved;
                Err(why)
            }
        }
    }

    fn disconnect_player(&mut self, player: u8) -> Result<Event, Refusal> {
        self.leave(player)
    }
}
