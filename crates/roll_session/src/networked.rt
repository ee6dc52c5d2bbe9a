//! A session as the network of a match sees it.
ghost use Rattle.std.specs.Prelude.{◌≡◌, length, max, nat_lt, option_map, false, IfErr, IfOk, None, OnErr, OnOk, Some, if◌then◌else◌};
ghost use Rattle.roll_frame.specs.Core.{settled as settled_frame};
ghost use Rattle.roll_frame.specs.Inputs.{is_repeated, of_player, player_at};
ghost use Rattle.roll_frame.specs.Timeline.{row_at as row_of};
ghost use Rattle.roll_frame.specs.declared.event.Event.TheVariants.{DisconnectedFromPeer};
ghost use Rattle.roll_inputs.specs.Boards.{confirmed_word, source_at};
ghost use Rattle.roll_session.specs.Changes.{after_disconnect, disconnect_refusal, remote_refusal, reserve_refusal, FitsLog, IsHeard, IsRefused, IsWhy};
ghost use Rattle.roll_session.specs.Seen.{FollowsLog};

use crate::event::Call;
use crate::gameless::Core;
use crate::session::Session;
use roll_frame::{Event, Refusal, Row, Settings};
use roll_game::Game;
use roll_inputs::{Heard, Source};

/// A session as the network of a match sees it, wherever its game is: it takes what others give, and says what is known of the players.
/// All of it is as of [`Session`].
pub trait Networked {
    ghost use Rattle.roll_session.specs.Seen.{Seen, Step};

    /// What its callers see of it.
    ghost seen: { Self → Seen };

    /// What its game makes of a state and a row.
    ghost step: { Step };

    /// What words of others, and their leaving, make of it: nothing else happened to it, and one without a game leaves the states that
    /// are kept as they were.
    ghost keeps: { Self → Self → Type 0 };

    /// Nothing at all keeps it.
    ghost keeps_itself: { (it : Self) → keeps it it };

    /// What keeps it twice, one after the other, keeps it.
    ghost keeps_on: { (a b c : Self) → keeps a b → keeps b c → keeps a c };

    /// The settings that it was started with.
    fn settings(&self) -> &Settings
        ensures { result.now ≡ (seen self.now).settings };

    /// The current frame.
    fn frame(&self) -> u32
        ensures { result ≡ (seen self.now).core.frame };

    /// How many players there are. They are numbered from 1.
    fn players(&self) -> u8
        ensures { result ≡ length (seen self.now).core.players };

    /// Whether there is such a player, and it is local.
    fn is_local(&self, player: u8) -> bool
        ensures { result ≡ of_player (λ p. p.local) (seen self.now).core.players player };

    /// How many words of a player are confirmed. None if there is no such player.
    fn confirmed(&self, player: u8) -> Option<u32>
        ensures { result
            ≡ option_map (λ p. length p.words) (player_at (seen self.now).core.players player) };

    /// The confirmed word of a player at a frame. None if it isn't confirmed, and if there is no such player.
    fn confirmed_word(&self, player: u8, frame: u32) -> Option<u32>
        ensures { result ≡ confirmed_word (seen self.now).core.players player frame };

    /// Where a player's cell of a frame is from. None if there is no such player.
    fn source(&self, player: u8, frame: u32) -> Option<Source>
        ensures { result
            ≡ option_map (source_at frame) (player_at (seen self.now).core.players player) };

    /// The log is one that events of a session leave.
    fn laws(&self)
        ensures { FollowsLog step (seen self.now) };

    /// Makes room for so many more events.
    ///
    /// # Errors
    ///
    /// As of a session.
    fn reserve_log(&mut self, events: u32) -> Result<(), Refusal>
        ensures fits { OnOk result (FitsLog (seen self.old) events) }
        ensures reserved { OnOk result (seen self.new ≡ record (seen self.old) {
          reserved = max (seen self.old).reserved events;
        }) }
        ensures refused { IfErr result (IsWhy (reserve_refusal (seen self.old) events)) }
        ensures unchanged { OnErr result (self.new ≡ self.old) }
        ensures keeps { keeps self.old self.new };

    /// Takes the next word of a remote player, or sees that it was taken before.
    ///
    /// # Errors
    ///
    /// As of a session.
    fn remote_input(&mut self, player: u8, frame: u32, word: u32) -> Result<Heard, Refusal>
        ensures heard { IfOk result (IsHeard (seen self.old) (seen self.new) player frame word) }
        ensures fresh { OnErr result
            (is_repeated (seen self.old).core.players player frame word ≡ false) }
        ensures refused { IfErr result (IsRefused (remote_refusal (seen self.old) player frame)
            (seen self.old) (seen self.new)) }
        ensures keeps { keeps self.old self.new };

    /// A remote player leaves.
    ///
    /// # Errors
    ///
    /// As of a session.
    fn disconnect_player(&mut self, player: u8) -> Result<Event, Refusal>
        ensures accepted { OnOk result (disconnect_refusal (seen self.old) player ≡ None) }
        ensures taken { OnOk result (seen self.new ≡ after_disconnect (seen self.old) player) }
        ensures event { IfOk result (λ event. event ≡ DisconnectedFromPeer player) }
        ensures refused { IfErr result (IsRefused (disconnect_refusal (seen self.old) player)
            (seen self.old) (seen self.new)) }
        ensures keeps { keeps self.old self.new };
}

/// A session whose settled rows can be told. All of it is as of [`Session`].
pub trait Settling: Networked {
    /// How many rows are settled.
    fn settled(&self) -> u32
        ensures { result ≡ settled_frame (Self.seen self.now).core };

    /// A settled row. None from the settled frame on.
    fn settled_row(&self, frame: u32) -> Option<Row>
        ensures { result ≡ (if nat_lt frame (settled_frame (Self.seen self.now).core)
            then Some (row_of (Self.seen self.now).core.players frame) else None) };
}

impl<G: Game> Networked for Session<G> {
    ghost use Rattle.roll_session.specs.Others.{hears_more, hears_nothing, Hears};

    ghost seen = { λ session. session };

    ghost step = { G.step };

    ghost keeps = { Hears G.step };

    ghost keeps_itself = { hears_nothing G.step };

    ghost keeps_on = { hears_more G.step };

    fn settings(&self) -> &Settings {
        self.settings()
    }

    fn frame(&self) -> u32 {
        self.frame()
    }

    fn players(&self) -> u8 {
        self.players()
    }

    fn is_local(&self, player: u8) -> bool {
        self.is_local(player)
    }

    fn confirmed(&self, player: u8) -> Option<u32> {
        self.confirmed(player)
    }

    fn confirmed_word(&self, player: u8, frame: u32) -> Option<u32> {
        self.confirmed_word(player, frame)
    }

    fn source(&self, player: u8, frame: u32) -> Option<Source> {
        self.source(player, frame)
    }

    fn laws(&self) {
        self.laws();
    }

    fn reserve_log(&mut self, events: u32) -> Result<(), Refusal> {
        self.reserve_log(events)
    }

    fn remote_input(&mut self, player: u8, frame: u32, word: u32) -> Result<Heard, Refusal> {
        self.remote_input(player, frame, word)
    }

    fn disconnect_player(&mut self, player: u8) -> Result<Event, Refusal> {
        self.disconnect_player(player)
    }
}

impl<G: Game> Settling for Session<G> {
    fn settled(&self) -> u32 {
        self.settled()
    }

    fn settled_row(&self, frame: u32) -> Option<Row> {
        self.settled_row(frame)
    }
}

impl<S: Drop> Networked for Core<S> {
    ghost use Rattle.roll_session.specs.Gameless.{keeps_itself, keeps_on, still, Keeps};

    ghost seen = { λ core. core.seen };

    ghost step = { still };

    ghost keeps = { Keeps };

    ghost keeps_itself = { keeps_itself };

    ghost keeps_on = { keeps_on };

    fn settings(&self) -> &Settings {
        self.settings()
    }

    fn frame(&self) -> u32 {
        self.frame()
    }

    fn players(&self) -> u8 {
        self.players()
    }

    fn is_local(&self, player: u8) -> bool {
        self.is_local(player)
    }

    fn confirmed(&self, player: u8) -> Option<u32> {
        self.confirmed(player)
    }

    fn confirmed_word(&self, player: u8, frame: u32) -> Option<u32> {
        self.confirmed_word(player, frame)
    }

    fn source(&self, player: u8, frame: u32) -> Option<Source> {
        self.source(player, frame)
    }

    fn laws(&self) {
        self.laws();
    }

    fn reserve_log(&mut self, events: u32) -> Result<(), Refusal> {
        self.reserve_log(events)
    }

    fn remote_input(&mut self, player: u8, frame: u32, word: u32) -> Result<Heard, Refusal> {
        self.take(Call::Remote {
            player,
            frame,
            word,
        })
    }

    fn disconnect_player(&mut self, player: u8) -> Result<Event, Refusal> {
        self.take(Call::Disconnect { player })?;
        Ok(Event::DisconnectedFromPeer { player })
    }
}

impl<S: Drop> Settling for Core<S> {
    fn settled(&self) -> u32 {
        self.settled()
    }

    fn settled_row(&self, frame: u32) -> Option<Row> {
        self.settled_row(frame)
    }
}
