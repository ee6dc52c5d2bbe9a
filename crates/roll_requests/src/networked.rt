//! A session of a game elsewhere as the network of a match sees it.
use crate::elsewhere::Elsewhere;
use roll_frame::{Event, Refusal, Row, Settings};
use roll_session::{Call, Heard, Networked, Settling, Source};

impl Networked for Elsewhere {
    ghost use Rattle.roll_requests.specs.Made.{keeps_itself, keeps_on, Keeps};
    ghost use Rattle.roll_session.specs.Gameless.{still};

    ghost seen = { λ e. e.seen };

    ghost step = { still };

    ghost keeps = { Keeps };

    ghost keeps_itself = { keeps_itself };

    ghost keeps_on = { keeps_on };

    fn settings(&self) -> &Settings {
        self.core().settings()
    }

    fn frame(&self) -> u32 {
        self.core().frame()
    }

    fn players(&self) -> u8 {
        self.core().players()
    }

    fn is_local(&self, player: u8) -> bool {
        self.core().is_local(player)
    }

    fn confirmed(&self, player: u8) -> Option<u32> {
        self.core().confirmed(player)
    }

    fn confirmed_word(&self, player: u8, frame: u32) -> Option<u32> {
        self.core().confirmed_word(player, frame)
    }

    fn source(&self, player: u8, frame: u32) -> Option<Source> {
        self.core().source(player, frame)
    }

    fn laws(&self) {
        self.core().laws();
    }

    fn reserve_log(&mut self, events: u32) -> Result<(), Refusal> {
        self.reserve_log(events)
    }

    fn remote_input(&mut self, player: u8, frame: u32, word: u32) -> Result<Heard, Refusal> {
        self.take(Call::Remote {
            player,
            frame,
            word,
        })
    }

    fn disconnect_player(&mut self, player: u8) -> Result<Event, Refusal> {
        self.take(Call::Disconnect { player })?;
        Ok(Event::DisconnectedFromPeer { player })
    }
}

impl Settling for Elsewhere {
    fn settled(&self) -> u32 {
        self.core().settled()
    }

    fn settled_row(&self, frame: u32) -> Option<Row> {
        self.core().settled_row(frame)
    }
}
