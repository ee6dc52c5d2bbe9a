//! What C sees.
ghost use Rattle.std.specs.Prelude.{◌≡◌, IfNone, IfSome};
ghost use Rattle.roll_session.specs.Calls.{entry_of};
ghost use Rattle.roll_session.specs.Logs.{logged_entry};
ghost use Rattle.fazgrond_c.specs.Kinds.{entry_out, no_row, request_out, row_out, where_led, AreGiven, HaveNoRoom};
ghost use Rattle.fazgrond_c.specs.Waiting.{word_out};

use roll_frame::{DELAY_LIMIT, PLAYER_LIMIT, Profile, Row, Settings};
use roll_relay::RemoteWord;
use roll_requests::Request;
use roll_session::{Call, Logged, Reached};

/// How many bytes `SettingsIn` takes.
pub const SETTINGS_SIZE: u32 = 92;

const _: () = prove!(size_of::<SettingsIn>() == 92);

/// How a session is opened.
#[repr(C)]
#[derive(Drop)]
pub struct SettingsIn {
    /// That of this struct.
    pub size: u32,
    /// 0 is GGPO's profile, 1 the wide one.
    pub profile: u32,
    pub players: u32,
    pub local: u32,
    pub threshold: u32,
    pub limit: u32,
    pub log: u32,
    pub delays: [u32; PLAYER_LIMIT],
    pub masks: [u32; PLAYER_LIMIT],
}

impl SettingsIn {
    /// The settings, if each number has room where it belongs.
    pub fn settings(&self) -> Option<Settings>
        ensures given { IfSome result (AreGiven self.now) }
        ensures none { IfNone result (HaveNoRoom self.now) }
    {
        let profile = match self.profile {
            0 => Profile::Ggpo,
            1 => Profile::Wide,
            _ => return None,
        };
        let (Ok(players), Ok(local)) = (u8::try_from(self.players), u8::try_from(self.local)) else {
            return None;
        };
        Some(Settings {
            profile,
            players,
            local,
            delays: self.delays,
            masks: self.masks,
            before: [0; PLAYER_LIMIT],
            first: [[0; DELAY_LIMIT as usize]; PLAYER_LIMIT],
            threshold: self.threshold,
            limit: self.limit,
            log: self.log,
        })
    }
}

/// A row: so many players, which of them are gone, and their words.
#[repr(C)]
#[derive(Drop)]
pub struct RowOut {
    pub count: u32,
    pub gone: u32,
    pub words: [u32; PLAYER_LIMIT],
}

impl RowOut {
    /// No player.
    fn empty() -> RowOut
        ensures { result ≡ no_row }
    {
        RowOut {
            count: 0,
            gone: 0,
            words: [0; PLAYER_LIMIT],
        }
    }

    /// A row.
    pub fn of(row: &Row) -> RowOut
        ensures { result ≡ row_out row.now }
    {
        let mut words = [0; PLAYER_LIMIT];
        words[..usize::from(row.count())].copy_from_slice(row.words());
        RowOut {
            count: u32::from(row.count()),
            gone: u32::from(row.gone_bits()),
            words,
        }
    }
}

/// A request: 1 loads a slot, 2 saves into a slot, 3 advances with a row, 4 frees a slot. 5, 6 and 7 are the first three for
/// the state that is run aside.
#[repr(C)]
#[derive(Drop)]
pub struct RequestOut {
    pub kind: u32,
    pub slot: u32,
    pub row: RowOut,
}

impl RequestOut {
    /// A request.
    pub fn of(request: &Request) -> RequestOut
        ensures { result ≡ request_out request.now }
    {
        match request {
            Request::Load { slot } => RequestOut::of_slot(1, *slot),
            Request::Save { slot } => RequestOut::of_slot(2, *slot),
            Request::Advance { row } => RequestOut {
                kind: 3,
                slot: 0,
                row: RowOut::of(row),
            },
            Request::Free { slot } => RequestOut::of_slot(4, *slot),
            Request::LoadAside { slot } => RequestOut::of_slot(5, *slot),
            Request::SaveAside { slot } => RequestOut::of_slot(6, *slot),
            Request::AdvanceAside { row } => RequestOut {
                kind: 7,
                slot: 0,
                row: RowOut::of(row),
            },
        }
    }

    fn of_slot(kind: u32, slot: u32) -> RequestOut
        ensures { result ≡ record { kind = kind; slot = slot; row = no_row } }
    {
        RequestOut {
            kind,
            slot,
            row: RowOut::empty(),
        }
    }
}

/// Where an advance led.
#[repr(C)]
#[derive(Drop)]
pub struct ReachedOut {
    pub frame: u32,
    pub from: u32,
    pub rerun: u32,
}

impl ReachedOut {
    /// Where one led.
    pub fn of(reached: &Reached) -> ReachedOut
        ensures { result ≡ where_led reached.now }
    {
        ReachedOut {
            frame: reached.frame,
            from: reached.from,
            rerun: reached.rerun,
        }
    }
}

/// An entry of the log: 1 is a local word, 2 a remote one, 3 a disconnect, 4 a sync, 5 an advance, 6 a graft, and 7 a roll to
/// `frame` that was cut short after so many states as `word` says.
#[repr(C)]
#[derive(Drop)]
pub struct EntryOut {
    pub kind: u32,
    pub player: u32,
    pub frame: u32,
    pub word: u32,
}

impl EntryOut {
    /// An entry.
    pub fn of(entry: &Logged<'_>) -> EntryOut
        ensures { result ≡ entry_out (logged_entry entry.now) }
    {
        match entry {
            Logged::Call(call) => EntryOut::of_call(*call),
            Logged::Graft { .. } => EntryOut::new(6, 0, 0, 0),
            Logged::Partial { to, made } => EntryOut::new(7, 0, *to, *made),
        }
    }

    /// A remote word.
    pub fn of_word(word: &RemoteWord) -> EntryOut
        ensures { result ≡ word_out word.now }
    {
        EntryOut::new(2, word.player, word.frame, word.word)
    }

    fn of_call(call: Call) -> EntryOut
        ensures { result ≡ entry_out (entry_of call) }
    {
        match call {
            Call::Local { player, word } => EntryOut::new(1, player, 0, word),
            Call::Remote {
                player,
                frame,
                word,
            } => EntryOut::new(2, player, frame, word),
            Call::Disconnect { player } => EntryOut::new(3, player, 0, 0),
            Call::Sync => EntryOut::new(4, 0, 0, 0),
            Call::Advance => EntryOut::new(5, 0, 0, 0),
        }
    }

    fn new(kind: u32, player: u8, frame: u32, word: u32) -> EntryOut
        ensures { result ≡ record { kind = kind; player = player; frame = frame; word = word } }
    {
        EntryOut {
            kind,
            player: u32::from(player),
            frame,
            word,
        }
    }
}
