//! The settings of a match that a session plays, as C gives them.
ghost use Rattle.std.specs.Prelude.{◌≡◌, ◌≤◌, ◌<◌, ◌*◌, IfErr, IfOk, slice_index};
ghost use Rattle.roll_mesh.specs.declared.limits.TheConstants.{PLAYER_LIMIT as PLAYERS};
ghost use Rattle.fazgrond_c.specs.MatchKinds.{base_of, chain_of, fit_of, players_to, profile_of, session_of, spread, terms_of, words_of, IsLarge, IsUnfit};

use crate::peer_kinds::narrow;
use roll_chain::{Chain, session_settings};
use roll_epoch::Terms;
use roll_frame::{DELAY_LIMIT, PLAYER_LIMIT, Profile, Settings};
use roll_mesh::MACHINE_LIMIT;
use roll_peer::MatchSettings;
use roll_relay::TURN_LIMIT;

/// How many bytes `MatchSettingsIn` takes.
pub const MATCH_SETTINGS_SIZE: u32 = 272;
/// The most bytes of an input.
const INPUT_SIZE_LIMIT: u32 = 16;
/// The most microseconds of a frame.
const FRAME_TIME_LIMIT: u32 = 1_000_000;
/// There is no such player.
const NO_PLAYER: u8 = 255;

const _: () = prove!(size_of::<MatchSettingsIn>() == 272);

/// How a session is opened with the match that it plays.
#[repr(C)]
#[derive(Drop)]
pub struct MatchSettingsIn {
    /// That of this struct.
    pub size: u32,
    pub me: u32,
    pub machines: u32,
    /// How many bytes an input of a player has.
    pub input_size: u32,
    pub numbers: [u64; MACHINE_LIMIT],
    pub draw: u64,
    pub digest: u64,
    /// A digest of the opening state.
    pub opening: u64,
    /// By what it is known who may come to a match that goes on; 0: anybody may.
    pub comers: u64,
    /// The number of the epoch that opens, and how many frames of the match came before it.
    pub epoch: u64,
    pub base: u64,
    pub owners: [u32; PLAYER_LIMIT],
    pub delays: [u32; PLAYER_LIMIT],
    /// Of each word of a row: its bits that a prediction keeps.
    pub masks: [u32; PLAYER_LIMIT],
    /// 0 is GGPO's profile, 1 the wide one.
    pub profile: u32,
    pub threshold: u32,
    pub limit: u32,
    pub log: u32,
    pub silent_after: u32,
    pub notify_after: u32,
    pub stalled_after: u32,
    /// For how many turns at most inputs are held back; 0: they aren't.
    pub held_turns: u32,
    /// Whether machines carry for each other.
    pub carries: u32,
    /// Whether the match goes on in epochs.
    pub lasts: u32,
    /// How many microseconds a frame lasts.
    pub frame_time: u32,
}

/// A setting that doesn't fit, with its value, and whose it is: the player, counted from 1.
#[derive(Clone, Copy)]
pub enum Unfit {
    /// 256 or more.
    Me(u32),
    /// 256 or more.
    Machines(u32),
    /// Not 1 to 16.
    InputSize(u32),
    /// The inputs of all players have so many bytes, each rounded up to 4: over 32.
    Inputs(u32),
    /// 256 or more.
    Owner(u32, u32),
    /// 256 or more.
    Delay(u32, u32),
    /// There is no such profile.
    Profile(u32),
    /// 256 or more.
    Threshold(u32),
    /// Over 8.
    HeldTurns(u32),
    /// None, or over a second.
    FrameTime(u32),
}

/// Settings that fit.
#[derive(Drop)]
pub struct Fit {
    /// Those of the session.
    pub session: Settings,
    /// Those of the match, and how it goes on.
    pub chain: Chain,
    pub held_turns: u8,
    pub input_size: u8,
    pub frame_time: u32,
}

impl MatchSettingsIn {
    /// The settings of the session and of the match, if each fits where it belongs.
    ///
    /// # Errors
    ///
    /// One that doesn't.
    pub fn fit(&self) -> Result<Fit, Unfit>
        ensures fit { IfOk result (λ fit. fit ≡ fit_of self.now) }
        ensures sized { IfOk result (λ fit. 1 ≤ fit.input_size) }
        ensures short { IfOk result (λ fit. fit.input_size ≤ 16) }
        ensures timed { IfOk result (λ fit. fit.frame_time ≤ 1000000) }
        ensures held { IfOk result (λ fit. fit.held_turns ≤ TURN_LIMIT) }
        ensures unfit { IfErr result (IsUnfit self.now) }
    {
        let input_size = self.input_size()?;
        let held_turns = self.held_turns()?;
        let frame_time = self.frame_time()?;
        let profile = self.profile()?;
        let terms = self.terms(input_size)?;
        let base = self.base(&terms)?;
        Ok(Fit {
            session: self.session(&terms, profile, base.me, input_size),
            chain: self.chain(base, profile, terms),
            held_turns,
            input_size,
            frame_time,
        })
    }

    fn input_size(&self) -> Result<u8, Unfit>
        ensures size { IfOk result (λ size. size ≡ self.now.input_size) }
        ensures least { IfOk result (λ size. 1 ≤ size) }
        ensures most { IfOk result (λ size. size ≤ 16) }
        ensures fits { IfOk result (λ size. words_of size * players_to self.now.owners PLAYERS ≤ PLAYERS) }
        ensures unfit { IfErr result (IsUnfit self.now) }
    {
        if self.input_size == 0 || self.input_size > INPUT_SIZE_LIMIT {
            return Err(Unfit::InputSize(self.input_size));
        }
        let words = (self.input_size + 3) / 4;
        let all = words * self.players();
        if all > PLAYER_LIMIT as u32 {
            return Err(Unfit::Inputs(4 * all));
        }
        Ok(self.input_size as u8)
    }

    /// How many players there are: up to the last one that somebody owns.
    #[tactic(auto, using(crate::proofs::Words::players_none, crate::proofs::Words::players_next, crate::proofs::Words::players_most))]
    fn players(&self) -> u32
        ensures count { result ≡ players_to self.now.owners PLAYERS }
        ensures most { result ≤ PLAYERS }
    {
        let mut players = 0;
        for place in 0..PLAYER_LIMIT {
            if self.owners[place] != u32::from(NO_PLAYER) {
                players = place as u32 + 1;
            }
        }
        players
    }

    fn held_turns(&self) -> Result<u8, Unfit>
        ensures turns { IfOk result (λ turns. turns ≡ self.now.held_turns) }
        ensures most { IfOk result (λ turns. turns ≤ TURN_LIMIT) }
        ensures unfit { IfErr result (IsUnfit self.now) }
    {
        if self.held_turns as usize > TURN_LIMIT {
            return Err(Unfit::HeldTurns(self.held_turns));
        }
        Ok(self.held_turns as u8)
    }

    fn frame_time(&self) -> Result<u32, Unfit>
        ensures time { IfOk result (λ time. time ≡ self.now.frame_time) }
        ensures most { IfOk result (λ time. time ≤ 1000000) }
        ensures unfit { IfErr result (IsUnfit self.now) }
    {
        if self.frame_time == 0 || self.frame_time > FRAME_TIME_LIMIT {
            return Err(Unfit::FrameTime(self.frame_time));
        }
        Ok(self.frame_time)
    }

    fn profile(&self) -> Result<Profile, Unfit>
        ensures profile { IfOk result (λ profile. profile ≡ profile_of self.now) }
        ensures unfit { IfErr result (IsUnfit self.now) }
    {
        match self.profile {
            0 => Ok(Profile::Ggpo),
            1 => Ok(Profile::Wide),
            other => Err(Unfit::Profile(other)),
        }
    }

    /// How the epoch opens.
    fn terms(&self, input_size: u8) -> Result<Terms, Unfit>
        requires sized { 1 ≤ input_size }
        requires short { input_size ≤ 16 }
        requires size { input_size ≡ self.now.input_size }
        ensures terms { IfOk result (λ terms. terms ≡ terms_of self.now) }
        ensures unfit { IfErr result (IsUnfit self.now) }
    {
        let Ok(threshold) = u8::try_from(self.threshold) else {
            return Err(Unfit::Threshold(self.threshold));
        };
        let words = (input_size + 3) / 4;
        let owners = match spread_bytes(&self.owners, words) {
            Ok(owners) => owners,
            Err((player, value)) => return Err(Unfit::Owner(player, value)),
        };
        let delays = match spread_bytes(&self.delays, words) {
            Ok(delays) => delays,
            Err((player, value)) => return Err(Unfit::Delay(player, value)),
        };
        Ok(Terms {
            id: self.epoch,
            base: self.base,
            owners,
            delays,
            threshold,
            words,
        })
    }

    /// The match, as one of an epoch that opens so.
    fn base(&self, terms: &Terms) -> Result<MatchSettings, Unfit>
        requires { terms.now ≡ terms_of self.now }
        ensures base { IfOk result (λ base. base ≡ base_of self.now) }
        ensures unfit { IfErr result (IsUnfit self.now) }
    {
        let Ok(me) = u8::try_from(self.me) else {
            return Err(Unfit::Me(self.me));
        };
        let Ok(machines) = u8::try_from(self.machines) else {
            return Err(Unfit::Machines(self.machines));
        };
        Ok(MatchSettings {
            me,
            machines,
            owners: terms.owners,
            numbers: self.numbers,
            draw: self.draw,
            digest: self.digest,
            opening: self.opening,
            silent_after: self.silent_after,
            notify_after: self.notify_after,
            stalled_after: self.stalled_after,
            carries: self.carries != 0,
            takes_marks: false,
            words: terms.words,
        })
    }

    /// How the match goes on, if it does.
    fn chain(&self, base: MatchSettings, profile: Profile, terms: Terms) -> Chain
        requires base { base ≡ base_of self.now }
        requires profile { profile ≡ profile_of self.now }
        requires terms { terms ≡ terms_of self.now }
        ensures { result ≡ chain_of self.now }
    {
        if self.lasts == 0 {
            Chain::of_one_epoch(base, profile)
        } else {
            Chain::new(base, profile, terms, self.comers)
        }
    }

    /// The session of a machine of this number in an epoch that opens so.
    fn session(&self, terms: &Terms, profile: Profile, me: u8, input_size: u8) -> Settings
        requires terms { terms.now ≡ terms_of self.now }
        requires profile { profile ≡ profile_of self.now }
        requires me { me ≡ self.now.me }
        requires size { input_size ≡ self.now.input_size }
        requires few { words_of input_size * players_to self.now.owners PLAYERS ≤ PLAYERS }
        ensures { result ≡ session_of self.now }
    {
        let words = (u32::from(input_size) + 3) / 4;
        let players = (words * self.players()) as u8;
        let bare = Settings {
            profile,
            players,
            local: 0,
            delays: [0; PLAYER_LIMIT],
            masks: self.masks,
            before: [0; PLAYER_LIMIT],
            first: [[0; DELAY_LIMIT as usize]; PLAYER_LIMIT],
            threshold: 0,
            limit: self.limit,
            log: self.log,
        };
        session_settings(bare, terms, me)
    }
}

/// What each word of a row has, as a byte, if each player has so many words; or a player, counted from 1, and what it has that isn't one.
fn spread_bytes(players: &[u32; PLAYER_LIMIT], words: u8) -> Result<[u8; PLAYER_LIMIT], (u32, u32)>
    requires { 1 ≤ words }
    ensures bytes { IfOk result (λ bytes. bytes ≡ spread players.now words) }
    ensures large { IfErr result (λ it. IsLarge players.now it.0 it.1) }
{
    let row = spread(players, words);
    match narrow(&row) {
        Ok(bytes) => Ok(bytes),
        Err(place) => {
            let player = place / u32::from(words);
            Err((player + 1, players[player as usize]))
        }
    }
}

/// What each word of a row has, if each player has so many words.
pub fn spread(players: &[u32; PLAYER_LIMIT], words: u8) -> [u32; PLAYER_LIMIT]
    requires { 1 ≤ words }
    ensures { result ≡ spread players.now words }
{
    let mut spread = [0; PLAYER_LIMIT];
    for place in 0..PLAYER_LIMIT {
        spread[place] = players[place / usize::from(words)];
    }
    spread
}
