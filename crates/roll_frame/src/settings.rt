//! What a session is opened with.
ghost use Rattle.std.specs.Prelude.{◌≡◌, ◌↔◌, IsTrue, ℕ, ◌+◌, ◌-◌, ◌≤◌, ◌<◌, ◌^◌, ◌==◌, drop, not, nat_le, nat_lt, ◌&&◌, is_some, IfErr, IfOk, OnOk, None, Some, Err, slice_set, if◌then◌else◌};
ghost use Rattle.std.specs.Int.{bit_at, is_in_range};
ghost use Rattle.std.specs.List.{list_any};
ghost use Rattle.std.specs.Option.{option_map};
ghost use Rattle.roll_frame.specs.Faults.{checked, faults, first_fault, has_player, local_fault, outside, places_past, plain_settings, player_who, refusal_of, start_fault};
ghost use Rattle.roll_frame.specs.Settings.{start_refusal, start_tests, places, is_local, delay_at};

use crate::fault::SettingsFault;
use crate::limits::{DELAY_LIMIT, FRAME_LIMIT, LOG_LIMIT, PLAYER_LIMIT};
use crate::profile::Profile;
use crate::refusal::Refusal;

/// How a session is opened.
#[derive(Clone, Copy, Debug, PartialEq, Eq)]
pub struct Settings {
    /// The profile, which sets the limits of players and threshold.
    pub profile: Profile,
    /// How many players there are.
    pub players: u8,
    /// Which of them are local: bit p - 1 for player p.
    pub local: u8,
    /// Each player's input delay in frames, 0 to 8; 0 for one who isn't local. Places past the players are not read.
    pub delays: [u32; PLAYER_LIMIT],
    /// Which bits of each player's last word are predicted as held. Places past the players are not read.
    pub masks: [u32; PLAYER_LIMIT],
    /// Each player's word before frame 0, by which is predicted until its first one comes: 0, unless frames came before.
    pub before: [u32; PLAYER_LIMIT],
    /// The words with which each local player begins, from frame 0 on: zeros, unless frames came before. Those past its delay are
    /// not read.
    pub first: [[u32; DELAY_LIMIT as usize]; PLAYER_LIMIT],
    /// How many frames the session may run ahead of the confirmed ones.
    pub threshold: u32,
    /// The last frame, 1 to 1,048,576.
    pub limit: u32,
    /// The most entries of the log, 1 to 16,777,216.
    pub log: u32,
}

impl Settings {
    /// So many players, 1 to 8, of whom those with these numbers are local: in the wide profile where there are more than
    /// four, without delays, with all bits of a word predicted as held, a threshold of 8 and the greatest limits. A session
    /// can start so.
    ///
    /// # Errors
    ///
    /// `Players` for the number of players, `NoLocalPlayer` for an empty list, `LocalPlayerOutside` with the first number
    /// in the list that is 0 or over the number of players.
    pub fn new(players: u8, local: &[u8]) -> Result<Settings, SettingsFault>
        ensures settings { IfOk result (λ s. s ≡ plain_settings players s.local) }
        ensures local { IfOk result (λ s. (place : ℕ) → place < PLAYER_LIMIT
            → is_local s place ≡ list_any (λ p. p == place + 1) local.now) }
        ensures starts { IfOk result (λ s. start_refusal s ≡ None) }
        ensures fine { OnOk result (local_fault players local.now ≡ None) }
        ensures fault { IfErr result (λ why. local_fault players local.now ≡ Some why) }
    {
        if !is_within(1, PLAYER_LIMIT as u32, u32::from(players)) {
            return Err(SettingsFault::Players);
        }
        if local.is_empty() {
            return Err(SettingsFault::NoLocalPlayer);
        }
        let local = local_bits(players, local)?;
        Ok(plain(players, local))
    }

    /// With another profile.
    ///
    /// # Errors
    ///
    /// What a session can't start with then, here and in the calls below.
    pub fn with_profile(self, profile: Profile) -> Result<Settings, SettingsFault>
        ensures { result ≡ checked (record self { profile = profile }) }
    {
        Settings { profile, ..self }.checked()
    }

    /// With this delay of a local player, 0 to 8 frames.
    ///
    /// # Errors
    ///
    /// `NoPlayer` where there is no such player.
    pub fn with_delay(self, player: u8, frames: u32) -> Result<Settings, SettingsFault>
        ensures { result ≡ (if has_player self player then checked (record self {
          delays = slice_set self.delays (player - 1) frames;
        })
            else Err (SettingsFault.NoPlayer player)) }
    {
        if !self.has_player(player) {
            return Err(SettingsFault::NoPlayer { player });
        }
        let mut settings = self;
        settings.delays[usize::from(player) - 1] = frames;
        settings.checked()
    }

    /// With these bits of a player's last word predicted as held.
    ///
    /// # Errors
    ///
    /// `NoPlayer` where there is no such player.
    pub fn with_mask(self, player: u8, bits: u32) -> Result<Settings, SettingsFault>
        ensures { result ≡ (if has_player self player then checked (record self {
          masks = slice_set self.masks (player - 1) bits;
        })
            else Err (SettingsFault.NoPlayer player)) }
    {
        if !self.has_player(player) {
            return Err(SettingsFault::NoPlayer { player });
        }
        let mut settings = self;
        settings.masks[usize::from(player) - 1] = bits;
        settings.checked()
    }

    /// Going on from frames that came before: with each player's last word there, and the words with which each local player begins,
    /// of which as many count as its delay has frames.
    pub fn following(
        self,
        before: [u32; PLAYER_LIMIT],
        first: [[u32; DELAY_LIMIT as usize]; PLAYER_LIMIT],
    ) -> Settings
        ensures { result ≡ record self { before = before; first = first } }
    {
        Settings {
            before,
            first,
            ..self
        }
    }

    /// With this prediction threshold, in frames: 1 to 8, or to 15 in the wide profile.
    pub fn with_threshold(self, threshold: u32) -> Result<Settings, SettingsFault>
        ensures { result ≡ checked (record self { threshold = threshold }) }
    {
        Settings { threshold, ..self }.checked()
    }

    /// With this last frame, 1 to 1,048,576.
    pub fn with_frame_limit(self, limit: u32) -> Result<Settings, SettingsFault>
        ensures { result ≡ checked (record self { limit = limit }) }
    {
        Settings { limit, ..self }.checked()
    }

    /// With so many entries of the log at most, 1 to 16,777,216.
    pub fn with_log_limit(self, log: u32) -> Result<Settings, SettingsFault>
        ensures { result ≡ checked (record self { log = log }) }
    {
        Settings { log, ..self }.checked()
    }

    /// The settings, unless a session can't start with them.
    fn checked(self) -> Result<Settings, SettingsFault>
        ensures { result ≡ checked self }
    {
        match self.fault() {
            Some(fault) => Err(fault),
            None => Ok(self),
        }
    }

    /// Whether there is a player of this number, and room for what it has.
    fn has_player(&self, player: u8) -> bool
        ensures { result ≡ has_player self.now player }
    {
        1 <= player && player <= self.players && usize::from(player) <= PLAYER_LIMIT
    }

    /// Whether these are the same settings.
    pub fn is_same(&self, other: &Settings) -> bool
        ensures { IsTrue result ↔ self.now ≡ other.now }
    {
        self == other
    }

    /// What a session can't start with, the first by the order of `SettingsFault`. None where it can start.
    pub fn fault(&self) -> Option<SettingsFault>
        ensures { result ≡ start_fault self.now }
    {
        let players = u32::from(self.players);
        if !is_within(1, u32::from(self.profile.player_limit()), players) {
            Some(SettingsFault::Players)
        } else if !self.has_local() {
            Some(SettingsFault::NoLocalPlayer)
        } else if let Some(player) = self.outsider() {
            Some(SettingsFault::LocalPlayerOutside { player })
        } else if let Some(player) = self.long_delay() {
            Some(SettingsFault::LongDelay { player })
        } else if let Some(player) = self.remote_delay() {
            Some(SettingsFault::DelayOfRemotePlayer { player })
        } else {
            self.limit_fault()
        }
    }

    /// Why a session can't start so: `PlayerOutOfRange` for the number of players, `InvalidRequest` for the rest.
    pub fn refusal(&self) -> Option<Refusal>
        ensures refused { result ≡ start_refusal self.now }
        ensures fault { result ≡ option_map refusal_of (start_fault self.now) }
    {
        match self.fault() {
            Some(fault) => Some(fault.refusal()),
            None => None,
        }
    }

    /// Whether the player at a place, player place + 1, is local.
    pub fn is_local(&self, place: u8) -> bool
        requires { place < PLAYER_LIMIT }
        ensures { result ≡ is_local self.now place }
    {
        has_bit(self.local, place)
    }

    fn has_local(&self) -> bool
        requires { self.now.players ≤ PLAYER_LIMIT }
        ensures { result ≡ list_any (is_local self.now) (places self.now) }
    {
        (0..self.players).any(|place| self.is_local(place))
    }

    // The first player past the last one who is marked as local.
    fn outsider(&self) -> Option<u8>
        requires { self.now.players ≤ PLAYER_LIMIT }
        ensures first { result ≡ player_who (is_local self.now) (places_past self.now) }
        ensures some { is_some result ≡ nat_le (2 ^ self.now.players) self.now.local }
    {
        let local = self.local;
        for place in self.players..PLAYER_LIMIT as u8 {
            if has_bit(local, place) {
                return Some(place + 1);
            }
        }
        None
    }

    fn long_delay(&self) -> Option<u8>
        requires { self.now.players ≤ PLAYER_LIMIT }
        ensures { result ≡ player_who (λ place. nat_lt DELAY_LIMIT (delay_at self.now place))
            (places self.now) }
    {
        for place in 0..self.players {
            if DELAY_LIMIT < self.delays[usize::from(place)] {
                return Some(place + 1);
            }
        }
        None
    }

    fn remote_delay(&self) -> Option<u8>
        requires { self.now.players ≤ PLAYER_LIMIT }
        ensures { result ≡ player_who (λ place. not (is_local self.now place) && nat_lt 0
            (delay_at self.now place)) (places self.now) }
    {
        for place in 0..self.players {
            if self.is_remote_delayed(place) {
                return Some(place + 1);
            }
        }
        None
    }

    fn is_remote_delayed(&self, place: u8) -> bool
        requires { place < PLAYER_LIMIT }
        ensures { result ≡ (not (is_local self.now place) && nat_lt 0 (delay_at self.now place)) }
    {
        !self.is_local(place) && 0 < self.delays[usize::from(place)]
    }

    // What is wrong with the threshold and the limits.
    fn limit_fault(&self) -> Option<SettingsFault>
        ensures { result ≡ first_fault (drop 5 (start_tests self.now)) (drop 5 (faults self.now)) }
    {
        if !is_within(1, u32::from(self.profile.threshold_limit()), self.threshold) {
            Some(SettingsFault::Threshold)
        } else if !is_within(1, FRAME_LIMIT, self.limit) {
            Some(SettingsFault::FrameLimit)
        } else if !is_within(1, LOG_LIMIT, self.log) {
            Some(SettingsFault::LogLimit)
        } else {
            None
        }
    }
}

/// Settings of so many players, those with these bits local.
fn plain(players: u8, local: u8) -> Settings
    ensures { result ≡ plain_settings players local }
{
    let profile = if players > Profile::Ggpo.player_limit() {
        Profile::Wide
    } else {
        Profile::Ggpo
    };
    Settings {
        profile,
        players,
        local,
        delays: [0; PLAYER_LIMIT],
        masks: [u32::MAX; PLAYER_LIMIT],
        before: [0; PLAYER_LIMIT],
        first: [[0; DELAY_LIMIT as usize]; PLAYER_LIMIT],
        threshold: u32::from(Profile::Ggpo.threshold_limit()),
        limit: FRAME_LIMIT,
        log: LOG_LIMIT,
    }
}

/// The bits of these players, each one of so many.
fn local_bits(players: u8, local: &[u8]) -> Result<u8, SettingsFault>
    requires { players ≤ PLAYER_LIMIT }
    ensures bits { IfOk result (λ bits. (place : ℕ) → place < PLAYER_LIMIT
        → (bit_at bits place == 1) ≡ list_any (λ p. p == place + 1) local.now) }
    ensures small { IfOk result (λ bits. bits < 2 ^ players) }
    ensures inside { OnOk result (outside players local.now ≡ None) }
    ensures outside { IfErr result (λ why. option_map SettingsFault.LocalPlayerOutside
        (outside players local.now) ≡ Some why) }
{
    let mut bits = 0;
    for player in local {
        if !is_within(1, u32::from(players), u32::from(*player)) {
            return Err(SettingsFault::LocalPlayerOutside { player: *player });
        }
        bits |= 1 << (*player - 1);
    }
    Ok(bits)
}

fn has_bit(bits: u8, place: u8) -> bool
    requires { place < PLAYER_LIMIT }
    ensures { result ≡ (bit_at bits place == 1) }
{
    bits >> place & 1 == 1
}

fn is_within(low: u32, high: u32, n: u32) -> bool
    ensures { result ≡ is_in_range low high n }
{
    low <= n && n <= high
}
