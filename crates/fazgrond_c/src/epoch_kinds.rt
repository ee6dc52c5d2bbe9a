//! What C sees of epochs and marks.
ghost use Rattle.std.specs.Prelude.{◌≡◌, ℕ, false, IfNone, IfSome, slice_index};
ghost use Rattle.roll_peer.specs.Marks.{each_player};
ghost use Rattle.fazgrond_c.specs.EpochKinds.{delay_at, delay_in, epoch_out, flag_at, is_delay, newcomer_in, AreTermsOf, IsEpochFaulty, IsMarkFaulty, IsMarkOf};

use crate::peer_kinds::bytes_of;
use roll_epoch::Terms;
use roll_mesh::PLAYER_LIMIT;
use roll_wire::{Mark, Newcomer, has_players};

/// How many bytes `EpochIn` takes.
pub const EPOCH_SIZE: u32 = 96;
/// How many bytes `MarkIn` takes.
pub const MARK_SIZE: u32 = 80;
/// A player's delay stays as it is.
const AS_BEFORE: u32 = u32::MAX;

const _: () = prove!(size_of::<EpochIn>() == 96);

const _: () = prove!(size_of::<MarkIn>() == 80);

/// How an epoch opens.
#[repr(C)]
#[derive(Drop)]
pub struct EpochIn {
    /// That of this struct.
    pub size: u32,
    pub words: u32,
    pub threshold: u32,
    /// How many machines there are. It is written, and not read.
    pub machines: u32,
    pub id: u64,
    pub base: u64,
    pub owners: [u32; PLAYER_LIMIT],
    pub delays: [u32; PLAYER_LIMIT],
}

impl EpochIn {
    /// The terms, if each number has room where it belongs.
    pub fn terms(&self) -> Option<Terms>
        ensures given { IfSome result (AreTermsOf self.now) }
        ensures none { IfNone result (IsEpochFaulty self.now) }
    {
        let (Ok(words), Ok(threshold)) = (u8::try_from(self.words), u8::try_from(self.threshold))
        else {
            return None;
        };
        let owners = bytes_of(&self.owners)?;
        let delays = bytes_of(&self.delays)?;
        Some(Terms {
            id: self.id,
            base: self.base,
            owners,
            delays,
            threshold,
            words,
        })
    }

    /// An epoch with these terms.
    pub fn of(terms: &Terms) -> EpochIn
        ensures { result ≡ epoch_out terms.now }
    {
        EpochIn {
            size: EPOCH_SIZE,
            words: u32::from(terms.words),
            threshold: u32::from(terms.threshold),
            machines: u32::from(terms.machines()),
            id: terms.id,
            base: terms.base,
            owners: numbers_of(&terms.owners),
            delays: numbers_of(&terms.delays),
        }
    }
}

/// Bytes as numbers.
fn numbers_of(bytes: &[u8; PLAYER_LIMIT]) -> [u32; PLAYER_LIMIT]
    ensures { result ≡ each_player (slice_index bytes.now) }
{
    let mut numbers = [0; PLAYER_LIMIT];
    for place in 0..PLAYER_LIMIT {
        numbers[place] = u32::from(bytes[place]);
    }
    numbers
}

/// What is to be otherwise in the next epoch.
#[repr(C)]
#[derive(Drop)]
pub struct MarkIn {
    /// That of this struct.
    pub size: u32,
    /// 0: as before.
    pub threshold: u32,
    pub ticket: u64,
    /// For each player whether whoever comes is to own it; for none, nobody comes.
    pub comes: [u32; PLAYER_LIMIT],
    /// `AS_BEFORE`: as before.
    pub delays: [u32; PLAYER_LIMIT],
}

impl MarkIn {
    /// The mark, if each number has room where it belongs.
    pub fn mark(&self) -> Option<Mark>
        ensures given { IfSome result (IsMarkOf self.now) }
        ensures none { IfNone result (IsMarkFaulty self.now) }
    {
        let Ok(threshold) = u8::try_from(self.threshold) else {
            return None;
        };
        let delays = delays_of(&self.delays)?;
        Some(Mark {
            newcomer: self.newcomer(),
            delays,
            threshold,
        })
    }

    /// Who comes, if somebody does.
    fn newcomer(&self) -> Option<Newcomer>
        ensures { result ≡ newcomer_in self.now }
    {
        let newcomer = Some(Newcomer {
            players: flags_of(&self.comes),
            ticket: self.ticket,
        });
        if has_players(&newcomer) {
            newcomer
        } else {
            None
        }
    }
}

/// Which numbers aren't 0.
fn flags_of(numbers: &[u32; PLAYER_LIMIT]) -> [bool; PLAYER_LIMIT]
    ensures { result ≡ each_player (flag_at numbers.now) }
{
    let mut flags = [false; PLAYER_LIMIT];
    for place in 0..PLAYER_LIMIT {
        flags[place] = numbers[place] != 0;
    }
    flags
}

/// New delays, if each is one.
fn delays_of(numbers: &[u32; PLAYER_LIMIT]) -> Option<[Option<u8>; PLAYER_LIMIT]>
    ensures delays { IfSome result (λ delays. delays ≡ each_player (delay_at numbers.now)) }
    ensures none { IfNone result ((p : ℕ) × (is_delay (slice_index numbers.now p) ≡ false)) }
{
    let mut delays = [None; PLAYER_LIMIT];
    for place in 0..PLAYER_LIMIT {
        if !is_delay(numbers[place]) {
            return None;
        }
        delays[place] = delay_in(numbers[place]);
    }
    Some(delays)
}

/// Whether a number is a delay, or says that it stays.
fn is_delay(number: u32) -> bool
    ensures { result ≡ is_delay number }
{
    number <= 255 || number == AS_BEFORE
}

/// The new delay, if there is one.
fn delay_in(number: u32) -> Option<u8>
    ensures { result ≡ delay_in number }
{
    u8::try_from(number).ok()
}
