//! What is read of the match that an open session plays.
ghost use Rattle.std.specs.Prelude.{◌≡◌, ◌≤◌, nat_lt, slice_index, if◌then◌else◌};
ghost use Rattle.roll_mesh.specs.declared.limits.TheConstants.{PLAYER_LIMIT as PLAYERS};
ghost use Rattle.roll_peer.specs.Marks.{each_player};
ghost use Rattle.roll_chain.specs.Seams.{each_machine};
ghost use Rattle.fazgrond_c.specs.Matches.{counted_of, of_player, stayed_at, stayed_out, DoesRead, IsCountedOf, IsEpochOf};

use crate::calls::{CLOSED, NOTHING};
use crate::live::Live;
use crate::match_kinds::StayedOut;
use crate::online::Online;
use crate::peer_kinds::StatsOut;
use roll_mesh::{MACHINE_LIMIT, PLAYER_LIMIT};

/// There is no such machine in the match.
const INVALID_MACHINE: i32 = 303;
/// Nobody owns the player.
const NO_PLAYER: u32 = 255;

/// What was counted and measured of a machine.
pub fn stats(live: &Live, machine: u8, out: &mut StatsOut) -> i32
    ensures { DoesRead (IsCountedOf machine) live.now out.old out.new result }
{
    let Some(online) = &live.network else {
        return CLOSED;
    };
    match counted_of(online, machine) {
        Some(there) => {
            *out = there;
            0
        }
        None => INVALID_MACHINE,
    }
}

/// What was counted of a machine, if there is one of this number.
fn counted_of(online: &Online, machine: u8) -> Option<StatsOut>
    ensures { result ≡ counted_of online.now machine }
{
    if machine >= online.it.settings().machines {
        return None;
    }
    let stats = online.it.stats(machine)?;
    Some(StatsOut::of(&stats))
}

/// How this epoch opened, and who was in the one before.
pub fn epoch(live: &Live, out: &mut StayedOut) -> i32
    ensures { DoesRead IsEpochOf live.now out.old out.new result }
{
    let Some(online) = &live.network else {
        return CLOSED;
    };
    if !online.it.lasts() {
        return NOTHING;
    }
    *out = stayed_out(online);
    0
}

fn stayed_out(online: &Online) -> StayedOut
    ensures { result ≡ stayed_out online.now }
{
    let terms = online.it.epoch();
    let words = online.words();
    StayedOut {
        epoch: terms.id,
        base: terms.base,
        machines: u32::from(terms.machines()),
        threshold: u32::from(terms.threshold),
        owners: of_players(&terms.owners, words),
        delays: of_players(&terms.delays, words),
        stayed: stayed(online),
    }
}

/// What each player has of what each word of a row has.
fn of_players(row: &[u8; PLAYER_LIMIT], words: u8) -> [u32; PLAYER_LIMIT]
    requires { words ≤ 4 }
    ensures { result ≡ each_player (of_player row.now words) }
{
    let mut players = [0; PLAYER_LIMIT];
    for place in 0..PLAYER_LIMIT {
        players[place] = of_player(row, place * usize::from(words));
    }
    players
}

/// What a word of a row has, or nobody past the last one.
fn of_player(row: &[u8; PLAYER_LIMIT], word: usize) -> u32
    ensures { result ≡ (if nat_lt word PLAYERS then slice_index row.now word else NO_PLAYER) }
{
    if word < PLAYER_LIMIT {
        u32::from(row[word])
    } else {
        NO_PLAYER
    }
}

/// Of each machine, whether it was in the epoch before.
fn stayed(online: &Online) -> [u32; MACHINE_LIMIT]
    ensures { result ≡ each_machine (stayed_at online.now) }
{
    let mut stayed = [0; MACHINE_LIMIT];
    for machine in 0..MACHINE_LIMIT {
        stayed[machine] = u32::from(online.it.has_stayed(machine as u8));
    }
    stayed
}
