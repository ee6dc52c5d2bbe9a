//! Which marks count, and where an epoch ends.
ghost use Rattle.std.specs.Prelude.{◌≡◌, ℕ, ◌+◌, ◌<◌, ◌^◌, replicate, IfSome, IfNone, None};
ghost use Rattle.roll_mesh.specs.declared.limits.TheConstants.{PLAYER_LIMIT};
ghost use Rattle.roll_epoch.specs.Ends.{IsEnd, are_delays, counting, in_rows, is_delay, is_void, noted, sooner, told};

use crate::inputs::are_alike;
use crate::limits::{DELAY_MOST, THRESHOLD_MOST};
use crate::terms::Terms;
use roll_mesh::PLAYER_LIMIT;
use roll_wire::{Mark, Marked};

/// By which mark an epoch ends, and where.
#[derive(Clone, Copy, Debug)]
pub struct Ending {
    /// The frame after the row that has the mark: the next epoch begins with it.
    pub frame: u32,
    /// The player whose word has it.
    pub player: u8,
    /// What it says.
    pub mark: Mark,
}

/// Whether a player may get such a delay by a mark that this machine gave.
fn is_delay(delay: Option<u8>, giver: u8, owner: u8) -> bool
    ensures { result ≡ is_delay delay giver owner }
{
    match delay {
        None => true,
        Some(delay) => delay <= DELAY_MOST && owner == giver,
    }
}

/// Whether all players may.
pub(crate) fn are_delays(delays: &[Option<u8>; PLAYER_LIMIT], giver: u8, terms: &Terms) -> bool
    ensures { result ≡ are_delays delays.now giver terms.now }
{
    for player in 0..PLAYER_LIMIT {
        if !is_delay(delays[player], giver, terms.owners[player]) {
            return false;
        }
    }
    true
}

/// Whether a mark is as if it weren't there, whoever is to come by it: it says what can't be, or what its giver has no say in, or words of
/// one input have other delays than each other by it.
pub fn is_void(mark: &Mark, giver: u8, terms: &Terms) -> bool
    ensures { result ≡ is_void mark.now giver terms.now }
{
    mark.threshold > THRESHOLD_MOST
        || !are_delays(&mark.delays, giver, terms)
        || !are_alike(&mark.delays, terms)
}

/// A player's mark, if its word is in the rows before a frame: if the player hadn't left.
fn in_rows(end: u32, left: Option<u32>, marked: Option<Marked>) -> Option<Marked>
    ensures { result ≡ in_rows end left marked }
{
    let marked = marked?;
    if marked.frame < end && left.is_none_or(|at| marked.frame < at) {
        Some(marked)
    } else {
        None
    }
}

/// The sooner one of an ending and that by a player's mark, if it has one: of two in one row the one that is there.
fn sooner(ending: Option<Ending>, player: u8, marked: Option<Marked>) -> Option<Ending>
    requires { IfSome marked (λ m. m.frame + 1 < 2 ^ 32) }
    ensures { result ≡ sooner ending player marked }
{
    let Some(Marked { frame, mark }) = marked else {
        return ending;
    };
    match ending {
        Some(ending) if ending.frame <= frame + 1 => Some(ending),
        _ => Some(Ending {
            frame: frame + 1,
            player,
            mark,
        }),
    }
}

/// The marks of an epoch that were heard: of each player the first one.
#[derive(Clone, Copy, Debug)]
pub struct Marks {
    /// Of each player, player 0 first. No other mark of it counts in this epoch, even if this one is void.
    pub first: [Option<Marked>; PLAYER_LIMIT],
}

impl Marks {
    /// None was heard.
    pub fn new() -> Marks
        ensures { result ≡ record { first = replicate PLAYER_LIMIT None } }
    {
        Marks {
            first: [None; PLAYER_LIMIT],
        }
    }

    /// A player's word came, with its mark. Words come from frame to frame, each once.
    pub fn note(&mut self, player: u8, marked: Marked)
        requires { player < PLAYER_LIMIT }
        ensures { self.new ≡ record { first = noted self.old.first player marked } }
    {
        let player = usize::from(player);
        if self.first[player].is_none() {
            self.first[player] = Some(marked);
        }
    }

    /// A player's mark, if it counts before a frame.
    fn counting(
        &self,
        terms: &Terms,
        left: &[Option<u32>; PLAYER_LIMIT],
        settled: u32,
        player: usize,
    ) -> Option<Marked>
        requires { player < PLAYER_LIMIT }
        ensures counts { result
            ≡ counting (told self.now terms.now left.now) settled player }
        ensures below { IfSome result (λ m. m.frame < settled) }
    {
        let marked = in_rows(settled, left[player], self.first[player])?;
        if is_void(&marked.mark, terms.owners[player], terms) {
            return None;
        }
        Some(marked)
    }

    /// Where an epoch of these terms ends that has so many settled rows: after the first of them that has a word with a mark that
    /// counts; of several in it, by that of the lowest player. `left` says of each player at how many words it
    /// left.
    pub fn end(
        &self,
        terms: &Terms,
        left: &[Option<u32>; PLAYER_LIMIT],
        settled: u32,
    ) -> Option<Ending>
        ensures found { IfSome result
            (IsEnd (told self.now terms.now left.now) settled) }
        ensures none { IfNone result ((p : ℕ) → p < PLAYER_LIMIT
            → counting (told self.now terms.now left.now) settled p ≡ None) }
    {
        let mut ending = None;
        for player in 0..PLAYER_LIMIT {
            let marked = self.counting(terms, left, settled, player);
            ending = sooner(ending, player as u8, marked);
        }
        ending
    }
}
