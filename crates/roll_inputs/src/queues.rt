//! The queues of all players, in order: the timeline that follows from them.
ghost use Rattle.std.specs.Prelude.{◌≡◌, ◌≤◌, ◌<◌, ◌+◌, ℕ, ◌&&◌, not, map, min, length, All, IfOk};
ghost use Rattle.std.specs.List.{list_any};
ghost use Rattle.std.specs.Option.{option_copied, option_map_or};
ghost use Rattle.roll_frame.specs.Core.{row_possible};
ghost use Rattle.roll_frame.specs.Settings.{delay_at, first_player, places};
ghost use Rattle.roll_frame.specs.Timeline.{front as front_of, row_at as row_of};
ghost use Rattle.roll_inputs.specs.Boards.{first_known, players_of, queue_at, settled_to, started};

use crate::queue::Queue;
use roll_frame::{DELAY_LIMIT, PLAYER_LIMIT, Row, Settings};
use std::alloc::{AllocError, Global};

/// The players at the start.
pub(crate) fn first_queues(alloc: Global, settings: &Settings) -> Result<Vec<Queue>, AllocError>
    requires few { settings.now.players ≤ PLAYER_LIMIT }
    requires delays { (place : ℕ) → place < settings.now.players → delay_at settings.now place ≤
        DELAY_LIMIT }
    ensures { IfOk result (λ queues. queues.items ≡ map (first_known settings.now)
        (places settings.now)) }
{
    let mut queues = Vec::with_capacity(alloc, usize::from(settings.players))?;
    for place in 0..settings.players {
        queues.push(Queue::new(alloc, settings, place)?)?;
    }
    Ok(queues)
}

/// A player's queue, by number.
pub(crate) fn queue_of(queues: &[Queue], player: u8) -> Option<&Queue>
    ensures { option_copied result ≡ queue_at queues.now player }
{
    if player == 0 {
        None
    } else {
        queues.get(usize::from(player) - 1)
    }
}

/// The timeline's row of a frame.
pub(crate) fn row_at(queues: &[Queue], frame: u32) -> Row
    requires some { 1 ≤ length queues.now }
    requires few { length queues.now ≤ PLAYER_LIMIT }
    requires held { All (λ q. q.from ≤ frame) queues.now }
    ensures { result ≡ row_of (players_of queues.now) frame }
{
    let mut row = Row::new(queues[0].cell(frame));
    for queue in &queues[1..] {
        row.push(queue.cell(frame));
    }
    row
}

/// Whether a row may be the timeline's of a frame: it has a cell for each player, and those known.
pub(crate) fn allows(queues: &[Queue], frame: u32, row: &Row) -> bool
    requires held { All (λ q. q.from ≤ frame) queues.now }
    ensures { result ≡ row_possible frame (players_of queues.now) row.now }
{
    let cells = row.cells();
    if cells.len() != queues.len() {
        return false;
    }
    for place in 0..queues.len() {
        if !queues[place].allows(frame, cells[place]) {
            return false;
        }
    }
    true
}

/// How many rows are confirmed by all players that are not gone.
pub(crate) fn front(queues: &[Queue]) -> u32
    ensures { result ≡ front_of (players_of queues.now) }
{
    let mut least = None;
    for queue in queues {
        if !queue.is_gone() {
            least = Some(lesser(least, queue.count()));
        }
    }
    least.unwrap_or(0)
}

/// Whether a local player has no word in this frame.
pub(crate) fn is_missing(queues: &[Queue]) -> bool
    ensures { result ≡ list_any (λ q. q.player.local && not q.player.given) queues.now }
{
    queues
        .iter()
        .any(|queue| queue.is_local() && !queue.is_given())
}

/// Begins a frame for all players.
pub(crate) fn start_frames(queues: &mut [Queue])
    ensures { queues.new ≡ map started queues.old }
{
    for queue in queues.iter_mut() {
        queue.start_frame();
    }
}

/// Lets go of the words below a frame.
pub(crate) fn settle_all(queues: &mut [Queue], to: u32)
    requires { All (λ q. q.from ≤ to) queues.old }
    ensures { queues.new ≡ map (settled_to to) queues.old }
{
    for queue in queues.iter_mut() {
        queue.settle(to);
    }
}

fn lesser(least: Option<u32>, count: u32) -> u32
    ensures { result ≡ option_map_or (λ n. min n count) least count }
{
    match least {
        Some(n) => n.min(count),
        None => count,
    }
}
