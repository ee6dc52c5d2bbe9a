//! A game of two to four ships that fire at one another, as a rollback session drives it.
//!
//! The field is 81,920 wide and 61,440 high, in 1/256 of a unit, and wraps. A player's word has bits: 1 thrust, 2 left,
//! 4 right, 8 fire; the others are ignored. A player that is gone, or that the row doesn't have, has word 0, and
//! cells past the last ship are ignored.
//!
//! In a frame each ship, in order of number, turns by one of eight headings, thrusts, cools its gun, fires if the gun
//! is cool and fewer than 32 bullets are there, and moves. Then each bullet, in order, moves and has one frame less
//! to live. Of the ships other than its owner that are at most 2,048 from it in both directions, the one with the least
//! number is hit, and the bullet is gone; it is also gone if it has no frame to live. `specs/` has each step.
#![tactic(auto)]

mod bullet;
mod bytes;
mod duel;
mod frame;
mod pad;
mod ship;
mod space;
mod state;
mod text;

pub use bullet::Bullet;
pub use duel::Duel;
pub use ship::Ship;
pub use state::{Snapshot, State};
