//! What a machine of a match knows of the others, beside its session: what is confirmed in the session is what its mesh says that
//! it has.
//!
//! The session may be any that a network sees (`Networked` of `roll_session`): contracts speak of what is seen of it. A
//! call that is lent it to change it also says that all stays that inputs leave as it was (`keeps`): of a session
//! without a game, that the states that it keeps are still those of their rows. Player p of the mesh, counted from 0,
//! is player p + 1 of the session.
//!
//! `hear`, `let_leave` and `tell` ask for a session that is tied to the mesh (`IsTied`): as it is after `join`, and
//! after a `meet` that says yes, until a call of its own changes it. All three are steps of `roll_mesh`'s laws over
//! words, of what member and session hold together (`held`), and so is what local players gave in between
//! ([`own_words_are_given`]). What comes of that in a whole match, `two_peers_one_match` of `roll_peer` says.
#![tactic(auto)]

mod join;
mod laws;
mod leaving;
mod member;
mod seam;
mod telling;
mod words;

pub use join::JoinRefusal;
pub use laws::{inputs_are_whole, own_words_are_given};
pub use leaving::Left;
pub use member::{Member, Taken};
pub use seam::{given_at, settings_after};
pub use telling::Told;
