//! The network of a match at one machine, beside its session.
//!
//! No clause says that words come through, or when: the laws say that what two machines settle is the same, and not
//! that they settle it.
#![tactic(auto)]

mod comparison;
mod cut_off;
mod digests;
mod disputes;
mod event;
mod following;
mod judging;
mod keys;
mod laws;
mod marking;
mod notices;
mod opening;
mod pace;
mod peer;
mod received;
mod receiving;
mod refusal;
mod request;
mod run;
mod sending;
mod settings;
mod stall;
mod stats;
mod strangers;
mod turning;

pub use cut_off::CutOff;
pub use event::PeerEvent;
pub use following::Seating;
pub use laws::{
    events_name_machines, limits_are, nothing_else_is_heard, two_peers_know_one,
    two_peers_one_match, what_opened_stays, who_has_the_word_has_its_mark,
};
pub use peer::Peer;
pub use received::{Ignored, Received};
pub use refusal::{MarkRefusal, OpenRefusal, OtherSession, PeerRefusal};
pub use request::{PeerReply, PeerRequest};
pub use roll_contact::{Field, Stage};
pub use settings::MatchSettings;
pub use stats::Stats;
pub use turning::ends_in_roll;
