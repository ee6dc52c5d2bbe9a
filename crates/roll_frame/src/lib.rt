//! Rows, paths, claims and refusals of rollback sessions, time-sync advice, and the definitions that every contract cites.
#![tactic(auto)]

mod advice;
mod boxed;
mod claim;
mod entry;
mod event;
mod fault;
mod limits;
mod path;
mod profile;
mod refusal;
mod reply;
mod route;
mod row;
mod settings;

pub use advice::Advice;
pub use boxed::Boxed;
pub use claim::{Claim, Differ, Items};
pub use entry::Entry;
pub use event::Event;
pub use fault::SettingsFault;
pub use limits::{
    ADVANTAGE_LIMIT, ADVICE_WINDOW, BRANCH_LIMIT, DELAY_LIMIT, FRAME_LIMIT, LEAST_ADVICE,
    LOG_LIMIT, MOST_ADVICE, PATH_LIMIT, PLAYER_LIMIT, QUEUE_LIMIT, SYNC_TEST_LIMIT, TREE_LIMIT,
    limits_are,
};
pub use path::Path;
pub use profile::Profile;
pub use refusal::Refusal;
pub use reply::Reply;
pub use route::Route;
pub use row::{Cell, Row};
pub use settings::Settings;
