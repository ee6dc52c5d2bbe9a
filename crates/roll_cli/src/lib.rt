//! The engines behind the program: scripts that are played, claims that are checked, and what is written of them.
//!
//! What the clause `plays` says of an engine's text and output, it says of a reader and a writer that tell their bytes
//! (`roll_text`). When a reader or a writer fails no clause says: that a fault of the one is `Read`, and of the other
//! `Write`, is tested at each read and write (`tests/runs/streams.t`).
#![tactic(auto)]

mod certificate;
mod engine;
mod playing;
mod program;
mod sync_test;

pub use certificate::certify;
pub use engine::{play, play_duel};
pub use playing::Playing;
pub use prog_scripts::{
    Command, Ending, GameName, Header, PlayFault, RowsFile, Script, ScriptFault, Task, Version,
    call, player_number,
};
pub use program::run;
pub use roll_game::Shown;
pub use sync_test::synctest;
