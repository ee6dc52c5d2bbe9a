//! The texts of the program: what the lines of scripts and files of rows are, how they are read, and what is wrong with one that can't
//! be; what is written of a session; what is to be done with a text, and how the program ends.
#![tactic(auto)]

mod calls;
mod command;
mod diagnosis;
mod ending;
mod fault;
mod forms;
mod header;
mod lines;
mod output;
mod reading;
mod rows_file;
mod script;
mod task;

pub use calls::{call, player_number};
pub use command::{Command, first_command};
pub use diagnosis::{Diagnosis, NumberFault};
pub use ending::{Ending, GameName};
pub use fault::PlayFault;
pub use forms::diagnose;
pub use header::{Header, Version};
pub use output::{
    push_claim, push_job, push_named, push_not_started, push_refused, push_reply, write_not_started,
};
pub use reading::read_script;
pub use rows_file::RowsFile;
pub use script::{Script, ScriptFault, outline};
pub use task::Task;
