//! The command line of the program `rollduel`: its commands and options with their help, and what words ask for.
//!
//! It knows no other crate of the program: what is asked for is said in types of its own.
#![tactic(auto)]

mod commands;
mod help;
mod picture;
mod reading;
mod request;

pub use help::SCRIPT;
pub use picture::{FRAME_LIMIT, OptionFault, PictureRequest, PictureWindow};
pub use reading::read;
pub use request::{CommandLine, Game, Input, LiveOptions, Request, TextRequest, TextTask};
