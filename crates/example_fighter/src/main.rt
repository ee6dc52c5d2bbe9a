//! Plays a script of the fight: reads it from standard input, and writes the reply to each line.
//!
//! The exit status is 0, 1 where a reply was a refusal, or 2 after a fault, which standard error tells.
#![tactic(auto)]

use game_fighter::Fight;
use roll_cli::play;
use std::io;
use std::process::ExitCode;

fn main(rt: HostRuntime) -> ExitCode {
    let (game, helper) = (Fight::new(), Fight::new());
    match play(
        rt.alloc(),
        &mut rt.reader(),
        &mut io::writer(&rt),
        game,
        Fight::opening(),
        helper,
    ) {
        Ok(0) => ExitCode::SUCCESS,
        Ok(_) => ExitCode::from(1),
        Err(fault) => {
            // Where standard error can't be written either, the status alone tells.
            let _ = eprintln!(rt; "example_fighter: {fault}");
            ExitCode::from(2)
        }
    }
}
