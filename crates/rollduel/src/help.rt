//! What `--help` tells of scripts.

use prog_command_line::SCRIPT;
use std::alloc::{AllocError, Global};

/// What is told of scripts: their lines, the answers, and at the end the refusals.
pub fn script(alloc: Global) -> Result<String, AllocError> {
    let mut text = String::new(alloc);
    text.push_str(SCRIPT)?;
    text.push_str("\n\nWhat `refused N` means:\n")?;
    prog_explain::push_refusals(&mut text)?;
    Ok(text)
}
