//! Lists of numbers in one field.

ghost use Rattle.std.specs.Prelude.{◌≡◌, ◌<◌, ◌++◌, IfOk, OnErr, OnOk, length};
ghost use Rattle.std.specs.Io.{StartsWith};
ghost use Rattle.std.specs.Option.{option_map};
ghost use Rattle.roll_text.specs.Numbers.{IsList, list_of};
ghost use Rattle.roll_text.specs.Text.{Reads};

use crate::decimal::{number, push_number};
use crate::line::fields;
use std::alloc::{AllocError, Global};

/// The numbers that the text spells, with a comma between each two.
pub fn numbers(alloc: Global, text: &[u8]) -> Result<Option<Vec<u32>>, AllocError>
    ensures { IfOk result
        (λ list. Reads IsList list_of text.now (option_map (λ list. list.items) list)) }
{
    let parts = fields(alloc, text, b',')?;
    let mut numbers = Vec::new(alloc);
    for part in &parts {
        let Some(n) = number(part) else {
            return Ok(None);
        };
        numbers.push(n)?;
    }
    Ok(Some(numbers))
}

/// Writes numbers at the end, with a comma between each two. At an error some of it may be written.
pub fn push_list(out: &mut Vec<u8>, numbers: &[u32]) -> Result<(), AllocError>
    requires { 0 < length numbers.now }
    ensures ok { OnOk result (out.new.items ≡ out.old.items ++ list_of numbers.now) }
    ensures err { OnErr result (StartsWith out.new.items out.old.items) }
{
    let (first, others) = numbers.split_first().unwrap();
    push_number(out, *first)?;
    for n in others {
        out.push(b',')?;
        push_number(out, *n)?;
    }
    Ok(())
}
