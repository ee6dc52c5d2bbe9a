//! Texts from outside, as an SVG holds them.
ghost use Rattle.std.specs.Prelude.{◌≡◌, ◌++◌, take, IfOk, OnOk};
ghost use Rattle.std.specs.List.{flat_map};
ghost use Rattle.std.specs.Str.{chars};
ghost use Rattle.std.specs.String.{string_bytes};
ghost use Rattle.prog_picture.specs.Escapes.{escaped};

use std::alloc::{AllocError, Global};

/// Writes the first characters of a text, so many at most: what an SVG would take for its own is escaped, and what it can't
/// hold is a question mark.
pub fn push_escaped(
    alloc: Global,
    out: &mut String,
    text: &str,
    most: usize,
) -> Result<(), AllocError>
    ensures { OnOk result (string_bytes out.new ≡ string_bytes out.old ++ flat_map escaped
        (take most (chars text.now))) }
{
    push_characters(out, &characters(alloc, text, most)?)
}

/// Writes characters.
pub fn push_characters(out: &mut String, all: &[char]) -> Result<(), AllocError>
    ensures { OnOk result
        (string_bytes out.new ≡ string_bytes out.old ++ flat_map escaped all.now) }
{
    for c in all {
        push_char(out, *c)?;
    }
    Ok(())
}

/// The first characters of a text, so many at most.
pub fn characters(alloc: Global, text: &str, most: usize) -> Result<Vec<char>, AllocError>
    ensures { IfOk result (λ found. found.items ≡ take most (chars text.now)) }
{
    text.chars().take(most).collect(alloc)
}

/// Writes a character.
fn push_char(out: &mut String, c: char) -> Result<(), AllocError>
    ensures { OnOk result (string_bytes out.new ≡ string_bytes out.old ++ escaped c) }
{
    match c {
        '&' => out.push_str("&amp;"),
        '<' => out.push_str("&lt;"),
        '>' => out.push_str("&gt;"),
        '"' => out.push_str("&quot;"),
        '\0'..='\u{1f}' | '\u{fffe}' | '\u{ffff}' => out.push('?'),
        _ => out.push(c),
    }
}
