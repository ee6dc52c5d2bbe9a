//! Lines and their fields.

ghost use Rattle.std.specs.Prelude.{◌≡◌, ◌==◌, ◌≤◌, ◌↔◌, IfOk, IfSome, IsSome, length, map};
ghost use Rattle.std.specs.List.{slice_split};
ghost use Rattle.std.specs.Option.{option_map};
ghost use Rattle.roll_text.specs.Lines.{CutsLine};

use arrayvec::ArrayVec;
use std::alloc::{AllocError, Global};

/// The first line, without its end, and what follows it.
pub fn split_line(text: &[u8]) -> Option<(&[u8], &[u8])>
    ensures { CutsLine text.now (option_map (λ cut. (cut.0.now, cut.1.now)) result) }
{
    let end = text.iter().position(|b| *b == b'\n')?;
    Some((&text[..end], &text[end + 1..]))
}

/// The fields of a line, which lie between separators: one at least, if an empty one.
pub fn fields<'a>(alloc: Global, line: &'a [u8], separator: u8) -> Result<Vec<&'a [u8]>, AllocError>
    ensures { IfOk result (λ fields. map (λ field. field.now) fields.items ≡ slice_split
        (λ b. b == separator) line.now) }
{
    line.split(|b| *b == separator).collect(alloc)
}

/// The fields of a line, which lie between separators. None where there are more than `N`.
pub fn few_fields<const N: usize>(line: &[u8], separator: u8) -> Option<ArrayVec<&[u8], N>>
    ensures variant { IsSome result ↔ (length (slice_split (λ b. b == separator) line.now) ≤ N) }
    ensures value { IfSome result (λ fields. map (λ field. field.now) fields.items ≡ slice_split
        (λ b. b == separator) line.now) }
{
    let mut fields = ArrayVec::new();
    let Ok(()) = fields.extend(line.split(|b| *b == separator)) else {
        return None;
    };
    prove!(fields.len() <= N);
    Some(fields)
}
