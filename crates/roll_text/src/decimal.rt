//! Numbers in decimal digits.

ghost use Rattle.std.specs.Prelude.{◌≡◌, ◌≤◌, ◌+◌, ◌++◌, MatchOption, OnErr, OnOk, drop, take};
ghost use Rattle.std.specs.Fmt.{decimal, signed_decimal};
ghost use Rattle.std.specs.Option.{option_map};
ghost use Rattle.std.specs.Str.Parse.{digits_value};
ghost use Rattle.roll_text.specs.Numbers.{AreDigits, CutsNumber, IsWord, LacksDigit};
ghost use Rattle.roll_text.specs.Text.{Reads};

use itoa::Buffer;
use std::alloc::AllocError;

/// A number of 32 bits has at most this many digits.
const DIGIT_LIMIT: usize = 10;

/// The number that the text spells: in digits alone, with no leading zero.
pub fn number(text: &[u8]) -> Option<u32>
    ensures { Reads IsWord decimal text.now result }
{
    let Some((n, rest)) = leading_number(text) else {
        return None;
    };
    if rest.is_empty() { Some(n) } else { None }
}

/// The number that the digits at the beginning of a text spell, all of them, and what follows. None if there is no
/// digit, if a zero leads others, or if the number has over 32 bits.
#[inline(always)]
pub fn leading_number(text: &[u8]) -> Option<(u32, &[u8])>
    ensures { CutsNumber text.now (option_map (λ cut. (cut.0, cut.1.now)) result) }
{
    let Some((n, count)) = leading_digits(text) else {
        return None;
    };
    if count == 0 {
        return None;
    }
    if count > 1 && text[0] == b'0' {
        return None;
    }
    let Ok(n) = u32::try_from(n) else {
        return None;
    };
    let (_, rest) = text.split_at(count);
    Some((n, rest))
}

/// The value of the digits at the beginning of a text, and how many there are. None where they are too many.
#[inline(always)]
fn leading_digits(text: &[u8]) -> Option<(u64, usize)>
    ensures { MatchOption result (AreDigits (DIGIT_LIMIT + 1) text.now)
        (λ found. (found.1 ≤ DIGIT_LIMIT) × AreDigits found.1 text.now
        × LacksDigit (drop found.1 text.now)
        × (found.0 ≡ digits_value 10 (take found.1 text.now))) }
{
    let mut n = 0;
    for count in 0..text.len() {
        let b = text[count];
        if !b.is_ascii_digit() {
            return Some((n, count));
        }
        if count == DIGIT_LIMIT {
            return None;
        }
        n = 10 * n + u64::from(b - b'0');
    }
    Some((n, text.len()))
}

/// Writes a number at the end.
pub fn push_number(out: &mut Vec<u8>, n: u32) -> Result<(), AllocError>
    ensures ok { OnOk result (out.new.items ≡ out.old.items ++ decimal n) }
    ensures err { OnErr result (out.new.items ≡ out.old.items) }
{
    if n < 10 {
        out.push(b'0' + n as u8)?;
        return Ok(());
    }
    out.extend_from_slice(Buffer::new().format(n).as_bytes())
}

/// Writes a number at the end, with a minus sign where it is below zero.
pub fn push_signed(out: &mut Vec<u8>, n: i32) -> Result<(), AllocError>
    ensures ok { OnOk result (out.new.items ≡ out.old.items ++ signed_decimal n) }
    ensures err { OnErr result (out.new.items ≡ out.old.items) }
{
    out.extend_from_slice(Buffer::new().format(n).as_bytes())
}
