//! The lines of a text, taken one after another.
ghost use Rattle.std.specs.Prelude.{◌≡◌, ◌==◌, ◌+◌, ◌≤◌, ◌++◌, false, IfErr, IfOk, OnOk, length};
ghost use Rattle.std.specs.List.{list_any};
ghost use Rattle.roll_text.specs.Lines.{Lacks, ended};
ghost use Rattle.roll_text.specs.Text.{Reads};
ghost use Rattle.roll_text.specs.declared.streams.TheConstants.{TEXT_LIMIT};
ghost use Rattle.roll_frame.specs.declared.refusal.Refusal.TheVariants.{Unreadable};
ghost use Rattle.roll_cert.specs.Reading.{IsWithin, IsWrong, StartsWith};
ghost use Rattle.roll_cert.specs.Texts.{named};

use roll_frame::Refusal;
use roll_text::{number, split_line};

/// What is left of a text, and the number of its first line.
#[derive(Debug, Drop)]
pub struct Lines<'a> {
    pub rest: &'a [u8],
    pub next: u32,
    ghost short: { next + length rest.now ≤ TEXT_LIMIT + 1 },
}

impl<'a> Lines<'a> {
    /// All lines of a text.
    pub fn new(text: &'a [u8]) -> Lines<'a>
        requires { length text.now ≤ TEXT_LIMIT }
        ensures rest { result.rest.now ≡ text.now }
        ensures next { result.next ≡ 1 }
    {
        Lines {
            rest: text,
            next: 1,
        }
    }

    /// Takes a line, without its end.
    pub fn take(&mut self) -> Result<&'a [u8], Refusal>
        ensures line { IfOk result (λ line. Lacks 10 line.now) }
        ensures rest { IfOk result (λ line. self.old.rest.now ≡ ended line.now
            ++ self.new.rest.now) }
        ensures next { OnOk result (self.new.next ≡ self.old.next + 1) }
        ensures none { IfErr result (λ why. Lacks 10 self.old.rest.now) }
        ensures err { IfErr result (λ why. why ≡ Unreadable self.old.next) }
    {
        let Some((line, rest)) = split_line(self.rest) else {
            return Err(Refusal::Unreadable(self.next));
        };
        *self = Lines {
            rest,
            next: self.next + 1,
        };
        Ok(line)
    }

    /// Takes a line with a name and, after it, a number from `least` to `most`.
    pub fn number(&mut self, name: &[u8], least: u32, most: u32) -> Result<u32, Refusal>
        requires { list_any (λ b. b == 10) name.now ≡ false }
        ensures ok { IfOk result (λ n. StartsWith (IsWithin least most) (named name.now)
            self.old.rest.now self.new.rest.now n) }
        ensures next { OnOk result (self.new.next ≡ self.old.next + 1) }
        ensures err { IfErr result (λ why. IsWrong (IsWithin least most) (named name.now)
            self.old.next self.old.rest.now why) }
    {
        let next = self.next;
        let line = self.take()?;
        named_number(line, name, least, most).ok_or(Refusal::Unreadable(next))
    }

    /// Refuses the line that comes next, if something is left.
    pub fn end(&self) -> Result<(), Refusal>
        ensures ok { OnOk result (length self.now.rest.now ≡ 0) }
        ensures err { IfErr result (λ why. (why ≡ Unreadable self.now.next)
            × (1 ≤ length self.now.rest.now)) }
    {
        if self.rest.is_empty() {
            Ok(())
        } else {
            Err(Refusal::Unreadable(self.next))
        }
    }
}

/// The number in a line, from `least` to `most`, where a name stands before it.
pub fn named_number(line: &[u8], name: &[u8], least: u32, most: u32) -> Option<u32>
    ensures { Reads (IsWithin least most) (named name.now) line.now result }
{
    let Some(text) = line.strip_prefix(name) else {
        return None;
    };
    let Some(n) = number(text) else {
        return None;
    };
    if least <= n && n <= most {
        Some(n)
    } else {
        None
    }
}
