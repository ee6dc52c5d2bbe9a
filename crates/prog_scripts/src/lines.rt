//! What is wrong with a line.
ghost use Rattle.std.specs.Prelude.{◌≡◌, IfSome, MatchOption};
ghost use Rattle.std.specs.List.{AllZip};
ghost use Rattle.std.specs.Str.{all_ascii_digits};
ghost use Rattle.prog_scripts.specs.Diagnoses.{HasNoExtraSpace, IsBecause, IsCell, IsFaultAs, IsFaultOfCell, IsFaultOfFields, IsFaultOfLength, IsFaultOfNumber, IsFaultOfPath, IsFaultOfRange, IsFaultOfText, IsFaultOfWord, IsFirstExtraSpace, IsFit, IsNoNumber, IsNumber, IsNumberIn, IsPathLine, IsTrueInside, fields};
ghost use Rattle.roll_cert.specs.Reading.{IsWithin};

use crate::diagnosis::{Diagnosis, NumberFault};
use roll_frame::{PATH_LIMIT, PLAYER_LIMIT};
use roll_text::number;

/// What a field has to be.
#[derive(Clone, Copy, Debug, PartialEq, Eq)]
pub enum Item {
    Word(&'static str),
    Number { least: u32, most: u32 },
    /// So many numbers, with a comma between each two.
    List { least: usize, most: usize },
    /// Numbers of players, which rise.
    Players,
    /// A cell for each of so many players.
    Row(usize),
}

/// Any number.
pub const ANY: Item = Item::Number {
    least: 0,
    most: u32::MAX,
};

impl Item {
    /// What is wrong with a field that has to be this.
    fn fault<'a>(&self, field: &'a [u8]) -> Option<Diagnosis<'a>>
        ensures { MatchOption result (IsFit self.now field.now) (IsFaultAs self.now field.now) }
    {
        match self {
            Item::Word(wanted) => word_fault(field, wanted),
            Item::Number { least, most } => number_fault(field, *least, *most),
            Item::List { least, most } => list_fault(field, *least, *most),
            Item::Players => players_fault(field),
            Item::Row(players) => row_fault(field, *players),
        }
    }
}

/// What is wrong with a line that has to have these fields.
pub fn fields_fault<'a>(line: &'a [u8], items: &[Item]) -> Option<Diagnosis<'a>>
    ensures exact { MatchOption result (AllZip IsFit items.now (fields line.now))
        (IsFaultOfFields items.now line.now) }
    ensures said { IfSome result (IsTrueInside line.now) }
{
    for (field, item) in line.split(|b| *b == b' ').zip(items) {
        if let Some(fault) = item.fault(field) {
            return Some(fault);
        }
    }
    let (found, wanted) = (line.split(|b| *b == b' ').count(), items.len());
    if found == wanted {
        None
    } else {
        Some(Diagnosis::FieldCount { found, wanted })
    }
}

/// What is wrong with a path: `-`, or at most 24 rows with a space between each two.
pub fn path_fault(line: &[u8], players: usize) -> Option<Diagnosis<'_>>
    ensures exact { MatchOption result (IsPathLine players line.now)
        (IsFaultOfPath players line.now) }
    ensures said { IfSome result (IsTrueInside line.now) }
{
    if line == b"-".as_slice() {
        return None;
    }
    for row in line.split(|b| *b == b' ') {
        if let Some(fault) = row_fault(row, players) {
            return Some(fault);
        }
    }
    length_fault(line.split(|b| *b == b' ').count(), 1, PATH_LIMIT)
}

/// The column of the first space at an end of the line, or after another.
pub fn extra_space(line: &[u8]) -> Option<usize>
    ensures { MatchOption result (HasNoExtraSpace line.now) (IsFirstExtraSpace line.now) }
{
    let mut last = b' ';
    for (i, b) in line.iter().enumerate() {
        if *b == b' ' && (last == b' ' || i + 1 == line.len()) {
            return Some(i + 1);
        }
        last = *b;
    }
    None
}

fn word_fault<'a>(field: &'a [u8], wanted: &'static str) -> Option<Diagnosis<'a>>
    ensures { MatchOption result (field.now ≡ wanted.now) (IsFaultOfWord wanted.now field.now) }
{
    if field == wanted.as_bytes() {
        None
    } else {
        Some(Diagnosis::Word {
            found: field,
            wanted,
        })
    }
}

fn number_fault(field: &[u8], least: u32, most: u32) -> Option<Diagnosis<'_>>
    ensures { MatchOption result (IsNumberIn least most field.now)
        (IsFaultOfNumber least most field.now) }
{
    match number(field) {
        None => Some(no_number(field)),
        Some(n) => range_fault(n, least, most),
    }
}

fn range_fault<'a>(found: u32, least: u32, most: u32) -> Option<Diagnosis<'a>>
    ensures { MatchOption result (IsWithin least most found) (IsFaultOfRange least most found) }
{
    if least <= found && found <= most {
        None
    } else {
        Some(Diagnosis::OutOfRange { found, least, most })
    }
}

fn list_fault(field: &[u8], least: usize, most: usize) -> Option<Diagnosis<'_>>
    ensures { MatchOption result (IsFit (Item.List least most) field.now)
        (IsFaultAs (Item.List least most) field.now) }
{
    for part in field.split(|b| *b == b',') {
        if let Some(fault) = text_fault(part) {
            return Some(fault);
        }
    }
    length_fault(field.split(|b| *b == b',').count(), least, most)
}

fn players_fault(field: &[u8]) -> Option<Diagnosis<'_>>
    ensures { MatchOption result (IsFit Item.Players field.now) (IsFaultAs Item.Players field.now) }
{
    let mut before = 0;
    for part in field.split(|b| *b == b',') {
        let Some(found) = number(part) else {
            return Some(no_number(part));
        };
        if let Some(fault) = range_fault(found, 1, PLAYER_LIMIT as u32) {
            return Some(fault);
        }
        if found <= before {
            return Some(Diagnosis::NotRising { found, before });
        }
        before = found;
    }
    None
}

fn row_fault(field: &[u8], players: usize) -> Option<Diagnosis<'_>>
    ensures { MatchOption result (IsFit (Item.Row players) field.now)
        (IsFaultAs (Item.Row players) field.now) }
{
    for part in field.split(|b| *b == b',') {
        if let Some(fault) = cell_fault(part) {
            return Some(fault);
        }
    }
    length_fault(field.split(|b| *b == b',').count(), players, players)
}

fn cell_fault(text: &[u8]) -> Option<Diagnosis<'_>>
    ensures { MatchOption result (IsCell text.now) (IsFaultOfCell text.now) }
{
    if text == b"x".as_slice() {
        None
    } else {
        text_fault(text)
    }
}

fn text_fault(text: &[u8]) -> Option<Diagnosis<'_>>
    ensures { MatchOption result (IsNumber text.now) (IsFaultOfText text.now) }
{
    match number(text) {
        None => Some(no_number(text)),
        Some(_) => None,
    }
}

fn length_fault<'a>(found: usize, least: usize, most: usize) -> Option<Diagnosis<'a>>
    ensures { MatchOption result (IsWithin least most found) (IsFaultOfLength least most found) }
{
    if least <= found && found <= most {
        None
    } else {
        Some(Diagnosis::ListLength { found, least, most })
    }
}

/// Why a text is no number.
fn why_no_number(text: &[u8]) -> NumberFault
    requires { IsNoNumber text.now }
    ensures { IsBecause text.now result }
{
    if text.is_empty() {
        NumberFault::Empty
    } else if !is_digits(text) {
        NumberFault::NotDigits
    } else if text[0] == b'0' {
        NumberFault::LeadingZero
    } else {
        NumberFault::TooLarge
    }
}

fn is_digits(text: &[u8]) -> bool
    ensures { result ≡ all_ascii_digits text.now }
{
    text.iter().all(|b| b.is_ascii_digit())
}

fn no_number(found: &[u8]) -> Diagnosis<'_>
    requires { IsNoNumber found.now }
    ensures { IsFaultOfText found.now result }
{
    let why = why_no_number(found);
    Diagnosis::Number { found, why }
}
