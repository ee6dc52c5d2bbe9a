//! What is wrong with a line of a script, a file of rows or a claim.
ghost use Rattle.std.specs.Prelude.{◌≡◌, ◌≢◌, ◌-◌, [], IfSome, None, drop, slice_index_or, true};
ghost use Rattle.roll_text.specs.Lines.{lines_of};
ghost use Rattle.prog_scripts.specs.declared.ending.GameName.{GameName};
ghost use Rattle.prog_scripts.specs.Diagnoses.{IsCommandForm, IsCommandLine, IsOfTask, IsSaidOf, IsTrueInside, IsTrueOf, fields};

use crate::diagnosis::Diagnosis;
use crate::lines::{ANY, Item, extra_space, fields_fault, path_fault};
use crate::task::Task;
use roll_cert::named_number;
use roll_frame::{FRAME_LIMIT, PATH_LIMIT};
use roll_text::{number, split_line};

/// What is wrong with the line of this number, from 1, which can't be read as a task wants it.
///
/// Whatever is said is true of the line. An empty line, a CR at its end and a space too many come first: nothing else is
/// said of such a line. Which fields and ranges a line is asked for is tested (`tests/runs/program.t`), not proved.
pub fn diagnose<'a>(task: Task, text: &'a [u8], number: u64) -> Diagnosis<'a>
    ensures said { IsSaidOf text.now number result }
    ensures task { IsOfTask task result }
    ensures form { (game : GameName) → task ≡ Task.Play game → number ≢ 1 → result ≡ Diagnosis.Other
        → IsCommandLine number text.now }
{
    let rest = from_line(text, number);
    if rest.is_empty() {
        return Diagnosis::Missing;
    }
    match split_line(rest) {
        None => Diagnosis::Unended,
        Some((line, _)) => line_diagnosis(task, text, line, number),
    }
}

/// What is wrong with a line of a text.
fn line_diagnosis<'a>(task: Task, text: &'a [u8], line: &'a [u8], number: u64) -> Diagnosis<'a>
    ensures said { IsTrueOf line.now result }
    ensures task { IsOfTask task result }
    ensures form { (game : GameName) → task ≡ Task.Play game → number ≢ 1 → result ≡ Diagnosis.Other
        → IsCommandForm (fields line.now) }
{
    if line.last() == Some(&b'\r') {
        return Diagnosis::CarriageReturn;
    }
    if line.is_empty() {
        return Diagnosis::Blank;
    }
    if let Some(column) = extra_space(line) {
        return Diagnosis::ExtraSpace(column);
    }
    if is_past_end(task, text, number) {
        return Diagnosis::AfterEnd;
    }
    let fault = match task {
        Task::Play(_) => script_fault(line, number),
        Task::SyncTest { .. } => rows_fault(text, line, number),
        Task::Certify => claim_fault(text, line, number),
    };
    fault.unwrap_or(Diagnosis::Other)
}

/// Whether the line of this number comes after the last one of a claim.
fn is_past_end(task: Task, text: &[u8], number: u64) -> bool
    ensures { result ≡ true → task ≡ Task.Certify }
{
    match task {
        Task::Play(_) | Task::SyncTest { .. } => false,
        Task::Certify => parts_of(text).end < number,
    }
}

/// A text from the line of this number on.
fn from_line(text: &[u8], number: u64) -> &[u8]
    ensures { lines_of result.now ≡ drop (number - 1) (lines_of text.now) }
{
    let mut rest = text;
    for _ in 1..number {
        let Some((_, after)) = split_line(rest) else {
            return b"";
        };
        rest = after;
    }
    rest
}

/// The number of the line of this number that stands there after a name; 0 if there is none.
fn named_at(text: &[u8], at: u64, name: &[u8]) -> u32 {
    match split_line(from_line(text, at)) {
        Some((line, _)) => named_number(line, name, 0, u32::MAX).unwrap_or(0),
        None => 0,
    }
}

fn script_fault(line: &[u8], number: u64) -> Option<Diagnosis<'_>>
    ensures form { number ≢ 1 → result ≡ None → IsCommandForm (fields line.now) }
    ensures said { IfSome result (IsTrueInside line.now) }
{
    if number == 1 {
        header_fault(line)
    } else {
        command_fault(line)
    }
}

fn header_fault(line: &[u8]) -> Option<Diagnosis<'_>>
    ensures { IfSome result (IsTrueInside line.now) }
{
    let each = list_of_players(line);
    let mut items = [
        Item::Word("roll"),
        Item::Number { least: 1, most: 3 },
        Item::Word("players"),
        Item::Number { least: 1, most: 8 },
        Item::Word("local"),
        Item::Players,
        Item::Word("delay"),
        each,
        Item::Word("mask"),
        each,
        Item::Word("threshold"),
        ANY,
    ];
    if line.starts_with(b"roll 2 ") || line.starts_with(b"roll 3 ") {
        return fields_fault(line, &items);
    }
    items.swap(8, 10);
    items.swap(9, 11);
    fields_fault(line, &items[..10])
}

/// A list with a number for each player of a script's first line.
fn list_of_players(line: &[u8]) -> Item {
    let players = match line.split(|b| *b == b' ').nth(3) {
        Some(field) => number(field).unwrap_or(0) as usize,
        None => 0,
    };
    Item::List {
        least: players,
        most: players,
    }
}

fn command_fault(line: &[u8]) -> Option<Diagnosis<'_>>
    ensures form { result ≡ None → IsCommandForm (fields line.now) }
    ensures said { IfSome result (IsTrueInside line.now) }
{
    let words = Item::List {
        least: 1,
        most: PATH_LIMIT,
    };
    let letter = first_field(line);
    match letter {
        b"L" => fields_fault(line, &[Item::Word("L"), ANY, ANY]),
        b"R" => fields_fault(line, &[Item::Word("R"), ANY, ANY, ANY]),
        b"D" => fields_fault(line, &[Item::Word("D"), ANY]),
        b"S" => fields_fault(line, &[Item::Word("S")]),
        b"A" => fields_fault(line, &[Item::Word("A")]),
        b"G" => fields_fault(line, &[Item::Word("G"), ANY, ANY, words]),
        b"B" => fields_fault(line, &[Item::Word("B"), ANY]),
        b"C" => fields_fault(line, &[Item::Word("C")]),
        _ => Some(Diagnosis::UnknownCommand(letter)),
    }
}

fn first_field(line: &[u8]) -> &[u8]
    ensures { slice_index_or (fields line.now) 0 [] ≡ result.now }
{
    line.split(|b| *b == b' ').next().unwrap_or(line)
}

fn rows_fault<'a>(text: &'a [u8], line: &'a [u8], number: u64) -> Option<Diagnosis<'a>>
    ensures { IfSome result (IsTrueInside line.now) }
{
    if number == 1 {
        return fields_fault(
            line,
            &[
                Item::Word("rolltest"),
                Item::Word("1"),
                Item::Word("players"),
                Item::Number { least: 1, most: 4 },
            ],
        );
    }
    let players = named_at(text, 1, b"rolltest 1 players ") as usize;
    fields_fault(line, &[Item::Row(players)])
}

/// The lines of a claim: five of one number, the rows of time, the kept paths behind their number, and so the entries.
#[derive(Clone, Copy, Debug, PartialEq, Eq)]
struct ClaimParts {
    /// The line with the number of kept paths.
    kept: u64,
    /// The line with the number of entries.
    differs: u64,
    /// The last one.
    end: u64,
}

/// Where the parts of a claim are, by the numbers that stand there.
fn parts_of(text: &[u8]) -> ClaimParts {
    let kept = 6 + u64::from(named_at(text, 5, b"time "));
    let differs = kept + 1 + u64::from(named_at(text, kept, b"kept "));
    let end = differs + u64::from(named_at(text, differs, b"differs "));
    ClaimParts { kept, differs, end }
}

fn claim_fault<'a>(text: &'a [u8], line: &'a [u8], number: u64) -> Option<Diagnosis<'a>>
    ensures { IfSome result (IsTrueInside line.now) }
{
    let ClaimParts { kept, differs, .. } = parts_of(text);
    let players = named_at(text, 2, b"players ") as usize;
    if number <= 5 {
        claim_head_fault(text, line, number)
    } else if number < kept {
        fields_fault(line, &[Item::Row(players)])
    } else if number == kept {
        counted_fault(line, "kept")
    } else if number < differs {
        path_fault(line, players)
    } else if number == differs {
        counted_fault(line, "differs")
    } else {
        fields_fault(
            line,
            &[
                ANY,
                ANY,
                Item::Number {
                    least: 0,
                    most: 255,
                },
            ],
        )
    }
}

fn claim_head_fault<'a>(text: &[u8], line: &'a [u8], number: u64) -> Option<Diagnosis<'a>>
    ensures { IfSome result (IsTrueInside line.now) }
{
    match number {
        1 => fields_fault(
            line,
            &[Item::Word("rollcert"), Item::Number { least: 1, most: 2 }],
        ),
        2 if text.starts_with(b"rollcert 2\n") => {
            fields_fault(
                line,
                &[Item::Word("players"), Item::Number { least: 5, most: 8 }],
            )
        }
        2 => fields_fault(
            line,
            &[Item::Word("players"), Item::Number { least: 1, most: 4 }],
        ),
        3 => fields_fault(
            line,
            &[
                Item::Word("base"),
                Item::Number {
                    least: 0,
                    most: FRAME_LIMIT,
                },
            ],
        ),
        4 => fields_fault(line, &[Item::Word("from"), ANY]),
        _ => fields_fault(
            line,
            &[
                Item::Word("time"),
                Item::Number {
                    least: 0,
                    most: PATH_LIMIT as u32,
                },
            ],
        ),
    }
}

/// What is wrong with a line that says how many lines follow it, at most 256.
fn counted_fault<'a>(line: &'a [u8], name: &'static str) -> Option<Diagnosis<'a>>
    ensures { IfSome result (IsTrueInside line.now) }
{
    fields_fault(
        line,
        &[
            Item::Word(name),
            Item::Number {
                least: 0,
                most: 256,
            },
        ],
    )
}
