//! The whole of an input, and a whole output.

ghost use Rattle.std.specs.Prelude.{◌≡◌, ◌≤◌, ◌<◌, ◌+◌, Err, IfErr, IfOk, IfSome, OnErr, OnOk, length};
ghost use Rattle.std.specs.Io.KnownBytes.{Appends, Consumes, IsAtEnd};
ghost use Rattle.roll_text.specs.Streams.{AppendsPart, LosesAt};
ghost use Rattle.roll_text.specs.declared.streams.ReadFault.TheVariants.{NoMemory, TooLong};

use std::alloc::{AllocError, Global};
use std::io::{Read, Write};
use thiserror::Error;

/// The most bytes that a text may have.
pub const TEXT_LIMIT: usize = 1_048_576;

/// How many bytes are asked for at a time.
const PIECE: usize = 8192;

/// Why an input wasn't read.
#[derive(Clone, Copy, Debug, PartialEq, Eq, Error)]
pub enum ReadFault {
    /// The input has over `TEXT_LIMIT` bytes.
    #[error("the text is too long")]
    TooLong,
    /// A growth was refused.
    #[error("out of memory")]
    NoMemory,
    /// The reader failed, if only because it was interrupted.
    #[error("cannot read")]
    Read,
}

impl From<AllocError> for ReadFault {
    ghost from_gives = { λ _ fault. fault ≡ NoMemory };

    fn from(_error: AllocError) -> ReadFault {
        ReadFault::NoMemory
    }
}

/// The writer failed, if only because it was interrupted, or took nothing.
#[derive(Clone, Copy, Debug, PartialEq, Eq, Error)]
#[error("cannot write")]
pub struct WriteFault;

/// All that a reader has, but at most one byte over the limit. Room for that is taken at once, and not touched before it is
/// needed.
fn read_front<R: Read>(alloc: Global, reader: &mut R) -> Result<Vec<u8>, ReadFault>
    ensures taken { IfOk result (λ text. Consumes (R.remaining reader.old) (R.remaining reader.new)
        text.items) }
    ensures bounded { IfOk result (λ text. length text.items ≤ TEXT_LIMIT + 1) }
    ensures end { IfOk result (λ text. length text.items ≤ TEXT_LIMIT
        → IsAtEnd (R.remaining reader.new)) }
    ensures err { IfErr result (λ fault. LosesAt fault (R.remaining reader.old)
        (R.remaining reader.new)) }
{
    let mut text = Vec::with_capacity(alloc, TEXT_LIMIT + 1)?;
    let mut buffer = [0; PIECE];
    while text.len() <= TEXT_LIMIT {
        let room = PIECE.min(TEXT_LIMIT + 1 - text.len());
        let Ok(count) = reader.read(&mut buffer[..room]) else {
            return Err(ReadFault::Read);
        };
        if count == 0 {
            break;
        }
        text.extend_from_slice(&buffer[..count])?;
    }
    Ok(text)
}

/// All that a reader has, in room for `TEXT_LIMIT` bytes and one that is taken at once. Of an input that is too long,
/// one byte over the limit is taken.
///
/// # Errors
///
/// `TooLong` if there are over `TEXT_LIMIT` bytes; `NoMemory` if the allocator has no room; `Read` if the reader fails.
/// What was read by then is gone from the reader.
pub fn read_all<R: Read>(alloc: Global, reader: &mut R) -> Result<Vec<u8>, ReadFault>
    ensures all { IfOk result (λ text. IfSome (R.remaining reader.old)
        (λ known. text.items ≡ known)) }
    ensures taken { IfOk result (λ text. Consumes (R.remaining reader.old) (R.remaining reader.new)
        text.items) }
    ensures end { OnOk result (IsAtEnd (R.remaining reader.new)) }
    ensures short { IfOk result (λ text. length text.items ≤ TEXT_LIMIT) }
    ensures long { result ≡ Err TooLong → IfSome (R.remaining reader.old)
        (λ known. TEXT_LIMIT < length known) }
    ensures err { IfErr result (λ fault. LosesAt fault (R.remaining reader.old)
        (R.remaining reader.new)) }
{
    let text = read_front(alloc, reader)?;
    if text.len() > TEXT_LIMIT {
        return Err(ReadFault::TooLong);
    }
    Ok(text)
}

/// Writes the whole text, in as many writes as the writer needs.
///
/// # Errors
///
/// `WriteFault` if the writer fails or takes nothing: it has a part from the front.
pub fn write_all<W: Write>(writer: &mut W, text: &[u8]) -> Result<(), WriteFault>
    ensures ok { OnOk result (Appends (W.contents writer.old) (W.contents writer.new) text.now) }
    ensures err { OnErr result (AppendsPart (W.contents writer.old) (W.contents writer.new)
        text.now) }
{
    let mut at = 0;
    while at < text.len() {
        match writer.write(&text[at..]) {
            Ok(0) | Err(_) => return Err(WriteFault),
            Ok(count) => at += count,
        }
    }
    Ok(())
}
