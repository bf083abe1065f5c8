//! Whole texts to a writer.
ghost use Rattle.std.specs.Prelude.{◌++◌, OnOk, OnErr};
ghost use Rattle.std.specs.Io.KnownBytes.{Appends};
ghost use Rattle.plant_text.specs.Writes.{with_lf, AppendsPrefix};

use arrayvec::ArrayVec;
use std::io::Write;
use thiserror::Error;

/// How many bytes two texts have together at most that are written in one.
const MOST_TOGETHER: usize = 4096;

/// The writer failed, was interrupted, or took no byte. A prefix of the text may have been written, and no more is written.
#[derive(Clone, Copy, Debug, PartialEq, Eq, Error)]
#[error("the writer takes no more")]
pub struct WriteError;

/// Writes the text, in as many writes as the writer needs.
///
/// `WriteError`: a prefix of the text was written, perhaps none of it but never all, and nothing else.
pub fn write_text<W: Write>(writer: &mut W, text: &[u8]) -> Result<(), WriteError>
    ensures ok { OnOk result (Appends (W.contents writer.old) (W.contents writer.new) text.now) }
    ensures err { OnErr result (AppendsPrefix (W.contents writer.old) (W.contents writer.new) text.now) }
{
    let mut rest = text;
    while !rest.is_empty() {
        match writer.write(rest) {
            Ok(0) | Err(_) => return Err(WriteError),
            Ok(n) => {
                let (_, later) = rest.split_at(n);
                rest = later;
            }
        }
    }
    Ok(())
}

/// Writes two texts, one after the other.
fn write_each<W: Write>(writer: &mut W, first: &[u8], second: &[u8]) -> Result<(), WriteError>
    ensures ok { OnOk result (Appends (W.contents writer.old) (W.contents writer.new)
        (first.now ++ second.now)) }
    ensures err { OnErr result (AppendsPrefix (W.contents writer.old) (W.contents writer.new)
        (first.now ++ second.now)) }
{
    match write_text(writer, first) {
        Ok(()) => write_text(writer, second),
        Err(write_error) => Err(write_error),
    }
}

/// Writes two texts, one after the other: as one where both are short, since each write to a pipe or a socket costs more
/// than their copy, and wakes the reader. No memory is taken.
///
/// `WriteError`: a prefix of both was written, perhaps none of them but never all, and nothing else.
pub fn write_both<W: Write>(writer: &mut W, first: &[u8], second: &[u8]) -> Result<(), WriteError>
    ensures ok { OnOk result (Appends (W.contents writer.old) (W.contents writer.new)
        (first.now ++ second.now)) }
    ensures err { OnErr result (AppendsPrefix (W.contents writer.old) (W.contents writer.new)
        (first.now ++ second.now)) }
{
    let mut both = ArrayVec::<u8, MOST_TOGETHER>::new();
    if both.try_extend_from_slice(first).is_err() || both.try_extend_from_slice(second).is_err() {
        return write_each(writer, first, second);
    }
    write_text(writer, both.as_slice())
}

/// Writes the text and an LF.
///
/// `WriteError`: a prefix of both was written, perhaps none of them but never all, and nothing else.
pub fn write_line<W: Write>(writer: &mut W, text: &[u8]) -> Result<(), WriteError>
    ensures ok { OnOk result (Appends (W.contents writer.old) (W.contents writer.new)
        (with_lf text.now)) }
    ensures err { OnErr result (AppendsPrefix (W.contents writer.old) (W.contents writer.new)
        (with_lf text.now)) }
{
    write_both(writer, text, b"\n")
}
