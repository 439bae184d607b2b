// Writes bytes, a line, and what a sheet is still to print, a page at a time.
#![tactic(auto)]

ghost use Rattle.std.specs.Prelude.{◌<◌, take, length, OnOk, OnErr, IsErr};
ghost use Rattle.std.specs.Io.KnownBytes.{Appends};
ghost use Rattle.lines.specs.View.{line_of};
ghost use Rattle.sheet.specs.Pieces.{rest_of};
ghost use Rattle.sheet.specs.View.{progress_of};
ghost use Rattle.printing.specs.Printing.{AppendsFront};

use lines::Line;
use pages::Page;
use records::Record;
use sheet::Progress;
use std::io;
use std::io::{ErrorKind, Write};

// Writes all of some bytes; fails at the first write that fails or takes nothing. The library's `write_all` does not say what an error
// leaves on the output.
pub fn write_all<W: Write>(to: &mut W, bytes: &[u8]) -> io::Result<()>
    ensures ok { OnOk result (Appends (W.contents to.old) (W.contents to.new) bytes.now) }
    ensures err { OnErr result (AppendsFront (W.contents to.old) (W.contents to.new) bytes.now) }
{
    let mut rest = bytes;
    while !rest.is_empty() {
        let n = to.write(rest)?;
        if n == 0 {
            return Err(io::Error::from(ErrorKind::WriteZero));
        }
        rest = &rest[n..];
    }
    Ok(())
}

// Writes the first n of some bytes; fails where there are fewer, or a write failed.
pub fn write_front<W: Write>(to: &mut W, text: &[u8], n: usize) -> io::Result<()>
    ensures ok { OnOk result (Appends (W.contents to.old) (W.contents to.new) (take n text.now)) }
    ensures err { OnErr result (AppendsFront (W.contents to.old) (W.contents to.new) (take n text.now)) }
    ensures fewer { length text.now < n → IsErr result }
{
    if text.len() < n {
        return Err(io::Error::from(ErrorKind::InvalidInput));
    }
    write_all(to, &text[..n])
}

// Writes a line; fails where a write failed.
pub fn write_line<W: Write>(to: &mut W, line: Line) -> io::Result<()>
    ensures ok { OnOk result (Appends (W.contents to.old) (W.contents to.new) (line_of line)) }
    ensures err { OnErr result (AppendsFront (W.contents to.old) (W.contents to.new) (line_of line)) }
{
    write_all(to, &line.bytes[..line.size()])
}

// Writes the pages from where the sheet in the first of the bytes stands, up to the last; fails where a write failed.
pub fn print<W: Write>(
    to: &mut W,
    bytes: &[u8; Record::MAX_BYTES],
    start: Progress,
) -> io::Result<()>
    ensures ok { OnOk result (Appends (W.contents to.old) (W.contents to.new) (rest_of bytes.now (progress_of start)).printed) }
    ensures err { OnErr result (AppendsFront (W.contents to.old) (W.contents to.new) (rest_of bytes.now (progress_of start)).printed) }
{
    let mut text = [0u8; Page::MAX_LEN];
    let mut progress = start;
    while !progress.stage.is_ended() {
        let page = pages::fill(progress, bytes, &mut text);
        write_all(to, &text[..page.len])?;
        progress = page.progress;
    }
    Ok(())
}
