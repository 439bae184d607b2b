// Reads a sheet from standard input, carries out its records from the structure that is parked in the file of the argument, and prints
// their lines.
#![tactic(auto)]

ghost use Rattle.std.specs.Prelude.{OnOk, OnErr};
ghost use Rattle.std.specs.Io.KnownBytes.{Appends};
ghost use Rattle.sheet.specs.Pieces.{start_of};
ghost use Rattle.resuming.specs.Resuming.{waiting_of};
ghost use Rattle.printing.specs.Printing.{AppendsFront};

use file_rows::File;
use reading::{Failure, Path};
use records::Record;
use std::env::Env;
use std::fs::Files;
use std::io;
use std::io::{Read, Write};

// A sheet of so many bytes, from a file: what it prints stands on the output, or a first part where a write failed.
// It stands in no other function, so that a file that cannot be read needs none of its stack.
#[inline(never)]
fn print<W: Write>(
    output: &mut W,
    bytes: &[u8; Record::MAX_BYTES],
    length: usize,
    file: &[u8],
) -> io::Result<()>
    ensures ok { OnOk result (Appends (W.contents output.old) (W.contents output.new) (waiting_of file.now bytes.now (start_of length)).printed) }
    ensures err { OnErr result (AppendsFront (W.contents output.old) (W.contents output.new) (waiting_of file.now bytes.now (start_of length)).printed) }
{
    let piece = resuming::resume(length, bytes, file, file.len());
    printing::write_line(output, piece.line)?;
    printing::print(output, bytes, piece.progress)
}

// The sheet that an input has, from the file that the argument names.
fn resume_sheet<S: Env + Files, R: Read, W: Write>(
    system: &S,
    input: &mut R,
    output: &mut W,
) -> Result<(), Failure> {
    let mut bytes = [0u8; Record::MAX_BYTES];
    let read = reading::read_all(input, &mut bytes).map_err(Failure::Input)?;
    // A sheet that is too long is refused by its length.
    let length = read.unwrap_or(Record::MAX_BYTES + 1);
    let path = Path::argument(system, 1)?;
    // One byte more than the longest file has, which tells of a longer one.
    let mut file = [0u8; File::MAX_BYTES + 1];
    let read = reading::read_file(system, &path, &mut file)?;
    let size = read.unwrap_or(File::MAX_BYTES + 1);
    print(output, &bytes, length, &file[..size]).map_err(Failure::Output)
}

fn main(rt: HostRuntime) {
    if let Err(failure) = resume_sheet(&rt, &mut rt.stdin(), &mut rt.stdout()) {
        failure.tell(&mut rt.stderr());
    }
}
