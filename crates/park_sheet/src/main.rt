// Reads a sheet from standard input, carries out its records, from the structure that is parked in the file of the argument where there is
// one, and writes the file in which the structure at the end is parked.
#![tactic(auto)]

use file_rows::File;
use lines::Line;
use reading::{Failure, Path};
use records::Record;
use sheet::Piece;
use std::env::{Env, FillError};
use std::fs::Files;
use std::io::{Read, Write};
use structure::Structure;

// Why no file is written: the sheet or the file is refused, by this line, or something failed.
enum Unparked {
    Refused(Line),
    Failed(Failure),
}

impl From<Failure> for Unparked {
    fn from(failure: Failure) -> Self {
        Unparked::Failed(failure)
    }
}

// Where a sheet of so many bytes begins: from the file that the argument names, or, where there is no argument, from the empty structure.
// As the two below it stands in no other function, so that each gives back its part of the stack before the next begins.
#[inline(never)]
fn begin<S: Env + Files>(
    system: &S,
    bytes: &[u8; Record::MAX_BYTES],
    length: usize,
) -> Result<Piece, Failure> {
    let path = match Path::argument(system, 1) {
        Err(FillError::NotPresent) => {
            return Ok(Piece {
                line: Line::new(),
                progress: sheet::start(length),
            });
        }
        argument => argument?,
    };
    // One byte more than the longest file has, which tells of a longer one.
    let mut file = [0u8; File::MAX_BYTES + 1];
    let read = reading::read_file(system, &path, &mut file)?;
    let size = read.unwrap_or(File::MAX_BYTES + 1);
    Ok(resuming::resume(length, bytes, &file, size))
}

// The structure that a sheet leaves, from where it stands.
#[inline(never)]
fn last_structure(given: Piece, bytes: &[u8; Record::MAX_BYTES]) -> Result<Structure, Unparked> {
    let last = resuming::finish(given, bytes);
    if last.progress.stage.is_ended() {
        return Err(Unparked::Refused(last.line));
    }
    Ok(last.progress.machine.structure)
}

// Writes the file in which a structure is parked.
#[inline(never)]
fn park<W: Write>(output: &mut W, structure: Structure) -> Result<(), Unparked> {
    let mut file = [0u8; File::MAX_BYTES];
    match storing::store(structure, &mut file) {
        Ok(n) => {
            printing::write_front(output, &file, n).map_err(Failure::Output)?;
            Ok(())
        }
        Err(number) => Err(Unparked::Refused(lines::refused_line(number, 0))),
    }
}

// The sheet that an input has, and the file of the structure at its end.
fn park_sheet<S: Env + Files, R: Read, W: Write>(
    system: &S,
    input: &mut R,
    output: &mut W,
) -> Result<(), Unparked> {
    let mut bytes = [0u8; Record::MAX_BYTES];
    let read = reading::read_all(input, &mut bytes).map_err(Failure::Input)?;
    // A sheet that is too long is refused by its length.
    let length = read.unwrap_or(Record::MAX_BYTES + 1);
    let given = begin(system, &bytes, length)?;
    park(output, last_structure(given, &bytes)?)
}

fn main(rt: HostRuntime) {
    match park_sheet(&rt, &mut rt.stdin(), &mut rt.stdout()) {
        Ok(()) => {}
        Err(Unparked::Refused(line)) => {
            let _ = printing::write_line(&mut rt.stderr(), line);
        }
        Err(Unparked::Failed(failure)) => failure.tell(&mut rt.stderr()),
    }
}
