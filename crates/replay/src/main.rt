// Runs a stream of histories (oracle/FORMAT.md) and prints the answers, and the structure where the stream asks for it.
#![tactic(auto)]

mod list;
mod out;
mod slot;
mod state;

ghost use Rattle.std.specs.Prelude.{◌≤◌, length};

use list::List;
use out::Out;
use records::Record;
use sheet::{Progress, Stage};
use std::io;
use std::io::{Read, Write};

// What the bytes of an entry are, and what is printed beside the answers.
#[derive(Clone, Copy)]
enum Mode {
    Sheet,
    List,
    // With the structure after each call or record.
    DumpedList,
    DumpedSheet,
    // With the last line of the structure after each call.
    FlaggedList,
}

// The bytes of an entry of this mode are not looked at.
#[derive(Clone, Copy)]
struct NoMode(u32);

impl TryFrom<u32> for Mode {
    type Error = NoMode;

    fn try_from(mode: u32) -> Result<Mode, NoMode> {
        match mode {
            0 => Ok(Mode::Sheet),
            1 => Ok(Mode::List),
            2 => Ok(Mode::DumpedList),
            3 => Ok(Mode::DumpedSheet),
            4 => Ok(Mode::FlaggedList),
            _ => Err(NoMode(mode)),
        }
    }
}

// Reads until the bytes are full, the stream ends or a read fails: how many bytes it put at their start. The library's `read_exact` does
// not tell how many there were.
fn read_full<R: Read>(input: &mut R, bytes: &mut [u8]) -> usize
    ensures { result ≤ length bytes.new }
{
    let mut done: usize = 0;
    while done < bytes.len() {
        let n = input.read(&mut bytes[done..]).unwrap_or(0);
        if n == 0 {
            break;
        }
        done += n;
    }
    done
}

// Bytes of the stream that are not looked at.
fn skip<R: Read>(input: &mut R, bytes: &mut [u8; Record::MAX_BYTES], n: usize) {
    for _ in 0..n / Record::MAX_BYTES {
        if read_full(input, bytes) == 0 {
            return;
        }
    }
    read_full(input, &mut bytes[..n % Record::MAX_BYTES]);
}

// A sheet: how many bytes it has, one more than the longest sheet where it has more. Such a sheet is refused whatever it
// holds, so that what is read over its bytes does not matter.
fn read_sheet<R: Read>(input: &mut R, bytes: &mut [u8; Record::MAX_BYTES], length: usize) -> usize {
    if length <= Record::MAX_BYTES {
        return read_full(input, &mut bytes[..length]);
    }
    let n = read_full(input, bytes);
    if read_full(input, &mut bytes[..1]) == 0 {
        return n;
    }
    let over = Record::MAX_BYTES + 1;
    skip(input, bytes, length - over);
    over
}

// The lines of a sheet, and, where it is dumped, the structure after the last piece of each record that was carried out.
fn run_sheet<W: Write>(
    out: &mut W,
    bytes: &[u8; Record::MAX_BYTES],
    length: usize,
    dumped: bool,
) -> io::Result<()> {
    let mut progress = sheet::start(length);
    for _ in 0..Progress::MAX_PIECES {
        if progress.stage.is_ended() {
            break;
        }
        let piece = sheet::advance(progress, bytes);
        progress = piece.progress;
        out::put_line(out, &piece.line)?;
        if dumped && matches!(progress.stage, Stage::Visiting | Stage::Ending) {
            state::dump(out, &progress.machine.structure)?;
        }
    }
    Ok(())
}

// The records of a list, and then the bytes that are no whole record.
fn run_list<R: Read, W: Write>(
    input: &mut R,
    out: &mut W,
    bytes: &mut [u8; Record::MAX_BYTES],
    length: usize,
    mode: Mode,
) -> io::Result<()> {
    // A list with no record needs no machine and no file, which take longer to make than all else here.
    if length < Record::BYTES {
        skip(input, bytes, length);
        return Ok(());
    }
    let mut list = List::new();
    for _ in 0..length / Record::BYTES {
        if read_full(input, &mut bytes[..Record::BYTES]) != Record::BYTES {
            return Ok(());
        }
        let dumped = matches!(mode, Mode::DumpedList);
        list.call(out, &bytes[..Record::BYTES], dumped)?;
        match mode {
            Mode::DumpedList => state::dump(out, &list.machine.structure)?,
            Mode::FlaggedList => state::put_flags(out, &list.machine.structure)?,
            _ => {}
        }
    }
    skip(input, bytes, length % Record::BYTES);
    Ok(())
}

// More entries than a stream has: a loop has to end.
const MAX_ENTRIES: u64 = 1000000000;

// The bytes of an entry's header.
const HEADER: usize = 8;

fn run_stream<R: Read, W: Write>(input: &mut R, out: &mut W) -> io::Result<()> {
    let mut bytes = [0u8; Record::MAX_BYTES];
    for i in 0..MAX_ENTRIES {
        if read_full(input, &mut bytes[..HEADER]) != HEADER {
            break;
        }
        let [m0, m1, m2, m3, n0, n1, n2, n3, ..] = bytes;
        let length = u32::from_le_bytes([n0, n1, n2, n3]) as usize;
        writeln!(out, "= {i}")?;
        match Mode::try_from(u32::from_le_bytes([m0, m1, m2, m3])) {
            Ok(Mode::Sheet) => {
                let length = read_sheet(input, &mut bytes, length);
                run_sheet(out, &bytes, length, false)?;
            }
            Ok(Mode::DumpedSheet) => {
                let length = read_sheet(input, &mut bytes, length);
                run_sheet(out, &bytes, length, true)?;
            }
            Ok(mode) => run_list(input, out, &mut bytes, length, mode)?,
            Err(_) => skip(input, &mut bytes, length),
        }
    }
    out.flush()
}

fn main(rt: HostRuntime) {
    let mut out = Out::new(rt.stdout());
    let _ = run_stream(&mut rt.stdin(), &mut out);
}
