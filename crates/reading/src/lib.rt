// Reads all that an input has into an array, the file of a path too, and says what of a program's input or output failed.
#![tactic(auto)]

mod failing;
mod path;

ghost use Rattle.std.specs.Prelude.{◌≡◌, ◌≤◌, length, IfOk, IfSome, IfErr};
ghost use Rattle.reading.specs.Reading.{after_read, Reads, IsInput};
ghost use Rattle.reading.specs.Failing.{IsOfFile};

pub use failing::Failure;
pub use path::Path;
use std::fs::Files;
use std::io::{ErrorKind, Read};
use std::{fs, io};

// What the answer to a read comes to: it gave so many bytes, `None` where the input has ended, or it failed.
fn came_to(got: io::Result<usize>) -> io::Result<Option<usize>>
    ensures { result ≡ after_read got }
{
    match got {
        Ok(0) => Ok(None),
        Ok(n) => Ok(Some(n)),
        Err(error) => Err(error),
    }
}

// Reads an input to its end, into the front of the bytes: gives how many there are, or `None` where it has more than there is room for.
// The library's `read_to_end` fills a `Vec`, and here is no heap.
pub fn read_all<R: Read>(input: &mut R, bytes: &mut [u8]) -> io::Result<Option<usize>>
    ensures reads { Reads (length bytes.old) 0 bytes.old bytes.new result }
    ensures input { IsInput (R.remaining input.old) (R.remaining input.new) bytes.new result }
{
    let mut at: usize = 0;
    while at < bytes.len() {
        let Some(n) = came_to(input.read(&mut bytes[at..]))? else {
            return Ok(Some(at));
        };
        at += n;
    }
    // One byte more shows that there are more.
    let mut more = [0u8; 1];
    match came_to(input.read(&mut more))? {
        None => Ok(Some(at)),
        Some(_) => Ok(None),
    }
}

// Only a path that is text has a file.
fn read_path<F: Files>(files: &F, path: &Path, bytes: &mut [u8]) -> io::Result<Option<usize>>
    ensures { IfOk result (λ read. IfSome read (λ n. n ≤ length bytes.new)) }
{
    let Ok(text) = str::from_utf8(path.as_bytes()) else {
        return Err(io::Error::from(ErrorKind::InvalidFilename));
    };
    let mut file = fs::open(files, text)?;
    read_all(&mut file, bytes)
}

// Reads the file of a path, as `read_all` does an input.
pub fn read_file<F: Files>(
    files: &F,
    path: &Path,
    bytes: &mut [u8],
) -> Result<Option<usize>, Failure>
    ensures ok { IfOk result (λ read. IfSome read (λ n. n ≤ length bytes.new)) }
    ensures err { IfErr result (λ failure. IsOfFile failure path.now) }
{
    read_path(files, path, bytes).map_err(|error| Failure::File(*path, error))
}
