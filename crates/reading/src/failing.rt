// What of a program's input or output failed, and why, as a line.
use crate::path::Path;
use std::env::FillError;
use std::io;
use std::io::{Cursor, Write};

#[derive(Clone, Copy)]
pub enum Failure {
    Input(io::Error),
    Output(io::Error),
    Argument(io::Error),
    File(Path, io::Error),
}

// The numbers of the system's errors: an argument is missing, or longer than a path.
const EINVAL: i32 = 22;

const ENAMETOOLONG: i32 = 36;

impl From<FillError> for Failure {
    fn from(error: FillError) -> Self {
        let number = match error {
            FillError::NotPresent => EINVAL,
            FillError::TooLong => ENAMETOOLONG,
        };
        Failure::Argument(io::Error::from_raw_os_error(number))
    }
}

// The most bytes of an error's text.
const MAX_TEXT: usize = 256;

// The words of an error's text without the number of the system's error, which std puts after them.
fn without_number(text: &[u8]) -> &[u8] {
    let Ok(all) = str::from_utf8(text) else {
        return text;
    };
    match all.split_once(" (os error ") {
        Some((words, _)) => words.as_bytes(),
        None => text,
    }
}

impl Failure {
    // Writes a line: what failed, a colon and the error's text. A failure of that is not told, and each part is tried whatever became of
    // the one before it.
    pub fn tell<W: Write>(&self, to: &mut W) {
        let (what, error) = match self {
            Failure::Input(error) => (b"standard input".as_slice(), error),
            Failure::Output(error) => (b"standard output".as_slice(), error),
            Failure::Argument(error) => (b"argument".as_slice(), error),
            Failure::File(path, error) => (path.as_bytes(), error),
        };
        let mut text = Cursor::new([0u8; MAX_TEXT]);
        let _ = write!(text, "{error}");
        let n = (text.position() as usize).min(MAX_TEXT);
        let bytes = text.into_inner();
        let _ = to.write_all(what);
        let _ = to.write_all(b": ");
        let _ = to.write_all(without_number(&bytes[..n]));
        let _ = to.write_all(b"\n");
    }
}
