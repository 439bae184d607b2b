// What is printed, gathered before it is written. The library's `BufWriter` has its buffer on the heap, and here is none.
ghost use Rattle.std.specs.Prelude.{◌≤◌};

use lines::Line;
use std::io;
use std::io::Write;

// The first `len` bytes of the text are to be written. What cannot be written, as to a device that is full, is not told, so that the
// whole stream is read. It is written before a line for which there may be no room, so that a write ends where a line does.
#[derive(Drop)]
pub struct Out<W> {
    to: W,
    text: [u8; MAX_TEXT],
    len: usize,
    ghost within: { len ≤ 65536 },
}

const MAX_TEXT: usize = 65536;

impl<W: Write> Out<W> {
    pub fn new(to: W) -> Self {
        Out {
            to,
            text: [0u8; MAX_TEXT],
            len: 0,
        }
    }
}

impl<W: Write> Write for Out<W> {
    fn write(&mut self, bytes: &[u8]) -> io::Result<usize> {
        let free = MAX_TEXT - self.len;
        let full = free < Line::MAX_LEN && self.text[..self.len].ends_with(b"\n");
        if full || free < bytes.len() {
            self.flush()?;
        }
        let n = bytes.len().min(MAX_TEXT - self.len);
        self.text[self.len..self.len + n].copy_from_slice(&bytes[..n]);
        self.len += n;
        Ok(n)
    }

    fn flush(&mut self) -> io::Result<()> {
        let _ = self.to.write_all(&self.text[..self.len]);
        self.len = 0;
        Ok(())
    }
}

// A line that may be empty: `write_all` of no bytes does not call `write`, which makes room before an empty line too.
pub fn put_line<W: Write>(out: &mut W, line: &Line) -> io::Result<()> {
    let bytes = line.as_slice();
    let n = out.write(bytes)?;
    out.write_all(&bytes[n..])
}
