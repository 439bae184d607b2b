// The file of a list: the first bytes of a slot.
ghost use Rattle.std.specs.Prelude.{◌≤◌};

use std::io;
use std::io::Write;
use structure::Structure;

#[derive(Drop)]
pub struct Slot {
    bytes: [u8; Slot::MAX_LEN],
    len: usize,
    ghost within: { len ≤ 16384 },
}

// A sum modulo the prime of the checksum.
fn sum(x: u16, y: u16) -> u16 {
    ((u32::from(x) + u32::from(y)) % 65521) as u16
}

impl Slot {
    pub const MAX_LEN: usize = 16384;

    pub fn new() -> Self {
        Slot {
            bytes: [0u8; Slot::MAX_LEN],
            len: 0,
        }
    }

    pub fn as_slice(&self) -> &[u8] {
        &self.bytes[..self.len]
    }

    // A structure stored where there is so much room; or the number of the refusal, which leaves the file.
    pub fn store(&mut self, structure: Structure, room: u16) -> Result<(), u16> {
        let room = usize::from(room).min(Slot::MAX_LEN);
        // Copied, since a field beside a fact is not lent on.
        let mut bytes = self.bytes;
        let stored = storing::store(structure, &mut bytes[..room]);
        self.bytes = bytes;
        match stored {
            Ok(n) => {
                self.len = n.min(Slot::MAX_LEN);
                Ok(())
            }
            Err(number) => Err(number),
        }
    }

    // Bytes cut off at the end, then zeros added, as many as there is room for.
    pub fn resize(&mut self, cut: u16, zeros: u16) {
        let kept = self.len.saturating_sub(usize::from(cut));
        let end = (kept + usize::from(zeros)).min(Slot::MAX_LEN);
        self.bytes[kept..end].fill(0);
        self.len = end;
    }

    // A byte of the file, where it has the place.
    pub fn set(&mut self, at: u16, value: u8) {
        let at = usize::from(at);
        if at < self.len {
            self.bytes[at] = value;
        }
    }

    // `file N S T`, and `b n..` for each sixteen bytes where they are asked for.
    pub fn put<W: Write>(&self, out: &mut W, whole: bool) -> io::Result<()> {
        let file = self.as_slice();
        let mut low: u16 = 1;
        let mut high: u16 = 0;
        for b in file {
            low = sum(low, u16::from(*b));
            high = sum(high, low);
        }
        writeln!(out, "file {} {low} {high}", file.len())?;
        if whole {
            for line in file.chunks(16) {
                write!(out, "b")?;
                for b in line {
                    write!(out, " {b}")?;
                }
                writeln!(out)?;
            }
        }
        Ok(())
    }
}
