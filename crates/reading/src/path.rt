// A path as a program is given it. It need not be text.
ghost use Rattle.std.specs.Prelude.{◌≡◌, ◌≤◌, take};
ghost use Rattle.reading.specs.Reading.{max_path};

use std::env::{Env, FillError};

// The first `len` of the bytes.
#[derive(Clone, Copy)]
pub struct Path {
    pub bytes: [u8; Path::MAX_LEN],
    pub len: usize,
    ghost within: { len ≤ max_path },
}

impl Path {
    // With the 0 that ends it.
    pub const MAX_LEN: usize = 4096;

    // What an argument of the program gives.
    pub fn argument<E: Env>(env: &E, i: usize) -> Result<Path, FillError> {
        let mut bytes = [0u8; Path::MAX_LEN];
        let len = env.arg(i, &mut bytes)?;
        Ok(Path { bytes, len })
    }

    pub fn as_bytes(&self) -> &[u8]
        ensures { result.now ≡ take self.now.len self.now.bytes }
    {
        &self.bytes[..self.len]
    }
}
