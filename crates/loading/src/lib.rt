// Loading a structure from a file (02, M-104; docs/FILE.md). What the bytes say is judged, stored again and compared: a file that is loaded
// is the one that its structure is stored as.
#![tactic(auto)]

ghost use Rattle.std.specs.Prelude.{◌≡◌, ℕ, ◌<◌};
ghost use Rattle.std.specs.Str.{bytes_eq};
ghost use Rattle.ids.specs.Sorted.{All};
ghost use Rattle.signature.specs.Model.{sig_of};
ghost use Rattle.file.specs.File as parking;
ghost use Rattle.loading.specs.View.{answered, loading_of, loading};

use file_rows::File;
use ids::Refusal;
use signature::Signature;
use structure::Structure;

// An answer, and the structure that is loaded: the empty one beside a refusal.
#[derive(Clone, Copy)]
pub struct Loading {
    pub answer: Result<(), u16>,
    pub structure: Structure,
}

// Each byte by itself, up to the last: the slip to be refused is one at a byte that no entry uses.
fn is_same(file: &[u8], bytes: &[u8]) -> bool
    ensures { result ≡ bytes_eq file.now bytes.now }
{
    if file.len() != bytes.len() {
        return false;
    }
    let mut alike = true;
    for (x, y) in file.iter().zip(bytes) {
        alike &= x == y;
    }
    alike
}

// The structure of a file under a signature, or 13 or 14. That each byte is one is said for the proof.
fn structure_in(signature: Signature, bytes: &[u8]) -> Result<Structure, u16>
    requires { All (λ (b : ℕ). b < 256) bytes.now }
    ensures { answered result ≡ parking.load (sig_of signature) bytes.now }
{
    if bytes.len() < File::HEAD_BYTES {
        return Err(Refusal::WRONG_LENGTH);
    }
    let head = decoding::head_in(bytes);
    let places = head.places();
    if places.end != bytes.len() {
        return Err(Refusal::WRONG_LENGTH);
    }
    if head.is_over() {
        return Err(Refusal::WRONG_CONTENT);
    }
    let structure = decoding::decode(bytes, head, places);
    if !validating::is_storable(structure, signature) {
        return Err(Refusal::WRONG_CONTENT);
    }
    let mut file = [0u8; File::MAX_BYTES];
    let n = storing::write(structure, &mut file);
    if !is_same(&file[..n], bytes) {
        return Err(Refusal::WRONG_CONTENT);
    }
    Ok(structure)
}

// The same, with the structure beside the answer.
pub fn load(signature: Signature, bytes: &[u8]) -> Loading
    ensures { loading_of result ≡ loading (parking.load (sig_of signature) bytes.now) }
{
    match structure_in(signature, bytes) {
        Ok(structure) => Loading {
            answer: Ok(()),
            structure,
        },
        Err(number) => Loading {
            answer: Err(number),
            structure: Structure::new(),
        },
    }
}
