// The printed lines of the sheet program, as bytes.
#![tactic(auto)]

ghost use Rattle.std.specs.Prelude.{◌≡◌, [], ◌∷◌, ◌+◌, ◌<◌, length};
ghost use Rattle.ids.specs.Ids.{els_of};
ghost use Rattle.ids.specs.Table.{Sized};
ghost use Rattle.semantics.specs.Close.{report};
ghost use Rattle.semantics.specs.Calls.{totals};
ghost use Rattle.semantics.specs.Sheet as sheet;
ghost use Rattle.facts.specs.View.{fact_of};
ghost use Rattle.lines.specs.View.{max_line, line_of, put_of, wide_bytes, number_bytes, els_bytes, fact_bytes, Added, conflicts_end};

use facts::Fact;
use ids::{ElId, ElIds};

// A line as it is written: the first `len` of its bytes. C reads it (lib/), so it is no String.
#[repr(C)]
#[derive(Clone, Copy)]
pub struct Line {
    pub bytes: [u8; Line::MAX_LEN],
    pub len: u16,
}

impl Line {
    // The longest line is one of a conflict, of 77 bytes.
    pub const MAX_LEN: usize = 80;

    pub fn new() -> Self
        ensures { line_of result ≡ [] }
    {
        Line {
            bytes: [0u8; Line::MAX_LEN],
            len: 0,
        }
    }

    // The bytes that are written: a length over the limit counts as the limit.
    pub fn as_slice(&self) -> &[u8]
        ensures bytes { result.now ≡ line_of self.now }
        ensures size { Sized (line_of self.now) max_line (length result.now) }
    {
        let n = self.len as usize;
        &self.bytes[..n.min(Line::MAX_LEN)]
    }

    // How many bytes there are.
    pub fn size(self) -> usize
        ensures { Sized (line_of self) max_line result }
    {
        self.as_slice().len()
    }

    // One byte more, where there is room.
    pub fn put(self, b: u8) -> Line
        ensures { line_of result ≡ put_of (line_of self) (b ∷ []) }
    {
        let mut next = self;
        let n = self.size();
        if n < Line::MAX_LEN {
            next.bytes[n] = b;
            next.len = (n + 1) as u16;
        }
        next
    }

    // A word's bytes.
    pub fn put_word(self, word: &[u8]) -> Line
        ensures { line_of result ≡ put_of (line_of self) word.now }
    {
        let mut line = self;
        for b in word {
            line = line.put(*b);
        }
        line
    }

    // A number's digits. `itoa` would need a buffer of its own, and a proof that its digits are those of the definition.
    fn put_decimal(self, x: u64) -> Line
        ensures { line_of result ≡ put_of (line_of self) (sheet.decimal x) }
    {
        if x < 10 {
            return self.put(digit(x));
        }
        self.put_decimal(x / 10).put(digit(x % 10))
    }

    // A space and a number.
    pub fn put_spaced(self, x: u64) -> Line
        ensures { Added (line_of self) (x ∷ []) wide_bytes (line_of result) }
    {
        self.put(b' ').put_decimal(x)
    }

    // The same, of 16 bits: at most 6 bytes, and not 21.
    pub fn put_number(self, x: u16) -> Line
        ensures { Added (line_of self) (x ∷ []) number_bytes (line_of result) }
    {
        self.put_spaced(u64::from(x))
    }

    // A list of elements, each with a space before it.
    pub fn put_els(self, els: ElIds) -> Line
        ensures { Added (line_of self) (els_of els) els_bytes (line_of result) }
    {
        let n = els.size();
        let mut line = self;
        for el in &els.ids[..n] {
            line = line.put_number(el.0);
        }
        line
    }

    // A fact's type and parents.
    pub fn put_fact(self, fact: Fact) -> Line
        ensures { Added (line_of self) ((fact_of fact).typ ∷ (fact_of fact).parents) fact_bytes (line_of result) }
    {
        self.put_number(fact.ct.typ.0).put_els(fact.ct.parents)
    }
}

fn digit(x: u64) -> u8
    requires { x < 10 }
    ensures { result ≡ 48 + x }
{
    (48 + x) as u8
}

pub fn bit(b: bool) -> u16
    ensures { result ≡ sheet.bit b }
{
    u16::from(b)
}

// `close C M R F`
pub fn close_line(changed: bool, merges: u64, rounds: u64, added: u64) -> Line
    ensures { line_of result ≡ sheet.close_line (report changed merges rounds added) }
{
    Line::new()
        .put_word(b"close")
        .put_number(bit(changed))
        .put_spaced(merges)
        .put_spaced(rounds)
        .put_spaced(added)
        .put(b'\n')
}

// `conflict E T p.. / U q..`
pub fn conflict_line(el: ElId, a: Fact, b: Fact) -> Line
    ensures { line_of result ≡ sheet.conflict_line (record { el = el.0; a = fact_of a; b = fact_of b }) }
{
    Line::new()
        .put_word(b"conflict")
        .put_number(el.0)
        .put_fact(a)
        .put_word(b" /")
        .put_fact(b)
        .put(b'\n')
}

// `conflicts N`, after the conflicts
pub fn conflicts_line(n: u16) -> Line
    ensures { line_of result ≡ conflicts_end n }
{
    Line::new().put_word(b"conflicts").put_number(n).put(b'\n')
}

// `settle K M`
pub fn settle_line(closes: u64, merges: u64) -> Line
    ensures { line_of result ≡ sheet.settle_line (totals closes merges) }
{
    Line::new()
        .put_word(b"settle")
        .put_spaced(closes)
        .put_spaced(merges)
        .put(b'\n')
}

// `refused N at I`
pub fn refused_line(number: u16, index: u16) -> Line
    ensures { line_of result ≡ sheet.refused_line number index }
{
    Line::new()
        .put_word(b"refused")
        .put_number(number)
        .put_word(b" at")
        .put_number(index)
        .put(b'\n')
}

// `end K`
pub fn end_line(k: u16) -> Line
    ensures { line_of result ≡ sheet.end_line k }
{
    Line::new().put_word(b"end").put_number(k).put(b'\n')
}
