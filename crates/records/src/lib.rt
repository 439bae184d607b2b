// Records of a sheet: 16 words each, and what the words of each kind may hold.
#![tactic(auto)]

ghost use Rattle.std.specs.Prelude.{◌≡◌, drop, get_or};
ghost use Rattle.semantics.specs.Sheet as sheet;
ghost use Rattle.semantics.specs.Sheet.{all_zero, words};
ghost use Rattle.records.specs.View.{record_view, blank, record_in, record_within, list_within, within, fits_form};

use ids::ElIds;

#[derive(Clone, Copy)]
pub struct Record {
    pub next: u16,
    pub kind: u16,
    pub a: u16,
    pub b: u16,
    pub parent_count: u16,
    pub arg_count: u16,
    pub parents: [u16; ElIds::MAX_LEN],
    pub args: [u16; ElIds::MAX_LEN],
    // Words 14 and 15.
    pub rest: [u16; 2],
}

impl Record {
    pub const BYTES: usize = 32;

    pub const MAX_RECORDS: usize = 1024;

    // The bytes of the longest sheet.
    pub const MAX_BYTES: usize = Record::BYTES * Record::MAX_RECORDS;

    fn blank() -> Self
        ensures { record_view result ≡ blank }
    {
        Record {
            next: 0,
            kind: 0,
            a: 0,
            b: 0,
            parent_count: 0,
            arg_count: 0,
            parents: [0; ElIds::MAX_LEN],
            args: [0; ElIds::MAX_LEN],
            rest: [0; 2],
        }
    }
}

// The word whose lower byte stands at an index; 0 where not both of its bytes are there.
pub fn word(bytes: &[u8], at: usize) -> u16
    ensures { result ≡ get_or (words (drop at bytes.now)) 0 0 }
{
    if bytes.len() <= at {
        return 0;
    }
    if bytes.len() - at == 1 {
        return 0;
    }
    u16::from_le_bytes([bytes[at], bytes[at + 1]])
}

// The record of an index; one of zeros past the last whole record.
pub fn record_in(bytes: &[u8], index: usize) -> Record
    ensures { record_view result ≡ record_within bytes.now index }
{
    if bytes.len() / Record::BYTES <= index {
        return Record::blank();
    }
    let at = index * Record::BYTES;
    Record {
        next: word(bytes, at),
        kind: word(bytes, at + 2),
        a: word(bytes, at + 4),
        b: word(bytes, at + 6),
        parent_count: word(bytes, at + 8),
        arg_count: word(bytes, at + 10),
        parents: [
            word(bytes, at + 12),
            word(bytes, at + 14),
            word(bytes, at + 16),
            word(bytes, at + 18),
        ],
        args: [
            word(bytes, at + 20),
            word(bytes, at + 22),
            word(bytes, at + 24),
            word(bytes, at + 26),
        ],
        rest: [word(bytes, at + 28), word(bytes, at + 30)],
    }
}

// The same in an array as long as the longest sheet.
pub fn record_at(bytes: &[u8; Record::MAX_BYTES], index: u16) -> Record
    ensures { record_view result ≡ record_in bytes.now index }
{
    let sheet = &bytes[..];
    record_in(sheet, index as usize)
}

// Whether the slots from n on are zero.
fn is_clear(slots: [u16; ElIds::MAX_LEN], n: u16) -> bool
    ensures { result ≡ all_zero (drop n slots) }
{
    let start = n as usize;
    if ElIds::MAX_LEN <= start {
        return true;
    }
    for slot in &slots[start..] {
        if *slot != 0 {
            return false;
        }
    }
    true
}

// Whether a list has from `least` to `most` entries, and its other slots are zero.
fn list_fits(slots: [u16; ElIds::MAX_LEN], n: u16, least: u16, most: u16) -> bool
    ensures { result ≡ list_within least most n slots }
{
    (least <= n) & (n <= most) & is_clear(slots, n)
}

impl Record {
    // The bound of a word that may hold any number.
    const ANY: u16 = 65535;

    // The most entries of a list.
    const LIST: u16 = ElIds::MAX_LEN as u16;

    // Whether A and B are at most two numbers, there are at most `parents` parents and from `least` to `most` arguments,
    // and every slot that is not used is zero.
    fn is_within(self, a: u16, b: u16, parents: u16, least: u16, most: u16) -> bool
        ensures { result ≡ within a b parents least most (record_view self) }
    {
        // `&` has no branch, so that the proof has one path.
        let bounded = (self.a <= a) & (self.b <= b);
        let listed = list_fits(self.parents, self.parent_count, 0, parents)
            & list_fits(self.args, self.arg_count, least, most);
        let clear = (self.rest[0] == 0) & (self.rest[1] == 0);
        bounded & (listed & clear)
    }

    // Whether kind, counts, A and the unused words are as they must be. Of each kind: the bounds of A and B, the most
    // parents, the least and the most arguments.
    pub fn fits(self) -> bool
        ensures { result ≡ fits_form (sheet.form_of self.kind) (record_view self) }
    {
        let kind = self.kind;
        match kind {
            1 => {
                if self.a == 3 {
                    return self.is_within(3, Record::ANY, Record::LIST, 0, 0);
                }
                self.is_within(3, 0, Record::LIST, 0, 0)
            }
            2 => self.is_within(0, 0, Record::LIST, 0, Record::LIST),
            3 => self.is_within(0, Record::ANY, Record::LIST, 0, Record::LIST),
            4 => self.is_within(Record::ANY, Record::ANY, 0, 4, 4),
            5 => self.is_within(Record::ANY, 0, 0, 2, 2),
            6 => self.is_within(1, 0, 0, 0, 0),
            7 => self.is_within(Record::ANY, Record::ANY, 0, 0, 0),
            8 => self.is_within(Record::ANY, Record::ANY, Record::LIST, 0, 0),
            9 => self.is_within(Record::ANY, Record::ANY, Record::LIST, 0, Record::LIST),
            10 => self.is_within(Record::ANY, 0, Record::LIST, 0, Record::LIST),
            11..=12 => self.is_within(Record::ANY, Record::ANY, 0, 0, 0),
            13..=15 => self.is_within(0, 0, 0, 0, 0),
            _ => false,
        }
    }
}
