// The numbers of elements, types, predicates and functions, and lists of at most four of them.
#![tactic(auto)]

ghost use Rattle.std.specs.Prelude.{◌≡◌, ◌&&◌, ◌||◌, []};
ghost use Rattle.ids.specs.Answers.{◌if◌};
ghost use Rattle.ids.specs.Judge.{verdict_of, or_if};
ghost use Rattle.ids.specs.Limits.{max_list};
ghost use Rattle.ids.specs.Table.{Sized};
ghost use Rattle.ids.specs.Order.{order_of, lex_of};
ghost use Rattle.ids.specs.Ids.{els_of, types_of, given_els, given_types, handed_els, whole, too_long, all_below};

#[repr(C)]
#[derive(Clone, Copy)]
pub struct ElId(pub u16);

#[repr(C)]
#[derive(Clone, Copy)]
pub struct TypeId(pub u16);

#[repr(C)]
#[derive(Clone, Copy)]
pub struct PredId(pub u16);

#[repr(C)]
#[derive(Clone, Copy)]
pub struct FuncId(pub u16);

// The numbers of the table of refusals.
#[derive(Clone, Copy)]
pub struct Refusal(pub u16);

impl Refusal {
    pub const BAD_SHEET: u16 = 1;

    pub const BAD_CHAIN: u16 = 2;

    pub const MALFORMED: u16 = 3;

    pub const TOO_LATE: u16 = 4;

    pub const UNDECLARED: u16 = 5;

    pub const WRONG_KIND: u16 = 6;

    pub const RESERVED: u16 = 7;

    pub const GIVEN_AGAIN: u16 = 8;

    pub const NO_ROOM: u16 = 9;

    pub const NO_AMBIENT: u16 = 10;

    pub const TOO_MANY_FACTS: u16 = 11;

    pub const WRONG_ARG_COUNT: u16 = 12;

    pub const WRONG_LENGTH: u16 = 13;

    pub const WRONG_CONTENT: u16 = 14;

    pub const WRONG_PARENT_COUNT: u16 = 15;
}

// Whether a call is refused, and with which number.
#[derive(Clone, Copy)]
pub enum Verdict {
    Accepted,
    Refused(u16),
}

// A list of elements: the first `len` of its ids.
#[repr(C)]
#[derive(Clone, Copy)]
pub struct ElIds {
    pub ids: [ElId; ElIds::MAX_LEN],
    pub len: u16,
}

// A list of types: the first `len` of its ids.
#[repr(C)]
#[derive(Clone, Copy)]
pub struct TypeIds {
    pub ids: [TypeId; TypeIds::MAX_LEN],
    pub len: u16,
}

#[derive(Clone, Copy)]
pub enum Ordering {
    Less,
    Equal,
    Greater,
}

// Where an entry stands in an ordered table, or before which one it goes.
#[derive(Clone, Copy)]
pub enum Place {
    Before(usize),
    At(usize),
}

pub fn and(a: bool, b: bool) -> bool
    ensures { result ≡ (a && b) }
{
    if a {
        return b;
    }
    false
}

pub fn or(a: bool, b: bool) -> bool
    ensures { result ≡ (a || b) }
{
    if a {
        return true;
    }
    b
}

impl Verdict {
    // One more cause judged: a verdict that refuses stays.
    pub fn refuse_if(self, number: u16, applies: bool) -> Verdict
        ensures { verdict_of result ≡ or_if (verdict_of self) (number if applies) }
    {
        match self {
            Verdict::Refused(_) => self,
            Verdict::Accepted => {
                if applies {
                    return Verdict::Refused(number);
                }
                self
            }
        }
    }
}

pub fn compare_numbers(a: u16, b: u16) -> Ordering
    ensures { result ≡ order_of a b }
{
    if a < b {
        return Ordering::Less;
    }
    if b < a {
        return Ordering::Greater;
    }
    Ordering::Equal
}

impl ElIds {
    pub const MAX_LEN: usize = 4;

    pub fn new() -> Self
        ensures { els_of result ≡ [] }
    {
        ElIds {
            ids: [ElId(0); ElIds::MAX_LEN],
            len: 0,
        }
    }

    // How many elements are held: a length over the limit counts as the limit.
    pub fn size(self) -> usize
        ensures { Sized (els_of self) max_list result }
    {
        let n = self.len as usize;
        if n < ElIds::MAX_LEN {
            n
        } else {
            ElIds::MAX_LEN
        }
    }

    // Whether the list is given with more entries than a list has.
    pub fn is_too_long(self) -> bool
        ensures { result ≡ too_long (given_els self) }
    {
        let n = self.len as usize;
        ElIds::MAX_LEN < n
    }

    // The same list with the length that it has: for a list that is handed on as it was read.
    pub fn clamped(self) -> ElIds
        ensures { handed_els result ≡ whole (els_of self) }
    {
        let mut list = self;
        let n = self.size();
        list.len = n as u16;
        list
    }

    pub fn all_below(self, n: u16) -> bool
        ensures { result ≡ all_below n (els_of self) }
    {
        let size = self.size();
        for i in 0..size {
            let x = self.ids[i].0;
            if n <= x {
                return false;
            }
        }
        true
    }

    // The order of two lists: a shorter one before its extension.
    pub fn compare(self, other: ElIds) -> Ordering
        ensures { result ≡ lex_of (els_of self) (els_of other) }
    {
        let n = self.size();
        let m = other.size();
        let mut i = 0;
        while i < n {
            if m <= i {
                return Ordering::Greater;
            }
            let x = self.ids[i].0;
            let y = other.ids[i].0;
            if x < y {
                return Ordering::Less;
            }
            if y < x {
                return Ordering::Greater;
            }
            i += 1;
        }
        if i < m {
            return Ordering::Less;
        }
        Ordering::Equal
    }
}

impl TypeIds {
    pub const MAX_LEN: usize = ElIds::MAX_LEN;

    pub fn new() -> Self
        ensures { types_of result ≡ [] }
    {
        TypeIds {
            ids: [TypeId(0); TypeIds::MAX_LEN],
            len: 0,
        }
    }

    // How many types are held: a length over the limit counts as the limit.
    pub fn size(self) -> usize
        ensures { Sized (types_of self) max_list result }
    {
        let n = self.len as usize;
        if n < TypeIds::MAX_LEN {
            n
        } else {
            TypeIds::MAX_LEN
        }
    }

    // Whether the list is given with more entries than a list has.
    pub fn is_too_long(self) -> bool
        ensures { result ≡ too_long (given_types self) }
    {
        let n = self.len as usize;
        TypeIds::MAX_LEN < n
    }

    pub fn all_below(self, n: u16) -> bool
        ensures { result ≡ all_below n (types_of self) }
    {
        let size = self.size();
        for i in 0..size {
            let x = self.ids[i].0;
            if n <= x {
                return false;
            }
        }
        true
    }
}
