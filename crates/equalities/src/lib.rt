// Equalities that are declared or derived and not yet drained, in a queue of fixed size with a count.
#![tactic(auto)]

ghost use Rattle.std.specs.Prelude.{◌≡◌, []};
ghost use Rattle.ids.specs.Table.{Sized, len_of};
ghost use Rattle.unification.specs.Roots.{links_of};
ghost use Rattle.semantics.specs.Structure.{pair, max_pairs};
ghost use Rattle.equalities.specs.View.{pair_of, pairs_of, queued_of, equate_in, equated_of};

use ids::ElId;
use unification::Unification;

#[repr(C)]
#[derive(Clone, Copy)]
pub struct Pair {
    pub lhs: ElId,
    pub rhs: ElId,
}

// In the order in which they were queued.
#[repr(C)]
#[derive(Clone, Copy)]
pub struct Pairs {
    pub items: [Pair; Pairs::MAX_LEN],
    pub len: u16,
}

// Whether two roots differ, with the links and the pairs afterwards.
#[derive(Clone, Copy)]
pub struct Equated {
    pub unification: Unification,
    pub pairs: Pairs,
    pub differ: bool,
}

impl Pair {
    pub fn new(lhs: ElId, rhs: ElId) -> Self
        ensures { pair_of result ≡ pair lhs.0 rhs.0 }
    {
        Pair { lhs, rhs }
    }
}

impl Pairs {
    pub const MAX_LEN: usize = 256;

    pub fn new() -> Self
        ensures { pairs_of result ≡ [] }
    {
        let none = Pair::new(ElId(0), ElId(0));
        Pairs {
            items: [none; Pairs::MAX_LEN],
            len: 0,
        }
    }

    // How many there are: a length over the limit counts as the limit.
    pub fn size(self) -> usize
        ensures { Sized (pairs_of self) max_pairs result }
    {
        let n = self.len as usize;
        if n < Pairs::MAX_LEN {
            n
        } else {
            Pairs::MAX_LEN
        }
    }

    // One more pair, where there is room.
    pub fn push(self, pair: Pair) -> Pairs
        ensures { (pairs_of result ≡ queued_of (pairs_of self) (pair_of pair)) × (result.len ≡ len_of self.len (pairs_of self) (pairs_of result)) }
    {
        let mut next = self;
        let n = self.size();
        if Pairs::MAX_LEN <= n {
            return next;
        }
        next.items[n] = pair;
        next.len = (n + 1) as u16;
        next
    }
}

// Finds both roots, so that paths shorten, and queues the pair as given, where there is room.
pub fn equate(unification: Unification, pairs: Pairs, a: ElId, b: ElId) -> Equated
    ensures { equated_of result ≡ equate_in (links_of unification) (pairs_of pairs) a.0 b.0 }
{
    let first = unification::root_value(unification, a);
    let once = first.unification;
    let second = unification::root_value(once, b);
    let twice = second.unification;
    let x = first.find.root.0;
    let y = second.find.root.0;
    let next = pairs.push(Pair { lhs: a, rhs: b });
    Equated {
        unification: twice,
        pairs: next,
        differ: x != y,
    }
}
