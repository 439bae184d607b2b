// Facts: an element's types with their parents, in an ordered table, and impositions in a queue, both of fixed size with a count.
#![tactic(auto)]

ghost use Rattle.std.specs.Prelude.{◌≡◌, []};
ghost use Rattle.ids.specs.Table.{Sized, push_of, len_of};
ghost use Rattle.semantics.specs.Structure.{max_facts, max_impositions, compare_fact};
ghost use Rattle.semantics.specs.Calls.{is_imposed};
ghost use Rattle.facts.specs.View.{new_fact, fact_of, facts_of, impositions_of};

use ids::{ElId, ElIds, Ordering, TypeId};

#[repr(C)]
#[derive(Clone, Copy)]
pub struct ConcreteType {
    pub typ: TypeId,
    pub parents: ElIds,
}

#[repr(C)]
#[derive(Clone, Copy)]
pub struct Fact {
    pub el: ElId,
    pub ct: ConcreteType,
}

// By element, then type, then parents, each fact once.
#[repr(C)]
#[derive(Clone, Copy)]
pub struct Facts {
    pub items: [Fact; Facts::MAX_LEN],
    pub len: u16,
}

// The facts that are to be imposed, in queue order.
#[repr(C)]
#[derive(Clone, Copy)]
pub struct Impositions {
    pub items: [Fact; Impositions::MAX_LEN],
    pub len: u16,
}

impl Fact {
    pub fn new(el: ElId, typ: TypeId, parents: ElIds) -> Self
        ensures { result ≡ new_fact el typ parents }
    {
        Fact {
            el,
            ct: ConcreteType { typ, parents },
        }
    }

    pub fn compare(self, other: Fact) -> Ordering
        ensures { result ≡ compare_fact (fact_of self) (fact_of other) }
    {
        match ids::compare_numbers(self.el.0, other.el.0) {
            Ordering::Less => Ordering::Less,
            Ordering::Greater => Ordering::Greater,
            Ordering::Equal => match ids::compare_numbers(self.ct.typ.0, other.ct.typ.0) {
                Ordering::Less => Ordering::Less,
                Ordering::Greater => Ordering::Greater,
                Ordering::Equal => {
                    let p = self.ct.parents;
                    let q = other.ct.parents;
                    p.compare(q)
                }
            },
        }
    }
}

impl Facts {
    pub const MAX_LEN: usize = 1024;

    pub fn new() -> Self
        ensures { facts_of result ≡ [] }
    {
        let none = Fact::new(ElId(0), TypeId(0), ElIds::new());
        Facts {
            items: [none; Facts::MAX_LEN],
            len: 0,
        }
    }

    // How many there are: a length over the limit counts as the limit.
    pub fn size(self) -> usize
        ensures { Sized (facts_of self) max_facts result }
    {
        let n = self.len as usize;
        if n < Facts::MAX_LEN {
            n
        } else {
            Facts::MAX_LEN
        }
    }
}

impl Impositions {
    pub const MAX_LEN: usize = 64;

    pub fn new() -> Self
        ensures { impositions_of result ≡ [] }
    {
        let none = Fact::new(ElId(0), TypeId(0), ElIds::new());
        Impositions {
            items: [none; Impositions::MAX_LEN],
            len: 0,
        }
    }

    // How many there are: a length over the limit counts as the limit.
    pub fn size(self) -> usize
        ensures { Sized (impositions_of self) max_impositions result }
    {
        let n = self.len as usize;
        if n < Impositions::MAX_LEN {
            n
        } else {
            Impositions::MAX_LEN
        }
    }

    // Whether the entry is queued.
    pub fn contains(self, entry: Fact) -> bool
        ensures { result ≡ is_imposed (fact_of entry) (impositions_of self) }
    {
        let n = self.size();
        for i in 0..n {
            let here = self.items[i];
            match entry.compare(here) {
                Ordering::Less => {
                    continue;
                }
                Ordering::Equal => {
                    return true;
                }
                Ordering::Greater => {
                    continue;
                }
            }
        }
        false
    }

    // One more at the end, where there is room.
    pub fn push(self, entry: Fact) -> Impositions
        ensures { (impositions_of result ≡ push_of max_impositions (impositions_of self) (fact_of entry)) × (result.len ≡ len_of self.len (impositions_of self) (impositions_of result)) }
    {
        let mut next = self;
        let n = self.size();
        if Impositions::MAX_LEN <= n {
            return next;
        }
        next.items[n] = entry;
        next.len = (n + 1) as u16;
        next
    }
}
