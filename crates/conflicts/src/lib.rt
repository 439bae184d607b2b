// Classes whose facts disagree (structure.rs, `type_conflicts`).
#![tactic(auto)]

ghost use Rattle.std.specs.Prelude.{◌≡◌, [], ◌≤◌, length, map};
ghost use Rattle.ids.specs.Table.{Sized, push_of};
ghost use Rattle.ids.specs.Ids.{els_of, whole};
ghost use Rattle.unification.specs.Roots.{max_els};
ghost use Rattle.signature.specs.Model.{Sig};
ghost use Rattle.semantics.specs.Structure.{max_facts};
ghost use Rattle.semantics.specs.Calls.{type_conflicts, machine, step};
ghost use Rattle.facts.specs.View.{fact_of};
ghost use Rattle.el_rows.specs.View.{links_in};
ghost use Rattle.structure.specs.View.{structure_of};
ghost use Rattle.conflicts.specs.View.{conflict_of, conflicts_of, given_conflicts, conflicts_in, finds_in, ParentsFound, Spans};
ghost use Rattle.conflicts.specs.View.{handed_fact, handed_conflict, handed_conflicts, handed_conflicting};

use el_rows::El;
use facts::{ConcreteType, Fact};
use ids::{ElId, ElIds, TypeId};
use structure::{Answer, Structure};

// An element, and two facts of its class that disagree.
#[repr(C)]
#[derive(Clone, Copy)]
pub struct TypeConflict {
    pub el: ElId,
    pub a: Fact,
    pub b: Fact,
}

// In root order, at most one for each class.
#[repr(C)]
#[derive(Clone, Copy)]
pub struct TypeConflicts {
    pub items: [TypeConflict; Structure::MAX_ELS],
    pub len: u16,
}

#[derive(Clone, Copy)]
pub struct Conflicting {
    pub conflicts: TypeConflicts,
    // How many finds the roots of first facts' parents took (02, M-103).
    pub finds: u16,
    pub structure: Structure,
}

#[derive(Clone, Copy)]
struct Searched {
    conflicts: TypeConflicts,
    finds: u16,
}

// The roots of a fact's parents, in their order, and how many finds that took.
#[derive(Clone, Copy)]
struct ParentRoots {
    roots: ElIds,
    finds: u16,
}

// Where the facts of an element stand in a table: the first of them, the index past the last, and how many there are; all 0 where
// it has none.
#[derive(Clone, Copy)]
struct FactRange {
    first: u16,
    end: u16,
    count: u16,
}

// A fact whose list says the length that it has.
fn clamped(fact: Fact) -> Fact
    ensures { handed_fact result ≡ whole (fact_of fact) }
{
    let el = fact.el;
    let typ = fact.ct.typ;
    let given = fact.ct.parents;
    let parents = given.clamped();
    Fact {
        el,
        ct: ConcreteType { typ, parents },
    }
}

impl TypeConflict {
    // A conflict whose lists say the lengths that they have.
    fn clamped(self) -> TypeConflict
        ensures { handed_conflict result ≡ whole (conflict_of self) }
    {
        let el = self.el;
        let first = self.a;
        let second = self.b;
        let a = clamped(first);
        let b = clamped(second);
        TypeConflict { el, a, b }
    }
}

impl TypeConflicts {
    pub fn new() -> Self
        ensures { handed_conflicts result ≡ whole [] }
    {
        let none = Fact::new(ElId(0), TypeId(0), ElIds::new());
        let conflict = TypeConflict {
            el: ElId(0),
            a: none,
            b: none,
        };
        TypeConflicts {
            items: [conflict; Structure::MAX_ELS],
            len: 0,
        }
    }

    // How many there are: a length over the limit counts as the limit.
    pub fn size(self) -> usize
        ensures { Sized (conflicts_of self) max_els result }
    {
        let n = self.len as usize;
        if n < Structure::MAX_ELS {
            n
        } else {
            Structure::MAX_ELS
        }
    }

    // One more at the end, where there is room, with the lengths that its lists have.
    fn push(self, conflict: TypeConflict) -> TypeConflicts
        requires { given_conflicts self ≡ conflicts_of self }
        ensures { handed_conflicts result ≡ whole (push_of max_els (conflicts_of self) (conflict_of conflict)) }
    {
        let mut next = self;
        let n = self.size();
        if Structure::MAX_ELS <= n {
            return next;
        }
        let entry = conflict.clamped();
        next.items[n] = entry;
        next.len = (n + 1) as u16;
        next
    }
}

// Where the facts of each element stand. In a table that is in order they stand together.
fn spans_of(facts: &[Fact]) -> [FactRange; Structure::MAX_ELS]
    requires { length facts.now ≤ max_facts }
    ensures { Spans facts.now (length facts.now) result }
{
    let none = FactRange {
        first: 0,
        end: 0,
        count: 0,
    };
    let mut spans = [none; Structure::MAX_ELS];
    for (i, here) in facts.iter().enumerate() {
        let el = here.el.0 as usize;
        if Structure::MAX_ELS <= el {
            continue;
        }
        let count = spans[el].count;
        let mut first = spans[el].first;
        if count == 0 {
            first = i as u16;
        }
        spans[el] = FactRange {
            first,
            end: (i + 1) as u16,
            count: count + 1,
        };
    }
    spans
}

// The root of each parent is found once, and the count steps with it.
fn find_parents(els: &[El], fact: Fact) -> ParentRoots
    ensures { ParentsFound (links_in els.now) (fact_of fact) (els_of result.roots) result.finds }
{
    let parents = fact.ct.parents;
    let k = parents.size();
    let mut roots = parents;
    let mut finds: u16 = 0;
    for i in 0..k {
        let root = el_rows::find(els, parents.ids[i]);
        finds += 1;
        roots.ids[i] = root;
    }
    ParentRoots { roots, finds }
}

// In each class the first later fact that disagrees with its first; then the search moves on to the next class.
fn find_conflicts(els: &[El], facts: &[Fact]) -> Searched
    requires { (length els.now ≤ max_els) × (length facts.now ≤ max_facts) }
    ensures { (handed_conflicts result.conflicts ≡ whole (conflicts_in (links_in els.now) (map fact_of facts.now)))
        × (result.finds ≡ finds_in (links_in els.now) (map fact_of facts.now)) }
{
    let spans = spans_of(facts);
    let none = Fact::new(ElId(0), TypeId(0), ElIds::new());
    let mut types = [none; Structure::MAX_FACTS];
    let mut conflicts = TypeConflicts::new();
    let mut finds: u16 = 0;
    // By numbers: the search leaves its loops by their labels.
    'classes: for e in 0..els.len() {
        let number = e as u16;
        let el = ElId(number);
        let root = el_rows::find(els, el);
        if root.0 != el.0 {
            continue;
        }
        let span = spans[e];
        if span.count < 2 {
            continue;
        }
        let at = &facts[span.first as usize..span.end as usize];
        let k = el_rows::concrete_types_of(els, at, el, &mut types);
        let a = types[0];
        let first = find_parents(els, a);
        finds += first.finds;
        'stored: for j in 1..k {
            let b = types[j];
            if a.ct.typ.0 != b.ct.typ.0 {
                conflicts = conflicts.push(TypeConflict { el, a, b });
                continue 'classes;
            }
            let ps = first.roots;
            let qs = b.ct.parents;
            let length = ps.size();
            let other = qs.size();
            'paired: for i in 0..length {
                if other <= i {
                    continue 'paired;
                }
                let q = el_rows::find(els, qs.ids[i]);
                if ps.ids[i].0 != q.0 {
                    conflicts = conflicts.push(TypeConflict { el, a, b });
                    continue 'classes;
                }
            }
        }
    }
    Searched { conflicts, finds }
}

// Kind 14.
pub fn type_conflicts(structure: Structure) -> Conflicting
    ensures { (g : Sig) → handed_conflicting g result ≡ whole (step type_conflicts (machine g (structure_of structure))) }
{
    let unification = structure.unification;
    let table = structure.els;
    let links = unification.links;
    let marks = structure.inferred_parent_els;
    let n = unification.size();
    let m = table.size();
    let none = El {
        link: 0,
        marked: false,
    };
    let mut rows = [none; Structure::MAX_ELS];
    let els = &mut rows[..n];
    el_rows::fill_els(els, &links, &marks);
    let searched = find_conflicts(els, &table.items[..m]);
    let conflicts = searched.conflicts;
    let finds = searched.finds;
    let stepped = structure.accept(Answer::Conflicting(finds));
    let next = stepped.structure;
    Conflicting {
        conflicts,
        finds,
        structure: next,
    }
}
