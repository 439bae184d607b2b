// Facts imposed on elements (structure.rs, `impose_concrete_type` and `apply_pending_type_impositions`), on the tables that a close lends.
#![tactic(auto)]

ghost use Rattle.std.specs.Prelude.{◌≡◌, true, ◌&&◌, ◌≤◌, length, map, eqb};
ghost use Rattle.ids.specs.Ids.{els_of};
ghost use Rattle.ids.specs.Sorted.{Sorted};
ghost use Rattle.semantics.specs.Structure.{compare_fact, max_impositions};
ghost use Rattle.semantics.specs.Types.{refine, refine_parents, impose, impose_all};
ghost use Rattle.facts.specs.View.{fact_of};
ghost use Rattle.el_rows.specs.View.{links_in, marks_in};
ghost use Rattle.merging.specs.View.{lent, core_of, FactsHeld, LentHeld, RoomToCount, Passes};
ghost use Rattle.imposing.specs.Bounds.{one_pair, one_list, one_fact, one_imposed, all_impositions};
ghost use Rattle.imposing.specs.Keeps.{keeps_pair, keeps_parents, keeps_types};
ghost use Rattle.imposing.specs.View.{FirstOf, InsertsFact, refined, Answers};

use el_rows::El;
use equalities::Pair;
use facts::{Fact, Facts};
use ids::{ElId, ElIds, Place, Refusal, TypeId};
use merging::Tally;

// Whether two parents are not merged: their roots are one, or neither is marked.
fn keeps_pair(els: &[El], p: ElId, q: ElId) -> bool
    ensures { result ≡ keeps_pair (links_in els.now) (marks_in els.now) p.0 q.0 }
{
    let a = el_rows::find(els, p);
    let b = el_rows::find(els, q);
    if a.0 == b.0 {
        return true;
    }
    !el_rows::either_marked(els, a, b)
}

// Whether no parents of two lists are merged.
fn keeps_parents(els: &[El], ps: ElIds, qs: ElIds) -> bool
    ensures { result ≡ keeps_parents (links_in els.now) (marks_in els.now) (els_of ps) (els_of qs) }
{
    let size = ps.size();
    let k = qs.size();
    // Paired by the index, up to the shorter list.
    for i in 0..size {
        if k <= i {
            return true;
        }
        let p = ps.ids[i];
        let q = qs.ids[i];
        if !keeps_pair(els, p, q) {
            return false;
        }
    }
    true
}

// Up to this index every fact is smaller than the key. Where the facts are in order, no later one is.
fn first_of(facts: &[Fact], is_sorted: bool, key: Fact) -> usize
    requires { is_sorted ≡ true → Sorted compare_fact (map fact_of facts.now) }
    ensures { FirstOf is_sorted (fact_of key) (map fact_of facts.now) result }
{
    if !is_sorted {
        return 0;
    }
    match rows::position(facts, key) {
        Place::At(i) => i,
        Place::Before(i) => i,
    }
}

// Whether a fact is of an element and of a type.
fn is_of(fact: Fact, el: ElId, typ: TypeId) -> bool
    ensures { result ≡ (eqb fact.el.0 el.0 && eqb fact.ct.typ.0 typ.0) }
{
    fact.el.0 == el.0 && fact.ct.typ.0 == typ.0
}

// Whether no type that the element has is refined.
fn keeps_types(els: &[El], facts: &[Fact], is_sorted: bool, fact: Fact) -> bool
    requires { is_sorted ≡ true → Sorted compare_fact (map fact_of facts.now) }
    ensures { result ≡ keeps_types (links_in els.now) (marks_in els.now) (fact_of fact) (map fact_of facts.now) }
{
    let typ = fact.ct.typ;
    let parents = fact.ct.parents;
    let root = el_rows::find(els, fact.el);
    let first = first_of(facts, is_sorted, Fact::new(root, typ, ElIds::new()));
    for here in &facts[first..] {
        if is_of(*here, root, typ) {
            if !keeps_parents(els, here.ct.parents, parents) {
                return false;
            }
            continue;
        }
        // In order: no later fact is of this element and type.
        if is_sorted {
            return true;
        }
    }
    true
}

// Two parents: where their roots differ and either is marked they are merged, and the whole queue is drained at once.
fn refine(
    els: &mut [El],
    facts: &mut [Fact],
    pairs: &[Pair],
    counts: Tally,
    p: ElId,
    q: ElId,
) -> Tally
    requires { LentHeld (lent els.old facts.old pairs.now counts) × RoomToCount one_pair counts }
    ensures { Passes (lent els.old facts.old pairs.now counts)
        (lent els.new facts.new pairs.now result) one_pair (refine p.0 q.0) }
{
    let a = el_rows::find(els, p);
    let b = el_rows::find(els, q);
    if a.0 == b.0 {
        return counts;
    }
    if !el_rows::either_marked(els, a, b) {
        return counts;
    }
    let joined = merging::join(els, facts, counts, a, b);
    merging::drain_equalities(els, facts, pairs, joined)
}

// Parents paired up to the shorter length.
fn refine_parents(
    els: &mut [El],
    facts: &mut [Fact],
    pairs: &[Pair],
    counts: Tally,
    ps: ElIds,
    qs: ElIds,
) -> Tally
    requires { LentHeld (lent els.old facts.old pairs.now counts) × RoomToCount one_list counts }
    ensures { Passes (lent els.old facts.old pairs.now counts)
        (lent els.new facts.new pairs.now result) one_list (refine_parents (els_of ps) (els_of qs)) }
{
    let n = ps.size();
    let k = qs.size();
    let mut now = counts;
    // Paired by the index, up to the shorter list.
    for i in 0..n {
        if k <= i {
            continue;
        }
        let p = ps.ids[i];
        let q = qs.ids[i];
        now = refine(els, facts, pairs, now, p, q);
    }
    now
}

// The types that the element has, taken once, against a fact that is imposed on it.
fn refine_all(
    els: &mut [El],
    facts: &mut [Fact],
    pairs: &[Pair],
    counts: Tally,
    fact: Fact,
) -> Tally
    requires { LentHeld (lent els.old facts.old pairs.now counts) × RoomToCount one_fact counts }
    ensures { Passes (lent els.old facts.old pairs.now counts)
        (lent els.new facts.new pairs.now result) one_fact (refined (fact_of fact)) }
{
    let none = Fact::new(ElId(0), TypeId(0), ElIds::new());
    let mut types = [none; Facts::MAX_LEN];
    let n = el_rows::concrete_types_of(els, &facts[..counts.facts as usize], fact.el, &mut types);
    let mut now = counts;
    for here in &types[..n] {
        if here.ct.typ.0 != fact.ct.typ.0 {
            continue;
        }
        now = refine_parents(els, facts, pairs, now, here.ct.parents, fact.ct.parents);
    }
    now
}

// The types that the element has refined, where one is: a look that writes nothing comes first, since taking them costs a table.
fn refine_types(
    els: &mut [El],
    facts: &mut [Fact],
    pairs: &[Pair],
    counts: Tally,
    fact: Fact,
) -> Tally
    requires { LentHeld (lent els.old facts.old pairs.now counts) × RoomToCount one_fact counts }
    ensures { Passes (lent els.old facts.old pairs.now counts)
        (lent els.new facts.new pairs.now result) one_fact (refined (fact_of fact)) }
{
    if !counts.is_marked {
        return counts;
    }
    if keeps_types(els, &facts[..counts.facts as usize], counts.is_sorted, fact) {
        return counts;
    }
    refine_all(els, facts, pairs, counts, fact)
}

// The fact inserted; number 11 is judged here, after the merges.
fn insert_fact(facts: &mut [Fact], counts: Tally, fact: Fact) -> Tally
    requires { FactsHeld facts.old counts × RoomToCount 1 counts }
    ensures { InsertsFact facts.old counts facts.new result (fact_of fact) }
{
    let n = counts.facts as usize;
    let mut next = counts;
    let Place::Before(at) = rows::search(&facts[..n], counts.is_sorted, fact) else {
        return next;
    };
    if Facts::MAX_LEN <= n {
        next.met = counts.met.or(Some(Refusal::TOO_MANY_FACTS));
        return next;
    }
    rows::place(facts, n, at, fact);
    next.facts = counts.facts + 1;
    next.added = counts.added + 1;
    next
}

// A fact imposed: the types that the element has are refined, then the fact is inserted, its parents as roots, at the root. The answer is by how much
// `merges` and `added` grew.
pub fn impose_concrete_type(
    els: &mut [El],
    facts: &mut [Fact],
    pairs: &[Pair],
    counts: Tally,
    fact: Fact,
) -> Tally
    requires { LentHeld (lent els.old facts.old pairs.now counts) × RoomToCount one_imposed counts }
    ensures passes { Passes (lent els.old facts.old pairs.now counts)
        (lent els.new facts.new pairs.now result) one_imposed (impose (fact_of fact)) }
    ensures answers { Answers counts result (impose (fact_of fact)) (core_of (lent els.old facts.old pairs.now counts)) }
{
    let refined = refine_types(els, facts, pairs, counts, fact);
    let entry = el_rows::canonical_fact(els, fact);
    insert_fact(facts, refined, entry)
}

// Each imposition is imposed, in queue order.
pub fn apply_pending_type_impositions(
    els: &mut [El],
    facts: &mut [Fact],
    pairs: &[Pair],
    counts: Tally,
    impositions: &[Fact],
) -> Tally
    requires { LentHeld (lent els.old facts.old pairs.now counts) × (RoomToCount all_impositions counts × (length impositions.now ≤ max_impositions)) }
    ensures { Passes (lent els.old facts.old pairs.now counts)
        (lent els.new facts.new pairs.now result) all_impositions (impose_all (map fact_of impositions.now)) }
{
    let mut now = counts;
    for fact in impositions {
        now = impose_concrete_type(els, facts, pairs, now, *fact);
    }
    now
}
