// Whether a structure that a file says may be loaded (02, M-104): its entries by the causes of their calls, links, roots and orders.
#![tactic(auto)]

ghost use Rattle.std.specs.Prelude.{◌≡◌, ℕ, ◌≤◌, Bool, not, map, length, count_by};
ghost use Rattle.std.specs.List.{list_all};
ghost use Rattle.ids.specs.declared.Ordering.{Ordering};
ghost use Rattle.signature.specs.Model.{Sig, sig_of, max_types};
ghost use Rattle.semantics.specs.Structure.{variable, ambient, compare_fact, compare_func_app, compare_pred_app, max_vars};
ghost use Rattle.facts.specs.View.{fact_of};
ghost use Rattle.apps.specs.View.{func_app_of, pred_app_of};
ghost use Rattle.bindings.specs.declared.Slot.{Slot};
ghost use Rattle.bindings.specs.View.{slots_from};
ghost use Rattle.equalities.specs.View.{pair_of};
ghost use Rattle.structure.specs.View.{structure_of};
ghost use Rattle.file.specs.File.{entry_refused, link_rises, in_order, other_order};
ghost use Rattle.validating.specs.View.{fact_allowed, func_app_allowed, pred_app_allowed, var_within, ambient_allowed, pair_within, on_root, is_flagged, is_storable};

use apps::{FuncApp, PredApp};
use bindings::Slot;
use equalities::Pair;
use facts::Fact;
use ids::{Ordering, TypeId};
use signature::Signature;
use structure::Structure;

// Tests are joined by `&`, which has no branch, so that a proof has one path.

// ---- entries, by the causes of their calls

// An entry, and whether its call would accept it. A list that is handed over has no more entries than its places, so that its length needs no test here.
trait Entry: Copy {
    ghost allowed: { Sig → ℕ → Self → Bool };

    fn is_allowed(self, els: u16, signature: &Signature) -> bool
        ensures { result ≡ allowed (sig_of signature.now) els self };
}

// Facts and impositions.
impl Entry for Fact {
    ghost allowed = { λ g els f. fact_allowed g.types els (fact_of f) };

    fn is_allowed(self, els: u16, signature: &Signature) -> bool {
        let types = signature.types;
        let within = inserting::fact_is_within(self, els, types.size());
        within & inserting::has_its_parents(types, self)
    }
}

impl Entry for FuncApp {
    ghost allowed = { λ g els x. func_app_allowed g els (func_app_of x) };

    fn is_allowed(self, els: u16, signature: &Signature) -> bool {
        let funcs = signature.funcs;
        let reserved = inserting::is_reserved(*signature, self.func);
        let misapplied = inserting::is_misapplied(signature.models, self);
        let within = inserting::app_is_within(self, els, funcs.size());
        within & (!reserved & !misapplied)
    }
}

impl Entry for PredApp {
    ghost allowed = { λ g els x. pred_app_allowed els (length g.preds) (pred_app_of x) };

    fn is_allowed(self, els: u16, signature: &Signature) -> bool {
        let preds = signature.preds;
        inserting::pred_app_is_within(self, els, preds.size())
    }
}

impl Entry for Pair {
    ghost allowed = { λ g els p. pair_within els (pair_of p) };

    fn is_allowed(self, els: u16, _signature: &Signature) -> bool {
        (self.lhs.0 < els) & (self.rhs.0 < els)
    }
}

fn are_allowed<T: Entry>(entries: &[T], els: u16, signature: &Signature) -> bool
    ensures { result ≡ list_all (T.allowed (sig_of signature.now) els) entries.now }
{
    for entry in entries {
        if !entry.is_allowed(els, signature) {
            return false;
        }
    }
    true
}

fn vars_are_within(slots: &[Slot], els: u16) -> bool
    requires { length slots.now ≤ max_vars }
    ensures { result ≡ list_all (var_within els) (slots_from variable 0 slots.now) }
{
    for slot in slots {
        if !slot.given {
            continue;
        }
        if els <= slot.el.0 {
            return false;
        }
    }
    true
}

fn ambient_is_allowed(typ: TypeId, el: u16, els: u16, signature: Signature) -> bool
    ensures { result ≡ ambient_allowed (sig_of signature) els (ambient typ.0 el) }
{
    let model = (el < els) & signature.is_model(typ);
    signature.is_type(typ) & model
}

fn ambients_are_allowed(slots: &[Slot], els: u16, signature: Signature) -> bool
    requires { length slots.now ≤ max_types }
    ensures { result ≡ list_all (ambient_allowed (sig_of signature) els) (slots_from ambient 0 slots.now) }
{
    for (typ, slot) in slots.iter().enumerate() {
        if !slot.given {
            continue;
        }
        if !ambient_is_allowed(TypeId(typ as u16), slot.el.0, els, signature) {
            return false;
        }
    }
    true
}

// Whether each entry's call would accept it, where the elements alone are there.
fn entries_are_allowed(structure: Structure, signature: Signature) -> bool
    ensures { result ≡ not (entry_refused (sig_of signature) (structure_of structure)) }
{
    let u = structure.unification;
    let els = u.size() as u16;
    let facts = structure.els;
    let func_apps = structure.func_apps;
    let pred_apps = structure.pred_apps;
    let impositions = structure.pending_type_impositions;
    let vars = structure.var_els;
    let ambients = structure.ambient_model_els;
    let pairs = structure.pending_equalities;
    are_allowed(&facts.items[..facts.size()], els, &signature)
        & are_allowed(&func_apps.items[..func_apps.size()], els, &signature)
        & are_allowed(&pred_apps.items[..pred_apps.size()], els, &signature)
        & are_allowed(&impositions.items[..impositions.size()], els, &signature)
        & vars_are_within(&vars.slots, els)
        & ambients_are_allowed(&ambients.slots, els, signature)
        & are_allowed(&pairs.items[..pairs.size()], els, &signature)
}

// ---- links and roots

// Whether no element links to a higher one.
fn links_fall(links: &[u16]) -> bool
    ensures { result ≡ not (link_rises 0 links.now) }
{
    for (e, link) in links.iter().enumerate() {
        if e < *link as usize {
            return false;
        }
    }
    true
}

// Whether a fact stands at a root: one whose link does not fall.
fn is_on_root(fact: Fact, links: &[u16]) -> bool
    ensures { result ≡ on_root links.now (fact_of fact) }
{
    match links.get(fact.el.0 as usize) {
        Some(link) => fact.el.0 <= *link,
        None => true,
    }
}

fn facts_are_on_roots(facts: &[Fact], links: &[u16]) -> bool
    ensures { result ≡ list_all (λ f. on_root links.now (fact_of f)) facts.now }
{
    for fact in facts {
        if !is_on_root(*fact, links) {
            return false;
        }
    }
    true
}

// ---- orders

// An entry of a table that is in order.
trait Ordered: Copy {
    ghost order: { Self → Self → Ordering };

    fn order(self, other: Self) -> Ordering
        ensures { result ≡ order self other };
}

impl Ordered for Fact {
    ghost order = { λ x y. compare_fact (fact_of x) (fact_of y) };

    fn order(self, other: Fact) -> Ordering {
        self.compare(other)
    }
}

impl Ordered for FuncApp {
    ghost order = { λ x y. compare_func_app (func_app_of x) (func_app_of y) };

    fn order(self, other: FuncApp) -> Ordering {
        self.compare(other)
    }
}

impl Ordered for PredApp {
    ghost order = { λ x y. compare_pred_app (pred_app_of x) (pred_app_of y) };

    fn order(self, other: PredApp) -> Ordering {
        self.compare(other)
    }
}

// Whether each entry comes before the next.
fn are_in_order<T: Ordered>(entries: &[T]) -> bool
    ensures { result ≡ in_order T.order entries.now }
{
    let Some((first, rest)) = entries.split_first() else {
        return true;
    };
    let mut before = *first;
    for here in rest {
        match before.order(*here) {
            Ordering::Less => {
                before = *here;
            }
            Ordering::Equal | Ordering::Greater => {
                return false;
            }
        }
    }
    true
}

// Whether the tables are in order; variables and ambients are, since they stand by key.
fn is_in_order(structure: Structure) -> bool
    ensures { result ≡ not (other_order (structure_of structure)) }
{
    let facts = structure.els;
    let func_apps = structure.func_apps;
    let pred_apps = structure.pred_apps;
    are_in_order(&facts.items[..facts.size()])
        & are_in_order(&func_apps.items[..func_apps.size()])
        & are_in_order(&pred_apps.items[..pred_apps.size()])
}

// ---- the flag for number 4

// How many slots are given.
fn count_given(slots: &[Slot]) -> usize
    ensures { result ≡ count_by (λ (s : Slot). s.given) slots.now }
{
    slots.iter().filter(|slot| slot.given).count()
}

// Whether the flag is set, or there is no entry and the structure is not settled.
fn is_flagged(structure: Structure) -> bool
    ensures { result ≡ is_flagged (structure_of structure) }
{
    if structure.started {
        return true;
    }
    let u = structure.unification;
    let facts = structure.els;
    let func_apps = structure.func_apps;
    let pred_apps = structure.pred_apps;
    let impositions = structure.pending_type_impositions;
    let vars = structure.var_els;
    let ambients = structure.ambient_model_els;
    let pairs = structure.pending_equalities;
    let declared = u.size() + facts.size() + func_apps.size() + pred_apps.size();
    let bound = count_given(&vars.slots) + count_given(&ambients.slots);
    let queued = impositions.size() + pairs.size();
    (declared + bound + queued == 0) & !structure.settled
}

// ---- all of it

pub fn is_storable(structure: Structure, signature: Signature) -> bool
    ensures { result ≡ is_storable (sig_of signature) (structure_of structure) }
{
    let u = structure.unification;
    let links = &u.links[..u.size()];
    let facts = structure.els;
    entries_are_allowed(structure, signature)
        & links_fall(links)
        & facts_are_on_roots(&facts.items[..facts.size()], links)
        & is_in_order(structure)
        & is_flagged(structure)
}
