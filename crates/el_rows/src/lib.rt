// The links and marks of the elements as rows of numbers, entries with what they name as roots, and the types of an element.
#![tactic(auto)]

ghost use Rattle.std.specs.Prelude.{◌≡◌, ◌&&◌, ◌||◌, map, ◌≤◌, ◌<◌, length, take};
ghost use Rattle.ids.specs.Ids.{els_of};
ghost use Rattle.unification.specs.Roots.{max_els, root_of};
ghost use Rattle.semantics.specs.Structure.{max_facts, canonical_fact, canonical_func_app, canonical_pred_app};
ghost use Rattle.semantics.specs.Types.{marked};
ghost use Rattle.facts.specs.View.{fact_of};
ghost use Rattle.apps.specs.View.{func_app_of, pred_app_of};
ghost use Rattle.el_rows.specs.View.{links_in, marks_in, Shortened, Merged, ElsInRows, TypesOf};

use apps::{FuncApp, PredApp};
use facts::{ConcreteType, Fact};
use ids::{ElId, ElIds};
use unification::Unification;

// The link of an element, and whether it is marked.
#[derive(Clone, Copy)]
pub struct El {
    pub link: u16,
    pub marked: bool,
}

// The root of an element. A number that is no element is its own root.
pub fn find(els: &[El], el: ElId) -> ElId
    ensures { result.0 ≡ root_of (links_in els.now) el.0 }
{
    let mut x = el.0;
    let at = x as usize;
    if els.len() <= at {
        return el;
    }
    let mut to = els[at].link;
    while to < x {
        x = to;
        let next = to as usize;
        to = els[next].link;
    }
    ElId(x)
}

// The same, with the path shortened: each element passed then links to what its former link linked to.
pub fn root(els: &mut [El], el: ElId) -> ElId
    ensures { Shortened el.0 els.old els.new result.0 }
{
    let mut x = el.0;
    let at = x as usize;
    if els.len() <= at {
        return el;
    }
    let mut parent = els[at].link;
    while parent < x {
        let here = x as usize;
        let next = parent as usize;
        let after = els[next].link;
        els[here].link = after;
        x = parent;
        parent = after;
    }
    ElId(x)
}

pub fn is_marked(els: &[El], el: ElId) -> bool
    ensures { result ≡ marked (marks_in els.now) el.0 }
{
    let at = el.0 as usize;
    at < els.len() && els[at].marked
}

fn both_marked(els: &[El], a: ElId, b: ElId) -> bool
    ensures { result ≡ (marked (marks_in els.now) a.0 && marked (marks_in els.now) b.0) }
{
    is_marked(els, a) && is_marked(els, b)
}

pub fn either_marked(els: &[El], a: ElId, b: ElId) -> bool
    ensures { result ≡ (marked (marks_in els.now) a.0 || marked (marks_in els.now) b.0) }
{
    is_marked(els, a) || is_marked(els, b)
}

// Links the larger of two roots to the smaller. The mark remains only if both had it.
pub fn union_roots(els: &mut [El], keep: ElId, drop: ElId)
    requires { keep.0 < drop.0 }
    ensures { Merged keep.0 drop.0 els.old els.new }
{
    let both = both_marked(els, keep, drop);
    let k = keep.0 as usize;
    let d = drop.0 as usize;
    if k < els.len() {
        els[k].marked = both;
    }
    if d < els.len() {
        els[d] = El {
            link: keep.0,
            marked: false,
        };
    }
}

// The roots of the elements that a list holds.
pub fn roots(els: &[El], list: ElIds) -> ElIds
    ensures { els_of result ≡ map (root_of (links_in els.now)) (els_of list) }
{
    let k = list.size();
    let mut out = list;
    // By the index: the proof of a loop over a part of the copy did not close.
    for i in 0..k {
        out.ids[i] = find(els, list.ids[i]);
    }
    out
}

// A fact with its element and its parents as roots.
pub fn canonical_fact(els: &[El], fact: Fact) -> Fact
    ensures { fact_of result ≡ canonical_fact (links_in els.now) (fact_of fact) }
{
    let typ = fact.ct.typ;
    let given = fact.ct.parents;
    let el = find(els, fact.el);
    let parents = roots(els, given);
    Fact {
        el,
        ct: ConcreteType { typ, parents },
    }
}

// The facts of an element's class among some facts, with parents as roots, each once, in order: gives how many there are.
pub fn concrete_types_of(els: &[El], facts: &[Fact], el: ElId, types: &mut [Fact]) -> usize
    requires { (length facts.now ≤ max_facts) × (length types.old ≡ max_facts) }
    ensures { TypesOf (links_in els.now) (map fact_of facts.now) el.0 types.new result }
{
    let root = find(els, el);
    let mut k: usize = 0;
    for here in facts {
        if here.el.0 != root.0 {
            continue;
        }
        let entry = canonical_fact(els, *here);
        k = rows::insert(types, k, entry);
    }
    k
}

// An application with its parents, arguments and result as roots.
pub fn canonical_func_app(els: &[El], app: FuncApp) -> FuncApp
    ensures { func_app_of result ≡ canonical_func_app (links_in els.now) (func_app_of app) }
{
    let func = app.func;
    let parents = roots(els, app.parents);
    let args = roots(els, app.args);
    let result = find(els, app.result);
    FuncApp {
        func,
        parents,
        args,
        result,
    }
}

// An application with its parents and arguments as roots.
pub fn canonical_pred_app(els: &[El], app: PredApp) -> PredApp
    ensures { pred_app_of result ≡ canonical_pred_app (links_in els.now) (pred_app_of app) }
{
    let pred = app.pred;
    let parents = roots(els, app.parents);
    let args = roots(els, app.args);
    PredApp {
        pred,
        parents,
        args,
    }
}

// The elements get their links and marks: gives whether one is marked.
pub fn fill_els(els: &mut [El], links: &[u16], marks: &[bool]) -> bool
    requires { (length els.old ≤ length links.now) × (length els.old ≤ length marks.now) }
    ensures { ElsInRows links.now marks.now els.old els.new result }
{
    let mut is_marked = false;
    for (i, el) in els.iter_mut().enumerate() {
        *el = El {
            link: links[i],
            marked: marks[i],
        };
        is_marked = is_marked | marks[i];
    }
    is_marked
}

// The links of the elements; past them the table is as given.
pub fn links_of(els: &[El], links: [u16; Unification::MAX_ELS]) -> [u16; Unification::MAX_ELS]
    requires { length els.now ≤ max_els }
    ensures { take (length els.now) result ≡ links_in els.now }
{
    let mut out = links;
    for (i, el) in els.iter().enumerate() {
        out[i] = el.link;
    }
    out
}

// The marks of the elements; past them the table is as given.
pub fn marks_of(els: &[El], marks: [bool; Unification::MAX_ELS]) -> [bool; Unification::MAX_ELS]
    requires { length els.now ≤ max_els }
    ensures { take (length els.now) result ≡ marks_in els.now }
{
    let mut out = marks;
    for (i, el) in els.iter().enumerate() {
        out[i] = el.marked;
    }
    out
}
