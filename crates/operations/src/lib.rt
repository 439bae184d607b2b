// The laws of identities and composites (structure.rs, `morphism_operation_constraints`), on the tables that a close lends.
#![tactic(auto)]

ghost use Rattle.std.specs.Prelude.{◌≡◌, [], ◌∷◌, ◌<◌, length};
ghost use Rattle.ids.specs.Ids.{els_of};
ghost use Rattle.signature.specs.Model.{model_of, view_models, sig_of};
ghost use Rattle.semantics.specs.Structure.{func_app};
ghost use Rattle.semantics.specs.MapLaws.{identity_laws_in, composition_laws_in, map_laws_in, map_laws_of};
ghost use Rattle.semantics.specs.Close.{apply_turn, key_of, give, obey, obey_all};
ghost use Rattle.apps.specs.View.{func_app_of};
ghost use Rattle.el_rows.specs.View.{links_in};
ghost use Rattle.operations.specs.View.{tables, TablesHeld, TurnBy, Equates, Meets, side_of, law_of, ObeysLaws};

use apps::{FuncApp, FuncApps};
use el_rows::El;
use equalities::{Pair, Pairs};
use ids::{ElId, ElIds, FuncId, Place, Refusal};
use merging::Tally;
use signature::{ModelIds, Models, Signature};

// The counts so far, and whether a pass of the round reported work.
#[derive(Clone, Copy)]
pub struct Turn {
    pub counts: Tally,
    pub worked: bool,
}

// A side of an equation: a function, applied to one element.
#[derive(Clone, Copy)]
pub struct Side {
    pub func: FuncId,
    pub el: ElId,
}

// Over the parents two sides are equal.
#[derive(Clone, Copy)]
pub struct Equation {
    pub parents: ElIds,
    pub left: Side,
    pub right: Side,
}

// Finds both roots, so that paths shorten, and queues the pair as given: whether the roots differ.
fn equate(els: &mut [El], pairs: &mut [Pair], at: usize, pair: Pair) -> bool
    requires { at < length pairs.old }
    ensures { Equates at pair els.old els.new pairs.old pairs.new result }
{
    let a = el_rows::root(els, pair.lhs);
    let b = el_rows::root(els, pair.rhs);
    pairs[at] = pair;
    a.0 != b.0
}

// A number is met: the one met first stays.
fn meets(counts: Tally, number: u16) -> Tally
    ensures { Meets number counts result }
{
    let mut next = counts;
    next.met = counts.met.or(Some(number));
    next
}

// An application, or the equality of its result with the one that is stored. Where an entry is needed and its table is at its limit, number 9
// is met.
fn insert_func_app_or_equate(
    els: &mut [El],
    apps: &mut [FuncApp],
    pairs: &mut [Pair],
    turn: Turn,
    app: FuncApp,
) -> Turn
    requires { TablesHeld (tables els.old apps.old pairs.old turn) }
    ensures { TurnBy (tables els.old apps.old pairs.old turn)
        (tables els.new apps.new pairs.new result) (apply_turn (func_app_of app)) }
{
    let counts = turn.counts;
    let mut next = counts;
    let k = counts.func_apps as usize;
    let entry = el_rows::canonical_func_app(els, app);
    match rows::position(&apps[..k], entry) {
        Place::Before(at) => {
            if FuncApps::MAX_LEN <= k {
                return Turn {
                    counts: meets(counts, Refusal::NO_ROOM),
                    worked: turn.worked,
                };
            }
            rows::place(apps, k, at, entry);
            next.func_apps = counts.func_apps + 1;
            Turn {
                counts: next,
                worked: true,
            }
        }
        Place::At(at) => {
            let stored = apps[at].result;
            if stored.0 == entry.result.0 {
                return turn;
            }
            if Pairs::MAX_LEN <= counts.pairs as usize {
                return Turn {
                    counts: meets(counts, Refusal::NO_ROOM),
                    worked: turn.worked,
                };
            }
            let pair = Pair {
                lhs: stored,
                rhs: entry.result,
            };
            let differ = equate(els, pairs, counts.pairs as usize, pair);
            next.pairs = counts.pairs + 1;
            Turn {
                counts: next,
                worked: turn.worked | differ,
            }
        }
    }
}

// An application to one element.
fn unary(func: FuncId, parents: ElIds, el: ElId, res: ElId) -> FuncApp
    ensures { func_app_of result ≡ func_app func.0 (els_of parents) (el.0 ∷ []) res.0 }
{
    FuncApp {
        func,
        parents,
        args: ElIds {
            ids: [el; ElIds::MAX_LEN],
            len: 1,
        },
        result: res,
    }
}

// What a side is looked up under: the parents as they are stored, the element's root.
fn key_of(els: &[El], parents: ElIds, side: Side) -> FuncApp
    ensures { func_app_of result ≡ key_of (links_in els.now) (els_of parents) (side_of side) }
{
    let root = el_rows::find(els, side.el);
    unary(side.func, parents, root, ElId(0))
}

// The value at one key, if there is one, is the value at another too.
fn give(
    els: &mut [El],
    apps: &mut [FuncApp],
    pairs: &mut [Pair],
    turn: Turn,
    from: FuncApp,
    to: FuncApp,
) -> Turn
    requires { TablesHeld (tables els.old apps.old pairs.old turn) }
    ensures { TurnBy (tables els.old apps.old pairs.old turn)
        (tables els.new apps.new pairs.new result) (give (func_app_of from) (func_app_of to)) }
{
    let known = turn.counts.func_apps as usize;
    let Place::At(at) = rows::position(&apps[..known], from) else {
        return turn;
    };
    let mut app = to;
    app.result = apps[at].result;
    insert_func_app_or_equate(els, apps, pairs, turn, app)
}

// Two sides made equal: the value of the left one is given to the right one, then that of the right to the left.
fn agree(
    els: &mut [El],
    apps: &mut [FuncApp],
    pairs: &mut [Pair],
    turn: Turn,
    equation: Equation,
) -> Turn
    requires { TablesHeld (tables els.old apps.old pairs.old turn) }
    ensures { TurnBy (tables els.old apps.old pairs.old turn)
        (tables els.new apps.new pairs.new result) (obey (law_of equation)) }
{
    let parents = equation.parents;
    let left = key_of(els, parents, equation.left);
    let right = key_of(els, parents, equation.right);
    let there = give(els, apps, pairs, turn, left, right);
    give(els, apps, pairs, there, right, left)
}

// id(P; a) = r gives dom(P; r) = a and cod(P; r) = a.
fn identity_laws(
    els: &mut [El],
    apps: &mut [FuncApp],
    pairs: &mut [Pair],
    turn: Turn,
    ids: ModelIds,
    app: FuncApp,
) -> Turn
    requires { TablesHeld (tables els.old apps.old pairs.old turn) }
    ensures { TurnBy (tables els.old apps.old pairs.old turn)
        (tables els.new apps.new pairs.new result) (obey_all (identity_laws_in (model_of ids) (func_app_of app))) }
{
    if app.func.0 != ids.id.0 {
        return turn;
    }
    let args = app.args;
    if args.size() != 1 {
        return turn;
    }
    let parents = app.parents;
    let arg = args.ids[0];
    let dom = unary(ids.dom, parents, app.result, arg);
    let next = insert_func_app_or_equate(els, apps, pairs, turn, dom);
    let cod = unary(ids.cod, parents, app.result, arg);
    insert_func_app_or_equate(els, apps, pairs, next, cod)
}

// comp(P; f, g) = h gives dom(P; f) = dom(P; h), cod(P; g) = cod(P; h) and cod(P; f) = dom(P; g).
fn composition_laws(
    els: &mut [El],
    apps: &mut [FuncApp],
    pairs: &mut [Pair],
    turn: Turn,
    ids: ModelIds,
    app: FuncApp,
) -> Turn
    requires { TablesHeld (tables els.old apps.old pairs.old turn) }
    ensures { TurnBy (tables els.old apps.old pairs.old turn)
        (tables els.new apps.new pairs.new result) (obey_all (composition_laws_in (model_of ids) (func_app_of app))) }
{
    if app.func.0 != ids.comp.0 {
        return turn;
    }
    let args = app.args;
    if args.size() != 2 {
        return turn;
    }
    let parents = app.parents;
    let dom = ids.dom;
    let cod = ids.cod;
    let f = args.ids[0];
    let g = args.ids[1];
    let h = app.result;
    let doms = Equation {
        parents,
        left: Side { func: dom, el: f },
        right: Side { func: dom, el: h },
    };
    let first = agree(els, apps, pairs, turn, doms);
    let cods = Equation {
        parents,
        left: Side { func: cod, el: g },
        right: Side { func: cod, el: h },
    };
    let second = agree(els, apps, pairs, first, cods);
    let middle = Equation {
        parents,
        left: Side { func: cod, el: f },
        right: Side { func: dom, el: g },
    };
    agree(els, apps, pairs, second, middle)
}

// The laws of one application in one model.
fn laws_in(
    els: &mut [El],
    apps: &mut [FuncApp],
    pairs: &mut [Pair],
    turn: Turn,
    ids: ModelIds,
    app: FuncApp,
) -> Turn
    requires { TablesHeld (tables els.old apps.old pairs.old turn) }
    ensures { TurnBy (tables els.old apps.old pairs.old turn)
        (tables els.new apps.new pairs.new result) (obey_all (map_laws_in (model_of ids) (func_app_of app))) }
{
    let next = identity_laws(els, apps, pairs, turn, ids, app);
    composition_laws(els, apps, pairs, next, ids, app)
}

// Its laws in each model.
fn laws_of(
    els: &mut [El],
    apps: &mut [FuncApp],
    pairs: &mut [Pair],
    turn: Turn,
    models: Models,
    app: FuncApp,
) -> Turn
    requires { TablesHeld (tables els.old apps.old pairs.old turn) }
    ensures { TurnBy (tables els.old apps.old pairs.old turn)
        (tables els.new apps.new pairs.new result) (obey_all (map_laws_of (view_models models) (func_app_of app))) }
{
    let n = models.size() as usize;
    let mut now = turn;
    for i in 0..n {
        let ids = models.items[i];
        now = laws_in(els, apps, pairs, now, ids, app);
    }
    now
}

// Each law of the applications that the pass begins with, in order, carried out on the tables as they are then.
pub fn morphism_operation_constraints(
    els: &mut [El],
    apps: &mut [FuncApp],
    pairs: &mut [Pair],
    turn: Turn,
    signature: Signature,
) -> Turn
    requires { TablesHeld (tables els.old apps.old pairs.old turn) }
    ensures { ObeysLaws (sig_of signature) (tables els.old apps.old pairs.old turn)
        (tables els.new apps.new pairs.new result) }
{
    let models = signature.models;
    // Most sheets have no model, and the copy costs a table.
    if models.size() == 0 {
        return turn;
    }
    let n = turn.counts.func_apps as usize;
    let none = FuncApp::new(FuncId(0), ElIds::new(), ElIds::new(), ElId(0));
    let mut snapshot = [none; FuncApps::MAX_LEN];
    snapshot[..n].copy_from_slice(&apps[..n]);
    let mut now = turn;
    for app in &snapshot[..n] {
        now = laws_of(els, apps, pairs, now, models, *app);
    }
    now
}
