// The facts that the signature demands of the arguments and results of applications (structure.rs, `typing`), on the tables that a close lends.
#![tactic(auto)]

ghost use Rattle.std.specs.Prelude.{◌≡◌, ◌*◌, ◌≤◌, length, map, take};
ghost use Rattle.ids.specs.Ids.{els_of};
ghost use Rattle.signature.specs.Model.{Sig, sig_of, view_types, view_funcs, view_preds};
ghost use Rattle.semantics.specs.Structure.{max_func_apps, max_pred_apps};
ghost use Rattle.semantics.specs.Types.{impose_all};
ghost use Rattle.semantics.specs.Close.{demands};
ghost use Rattle.apps.specs.View.{func_app_of, pred_app_of};
ghost use Rattle.merging.specs.View.{lent, LentHeld, RoomToCount, Passes};
ghost use Rattle.typing.specs.Bounds.{one_demand, all_demands};
ghost use Rattle.typing.specs.Rows.{DemandM, demand_of, of_func_args, of_pred_args, of_func_result, all_asked, DemandImposed};

use apps::{FuncApp, PredApp};
use el_rows::El;
use equalities::Pair;
use facts::{ConcreteType, Fact};
use ids::{ElIds, TypeIds};
use merging::Tally;
use signature::{Funcs, Preds, Signature, Typed, Types};

// What one application is asked: the types that elements are to have, with the parents that are given.
#[derive(Clone, Copy)]
pub struct Demand {
    pub expected: TypeIds,
    pub parents: ElIds,
    pub els: ElIds,
}

// The leading parents, as many as a type has.
fn leading(parents: ElIds, n: u16) -> ElIds
    ensures { els_of result ≡ take n (els_of parents) }
{
    let mut first = parents;
    if n < parents.len {
        first.len = n;
    }
    first
}

fn func_args(funcs: Funcs, app: FuncApp) -> Demand
    ensures { demand_of result ≡ of_func_args (view_funcs funcs) (func_app_of app) }
{
    let func = funcs.get(app.func);
    let expected = func.domain;
    let parents = app.parents;
    let els = app.args;
    Demand {
        expected,
        parents,
        els,
    }
}

fn pred_args(preds: Preds, app: PredApp) -> Demand
    ensures { demand_of result ≡ of_pred_args (view_preds preds) (pred_app_of app) }
{
    let pred = preds.get(app.pred);
    let expected = pred.arity;
    let parents = app.parents;
    let els = app.args;
    Demand {
        expected,
        parents,
        els,
    }
}

fn func_result(funcs: Funcs, app: FuncApp) -> Demand
    ensures { demand_of result ≡ of_func_result (view_funcs funcs) (func_app_of app) }
{
    let func = funcs.get(app.func);
    let codomain = func.codomain;
    let expected = TypeIds {
        ids: [codomain; TypeIds::MAX_LEN],
        len: 1,
    };
    let parents = app.parents;
    let result = app.result;
    let els = ElIds {
        ids: [result; ElIds::MAX_LEN],
        len: 1,
    };
    Demand {
        expected,
        parents,
        els,
    }
}

// The elements of a demand with the types that are expected: an element past their end gets none.
fn impose_demand(
    els: &mut [El],
    facts: &mut [Fact],
    pairs: &[Pair],
    counts: Tally,
    types: Types,
    demand: Demand,
) -> Tally
    requires { LentHeld (lent els.old facts.old pairs.now counts) × RoomToCount one_demand counts }
    ensures { DemandImposed types demand (lent els.old facts.old pairs.now counts)
        (lent els.new facts.new pairs.now result) }
{
    let expected = demand.expected;
    let parents = demand.parents;
    let listed = demand.els;
    let n = expected.size();
    let k = listed.size();
    let given = parents.size() as u16;
    let mut now = counts;
    // Paired by the index, up to the shorter list.
    for i in 0..n {
        if k <= i {
            continue;
        }
        let el = listed.ids[i];
        let Typed::At(typ, count) = types.concrete_type_at(expected.ids[i], given) else {
            continue;
        };
        let fact = Fact {
            el,
            ct: ConcreteType {
                typ,
                parents: leading(parents, count),
            },
        };
        now = imposing::impose_concrete_type(els, facts, pairs, now, fact);
    }
    now
}

// What each application is asked, one after the other.
fn impose_demands<A: Copy, F: Fn(A) -> Demand>(
    els: &mut [El],
    facts: &mut [Fact],
    pairs: &[Pair],
    counts: Tally,
    types: &Types,
    apps: &[A],
    ask: F,
) -> Tally
    requires callable { F.IsAlwaysCallable ask }
    requires held { LentHeld (lent els.old facts.old pairs.now counts) × RoomToCount (length apps.now * one_demand) counts }
    ensures { (g : Sig) → g.types ≡ view_types types.now → (asked : A → DemandM) → ((app : A) (r : _) → F.post ask app r → demand_of r ≡ asked app)
        → Passes (lent els.old facts.old pairs.now counts) (lent els.new facts.new pairs.now result)
        (length apps.now * one_demand) (impose_all (all_asked g asked apps.now)) }
{
    let mut now = counts;
    for app in apps {
        now = impose_demand(els, facts, pairs, now, *types, ask(*app));
    }
    now
}

// Function arguments, predicate arguments, function results.
pub fn typing(
    els: &mut [El],
    facts: &mut [Fact],
    pairs: &[Pair],
    counts: Tally,
    signature: Signature,
    apps: &[FuncApp],
    preds: &[PredApp],
) -> Tally
    requires { LentHeld (lent els.old facts.old pairs.now counts) × (RoomToCount all_demands counts
        × ((length apps.now ≤ max_func_apps) × (length preds.now ≤ max_pred_apps))) }
    ensures { Passes (lent els.old facts.old pairs.now counts)
        (lent els.new facts.new pairs.now result) all_demands
        (impose_all (demands (sig_of signature) (map func_app_of apps.now) (map pred_app_of preds.now))) }
{
    let args_demand = |app: FuncApp| func_args(signature.funcs, app);
    let pred_demand = |app: PredApp| pred_args(signature.preds, app);
    let result_demand = |app: FuncApp| func_result(signature.funcs, app);
    let types = &signature.types;
    let first = impose_demands(els, facts, pairs, counts, types, apps, args_demand);
    let second = impose_demands(els, facts, pairs, first, types, preds, pred_demand);
    impose_demands(els, facts, pairs, second, types, apps, result_demand)
}
