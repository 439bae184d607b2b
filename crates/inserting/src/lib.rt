// The calls of kinds 8, 9 and 10: an imposition, a function application and a predicate application.
#![tactic(auto)]

ghost use Rattle.std.specs.Prelude.{◌≡◌};
ghost use Rattle.signature.specs.Model.{sig_of, model_of, view_types, view_models};
ghost use Rattle.semantics.specs.Calls.{has_its_parents, is_id_or_comp, is_reserved, misapplies, is_misapplied, impose_type, apply_func, apply_pred, machine, step};
ghost use Rattle.apps.specs.View.{func_app_of, pred_app_of};
ghost use Rattle.structure.specs.View.{structure_of, step_of};
ghost use Rattle.facts.specs.View.{fact_of, given_fact};
ghost use Rattle.inserting.specs.View.{given_func_app, given_pred_app, fact_declared, fact_within, app_declared, app_within, pred_app_declared, pred_app_within};

use apps::{FuncApp, PredApp};
use facts::Fact;
use ids::{FuncId, Refusal, Verdict};
use signature::{ModelIds, Models, Signature, Types};
use structure::{Answer, Stepped, Structure};

// Kind 8: a fact is queued, as roots, to be imposed.
pub fn impose_type(structure: Structure, signature: Signature, fact: Fact) -> Stepped
    ensures { step_of (sig_of signature) result ≡ step (impose_type (given_fact fact)) (machine (sig_of signature) (structure_of structure)) }
{
    let parents = fact.ct.parents;
    let types = signature.types;
    let queue = structure.pending_type_impositions;
    let entry = canonical::canonical_fact(structure.unification, fact);
    let queued = queue.contains(entry);
    let full = ids::and(!queued, Structure::MAX_IMPOSITIONS <= queue.size());
    let declared = fact_is_declared(structure, signature, fact);
    let counted = has_its_parents(types, fact);
    let verdict = Verdict::Accepted;
    let verdict = verdict.refuse_if(Refusal::MALFORMED, parents.is_too_long());
    let verdict = verdict.refuse_if(Refusal::UNDECLARED, !declared);
    let verdict = verdict.refuse_if(Refusal::WRONG_PARENT_COUNT, !counted);
    let verdict = verdict.refuse_if(Refusal::NO_ROOM, full);
    if let Verdict::Refused(number) = verdict {
        return structure.refuse(number);
    }
    if queued {
        return structure.accept(Answer::Says(false));
    }
    let mut next = structure;
    next.pending_type_impositions = queue.push(entry);
    next.accept(Answer::Says(true))
}

// Kind 9: a function application, or the equality of its result with the one that is stored.
pub fn insert_func_app_or_equate(
    structure: Structure,
    signature: Signature,
    app: FuncApp,
) -> Stepped
    ensures { step_of (sig_of signature) result ≡ step (apply_func (given_func_app app)) (machine (sig_of signature) (structure_of structure)) }
{
    let parents = app.parents;
    let args = app.args;
    let u = structure.unification;
    let pairs = structure.pending_equalities;
    let table = structure.func_apps;
    let models = signature.models;
    let applied = applying::insert_func_app_or_equate(u, pairs, table, app);
    let long = ids::or(parents.is_too_long(), args.is_too_long());
    let declared = app_is_declared(structure, signature, app);
    let verdict = Verdict::Accepted;
    let verdict = verdict.refuse_if(Refusal::MALFORMED, long);
    let verdict = verdict.refuse_if(Refusal::UNDECLARED, !declared);
    let verdict = verdict.refuse_if(Refusal::RESERVED, is_reserved(signature, app.func));
    let verdict = verdict.refuse_if(Refusal::WRONG_ARG_COUNT, is_misapplied(models, app));
    let verdict = verdict.refuse_if(Refusal::NO_ROOM, applied.full);
    if let Verdict::Refused(number) = verdict {
        return structure.refuse(number);
    }
    let unification = applied.unification;
    let queued = applied.pairs;
    let func_apps = applied.func_apps;
    let mut next = structure;
    next.unification = unification;
    next.pending_equalities = queued;
    next.func_apps = func_apps;
    next.accept(Answer::Says(applied.yes))
}

// Kind 10: a predicate application, as given.
pub fn insert_pred_app(structure: Structure, signature: Signature, app: PredApp) -> Stepped
    ensures { step_of (sig_of signature) result ≡ step (apply_pred (given_pred_app app)) (machine (sig_of signature) (structure_of structure)) }
{
    let parents = app.parents;
    let args = app.args;
    let table = structure.pred_apps;
    let inserted = table.insert(app);
    let long = ids::or(parents.is_too_long(), args.is_too_long());
    let declared = pred_app_is_declared(structure, signature, app);
    let verdict = Verdict::Accepted;
    let verdict = verdict.refuse_if(Refusal::MALFORMED, long);
    let verdict = verdict.refuse_if(Refusal::UNDECLARED, !declared);
    let verdict = verdict.refuse_if(Refusal::NO_ROOM, inserted.full);
    if let Verdict::Refused(number) = verdict {
        return structure.refuse(number);
    }
    let pred_apps = inserted.pred_apps;
    let mut next = structure;
    next.pred_apps = pred_apps;
    next.accept(Answer::Says(inserted.grew))
}

// Whether a fact can be made of what is declared.
fn fact_is_declared(structure: Structure, signature: Signature, fact: Fact) -> bool
    ensures { result ≡ fact_declared (sig_of signature) (structure_of structure) (fact_of fact) }
{
    let u = structure.unification;
    let types = signature.types;
    fact_is_within(fact, u.size() as u16, types.size())
}

// Whether a fact names elements and a type, where there are so many.
pub fn fact_is_within(fact: Fact, els: u16, types: u16) -> bool
    ensures { result ≡ fact_within els types (fact_of fact) }
{
    let parents = fact.ct.parents;
    let named = ids::and(fact.ct.typ.0 < types, parents.all_below(els));
    ids::and(fact.el.0 < els, named)
}

// Whether a fact has as many parents as its type.
pub fn has_its_parents(types: Types, fact: Fact) -> bool
    ensures { result ≡ has_its_parents (view_types types) (fact_of fact) }
{
    let parents = fact.ct.parents;
    let given = parents.size() as u16;
    given == types.parent_count(fact.ct.typ)
}

// Whether a predicate application can be made of what is declared.
fn pred_app_is_declared(structure: Structure, signature: Signature, app: PredApp) -> bool
    ensures { result ≡ pred_app_declared (sig_of signature) (structure_of structure) (pred_app_of app) }
{
    let u = structure.unification;
    let preds = signature.preds;
    pred_app_is_within(app, u.size() as u16, preds.size())
}

// Whether a predicate application names elements and a predicate, where there are so many.
pub fn pred_app_is_within(app: PredApp, els: u16, preds: u16) -> bool
    ensures { result ≡ pred_app_within els preds (pred_app_of app) }
{
    let parents = app.parents;
    let args = app.args;
    let named = ids::and(parents.all_below(els), args.all_below(els));
    ids::and(app.pred.0 < preds, named)
}

// Whether an application can be made of what is declared.
fn app_is_declared(structure: Structure, signature: Signature, app: FuncApp) -> bool
    ensures { result ≡ app_declared (sig_of signature) (structure_of structure) (func_app_of app) }
{
    let u = structure.unification;
    let funcs = signature.funcs;
    app_is_within(app, u.size() as u16, funcs.size())
}

// Whether an application names elements and a function, where there are so many.
pub fn app_is_within(app: FuncApp, els: u16, funcs: u16) -> bool
    ensures { result ≡ app_within els funcs (func_app_of app) }
{
    let parents = app.parents;
    let args = app.args;
    let found = ids::and(args.all_below(els), app.result.0 < els);
    let named = ids::and(parents.all_below(els), found);
    ids::and(app.func.0 < funcs, named)
}

// Whether a model names this function as id or comp.
fn is_id_or_comp(models: Models, func: FuncId) -> bool
    ensures { result ≡ is_id_or_comp func.0 (view_models models) }
{
    let n = models.size();
    for i in 0..n {
        let at = i as usize;
        let ids = models.items[at];
        if func.0 == ids.id.0 {
            return true;
        }
        if func.0 == ids.comp.0 {
            return true;
        }
    }
    false
}

// Whether a function may not be applied: one of record 5, or id or comp where a record 5 stands.
pub fn is_reserved(signature: Signature, func: FuncId) -> bool
    ensures { result ≡ is_reserved (sig_of signature) func.0 }
{
    let models = signature.models;
    let mor_app_funcs = signature.mor_app_funcs;
    let stands = 0 < mor_app_funcs.size();
    let operation = ids::and(is_id_or_comp(models, func), stands);
    ids::or(mor_app_funcs.has_func(func), operation)
}

// Whether it is an application of this model's id without exactly one argument, or of its comp without exactly two.
fn misapplies(ids: ModelIds, app: FuncApp) -> bool
    ensures { result ≡ misapplies (model_of ids) (func_app_of app) }
{
    let args = app.args;
    let count = args.size();
    let identity = ids::and(app.func.0 == ids.id.0, count != 1);
    let composite = ids::and(app.func.0 == ids.comp.0, count != 2);
    ids::or(identity, composite)
}

// Whether it is so for some model.
pub fn is_misapplied(models: Models, app: FuncApp) -> bool
    ensures { result ≡ is_misapplied (func_app_of app) (view_models models) }
{
    let n = models.size();
    for i in 0..n {
        let at = i as usize;
        let ids = models.items[at];
        if misapplies(ids, app) {
            return true;
        }
    }
    false
}
