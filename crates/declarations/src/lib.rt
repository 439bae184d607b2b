// The calls of kinds 1 to 5, with the structure's flag for number 4 beside the signature.
#![tactic(auto)]

ghost use Rattle.std.specs.Prelude.{◌≡◌};
ghost use Rattle.signature.specs.Model.{kind_of, model_of, mor_app_of, sig_of, given_type, given_pred, given_func};
ghost use Rattle.signature.specs.Calls.{model_declared, model_is_model, functions, model_ids_declared, function_given, repeats, any_given};
ghost use Rattle.signature.specs.Calls.{push_type, push_pred, push_func, push_model, push_mor_app, declared};

use ids::{FuncId, Refusal, Verdict};
use signature::{Declared, Declaring, Func, ModelIds, MorAppFunc, Pred, Signature, Type, TypeKind};

// Whether the model type that a kind names, if it names one, is declared.
fn model_is_declared(signature: Signature, kind: TypeKind) -> bool
    ensures { result ≡ model_declared (sig_of signature) (kind_of kind) }
{
    match kind {
        TypeKind::Plain => true,
        TypeKind::Model => true,
        TypeKind::Enum => true,
        TypeKind::Mor(m) => signature.is_type(m),
    }
}

// Whether the model type that a kind names, if it names one, is of kind Model.
fn model_is_model(signature: Signature, kind: TypeKind) -> bool
    ensures { result ≡ model_is_model (sig_of signature) (kind_of kind) }
{
    match kind {
        TypeKind::Plain => true,
        TypeKind::Model => true,
        TypeKind::Enum => true,
        TypeKind::Mor(m) => signature.is_model(m),
    }
}

// Whether a record of kind 4 or 5 named this function.
fn is_given(signature: Signature, f: FuncId) -> bool
    ensures { result ≡ function_given (sig_of signature) f.0 }
{
    let models = signature.models;
    let mor_app_funcs = signature.mor_app_funcs;
    ids::or(models.has_func(f), mor_app_funcs.has_func(f))
}

// Whether a function that the model names was given before.
fn any_is_given(signature: Signature, ids: ModelIds) -> bool
    ensures { result ≡ any_given (sig_of signature) (functions (model_of ids)) }
{
    let given = ids::or(is_given(signature, ids.id), is_given(signature, ids.comp));
    let given = ids::or(is_given(signature, ids.cod), given);
    ids::or(is_given(signature, ids.dom), given)
}

// Whether the model names a function twice.
fn repeats(ids: ModelIds) -> bool
    ensures { result ≡ repeats (functions (model_of ids)) }
{
    let dom = ids::or(ids.dom.0 == ids.id.0, ids.dom.0 == ids.comp.0);
    let dom = ids::or(ids.dom.0 == ids.cod.0, dom);
    let cod = ids::or(ids.cod.0 == ids.id.0, ids.cod.0 == ids.comp.0);
    let later = ids::or(cod, ids.id.0 == ids.comp.0);
    ids::or(dom, later)
}

// Whether every number that a model names is declared.
fn model_ids_are_declared(signature: Signature, ids: ModelIds) -> bool
    ensures { result ≡ model_ids_declared (sig_of signature) (model_of ids) }
{
    let known = ids::and(signature.is_func(ids.id), signature.is_func(ids.comp));
    let known = ids::and(signature.is_func(ids.cod), known);
    let known = ids::and(signature.is_func(ids.dom), known);
    let known = ids::and(signature.is_type(ids.mor), known);
    ids::and(signature.is_type(ids.type_), known)
}

// Kind 1. `started` says that a call of kinds 6 to 15 was accepted.
pub fn push_type(signature: Signature, started: bool, t: Type) -> Declaring
    ensures { declared result ≡ push_type started (sig_of signature) (given_type t) }
{
    let types = signature.types;
    let n = types.size();
    let parents = t.parents;
    let kind = t.kind;
    let named = ids::and(
        signature.are_types(parents),
        model_is_declared(signature, kind),
    );
    let verdict = Verdict::Accepted;
    let verdict = verdict.refuse_if(Refusal::MALFORMED, parents.is_too_long());
    let verdict = verdict.refuse_if(Refusal::TOO_LATE, started);
    let verdict = verdict.refuse_if(Refusal::UNDECLARED, !named);
    let verdict = verdict.refuse_if(Refusal::WRONG_KIND, !model_is_model(signature, kind));
    let verdict = verdict.refuse_if(Refusal::NO_ROOM, Signature::MAX_TYPES as u16 <= n);
    if let Verdict::Refused(number) = verdict {
        return Declaring {
            answer: Declared::Refused(number),
            signature,
        };
    }
    let mut next = signature;
    next.types = types.push(t);
    Declaring {
        answer: Declared::Number(n),
        signature: next,
    }
}

// Kind 2.
pub fn push_pred(signature: Signature, started: bool, p: Pred) -> Declaring
    ensures { declared result ≡ push_pred started (sig_of signature) (given_pred p) }
{
    let preds = signature.preds;
    let n = preds.size();
    let parents = p.parents;
    let arity = p.arity;
    let long = ids::or(parents.is_too_long(), arity.is_too_long());
    let known = ids::and(signature.are_types(parents), signature.are_types(arity));
    let verdict = Verdict::Accepted;
    let verdict = verdict.refuse_if(Refusal::MALFORMED, long);
    let verdict = verdict.refuse_if(Refusal::TOO_LATE, started);
    let verdict = verdict.refuse_if(Refusal::UNDECLARED, !known);
    let verdict = verdict.refuse_if(Refusal::NO_ROOM, Signature::MAX_PREDS as u16 <= n);
    if let Verdict::Refused(number) = verdict {
        return Declaring {
            answer: Declared::Refused(number),
            signature,
        };
    }
    let mut next = signature;
    next.preds = preds.push(p);
    Declaring {
        answer: Declared::Number(n),
        signature: next,
    }
}

// Kind 3.
pub fn push_func(signature: Signature, started: bool, f: Func) -> Declaring
    ensures { declared result ≡ push_func started (sig_of signature) (given_func f) }
{
    let funcs = signature.funcs;
    let n = funcs.size();
    let parents = f.parents;
    let domain = f.domain;
    let long = ids::or(parents.is_too_long(), domain.is_too_long());
    let known = ids::and(signature.are_types(domain), signature.is_type(f.codomain));
    let known = ids::and(signature.are_types(parents), known);
    let verdict = Verdict::Accepted;
    let verdict = verdict.refuse_if(Refusal::MALFORMED, long);
    let verdict = verdict.refuse_if(Refusal::TOO_LATE, started);
    let verdict = verdict.refuse_if(Refusal::UNDECLARED, !known);
    let verdict = verdict.refuse_if(Refusal::NO_ROOM, Signature::MAX_FUNCS as u16 <= n);
    if let Verdict::Refused(number) = verdict {
        return Declaring {
            answer: Declared::Refused(number),
            signature,
        };
    }
    let mut next = signature;
    next.funcs = funcs.push(f);
    Declaring {
        answer: Declared::Number(n),
        signature: next,
    }
}

// Kind 4.
pub fn push_model(signature: Signature, started: bool, ids: ModelIds) -> Declaring
    ensures { declared result ≡ push_model started (sig_of signature) (model_of ids) }
{
    let models = signature.models;
    let n = models.size();
    let known = model_ids_are_declared(signature, ids);
    let kinds = ids::and(
        signature.is_model(ids.type_),
        signature.is_mor_of(ids.type_, ids.mor),
    );
    let again = ids::or(repeats(ids), any_is_given(signature, ids));
    let again = ids::or(models.has_type(ids.type_), again);
    let verdict = Verdict::Accepted;
    let verdict = verdict.refuse_if(Refusal::TOO_LATE, started);
    let verdict = verdict.refuse_if(Refusal::UNDECLARED, !known);
    let verdict = verdict.refuse_if(Refusal::WRONG_KIND, !kinds);
    let verdict = verdict.refuse_if(Refusal::GIVEN_AGAIN, again);
    let verdict = verdict.refuse_if(Refusal::NO_ROOM, Signature::MAX_MODELS as u16 <= n);
    if let Verdict::Refused(number) = verdict {
        return Declaring {
            answer: Declared::Refused(number),
            signature,
        };
    }
    let mut next = signature;
    next.models = models.push(ids);
    Declaring {
        answer: Declared::Number(n),
        signature: next,
    }
}

// Kind 5.
pub fn push_mor_app_func(signature: Signature, started: bool, m: MorAppFunc) -> Declaring
    ensures { declared result ≡ push_mor_app started (sig_of signature) (mor_app_of m) }
{
    let mor_app_funcs = signature.mor_app_funcs;
    let n = mor_app_funcs.size();
    let types = m.types;
    let morphism = types.morphism_type;
    let known = ids::and(
        signature.is_type(morphism),
        signature.is_type(types.member_type),
    );
    let known = ids::and(signature.is_func(m.func), known);
    let again = ids::or(is_given(signature, m.func), mor_app_funcs.has_types(types));
    let verdict = Verdict::Accepted;
    let verdict = verdict.refuse_if(Refusal::TOO_LATE, started);
    let verdict = verdict.refuse_if(Refusal::UNDECLARED, !known);
    let verdict = verdict.refuse_if(Refusal::WRONG_KIND, !signature.is_mor(morphism));
    let verdict = verdict.refuse_if(Refusal::GIVEN_AGAIN, again);
    let verdict = verdict.refuse_if(Refusal::NO_ROOM, Signature::MAX_MOR_APPS as u16 <= n);
    if let Verdict::Refused(number) = verdict {
        return Declaring {
            answer: Declared::Refused(number),
            signature,
        };
    }
    let mut next = signature;
    next.mor_app_funcs = mor_app_funcs.push(m);
    Declaring {
        answer: Declared::Number(n),
        signature: next,
    }
}
