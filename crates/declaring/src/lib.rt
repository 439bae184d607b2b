// The calls of kinds 1 to 5 with the structure beside the signature: its flag decides number 4.
#![tactic(auto)]

ghost use Rattle.std.specs.Prelude.{◌≡◌};
ghost use Rattle.signature.specs.Model.{sig_of, given_type, given_pred, given_func, model_of, mor_app_of};
ghost use Rattle.semantics.specs.Calls.{push_type, push_pred, push_func, push_model, push_mor_app, machine, step};
ghost use Rattle.structure.specs.View.{structure_of};
ghost use Rattle.declaring.specs.View.{declaring_of};

use signature::{Declaring, Func, ModelIds, MorAppFunc, Pred, Signature, Type};
use structure::Structure;

pub fn push_type(structure: Structure, signature: Signature, t: Type) -> Declaring
    ensures { declaring_of (structure_of structure) result ≡ step (push_type (given_type t)) (machine (sig_of signature) (structure_of structure)) }
{
    declarations::push_type(signature, structure.started, t)
}

pub fn push_pred(structure: Structure, signature: Signature, p: Pred) -> Declaring
    ensures { declaring_of (structure_of structure) result ≡ step (push_pred (given_pred p)) (machine (sig_of signature) (structure_of structure)) }
{
    declarations::push_pred(signature, structure.started, p)
}

pub fn push_func(structure: Structure, signature: Signature, f: Func) -> Declaring
    ensures { declaring_of (structure_of structure) result ≡ step (push_func (given_func f)) (machine (sig_of signature) (structure_of structure)) }
{
    declarations::push_func(signature, structure.started, f)
}

pub fn push_model(structure: Structure, signature: Signature, ids: ModelIds) -> Declaring
    ensures { declaring_of (structure_of structure) result ≡ step (push_model (model_of ids)) (machine (sig_of signature) (structure_of structure)) }
{
    declarations::push_model(signature, structure.started, ids)
}

pub fn push_mor_app_func(structure: Structure, signature: Signature, m: MorAppFunc) -> Declaring
    ensures { declaring_of (structure_of structure) result ≡ step (push_mor_app (mor_app_of m)) (machine (sig_of signature) (structure_of structure)) }
{
    declarations::push_mor_app_func(signature, structure.started, m)
}
