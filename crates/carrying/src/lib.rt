// One record carried out: the call that it makes, and what that answers.
#![tactic(auto)]

ghost use Rattle.std.specs.Prelude.{◌≡◌, [], ◌≤◌, min, take};
ghost use Rattle.ids.specs.Ids.{given_els, given_types};
ghost use Rattle.ids.specs.Limits.{max_list};
ghost use Rattle.signature.specs.Model.{kind_of, sig_of};
ghost use Rattle.semantics.specs.Calls as calls;
ghost use Rattle.semantics.specs.Calls.{answers};
ghost use Rattle.semantics.specs.Sheet as sheet;
ghost use Rattle.structure.specs.View.{structure_of, machine_of, answer_of, step_of};
ghost use Rattle.declaring.specs.View.{declaring_of};
ghost use Rattle.records.specs.View.{record_view};
ghost use Rattle.conflicts.specs.View.{conflicts_of, given_conflicts, held_conflicting};
ghost use Rattle.carrying.specs.View.{carried_of, with_conflicts, form_step};

use apps::{FuncApp, PredApp};
use bindings::{AmbientEl, VarEl};
use conflicts::{Conflicting, TypeConflicts};
use facts::Fact;
use ids::{ElId, ElIds, FuncId, PredId, Refusal, TypeId, TypeIds};
use records::Record;
use signature::{
    Declared, Declaring, Func, ModelIds, MorAppFunc, MorphismMemberTypes, Pred, Type, TypeKind,
};
use structure::{Answer, Machine, Stepped};

// What a record's call answers; conflicts stand beside it, and none beside another answer. `Answer` does not hold them: it is
// declared below them, and is a few words.
#[derive(Clone, Copy)]
pub struct Carried {
    pub answer: Answer,
    pub conflicts: TypeConflicts,
    pub machine: Machine,
}

// The first n of the slots; a count over the limit counts as the limit.
fn types_in(slots: [u16; TypeIds::MAX_LEN], n: u16) -> TypeIds
    ensures { given_types result ≡ take n slots }
{
    TypeIds {
        ids: slots.map(TypeId),
        len: n.min(TypeIds::MAX_LEN as u16),
    }
}

fn els_in(slots: [u16; ElIds::MAX_LEN], n: u16) -> ElIds
    ensures { given_els result ≡ take n slots }
{
    ElIds {
        ids: slots.map(ElId),
        len: n.min(ElIds::MAX_LEN as u16),
    }
}

// The kind of a type: A, and B as the model of a Mor.
pub fn type_kind(a: u16, b: u16) -> TypeKind
    ensures { kind_of result ≡ sheet.kind_of a b }
{
    match a {
        0 => TypeKind::Plain,
        1 => TypeKind::Model,
        2 => TypeKind::Enum,
        _ => TypeKind::Mor(TypeId(b)),
    }
}

// An answer with no conflicts beside it.
fn answered(machine: Machine, answer: Answer) -> Carried
    ensures { carried_of result ≡ with_conflicts (answers (answer_of [] answer) (machine_of machine)) }
{
    Carried {
        answer,
        conflicts: TypeConflicts::new(),
        machine,
    }
}

// What a record answers after its call.

fn after_declaring(machine: Machine, d: Declaring) -> Carried
    ensures { carried_of result ≡ with_conflicts (declaring_of (structure_of machine.structure) d) }
{
    let answer = match d.answer {
        Declared::Number(n) => Answer::Number(n),
        Declared::Refused(n) => Answer::Refused(n),
    };
    answered(
        Machine {
            signature: d.signature,
            structure: machine.structure,
        },
        answer,
    )
}

fn after_step(machine: Machine, stepped: Stepped) -> Carried
    ensures { carried_of result ≡ with_conflicts (step_of (sig_of machine.signature) stepped) }
{
    answered(
        Machine {
            signature: machine.signature,
            structure: stepped.structure,
        },
        stepped.answer,
    )
}

fn after_conflicting(machine: Machine, d: Conflicting) -> Carried
    requires { given_conflicts d.conflicts ≡ conflicts_of d.conflicts }
    ensures { carried_of result ≡ with_conflicts (held_conflicting (sig_of machine.signature) d) }
{
    Carried {
        answer: Answer::Conflicting(d.finds),
        conflicts: d.conflicts,
        machine: Machine {
            signature: machine.signature,
            structure: d.structure,
        },
    }
}

// The call of each kind, also for a record that does not fit.

// Kind 1.
fn push_type(machine: Machine, given: Record) -> Carried
    ensures { carried_of result ≡ with_conflicts (calls.step ((sheet.type_form).call (record_view given)) (machine_of machine)) }
{
    let t = Type {
        kind: type_kind(given.a, given.b),
        parents: types_in(given.parents, given.parent_count),
    };
    after_declaring(
        machine,
        declaring::push_type(machine.structure, machine.signature, t),
    )
}

// Kind 2.
fn push_pred(machine: Machine, given: Record) -> Carried
    ensures { carried_of result ≡ with_conflicts (calls.step ((sheet.pred_form).call (record_view given)) (machine_of machine)) }
{
    let p = Pred {
        parents: types_in(given.parents, given.parent_count),
        arity: types_in(given.args, given.arg_count),
    };
    after_declaring(
        machine,
        declaring::push_pred(machine.structure, machine.signature, p),
    )
}

// Kind 3.
fn push_func(machine: Machine, given: Record) -> Carried
    ensures { carried_of result ≡ with_conflicts (calls.step ((sheet.func_form).call (record_view given)) (machine_of machine)) }
{
    let f = Func {
        parents: types_in(given.parents, given.parent_count),
        domain: types_in(given.args, given.arg_count),
        codomain: TypeId(given.b),
    };
    after_declaring(
        machine,
        declaring::push_func(machine.structure, machine.signature, f),
    )
}

// Kind 4.
fn push_model(machine: Machine, given: Record) -> Carried
    ensures { carried_of result ≡ with_conflicts (calls.step ((sheet.model_form).call (record_view given)) (machine_of machine)) }
{
    let [dom, cod, id, comp] = given.args;
    let ids = ModelIds {
        type_: TypeId(given.a),
        mor: TypeId(given.b),
        dom: FuncId(dom),
        cod: FuncId(cod),
        id: FuncId(id),
        comp: FuncId(comp),
    };
    after_declaring(
        machine,
        declaring::push_model(machine.structure, machine.signature, ids),
    )
}

// Kind 5.
fn push_mor_app_func(machine: Machine, given: Record) -> Carried
    ensures { carried_of result ≡ with_conflicts (calls.step ((sheet.mor_app_form).call (record_view given)) (machine_of machine)) }
{
    let [morphism_type, member_type, ..] = given.args;
    let m = MorAppFunc {
        func: FuncId(given.a),
        types: MorphismMemberTypes {
            morphism_type: TypeId(morphism_type),
            member_type: TypeId(member_type),
        },
    };
    after_declaring(
        machine,
        declaring::push_mor_app_func(machine.structure, machine.signature, m),
    )
}

// Kind 6.
fn push_el(machine: Machine, given: Record) -> Carried
    ensures { carried_of result ≡ with_conflicts (calls.step ((sheet.el_form).call (record_view given)) (machine_of machine)) }
{
    after_step(machine, machine.structure.push_el(given.a == 1))
}

// Kind 7.
fn equate(machine: Machine, given: Record) -> Carried
    ensures { carried_of result ≡ with_conflicts (calls.step ((sheet.equality_form).call (record_view given)) (machine_of machine)) }
{
    after_step(
        machine,
        machine.structure.equate(ElId(given.a), ElId(given.b)),
    )
}

// Kind 8.
fn impose_type(machine: Machine, given: Record) -> Carried
    ensures { carried_of result ≡ with_conflicts (calls.step ((sheet.imposition_form).call (record_view given)) (machine_of machine)) }
{
    let parents = els_in(given.parents, given.parent_count);
    let fact = Fact::new(ElId(given.a), TypeId(given.b), parents);
    after_step(
        machine,
        inserting::impose_type(machine.structure, machine.signature, fact),
    )
}

// Kind 9.
fn apply_func(machine: Machine, given: Record) -> Carried
    ensures { carried_of result ≡ with_conflicts (calls.step ((sheet.func_app_form).call (record_view given)) (machine_of machine)) }
{
    let parents = els_in(given.parents, given.parent_count);
    let args = els_in(given.args, given.arg_count);
    let app = FuncApp::new(FuncId(given.a), parents, args, ElId(given.b));
    after_step(
        machine,
        inserting::insert_func_app_or_equate(machine.structure, machine.signature, app),
    )
}

// Kind 10.
fn apply_pred(machine: Machine, given: Record) -> Carried
    ensures { carried_of result ≡ with_conflicts (calls.step ((sheet.pred_app_form).call (record_view given)) (machine_of machine)) }
{
    let parents = els_in(given.parents, given.parent_count);
    let args = els_in(given.args, given.arg_count);
    let app = PredApp::new(PredId(given.a), parents, args);
    after_step(
        machine,
        inserting::insert_pred_app(machine.structure, machine.signature, app),
    )
}

// Kind 11.
fn bind_var(machine: Machine, given: Record) -> Carried
    ensures { carried_of result ≡ with_conflicts (calls.step ((sheet.var_form).call (record_view given)) (machine_of machine)) }
{
    let v = VarEl {
        key: given.a,
        el: ElId(given.b),
    };
    after_step(machine, machine.structure.insert_var_el(v))
}

// Kind 12.
fn bind_ambient(machine: Machine, given: Record) -> Carried
    ensures { carried_of result ≡ with_conflicts (calls.step ((sheet.ambient_form).call (record_view given)) (machine_of machine)) }
{
    let a = AmbientEl {
        typ: TypeId(given.a),
        el: ElId(given.b),
    };
    after_step(
        machine,
        machine
            .structure
            .insert_ambient_model_el(machine.signature, a),
    )
}

// Kind 13.
fn run_close(machine: Machine) -> Carried
    ensures { carried_of result ≡ with_conflicts (calls.step calls.close (machine_of machine)) }
{
    after_step(machine, close::close(machine.structure, machine.signature))
}

// Kind 14.
fn find_conflicts(machine: Machine) -> Carried
    ensures { carried_of result ≡ with_conflicts (calls.step calls.type_conflicts (machine_of machine)) }
{
    after_conflicting(machine, conflicts::type_conflicts(machine.structure))
}

// Kind 15.
fn run_settle(machine: Machine) -> Carried
    ensures { carried_of result ≡ with_conflicts (calls.step calls.settle (machine_of machine)) }
{
    after_step(
        machine,
        settle::settle(machine.structure, machine.signature),
    )
}

// A record is carried out by the call of its kind; one that does not fit is refused, and the machine is as it was.
// The kinds are the file's numbers: an enum of them would only add a second match.
pub fn carry_out(machine: Machine, given: Record) -> Carried
    ensures { carried_of result ≡ with_conflicts (sheet.carry_out (sheet.call_of (record_view given)) (machine_of machine)) }
{
    if !given.fits() {
        return answered(machine, Answer::Refused(Refusal::MALFORMED));
    }
    match given.kind {
        1 => push_type(machine, given),
        2 => push_pred(machine, given),
        3 => push_func(machine, given),
        4 => push_model(machine, given),
        5 => push_mor_app_func(machine, given),
        6 => push_el(machine, given),
        7 => equate(machine, given),
        8 => impose_type(machine, given),
        9 => apply_func(machine, given),
        10 => apply_pred(machine, given),
        11 => bind_var(machine, given),
        12 => bind_ambient(machine, given),
        13 => run_close(machine),
        14 => find_conflicts(machine),
        15 => run_settle(machine),
        _ => answered(machine, Answer::Refused(Refusal::MALFORMED)),
    }
}
