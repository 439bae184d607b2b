// A list of calls carried out one after the other, refused ones included.
#![tactic(auto)]

ghost use Rattle.std.specs.Prelude.{◌≡◌, [], take};
ghost use Rattle.ids.specs.Ids.{given_of, given_els, given_types, whole};
ghost use Rattle.signature.specs.Calls.{typed_of};
ghost use Rattle.semantics.specs.Calls as calls;
ghost use Rattle.semantics.specs.Calls.{answers};
ghost use Rattle.semantics.specs.Sheet.{carry_out};
ghost use Rattle.semantics.specs.Sheet as sheet;
ghost use Rattle.records.specs.View.{record_view};
ghost use Rattle.structure.specs.View.{machine_of, found_of};
ghost use Rattle.driver.specs.Calls.{list_call_of, run_from, run_list};
ghost use Rattle.carrying.specs.View.{with_conflicts};
ghost use Rattle.driver.specs.View.{response_of, responded_of};

use conflicts::TypeConflicts;
use ids::{ElId, ElIds, TypeId, TypeIds};
use records::Record;
use signature::{TypeLookup, Typed};
use structure::{Answer, Looked, Machine};
use unification::{Find, Finding};

// The kinds of the calls that no record of a sheet makes: numbers of the file, as those of sheets. An enum of them would only add a second match.
#[derive(Clone, Copy)]
pub struct Kind(pub u16);

impl Kind {
    pub const ROOT: u16 = 101;

    pub const ROOT_CONST: u16 = 102;

    pub const LOOKUP_TYPE: u16 = 103;

    pub const AMBIENT_PARENTS: u16 = 104;
}

// What a call of a list answers; conflicts stand beside it, and none beside another answer.
#[derive(Clone, Copy)]
pub enum Response {
    // What a record of a sheet answers.
    Answered(Answer),
    Found(Find),
    // A type, with its parents.
    Typed(TypeId, ElIds),
    Absent,
    Els(ElIds),
}

#[derive(Clone, Copy)]
pub struct Responded {
    pub response: Response,
    pub conflicts: TypeConflicts,
    pub machine: Machine,
}

// A response with no conflicts beside it.
fn respond(machine: Machine, response: Response) -> Responded
    ensures { responded_of result ≡ record { step = answers (response_of [] response) (machine_of machine); conflicts = whole [] } }
{
    Responded {
        response,
        conflicts: TypeConflicts::new(),
        machine,
    }
}

fn refuse(machine: Machine, number: u16) -> Responded
    ensures { responded_of result ≡ with_conflicts (calls.refusal (machine_of machine) number) }
{
    respond(machine, Response::Answered(Answer::Refused(number)))
}

// A list as it is given, also where its count is over the limit.
fn els_in(slots: [u16; ElIds::MAX_LEN], len: u16) -> ElIds
    ensures { given_els result ≡ given_of len slots }
{
    ElIds {
        ids: slots.map(ElId),
        len,
    }
}

fn types_in(slots: [u16; TypeIds::MAX_LEN], len: u16) -> TypeIds
    ensures { given_types result ≡ given_of len slots }
{
    TypeIds {
        ids: slots.map(TypeId),
        len,
    }
}

// The first n of some elements.
fn leading(els: ElIds, n: u16) -> ElIds
    ensures { given_els result ≡ take n (given_els els) }
{
    let mut first = els;
    first.len = els.len.min(n);
    first
}

fn after_finding(machine: Machine, finding: Finding) -> Responded
    ensures { responded_of result ≡ with_conflicts (answers (found_of finding) (machine_of machine)) }
{
    match finding {
        Finding::Found(f) => respond(machine, Response::Found(f)),
        Finding::Refused(n) => refuse(machine, n),
    }
}

fn find_root(machine: Machine, el: ElId) -> Responded
    ensures { responded_of result ≡ with_conflicts (calls.step (calls.root el.0) (machine_of machine)) }
{
    let rooting = machine.structure.root(el);
    after_finding(
        Machine {
            signature: machine.signature,
            structure: rooting.structure,
        },
        rooting.find,
    )
}

fn find_root_const(machine: Machine, el: ElId) -> Responded
    ensures { responded_of result ≡ with_conflicts (calls.step (calls.root_const el.0) (machine_of machine)) }
{
    after_finding(machine, machine.structure.root_const(el))
}

// A type that was found, with as many of the parents as it has.
fn after_lookup(machine: Machine, typed: Typed, parents: ElIds) -> Responded
    ensures { responded_of result ≡ with_conflicts (answers (calls.typed (calls.leading (given_els parents) (typed_of typed))) (machine_of machine)) }
{
    match typed {
        Typed::At(t, n) => respond(machine, Response::Typed(t, leading(parents, n))),
        Typed::Absent => respond(machine, Response::Absent),
    }
}

fn look_up_type(machine: Machine, typ: TypeId, parents: ElIds) -> Responded
    ensures { responded_of result ≡ with_conflicts (calls.step (calls.lookup_type typ.0 (given_els parents)) (machine_of machine)) }
{
    match machine.signature.lookup_type(typ, parents) {
        TypeLookup::Looked(t) => after_lookup(machine, t, parents),
        TypeLookup::Refused(n) => refuse(machine, n),
    }
}

fn look_up_ambients(machine: Machine, types: TypeIds) -> Responded
    ensures { responded_of result ≡ with_conflicts (calls.step (calls.ambient_parents (given_types types)) (machine_of machine)) }
{
    let looked = machine.structure.ambient_parents(machine.signature, types);
    match looked.answer {
        Looked::Found => respond(machine, Response::Els(looked.els)),
        Looked::Refused(n) => refuse(machine, n),
    }
}

// A record of a kind that sheets have too, or of none.
fn carry_out_as_sheet(machine: Machine, given: Record) -> Responded
    ensures { responded_of result ≡ with_conflicts (carry_out (sheet.call_of (record_view given)) (machine_of machine)) }
{
    let carried = carrying::carry_out(machine, given);
    Responded {
        response: Response::Answered(carried.answer),
        conflicts: carried.conflicts,
        machine: carried.machine,
    }
}

// A record is carried out by the call of its kind; one that does not fit is refused, and the machine is as it was.
fn carry_out(machine: Machine, given: Record) -> Responded
    ensures { responded_of result ≡ with_conflicts (carry_out (list_call_of (record_view given)) (machine_of machine)) }
{
    match given.kind {
        Kind::ROOT => find_root(machine, ElId(given.a)),
        Kind::ROOT_CONST => find_root_const(machine, ElId(given.a)),
        Kind::LOOKUP_TYPE => look_up_type(
            machine,
            TypeId(given.a),
            els_in(given.parents, given.parent_count),
        ),
        Kind::AMBIENT_PARENTS => look_up_ambients(machine, types_in(given.args, given.arg_count)),
        _ => carry_out_as_sheet(machine, given),
    }
}

// The records of a list from a given machine on, whatever each answers: the last one's answer, and what all of them leave.
// Bytes after the last whole record are not looked at; a list of no records is done.
pub fn run_from(machine: Machine, bytes: &[u8]) -> Responded
    ensures { responded_of result ≡ with_conflicts (run_from (machine_of machine) bytes.now) }
{
    let count = bytes.len() / Record::BYTES;
    let mut last = respond(machine, Response::Answered(Answer::Done));
    for i in 0..count {
        last = carry_out(last.machine, records::record_in(bytes, i));
    }
    last
}

// The same from fresh values on.
pub fn run(bytes: &[u8]) -> Responded
    ensures { responded_of result ≡ with_conflicts (run_list bytes.now) }
{
    run_from(Machine::new(), bytes)
}
