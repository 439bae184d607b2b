// The structure (structure.rs): its tables, and the calls of kinds 6, 7, 11 and 12 with the finds and the ambient lookup.
// Kinds 8, 9 and 10 stand in crate inserting.
#![tactic(auto)]

ghost use Rattle.std.specs.Prelude.{◌≡◌, true, []};
ghost use Rattle.ids.specs.Ids.{els_of, types_of, given_els, given_types};
ghost use Rattle.signature.specs.Model.{Sig, sig_of};
ghost use Rattle.semantics.specs.Structure.{empty};
ghost use Rattle.semantics.specs.Calls.{is_el, are_els, push_el, equate_els, bind_var, bind_ambient, root, root_const, ambient_parents};
ghost use Rattle.semantics.specs.Calls.{have_ambients, ambient_els, start, machine, answers, refusal, settled_by, leaves, step};
ghost use Rattle.bindings.specs.View.{var_of, ambient_of};
ghost use Rattle.structure.specs.View.{limits, structure_of, machine_of, answer_of, step_of, found_of, rooting_of, looking, looking_of};

use apps::{FuncApps, PredApps};
use bindings::{AmbientEl, AmbientEls, Bound, VarEl, VarEls};
use equalities::Pairs;
use facts::{Facts, Impositions};
use ids::{ElId, ElIds, Refusal, TypeIds, Verdict};
use signature::Signature;
use unification::{Finding, Unification};

// How many entries each table has at most.
#[derive(Clone, Copy)]
pub struct Limits {
    pub els: usize,
    pub facts: usize,
    pub func_apps: usize,
    pub pred_apps: usize,
    pub vars: usize,
    pub pairs: usize,
    pub impositions: usize,
}

#[repr(C)]
#[derive(Clone, Copy)]
pub struct Structure {
    pub els: Facts,
    pub pred_apps: PredApps,
    pub func_apps: FuncApps,
    pub var_els: VarEls,
    pub ambient_model_els: AmbientEls,
    pub unification: Unification,
    pub pending_equalities: Pairs,
    pub pending_type_impositions: Impositions,
    pub inferred_parent_els: [bool; Structure::MAX_ELS],
    // A call of kinds 6 to 15 was accepted.
    pub started: bool,
    // The latest accepted close reported no change, and nothing accepted since was answered with yes.
    pub settled: bool,
}

// What a call answers, with the number of a refusal; the lists of an answer stand beside it.
#[derive(Clone, Copy)]
pub enum Answer {
    Number(u16),
    Says(bool),
    Done,
    Closed(Closed),
    // How many finds the roots of first facts' parents took (02, M-103).
    Conflicting(u16),
    Summed(Totals),
    Refused(u16),
}

// What a close reports.
#[derive(Clone, Copy)]
pub struct Closed {
    pub changed: bool,
    pub merges: u64,
    pub rounds: u64,
    // The facts that imposing added (02, M-106).
    pub added: u64,
}

// What a settle reports: the closes run and the merges summed.
#[derive(Clone, Copy)]
pub struct Totals {
    pub closes: u64,
    pub merges: u64,
}

// What a call of kinds 6 to 13 or 15 answers, and the structure that it leaves.
#[derive(Clone, Copy)]
pub struct Stepped {
    pub answer: Answer,
    pub structure: Structure,
}

// The two values that the calls are made on.
#[derive(Clone, Copy)]
pub struct Machine {
    pub signature: Signature,
    pub structure: Structure,
}

// The answer of the ambient lookup; the elements stand beside it.
#[derive(Clone, Copy)]
pub enum Looked {
    Found,
    Refused(u16),
}

#[derive(Clone, Copy)]
pub struct AmbientParents {
    pub answer: Looked,
    pub els: ElIds,
}

// The ambient elements of some types, and whether each type has one.
#[derive(Clone, Copy)]
struct FoundEls {
    all: bool,
    els: ElIds,
}

#[derive(Clone, Copy)]
pub struct Rooting {
    pub find: Finding,
    pub structure: Structure,
}

impl Machine {
    pub fn new() -> Self
        ensures { machine_of result ≡ start }
    {
        Machine {
            signature: Signature::new(),
            structure: Structure::new(),
        }
    }
}

impl Structure {
    pub const MAX_ELS: usize = Unification::MAX_ELS;

    pub const MAX_FACTS: usize = Facts::MAX_LEN;

    pub const MAX_FUNC_APPS: usize = FuncApps::MAX_LEN;

    pub const MAX_PRED_APPS: usize = PredApps::MAX_LEN;

    pub const MAX_VARS: usize = VarEls::MAX_LEN;

    pub const MAX_PAIRS: usize = Pairs::MAX_LEN;

    pub const MAX_IMPOSITIONS: usize = Impositions::MAX_LEN;

    // The constants are the limits that the definitions speak of.
    pub fn limits() -> Limits
        ensures { result ≡ limits }
    {
        Limits {
            els: Structure::MAX_ELS,
            facts: Structure::MAX_FACTS,
            func_apps: Structure::MAX_FUNC_APPS,
            pred_apps: Structure::MAX_PRED_APPS,
            vars: Structure::MAX_VARS,
            pairs: Structure::MAX_PAIRS,
            impositions: Structure::MAX_IMPOSITIONS,
        }
    }

    pub fn new() -> Self
        ensures { structure_of result ≡ empty }
    {
        Structure {
            els: Facts::new(),
            pred_apps: PredApps::new(),
            func_apps: FuncApps::new(),
            var_els: VarEls::new(),
            ambient_model_els: AmbientEls::new(),
            unification: Unification::new(),
            pending_equalities: Pairs::new(),
            pending_type_impositions: Impositions::new(),
            inferred_parent_els: [false; Structure::MAX_ELS],
            started: false,
            settled: false,
        }
    }

    // A refused call leaves the structure as it was.
    pub fn refuse(self, number: u16) -> Stepped
        ensures { (g : Sig) → step_of g result ≡ refusal (machine g (structure_of self)) number }
    {
        Stepped {
            answer: Answer::Refused(number),
            structure: self,
        }
    }

    // Whether the structure is settled after an answer: a close sets it by its report, a yes clears it, and after any other answer it is as before.
    fn settled_by(self, answer: Answer) -> bool
        ensures { result ≡ settled_by (answer_of [] answer) self.settled }
    {
        match answer {
            Answer::Closed(closed) => !closed.changed,
            Answer::Says(yes) => ids::and(!yes, self.settled),
            _ => self.settled,
        }
    }

    // What an accepted call of kinds 6 to 15 leaves behind: the flag for number 4, and whether the structure is settled.
    pub fn accept(self, answer: Answer) -> Stepped
        ensures { (g : Sig) → step_of g result ≡ answers (answer_of [] answer) (machine g (leaves true (answer_of [] answer) (structure_of self))) }
    {
        let mut next = self;
        next.started = true;
        next.settled = self.settled_by(answer);
        Stepped {
            answer,
            structure: next,
        }
    }

    // Whether the latest accepted close reported no change, and no equality, imposition or application accepted since was answered with yes.
    pub fn is_settled(self) -> bool
        ensures { result ≡ (structure_of self).settled }
    {
        self.settled
    }

    pub fn is_el(self, el: ElId) -> bool
        ensures { result ≡ is_el (structure_of self) el.0 }
    {
        let u = self.unification;
        let at = el.0 as usize;
        at < u.size()
    }

    pub fn are_els(self, els: ElIds) -> bool
        ensures { result ≡ are_els (structure_of self) (els_of els) }
    {
        let u = self.unification;
        els.all_below(u.size() as u16)
    }

    // Kind 6: an element with its mark.
    pub fn push_el(self, mark: bool) -> Stepped
        ensures { (g : Sig) → step_of g result ≡ step (push_el mark) (machine g (structure_of self)) }
    {
        let u = self.unification;
        let at = u.size();
        let verdict = Verdict::Accepted;
        let verdict = verdict.refuse_if(Refusal::NO_ROOM, Structure::MAX_ELS <= at);
        if let Verdict::Refused(number) = verdict {
            return self.refuse(number);
        }
        let mut next = self;
        next.inferred_parent_els[at] = mark;
        next.unification = u.increase_size();
        next.accept(Answer::Number(at as u16))
    }

    // Kind 7: an equality is queued.
    pub fn equate(self, a: ElId, b: ElId) -> Stepped
        ensures { (g : Sig) → step_of g result ≡ step (equate_els a.0 b.0) (machine g (structure_of self)) }
    {
        let u = self.unification;
        let pairs = self.pending_equalities;
        let declared = ids::and(self.is_el(a), self.is_el(b));
        let verdict = Verdict::Accepted;
        let verdict = verdict.refuse_if(Refusal::UNDECLARED, !declared);
        let verdict = verdict.refuse_if(Refusal::NO_ROOM, Structure::MAX_PAIRS <= pairs.size());
        if let Verdict::Refused(number) = verdict {
            return self.refuse(number);
        }
        let equated = equalities::equate(u, pairs, a, b);
        let unification = equated.unification;
        let queued = equated.pairs;
        let mut next = self;
        next.unification = unification;
        next.pending_equalities = queued;
        next.accept(Answer::Says(equated.differ))
    }

    // Kind 11: a variable.
    pub fn insert_var_el(self, v: VarEl) -> Stepped
        ensures { (g : Sig) → step_of g result ≡ step (bind_var (var_of v)) (machine g (structure_of self)) }
    {
        let table = self.var_els;
        let key = v.key as usize;
        let verdict = Verdict::Accepted;
        let verdict = verdict.refuse_if(Refusal::MALFORMED, Structure::MAX_VARS <= key);
        let verdict = verdict.refuse_if(Refusal::UNDECLARED, !self.is_el(v.el));
        let verdict = verdict.refuse_if(Refusal::GIVEN_AGAIN, table.contains(v));
        if let Verdict::Refused(number) = verdict {
            return self.refuse(number);
        }
        let mut next = self;
        next.var_els = table.insert(v);
        next.accept(Answer::Done)
    }

    // Kind 12: the ambient element of a model type.
    pub fn insert_ambient_model_el(self, signature: Signature, a: AmbientEl) -> Stepped
        ensures { step_of (sig_of signature) result ≡ step (bind_ambient (ambient_of a)) (machine (sig_of signature) (structure_of self)) }
    {
        let table = self.ambient_model_els;
        let declared = ids::and(signature.is_type(a.typ), self.is_el(a.el));
        let verdict = Verdict::Accepted;
        let verdict = verdict.refuse_if(Refusal::UNDECLARED, !declared);
        let verdict = verdict.refuse_if(Refusal::WRONG_KIND, !signature.is_model(a.typ));
        let verdict = verdict.refuse_if(Refusal::GIVEN_AGAIN, table.contains(a));
        if let Verdict::Refused(number) = verdict {
            return self.refuse(number);
        }
        let mut next = self;
        next.ambient_model_els = table.insert(a);
        next.accept(Answer::Done)
    }

    // The ambient lookup: the stored element of each type, in the order asked.
    pub fn ambient_parents(self, signature: Signature, types: TypeIds) -> AmbientParents
        ensures { looking_of (machine (sig_of signature) (structure_of self)) result ≡ looking (step (ambient_parents (given_types types)) (machine (sig_of signature) (structure_of self))) }
    {
        let found = self.ambient_els(types);
        let els = found.els;
        let verdict = Verdict::Accepted;
        let verdict = verdict.refuse_if(Refusal::MALFORMED, types.is_too_long());
        let verdict = verdict.refuse_if(Refusal::UNDECLARED, !signature.are_types(types));
        let verdict = verdict.refuse_if(Refusal::NO_AMBIENT, !found.all);
        if let Verdict::Refused(number) = verdict {
            return AmbientParents {
                answer: Looked::Refused(number),
                els: ElIds::new(),
            };
        }
        AmbientParents {
            answer: Looked::Found,
            els,
        }
    }

    // The stored element of each type, in the order asked, and whether each type has one.
    fn ambient_els(self, types: TypeIds) -> FoundEls
        ensures all { result.all ≡ have_ambients (types_of types) (structure_of self).ambients }
        ensures els { result.all ≡ true → given_els result.els ≡ ambient_els (types_of types) (structure_of self).ambients }
    {
        let mut els = ElIds::new();
        let table = self.ambient_model_els;
        let n = types.size();
        for i in 0..n {
            let typ = types.ids[i];
            let Bound::El(el) = table.get(typ) else {
                return FoundEls { all: false, els };
            };
            els.ids[i] = el;
            els.len = (i + 1) as u16;
        }
        FoundEls { all: true, els }
    }

    // The public find that alters no link.
    pub fn root_const(self, el: ElId) -> Finding
        ensures { (g : Sig) → answers (found_of result) (machine g (structure_of self)) ≡ step (root_const el.0) (machine g (structure_of self)) }
    {
        let u = self.unification;
        u.root_const(el)
    }

    // The public find that shortens the path.
    pub fn root(self, el: ElId) -> Rooting
        ensures { (g : Sig) → rooting_of g result ≡ step (root el.0) (machine g (structure_of self)) }
    {
        let u = self.unification;
        let rooted = u.root(el);
        let find = rooted.find;
        let unification = rooted.unification;
        let mut next = self;
        next.unification = unification;
        Rooting {
            find,
            structure: next,
        }
    }
}
