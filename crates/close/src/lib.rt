// The close (structure.rs, `Structure::close`): rounds until an idle one, the impositions, and references rewritten to roots.
// Its passes are lent copies of the tables, so that a number that is met hands back the structure as it was.
#![tactic(auto)]

ghost use Rattle.std.specs.Prelude.{◌≡◌, [], ◌≤◌, length, take};
ghost use Rattle.signature.specs.Model.{sig_of};
ghost use Rattle.semantics.specs.Structure.{max_facts};
ghost use Rattle.semantics.specs.Calls as calls;
ghost use Rattle.semantics.specs.Calls.{machine, merges_of, step};
ghost use Rattle.structure.specs.View.{structure_of, answer_of, step_of};
ghost use Rattle.rounds.specs.View.{one_close};

use apps::{FuncApp, PredApp};
use el_rows::El;
use equalities::Pair;
use facts::{Fact, Facts};
use ids::{ElId, ElIds, FuncId, PredId};
use merging::Tally;
use signature::Signature;
use structure::{Answer, Closed, Stepped, Structure};

// The rows from an index on become one and the same.
fn clear<T: Copy>(rows: &mut [T], n: usize, none: T)
    ensures { take n rows.new ≡ take n rows.old }
{
    for i in n..rows.len() {
        rows[i] = none;
    }
}

// The facts from an index on become those of a table there.
fn restore(facts: &mut [Fact], n: usize, given: Facts)
    requires { length facts.old ≡ max_facts }
    ensures { take n facts.new ≡ take n facts.old }
{
    for i in n..Facts::MAX_LEN {
        facts[i] = given.items[i];
    }
}

// Kind 13. The number first met refuses, and the structure before the close is handed back.
pub fn close(structure: Structure, signature: Signature) -> Stepped
    ensures result_value { step_of (sig_of signature) result ≡ step calls.close (machine (sig_of signature) (structure_of structure)) }
    ensures answer_bound { merges_of (answer_of [] result.answer) ≤ one_close }
{
    let mut facts = structure.els;
    let mut func_apps = structure.func_apps;
    let mut pred_apps = structure.pred_apps;
    let mut pairs = structure.pending_equalities;
    let mut unification = structure.unification;
    let impositions = structure.pending_type_impositions;
    let marks = structure.inferred_parent_els;
    let links = unification.links;
    let n = unification.size();
    let fact_count = facts.size();
    let func_count = func_apps.size();
    let pred_count = pred_apps.size();
    let pair_count = pairs.size();
    let imposed_count = impositions.size();
    let none = El {
        link: 0,
        marked: false,
    };
    let mut table = [none; Structure::MAX_ELS];
    let els = &mut table[..n];
    let is_marked = el_rows::fill_els(els, &links, &marks);
    let is_sorted = rows::is_sorted(&facts.items[..fact_count]);
    let start = Tally {
        facts: fact_count as u16,
        func_apps: func_count as u16,
        pairs: pair_count as u16,
        is_sorted,
        is_marked,
        met: None,
        merges: 0,
        added: 0,
    };
    let ran = rounds::rounds(
        els,
        &mut facts.items,
        &mut pairs.items,
        &mut func_apps.items,
        &pred_apps.items[..pred_count],
        signature,
        start,
    );
    let was = ran.counts;
    let counts = imposing::apply_pending_type_impositions(
        els,
        &mut facts.items,
        &pairs.items,
        was,
        &impositions.items[..imposed_count],
    );
    let again = 1 < ran.rounds;
    let late = rounds::grew(was, counts);
    let changed = again | late;
    let report = Closed {
        changed,
        merges: counts.merges,
        rounds: ran.rounds,
        added: counts.added,
    };
    let met = counts.met;
    if let Some(number) = met {
        return structure.refuse(number);
    }
    // `canonicalise_refs`: predicate applications, facts, and below variables and impositions.
    let pred_len = rewriting::canonical_pred_apps(els, &mut pred_apps.items, pred_count);
    let fact_len = rewriting::canonical_facts(els, &mut facts.items, counts.facts as usize);
    // Past its count no table keeps what the passes left: the facts are those given there, the others as in a new table.
    restore(&mut facts.items, fact_len, structure.els);
    let no_els = ElIds::new();
    let no_func_app = FuncApp::new(FuncId(0), no_els, no_els, ElId(0));
    clear(&mut func_apps.items, counts.func_apps as usize, no_func_app);
    let no_pred_app = PredApp::new(PredId(0), no_els, no_els);
    clear(&mut pred_apps.items, pred_len, no_pred_app);
    let no_pair = Pair::new(ElId(0), ElId(0));
    clear(&mut pairs.items, counts.pairs as usize, no_pair);
    facts.len = fact_len as u16;
    func_apps.len = counts.func_apps;
    pred_apps.len = pred_len as u16;
    pairs.len = counts.pairs;
    unification.links = el_rows::links_of(els, links);
    let marked = el_rows::marks_of(els, marks);
    let vars = rewriting::canonical_vars(els, structure.var_els);
    let imposed = rewriting::canonical_impositions(els, impositions);
    let next = Structure {
        els: facts,
        pred_apps,
        func_apps,
        var_els: vars,
        ambient_model_els: structure.ambient_model_els,
        unification,
        pending_equalities: pairs,
        pending_type_impositions: imposed,
        inferred_parent_els: marked,
        started: structure.started,
        settled: structure.settled,
    };
    next.accept(Answer::Closed(report))
}
