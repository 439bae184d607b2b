// What a close rewrites, in the tables that it lends: function applications in its rounds (structure.rs, `functionality`), the
// others at its end (`canonicalise_refs`).
#![tactic(auto)]

ghost use Rattle.std.specs.Prelude.{◌≡◌, map, ◌≤◌, length};
ghost use Rattle.rows.specs.Table.{InPlaceRewritten};
ghost use Rattle.semantics.specs.Structure.{compare_fact, compare_pred_app, canonical_fact, canonical_pred_app, canonical_var, max_func_apps, max_pairs};
ghost use Rattle.facts.specs.View.{fact_of, impositions_of};
ghost use Rattle.apps.specs.View.{pred_app_of};
ghost use Rattle.bindings.specs.View.{vars_of};
ghost use Rattle.el_rows.specs.View.{links_in};
ghost use Rattle.rewriting.specs.View.{Enters};

use apps::{FuncApp, PredApp};
use bindings::{Slot, VarEls};
use el_rows::El;
use equalities::Pair;
use facts::{Fact, Impositions};
use ids::Place;
use merging::Tally;

// Rewrites keys and results in order, in place: of applications with one key the first result stays, a different one is queued.
pub fn functionality(els: &[El], apps: &mut [FuncApp], pairs: &mut [Pair], counts: Tally) -> Tally
    requires { (counts.func_apps ≤ max_func_apps) × ((length apps.old ≡ max_func_apps) × (length pairs.old ≡ max_pairs)) }
    ensures { Enters (links_in els.now) counts apps.old apps.new pairs.new result }
{
    let mut k: usize = 0;
    // The drain before it has left the queue empty.
    let mut queued: usize = 0;
    // By the index: applications are written in the slice that is read.
    for i in 0..counts.func_apps as usize {
        let entry = el_rows::canonical_func_app(els, apps[i]);
        match rows::position(&apps[..k], entry) {
            Place::Before(at) => {
                rows::place(apps, k, at, entry);
                k += 1;
                continue;
            }
            Place::At(at) => {
                let stored = apps[at].result;
                if stored.0 == entry.result.0 {
                    continue;
                }
                pairs[queued] = Pair {
                    lhs: stored,
                    rhs: entry.result,
                };
                queued += 1;
            }
        }
    }
    let mut next = counts;
    next.func_apps = k as u16;
    next.pairs = queued as u16;
    next
}

// Rewritten in place, each once: gives how many there are.
pub fn canonical_pred_apps(els: &[El], apps: &mut [PredApp], count: usize) -> usize
    requires { count ≤ length apps.old }
    ensures { InPlaceRewritten compare_pred_app pred_app_of (canonical_pred_app (links_in els.now)) count apps.old apps.new result }
{
    rows::rewrite(apps, count, |app| el_rows::canonical_pred_app(els, app))
}

pub fn canonical_vars(els: &[El], vars: VarEls) -> VarEls
    ensures { vars_of result ≡ map (canonical_var (links_in els.now)) (vars_of vars) }
{
    let mut done = vars;
    for i in 0..VarEls::MAX_LEN {
        let slot = vars.slots[i];
        done.slots[i] = Slot {
            given: slot.given,
            el: el_rows::find(els, slot.el),
        };
    }
    done
}

// Rewritten in place, each once: gives how many there are.
pub fn canonical_facts(els: &[El], facts: &mut [Fact], count: usize) -> usize
    requires { count ≤ length facts.old }
    ensures { InPlaceRewritten compare_fact fact_of (canonical_fact (links_in els.now)) count facts.old facts.new result }
{
    rows::rewrite(facts, count, |fact| el_rows::canonical_fact(els, fact))
}

// Each stays in its place.
pub fn canonical_impositions(els: &[El], impositions: Impositions) -> Impositions
    ensures { impositions_of result ≡ map (canonical_fact (links_in els.now)) (impositions_of impositions) }
{
    let size = impositions.size();
    let mut done = impositions;
    for i in 0..size {
        done.items[i] = el_rows::canonical_fact(els, impositions.items[i]);
    }
    done
}
