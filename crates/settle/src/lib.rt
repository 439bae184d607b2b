// Closes until one reports no change (02, M-100).
#![tactic(auto)]

ghost use Rattle.std.specs.Prelude.{◌≡◌, ◌+◌, ◌^◌, ◌<◌};
ghost use Rattle.ids.specs.Judge.{verdict_of};
ghost use Rattle.signature.specs.Model.{sig_of};
ghost use Rattle.semantics.specs.Calls as calls;
ghost use Rattle.semantics.specs.Calls.{totals, machine, step};
ghost use Rattle.structure.specs.View.{structure_of, totals_of, step_of};
ghost use Rattle.settle.specs.View.{refused_by, SettleRunIs};

use ids::Verdict;
use signature::Signature;
use structure::{Answer, Closed, Stepped, Structure, Totals};

// What a settle comes to: whether one of its closes was refused, what they reported together, and what they left.
#[derive(Clone, Copy)]
struct SettleRun {
    verdict: Verdict,
    totals: Totals,
    structure: Structure,
}

// One close more is counted.
fn counted(before: Totals, report: Closed) -> Totals
    requires { (before.closes + 1 < 2 ^ 64) × (before.merges + report.merges < 2 ^ 64) }
    ensures { totals_of result ≡ totals (before.closes + 1) (before.merges + report.merges) }
{
    Totals {
        closes: before.closes + 1,
        merges: before.merges + report.merges,
    }
}

// Whether another close follows.
fn goes_on(report: Closed) -> bool
    ensures { result ≡ report.changed }
{
    report.changed
}

// Whether an answer refuses.
fn verdict_of(answer: Answer) -> Verdict
    ensures { verdict_of result ≡ refused_by answer }
{
    match answer {
        Answer::Refused(number) => Verdict::Refused(number),
        _ => Verdict::Accepted,
    }
}

// The closes of a settle, before it is decided whether a number refuses it.
fn settle_run(structure: Structure, signature: Signature) -> SettleRun
    ensures { SettleRunIs (sig_of signature) (structure_of structure) result }
{
    let u = structure.unification;
    let most = u.size() + 1;
    let mut now = structure;
    let mut again = true;
    let mut totals = Totals {
        closes: 0,
        merges: 0,
    };
    for i in 0..most {
        if !again {
            break;
        }
        let stepped = close::close(now, signature);
        let answer = stepped.answer;
        let Answer::Closed(report) = answer else {
            return SettleRun {
                verdict: verdict_of(answer),
                totals,
                structure: now,
            };
        };
        let reached = stepped.structure;
        now = reached;
        again = goes_on(report);
        totals = counted(totals, report);
    }
    SettleRun {
        verdict: Verdict::Accepted,
        totals,
        structure: now,
    }
}

// Kind 15. A number that refuses one of the closes refuses the settle, and the structure before the settle is handed back.
pub fn settle(structure: Structure, signature: Signature) -> Stepped
    ensures { step_of (sig_of signature) result ≡ step calls.settle (machine (sig_of signature) (structure_of structure)) }
{
    let run = settle_run(structure, signature);
    let verdict = run.verdict;
    let totals = run.totals;
    let reached = run.structure;
    if let Verdict::Refused(number) = verdict {
        return structure.refuse(number);
    }
    reached.accept(Answer::Summed(totals))
}
