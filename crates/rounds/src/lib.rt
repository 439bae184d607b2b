// The rounds of a close (structure.rs, `Structure::close`), until one that is idle or meets a number, on the tables that a close lends.
#![tactic(auto)]

ghost use Rattle.std.specs.Prelude.{◌≡◌, ◌&&◌, ◌+◌, ◌≤◌, length, map, ltb};
ghost use Rattle.signature.specs.Model.{sig_of};
ghost use Rattle.semantics.specs.Structure.{max_pred_apps};
ghost use Rattle.semantics.specs.Close.{is_none};
ghost use Rattle.apps.specs.View.{pred_app_of};
ghost use Rattle.merging.specs.View.{lent, met_of, LentHeld, RoomToCount, work_of};
ghost use Rattle.rounds.specs.View.{one_round, all_rounds, AppsUsed, RoundIs, RoundsAre};

use apps::{FuncApp, FuncApps, PredApp};
use el_rows::El;
use equalities::Pair;
use facts::{Fact, Facts};
use merging::Tally;
use operations::Turn;
use signature::Signature;
use unification::Unification;

// The counts after the rounds, and how many ran.
#[derive(Clone, Copy)]
pub struct RoundsMade {
    pub counts: Tally,
    pub rounds: u64,
}

impl RoundsMade {
    // More rounds than a close of a structure that calls can make takes.
    const FUEL: u64 = 2
        * ((Facts::MAX_LEN as u64 + FuncApps::MAX_LEN as u64 + 2)
            * (Unification::MAX_ELS as u64 + 1));
}

// Whether merges were made or facts added between two counts.
pub fn grew(before: Tally, after: Tally) -> bool
    requires { RoomToCount 0 before × RoomToCount 0 after }
    ensures { result ≡ ltb (work_of before) (work_of after) }
{
    before.merges + before.added < after.merges + after.added
}

// Drain, `functionality`, `typing`, the laws of identities and composites.
fn round(
    els: &mut [El],
    facts: &mut [Fact],
    pairs: &mut [Pair],
    apps: &mut [FuncApp],
    preds: &[PredApp],
    signature: Signature,
    counts: Tally,
) -> Turn
    requires { LentHeld (lent els.old facts.old pairs.old counts) × (RoomToCount one_round counts
        × (AppsUsed apps.old counts × (length preds.now ≤ max_pred_apps))) }
    ensures { RoundIs (sig_of signature) (map pred_app_of preds.now)
        (lent els.old facts.old pairs.old counts) apps.old
        (lent els.new facts.new pairs.new result.counts) apps.new result.worked }
{
    let drained = merging::drain_equalities(els, facts, pairs, counts);
    let rewritten = rewriting::functionality(els, apps, pairs, drained);
    let known = rewritten.func_apps as usize;
    let typed = typing::typing(
        els,
        facts,
        pairs,
        rewritten,
        signature,
        &apps[..known],
        preds,
    );
    let merged = counts.merges < drained.merges;
    let queued = 0 < rewritten.pairs;
    let late = grew(rewritten, typed);
    let turn = Turn {
        counts: typed,
        worked: merged | queued | late,
    };
    operations::morphism_operation_constraints(els, apps, pairs, turn, signature)
}

// Whether another round follows: this one reported work, and no number is met that refuses the close.
fn goes_on(worked: bool, met: Option<u16>) -> bool
    ensures { result ≡ (worked && is_none (met_of met)) }
{
    worked && met.is_none()
}

// Rounds until one that is idle or meets a number.
pub fn rounds(
    els: &mut [El],
    facts: &mut [Fact],
    pairs: &mut [Pair],
    apps: &mut [FuncApp],
    preds: &[PredApp],
    signature: Signature,
    counts: Tally,
) -> RoundsMade
    requires { LentHeld (lent els.old facts.old pairs.old counts) × (RoomToCount all_rounds counts
        × (AppsUsed apps.old counts × (length preds.now ≤ max_pred_apps))) }
    ensures { RoundsAre (sig_of signature) (map pred_app_of preds.now)
        (lent els.old facts.old pairs.old counts) apps.old
        (lent els.new facts.new pairs.new result.counts) apps.new result.rounds }
{
    let mut now = counts;
    let mut again = true;
    for ran in 0..RoundsMade::FUEL + 1 {
        if !again {
            return RoundsMade {
                counts: now,
                rounds: ran,
            };
        }
        let turn = round(els, facts, pairs, apps, preds, signature, now);
        now = turn.counts;
        again = goes_on(turn.worked, now.met);
    }
    RoundsMade {
        counts: now,
        rounds: RoundsMade::FUEL + 1,
    }
}
