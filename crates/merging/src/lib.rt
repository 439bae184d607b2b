// Merges, and the drain (structure.rs, `drain_equalities`), on the tables that a close lends.
#![tactic(auto)]

ghost use Rattle.std.specs.Prelude.{◌≡◌, ◌≤◌, ◌<◌, length};
ghost use Rattle.semantics.specs.Structure.{pair, max_pairs};
ghost use Rattle.semantics.specs.Types.{merge, join, drain};
ghost use Rattle.facts.specs.View.{fact_of};
ghost use Rattle.merging.specs.View.{lent, ElsHeld, FactsHeld, LentHeld, RoomToCount, PassesAnyQueue, Passes, moved_fact};

use el_rows::El;
use equalities::Pair;
use facts::Fact;
use ids::ElId;

// How many rows of the tables are in use, what is known of them, what was counted, and the number first met that refuses the close.
#[derive(Clone, Copy)]
pub struct Tally {
    pub facts: u16,
    pub func_apps: u16,
    pub pairs: u16,
    // The facts are in order.
    pub is_sorted: bool,
    // An element may be marked.
    pub is_marked: bool,
    pub met: Option<u16>,
    pub merges: u64,
    pub added: u64,
}

// A fact of `drop` goes to `keep`.
fn moved_fact(fact: Fact, keep: ElId, drop: ElId) -> Fact
    ensures { fact_of result ≡ moved_fact keep.0 drop.0 (fact_of fact) }
{
    if fact.el.0 != drop.0 {
        return fact;
    }
    let ct = fact.ct;
    Fact { el: keep, ct }
}

// One merge, of the larger root into the smaller.
fn merge(els: &mut [El], facts: &mut [Fact], counts: Tally, keep: ElId, drop: ElId) -> Tally
    requires { ElsHeld els.old counts × (FactsHeld facts.old counts × (RoomToCount 1 counts × (keep.0 < drop.0))) }
    ensures { PassesAnyQueue els.old facts.old counts els.new facts.new result 1 (merge keep.0 drop.0) }
{
    el_rows::union_roots(els, keep, drop);
    let moved = rows::rewrite(
        facts,
        counts.facts as usize,
        |fact| moved_fact(fact, keep, drop),
    );
    let mut next = counts;
    next.facts = moved as u16;
    next.merges = counts.merges + 1;
    next
}

// A pair drained: where its two roots differ they are merged.
pub fn join(els: &mut [El], facts: &mut [Fact], counts: Tally, lhs: ElId, rhs: ElId) -> Tally
    requires { ElsHeld els.old counts × (FactsHeld facts.old counts × RoomToCount 1 counts) }
    ensures { PassesAnyQueue els.old facts.old counts els.new facts.new result 1 (join (pair lhs.0 rhs.0)) }
{
    let a = el_rows::find(els, lhs);
    let b = el_rows::find(els, rhs);
    if a.0 < b.0 {
        return merge(els, facts, counts, a, b);
    }
    if b.0 < a.0 {
        return merge(els, facts, counts, b, a);
    }
    counts
}

// The whole queue drained, the last pair first.
pub fn drain_equalities(els: &mut [El], facts: &mut [Fact], pairs: &[Pair], counts: Tally) -> Tally
    requires { LentHeld (lent els.old facts.old pairs.now counts) × RoomToCount max_pairs counts }
    ensures { Passes (lent els.old facts.old pairs.now counts)
        (lent els.new facts.new pairs.now result) max_pairs drain }
{
    let mut now = counts;
    now.pairs = 0;
    for i in (0..counts.pairs as usize).rev() {
        let pair = pairs[i];
        now = join(els, facts, now, pair.lhs, pair.rhs);
    }
    now
}
