// Ordered tables that are lent: the first n rows of a slice, over any type of rows that has an order.
#![tactic(auto)]

ghost use Rattle.std.specs.Prelude.{◌≡◌, true, ◌≤◌, ◌<◌, length, map, take};
ghost use Rattle.ids.specs.declared.Ordering.{Ordering};
ghost use Rattle.ids.specs.Table.{position_from};
ghost use Rattle.ids.specs.Sorted.{Sorted};
ghost use Rattle.ids.proofs.Sorted.{Ordered};
ghost use Rattle.semantics.specs.Structure as model;
ghost use Rattle.semantics.specs.Structure.{compare_fact, compare_func_app, compare_pred_app};
ghost use Rattle.semantics.proofs.Orders.{fact_ordered, func_app_ordered, pred_app_ordered};
ghost use Rattle.facts.specs.View.{fact_of};
ghost use Rattle.apps.specs.View.{func_app_of, pred_app_of};
ghost use Rattle.rows.specs.Table.{is_less, RowPlaced, Inserted, InPlaceRewritten};

use apps::{FuncApp, PredApp};
use facts::Fact;
use ids::{Ordering, Place};

// A row of an ordered table: what it says, and the order in which the rows stand.
pub trait Keyed: Copy {
    ghost Seen: { Type 0 };

    ghost seen: { Self → Seen };

    ghost order: { Seen → Seen → Ordering };

    // By the keys alone.
    fn compare(self, other: Self) -> Ordering
        ensures { result ≡ order (seen self) (seen other) };

    ghost ordered: { Ordered order };
}

impl Keyed for Fact {
    ghost Seen = { model.Fact };

    ghost seen = { fact_of };

    ghost order = { compare_fact };

    fn compare(self, other: Fact) -> Ordering {
        Fact::compare(self, other)
    }

    ghost ordered = { fact_ordered };
}

impl Keyed for FuncApp {
    ghost Seen = { model.FuncApp };

    ghost seen = { func_app_of };

    ghost order = { compare_func_app };

    fn compare(self, other: FuncApp) -> Ordering {
        FuncApp::compare(self, other)
    }

    ghost ordered = { func_app_ordered };
}

impl Keyed for PredApp {
    ghost Seen = { model.PredApp };

    ghost seen = { pred_app_of };

    ghost order = { compare_pred_app };

    fn compare(self, other: PredApp) -> Ordering {
        PredApp::compare(self, other)
    }

    ghost ordered = { pred_app_ordered };
}

fn is_less<T: Keyed>(a: T, b: T) -> bool
    ensures { result ≡ is_less (T.order (T.seen a) (T.seen b)) }
{
    match a.compare(b) {
        Ordering::Less => true,
        Ordering::Equal => false,
        Ordering::Greater => false,
    }
}

// Whether the rows are in order.
pub fn is_sorted<T: Keyed>(rows: &[T]) -> bool
    ensures { result ≡ true → Sorted T.order (map T.seen rows.now) }
{
    rows.is_sorted_by(|a, b| is_less(*a, *b))
}

// Where an entry stands among rows that are in order, or before which one it goes. The last row is looked at first, since most
// entries come in order; then by halving.
pub fn position<T: Keyed>(rows: &[T], entry: T) -> Place
    requires { Sorted T.order (map T.seen rows.now) }
    ensures { result ≡ position_from T.order (T.seen entry) 0 (map T.seen rows.now) }
{
    let n = rows.len();
    if n == 0 {
        return Place::Before(0);
    }
    if is_less(rows[n - 1], entry) {
        return Place::Before(n);
    }
    let at = rows.partition_point(|row| is_less(*row, entry));
    if is_less(entry, rows[at]) {
        return Place::Before(at);
    }
    Place::At(at)
}

// The same where the rows may be in no order: the first that is not smaller.
fn scan<T: Keyed>(rows: &[T], entry: T) -> Place
    ensures { result ≡ position_from T.order (T.seen entry) 0 (map T.seen rows.now) }
{
    for (i, row) in rows.iter().enumerate() {
        match (*row).compare(entry) {
            Ordering::Less => {}
            Ordering::Equal => return Place::At(i),
            Ordering::Greater => return Place::Before(i),
        }
    }
    Place::Before(rows.len())
}

// The same: by halving where the rows are said to be in order, else from the first on.
pub fn search<T: Keyed>(rows: &[T], sorted: bool, entry: T) -> Place
    requires { sorted ≡ true → Sorted T.order (map T.seen rows.now) }
    ensures { result ≡ position_from T.order (T.seen entry) 0 (map T.seen rows.now) }
{
    if sorted {
        return position(rows, entry);
    }
    scan(rows, entry)
}

// One row more at an index, those from there to n one place higher.
pub fn place<T: Copy>(rows: &mut [T], n: usize, at: usize, row: T)
    requires { (at ≤ n) × (n < length rows.old) }
    ensures { RowPlaced n at row rows.old rows.new }
{
    rows.copy_within(at..n, at + 1);
    rows[at] = row;
}

// Inserts an entry among the first n rows, which are in order, where its key is not there yet: gives how many there are then.
pub fn insert<T: Keyed>(rows: &mut [T], n: usize, entry: T) -> usize
    requires { (n < length rows.old) × Sorted T.order (map T.seen (take n rows.old)) }
    ensures { Inserted T.order T.seen (T.seen entry) n rows.old rows.new result }
{
    let Place::Before(at) = position(&rows[..n], entry) else {
        return n;
    };
    place(rows, n, at, entry);
    n + 1
}

// Rewrites the first n rows in place, each once, in order: the rows that are done stand before those that are to come. Of rows that
// get one key the first stays. Gives how many there are.
pub fn rewrite<T: Keyed, F: Fn(T) -> T>(rows: &mut [T], n: usize, f: F) -> usize
    requires callable { F.IsAlwaysCallable f }
    requires there { n ≤ length rows.old }
    ensures { (by : T.Seen → T.Seen) → ((row r : T) → F.post f row r → T.seen r ≡ by (T.seen row))
        → InPlaceRewritten T.order T.seen by n rows.old rows.new result }
{
    let mut k = 0;
    // By the index: rows are written in the slice that is read.
    for i in 0..n {
        let entry = f(rows[i]);
        k = insert(rows, k, entry);
    }
    k
}
