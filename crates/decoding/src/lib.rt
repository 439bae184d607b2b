// Reading a file (02, M-104; docs/FILE.md): its counts, and the structure that its bytes say. Nothing is judged here.
#![tactic(auto)]

ghost use Rattle.std.specs.Prelude.{◌≡◌, true, ℕ, List, [], ◌∷◌, map, reverse, ◌+◌, ◌*◌, ◌≤◌, ◌<◌, length, take, drop};
ghost use Rattle.ids.specs.Ids.{els_of};
ghost use Rattle.ids.specs.Sorted.{All};
ghost use Rattle.unification.specs.Roots.{max_els};
ghost use Rattle.signature.specs.Model.{max_types};
ghost use Rattle.semantics.specs.Structure.{Var, Ambient, max_facts, max_func_apps, max_pred_apps, max_vars, max_pairs, max_impositions, compare_var, compare_ambient};
ghost use Rattle.semantics.specs.Sheet.{words};
ghost use Rattle.facts.specs.View.{fact_of, facts_of, impositions_of};
ghost use Rattle.apps.specs.View.{func_app_of, func_apps_of, pred_app_of, pred_apps_of};
ghost use Rattle.bindings.specs.View.{vars_of, ambients_of};
ghost use Rattle.equalities.specs.View.{pair_of, pairs_of};
ghost use Rattle.structure.specs.View.{structure_of};
ghost use Rattle.file.specs.Layout.{row_in, rows_in};
ghost use Rattle.file.specs.Rows.{fact_columns, func_app_columns, pred_app_columns, imposition_columns, pair_columns, fact_in, func_app_in, pred_app_in};
ghost use Rattle.file.specs.Rows.{imposition_in, var_in, ambient_in, pair_in, bit_in};
ghost use Rattle.file.specs.File.{counts, limits, head_in, any_over, in_order, content_in, structure_in};
ghost use Rattle.decoding.specs.View.{head_view, Said, PlacesOf, Fits, SetFrom, Owners, facts_owned, Keyed};

use apps::{FuncApp, FuncApps, PredApp, PredApps};
use bindings::{AmbientEl, AmbientEls, VarEl, VarEls};
use equalities::{Pair, Pairs};
use facts::{Fact, Facts, Impositions};
use file_rows::{File, Row, WIDTH};
use ids::{ElId, ElIds, FuncId, PredId, TypeId};
use signature::Signature;
use structure::Structure;
use unification::Unification;

// The counts of a file.
#[derive(Clone, Copy)]
pub struct Head {
    pub els: u16,
    pub facts: u16,
    pub func_apps: u16,
    pub pred_apps: u16,
    pub impositions: u16,
    pub vars: u16,
    pub ambients: u16,
    pub pairs: u16,
}

// Where each part of a file begins, and where the last ends.
#[derive(Clone, Copy)]
pub struct Places {
    pub links: usize,
    pub facts: usize,
    pub func_apps: usize,
    pub pred_apps: usize,
    pub impositions: usize,
    pub vars: usize,
    pub ambients: usize,
    pub marks: usize,
    pub pairs: usize,
    pub firsts: usize,
    pub flags: usize,
    pub end: usize,
}

// The counts; those that are not there are zero.
pub fn head_in(bytes: &[u8]) -> Head
    ensures { head_view result ≡ head_in bytes.now }
{
    Head {
        els: records::word(bytes, 0),
        facts: records::word(bytes, 2),
        func_apps: records::word(bytes, 4),
        pred_apps: records::word(bytes, 6),
        impositions: records::word(bytes, 8),
        vars: records::word(bytes, 10),
        ambients: records::word(bytes, 12),
        pairs: records::word(bytes, 14),
    }
}

impl Head {
    // Whether some count is over the limit of its table. `|` has no branch, so that the proof has one path.
    pub fn is_over(self) -> bool
        ensures { result ≡ any_over (counts (head_view self)) limits }
    {
        (Structure::MAX_ELS < self.els as usize)
            | (Structure::MAX_FACTS < self.facts as usize)
            | (Structure::MAX_FUNC_APPS < self.func_apps as usize)
            | (Structure::MAX_PRED_APPS < self.pred_apps as usize)
            | (Structure::MAX_IMPOSITIONS < self.impositions as usize)
            | (Structure::MAX_VARS < self.vars as usize)
            | (Signature::MAX_TYPES < self.ambients as usize)
            | (Structure::MAX_PAIRS < self.pairs as usize)
    }

    pub fn places(self) -> Places
        ensures { PlacesOf (head_view self) result }
    {
        let links = File::HEAD_BYTES;
        let facts = links + self.els as usize;
        let func_apps = facts + (File::FACT_COLUMNS + 2) * self.facts as usize;
        let pred_apps = func_apps + File::FUNC_APP_COLUMNS * self.func_apps as usize;
        let impositions = pred_apps + File::PRED_APP_COLUMNS * self.pred_apps as usize;
        let vars = impositions + File::IMPOSITION_COLUMNS * self.impositions as usize;
        let ambients = vars + File::PAIR_COLUMNS * self.vars as usize;
        let marks = ambients + File::PAIR_COLUMNS * self.ambients as usize;
        let pairs = marks + self.els as usize;
        let firsts = pairs + File::PAIR_COLUMNS * self.pairs as usize;
        let flags = firsts + 2 * self.els as usize;
        let end = flags + 2;
        Places {
            links,
            facts,
            func_apps,
            pred_apps,
            impositions,
            vars,
            ambients,
            marks,
            pairs,
            firsts,
            flags,
            end,
        }
    }
}

// ---- bytes

// What one byte of a file says.
trait InByte: Copy {
    ghost of_byte: { ℕ → Self };

    fn of_byte(b: u8) -> Self
        ensures { result ≡ of_byte b };
}

impl InByte for u16 {
    ghost of_byte = { λ b. b };

    fn of_byte(b: u8) -> u16 {
        u16::from(b)
    }
}

impl InByte for bool {
    ghost of_byte = { bit_in };

    fn of_byte(b: u8) -> bool {
        b == 1
    }
}

// A value from each byte.
fn read_bytes<T: InByte>(values: &mut [T], bytes: &[u8])
    requires { length values.old ≤ length bytes.now }
    ensures { values.new ≡ map T.of_byte (take (length values.old) bytes.now) }
{
    for (i, byte) in bytes[..values.len()].iter().enumerate() {
        values[i] = T::of_byte(*byte);
    }
}

// ---- rows

// Row i of n rows that stand in k columns.
fn row_at(columns: &[u8], n: usize, k: usize, i: usize) -> Row
    requires { (i < n) × ((k ≤ 12) × ((n ≤ max_facts) × (k * n ≤ length columns.now))) }
    ensures { take k result ≡ row_in k n columns.now i }
{
    let mut row = [0u16; WIDTH];
    let mut from = i;
    for j in 0..k {
        row[j] = u16::from(columns[from]);
        from += n;
    }
    row
}

// A table whose entries stand in rows. The view of an entry is of another type for each table, so that a relation says what a row says of it.
trait Table {
    type Entry: Copy;

    const COLUMNS: usize;

    ghost COLUMNS: { ℕ };

    // An entry is the one that a row says.
    ghost Says: { Self.Entry → List ℕ → Type 0 };

    fn entry(row: Row) -> Self::Entry
        ensures { Says result (take COLUMNS row) };
}

// As many entries as there is room for, by columns.
fn read_table<T: Table>(entries: &mut [T::Entry], columns: &[u8])
    requires narrow { T.COLUMNS ≤ 12 }
    requires many { length entries.old ≤ max_facts }
    requires bytes { T.COLUMNS * length entries.old ≤ length columns.now }
    ensures { Said T.Says T.COLUMNS (length entries.old) columns.now entries.new (length entries.old) }
{
    let n = entries.len();
    for i in 0..n {
        entries[i] = T::entry(row_at(columns, n, T::COLUMNS, i));
    }
}

// ---- entries of rows

// The list that four places and a count say.
fn list_of(a: u16, b: u16, c: u16, d: u16, len: u16) -> ElIds
    ensures { els_of result ≡ take len (a ∷ b ∷ c ∷ d ∷ []) }
{
    ElIds {
        ids: [ElId(a), ElId(b), ElId(c), ElId(d)],
        len,
    }
}

fn fact_of(row: Row, el: u16) -> Fact
    ensures { fact_of result ≡ fact_in el (take fact_columns row) }
{
    let parents = list_of(row[1], row[2], row[3], row[4], row[5]);
    Fact::new(ElId(el), TypeId(row[0]), parents)
}

impl Table for Impositions {
    type Entry = Fact;

    const COLUMNS: usize = File::IMPOSITION_COLUMNS;

    ghost COLUMNS = { imposition_columns };

    ghost Says = { λ f row. fact_of f ≡ imposition_in row };

    fn entry(row: Row) -> Fact {
        let parents = list_of(row[2], row[3], row[4], row[5], row[6]);
        Fact::new(ElId(row[0]), TypeId(row[1]), parents)
    }
}

impl Table for FuncApps {
    type Entry = FuncApp;

    const COLUMNS: usize = File::FUNC_APP_COLUMNS;

    ghost COLUMNS = { func_app_columns };

    ghost Says = { λ x row. func_app_of x ≡ func_app_in row };

    fn entry(row: Row) -> FuncApp {
        let parents = list_of(row[1], row[2], row[3], row[4], row[5]);
        let args = list_of(row[6], row[7], row[8], row[9], row[10]);
        FuncApp::new(FuncId(row[0]), parents, args, ElId(row[11]))
    }
}

impl Table for PredApps {
    type Entry = PredApp;

    const COLUMNS: usize = File::PRED_APP_COLUMNS;

    ghost COLUMNS = { pred_app_columns };

    ghost Says = { λ x row. pred_app_of x ≡ pred_app_in row };

    fn entry(row: Row) -> PredApp {
        let parents = list_of(row[1], row[2], row[3], row[4], row[5]);
        let args = list_of(row[6], row[7], row[8], row[9], row[10]);
        PredApp::new(PredId(row[0]), parents, args)
    }
}

impl Table for Pairs {
    type Entry = Pair;

    const COLUMNS: usize = File::PAIR_COLUMNS;

    ghost COLUMNS = { pair_columns };

    ghost Says = { λ p row. pair_of p ≡ pair_in row };

    fn entry(row: Row) -> Pair {
        Pair::new(ElId(row[0]), ElId(row[1]))
    }
}

// ---- links, marks, facts

fn links_in(bytes: &[u8], at: usize, n: usize) -> [u16; Structure::MAX_ELS]
    requires { (n ≤ max_els) × (at + n ≤ length bytes.now) }
    ensures { take n result ≡ take n (drop at bytes.now) }
{
    let mut links = [0u16; Structure::MAX_ELS];
    read_bytes(&mut links[..n], &bytes[at..]);
    links
}

fn marks_in(bytes: &[u8], at: usize, n: usize) -> [bool; Structure::MAX_ELS]
    requires { (n ≤ max_els) × (at + n ≤ length bytes.now) }
    ensures { take n result ≡ map bit_in (take n (drop at bytes.now)) }
{
    let mut marks = [false; Structure::MAX_ELS];
    read_bytes(&mut marks[..n], &bytes[at..]);
    marks
}

// One number into the entries from an index up to n.
fn set_from(owners: &mut [u16], from: usize, n: usize, x: u16)
    requires { n ≤ length owners.old }
    ensures { SetFrom from n x owners.old owners.new }
{
    if from < n {
        owners[from..n].fill(x);
    }
}

// The element of each of n facts: the last one whose chain begins there or before.
fn owners_in(heads: &[u8], els: usize, n: usize) -> [u16; Structure::MAX_FACTS]
    requires { (els ≤ max_els) × ((n ≤ max_facts) × (2 * els ≤ length heads.now)) }
    ensures { Owners (words (take (2 * els) heads.now)) n result }
{
    let mut owners = [0u16; Structure::MAX_FACTS];
    for e in 0..els {
        let first = records::word(heads, 2 * e) as usize;
        if first == 0 {
            continue;
        }
        set_from(&mut owners, first - 1, n, e as u16);
    }
    owners
}

// The facts of these elements.
fn facts_in(columns: &[u8], owners: &[u16]) -> Facts
    requires { (length owners.now ≤ max_facts) × (fact_columns * length owners.now ≤ length columns.now) }
    ensures { facts_of result ≡ facts_owned owners.now (length owners.now) columns.now }
{
    let mut table = Facts::new();
    let n = owners.len();
    for (i, owner) in owners.iter().enumerate() {
        table.items[i] = fact_of(row_at(columns, n, File::FACT_COLUMNS, i), *owner);
    }
    table.len = n as u16;
    table
}

// ---- applications, impositions and pairs

fn func_apps_in(bytes: &[u8], at: usize, n: usize) -> FuncApps
    requires { (n ≤ max_func_apps) × (at + func_app_columns * n ≤ length bytes.now) }
    ensures { func_apps_of result ≡ map func_app_in (rows_in func_app_columns n (drop at bytes.now)) }
{
    let mut items = FuncApps::new().items;
    read_table::<FuncApps>(&mut items[..n], &bytes[at..]);
    FuncApps {
        items,
        len: n as u16,
    }
}

fn pred_apps_in(bytes: &[u8], at: usize, n: usize) -> PredApps
    requires { (n ≤ max_pred_apps) × (at + pred_app_columns * n ≤ length bytes.now) }
    ensures { pred_apps_of result ≡ map pred_app_in (rows_in pred_app_columns n (drop at bytes.now)) }
{
    let mut items = PredApps::new().items;
    read_table::<PredApps>(&mut items[..n], &bytes[at..]);
    PredApps {
        items,
        len: n as u16,
    }
}

fn impositions_in(bytes: &[u8], at: usize, n: usize) -> Impositions
    requires { (n ≤ max_impositions) × (at + imposition_columns * n ≤ length bytes.now) }
    ensures { impositions_of result ≡ map imposition_in (rows_in imposition_columns n (drop at bytes.now)) }
{
    let mut items = Impositions::new().items;
    read_table::<Impositions>(&mut items[..n], &bytes[at..]);
    Impositions {
        items,
        len: n as u16,
    }
}

fn pairs_in(bytes: &[u8], at: usize, n: usize) -> Pairs
    requires { (n ≤ max_pairs) × (at + pair_columns * n ≤ length bytes.now) }
    ensures { pairs_of result ≡ reverse (map pair_in (rows_in pair_columns n (drop at bytes.now))) }
{
    let mut items = Pairs::new().items;
    read_table::<Pairs>(&mut items[..n], &bytes[at..]);
    Pairs {
        items,
        len: n as u16,
    }
}

// ---- bindings

// Variables and ambients are two tables of bindings, by keys of two types, and a loop says of each what its own `insert` does: two functions.

// A slot for each variable: as the file has them where they are in order, with keys below the limit.
fn vars_in(columns: &[u8], n: usize) -> VarEls
    requires { (n ≤ max_vars) × (pair_columns * n ≤ length columns.now) }
    ensures { in_order compare_var (map var_in (rows_in pair_columns n columns.now)) ≡ true
        → All (λ (v : Var). v.key < max_vars) (map var_in (rows_in pair_columns n columns.now))
        → vars_of result ≡ map var_in (rows_in pair_columns n columns.now) }
{
    let mut table = VarEls::new();
    for i in 0..n {
        let row = row_at(columns, n, File::PAIR_COLUMNS, i);
        table = table.insert(VarEl {
            key: row[0],
            el: ElId(row[1]),
        });
    }
    table
}

// The same of the ambients.
fn ambients_in(columns: &[u8], n: usize) -> AmbientEls
    requires { (n ≤ max_types) × (pair_columns * n ≤ length columns.now) }
    ensures { in_order compare_ambient (map ambient_in (rows_in pair_columns n columns.now)) ≡ true
        → All (λ (a : Ambient). a.typ < max_types) (map ambient_in (rows_in pair_columns n columns.now))
        → ambients_of result ≡ map ambient_in (rows_in pair_columns n columns.now) }
{
    let mut table = AmbientEls::new();
    for i in 0..n {
        let row = row_at(columns, n, File::PAIR_COLUMNS, i);
        table = table.insert(AmbientEl {
            typ: TypeId(row[0]),
            el: ElId(row[1]),
        });
    }
    table
}

// ---- the file

// The structure that a file says. Nexts are not looked at: where they are right they follow from the firsts.
pub fn decode(bytes: &[u8], head: Head, at: Places) -> Structure
    requires { Fits (head_view head) bytes.now × PlacesOf (head_view head) at }
    ensures { Keyed (structure_in (content_in bytes.now)) → structure_of result ≡ structure_in (content_in bytes.now) }
{
    let n = head.els as usize;
    let m = head.facts as usize;
    let links = links_in(bytes, at.links, n);
    let marks = marks_in(bytes, at.marks, n);
    let owners = owners_in(&bytes[at.firsts..], n, m);
    let facts = facts_in(&bytes[at.facts..], &owners[..m]);
    let func_apps = func_apps_in(bytes, at.func_apps, head.func_apps as usize);
    let pred_apps = pred_apps_in(bytes, at.pred_apps, head.pred_apps as usize);
    let impositions = impositions_in(bytes, at.impositions, head.impositions as usize);
    let vars = vars_in(&bytes[at.vars..], head.vars as usize);
    let ambients = ambients_in(&bytes[at.ambients..], head.ambients as usize);
    let pairs = pairs_in(bytes, at.pairs, head.pairs as usize);
    let flags = at.flags;
    let settled = bool::of_byte(bytes[flags]);
    let started = bool::of_byte(bytes[flags + 1]);
    let unification = Unification {
        links,
        len: head.els,
    };
    Structure {
        els: facts,
        pred_apps,
        func_apps,
        var_els: vars,
        ambient_model_els: ambients,
        unification,
        pending_equalities: pairs,
        pending_type_impositions: impositions,
        inferred_parent_els: marks,
        started,
        settled,
    }
}
