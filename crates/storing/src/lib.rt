// Storing a structure (02, M-104; docs/FILE.md): its tables as rows of numbers, and the rows by columns into a buffer.
#![tactic(auto)]

ghost use Rattle.std.specs.Prelude.{◌≡◌, ℕ, List, [], ◌∷◌, map, ◌+◌, ◌*◌, ◌≤◌, length, take, get_or};
ghost use Rattle.ids.specs.Ids.{els_of};
ghost use Rattle.unification.specs.Roots.{max_els};
ghost use Rattle.semantics.specs.Structure.{max_vars};
ghost use Rattle.semantics.specs.Sheet.{bit};
ghost use Rattle.facts.specs.View.{fact_of, facts_of};
ghost use Rattle.apps.specs.View.{func_app_of, pred_app_of};
ghost use Rattle.equalities.specs.View.{pair_of};
ghost use Rattle.structure.specs.View.{structure_of};
ghost use Rattle.file.specs.Layout as layout;
ghost use Rattle.file.specs.Layout.{word_bytes, column, by_columns, joined};
ghost use Rattle.file.specs.Rows.{fact_columns, func_app_columns, pred_app_columns, imposition_columns, pair_columns, places, fact_row, func_app_row, pred_app_row};
ghost use Rattle.file.specs.Rows.{imposition_row, pair_row};
ghost use Rattle.file.specs.File as parking;
ghost use Rattle.file.specs.File.{nexts, store_into};
ghost use Rattle.storing.specs.View.{Written, Held, Rows, Firsts, slot_rows, stored_of, max_bytes, fact_bytes, rest_bytes, fact_parts, app_parts, rest_parts};

use apps::{FuncApp, FuncApps, PredApp, PredApps};
use bindings::Slot;
use equalities::{Pair, Pairs};
use facts::{Fact, Facts, Impositions};
use file_rows::{File, Row, WIDTH};
use ids::{ElIds, Refusal};
use signature::Signature;
use structure::Structure;

// What stands in one byte of a file.
trait InByte: Copy {
    ghost byte: { Self → ℕ };

    fn byte(self) -> u8
        ensures { result ≡ byte self };
}

impl InByte for u16 {
    ghost byte = { layout.byte };

    fn byte(self) -> u8 {
        (self % 256) as u8
    }
}

impl InByte for bool {
    ghost byte = { bit };

    fn byte(self) -> u8 {
        u8::from(self)
    }
}

// The number that a row holds at a place.
fn cell(row: &Row, j: usize) -> u16
    ensures { result ≡ get_or row.now j 0 }
{
    if j < WIDTH { row[j] } else { 0 }
}

// ---- bytes into a buffer

// Each begins at an index of the buffer and gives the one where it ends. With a slice from there on each caller would have to add up what was written before.

// A byte each.
fn put_bytes<T: InByte>(values: &[T], buffer: &mut [u8], at: usize) -> usize
    requires { at + length values.now ≤ length buffer.old }
    ensures { Written buffer.old at (map T.byte values.now) buffer.new result }
{
    let mut end = at;
    for value in values {
        buffer[end] = value.byte();
        end += 1;
    }
    end
}

// Two bytes each.
fn put_words(words: &[u16], buffer: &mut [u8], at: usize) -> usize
    requires { at + 2 * length words.now ≤ length buffer.old }
    ensures { Written buffer.old at (word_bytes words.now) buffer.new result }
{
    let mut end = at;
    for word in words {
        let [low, high] = word.to_le_bytes();
        buffer[end] = low;
        buffer[end + 1] = high;
        end += 2;
    }
    end
}

// What the rows hold at place j.
fn put_column(rows: &[Row], j: usize, buffer: &mut [u8], at: usize) -> usize
    requires { at + length rows.now ≤ length buffer.old }
    ensures { Written buffer.old at (column j rows.now) buffer.new result }
{
    let mut end = at;
    for row in rows {
        buffer[end] = cell(row, j).byte();
        end += 1;
    }
    end
}

// The first k columns of the rows.
fn put_columns(rows: &[Row], k: usize, buffer: &mut [u8], at: usize) -> usize
    requires { at + k * length rows.now ≤ length buffer.old }
    ensures { Written buffer.old at (by_columns k rows.now) buffer.new result }
{
    let mut end = at;
    for j in 0..k {
        end = put_column(rows, j, buffer, end);
    }
    end
}

// ---- tables as rows

// A table of entries, each of which is a row of the file.
trait Table {
    type Entry: Copy;

    const COLUMNS: usize;

    ghost COLUMNS: { ℕ };

    ghost row_of: { Self.Entry → List ℕ };

    fn row(entry: Self::Entry) -> Row
        ensures { take COLUMNS result ≡ row_of entry };
}

// The entries of a table, by way of an array of rows that has room for them.
fn put_table<T: Table>(
    entries: &[T::Entry],
    rows: &mut [Row],
    buffer: &mut [u8],
    at: usize,
) -> usize
    requires rows { length entries.now ≤ length rows.old }
    requires bytes { at + T.COLUMNS * length entries.now ≤ length buffer.old }
    ensures { Written buffer.old at (by_columns T.COLUMNS (map T.row_of entries.now)) buffer.new result }
{
    for (i, entry) in entries.iter().enumerate() {
        rows[i] = T::row(*entry);
    }
    put_columns(&rows[..entries.len()], T::COLUMNS, buffer, at)
}

// The element at a place of a list; 0 past its last.
fn place(list: ElIds, j: usize) -> u16
    ensures { result ≡ get_or (els_of list) j 0 }
{
    if list.size() <= j {
        return 0;
    }
    list.ids[j].0
}

// A list in its places, and then how many there are.
fn places(list: ElIds) -> [u16; ElIds::MAX_LEN + 1]
    ensures { result ≡ places (els_of list) }
{
    let count = list.size() as u16;
    [
        place(list, 0),
        place(list, 1),
        place(list, 2),
        place(list, 3),
        count,
    ]
}

impl Table for Facts {
    type Entry = Fact;

    const COLUMNS: usize = File::FACT_COLUMNS;

    ghost COLUMNS = { fact_columns };

    ghost row_of = { λ f. fact_row (fact_of f) };

    fn row(fact: Fact) -> Row {
        let [a, b, c, d, count] = places(fact.ct.parents);
        [fact.ct.typ.0, a, b, c, d, count, 0, 0, 0, 0, 0, 0]
    }
}

impl Table for Impositions {
    type Entry = Fact;

    const COLUMNS: usize = File::IMPOSITION_COLUMNS;

    ghost COLUMNS = { imposition_columns };

    ghost row_of = { λ f. imposition_row (fact_of f) };

    fn row(fact: Fact) -> Row {
        let [a, b, c, d, count] = places(fact.ct.parents);
        let el = fact.el.0;
        [el, fact.ct.typ.0, a, b, c, d, count, 0, 0, 0, 0, 0]
    }
}

impl Table for FuncApps {
    type Entry = FuncApp;

    const COLUMNS: usize = File::FUNC_APP_COLUMNS;

    ghost COLUMNS = { func_app_columns };

    ghost row_of = { λ x. func_app_row (func_app_of x) };

    fn row(app: FuncApp) -> Row {
        let [a, b, c, d, parents] = places(app.parents);
        let [e, f, g, h, args] = places(app.args);
        [
            app.func.0,
            a,
            b,
            c,
            d,
            parents,
            e,
            f,
            g,
            h,
            args,
            app.result.0,
        ]
    }
}

impl Table for PredApps {
    type Entry = PredApp;

    const COLUMNS: usize = File::PRED_APP_COLUMNS;

    ghost COLUMNS = { pred_app_columns };

    ghost row_of = { λ x. pred_app_row (pred_app_of x) };

    fn row(app: PredApp) -> Row {
        let [a, b, c, d, parents] = places(app.parents);
        let [e, f, g, h, args] = places(app.args);
        [app.pred.0, a, b, c, d, parents, e, f, g, h, args, 0]
    }
}

impl Table for Pairs {
    type Entry = Pair;

    const COLUMNS: usize = File::PAIR_COLUMNS;

    ghost COLUMNS = { pair_columns };

    ghost row_of = { λ p. pair_row (pair_of p) };

    fn row(pair: Pair) -> Row {
        pair_row(pair.lhs.0, pair.rhs.0)
    }
}

// A row of two numbers.
fn pair_row(x: u16, y: u16) -> Row
    ensures { take pair_columns result ≡ x ∷ y ∷ [] }
{
    [x, y, 0, 0, 0, 0, 0, 0, 0, 0, 0, 0]
}

// The slots that are given as rows: gives how many there are.
fn fill_slots(rows: &mut [Row], slots: &[Slot]) -> usize
    requires rows { length rows.old ≡ length slots.now }
    requires keys { length slots.now ≤ max_vars }
    ensures { Rows pair_columns (slot_rows slots.now) (length slots.now) rows.new result }
{
    let mut n = 0;
    for (key, slot) in slots.iter().enumerate() {
        if slot.given {
            rows[n] = pair_row(key as u16, slot.el.0);
            n += 1;
        }
    }
    n
}

// ---- the chains of facts

// The next index of each fact. The index tells two neighbours and the place that is written.
fn nexts_of(table: Facts) -> [u16; Structure::MAX_FACTS]
    ensures { take (length (facts_of table)) result ≡ nexts (facts_of table) }
{
    let n = table.size();
    let mut nexts = [0u16; Structure::MAX_FACTS];
    for i in 1..n {
        let before = table.items[i - 1];
        let here = table.items[i];
        if before.el.0 != here.el.0 {
            continue;
        }
        nexts[i - 1] = (i + 1) as u16;
    }
    nexts
}

// The index of the first fact of each element.
fn firsts_of(table: Facts) -> [u16; Structure::MAX_ELS]
    ensures { Firsts max_els (facts_of table) result }
{
    let mut firsts = [0u16; Structure::MAX_ELS];
    for (i, fact) in table.items[..table.size()].iter().enumerate() {
        let el = fact.el.0 as usize;
        if Structure::MAX_ELS <= el {
            continue;
        }
        if firsts[el] != 0 {
            continue;
        }
        firsts[el] = (i + 1) as u16;
    }
    firsts
}

// ---- the file

// The counts, the links, and the facts with their chains.
fn write_facts(structure: Structure, counts: [u16; File::COUNTS], file: &mut [u8]) -> usize
    requires { length file.old ≡ max_bytes }
    ensures { Written file.old 0 (joined (fact_parts counts (structure_of structure))) file.new result }
{
    let u = structure.unification;
    let n = u.size();
    let links = u.links;
    let facts = structure.els;
    let m = facts.size();
    let nexts = nexts_of(facts);
    let mut rows = [[0u16; WIDTH]; Structure::MAX_FACTS];
    let head = put_words(&counts, file, 0);
    let linked = put_bytes(&links[..n], file, head);
    let stored = put_table::<Facts>(&facts.items[..m], &mut rows, file, linked);
    put_words(&nexts[..m], file, stored)
}

// The applications and the impositions.
fn write_apps(structure: Structure, file: &mut [u8], at: usize) -> usize
    requires { (length file.old ≡ max_bytes) × (at ≤ fact_bytes) }
    ensures { Written file.old at (joined (app_parts (structure_of structure))) file.new result }
{
    let funcs = structure.func_apps;
    let preds = structure.pred_apps;
    let impositions = structure.pending_type_impositions;
    let mut rows = [[0u16; WIDTH]; Structure::MAX_FUNC_APPS];
    let applied = put_table::<FuncApps>(&funcs.items[..funcs.size()], &mut rows, file, at);
    let said = put_table::<PredApps>(&preds.items[..preds.size()], &mut rows, file, applied);
    put_table::<Impositions>(
        &impositions.items[..impositions.size()],
        &mut rows,
        file,
        said,
    )
}

// The marks, the pairs (the oldest first), where the chains begin, and the flags.
fn write_rest(structure: Structure, file: &mut [u8], at: usize) -> usize
    requires { (length file.old ≡ max_bytes) × (at + rest_bytes ≤ max_bytes) }
    ensures { Written file.old at (joined (rest_parts (structure_of structure))) file.new result }
{
    let u = structure.unification;
    let n = u.size();
    let marks = structure.inferred_parent_els;
    let pairs = structure.pending_equalities;
    let facts = structure.els;
    let firsts = firsts_of(facts);
    let mut rows = [[0u16; WIDTH]; Structure::MAX_PAIRS];
    let marked = put_bytes(&marks[..n], file, at);
    let queued = put_table::<Pairs>(&pairs.items[..pairs.size()], &mut rows, file, marked);
    let end = put_words(&firsts[..n], file, queued);
    put_bytes(&[structure.settled, structure.started], file, end)
}

// The file of a structure, at the front of an array that has room for the longest.
pub fn write(structure: Structure, file: &mut [u8]) -> usize
    requires { length file.old ≡ max_bytes }
    ensures { Written file.old 0 (parking.store (structure_of structure)) file.new result × Held (structure_of structure) }
{
    let u = structure.unification;
    let facts = structure.els;
    let funcs = structure.func_apps;
    let preds = structure.pred_apps;
    let impositions = structure.pending_type_impositions;
    let queue = structure.pending_equalities;
    let var_els = structure.var_els;
    let ambient_els = structure.ambient_model_els;
    let mut vars = [[0u16; WIDTH]; Structure::MAX_VARS];
    let mut ambients = [[0u16; WIDTH]; Signature::MAX_TYPES];
    let var_count = fill_slots(&mut vars, &var_els.slots);
    let ambient_count = fill_slots(&mut ambients, &ambient_els.slots);
    let counts = [
        u.size() as u16,
        facts.size() as u16,
        funcs.size() as u16,
        preds.size() as u16,
        impositions.size() as u16,
        var_count as u16,
        ambient_count as u16,
        queue.size() as u16,
    ];
    let chained = write_facts(structure, counts, file);
    let applied = write_apps(structure, file, chained);
    let bound = put_columns(&vars[..var_count], File::PAIR_COLUMNS, file, applied);
    let given = put_columns(&ambients[..ambient_count], File::PAIR_COLUMNS, file, bound);
    write_rest(structure, file, given)
}

// The file of a structure at the front of a buffer, the rest of which is left as it was, and how long it is; 9 where the buffer is too short.
pub fn store(structure: Structure, buffer: &mut [u8]) -> Result<usize, u16>
    ensures { stored_of result buffer.new ≡ store_into (structure_of structure) buffer.old }
{
    let mut file = [0u8; File::MAX_BYTES];
    let n = write(structure, &mut file);
    if buffer.len() < n {
        return Err(Refusal::NO_ROOM);
    }
    buffer[..n].copy_from_slice(&file[..n]);
    Ok(n)
}
