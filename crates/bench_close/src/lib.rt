// A sheet built up to its first close, settle or conflicts, and that one run many times, or a list of calls, and what it leaves stored or loaded
// many times, for bench/ to time. It is no part of the port.
#![tactic(auto)]

ghost use Rattle.std.specs.Prelude.{◌<◌, ◌≤◌};

use conflicts::{Conflicting, TypeConflicts};
use facts::Fact;
use file_rows::File;
use loading::Loading;
use records::Record;
use signature::Signature;
use structure::{Answer, Closed, Machine, Stepped, Structure};

// The calls of a sheet that are timed.
#[derive(Clone, Copy, PartialEq, Eq)]
enum Timed {
    Close,
    Conflicts,
    Settle,
}

// The kind is of no call that is timed.
#[derive(Clone, Copy)]
struct Untimed(u16);

impl TryFrom<u16> for Timed {
    type Error = Untimed;

    fn try_from(kind: u16) -> Result<Timed, Untimed> {
        match kind {
            13 => Ok(Timed::Close),
            14 => Ok(Timed::Conflicts),
            15 => Ok(Timed::Settle),
            _ => Err(Untimed(kind)),
        }
    }
}

// The records of a sheet before its first one of a call, carried out; one that is refused changes nothing.
fn build(bytes: &[u8], timed: Timed) -> Machine {
    let mut run = Machine::new();
    let mut index: usize = 0;
    for _ in 0..Record::MAX_RECORDS {
        let record = records::record_in(bytes, index);
        if matches!(Timed::try_from(record.kind), Ok(call) if call == timed) {
            break;
        }
        run = carrying::carry_out(run, record).machine;
        index = usize::from(record.next);
        if index == 0 {
            break;
        }
    }
    run
}

// A close that does nothing: it takes and gives the structure as a close does, and answers as a close of a fresh one. The
// compiler puts no function that calls itself into the place that calls it, so the copies in and out stay; `more` is 0.
fn nothing(structure: Structure, signature: Signature, more: u16) -> Stepped {
    let mut next = structure;
    next.started = true;
    if 0 < more {
        next.settled = nothing(next, signature, more - 1).structure.settled;
    }
    let answer = Answer::Closed(Closed {
        changed: false,
        merges: 0,
        rounds: 1,
        added: 0,
    });
    Stepped {
        answer,
        structure: next,
    }
}

// Changed, merges, rounds and, last, facts added; or closes and merges; a refusal's number with 2 for changed.
fn report(answer: Answer, out: &mut [u64; 5]) {
    match answer {
        Answer::Closed(c) => {
            out[0] = u64::from(c.changed);
            out[1] = c.merges;
            out[2] = c.rounds;
            out[4] = c.added;
        }
        Answer::Summed(t) => {
            out[0] = t.closes;
            out[1] = t.merges;
            out[2] = 0;
        }
        Answer::Refused(n) => {
            out[0] = 2;
            out[1] = u64::from(n);
            out[2] = 0;
        }
        // A close or settle gives no other answer.
        _ => {}
    }
}

// A number out of one of the tables. Which one is known only when the program runs, so the whole structure has to be there.
// Each table has a name: without, a call copies the structure once more, which a call that does nothing then takes half as long again for.
fn read_of(s: Structure, at: usize) -> u16 {
    match at % 9 {
        0 => {
            let facts = s.els;
            let fact = facts.items[at % Structure::MAX_FACTS];
            fact.el.0
        }
        1 => {
            let apps = s.pred_apps;
            let app = apps.items[at % Structure::MAX_PRED_APPS];
            app.pred.0
        }
        2 => {
            let apps = s.func_apps;
            let app = apps.items[at % Structure::MAX_FUNC_APPS];
            app.result.0
        }
        3 => {
            let vars = s.var_els;
            let slot = vars.slots[at % Structure::MAX_VARS];
            slot.el.0
        }
        4 => {
            let ambients = s.ambient_model_els;
            let slot = ambients.slots[at % Signature::MAX_TYPES];
            slot.el.0
        }
        5 => {
            let unification = s.unification;
            unification.links[at % Structure::MAX_ELS]
        }
        6 => {
            let pairs = s.pending_equalities;
            let pair = pairs.items[at % Structure::MAX_PAIRS];
            pair.lhs.0
        }
        7 => {
            let impositions = s.pending_type_impositions;
            let fact = impositions.items[at % Structure::MAX_IMPOSITIONS];
            fact.el.0
        }
        _ => {
            let marks = s.inferred_parent_els;
            if marks[at % Structure::MAX_ELS] { 1 } else { 0 }
        }
    }
}

// Where the next number is read, of so many places, by what was read of the one before.
fn place(out: &[u64; 5], i: u64, places: u64) -> usize
    requires some { 0 < places }
    requires few { places ≤ 65536 }
{
    (out[3] % places + i % places) as usize
}

// A number out of the structure and the answer, so that both are used.
fn keep(stepped: Stepped, i: u64, out: &mut [u64; 5]) {
    let at = place(out, i, Structure::MAX_FACTS as u64);
    let read = read_of(stepped.structure, at);
    report(stepped.answer, out);
    out[3] = u64::from(read);
}

// A number out of a fact; which one is known only when the program runs.
fn part_of_fact(fact: Fact, at: usize) -> u16 {
    let ct = fact.ct;
    match at % 7 {
        0 => fact.el.0,
        1 => ct.typ.0,
        2 => ct.parents.len,
        3 => ct.parents.ids[0].0,
        4 => ct.parents.ids[1].0,
        5 => ct.parents.ids[2].0,
        _ => ct.parents.ids[3].0,
    }
}

// A number out of one of the conflicts, in the same way.
fn part_of_conflicts(conflicts: TypeConflicts, at: usize) -> u16 {
    let conflict = conflicts.items[at % Structure::MAX_ELS];
    match at % 3 {
        0 => conflict.el.0,
        1 => part_of_fact(conflict.a, at),
        _ => part_of_fact(conflict.b, at),
    }
}

// A number out of the structure and one out of the conflicts, so that both are used; and how many conflicts and finds there are.
fn keep_report(reported: Conflicting, i: u64, out: &mut [u64; 5]) {
    let at = place(out, i, Structure::MAX_FACTS as u64);
    let read = read_of(reported.structure, at);
    let told = part_of_conflicts(reported.conflicts, at);
    out[0] = u64::from(reported.conflicts.len);
    out[1] = u64::from(reported.finds);
    out[3] = u64::from(read) + u64::from(told);
}

// Builds the sheet once and closes it so many times. What is read of one result says where the next one is read, and is a
// flag of the next structure given, which no close and no settle looks at: so no close, and nothing that it returns, can be left out.
// The loop stands in each function: with the call as a closure a close of nothing takes 7.6 µs in place of 5.3, by more copies of the structure.
#[unsafe(no_mangle)]
pub extern "C" fn bench_close(bytes: &[u8], times: u64, out: &mut [u64; 5]) {
    let run = build(bytes, Timed::Close);
    let signature = run.signature;
    let mut structure = run.structure;
    for i in 0..times {
        structure.started = out[3] % 2 == 1;
        let stepped = close::close(structure, signature);
        keep(stepped, i, out);
    }
}

// The same with settles.
#[unsafe(no_mangle)]
pub extern "C" fn bench_settle(bytes: &[u8], times: u64, out: &mut [u64; 5]) {
    let run = build(bytes, Timed::Settle);
    let signature = run.signature;
    let mut structure = run.structure;
    for i in 0..times {
        structure.started = out[3] % 2 == 1;
        let stepped = settle::settle(structure, signature);
        keep(stepped, i, out);
    }
}

// The same with conflict reports. The flag here is `settled`, which a report hands on as given.
#[unsafe(no_mangle)]
pub extern "C" fn bench_conflicts(bytes: &[u8], times: u64, out: &mut [u64; 5]) {
    let run = build(bytes, Timed::Conflicts);
    let mut structure = run.structure;
    for i in 0..times {
        structure.settled = out[3] % 2 == 1;
        keep_report(conflicts::type_conflicts(structure), i, out);
    }
}

// The same with closes that do nothing. The last word of a record is 0, which the compiler does not know.
#[unsafe(no_mangle)]
pub extern "C" fn bench_nothing(bytes: &[u8], times: u64, out: &mut [u64; 5]) {
    let run = build(bytes, Timed::Close);
    let signature = run.signature;
    let [_, more] = records::record_in(bytes, 0).rest;
    let mut structure = run.structure;
    for i in 0..times {
        structure.started = out[3] % 2 == 1;
        let stepped = nothing(structure, signature, more);
        keep(stepped, i, out);
    }
}

// How many bytes were stored, and a byte of the file; which one is known only when the program runs.
fn keep_stored(
    stored: Result<usize, u16>,
    file: &[u8; File::MAX_BYTES],
    i: u64,
    out: &mut [u64; 5],
) {
    if let Ok(n) = stored {
        out[0] = n as u64;
    }
    let at = place(out, i, File::MAX_BYTES as u64);
    out[3] = u64::from(file[at % File::MAX_BYTES]);
}

// How many bytes were loaded, those of the longest file, and a number out of the structure; of a refusal its number.
fn keep_loaded(loading: Loading, i: u64, out: &mut [u64; 5]) {
    let at = place(out, i, Structure::MAX_FACTS as u64);
    out[3] = u64::from(read_of(loading.structure, at));
    match loading.answer {
        Ok(()) => {
            out[0] = File::MAX_BYTES as u64;
        }
        Err(number) => {
            out[0] = 0;
            out[1] = u64::from(number);
        }
    }
}

fn store_once(structure: Structure, i: u64, out: &mut [u64; 5]) {
    let mut file = [0u8; File::MAX_BYTES];
    let stored = storing::store(structure, &mut file);
    keep_stored(stored, &file, i, out);
}

// What a list of calls leaves, stored so many times. `settled` of the structure given is what was read of the file before.
#[unsafe(no_mangle)]
pub extern "C" fn bench_store(bytes: &[u8], times: u64, out: &mut [u64; 5]) {
    let mut structure = driver::run(bytes).machine.structure;
    for i in 0..times {
        structure.settled = out[3] % 2 == 1;
        store_once(structure, i, out);
    }
}

// The file of what a list of calls leaves, of the longest that there are, loaded so many times. Its byte for settled, the last but one, is
// what was read of the structure before.
#[unsafe(no_mangle)]
pub extern "C" fn bench_load(bytes: &[u8], times: u64, out: &mut [u64; 5]) {
    let run = driver::run(bytes).machine;
    let mut file = [0u8; File::MAX_BYTES];
    let _ = storing::store(run.structure, &mut file);
    for i in 0..times {
        file[File::MAX_BYTES - 2] = (out[3] % 2) as u8;
        keep_loaded(loading::load(run.signature, &file[..]), i, out);
    }
}
