// A list of calls, those on files too.
use crate::out;
use crate::slot::Slot;
use crate::state::Els;
use driver::{Responded, Response};
use records::Record;
use std::io;
use std::io::Write;
use structure::{Answer, Machine};

// A call on a file.
#[derive(Clone, Copy)]
enum FileCall {
    Store,
    Change,
    Load,
    BeginAgain,
}

// The kind is of no call on a file.
#[derive(Clone, Copy)]
struct NoFileCall(u16);

impl TryFrom<u16> for FileCall {
    type Error = NoFileCall;

    fn try_from(kind: u16) -> Result<FileCall, NoFileCall> {
        match kind {
            105 => Ok(FileCall::Store),
            106 => Ok(FileCall::Change),
            107 => Ok(FileCall::Load),
            108 => Ok(FileCall::BeginAgain),
            _ => Err(NoFileCall(kind)),
        }
    }
}

// What the calls so far left. A list begins with no file.
#[derive(Drop)]
pub struct List {
    pub machine: Machine,
    slot: Slot,
}

fn put_done<W: Write>(out: &mut W) -> io::Result<()> {
    writeln!(out, "answer 1")
}

fn put_refused<W: Write>(out: &mut W, number: u16) -> io::Result<()> {
    writeln!(out, "refused {number}")
}

// The last line of an answer, after so many lines of conflicts.
fn put_answer<W: Write>(out: &mut W, answer: Answer, listed: u16) -> io::Result<()> {
    match answer {
        Answer::Number(x) => writeln!(out, "number {x}"),
        Answer::Says(b) => writeln!(out, "answer {}", u8::from(b)),
        Answer::Done => put_done(out),
        Answer::Closed(c) => {
            out::put_line(
                out,
                &lines::close_line(c.changed, c.merges, c.rounds, c.added),
            )
        }
        Answer::Conflicting(finds) => writeln!(out, "conflicts {listed} {finds}"),
        Answer::Summed(t) => out::put_line(out, &lines::settle_line(t.closes, t.merges)),
        Answer::Refused(number) => put_refused(out, number),
    }
}

fn put_responded<W: Write>(out: &mut W, responded: &Responded) -> io::Result<()> {
    let conflicts = responded.conflicts;
    for c in &conflicts.items[..conflicts.size()] {
        out::put_line(out, &lines::conflict_line(c.el, c.a, c.b))?;
    }
    match responded.response {
        Response::Answered(answer) => put_answer(out, answer, conflicts.len),
        Response::Found(found) => writeln!(out, "root {} {}", found.root.0, found.count),
        Response::Typed(typ, parents) => writeln!(out, "type {}{}", typ.0, Els(parents)),
        Response::Absent => writeln!(out, "absent"),
        Response::Els(els) => writeln!(out, "ambients{}", Els(els)),
    }
}

impl List {
    pub fn new() -> Self {
        List {
            machine: Machine::new(),
            slot: Slot::new(),
        }
    }

    // The call of a record, and its answer; with the bytes of a file that it writes where they are asked for.
    pub fn call<W: Write>(&mut self, out: &mut W, bytes: &[u8], whole: bool) -> io::Result<()> {
        let given = records::record_in(bytes, 0);
        match FileCall::try_from(given.kind) {
            Ok(FileCall::Store) => match self.slot.store(self.machine.structure, given.a) {
                Ok(()) => self.slot.put(out, whole),
                Err(number) => put_refused(out, number),
            },
            Ok(FileCall::Change) => {
                self.slot.resize(given.parent_count, given.arg_count);
                self.slot.set(given.a, (given.b % 256) as u8);
                self.slot.put(out, whole)
            }
            Ok(FileCall::Load) => {
                let loading = loading::load(self.machine.signature, self.slot.as_slice());
                match loading.answer {
                    Ok(()) => {
                        self.machine.structure = loading.structure;
                        put_done(out)
                    }
                    Err(number) => put_refused(out, number),
                }
            }
            Ok(FileCall::BeginAgain) => {
                self.machine = Machine::new();
                put_done(out)
            }
            Err(_) => {
                let responded = driver::run_from(self.machine, bytes);
                self.machine = responded.machine;
                put_responded(out, &responded)
            }
        }
    }
}
