// A sheet's records along their chain, and what they print, piece by piece.
#![tactic(auto)]

ghost use Rattle.std.specs.Prelude.{◌≡◌, [], ◌-◌, ◌<◌, drop, eqb};
ghost use Rattle.semantics.specs.Sheet.{end_line, chain_broken};
ghost use Rattle.records.specs.View.{record_view};
ghost use Rattle.conflicts.specs.View.{conflicts_of};
ghost use Rattle.structure.specs.View.{machine_of};
ghost use Rattle.lines.specs.View.{line_of};
ghost use Rattle.carrying.specs.View.{carried_step};
ghost use Rattle.sheet.specs.Pieces.{is_ended, max_pieces, done_before, standing, piece as piece_m, start_of, refusal_piece, follow_of, step_piece};
ghost use Rattle.sheet.specs.Pieces.{visit_piece, list_piece, piece_at, next_piece};
ghost use Rattle.sheet.specs.View.{progress_of, piece_of};
ghost use Rattle.sheet.specs.declared.Stage.TheVariants as stages;

use carrying::Carried;
use conflicts::TypeConflicts;
use ids::Refusal;
use lines::Line;
use records::Record;
use structure::{Answer, Machine, Structure};

// What the next piece is of: the refusal of a sheet whose length is bad, a record, a line of conflicts, the last line,
// nothing any more.
#[derive(Clone, Copy)]
pub enum Stage {
    Refusing,
    Visiting,
    Listing,
    Ending,
    Ended,
}

impl Stage {
    pub fn is_ended(self) -> bool
        ensures { result ≡ is_ended self }
    {
        matches!(self, Stage::Ended)
    }
}

// Where a sheet stands.
#[derive(Clone, Copy)]
pub struct Position {
    // How many records the sheet has.
    pub count: u16,
    // The record to visit; where the chain goes after a listing, 0 ends it.
    pub index: u16,
    // How many records are done.
    pub done: u16,
}

impl Position {
    // Of a sheet with no records.
    pub const NOWHERE: Position = Position {
        count: 0,
        index: 0,
        done: 0,
    };

    // At a visit at most all records but one are done.
    fn visited(self) -> Position
        ensures { (result ≡ record { count = self.count; index = self.index; done = done_before self.count self.done }) × (result.done < 65535) }
    {
        Position {
            count: self.count,
            index: self.index,
            done: self.done.min(self.count.saturating_sub(1)),
        }
    }

    // Whether a next index is not in the sheet, or not zero on the last record that may be visited.
    fn is_broken(self, next: u16) -> bool
        ensures { result ≡ chain_broken self.count (eqb (self.count - 1 - self.done) 0) next }
    {
        self.count <= next || (self.count - 1 <= self.done && next != 0)
    }
}

// The fields of the C session (lib/): so the stage does not hold the conflicts of its listing.
#[derive(Clone, Copy)]
pub struct Progress {
    pub stage: Stage,
    pub machine: Machine,
    pub position: Position,
    // The conflicts of a listing, and how many are printed.
    pub conflicts: TypeConflicts,
    pub printed: u16,
}

// A piece of what is printed, a line or nothing, and what comes after it.
#[derive(Clone, Copy)]
pub struct Piece {
    pub line: Line,
    pub progress: Progress,
}

impl Progress {
    // At most this many pieces come until a sheet has ended: for each record a visit, the conflicts and their number,
    // and the last line.
    pub const MAX_PIECES: usize = (Structure::MAX_ELS + 2) * Record::MAX_RECORDS + 1;

    // The constant is the number that the theorem on pieces speaks of.
    pub fn max_pieces() -> usize
        ensures { result ≡ max_pieces }
    {
        Progress::MAX_PIECES
    }
}

pub fn at_stage(stage: Stage, machine: Machine, position: Position) -> Progress
    ensures { progress_of result ≡ standing stage (machine_of machine) position.count position.index position.done }
{
    Progress {
        stage,
        machine,
        position,
        conflicts: TypeConflicts::new(),
        printed: 0,
    }
}

// Before the first record of a sheet of so many bytes.
pub fn start(length: usize) -> Progress
    ensures { progress_of result ≡ start_of length }
{
    let machine = Machine::new();
    if length == 0 || length % Record::BYTES != 0 || Record::MAX_BYTES < length {
        return at_stage(Stage::Refusing, machine, Position::NOWHERE);
    }
    let position = Position {
        count: (length / Record::BYTES) as u16,
        index: 0,
        done: 0,
    };
    at_stage(Stage::Visiting, machine, position)
}

// `refused N at I`, and nothing any more.
pub fn refuse(machine: Machine, number: u16, index: u16) -> Piece
    ensures { piece_of result ≡ refusal_piece number index (machine_of machine) }
{
    Piece {
        line: lines::refused_line(number, index),
        progress: at_stage(Stage::Ended, machine, Position::NOWHERE),
    }
}

// After a record: the next one, or the last line.
fn follow(machine: Machine, position: Position) -> Progress
    ensures { progress_of result ≡ follow_of (machine_of machine) position.count position.index position.done }
{
    if position.index == 0 {
        return at_stage(Stage::Ending, machine, position);
    }
    at_stage(Stage::Visiting, machine, position)
}

// A line, after which a record is done.
fn pass(line: Line, machine: Machine, position: Position) -> Piece
    ensures { piece_of result ≡ piece_m (line_of line) (follow_of (machine_of machine) position.count position.index position.done) }
{
    Piece {
        line,
        progress: follow(machine, position),
    }
}

// What a record of an index prints that was carried out, and the position after it.
pub fn after_record(carried: Carried, index: u16, position: Position) -> Piece
    ensures { piece_of result ≡ step_piece (carried_step carried) index position.count position.index position.done }
{
    let machine = carried.machine;
    match carried.answer {
        Answer::Refused(number) => refuse(machine, number, index),
        Answer::Closed(c) => pass(
            lines::close_line(c.changed, c.merges, c.rounds, c.added),
            machine,
            position,
        ),
        Answer::Conflicting(_) => Piece {
            line: Line::new(),
            progress: Progress {
                stage: Stage::Listing,
                machine,
                position,
                conflicts: carried.conflicts,
                printed: 0,
            },
        },
        Answer::Summed(t) => pass(lines::settle_line(t.closes, t.merges), machine, position),
        Answer::Number(_) | Answer::Says(_) | Answer::Done => {
            pass(Line::new(), machine, position)
        }
    }
}

// A record is visited: its next index is looked at before it is carried out.
fn visit(progress: Progress, given: Record) -> Piece
    ensures { piece_of result ≡ visit_piece (record_view given) (progress_of progress) }
{
    let machine = progress.machine;
    let at = progress.position.visited();
    if at.is_broken(given.next) {
        return refuse(machine, Refusal::BAD_CHAIN, at.index);
    }
    let carried = carrying::carry_out(machine, given);
    let next = Position {
        count: at.count,
        index: given.next,
        done: at.done + 1,
    };
    after_record(carried, at.index, next)
}

// The next conflict, or after the last one their number.
fn list(progress: Progress) -> Piece
    ensures { piece_of result ≡ list_piece (drop progress.printed (conflicts_of progress.conflicts)) (progress_of progress) }
{
    let conflicts = progress.conflicts;
    let n = conflicts.size();
    let at = progress.printed as usize;
    if n <= at {
        let machine = progress.machine;
        let line = lines::conflicts_line(n as u16);
        return pass(line, machine, progress.position);
    }
    let c = conflicts.items[at];
    let line = lines::conflict_line(c.el, c.a, c.b);
    let mut after = progress;
    after.printed += 1;
    Piece {
        line,
        progress: after,
    }
}

// `end K`, and nothing any more.
fn end(progress: Progress) -> Piece
    ensures { piece_of result ≡ piece_m (end_line progress.position.done) (standing stages.Ended (machine_of progress.machine) 0 0 0) }
{
    Piece {
        line: lines::end_line(progress.position.done),
        progress: at_stage(Stage::Ended, progress.machine, Position::NOWHERE),
    }
}

// The next piece, where the record of the progress' index is given.
// Inlined, as `advance`: a piece that is handed on has a place of its own in each caller, set to zeros at every call.
#[inline(always)]
pub fn step(progress: Progress, given: Record) -> Piece
    ensures { piece_of result ≡ piece_at progress.stage (record_view given) (progress_of progress) }
{
    let stage = progress.stage;
    match stage {
        Stage::Refusing => {
            let machine = progress.machine;
            refuse(machine, Refusal::BAD_SHEET, 0)
        }
        Stage::Visiting => visit(progress, given),
        Stage::Listing => list(progress),
        Stage::Ending => end(progress),
        Stage::Ended => {
            let line = Line::new();
            Piece { line, progress }
        }
    }
}

// The next piece of the sheet in the first of the bytes.
#[inline(always)]
pub fn advance(progress: Progress, bytes: &[u8; Record::MAX_BYTES]) -> Piece
    ensures { piece_of result ≡ next_piece bytes.now (progress_of progress) }
{
    let given = records::record_at(bytes, progress.position.index);
    step(progress, given)
}
