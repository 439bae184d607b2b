// The calls of the C library (lib/): a session, which the caller keeps between two calls. No enum can be handed over to C, so a session holds
// numbers and bools alone: the kind of a type and the stage of a sheet are numbers, and so are the answers and refusals that are handed back.
#![tactic(auto)]

ghost use Rattle.std.specs.Prelude.{◌≡◌};
ghost use Rattle.ids.specs.Table.{Sized};
ghost use Rattle.signature.specs.Model.{max_types, type_of, view_types, sig_of};
ghost use Rattle.file.specs.File.{load, store_into};
ghost use Rattle.semantics.specs.Sheet.{record_at};
ghost use Rattle.structure.specs.View.{structure_of};
ghost use Rattle.carrying.specs.View.{carried_step};
ghost use Rattle.lines.specs.View.{line_of};
ghost use Rattle.sheet.specs.Pieces.{piece as piece_m, next_piece};
ghost use Rattle.sheet.specs.View.{progress_of, piece_of};
ghost use Rattle.pechunaq.specs.Session.{stage_at, numbers_of, counted, is_over, whole_records, begun, begun_sheet, handed_in, up_to_line, next_line, parked, resumed};
ghost use Rattle.pechunaq.specs.View.{type_in, types_in, signature_in, progress_in, session_of, reply_of, handed_in_of, taken_of, parked_of, resumed_of};

use carrying::Carried;
use conflicts::TypeConflicts;
use ids::TypeIds;
use lines::Line;
use records::Record;
use sheet::{Piece, Position, Progress, Stage};
use signature::{Funcs, Models, MorAppFuncs, Preds, Signature, Type, TypeKind, Types};
use structure::{Answer, Machine, Structure};

// A type whose kind is two numbers, as in a record of kind 1: the kind, and the model of a Mor.
#[repr(C)]
#[derive(Clone, Copy)]
pub struct TypeRow {
    pub kind: u16,
    pub model: u16,
    pub parents: TypeIds,
}

#[repr(C)]
#[derive(Clone, Copy)]
pub struct TypeRows {
    pub items: [TypeRow; Signature::MAX_TYPES],
    pub len: u16,
}

// A machine, and how the sheet stands that is run on it: `Progress`, and a line that is still to be taken.
#[repr(C)]
#[derive(Clone, Copy)]
pub struct Session {
    pub types: TypeRows,
    pub preds: Preds,
    pub funcs: Funcs,
    pub models: Models,
    pub mor_app_funcs: MorAppFuncs,
    pub structure: Structure,
    pub stage: u16,
    pub count: u16,
    pub index: u16,
    pub done: u16,
    pub conflicts: TypeConflicts,
    pub printed: u16,
    pub line: Line,
}

// What a record was answered: which answer it is, and its numbers.
#[repr(C)]
#[derive(Clone, Copy)]
pub struct Reply {
    pub kind: u16,
    pub numbers: [u64; 4],
}

#[repr(C)]
#[derive(Clone, Copy)]
pub struct HandedIn {
    pub answer: Reply,
    pub session: Session,
}

// A line, which is empty where no more comes.
#[repr(C)]
#[derive(Clone, Copy)]
pub struct Taken {
    pub line: Line,
    pub session: Session,
}

// How many bytes a file has, and 0; or 0, and the number of the refusal.
#[repr(C)]
#[derive(Clone, Copy)]
pub struct Parked {
    pub size: usize,
    pub refused: u16,
}

// 0, or the number of the refusal.
#[repr(C)]
#[derive(Clone, Copy)]
pub struct Resumed {
    pub refused: u16,
    pub session: Session,
}

// The answers by their numbers in C.
impl Reply {
    pub const DONE: u16 = 0;

    pub const NUMBER: u16 = 1;

    pub const SAYS: u16 = 2;

    pub const CLOSED: u16 = 3;

    pub const CONFLICTING: u16 = 4;

    pub const SUMMED: u16 = 5;

    pub const REFUSED: u16 = 6;
}

// ---- a session and what it stands for

impl From<Type> for TypeRow {
    ghost from_gives = { λ t row. type_in row ≡ type_of t };

    fn from(t: Type) -> TypeRow {
        let (kind, model) = match t.kind {
            TypeKind::Plain => (0, 0),
            TypeKind::Model => (1, 0),
            TypeKind::Enum => (2, 0),
            TypeKind::Mor(model) => (3, model.0),
        };
        TypeRow {
            kind,
            model,
            parents: t.parents,
        }
    }
}

impl From<TypeRow> for Type {
    ghost from_gives = { λ row t. type_of t ≡ type_in row };

    fn from(row: TypeRow) -> Type {
        Type {
            kind: carrying::type_kind(row.kind, row.model),
            parents: row.parents,
        }
    }
}

impl From<Types> for TypeRows {
    ghost from_gives = { λ types rows. types_in rows ≡ view_types types };

    // The rows that are in use. The others are as in a new table.
    fn from(types: Types) -> TypeRows {
        let n = types.size();
        let none = TypeRow {
            kind: 0,
            model: 0,
            parents: TypeIds::new(),
        };
        let mut rows = TypeRows {
            items: [none; Signature::MAX_TYPES],
            len: 0,
        };
        for i in 0..n as usize {
            rows.items[i] = TypeRow::from(types.items[i]);
        }
        rows.len = n;
        rows
    }
}

impl From<TypeRows> for Types {
    ghost from_gives = { λ rows types. view_types types ≡ types_in rows };

    // The rows that are in use: a length over the limit counts as the limit. The other types are as in a new table.
    fn from(rows: TypeRows) -> Types {
        let n = rows.len.min(Signature::MAX_TYPES as u16);
        let mut types = Signature::new().types;
        for i in 0..n as usize {
            types.items[i] = Type::from(rows.items[i]);
        }
        types.len = n;
        types
    }
}

// The stages by their numbers in C.

fn stage_number(stage: Stage) -> u16
    ensures { stage_at result ≡ stage }
{
    match stage {
        Stage::Refusing => 0,
        Stage::Visiting => 1,
        Stage::Listing => 2,
        Stage::Ending => 3,
        Stage::Ended => 4,
    }
}

fn stage_of(number: u16) -> Stage
    ensures { result ≡ stage_at number }
{
    match number {
        0 => Stage::Refusing,
        1 => Stage::Visiting,
        2 => Stage::Listing,
        3 => Stage::Ending,
        _ => Stage::Ended,
    }
}

fn signature_of(session: Session) -> Signature
    ensures { sig_of result ≡ signature_in session }
{
    Signature {
        types: Types::from(session.types),
        preds: session.preds,
        funcs: session.funcs,
        models: session.models,
        mor_app_funcs: session.mor_app_funcs,
    }
}

impl From<Session> for Piece {
    ghost from_gives = { λ session piece. piece_of piece ≡ session_of session };

    fn from(session: Session) -> Piece {
        Piece {
            line: session.line,
            progress: Progress {
                stage: stage_of(session.stage),
                machine: Machine {
                    signature: signature_of(session),
                    structure: session.structure,
                },
                position: Position {
                    count: session.count,
                    index: session.index,
                    done: session.done,
                },
                conflicts: session.conflicts,
                printed: session.printed,
            },
        }
    }
}

impl From<Piece> for Session {
    ghost from_gives = { λ piece session. session_of session ≡ piece_of piece };

    fn from(piece: Piece) -> Session {
        let progress = piece.progress;
        let signature = progress.machine.signature;
        Session {
            types: TypeRows::from(signature.types),
            preds: signature.preds,
            funcs: signature.funcs,
            models: signature.models,
            mor_app_funcs: signature.mor_app_funcs,
            structure: progress.machine.structure,
            stage: stage_number(progress.stage),
            count: progress.position.count,
            index: progress.position.index,
            done: progress.position.done,
            conflicts: progress.conflicts,
            printed: progress.printed,
            line: piece.line,
        }
    }
}

// ---- a session begins

// The empty machine, to which records are handed in.
#[unsafe(no_mangle)]
pub extern "C" fn pechunaq_begin() -> Session
    ensures { session_of result ≡ begun }
{
    Session::from(Piece {
        line: Line::new(),
        progress: sheet::at_stage(Stage::Ended, Machine::new(), Position::NOWHERE),
    })
}

// A sheet of so many bytes, before its first record.
#[unsafe(no_mangle)]
pub extern "C" fn pechunaq_begin_sheet(length: usize) -> Session
    ensures { session_of result ≡ begun_sheet length }
{
    Session::from(Piece {
        line: Line::new(),
        progress: sheet::start(length),
    })
}

// ---- a record is handed in

// The numbers of an answer, and how many conflicts stand beside it.
impl From<Carried> for Reply {
    ghost from_gives = { λ carried reply. reply_of reply ≡ numbers_of (carried_step carried).answer };

    fn from(carried: Carried) -> Reply {
        let (kind, numbers) = match carried.answer {
            Answer::Done => (Reply::DONE, [0; 4]),
            Answer::Number(n) => (Reply::NUMBER, [u64::from(n), 0, 0, 0]),
            Answer::Says(b) => (Reply::SAYS, [u64::from(b), 0, 0, 0]),
            Answer::Closed(c) => (
                Reply::CLOSED,
                [u64::from(c.changed), c.merges, c.rounds, c.added],
            ),
            Answer::Conflicting(finds) => (
                Reply::CONFLICTING,
                [carried.conflicts.size() as u64, u64::from(finds), 0, 0],
            ),
            Answer::Summed(t) => (Reply::SUMMED, [t.closes, t.merges, 0, 0]),
            Answer::Refused(n) => (Reply::REFUSED, [u64::from(n), 0, 0, 0]),
        };
        Reply { kind, numbers }
    }
}

// A record is carried out on the machine. Its lines come next, and what was still to be printed is dropped. Its next index is not looked at.
#[unsafe(no_mangle)]
pub extern "C" fn pechunaq_hand_in(session: Session, bytes: &[u8; Record::BYTES]) -> HandedIn
    ensures { handed_in_of result ≡ handed_in (record_at bytes.now 0) (session_of session) }
{
    let given = records::record_in(bytes, 0);
    let progress = Piece::from(session).progress;
    let carried = carrying::carry_out(progress.machine, given);
    let at = progress.position.done;
    // As many are counted as a word can say.
    let position = Position {
        count: 0,
        index: 0,
        done: at.saturating_add(1),
    };
    let mut after = sheet::after_record(carried, at, position);
    after.progress.position.done = position.done;
    HandedIn {
        answer: Reply::from(carried),
        session: Session::from(after),
    }
}

// ---- lines

// Whether nothing comes any more. A session without a sheet has no last line.
fn is_over(stage: Stage, count: u16) -> bool
    ensures { result ≡ is_over stage count }
{
    match stage {
        Stage::Refusing | Stage::Visiting | Stage::Listing => false,
        Stage::Ending => count == 0,
        Stage::Ended => true,
    }
}

// Pieces up to one that has a line, or to the end.
fn up_to_line(given: Piece, sheet: &[u8]) -> Piece
    ensures { piece_of result ≡ up_to_line (whole_records sheet.now) (piece_of given) }
{
    let mut piece = given;
    while piece.line.size() == 0 && !is_over(piece.progress.stage, piece.progress.position.count) {
        let next = records::record_in(sheet, piece.progress.position.index as usize);
        piece = sheet::step(piece.progress, next);
    }
    piece
}

// The next line of the sheet, or of the record that was handed in last.
#[unsafe(no_mangle)]
pub extern "C" fn pechunaq_next_line(session: Session, sheet: &[u8]) -> Taken
    ensures { taken_of result ≡ next_line (whole_records sheet.now) (session_of session) }
{
    let piece = up_to_line(Piece::from(session), sheet);
    let none = Piece {
        line: Line::new(),
        progress: piece.progress,
    };
    Taken {
        line: piece.line,
        session: Session::from(none),
    }
}

// ---- over a shutdown

// The structure is stored at the front of a buffer.
#[unsafe(no_mangle)]
pub extern "C" fn pechunaq_park(session: Session, file: &mut [u8]) -> Parked
    ensures { parked_of result file.new ≡ parked (store_into (structure_of session.structure) file.old) }
{
    match storing::store(session.structure, file) {
        Ok(size) => Parked { size, refused: 0 },
        Err(refused) => Parked { size: 0, refused },
    }
}

// The structure of a file, under the signature of the session, takes the place of the session's.
#[unsafe(no_mangle)]
pub extern "C" fn pechunaq_resume(session: Session, file: &[u8]) -> Resumed
    ensures { resumed_of result ≡ resumed (load (signature_in session) file.now) (session_of session) }
{
    let loading = loading::load(signature_of(session), file);
    match loading.answer {
        Ok(()) => {
            let mut after = session;
            after.structure = loading.structure;
            Resumed {
                refused: 0,
                session: after,
            }
        }
        Err(refused) => Resumed { refused, session },
    }
}

// ---- the question

// Whether the structure is settled (02, M-101).
#[unsafe(no_mangle)]
pub extern "C" fn pechunaq_is_settled(session: Session) -> bool
    ensures { result ≡ (structure_of session.structure).settled }
{
    session.structure.is_settled()
}
