// A sheet that goes on from a parked structure (02, M-104): its first records declare the signature, under which the file is loaded. And
// a sheet carried out up to its last line, before which its structure is parked.
#![tactic(auto)]

ghost use Rattle.std.specs.Prelude.{◌≡◌, take};
ghost use Rattle.sheet.specs.Pieces.{start_of};
ghost use Rattle.sheet.specs.View.{progress_of, piece_of};
ghost use Rattle.resuming.specs.Resuming.{declares, is_due, is_last, restored_piece, Declared, Resumed, Finished};

use file_rows::File;
use ids::Refusal;
use lines::Line;
use records::Record;
use sheet::{Piece, Progress, Stage};

// Whether records of a kind declare the signature.
fn is_declaring(kind: u16) -> bool
    ensures { result ≡ declares kind }
{
    (1..=5).contains(&kind)
}

// Whether the file is loaded now: before the first record that does not declare, or before the last line.
pub fn is_due(progress: Progress, bytes: &[u8; Record::MAX_BYTES]) -> bool
    ensures { result ≡ is_due bytes.now (progress_of progress) }
{
    match progress.stage {
        Stage::Visiting => {
            let given = records::record_at(bytes, progress.position.index);
            !is_declaring(given.kind)
        }
        Stage::Ending => true,
        Stage::Refusing | Stage::Listing | Stage::Ended => false,
    }
}

// Whether only the last line is left, or nothing any more.
pub fn is_last(stage: Stage) -> bool
    ensures { result ≡ is_last stage }
{
    matches!(stage, Stage::Ending | Stage::Ended)
}

// The structure of the file takes the place of the sheet's; or the file is refused, and nothing comes any more.
pub fn restore(progress: Progress, file: &[u8]) -> Piece
    ensures { piece_of result ≡ restored_piece file.now (progress_of progress) }
{
    let machine = progress.machine;
    let index = progress.position.index;
    if File::MAX_BYTES < file.len() {
        return sheet::refuse(machine, Refusal::WRONG_LENGTH, index);
    }
    let loading = loading::load(machine.signature, file);
    match loading.answer {
        Ok(()) => {
            let mut after = progress;
            after.machine.structure = loading.structure;
            Piece {
                line: Line::new(),
                progress: after,
            }
        }
        Err(number) => sheet::refuse(machine, number, index),
    }
}

// The sheet in the first of the bytes, up to where the file is to be loaded, or up to its refusal.
pub fn declare(length: usize, bytes: &[u8; Record::MAX_BYTES]) -> Piece
    ensures { Declared bytes.now (start_of length) (piece_of result) }
{
    let mut piece = Piece {
        line: Line::new(),
        progress: sheet::start(length),
    };
    while !piece.progress.stage.is_ended() && !is_due(piece.progress, bytes) {
        piece = sheet::advance(piece.progress, bytes);
    }
    piece
}

// The sheet up to the load of the file in the first of some bytes, and with it: what is printed up to there, and what comes after it.
pub fn resume(length: usize, bytes: &[u8; Record::MAX_BYTES], file: &[u8], size: usize) -> Piece
    ensures { Resumed (take size file.now) bytes.now (start_of length) (piece_of result) }
{
    let declared = declare(length, bytes);
    if declared.progress.stage.is_ended() {
        return declared;
    }
    restore(declared.progress, &file[..file.len().min(size)])
}

// The sheet up to its last line: how it stands before it, or the refusal with which it stops.
pub fn finish(given: Piece, bytes: &[u8; Record::MAX_BYTES]) -> Piece
    ensures { Finished bytes.now (piece_of given) (piece_of result) }
{
    let mut piece = given;
    while !is_last(piece.progress.stage) {
        piece = sheet::advance(piece.progress, bytes);
    }
    piece
}
