// The rows and columns of a file (02, M-104; docs/FILE.md).
#![tactic(auto)]

use signature::Signature;
use structure::Structure;

// How many numbers a row has at most.
pub const WIDTH: usize = 12;

// What an entry puts into its columns; places that its table does not have are zero.
pub type Row = [u16; WIDTH];

// How many columns of bytes each table has, and the counts of the head.
#[derive(Clone, Copy)]
pub struct File;

impl File {
    pub const COUNTS: usize = 8;

    pub const HEAD_BYTES: usize = 2 * File::COUNTS;

    pub const FACT_COLUMNS: usize = 6;

    pub const FUNC_APP_COLUMNS: usize = 12;

    pub const PRED_APP_COLUMNS: usize = 11;

    pub const IMPOSITION_COLUMNS: usize = 7;

    pub const PAIR_COLUMNS: usize = 2;

    // The bytes of the longest file.
    pub const MAX_BYTES: usize = File::HEAD_BYTES
        + 4 * Structure::MAX_ELS
        + (File::FACT_COLUMNS + 2) * Structure::MAX_FACTS
        + File::FUNC_APP_COLUMNS * Structure::MAX_FUNC_APPS
        + File::PRED_APP_COLUMNS * Structure::MAX_PRED_APPS
        + File::IMPOSITION_COLUMNS * Structure::MAX_IMPOSITIONS
        + File::PAIR_COLUMNS * Structure::MAX_VARS
        + File::PAIR_COLUMNS * Signature::MAX_TYPES
        + File::PAIR_COLUMNS * Structure::MAX_PAIRS
        + 2;
}
