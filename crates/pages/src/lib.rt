// A sheet's pieces gathered into pages, to be written a page at a time.
#![tactic(auto)]

ghost use Rattle.std.specs.Prelude.{◌+◌, ◌≤◌, length};
ghost use Rattle.lines.specs.View.{max_line, line_of};
ghost use Rattle.sheet.specs.View.{progress_of};
ghost use Rattle.pages.specs.Pages.{Filled, Put};

use lines::Line;
use records::Record;
use sheet::Progress;

// A page: the first `len` bytes of a text, and what comes after it. The caller lends the text: there is no heap, and one text serves all pages.
#[derive(Clone, Copy)]
pub struct Page {
    pub len: usize,
    pub progress: Progress,
}

impl Page {
    // The bytes of the longest page.
    pub const MAX_LEN: usize = 4096;
}

// A line's bytes after the first n of the text, where there is room for the longest line.
fn put_line(text: &mut [u8], n: usize, line: Line) -> usize
    requires { n + max_line ≤ length text.old }
    ensures { Put text.old n (line_of line) text.new result }
{
    let line = line.as_slice();
    let end = n + line.len();
    text[n..end].copy_from_slice(line);
    end
}

// The next page: pieces as long as there is room for the longest line, up to the last.
pub fn fill(
    progress: Progress,
    bytes: &[u8; Record::MAX_BYTES],
    text: &mut [u8; Page::MAX_LEN],
) -> Page
    ensures { Filled bytes.now (progress_of progress) text.new result.len (progress_of result.progress) }
{
    let mut at = progress;
    let mut n = 0;
    while n <= Page::MAX_LEN - Line::MAX_LEN && !at.stage.is_ended() {
        let piece = sheet::advance(at, bytes);
        n = put_line(text, n, piece.line);
        at = piece.progress;
    }
    Page {
        len: n,
        progress: at,
    }
}
