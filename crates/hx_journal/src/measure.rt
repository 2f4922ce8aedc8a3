//! How far the whole blocks of a file go.
ghost use Rattle.std.specs.Prelude.{◌≡◌, ◌≢◌, ◌≤◌, length, take};
ghost use Rattle.hx_journal.specs.Lines.{text_of, lines_of};
ghost use Rattle.hx_journal.specs.Records.{sealed};

// What stands where nothing was written yet.
const UNWRITTEN: u8 = 0;

/// The end of the whole blocks of a file, and their number of lines: up to the last mark before the
/// first zero.
pub fn measure(bytes: &[u8]) -> (usize, usize)
    ensures inside { result.0 ≤ length bytes.now }
    ensures front { take result.0 bytes.now ≡ text_of (sealed (lines_of bytes.now)) }
    ensures count { result.1 ≡ length (sealed (lines_of bytes.now)) }
{
    let mut whole = (0, 0);
    let mut start = 0;
    let mut lines = 0;
    for (i, b) in bytes.iter().enumerate() {
        if *b == UNWRITTEN {
            break;
        }
        if *b == b'\n' {
            lines += 1;
            whole = ends(bytes[start], (i + 1, lines), whole);
            start = i + 1;
        }
    }
    whole
}

// The end of the whole blocks, after a line that begins with this byte: here if it is a mark.
fn ends(first: u8, here: (usize, usize), before: (usize, usize)) -> (usize, usize)
    ensures mark { first ≡ 35 → result ≡ here }
    ensures other { first ≢ 35 → result ≡ before }
{
    if first == b'#' { here } else { before }
}
