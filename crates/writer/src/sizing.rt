// How many bytes a text has, and whether it fits.
ghost use Rattle.std.specs.Prelude.{◌≡◌, ◌*◌, ◌≤◌, length};
ghost use Rattle.rows.specs.Limits.{ROWS, FIELDS};
ghost use Rattle.rows.specs.Rows.{rows_in};
ghost use Rattle.writer.specs.Writing.{LINE_MOST, lines_of, header_of, text_of, text_fits};

// The header's line has so many bytes.
const HEADER_LENGTH: usize = 41;

// No line of a row that passed has more bytes: two digits each for process and file, a word of five letters, ten digits each for offset and length,
// five commas, CR and LF.
const LINE_MOST: usize = 36;

// Whether the text of rows that passed fits behind the place. The lines are measured only where there is no room for as many of the longest.
pub(crate) fn text_fits(out_len: usize, place: usize, rows: &[u32], n: usize, header: u32) -> bool
    requires { (n ≤ ROWS) × (length (lines_of (rows_in n rows.now)) ≤ LINE_MOST * n) }
    ensures { result ≡ text_fits out_len place (text_of header (rows_in n rows.now)) }
{
    if out_len < place {
        return false;
    }
    let space = out_len - place;
    if HEADER_LENGTH + LINE_MOST * n <= space {
        return true;
    }
    header_length(header) + lines_length(rows, n) <= space
}

// Answers how many bytes the header has: none where the header word is not 1.
fn header_length(header: u32) -> usize
    ensures { result ≡ length (header_of header) }
{
    if header == 1 { HEADER_LENGTH } else { 0 }
}

// Answers how many bytes the lines of the first n rows have.
fn lines_length(rows: &[u32], n: usize) -> usize
    requires { n ≤ ROWS }
    ensures { result ≡ length (lines_of (rows_in n rows.now)) }
{
    let mut lines = 0;
    for row in rows::first_rows(rows, n) {
        lines += writer_line::record_length(row);
    }
    lines
}
