// Puts the header and the rows' lines into a lent slice.
ghost use Rattle.std.specs.Prelude.{◌≡◌, ◌+◌, ◌*◌, ◌≤◌, length};
ghost use Rattle.print.specs.Puts.{lay};
ghost use Rattle.rows.specs.Limits.{FIELDS};
ghost use Rattle.rows.specs.Rows.{rows_in};
ghost use Rattle.writer.specs.Writing.{lines_of, header_of};

// Puts the header's line where the header word is 1, and answers the index behind it.
pub(crate) fn put_header(out: &mut [u8], at: usize, header: u32) -> usize
    requires { at + length (header_of header) ≤ length out.old }
    ensures answer { result ≡ at + length (header_of header) }
    ensures left { out.new ≡ lay out.old at (header_of header) }
{
    if header == 1 {
        print::put(out, at, b"process,kind,file,offset,length,message\r\n")
    } else {
        at
    }
}

// Puts the lines of the first n rows from an index on, each row's line at the front of the rest of the slice, and answers the index behind them.
pub(crate) fn put_rows(out: &mut [u8], start: usize, rows: &[u32], n: usize) -> usize
    requires { start + length (lines_of (rows_in n rows.now)) ≤ length out.old }
    ensures answer { result ≡ start + length (lines_of (rows_in n rows.now)) }
    ensures left { out.new ≡ lay out.old start (lines_of (rows_in n rows.now)) }
{
    let mut at = start;
    for row in rows::first_rows(rows, n) {
        at += writer_line::put_record(&mut out[at..], row);
    }
    at
}
