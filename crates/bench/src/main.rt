// Runs the bench lines that are not theorems: texts through the whole call, small maps through the entries of the map of pieces, and rows
// through the machine. What it writes is held to the file stdout.
//
// The cases stand on standard input, one command on each line: a letter, then numbers with a space before each.
//
//     # WORDS                  nothing is run
//     'WORDS                   writes the words
//     .WORDS                   writes a line end, then the words
//     j H TEXT                 judges the text under commit with the header word H, one digit; in a text `<` is CR and `>` is LF
//     z                        puts 0 into every number of the maps
//     u RUN S L N M            puts a run into the maps at a place among the runs: start, length, row number, mark
//     w S L N M                writes to the first map: start, length, row number, 1 where the bytes are unpublished
//     l ROOM S L               lists the first map from a start on, a length far, with so many numbers of room
//     p SPACE V B              publishes view V to map B, both with space for so many runs
//     r SPACE V B              refreshes view V from map B
//     y SPACE V B              syncs view V with map B
//     t SPACE V B S L N        writes to view V and through to map B
//     d SPACE V B S L          refreshes view V from map B and reads it
//     h MODEL SPACE            the header of the machine and of the plain file: two processes, file 1
//     m                        makes the machine; n makes the plain file
//     a PROCESS KIND S L N     puts a row to the machine under row number N; b puts it to the plain file
//     q RUNS                   writes the first runs of the maps
#![tactic(auto)]

ghost use Rattle.std.specs.Prelude.{◌≤◌, ◌<◌, length};

use checker::Judged;
use machine_state::Machine;
use races::Race;
use rows::Row;
use rows::refusal::{Refusal, Refused};
use std::io::{self, Write};
use trace::Call;

// The most bytes of a text.
const TEXT_ROOM: usize = 160;

// The most bytes of input that are looked at.
const INPUT_ROOM: usize = 65536;

// Where the header word and the text of a line that judges one stand.
const HEADER_AT: usize = 2;

const TEXT_AT: usize = 4;

// The numbers of a run and of a piece.
const RUN: usize = 4;

const PIECE: usize = 3;

// The last place of a number in a line.
const LAST_PLACE: u32 = 9;

// The processes and the file of every machine.
const PROCESSES: u32 = 2;

const FILE: u32 = 1;

fn put<W: Write>(out: &mut W, text: &[u8]) -> io::Result<()> {
    out.write_all(text)
}

fn put_number<W: Write>(out: &mut W, n: u32) -> io::Result<()> {
    write!(out, "{n}")
}

// Writes what stands before the number at a place of a run or a piece.
fn put_before<W: Write>(out: &mut W, place: usize) -> io::Result<()> {
    if place == 0 {
        put(out, b" (")
    } else {
        put(out, b",")
    }
}

// Writes numbers in groups of `width`, which are runs or pieces.
fn put_groups<W: Write>(out: &mut W, numbers: &[u32], width: usize) -> io::Result<()>
    requires { 0 < width }
{
    for (i, n) in numbers.iter().enumerate() {
        let place = i % width;
        put_before(out, place)?;
        put_number(out, *n)?;
        if place == width - 1 {
            put(out, b")")?;
        }
    }
    Ok(())
}

// Writes two words, each with a number behind it, and a line end.
fn put_two<W: Write>(out: &mut W, word: &[u8], n: u32, second: &[u8], m: u32) -> io::Result<()> {
    put(out, word)?;
    put_number(out, n)?;
    put(out, second)?;
    put_number(out, m)?;
    put(out, b"\n")
}

// Writes what the whole call answers to a text.
fn put_judged<W: Write>(out: &mut W, answer: Result<Judged, Refused>) -> io::Result<()> {
    match answer {
        Ok(Judged { rows, race: None }) => {
            put_number(out, rows)?;
            put(out, b" rows: free\n")
        }
        Ok(
            Judged {
                rows,
                race: Some(Race { earlier, later }),
            },
        ) => {
            put_number(out, rows)?;
            put_two(out, b" rows: race ", earlier, b" ", later)
        }
        Err(refused) => put_two(
            out,
            b"refused ",
            refused.refusal.number(),
            b" at ",
            refused.place,
        ),
    }
}

// Writes a word for a refusal, and its number.
fn put_refusal<W: Write>(out: &mut W, word: &[u8], refusal: Refusal) -> io::Result<()> {
    put(out, word)?;
    put_number(out, refusal.number())
}

// Writes what an entry of the map of pieces answers: how many pieces a list has, or that it was done.
fn put_answer<W: Write>(out: &mut W, answer: Result<Option<u32>, Refusal>) -> io::Result<()> {
    match answer {
        Ok(None) => put(out, b"done:"),
        Ok(Some(n)) => {
            put_number(out, n)?;
            put(out, b" pieces:")
        }
        Err(refusal) => {
            put_refusal(out, b"refused ", refusal)?;
            put(out, b":")
        }
    }
}

// Writes whether a machine or a plain file was made.
fn put_made<W: Write>(out: &mut W, made: Result<(), Refusal>) -> io::Result<()> {
    match made {
        Ok(()) => put(out, b" made\n"),
        Err(refusal) => {
            put_refusal(out, b" refused ", refusal)?;
            put(out, b"\n")
        }
    }
}

// As many numbers as are asked for, and at most all.
fn within(n: usize, numbers: &[u32]) -> usize
    ensures { result ≤ length numbers.now }
{
    n.min(numbers.len())
}

// Writes what a step answers, and the pieces of a read.
fn put_step<W: Write>(
    out: &mut W,
    answer: Result<Option<u32>, Refusal>,
    pieces: &[u32],
) -> io::Result<()> {
    match answer {
        Ok(None) => put(out, b" done"),
        Ok(Some(n)) => {
            let end = within(n as usize * PIECE, pieces);
            put_groups(out, &pieces[..end], PIECE)
        }
        Err(refusal) => put_refusal(out, b" refused ", refusal),
    }
}

// By hand, since a number that is too large goes on modulo 2^32, and std's `parse` refuses it.
// A number with one more decimal digit, modulo 2^32. The number stays as it is where the byte is no digit or stands at another place.
fn with_digit(value: u32, here: bool, byte: u8) -> u32 {
    if !here {
        return value;
    }
    match byte {
        b'0'..=b'9' => ((value as u64 * 10 + (byte - b'0') as u64) % 4294967296) as u32,
        _ => value,
    }
}

// The place behind a byte: a space leads to the next one, up to the last place.
fn with_space(place: u32, byte: u8) -> u32 {
    if byte == b' ' && place < LAST_PLACE {
        place + 1
    } else {
        place
    }
}

// The number at a place of a line, and 0 where there is none. Places count from 1, and a space stands before each number.
fn number(line: &[u8], place: u32) -> u32 {
    let mut at = 0;
    let mut value = 0;
    for byte in line {
        at = with_space(at, *byte);
        value = with_digit(value, at == place, *byte);
    }
    value
}

// The byte at a place of a line, and 0 behind its end.
fn byte_at(line: &[u8], at: usize) -> u8 {
    line.get(at).copied().unwrap_or(0)
}

// The byte that a byte of the table stands for.
fn text_byte(byte: u8) -> u8 {
    match byte {
        b'<' => b'\r',
        b'>' => b'\n',
        _ => byte,
    }
}

// Puts the text that starts at a place of a line to the front of `text`, as far as there is room, and answers how many bytes it has.
fn decode(line: &[u8], from: usize, text: &mut [u8]) -> usize
    ensures { result ≤ length text.new }
{
    let source = line.get(from..).unwrap_or(&[]);
    let count = source.len().min(text.len());
    for i in 0..count {
        text[i] = text_byte(source[i]);
    }
    count
}

// Judges the text of a line, with room for 16 rows of 2 processes.
fn run_judge<W: Write>(out: &mut W, line: &[u8]) -> io::Result<()> {
    let mut space = [0u8; TEXT_ROOM];
    let n = decode(line, TEXT_AT, &mut space);
    let mut row_space = [7u32; 96];
    let rows: &mut [u32] = &mut row_space;
    let mut count_space = [7u16; 32];
    let counts: &mut [u16] = &mut count_space;
    put(out, b" ")?;
    let header = with_digit(0, true, byte_at(line, HEADER_AT));
    let call = Call {
        header,
        model: 1,
        row_limit: 16,
        process_limit: 2,
        byte_limit: 8192,
    };
    put_judged(out, checker::judge(&space[..n], call, rows, counts))
}

fn store(maps: &mut [u32], at: usize, value: u32) {
    if let Some(here) = maps.get_mut(at) {
        *here = value;
    }
}

// Puts a run into the maps.
fn run_set(line: &[u8], maps: &mut [u32]) {
    let at = number(line, 1) as usize * RUN;
    store(maps, at, number(line, 2));
    store(maps, at + 1, number(line, 3));
    store(maps, at + 2, number(line, 4));
    store(maps, at + 3, number(line, 5));
}

// Writes to the first map, and shows it.
fn run_write<W: Write>(out: &mut W, line: &[u8], map: &mut [u32]) -> io::Result<()> {
    let answer = extents::write(
        map,
        number(line, 1),
        number(line, 2),
        number(line, 3),
        number(line, 4) == 1,
    );
    put_answer(out, answer.map(|()| None))?;
    put_groups(out, map, RUN)?;
    put(out, b"\n")
}

// Shows the numbers of a listing as they stand in the answer slice, four by four.
fn put_listed<W: Write>(
    out: &mut W,
    answer: Result<u32, Refusal>,
    pieces: &[u32],
) -> io::Result<()> {
    put_answer(out, answer.map(Some))?;
    if answer.is_ok() {
        put_groups(out, pieces, RUN)?;
    }
    put(out, b"\n")
}

// Lists a range of the first map.
fn run_list<W: Write>(out: &mut W, line: &[u8], map: &[u32]) -> io::Result<()> {
    let mut space = [7u32; 12];
    let pieces: &mut [u32] = &mut space;
    let room = within(number(line, 1) as usize, pieces);
    let answer = extents::list_range(map, number(line, 2), number(line, 3), &mut pieces[..room]);
    put_listed(out, answer, pieces)
}

// What an entry that serves a view and the published map does.
fn share(line: &[u8], maps: &mut [u32]) -> Result<(), Refusal> {
    let space = number(line, 1) as usize;
    let view = number(line, 2) as usize;
    let below = number(line, 3) as usize;
    let kind = byte_at(line, 0);
    match kind {
        b'p' => extents::publish(maps, space, view, below),
        b'r' => extents::refresh(maps, space, view, below),
        b'y' => extents::sync(maps, space, view, below),
        _ => extents::write_through(
            maps,
            space,
            view,
            below,
            number(line, 4),
            number(line, 5),
            number(line, 6),
        ),
    }
}

// Shows two maps of one size, the published one first.
fn put_pair<W: Write>(out: &mut W, maps: &[u32]) -> io::Result<()> {
    let mid = within(maps.len() / 2, maps);
    put_groups(out, &maps[..mid], RUN)?;
    put(out, b" |")?;
    put_groups(out, &maps[mid..], RUN)?;
    put(out, b"\n")
}

// Publishes, refreshes, syncs or writes through, and shows both maps.
fn run_share<W: Write>(out: &mut W, line: &[u8], maps: &mut [u32]) -> io::Result<()> {
    put_answer(out, share(line, maps).map(|()| None))?;
    put_pair(out, maps)
}

// Refreshes a view, reads it, and shows the pieces and both maps.
fn run_read<W: Write>(out: &mut W, line: &[u8], maps: &mut [u32]) -> io::Result<()> {
    let mut space = [7u32; 12];
    let pieces: &mut [u32] = &mut space;
    let answer = extents::read(
        maps,
        number(line, 1) as usize,
        number(line, 2) as usize,
        number(line, 3) as usize,
        number(line, 4),
        number(line, 5),
        pieces,
    );
    put_listed(out, answer, pieces)?;
    put_pair(out, maps)
}

// The row of a line that puts one.
fn row_of(line: &[u8]) -> Row {
    Row {
        process: number(line, 1),
        kind: number(line, 2),
        file: FILE,
        offset: number(line, 3),
        length: number(line, 4),
        message: 0,
    }
}

// Puts a row to the machine.
fn run_step<W: Write>(
    out: &mut W,
    line: &[u8],
    header: Machine,
    maps: &mut [u32],
) -> io::Result<()> {
    let mut space = [7u32; 12];
    let pieces: &mut [u32] = &mut space;
    let answer = machine::step(header, maps, row_of(line), number(line, 5), pieces);
    put_step(out, answer, pieces)
}

// Puts a row to the plain file.
fn run_step_plain<W: Write>(
    out: &mut W,
    line: &[u8],
    header: Machine,
    map: &mut [u32],
) -> io::Result<()> {
    let mut space = [7u32; 12];
    let pieces: &mut [u32] = &mut space;
    let answer = machine::step_plain(header, map, row_of(line), number(line, 5), pieces);
    put_step(out, answer, pieces)
}

// Runs the line of a machine or a plain file.
fn run_machine<W: Write>(
    out: &mut W,
    line: &[u8],
    header: Machine,
    maps: &mut [u32],
) -> io::Result<()> {
    let kind = byte_at(line, 0);
    match kind {
        b'm' => put_made(out, machine::make(header, maps)),
        b'n' => put_made(out, machine::make_plain(header, maps)),
        b'a' => run_step(out, line, header, maps),
        b'b' => run_step_plain(out, line, header, maps),
        _ => Ok(()),
    }
}

// Runs the line of an entry of the map of pieces: the first map has three runs, and so have a view and its published map.
fn run_map<W: Write>(out: &mut W, line: &[u8], maps: &mut [u32]) -> io::Result<()> {
    let map = within(3 * RUN, maps);
    let pair = within(6 * RUN, maps);
    let kind = byte_at(line, 0);
    match kind {
        b'w' => run_write(out, line, &mut maps[..map]),
        b'l' => run_list(out, line, &maps[..map]),
        b'p' | b'r' | b'y' | b't' => run_share(out, line, &mut maps[..pair]),
        b'd' => run_read(out, line, &mut maps[..pair]),
        _ => Ok(()),
    }
}

// Writes the words of a line, behind its first byte, on a line of their own where `anew` says so.
fn put_words<W: Write>(out: &mut W, line: &[u8], anew: bool) -> io::Result<()> {
    if anew {
        put(out, b"\n")?;
    }
    put(out, line.get(1..).unwrap_or(&[]))
}

// Writes the first runs of the maps.
fn put_runs<W: Write>(out: &mut W, line: &[u8], maps: &[u32]) -> io::Result<()> {
    let end = within(number(line, 1) as usize * RUN, maps);
    put_groups(out, &maps[..end], RUN)
}

// The header behind a line.
fn header_after(line: &[u8], header: Machine) -> Machine {
    if byte_at(line, 0) == b'h' {
        return Machine::fresh(number(line, 1), PROCESSES, FILE, number(line, 2));
    }
    header
}

// Runs a line.
fn run_line<W: Write>(
    out: &mut W,
    line: &[u8],
    header: Machine,
    maps: &mut [u32],
) -> io::Result<()> {
    let kind = byte_at(line, 0);
    match kind {
        b'\'' | b'.' => put_words(out, line, kind == b'.'),
        b'j' => run_judge(out, line),
        b'z' => {
            maps.fill(0);
            Ok(())
        }
        b'u' => {
            run_set(line, maps);
            Ok(())
        }
        b'q' => put_runs(out, line, maps),
        b'm' | b'n' | b'a' | b'b' => run_machine(out, line, header, maps),
        _ => run_map(out, line, maps),
    }
}

fn run_lines<W: Write>(out: &mut W, input: &[u8], maps: &mut [u32]) -> io::Result<()> {
    let mut header = Machine::fresh(0, PROCESSES, FILE, 0);
    for line in input.split(|byte| *byte == b'\n') {
        header = header_after(line, header);
        run_line(out, line, header, maps)?;
    }
    Ok(())
}

fn main(rt: HostRuntime) -> io::Result<()> {
    let mut maps = [0u32; 48];
    let mut input = [0u8; INPUT_ROOM];
    let n = streams::read_all(&mut rt.stdin(), &mut input)?;
    run_lines(&mut rt.stdout(), &input[..n], &mut maps)
}
