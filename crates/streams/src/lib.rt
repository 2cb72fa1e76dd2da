// Standard input and output for programs: reading to the end and writing all, with a failed call told from the end of the input.
#![tactic(auto)]

ghost use Rattle.std.specs.Prelude.{◌≡◌, ◌<◌, ◌^◌, length, IfOk, OnOk, IsOk, IfErr};
ghost use Rattle.std.specs.Io.KnownBytes.{Appends};
ghost use Rattle.std.specs.IoError.{error_kind};
ghost use Rattle.streams.specs.Moves.{outcome_of, IsNumberOf, AreNumbersOf, Within, ReadsWhole};

use std::io;
use std::io::ErrorKind;

// How many interrupted calls are made again before the call counts as failed.
pub const TRIES: u32 = 65536;

// C's number of an interrupted call.
const EINTR: i32 = 4;

// What a call of C's read or write came to: the call moved so many bytes, the input has ended, a signal interrupted the call before it moved
// a byte, or the call failed. Four ends and no `Result`: the contract of `outcome` speaks of each by itself, over C's two numbers.
#[derive(Clone, Copy, Debug, PartialEq, Eq, Hash)]
pub enum Moved {
    Took(usize),
    End,
    Again,
    Failed,
}

// Decides what a call on a buffer with `room` bytes came to, from its answer and from errno.
#[tactic(auto, unfolding(crate::specs::Moves::outcome_of))]
pub fn outcome(got: isize, room: usize, error: i32) -> Moved
    ensures { result ≡ outcome_of got room error }
{
    if got < 0 {
        if error == EINTR {
            return Moved::Again;
        }
        return Moved::Failed;
    }
    if got == 0 {
        return Moved::End;
    }
    Moved::Took((got as usize).min(room))
}

// The number of an error, as errno has it. An error that is not the system's has EINTR's where it says that the call was interrupted, and
// otherwise 0, which is no error's.
fn error_number(error: &io::Error) -> i32
    ensures { IsNumberOf error.now result }
{
    match error.raw_os_error() {
        Some(number) => number,
        None => {
            if error.kind() == ErrorKind::Interrupted {
                EINTR
            } else {
                0
            }
        }
    }
}

// What a reader or a writer answered, in the numbers of C's call: how many bytes it moved and no error, or -1 and the error's number.
fn numbers(answer: &io::Result<usize>) -> (isize, i32)
    requires { IfOk answer.now (λ n. n < 2 ^ 63) }
    ensures { AreNumbersOf answer.now result.0 result.1 }
{
    match answer {
        Ok(n) => (*n as isize, 0),
        Err(error) => (-1, error_number(error)),
    }
}

// The error of a call that failed. A call that moved nothing where it had to move something has `WriteZero`.
fn reason(answer: io::Result<usize>) -> io::Error
    ensures failed { IfErr answer (λ e. result ≡ e) }
    ensures none { IfOk answer (λ _. error_kind result ≡ ErrorKind.WriteZero) }
{
    match answer {
        Ok(_) => io::Error::from(ErrorKind::WriteZero),
        Err(error) => error,
    }
}

// Reads until the buffer is full or the input ends, and answers how many bytes these are. A read that fails is never taken for the end; an
// interrupted one is made again.
pub fn read_all<R: io::Read>(reader: &mut R, buf: &mut [u8]) -> io::Result<usize>
    ensures within { Within result buf.new }
    ensures whole { ReadsWhole (R.remaining reader.old) (R.remaining reader.new) result buf.new }
{
    let mut done = 0;
    let mut tries = TRIES;
    // A loop by hand: a turn goes on by as many bytes as the call moved.
    while done < buf.len() {
        let room = buf.len() - done;
        let answer = reader.read(&mut buf[done..]);
        let (got, error) = numbers(&answer);
        match outcome(got, room, error) {
            Moved::Took(n) => {
                done += n;
            }
            Moved::End => {
                return Ok(done);
            }
            Moved::Again => {
                if tries == 0 {
                    return Err(reason(answer));
                }
                tries -= 1;
            }
            Moved::Failed => {
                return Err(reason(answer));
            }
        }
    }
    Ok(done)
}

// Writes all bytes, or answers an error at the first write that fails or takes nothing. An interrupted write is made again. No bytes are
// always written.
pub fn write_all<W: io::Write>(writer: &mut W, bytes: &[u8]) -> io::Result<()>
    ensures none { length bytes.now ≡ 0 → IsOk result }
    ensures all { OnOk result (Appends (W.contents writer.old) (W.contents writer.new) bytes.now) }
{
    let mut done = 0;
    let mut tries = TRIES;
    // A loop by hand: a turn goes on by as many bytes as the call moved.
    while done < bytes.len() {
        let room = bytes.len() - done;
        let answer = writer.write(&bytes[done..]);
        let (got, error) = numbers(&answer);
        match outcome(got, room, error) {
            Moved::Took(n) => {
                done += n;
            }
            Moved::End => {
                return Err(reason(answer));
            }
            Moved::Again => {
                if tries == 0 {
                    return Err(reason(answer));
                }
                tries -= 1;
            }
            Moved::Failed => {
                return Err(reason(answer));
            }
        }
    }
    Ok(())
}
