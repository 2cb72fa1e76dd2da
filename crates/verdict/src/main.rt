// Reads a trace with header from standard input and writes its verdict under each model, or its refusal. Of a longer input only the byte
// behind the 8,192nd matters, and only that it is there. Where reading fails, nothing is written to standard output.
#![tactic(auto)]

use std::io;

// Room for every report.
const REPORT: usize = 256;

// What stands between the system's words for an error and the error's number, where an error is written out.
const NUMBER: &str = " (os error ";

// The system's words for an error that is written out.
fn words(text: &str) -> &str {
    match text.split_once(NUMBER) {
        Some((words, _)) => words,
        None => text,
    }
}

// Says on standard error which stream failed, and why. Where there is no memory for the words alone, the error's number stands behind them.
fn say(rt: &(impl Eprint + Alloc), stream: &str, error: io::Error) -> io::Result<()> {
    match format!(in rt.alloc(); "{error}") {
        Ok(text) => {
            let reason = words(text.as_str());
            eprintln!(rt; "verdict: {stream}: {reason}")
        }
        Err(_) => eprintln!(rt; "verdict: {stream}: {error}"),
    }
}

fn main(rt: HostRuntime) {
    let mut input = [0u8; checker::INPUT];
    match streams::read_all(&mut rt.stdin(), &mut input) {
        Ok(n) => {
            let mut lines = [0u8; REPORT];
            let m = checker::report_input(&input, n, &mut lines);
            if let Err(error) = streams::write_all(&mut rt.stdout(), &lines[..m]) {
                let _ = say(&rt, "standard output", error);
            }
        }
        Err(error) => {
            let _ = say(&rt, "standard input", error);
        }
    }
}
