// A listing program: one part from standard input, and its listing to standard output.
use super::input::read_part;
use super::list::list;
use std::io;
use std::process::ExitCode;

// The status is 1 where a read or a write failed. A part that fills its buffer is too long, so no more need be read.
pub fn list_input<R: Input + Print + Eprint + Alloc>(rt: &R, increment: u32) -> ExitCode {
    let mut part = [0u8; 8193];
    let n = match read_part(&mut rt.reader(), &mut part) {
        Ok(n) => n,
        Err(why) => return failed(rt, "standard input", &why),
    };
    let mut out = [0u8; 16384];
    let size = list(&part[..n], increment, &mut out);
    match rt.write_all(&out[..size]) {
        Ok(()) => ExitCode::SUCCESS,
        Err(why) => failed(rt, "standard output", &why),
    }
}

// Says what failed and why on standard error. A line that can't be written there has no other place to go.
fn failed<R: Eprint + Alloc>(rt: &R, stream: &str, why: &io::Error) -> ExitCode {
    let _ = match format!(in rt.alloc(); "{why}") {
        Ok(words) => eprintln!(rt; "listing: {stream}: {}", without_number(words.as_str())),
        Err(_) => eprintln!(rt; "listing: {stream}: {why}"),
    };
    ExitCode::FAILURE
}

// The system's words for an error, without the number that stands behind them.
fn without_number(words: &str) -> &str {
    words
        .split_once(" (os error ")
        .map_or(words, |(text, _)| text)
}
