// Document 01's "Sheets to try", and rows that point at a byte: each is run, and its line is printed with the answer that came.
#![tactic(auto)]

mod hex;
mod job;
mod row;
mod show;

use hex::Hex;
use job::{Job, Part};
use row::Beside::{Baseline, Characters};
use row::Parts::{One, Twice, Two};
use row::Row;
use show::{Number, Told};
use std::io;

// The rows marked P.
const PROVED: [Row; 13] = [
    Row(One(""), None),
    Row(One("2BD302D8"), Some(Baseline)),
    Row(One("2B"), None),
    Row(One("C12BC1"), None),
    Row(One("2BD301D8"), None),
    Row(One("2BD30272"), None),
    Row(One("2BD304C67F"), None),
    Row(One("2BD304C68000"), None),
    Row(One("2BD304C62F40C1"), None),
    Row(One("2BD304C62F41C1"), None),
    Row(One("2BD304DA2BD3"), None),
    Row(One("2BD306EE0005C1C2"), Some(Characters)),
    Row(One("2BD303F405"), None),
];

// The rows without a mark.
const OTHER: [Row; 4] = [
    Row(Twice("2BD304C88000"), None),
    Row(One("2BD307E405A0000E00"), None),
    Row(Two("2BD302D9", "02D8"), Some(Baseline)),
    Row(Two("2BD302D9", "2BD302D8"), None),
];

// The byte that a refusal points at: in a second parameter, behind text, in a chain behind both, in a chain from the part before.
const POINTED: [Row; 4] = [
    Row(One("2BD305C2000A02"), None),
    Row(One("C12BD303F004"), None),
    Row(One("C1C22BD304C7006405C2000A02"), None),
    Row(Two("2BD302D9", "05C2000A02"), None),
];

// Of an RPS, the count.
fn count(part: &Part) -> Hex<'_> {
    Hex(part.bytes.as_slice().get(4..6).unwrap_or(&[]))
}

// The sentence below the table: two jobs whose characters have no width, and of the second its count and code.
fn no_widths(rt: &impl Print) -> io::Result<()> {
    let part = Part::read("2BD305EE0FF0C1");
    let other = Part::read("2BD305EE0FF1C1");
    let answer = Told(Job::new(0).submit(&part));
    let count = count(&other);
    let code = Number(Job::new(0).submit(&other).code);
    println!(rt; "With all widths 0, {part} gives {answer}; {count} gives {code}.")
}

fn main(rt: HostRuntime) -> io::Result<()> {
    println!(rt; "| Part | Answer |\n|---|---|")?;
    for row in &PROVED {
        println!(rt; "| P {row} |")?;
    }
    for row in OTHER.iter().chain(&POINTED) {
        println!(rt; "| {row} |")?;
    }
    println!(rt; "")?;
    no_widths(&rt)
}
