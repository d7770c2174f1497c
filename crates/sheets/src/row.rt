// A row: what is submitted to a fresh job, and the answer that came.
use super::hex::Hex;
use super::job::{Job, Part};
use super::show::{Both, Position, Told};
use part::whole::little_at;
use std::fmt;

// Each part is its bytes in hexadecimal.
#[derive(Clone, Copy)]
pub enum Parts {
    One(&'static str),
    // One part, made of the same bytes twice.
    Twice(&'static str),
    // A part, and the next part of the same job.
    Two(&'static str, &'static str),
}

// What a row has beside its answer: the B that was reached, or the characters that were recorded.
#[derive(Clone, Copy)]
pub enum Beside {
    Baseline,
    Characters,
}

#[derive(Clone, Copy)]
pub struct Row(pub Parts, pub Option<Beside>);

impl fmt::Display for Row {
    fn fmt<W: fmt::Write>(&self, f: &mut fmt::Formatter<W>) -> fmt::Result {
        let mut job = Job::new(144);
        match self.0 {
            Parts::One(hex) => {
                let part = Part::read(hex);
                write!(f, "{part} | {}", Told(job.submit(&part)))?;
            }
            Parts::Twice(hex) => {
                let mut part = Part::read(hex);
                write!(f, "{part} twice | ")?;
                part.add(hex);
                write!(f, "{}", Told(job.submit(&part)))?;
            }
            Parts::Two(hex, then) => {
                let part = Part::read(hex);
                let next = Part::read(then);
                let answers = Both(job.submit(&part), job.submit(&next));
                write!(f, "{part}, next part {next} | {answers}")?;
            }
        }
        match self.1 {
            None => Ok(()),
            Some(Beside::Baseline) => write!(f, "; B {}", Position(job.state.at.b)),
            Some(Beside::Characters) => write!(f, "; {}", characters(&job.area)),
        }
    }
}

// The characters of the area's first record, by its own length; none if it is no text.
fn characters(area: &[u8]) -> Hex<'_> {
    if little_at(area, 2) != 1 {
        return Hex(&[]);
    }
    let end = little_at(area, 0) as usize;
    Hex(area.get(16..end).unwrap_or(&[]))
}
