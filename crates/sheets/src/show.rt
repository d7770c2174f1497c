// Answers in the paper's words. Every number comes from what the interpreter gave back.
use part::numbers::ORIGIN;
use part::shapes::Answer;
use std::fmt;

// A comma stands before the last three digits; no number here reaches a million.
#[derive(Clone, Copy)]
pub struct Number(pub u32);

impl fmt::Display for Number {
    fn fmt<W: fmt::Write>(&self, f: &mut fmt::Formatter<W>) -> fmt::Result {
        let rest = self.0 % 1000;
        match self.0 / 1000 {
            0 => write!(f, "{rest}"),
            thousands => write!(f, "{thousands},{rest:03}"),
        }
    }
}

// A position is kept as its number plus 32,768.
#[derive(Clone, Copy)]
pub struct Position(pub u32);

impl fmt::Display for Position {
    fn fmt<W: fmt::Write>(&self, f: &mut fmt::Formatter<W>) -> fmt::Result {
        let sign = if self.0 < ORIGIN { "-" } else { "" };
        let number = Number(self.0.abs_diff(ORIGIN));
        write!(f, "{sign}{number}")
    }
}

// A fault has an offset and then 0, which the paper leaves out; any other answer has its three numbers.
#[derive(Clone, Copy)]
pub struct Told(pub Answer);

impl fmt::Display for Told {
    fn fmt<W: fmt::Write>(&self, f: &mut fmt::Formatter<W>) -> fmt::Result {
        let Told(answer) = *self;
        let code = Number(answer.code);
        let first = Number(answer.first);
        if 20 <= answer.code && answer.second == 0 {
            return write!(f, "{code} at {first}");
        }
        let second = Number(answer.second);
        write!(f, "{code}, {first}, {second}")
    }
}

// Two answers are written once where they are the same.
#[derive(Clone, Copy)]
pub struct Both(pub Answer, pub Answer);

impl fmt::Display for Both {
    fn fmt<W: fmt::Write>(&self, f: &mut fmt::Formatter<W>) -> fmt::Result {
        let a = Told(self.0);
        let b = Told(self.1);
        if self.0 == self.1 {
            return write!(f, "both {a}");
        }
        write!(f, "{a}; then {b}")
    }
}
