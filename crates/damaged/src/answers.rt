// What an operation answers, and whether it leaves what it was handed.
use rules::Refused;
use std::{fmt, io};

// The row that is lent: 64 places, each filled.
pub const ROW: [u64; 64] = [77; 64];

// The number of an answer, and whether anything moved.
#[derive(Clone, Copy, PartialEq)]
pub struct Answer {
    number: u32,
    moved: bool,
}

impl fmt::Display for Answer {
    fn fmt<W: fmt::Write>(&self, f: &mut fmt::Formatter<W>) -> fmt::Result {
        let number = self.number;
        let mark = if self.moved { "+" } else { "" };
        write!(f, "{number}{mark}")
    }
}

// The state that an operation leaves, whether it was done or refused.
pub fn left<S: Copy>(given: Result<S, Refused<S>>) -> S {
    given.unwrap_or_else(|refused| refused.state)
}

// What an operation gives, without the packet that it made or the count of the units that came out.
pub fn state<T: Copy, S: Copy>(given: Result<(T, S), Refused<S>>) -> Result<S, Refused<S>> {
    given.map(|(_, state)| state)
}

// The answer of an operation that was handed `before`.
pub fn answered<S: Copy + PartialEq>(given: Result<S, Refused<S>>, before: &S) -> Answer {
    Answer {
        number: rules::answer(&given),
        moved: left(given) != *before,
    }
}

// The same of one that was lent places of `row` too.
pub fn answered_with_row<S: Copy + PartialEq>(
    given: Result<S, Refused<S>>,
    before: &S,
    row: &[u64; 64],
) -> Answer {
    let answer = answered(given, before);
    Answer {
        moved: answer.moved || *row != ROW,
        ..answer
    }
}

// Prints each of the answers.
pub fn print_each(rt: &impl Print, answers: &[Answer]) -> io::Result<()> {
    for answer in answers {
        print!(rt; " {answer}")?;
    }
    Ok(())
}

// Prints the part's name, and what its own test says.
pub fn print_name(rt: &impl Print, part: &str, malformed: bool) -> io::Result<()> {
    let test = if malformed { " malformed" } else { "" };
    print!(rt; "{part}{test}")
}

// Prints the part's name, its test and its answers.
pub fn print(rt: &impl Print, part: &str, malformed: bool, answers: &[Answer]) -> io::Result<()> {
    print_name(rt, part, malformed)?;
    print_each(rt, answers)?;
    print!(rt; "; ")
}
