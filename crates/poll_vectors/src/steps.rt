//! What calls of a source or a sink come to, one after another.

use crate::dice::Dice;
use vector_lines::error::LineError;
use vector_lines::notation::number;

/// What a call of a source or a sink comes to.
#[derive(Clone, Copy)]
pub enum Step {
    /// So many bytes at most.
    UpTo(usize),
    /// Nothing yet.
    NotYet,
    /// It fails.
    Failed,
}

/// What calls come to, one after another.
#[derive(Clone, Copy)]
pub enum Steps<'a> {
    /// The steps of a text, with dots between them: `N` for N bytes at most, `!` for
    /// nothing yet, `x` for a fault. Two dots behind the last one do it again and again;
    /// else as many bytes as there are go then.
    Told(&'a str),
    /// Those that dice give: nothing yet, or up to so many bytes.
    Drawn(Dice, u64),
}

impl<'a> Steps<'a> {
    /// The next step.
    pub fn next(&mut self) -> Step {
        match *self {
            Steps::Told(text) => {
                let (step, rest) = first_of(text);
                *self = Steps::Told(rest);
                step
            }
            Steps::Drawn(dice, most) => {
                let mut dice = dice;
                let step = drawn(&mut dice, most);
                *self = Steps::Drawn(dice, most);
                step
            }
        }
    }
}

/// The first step of a text, and the text of those behind it.
fn first_of(text: &str) -> (Step, &str) {
    match text.split_once('.') {
        Some((word, ".")) => (step_of(word), text),
        Some((word, rest)) => (step_of(word), rest),
        None => (step_of(text), ""),
    }
}

/// The step of a word.
fn step_of(word: &str) -> Step {
    match word {
        "!" => Step::NotYet,
        "x" => Step::Failed,
        _ => Step::UpTo(word.parse::<usize>().unwrap_or(usize::MAX)),
    }
}

/// A step that dice give.
fn drawn(dice: &mut Dice, most: u64) -> Step {
    match dice.below(2) {
        0 => Step::NotYet,
        _ => Step::UpTo((dice.below(most) as usize).saturating_add(1)),
    }
}

/// The steps of a text, which is refused where one of its words is none.
pub fn steps_of(text: &str) -> Result<Steps<'_>, LineError> {
    for word in text.split('.') {
        match word {
            "" | "!" | "x" => {}
            _ => {
                number(word)?;
            }
        }
    }
    Ok(Steps::Told(text))
}
