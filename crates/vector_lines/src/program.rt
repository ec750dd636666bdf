//! What a program of vectors does.

use crate::error::VectorError;
use crate::notation::{is_comment, repeated};
use std::alloc::Global;
use std::io;
use std::io::{BufRead, BufReader};

/// Reads lines from standard input, and prints for each what it is answered, or
/// the error that it comes to. Empty lines and comments are printed as they are,
/// so that the lines of the output stand at the numbers of those of the input.
pub fn run<R: Input + Print + AllocGlobal, F: Fn(Global, &str) -> Result<String, VectorError>>(
    rt: &R,
    answer: F,
) -> io::Result<()>
    requires { F.IsAlwaysCallable answer }
{
    let input = BufReader::new(rt.alloc(), rt.reader())?;
    for line in input.lines(rt.alloc()) {
        let line = line?;
        let text = line.as_str();
        if is_comment(text) {
            println!(rt; "{text}")?;
        } else {
            let shown = told(rt.alloc(), text, &answer)?;
            println!(rt; "{shown}")?;
        }
    }
    Ok(())
}

/// What is printed for a line.
fn told<F: Fn(Global, &str) -> Result<String, VectorError>>(
    alloc: Global,
    line: &str,
    answer: &F,
) -> io::Result<String>
    requires { F.IsAlwaysCallable answer.now }
{
    match repeated(alloc, line) {
        Err(error) => Ok(VectorError::Line(error).told(alloc)?),
        Ok(line) => match answer(alloc, line.as_str()) {
            Ok(text) => Ok(text),
            Err(error) => Ok(error.told(alloc)?),
        },
    }
}
