// The rows of the input, one by one.
use crate::row::Row;
use std::alloc::Global;
use std::io::{self, BufRead, BufReader};

/// What answers rows.
pub trait Answers {
    /// What the call of a row gives, as it is written in rows. None where there is no such call, it
    /// takes other arguments, or memory ran out.
    fn answer(&self, alloc: Global, row: &Row<'_>) -> Option<String>;
}

// Whether a row passes; one that doesn't is printed with what came instead.
fn passes<A: Answers>(
    rt: &impl Print,
    alloc: Global,
    answers: &A,
    number: usize,
    line: &str,
) -> io::Result<bool> {
    let Some(row) = Row::of(line) else {
        println!(rt; "{number}: no row: {line}")?;
        return Ok(false);
    };
    match answers.answer(alloc, &row) {
        Some(text) => {
            if text.as_str() == row.result {
                return Ok(true);
            }
            println!(rt; "{number}: {line}\n    gave {text}")?;
        }
        None => println!(rt; "{number}: no answer: {line}")?,
    }
    Ok(false)
}

/// Runs the rows of the input, prints those that differ, each with the number of its line and what
/// came instead, and then how many passed and failed.
pub fn run_rows<A: Answers>(
    rt: &(impl Print + Input),
    alloc: Global,
    answers: &A,
) -> io::Result<()> {
    let mut passed = 0u64;
    let mut failed = 0u64;
    for (i, line) in BufReader::new(alloc, rt.reader())?.lines(alloc).enumerate() {
        let line = line?;
        if line.is_empty() || line.starts_with('#') {
            continue;
        }
        if passes(rt, alloc, answers, i.saturating_add(1), &line)? {
            passed = passed.saturating_add(1);
        } else {
            failed = failed.saturating_add(1);
        }
    }
    println!(rt; "{passed} passed, {failed} failed")
}
