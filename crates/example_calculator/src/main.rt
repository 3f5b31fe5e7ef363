//! Reads lines with a small language of sums. `price = 250` gives a name a value, and `-price * 3`
//! prints one. A value is from `-2^63` to `2^63 - 1`, and a quotient is rounded toward zero. Then it
//! prints the names with their values, and each line that it refuses, with a caret under the place
//! of the fault.
#![tactic(auto)]

mod calculator;
mod fault;
mod lexer;
mod tree;

use crate::calculator::Calculator;
use crate::fault::{Reason, Refusal};
use anyhow::{Context, Result, bail};
use arcstr::ArcStr;
use std::alloc::Global;
use std::io::{IsTerminal, Stdin};
use std::sync::Wait;

fn main(rt: HostRuntime) -> Result<()> {
    let text = read_input(&rt, rt.stdin())?;
    let mut calculator = Calculator::new(rt.alloc());
    let refusals = answer_lines(&rt, rt.alloc(), &mut calculator, &text)?;
    calculator.print_values(&rt)?;
    for refusal in &refusals {
        println!(rt; "{refusal}")?;
    }
    Ok(())
}

/// Reads standard input, and says so where it is a terminal. A byte order mark at its start is no
/// part of the text.
fn read_input<R: AllocGlobal + Eprint>(rt: &R, input: Stdin) -> Result<ArcStr> {
    if input.is_terminal() {
        eprintln!(rt; "reading standard input: lines such as `price = 250` and `price * 3`")?;
    }
    let text = ArcStr::read_from(rt.alloc(), input).context("standard input cannot be read")?;
    match text.strip_prefix('\u{feff}') {
        Some(after_mark) => Ok(ArcStr::from_str(rt.alloc(), after_mark)?),
        None => Ok(text),
    }
}

/// Prints the value of each line that has one, and returns the refused lines, which are slices of
/// the text.
fn answer_lines<R: Wait + Print>(
    rt: &R,
    alloc: Global,
    calculator: &mut Calculator,
    text: &ArcStr,
) -> Result<Vec<Refusal>> {
    let mut refusals = Vec::new(alloc);
    for (before, line) in text.view().lines().enumerate() {
        let number = before + 1;
        match calculator.answer(alloc, &line) {
            Ok(Some(value)) => println!(rt; "{value}")?,
            Ok(None) => {}
            Err(fault) if fault.reason == Reason::NoRoom => bail!(
                "line {number}: {}",
                fault.reason
            ),
            Err(fault) => refusals.push(Refusal {
                number,
                line: text.substr_from(rt, line),
                fault,
            })?,
        }
    }
    Ok(refusals)
}
