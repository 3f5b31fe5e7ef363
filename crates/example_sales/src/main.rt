//! Sums the sales of a table of CSV by region and by product. Prints the rows that it cannot read,
//! and then the sums.
#![tactic(auto)]

mod column;
mod fault;
mod table;

use crate::column::Column;
use crate::table::Table;
use anyhow::{Context, Result};
use rayon::prelude::*;
use std::alloc::Global;
use std::hash::RandomState;
use std::io;
use std::io::IsTerminal;
use std::thread::Threads;

fn main(rt: HostRuntime) -> Result<()> {
    let input = rt.stdin();
    if input.is_terminal() {
        eprintln!(rt; "reading standard input: a table with the fields region, product and cents")?;
    }
    let table = Table::read(rt.alloc(), input, RandomState::new(&rt)?);
    print(
        &rt,
        rt.alloc(),
        &table.context("standard input cannot be read")?,
    )
}

/// Prints the faults and the sums.
fn print(rt: &(impl Print + Threads + Sync), alloc: Global, table: &Table) -> Result<()> {
    for fault in &table.faults {
        println!(rt; "{fault}")?;
    }
    print_sums(rt, alloc, &table.regions, &table.cents)?;
    print_sums(rt, alloc, &table.products, &table.cents)?;
    print_line(rt, "total", total(rt, &table.cents))?;
    Ok(())
}

/// Prints each text of the column, in their order, with the sum of its rows.
fn print_sums(rt: &impl Print, alloc: Global, column: &Column, cents: &[u64]) -> Result<()> {
    let mut sums = column.sums(alloc, cents)?;
    sums.sort()?;
    for (text, sum) in &sums {
        print_line(rt, &format!(in alloc; "{text:?}")?, *sum)?;
    }
    Ok(())
}

/// Prints a text and its cents.
fn print_line(rt: &impl Print, text: &str, cents: u64) -> io::Result<()> {
    let whole = cents / 100;
    let rest = cents % 100;
    println!(rt; "{text:<18} {whole:>8}.{rest:02}")
}

/// Returns the sum of the numbers, or `u64::MAX` if it is above. Many numbers are added in as many
/// threads as there are processors.
fn total(rt: &(impl Threads + Sync), numbers: &[u64]) -> u64 {
    numbers
        .par_iter()
        .copied()
        .reduce(rt, || 0, |one: u64, other: u64| one.saturating_add(other))
}
