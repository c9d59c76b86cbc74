//! Runs the worked cases and the edges through the public calls, and prints what was expected beside what came.
#![tactic(auto)]

mod cases;
mod edges;
mod outcome;
mod problems;

use cases::Table;
use std::alloc::{AllocError, Global};

/// All cases, each with its outcome.
fn all(heap: Global) -> Result<Table, AllocError> {
    let mut table = Table::new(heap);
    table.note_one_row()?;
    table.note_boxes()?;
    table.note_rows()?;
    table.note_limits()?;
    table.note_states()?;
    table.note_narrowers()?;
    table.note_runs()?;
    Ok(table)
}

fn main(rt: HostRuntime) -> anyhow::Result<()> {
    let table = all(rt.alloc())?;
    for case in &table.cases {
        println!(rt; "{case}")?;
    }
    let count = table.cases.len();
    let different = table.cases.iter().filter(|case| !case.agreed()).count();
    println!(rt; "{count} cases, {different} different")?;
    Ok(())
}
