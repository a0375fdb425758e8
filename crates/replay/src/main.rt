//! Replays strings in the plainest way, and compares what the evaluator answers with what it counts itself.
#![tactic(auto)]

mod calls;
mod cases;
mod comparisons;
mod figures;
mod flush;
mod plain;
mod plans;
mod random;
mod rankings;
mod recordings;
mod runs;
mod tally;

use comparisons::Comparisons;

fn main(rt: HostRuntime) -> anyhow::Result<()> {
    let mut all = Comparisons::new(rt.alloc());
    all.compare_all()?;
    for (group, tally) in all.tallies() {
        println!(rt; "{group}: {tally}")?;
    }
    Ok(())
}
