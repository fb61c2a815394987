// The engine driven by hand: an inner solve, then a multiplier loop, and psi and d_psi at what it handed back. Each is a start, then an answer to
// each question, until the run ends. tests/solve_by_hand.py and tests/loop_by_hand.py hold the stdout to what the Rust prints for the same answers.
#![tactic(auto)]

mod heaters;
mod inner_solve;
mod multiplier_loop;
mod penalty;
mod printing;
mod quadratic;

use anyhow::Result;
use printing::{Bits, Floats};

fn main(rt: HostRuntime) -> Result<()> {
    println!(rt; "# inner solve")?;
    inner_solve::play(&rt)?;
    println!(rt; "# loop")?;
    let (u, xi) = multiplier_loop::play(&rt)?;
    println!(rt; "# psi")?;
    println!(rt; "ended {}", Bits(penalty::psi(&rt, u, xi, true)?))?;
    println!(rt; "# d_psi")?;
    println!(rt; "ended{}", Floats(&penalty::d_psi(&rt, u, xi, true)?))?;
    Ok(())
}
