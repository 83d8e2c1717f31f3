// Steps on a board: those of the first worked job, played and shown.
#![tactic(auto)]

use amount::{Amount, Single};

mod steps;
#[cfg(test)]
mod tests;

fn main(rt: HostRuntime) -> anyhow::Result<()> {
    let zero = Single::zero();
    let first = Single::new(5)?;
    let second = Single::new(-4)?;
    let third = Single::new(3)?;
    println!(rt; "Steps on the board of the first job.")?;
    steps::show_steps(
        &rt,
        &[zero, first, second, first, zero, third, second, third, zero],
    )
}
