// Runs the book on standard input against a register, and prints the outcome of each field: its number from 1, its tag, its
// answer (0 where it is accepted), and the figures that it asked for.
#![tactic(auto)]

use book::MOST_BYTES;
use desk::run;
use std::io;
use std::io::Read;

fn main(rt: HostRuntime) -> io::Result<()> {
    let mut book = Vec::new(rt.alloc());
    rt.stdin().take(MOST_BYTES as u64).read_to_end(&mut book)?;
    let outcomes = run(rt.alloc(), &book)?;
    println!(rt; "field tag answer")?;
    for (i, outcome) in outcomes.iter().enumerate() {
        let field = i.saturating_add(1);
        println!(rt; "{field} {outcome}")?;
    }
    Ok(())
}
