// Decides, for a list of leaves, what a sync from A onto B would do at each.
#![tactic(auto)]

mod answer;
mod line;
mod totals;

use answer::answer_line;
use std::io;
use std::io::{BufRead, BufReader};
use totals::Totals;

fn main(rt: HostRuntime) -> io::Result<()> {
    let mut totals = Totals::default();
    for line in BufReader::new(rt.alloc(), rt.stdin())?.split(rt.alloc(), b'\n') {
        let answer = answer_line(line?.as_slice());
        match answer {
            Ok(decided) => println!(rt; "{decided}")?,
            Err(undecided) => println!(rt; "{undecided}")?,
        }
        totals += Totals::from(answer);
    }
    println!(rt; "{totals}")
}
