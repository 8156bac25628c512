// Works the list of standard waits out and prints a line for each entry: its number and its wait.
#![tactic(auto)]

ghost use Rattle.std.specs.Prelude.{◌≡◌, ◌^◌, ◌<◌};
ghost use Rattle.waits.specs.Waits.{step, waits};

use std::io;

// The wait after a wait.
#[tactic(auto, unfolding(waits::specs::Waits::step))]
fn next_wait(x: u64) -> u64
    requires { x < 2 ^ 32 }
    ensures { result ≡ step x }
{
    x * 33 / 32
}

// The whole list, by the rule.
fn worked_out() -> [u64; 256]
    ensures { result ≡ waits }
{
    let mut list = [640u64; 256];
    // Kept: an entry is worked out from the one before it, so both are named by an index (d).
    for n in 1..256 {
        list[n] = next_wait(list[n - 1]);
    }
    list
}

fn main(rt: HostRuntime) -> io::Result<()> {
    for (n, wait) in worked_out().iter().enumerate() {
        println!(rt; "{n} {wait}")?;
    }
    Ok(())
}
