// Runs the rounding and the search of `integers` as they are compiled. `stdout` has what must be printed.
#![tactic(auto)]

use std::io;

mod rounding;
mod search;

fn main(rt: HostRuntime) -> io::Result<()> {
    let mut out = rt.stdout();
    rounding::show_all(&mut out)?;
    search::show_all(&mut out)
}
