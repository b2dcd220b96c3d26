// Runs the script on standard input by the marking machine, every cell undefined at the start, budget 10,000, and prints the outcome and the cells.

#![tactic(auto)]

use host_printing::machines::Marker;
use host_printing::serving::serve;

fn main(rt: HostRuntime) {
    serve::<Marker, _, _>(&mut rt.stdin(), &mut rt.stdout());
}
