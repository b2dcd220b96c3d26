// Runs the script on standard input, every cell undefined at the start, budget 10,000, and prints the outcome and the cells.

#![tactic(auto)]

use host_printing::machines::Runner;
use host_printing::serving::serve;

fn main(rt: HostRuntime) {
    serve::<Runner, _, _>(&mut rt.stdin(), &mut rt.stdout());
}
