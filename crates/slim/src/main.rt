// Prints the slim copy of the file on standard input, or the refusal of the file.
#![tactic(auto)]

use print_calls::slim_of_input;

fn main(rt: HostRuntime) {
    slim_of_input(&rt);
}
