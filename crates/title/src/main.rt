// Prints the title of the file on standard input, with the first argument as the label.
#![tactic(auto)]

use print_calls::title_of_input;

fn main(rt: HostRuntime) {
    title_of_input(&rt);
}
