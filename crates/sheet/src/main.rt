// Prints the sheet of the file on standard input, with the argument as the label, or the refusal.
#![tactic(auto)]

use print_calls::sheet_of_input;

fn main(rt: HostRuntime) {
    sheet_of_input(&rt);
}
