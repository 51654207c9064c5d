// Converts the files that its arguments name, and says what came of each. The script ./desk calls it.
#![tactic(auto)]

use desk_return::desk;

fn main(rt: HostRuntime) {
    desk(&rt, rt.process(), &rt.stderr());
}
