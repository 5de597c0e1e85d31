// No input: the memory is all zeros, and 0000H is MOV r0, r0, two bytes long and without flags. A thousand of them use the budget
// up at 2,000 = 7D0H: DONE.
#![tactic(auto)]

fn main(rt: HostRuntime) {
    bench_io::bench(&rt, &mut rt.stdin());
}
