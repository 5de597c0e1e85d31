// An input of 4,097 bytes is not run: SIZE, with the reset state. It is the input of bench_full and a zero byte more, so that a
// bench that left the last byte out would print another line.
#![tactic(auto)]

fn main(rt: HostRuntime) {
    bench_io::bench(&rt, &mut rt.stdin());
}
