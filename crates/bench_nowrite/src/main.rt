// A store behind the memory's end: NOWRITE. The store to its last two bytes is done.
//
//   0  60 0F FE 0F   ST.H r1, 0FFEH[r0]
//   4  40 0F 00 10   ST.B r1, 1000H[r0]
#![tactic(auto)]

fn main(rt: HostRuntime) {
    bench_io::bench(&rt, &mut rt.stdin());
}
