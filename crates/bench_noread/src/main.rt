// A load from where nothing is: NOREAD, at the address that was looked up. It has 24 bits, and the low two are cleared for a word.
//
//   0  1F 0A         MOV -1, r1
//   2  21 17 01 00   LD.W 0[r1], r2: FFFFFFFFH, so FFFFFCH
#![tactic(auto)]

fn main(rt: HostRuntime) {
    bench_io::bench(&rt, &mut rt.stdin());
}
