// A word that decodes to nothing: UNDEFINED, at PC.
//
//   0  05 52   MOV 5, r10
//   2  60 08   JMP with a reg2 field that is not 0
#![tactic(auto)]

fn main(rt: HostRuntime) {
    bench_io::bench(&rt, &mut rt.stdin());
}
