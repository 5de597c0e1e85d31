// HALT is the thousandth step: the budget is used up, which counts before sleep, so DONE and not ASLEEP.
//
//   0  20 56 F3 01   MOVEA 499, r0, r10
//   4  5F 52         ADD -1, r10
//   6  FA FD         BNZ -2: back to 4 until r10 is 0
//   8  E0 07 20 01   HALT
//
// Steps: MOVEA, 499 rounds of ADD and BNZ, HALT: 1 + 998 + 1. PC is behind HALT. PSW: ID of reset, and CY and Z of the last ADD.
#![tactic(auto)]

fn main(rt: HostRuntime) {
    bench_io::bench(&rt, &mut rt.stdin());
}
