// The order's sample, which prints the line that the order gives.
//
//   0  05 52         MOV 5, r10
//   2  5F 52         ADD -1, r10
//   4  FA FD         BNZ -2: back to 2 until r10 is 0
//   6  E0 07 20 01   HALT
//
// Steps: MOV, five rounds of ADD and BNZ, HALT: 12. PC is behind HALT. PSW: ID of reset, and from the last ADD, 1 + FFFFFFFFH,
// CY and Z: 20H + 8 + 1.
#![tactic(auto)]

fn main(rt: HostRuntime) {
    bench_io::bench(&rt, &mut rt.stdin());
}
