// A jump out of the memory: NOFETCH, with capital letters in PC and place.
//
//   0  40 0E AC 00   MOVHI 00ACH, r0, r1: 00AC0000H
//   4  21 0E EE CD   MOVEA CDEEH, r1, r1: its sign is extended, 00AC0000H + FFFFCDEEH = 00ABCDEEH
//   8  61 00         JMP [r1]
//
// Three steps, and none of them touches a flag.
#![tactic(auto)]

fn main(rt: HostRuntime) {
    bench_io::bench(&rt, &mut rt.stdin());
}
