// An input of exactly 4,096 bytes is run, to its last byte.
//
//   000  80 07 FC 0F   JR 0FFCH
//   004  FF ..         not run
//   FFC  00 00         MOV r0, r0
//   FFE  5F 02         ADD -1, r0: 0 + FFFFFFFFH sets S; the value is dropped
//
// Then nothing is there to fetch: NOFETCH at 1000H, after three steps. PSW: ID of reset, and S.
#![tactic(auto)]

fn main(rt: HostRuntime) {
    bench_io::bench(&rt, &mut rt.stdin());
}
