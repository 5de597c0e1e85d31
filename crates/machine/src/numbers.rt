// The order's numbers.
use crate::Answer;

// The answers by number, which is how C and the bench read them (`include/v850.h`); inside, an answer is an `Answer`.
pub const DONE: u32 = 0;

pub const SIZE: u32 = 1;

pub const MAP: u32 = 2;

pub const STATE: u32 = 3;

pub const ASLEEP: u32 = 4;

pub const NO_FETCH: u32 = 5;

pub const UNDEFINED: u32 = 6;

pub const LEAK: u32 = 7;

pub const NO_READ: u32 = 8;

pub const NO_WRITE: u32 = 9;

impl From<Answer> for u32 {
    ghost use Rattle.std.specs.Prelude.{◌≡◌};
    ghost use Rattle.machine.specs.Run.{number};

    ghost from_gives = { λ a n. n ≡ number a };

    fn from(a: Answer) -> u32 {
        match a {
            Answer::Done => DONE,
            Answer::Size => SIZE,
            Answer::Map => MAP,
            Answer::State => STATE,
            Answer::Asleep => ASLEEP,
            Answer::NoFetch => NO_FETCH,
            Answer::Undefined => UNDEFINED,
            Answer::Leak => LEAK,
            Answer::NoRead => NO_READ,
            Answer::NoWrite => NO_WRITE,
        }
    }
}
