// The words of a map: base, length, offset and rights of each of four regions. k is below 4 wherever a region is named: a type for that
// would be made at each of these calls, from a number that stands there.
ghost use Rattle.std.specs.Prelude.{◌≡◌, ◌<◌};
ghost use Rattle.machine.specs.Regions.{base, size, offset, rights};

// How many words there are.
pub const WORDS: usize = 16;

// The words of region k.
pub fn base(map: &[u32; WORDS], k: usize) -> u32
    requires { k < 4 }
    ensures { result ≡ base map.now k }
{
    map[4 * k]
}

pub fn size(map: &[u32; WORDS], k: usize) -> u32
    requires { k < 4 }
    ensures { result ≡ size map.now k }
{
    map[4 * k + 1]
}

pub fn offset(map: &[u32; WORDS], k: usize) -> u32
    requires { k < 4 }
    ensures { result ≡ offset map.now k }
{
    map[4 * k + 2]
}

pub fn rights(map: &[u32; WORDS], k: usize) -> u32
    requires { k < 4 }
    ensures { result ≡ rights map.now k }
{
    map[4 * k + 3]
}
