// Words as signed numbers.
ghost use Rattle.std.specs.Prelude.{◌≡◌};
ghost use Rattle.word.specs.Word.{signed_half};

// The low half of a as a signed number.
pub fn signed_half(a: u32) -> i32
    ensures { result ≡ signed_half a }
{
    i32::from(((a % 0x10000) as u16).cast_signed())
}
