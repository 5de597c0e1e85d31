// Values with marks.
ghost use Rattle.std.specs.Prelude.{◌≡◌};
ghost use Rattle.machine.specs.Marked.{plain};

use crate::Tv;

impl Tv {
    pub fn plain(val: u32) -> Tv
        ensures { result ≡ plain val }
    {
        Tv { val, mark: false }
    }
}
