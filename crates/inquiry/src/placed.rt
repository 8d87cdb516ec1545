// A fact with its place in the table.
ghost use Rattle.std.specs.Prelude.{◌≡◌, ◌+◌, ◌<◌};

use model::Fact;

// A held fact, and the place that holds it, from 0.
#[derive(Clone, Copy)]
pub(crate) struct Placed {
    pub at: usize,
    pub fact: Fact,
    ghost few: { at < 65536 },
}

impl Placed {
    // The place counted from 1, as a row names its sources.
    pub(crate) fn number(&self) -> u32
        ensures { result ≡ self.now.at + 1 }
    {
        (self.at + 1) as u32
    }
}
