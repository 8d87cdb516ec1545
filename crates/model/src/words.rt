// What a verdict is called.
ghost use Rattle.std.specs.Prelude.{Some};
ghost use Rattle.model.specs.Words.{verdict_name};

use crate::Verdict;
use std::fmt;

impl fmt::Display for Verdict {
    ghost output = { λ v. Some (verdict_name v) };

    fn fmt<W: fmt::Write>(&self, f: &mut fmt::Formatter<W>) -> fmt::Result {
        f.write_str(match self {
            Verdict::Safe => "safe",
            Verdict::Unsafe => "unsafe",
            Verdict::Full => "full",
            Verdict::Unfinished => "unfinished",
        })
    }
}
