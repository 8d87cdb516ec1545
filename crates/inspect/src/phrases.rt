// Phrases that stand in several lines, or several times in one.
ghost use Rattle.std.specs.Prelude.{Some};
ghost use Rattle.inspect.specs.Phrases.{many_text, run_text};

use std::fmt;

// So many of a kind: "1 row" or "3 rows".
#[derive(Clone, Copy)]
pub(crate) struct Many {
    pub number: u32,
    pub what: &'static str,
}

impl fmt::Display for Many {
    ghost output = { λ m. Some (many_text m.number m.what.now) };

    fn fmt<W: fmt::Write>(&self, f: &mut fmt::Formatter<W>) -> fmt::Result {
        let Many { number, what } = *self;
        let plural = if number == 1 { "" } else { "s" };
        write!(f, "{number} {what}{plural}")
    }
}

// Things of one kind with consecutive numbers, the last one included: "node 3" or "nodes 0 to 2".
#[derive(Clone, Copy)]
pub(crate) struct Run {
    pub what: &'static str,
    pub first: u32,
    pub last: u32,
}

impl fmt::Display for Run {
    ghost output = { λ r. Some (run_text r.what.now r.first r.last) };

    fn fmt<W: fmt::Write>(&self, f: &mut fmt::Formatter<W>) -> fmt::Result {
        let Run { what, first, last } = *self;
        if first == last {
            write!(f, "{what} {first}")
        } else {
            write!(f, "{what}s {first} to {last}")
        }
    }
}
