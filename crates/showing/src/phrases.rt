// Phrases that stand in several lines.
ghost use Rattle.std.specs.Prelude.{Some};
ghost use Rattle.showing.specs.Phrases.{rights_text, held_text, refused_text};

use recipe::Refusal;
use std::fmt;

// A set of rights, right i counting 2^i, which is a number everywhere else, so that only a type of its own can be shown so: the numbers of its rights, or "none".
#[derive(Clone, Copy)]
pub struct Rights(pub u32);

impl fmt::Display for Rights {
    ghost output = { λ r. Some (rights_text r.0) };

    fn fmt<W: fmt::Write>(&self, f: &mut fmt::Formatter<W>) -> fmt::Result {
        if self.0 == 0 {
            return f.write_str("none");
        }
        // In a loop over a filter the check loses that the gap is text, so the test stands inside.
        let mut gap = "";
        for right in 0..u32::BITS {
            if (self.0 >> right) & 1 == 1 {
                write!(f, "{gap}{right}")?;
                gap = " ";
            }
        }
        Ok(())
    }
}

// The same set as a phrase, and so another type: shown as "rights 0 1", or "no rights".
#[derive(Clone, Copy)]
pub struct Held(pub u32);

impl fmt::Display for Held {
    ghost output = { λ h. Some (held_text h.0) };

    fn fmt<W: fmt::Write>(&self, f: &mut fmt::Formatter<W>) -> fmt::Result {
        match self.0 {
            0 => f.write_str("no rights"),
            rights => write!(f, "rights {}", Rights(rights)),
        }
    }
}

// A refusal by its number and detail, so that a script can read it; shown by itself, a refusal is a sentence.
#[derive(Clone, Copy)]
pub struct Refused(pub Refusal);

impl fmt::Display for Refused {
    ghost output = { λ r. Some (refused_text r.0) };

    fn fmt<W: fmt::Write>(&self, f: &mut fmt::Formatter<W>) -> fmt::Result {
        write!(f, "refused {} {}", self.0.number(), self.0.detail())
    }
}
