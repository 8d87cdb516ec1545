// Why there is no judgement of a file.
ghost use Rattle.std.specs.Prelude.{◌≡◌, Some};
ghost use Rattle.judging.specs.declared.errors.JudgeError.TheVariants.{Refused, OutOfMemory};
ghost use Rattle.judging.specs.Printed.{error_text};

use recipe::Refusal;
use std::alloc::AllocError;
use std::error::Error;
use std::fmt;

// The grounds for giving no judgement.
#[derive(Clone, Copy, PartialEq, Eq, Debug)]
pub enum JudgeError {
    // The file is no recipe file.
    Refused(Refusal),
    // There is no memory for the tables.
    OutOfMemory,
}

impl fmt::Display for JudgeError {
    ghost output = { λ e. Some (error_text e) };

    fn fmt<W: fmt::Write>(&self, f: &mut fmt::Formatter<W>) -> fmt::Result {
        match self {
            JudgeError::Refused(refusal) => write!(f, "no recipe file: {refusal}"),
            JudgeError::OutOfMemory => f.write_str("out of memory"),
        }
    }
}

impl Error for JudgeError {}

impl From<Refusal> for JudgeError {
    ghost from_gives = { λ refusal e. e ≡ Refused refusal };

    fn from(refusal: Refusal) -> JudgeError {
        JudgeError::Refused(refusal)
    }
}

impl From<AllocError> for JudgeError {
    ghost from_gives = { λ _ e. e ≡ OutOfMemory };

    fn from(_error: AllocError) -> JudgeError {
        JudgeError::OutOfMemory
    }
}
