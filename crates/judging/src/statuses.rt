// The status that a program ends with that judges files.
ghost use Rattle.std.specs.Prelude.{◌≡◌};
ghost use Rattle.std.specs.List.{list_any};
ghost use Rattle.judging.specs.Printed.{judged_found};
ghost use Rattle.judging.specs.Statuses.{is_safe, status_of, is_not_safe, is_not_judged, exit_status};

use crate::{Judgement, Verdicts};
use inquiry::Verdict;

// What became of a file.
#[derive(Clone, Copy, PartialEq, Eq, Debug)]
pub enum Status {
    // It is safe under both rules.
    AllSafe,
    // A verdict is not safe.
    NotSafe,
    // It was refused, or could not be read.
    NotJudged,
}

fn is_safe(verdict: Verdict) -> bool
    ensures { result ≡ is_safe verdict }
{
    verdict == Verdict::Safe
}

impl Verdicts {
    pub fn status(&self) -> Status
        ensures { result ≡ status_of (judged_found self.now.judged) }
    {
        match &self.judged {
            Ok(judgement)
                if is_safe(judgement.history.report.verdict)
                    && is_safe(judgement.stack.report.verdict) => { Status::AllSafe }
            Ok(_) => Status::NotSafe,
            Err(_) => Status::NotJudged,
        }
    }
}

fn one_is_not_judged(files: &[Status]) -> bool
    ensures { result ≡ list_any is_not_judged files.now }
{
    files.iter().any(|status| *status == Status::NotJudged)
}

fn one_is_not_safe(files: &[Status]) -> bool
    ensures { result ≡ list_any is_not_safe files.now }
{
    files.iter().any(|status| *status == Status::NotSafe)
}

// The status of a program after these files: 0 where every verdict is safe, 1 where one is not, 2 where a file was not judged.
pub fn exit_status(files: &[Status]) -> u8
    ensures { result ≡ exit_status files.now }
{
    if one_is_not_judged(files) {
        2
    } else if one_is_not_safe(files) {
        1
    } else {
        0
    }
}
