// The verdict, and the end of an inquiry.
ghost use Rattle.std.specs.Prelude.{◌≡◌, IfOk, List};
ghost use Rattle.model.specs.declared.Edge.{Edge};
ghost use Rattle.model.specs.Tables.{verdict_of};
ghost use Rattle.inquiry.specs.Calls.{answered, report_of};
ghost use Rattle.inquiry.specs.declared.requests.Reply.TheVariants.{Judged};
ghost use Rattle.inquiry.specs.declared.requests.Request.TheVariants.{Verdict as AskVerdict};
ghost use Rattle.inquiry.specs.Histories.{Opened};
ghost use Rattle.inquiry.specs.Inquiries.{state_of};
ghost use Rattle.inquiry.specs.Promises.{Right};
ghost use Rattle.inquiry.specs.Reached.{IsNext, IsEnd};

use crate::{Inquiry, Report};
use model::Verdict;
use recipe::Refusal;
use rules::Watch;

impl Inquiry<'_> {
    // What the facts that are held say.
    fn judge<W: Watch>(&self, watch: &W) -> Verdict
        ensures { result ≡ verdict_of (W.watching watch.now) (state_of self.now) }
    {
        if self.first_bad(watch).is_some() {
            Verdict::Unsafe
        } else if self.full {
            Verdict::Full
        } else if self.worked == self.held {
            Verdict::Safe
        } else {
            Verdict::Unfinished
        }
    }

    // Unsafe if a held fact is bad; else full if a new fact found no place; else safe if all facts are worked.
    pub fn verdict<W: Watch>(&self, watch: &W) -> Result<Verdict, Refusal>
        ensures answer { result ≡ answered self.now.fits (verdict_of (W.watching watch.now) (state_of self.now)) }
        ensures right { IfOk result (Right (W.watching watch.now) self.now) }
        ensures history { (C : Opened) (table : List Edge) → C.watch ≡ W.watching watch.now → IsNext C AskVerdict Judged self.now table self.now table result }
    {
        self.fits?;
        Ok(self.judge(watch))
    }

    // What the inquiry comes to: its verdict, and how many facts are held and worked.
    fn report<W: Watch>(&self, watch: &W) -> Result<Report, Refusal>
        ensures { result ≡ answered self.now.fits (report_of (W.watching watch.now) (state_of self.now)) }
    {
        let verdict = self.verdict(watch)?;
        Ok(Report {
            verdict,
            held: self.held as u32,
            worked: self.worked as u32,
        })
    }

    // Ends the inquiry, and answers what it came to. The fact table stays as it is.
    pub fn close<W: Watch>(self, watch: &W) -> Result<Report, Refusal>
        ensures answer { result ≡ answered self.entry.fits (report_of (W.watching watch.now) (state_of self.entry)) }
        ensures right { IfOk result (λ report. Right (W.watching watch.now) self.entry report.verdict) }
        ensures table { self.exit.0.now ≡ self.entry.facts.now }
        ensures history { (C : Opened) → C.watch ≡ W.watching watch.now → IsEnd C self.entry self.exit.0.now result }
    {
        let answer = self.report(watch);
        let Inquiry {
            facts: _,
            places: _,
            held: _,
            worked: _,
            full: _,
            opening: _,
            fits: _,
        } = self;
        answer
    }
}
