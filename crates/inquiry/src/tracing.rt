// The trace of the first bad fact, written in place from its end.
ghost use Rattle.std.specs.Prelude.{◌≡◌, ◌-◌, ◌<◌, ◌≤◌, true, false, ◌++◌, length, take, drop, reverse, IfOk, MatchOption};
ghost use Rattle.model.specs.Tables.{row_at, capped, any_bad, first_bad};
ghost use Rattle.inquiry.specs.Calls.{answered, unless, trace_answer, trace_length, trace_output};
ghost use Rattle.inquiry.specs.declared.requests.Reply.TheVariants.{Traced};
ghost use Rattle.inquiry.specs.Histories.{Opened};
ghost use Rattle.inquiry.specs.Inquiries.{state_of};
ghost use Rattle.inquiry.specs.Promises.{Bad};
ghost use Rattle.inquiry.specs.Reached.{IsNextTrace};
ghost use Rattle.inquiry.specs.Shapes.{span_at, tale_from, stretch_from, back_from, with_end};

use crate::Inquiry;
use model::Fact;
use recipe::Refusal;
use rules::Watch;

// Puts the number of a place where its stretch ends, if it is one.
fn put_end(out: &mut [u32], end: usize, place: u32)
    requires { (1 ≤ place → 1 ≤ end) × (end ≤ length out.old) }
    ensures { out.new ≡ with_end out.old end place }
{
    if place != 0 {
        out[end - 1] = place;
    }
}

impl Inquiry<'_> {
    // The row at a place, counted from 1.
    fn row(&self, place: u32) -> Fact
        requires { (1 ≤ place) × (place ≤ self.now.held) }
        ensures { result ≡ row_at (state_of self.now).rows (place - 1) }
    {
        self.facts[place as usize - 1]
    }

    // How long the stretch of the row at a place is, capped.
    fn span_at(&self, place: u32) -> u32
        requires { place ≤ self.now.held }
        ensures { result ≡ span_at (state_of self.now).rows place }
    {
        if place == 0 { 0 } else { self.row(place).span }
    }

    // The place of the call fact that first gave the start of the row at a place; 0 if its call began at an entry of main.
    fn caller(&self, place: u32) -> u32
        requires { (1 ≤ place) × (place ≤ self.now.held) }
        ensures less { result < place }
        ensures below { (tale_from (state_of self.now).rows place).below ≡ back_from (state_of self.now).rows result }
    {
        let mut row = self.row(place);
        while row.rule != 3 && row.source != 0 {
            row = self.row(row.source);
        }
        row.source
    }

    // How long the trace of the row at a place is, capped.
    fn trace_length(&self, place: u32) -> u32
        requires { place ≤ self.now.held }
        ensures { result ≡ capped (length (back_from (state_of self.now).rows place)) }
    {
        let mut length: u32 = 0;
        let mut at = place;
        while at != 0 {
            length = length.saturating_add(self.span_at(at));
            at = self.caller(at);
        }
        length
    }

    // Writes the stretch of the row at a place so that it ends before a place of the output.
    // A place that stands where its stretch ends is replaced by its row's node, and its sources' places go where their stretches end: leftwards, one visit a node.
    fn write_stretch(&self, place: u32, out: &mut [u32], end: usize)
        requires held { (1 ≤ place) × (place ≤ self.now.held) }
        requires fits { (length (stretch_from (state_of self.now).rows place) ≤ end) × (end ≤ length out.old) }
        requires small { length (stretch_from (state_of self.now).rows place) < 4294967295 }
        ensures { let told = stretch_from (state_of self.now).rows place in out.new ≡ take (end - length told) out.old ++ (reverse told ++ drop end out.old) }
    {
        let from = end - self.span_at(place) as usize;
        put_end(out, end, place);
        for at in (from..end).rev() {
            let row = self.row(out[at]);
            out[at] = row.node;
            if row.rule != 3 {
                put_end(out, at, row.returned);
                put_end(out, at - self.span_at(row.returned) as usize, row.source);
            }
        }
    }

    // Writes the trace of the row at a place to the beginning of the output: its stretch last, and before it those of the calls that led to it.
    fn write_trace(&self, place: u32, out: &mut [u32], nodes: usize)
        requires held { place ≤ self.now.held }
        requires long { nodes ≡ length (back_from (state_of self.now).rows place) }
        requires fits { (nodes ≤ length out.old) × (nodes < 4294967295) }
        ensures { let told = back_from (state_of self.now).rows place in out.new ≡ reverse told ++ drop (length told) out.old }
    {
        let mut end = nodes;
        let mut at = place;
        while at != 0 {
            self.write_stretch(at, out, end);
            end -= self.span_at(at) as usize;
            at = self.caller(at);
        }
    }
    // The place of the first bad fact, from 0, if one is held.
    pub(crate) fn first_bad<W: Watch>(&self, watch: &W) -> Option<usize>
        ensures { let rows = (state_of self.now).rows in MatchOption result (any_bad (W.watching watch.now) rows ≡ false) (λ i. (any_bad (W.watching watch.now) rows ≡ true) × (i ≡ first_bad (W.watching watch.now) rows) × (i < self.now.held)) }
    {
        self.facts[..self.held]
            .iter()
            .position(|fact| watch.bad(fact.state))
    }

    // Puts the trace of the first fact that is bad into the first places of the output, and tells its number of nodes. One that is too long for the output, or has more nodes than a number tells, is refused with its length.
    pub fn trace<W: Watch>(&self, watch: &W, out: &mut [u32]) -> Result<u32, Refusal>
        ensures answer { result ≡ answered (trace_answer self.now (W.watching watch.now) (length out.old)) (trace_length (W.watching watch.now) (state_of self.now)) }
        ensures output { out.new ≡ unless (trace_answer self.now (W.watching watch.now) (length out.old)) (trace_output (W.watching watch.now) (state_of self.now) out.old) out.old }
        ensures bad { IfOk result (λ nodes. Bad (W.watching watch.now) self.now (take nodes out.new)) }
        ensures history { (C : Opened) → C.watch ≡ W.watching watch.now → IsNextTrace C (λ n. Traced n) self.now out.old out.new result }
    {
        self.fits?;
        let Some(at) = self.first_bad(watch) else {
            return Err(Refusal::NotUnsafe);
        };
        let place = at as u32 + 1;
        let length = self.trace_length(place);
        if length == u32::MAX || length as usize > out.len() {
            return Err(Refusal::LongTrace { length });
        }
        self.write_trace(place, out, length as usize);
        Ok(length)
    }
}
