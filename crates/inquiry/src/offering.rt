// Offers a fact to the table.
ghost use Rattle.std.specs.Prelude.{◌≡◌, ◌<◌, true, List, length, Some, is_some, IfSome};
ghost use Rattle.std.specs.Iterator.{IsFinite, Drains, Yields};
ghost use Rattle.model.specs.declared.Fact.{Fact};
ghost use Rattle.model.specs.Tables.{is_held, same_fact, row_at, offer, offer_all};
ghost use Rattle.inquiry.specs.Inquiries.{state_of, Grown};
ghost use Rattle.inquiry.specs.Shapes.{Hangs};

use crate::Inquiry;
use model::Fact;

// Whether two rows have one fact.
fn same_fact(a: &Fact, b: &Fact) -> bool
    ensures { result ≡ same_fact a.now b.now }
{
    a.start() == b.start() && a.end() == b.end()
}

impl Inquiry<'_> {
    // The place that holds this fact, if any does.
    fn place_of(&self, fact: Fact) -> Option<usize>
        ensures found { is_some result ≡ is_held (state_of self.now).rows fact }
        ensures place { IfSome result (λ i. (i < length (state_of self.now).rows) × (same_fact (row_at (state_of self.now).rows i) fact ≡ true)) }
    {
        self.facts[..self.held]
            .iter()
            .position(|held| same_fact(held, &fact))
    }

    // Puts a fact behind the last, unless it is held; where there is no place for it the table is full for good.
    pub(crate) fn offer(&mut self, fact: Fact)
        requires { Hangs (state_of self.old).rows fact }
        ensures state { state_of self.new ≡ offer self.old.places (state_of self.old) fact }
        ensures grown { Grown self.old self.new }
    {
        if self.full || self.place_of(fact).is_some() {
            return;
        }
        let held = self.held;
        if held < self.places {
            self.facts[held] = fact;
            self.held = held + 1;
        } else {
            self.full = true;
        }
    }

    // Offers facts one after another.
    pub(crate) fn offer_each<I: Iterator<Item = Fact> + Drop>(&mut self, rows: I)
        requires can { I.can_next rows }
        requires ends { IsFinite (I.remaining rows) }
        requires hang { (fs : List Fact) (f : Fact) (s t : I) → Yields I.next_gives rows fs s → I.next_gives s (Some f) t → Hangs (state_of self.old).rows f }
        ensures state { (all : List Fact) × Drains I.next_gives rows all × (state_of self.new ≡ offer_all self.old.places (state_of self.old) all) }
        ensures grown { Grown self.old self.new }
    {
        for row in rows {
            self.offer(row);
        }
    }
}
