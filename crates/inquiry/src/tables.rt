// The edge table, as far as it is in use.
ghost use Rattle.std.specs.Prelude.{◌≡◌, List, Ok, Err, IfOk, MatchResult};
ghost use Rattle.inquiry.specs.declared.requests.Request.{Request};
ghost use Rattle.inquiry.specs.Calls.{in_use};
ghost use Rattle.inquiry.specs.Histories.{Opened, after};
ghost use Rattle.inquiry.specs.Reached.{Reached};

use crate::Inquiry;
use recipe::{Edge, Refusal};

impl Inquiry<'_> {
    // The edges in use, the first places of the edge table: in the inquiry's own table these are the recipe's own and the accepted links, rising. Of a table with fewer places all are answered. A void inquiry refuses, as it does every call.
    pub fn edges_in_use<'e>(&self, edges: &'e [Edge]) -> Result<&'e [Edge], Refusal>
        ensures answer { MatchResult result (λ used. (self.now.fits ≡ Ok tt) × (used.now ≡ in_use self.now edges.now)) (λ why. self.now.fits ≡ Err why) }
        ensures history { (C : Opened) (rs : List Request) → Reached C rs self.now edges.now → IfOk result (λ used. used.now ≡ (after C rs).edges) }
    {
        self.fits?;
        Ok(&edges[..self.opening.used.min(edges.len())])
    }
}
