// Links: a new edge among those that are in use.
ghost use Rattle.std.specs.Prelude.{◌≡◌, ℕ, ◌≤◌, ◌<◌, ◌+◌, ◌∷◌, ◌++◌, length, take, drop};
ghost use Rattle.model.specs.Links.{is_listed, rising_place, linked};
ghost use Rattle.model.specs.Program.{counted};
ghost use Rattle.model.specs.Searches.{Sound, unworked};
ghost use Rattle.recipe.specs.Recipes.{program};
ghost use Rattle.rules.specs.Subjects.{setting_of};
ghost use Rattle.inquiry.specs.Calls.{answered, unless, in_use, link_answer};
ghost use Rattle.inquiry.specs.declared.requests.Reply.TheVariants.{Linked};
ghost use Rattle.inquiry.specs.declared.requests.Request.TheVariants.{Link};
ghost use Rattle.inquiry.specs.Histories.{opened_on};
ghost use Rattle.inquiry.specs.Inquiries.{state_of, Kept};
ghost use Rattle.inquiry.specs.Reached.{IsNext};

use crate::Inquiry;
use recipe::{Edge, Recipe, Refusal};
use rules::{AccessRule, Subject, Watch};

// Whether an edge is one of those of a list that count.
fn is_listed(recipe: &Recipe, edges: &[Edge], edge: Edge) -> bool
    requires { length edges.now ≤ 4096 }
    ensures { result ≡ is_listed (counted (program recipe.now) edges.now) edge }
{
    recipe.counted(edges).any(|held| held == edge)
}

// The rising place of an edge among others: before the first that counts and rises above it, or else behind all.
fn rising_place(recipe: &Recipe, edges: &[Edge], edge: Edge) -> usize
    ensures place { result ≡ rising_place (program recipe.now) edges.now edge }
    ensures within { result ≤ length edges.now }
{
    let mut last = None;
    for (place, held) in edges.iter().enumerate() {
        if recipe.counts(last, *held) {
            if edge < *held {
                return place;
            }
            last = Some(*held);
        }
    }
    edges.len()
}

// Puts an edge at a place of a table, and moves those in use from there on one place up.
fn insert(edges: &mut [Edge], used: usize, place: usize, edge: Edge)
    requires within { place ≤ used }
    requires room { used < length edges.old }
    ensures { let held = take used edges.old in edges.new ≡ take place held ++ edge ∷ drop place held ++ drop (used + 1) edges.old }
{
    edges[place..=used].rotate_right(1);
    edges[place] = edge;
}

impl Inquiry<'_> {
    // Whether a link is allowed: first as a dig is, and then it is an edge by the rules, none that counts, a place is free, and the inquiry is not full.
    fn may_link<R: AccessRule, W: Watch>(
        &self,
        on: &Subject<R, W>,
        edges: &[Edge],
        edge: Edge,
    ) -> Result<(), Refusal>
        ensures { result ≡ link_answer self.now (setting_of R.meaning W.watching on.now (in_use self.now edges.now)) edges.now self.now.full edge }
    {
        self.may_dig(on, edges)?;
        let used = self.opening.used;
        if !on.recipe.is_edge(edge) {
            return Err(Refusal::NotAnEdge);
        }
        if is_listed(on.recipe, &edges[..used], edge) {
            return Err(Refusal::EdgeHeld);
        }
        if used == edges.len() {
            return Err(Refusal::EdgesFull);
        }
        if self.full {
            return Err(Refusal::InquiryFull);
        }
        Ok(())
    }

    // Adds an edge to those in use, at its rising place, and answers how many are in use then. All facts are to be worked again, so that digging goes on from those that are held.
    pub fn link<R: AccessRule, W: Watch>(
        &mut self,
        on: &Subject<R, W>,
        edges: &mut [Edge],
        edge: Edge,
    ) -> Result<u32, Refusal>
        ensures answer { let X = setting_of R.meaning W.watching on.now (in_use self.old edges.old) in result ≡ answered (link_answer self.old X edges.old self.old.full edge) (self.old.opening.used + 1) }
        ensures state { let X = setting_of R.meaning W.watching on.now (in_use self.old edges.old) in state_of self.new ≡ unless (link_answer self.old X edges.old self.old.full edge) (unworked (state_of self.old)) (state_of self.old) }
        ensures edges { let X = setting_of R.meaning W.watching on.now (in_use self.old edges.old) in edges.new ≡ unless (link_answer self.old X edges.old self.old.full edge) (linked X.program (in_use self.old edges.old) edge ++ drop (self.old.opening.used + 1) edges.old) edges.old }
        ensures used { let X = setting_of R.meaning W.watching on.now (in_use self.old edges.old) in self.new.opening ≡ unless (link_answer self.old X edges.old self.old.full edge) (record { counts = self.old.opening.counts; used = self.old.opening.used + 1 }) self.old.opening }
        ensures kept { Kept self.old self.new }
        ensures sound { Sound (setting_of R.meaning W.watching on.now (in_use self.old edges.old)) self.old.places (state_of self.old) → Sound (setting_of R.meaning W.watching on.now (in_use self.new edges.new)) self.old.places (state_of self.new) }
        ensures history { (places edge_places : ℕ) → IsNext (opened_on R.meaning W.watching on.now places edge_places) (Link edge.from edge.to) (λ n. Linked n) self.old edges.old self.new edges.new result }
    {
        self.may_link(on, edges, edge)?;
        let used = self.opening.used;
        let place = rising_place(on.recipe, &edges[..used], edge);
        insert(edges, used, place, edge);
        self.opening.used = used + 1;
        self.worked = 0;
        Ok(self.opening.used as u32)
    }
}
