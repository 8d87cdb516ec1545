// Opens an inquiry.
ghost use Rattle.std.specs.Prelude.{◌≡◌, ◌≤◌, [], ◌++◌, length, drop, Ok};
ghost use Rattle.model.specs.Searches.{Sound};
ghost use Rattle.model.specs.Tables.{opened, empty};
ghost use Rattle.recipe.specs.Recipes.{own_edges};
ghost use Rattle.rules.specs.Subjects.{setting_of};
ghost use Rattle.inquiry.specs.Calls.{unless, fit_answer, counts_of, opening_of};
ghost use Rattle.inquiry.specs.Histories.{opened_on, fit_of};
ghost use Rattle.inquiry.specs.Inquiries.{state_of};
ghost use Rattle.inquiry.specs.Reached.{Reached};

use crate::fitting::fit;
use crate::{Counts, Inquiry, Opening};
use model::Fact;
use recipe::{Edge, Recipe};
use rules::{AccessRule, Subject, Watch};

// Copies the recipe's own edges to the first places of a table.
fn copy_edges(recipe: &Recipe, edges: &mut [Edge])
    requires { length (own_edges recipe.now) ≤ length edges.old }
    ensures { edges.new ≡ own_edges recipe.now ++ drop (length (own_edges recipe.now)) edges.old }
{
    // no `iter_mut` zipped with the edges: the proof of what the table then holds did not close
    for (place, edge) in recipe.own_edges().enumerate() {
        edges[place] = edge;
    }
}

impl Counts {
    // What there is with an edge table of so many places.
    pub(crate) fn of<R: AccessRule, W: Watch>(on: &Subject<R, W>, places: usize) -> Counts
        ensures { result ≡ counts_of (setting_of R.meaning W.watching on.now []) places }
    {
        Counts {
            nodes: on.recipe.nodes(),
            values: on.rule.values(on.recipe),
            states: on.watch.states(),
            places,
        }
    }
}

impl<'t> Inquiry<'t> {
    // Copies the recipe's edges to the edge table, and begins with the entries of main; void, with nothing written, where the tables do not fit.
    pub fn open<R: AccessRule, W: Watch>(
        on: &Subject<R, W>,
        facts: &'t mut [Fact],
        edges: &mut [Edge],
    ) -> Inquiry<'t>
        ensures refusal { let own = own_edges on.now.recipe.now in let X = setting_of R.meaning W.watching on.now own in result.fits ≡ fit_answer X (length own) (length facts.old) (length edges.old) }
        ensures opening { let own = own_edges on.now.recipe.now in let X = setting_of R.meaning W.watching on.now own in result.opening ≡ opening_of (fit_answer X (length own) (length facts.old) (length edges.old)) X (length own) (length edges.old) }
        ensures places { let own = own_edges on.now.recipe.now in let X = setting_of R.meaning W.watching on.now own in result.places ≡ unless (fit_answer X (length own) (length facts.old) (length edges.old)) (length facts.old) 0 }
        ensures state { let own = own_edges on.now.recipe.now in let X = setting_of R.meaning W.watching on.now own in state_of result ≡ unless (fit_answer X (length own) (length facts.old) (length edges.old)) (opened X (length facts.old)) empty }
        ensures same { result.facts.ghost_name ≡ facts.entry.ghost_name }
        ensures rest { drop result.held result.facts.now ≡ drop result.held facts.old }
        ensures edges { let own = own_edges on.now.recipe.now in let X = setting_of R.meaning W.watching on.now own in edges.new ≡ unless (fit_answer X (length own) (length facts.old) (length edges.old)) (own ++ drop (length own) edges.old) edges.old }
        ensures sound { let own = own_edges on.now.recipe.now in let X = setting_of R.meaning W.watching on.now own in Ok tt ≡ fit_answer X (length own) (length facts.old) (length edges.old) → Sound X (length facts.old) (state_of result) }
        ensures history { let C = opened_on R.meaning W.watching on.now (length facts.old) (length edges.old) in fit_of C ≡ Ok tt → Reached C [] result edges.new }
    {
        let fits = fit(on, facts, edges);
        let counts = Counts::of(on, edges.len());
        if fits.is_err() {
            return Inquiry {
                facts,
                places: 0,
                held: 0,
                worked: 0,
                full: false,
                opening: Opening { counts, used: 0 },
                fits,
            };
        }
        copy_edges(on.recipe, edges);
        let places = facts.len();
        let used = on.recipe.edges() as usize;
        let mut inquiry = Inquiry {
            facts,
            places,
            held: 0,
            worked: 0,
            full: false,
            opening: Opening { counts, used },
            fits,
        };
        inquiry.begin(on);
        inquiry
    }
}
