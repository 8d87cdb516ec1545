// Whether an inquiry can be opened.
ghost use Rattle.std.specs.Prelude.{◌≡◌, [], length};
ghost use Rattle.recipe.specs.Recipes.{own_edges};
ghost use Rattle.rules.specs.Subjects.{setting_of};
ghost use Rattle.inquiry.specs.Calls.{fit_answer, counts_fit, tables_fit};

use model::Fact;
use recipe::{Edge, Refusal};
use rules::{AccessRule, Subject, Watch};

// The most values, states and fact places that an inquiry takes, and the most edges.
const MOST: u32 = 65536;

const MOST_EDGES: usize = 4096;

// Whether an inquiry takes so many values and states.
pub(crate) fn counts_fit(values: u32, states: u32) -> bool
    ensures { result ≡ counts_fit values states }
{
    values <= MOST && states <= MOST
}

// Whether tables of these lengths fit a recipe with so many edges.
fn tables_fit(own: u32, facts: usize, edges: usize) -> bool
    ensures { result ≡ tables_fit own facts edges }
{
    own as usize <= edges && edges <= MOST_EDGES && facts <= MOST as usize
}

// Tests a recipe, a rule, a watch and the tables for an opening.
pub fn fit<R: AccessRule, W: Watch>(
    on: &Subject<R, W>,
    facts: &[Fact],
    edges: &[Edge],
) -> Result<(), Refusal>
    ensures { result ≡ fit_answer (setting_of R.meaning W.watching on.now []) (length (own_edges on.now.recipe.now)) (length facts.now) (length edges.now) }
{
    if !counts_fit(on.rule.values(on.recipe), on.watch.states()) {
        return Err(Refusal::TooMany);
    }
    if !tables_fit(on.recipe.edges(), facts.len(), edges.len()) {
        return Err(Refusal::UnfitTable);
    }
    Ok(())
}
