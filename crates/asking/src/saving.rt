// The file of a linked recipe.
ghost use Rattle.std.specs.Prelude.{◌≡◌, List, take, IfOk};
ghost use Rattle.recipe.specs.Recipes.{program, own_edges};
ghost use Rattle.recipe.specs.Writing.{file_with, write_answer, write_output};
ghost use Rattle.inquiry.specs.declared.requests.Request.{Request};
ghost use Rattle.inquiry.specs.Calls.{unless, in_use};
ghost use Rattle.inquiry.specs.Histories.{Opened};
ghost use Rattle.inquiry.specs.Reached.{Reached};
ghost use Rattle.asking.specs.Saved.{unless_void, LinkedFile};

use inquiry::Inquiry;
use recipe::{Edge, Recipe, Refusal, write};

// Writes the file of the linked recipe: the recipe with the edges in use of an inquiry's edge table. Answers how many bytes it has; refused where the inquiry is void, or the output is too short for it.
pub fn write_linked(
    inquiry: &Inquiry,
    recipe: &Recipe,
    edges: &[Edge],
    out: &mut [u8],
) -> Result<usize, Refusal>
    ensures answer { let file = file_with (program recipe.now) (in_use inquiry.now edges.now) in result ≡ unless_void inquiry.now.fits (write_answer file out.old) }
    ensures output { let file = file_with (program recipe.now) (in_use inquiry.now edges.now) in out.new ≡ unless inquiry.now.fits (write_output file out.old) out.old }
    ensures linked { (C : Opened) (rs : List Request) → C.program ≡ program recipe.now → C.own ≡ own_edges recipe.now → Reached C rs inquiry.now edges.now → IfOk result (λ bytes. LinkedFile C rs (take bytes out.new)) }
{
    write(recipe, inquiry.edges_in_use(edges)?, out)
}
