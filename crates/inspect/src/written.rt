// Writes a recipe's file again, reads what was written, and compares it with the file.
ghost use Rattle.std.specs.Prelude.{◌≡◌, ◌<◌, length, Ok, Some, IfOk, MatchResult};
ghost use Rattle.recipe.specs.Recipes.{file_of, program, own_edges};
ghost use Rattle.recipe.specs.Writing.{file_with};
ghost use Rattle.inspect.specs.declared.written.Written.TheVariants.{Same};
ghost use Rattle.inspect.specs.Phrases.{written_text};

use recipe::{Edge, Recipe, Refusal};
use std::alloc::{AllocError, Global};
use std::fmt;

// What was written again: the same file or another, and how long it is.
#[derive(Clone, Copy)]
pub(crate) enum Written {
    Same { bytes: usize },
    Other { bytes: usize },
}

impl fmt::Display for Written {
    ghost output = { λ w. Some (written_text w) };

    fn fmt<W: fmt::Write>(&self, f: &mut fmt::Formatter<W>) -> fmt::Result {
        match self {
            Written::Same { bytes } => write!(f, "{bytes} bytes, the same file"),
            Written::Other { bytes } => write!(f, "{bytes} bytes, another file"),
        }
    }
}

// Writes the file into the output and reads it from there; gives back what was written. What was written is always
// read again, so only a short output is refused.
fn write_and_read<'a>(
    recipe: &Recipe,
    edges: &[Edge],
    out: &'a mut [u8],
) -> Result<&'a [u8], Refusal>
    ensures read { MatchResult result (λ x. x.now ≡ file_with (program recipe.now) edges.now) (λ _. length out.old < length (file_with (program recipe.now) edges.now)) }
    ensures same { edges.now ≡ own_edges recipe.now → file_with (program recipe.now) edges.now ≡ file_of recipe.now }
{
    let bytes = recipe::write(recipe, edges, out)?;
    let written = &out[0..bytes];
    let mut again = Recipe::built_in();
    recipe::read(written, &mut again)?;
    Ok(written)
}

// Writes the recipe's file with these edges and compares it with a file. A longer one than that is refused, since the
// output is no longer. From the recipe's own edges comes its own file, so the answer is then that it is the same.
pub(crate) fn write_back(
    heap: Global,
    recipe: &Recipe,
    edges: &[Edge],
    file: &[u8],
) -> Result<Result<Written, Refusal>, AllocError>
    ensures { edges.now ≡ own_edges recipe.now → file.now ≡ file_of recipe.now → IfOk result (λ w. w ≡ Ok (Same (length file.now))) }
{
    let mut out = vec![in heap; 0; file.len()]?;
    Ok(write_and_read(recipe, edges, &mut out).map(|written| {
        let bytes = written.len();
        if written == file {
            Written::Same { bytes }
        } else {
            Written::Other { bytes }
        }
    }))
}
