// The first value of each kind: the smallest recipe, which takes and checks fill over.
ghost use Rattle.std.specs.Prelude.{◌≡◌, []};
ghost use Rattle.recipe.specs.Format.{bytes_of};
ghost use Rattle.recipe.specs.Recipes.{smallest, draft_of, file_of};

use crate::{Draft, Layout, Recipe};

// One method with no rights and one node, an entry that returns.
static SMALLEST: [u8; 28] = [
    0, 16, 0, 1, 0, 20, 0, 1, 0, 28, 0, 0, 0, 28, 0, 0, 0, 0, 0, 1, 3, 0, 1, 0, 0, 0, 0, 0,
];

impl<'a> Layout<'a> {
    // The layout of the smallest recipe.
    fn built_in() -> Layout<'a>
        ensures { result.file.now ≡ bytes_of smallest [] }
    {
        Layout::read(&SMALLEST).unwrap()
    }
}

impl<'a> Draft<'a> {
    // The draft of the smallest recipe.
    pub fn built_in() -> Draft<'a>
        ensures { draft_of result ≡ bytes_of smallest [] }
    {
        Draft {
            layout: Layout::built_in(),
        }
    }
}

impl<'a> Recipe<'a> {
    // The smallest recipe.
    pub fn built_in() -> Recipe<'a>
        ensures { file_of result ≡ bytes_of smallest [] }
    {
        Recipe {
            layout: Layout::built_in(),
        }
    }
}
