// The table watch: its states are the rows of a recipe, and one more.
ghost use Rattle.model.specs.Watches.{table_watch};
ghost use Rattle.recipe.specs.Recipes.{program};

use crate::Watch;
use recipe::Recipe;

// The watch of a recipe's own rows.
#[derive(Clone, Copy)]
pub struct TableWatch<'r, 'f> {
    pub recipe: &'r Recipe<'f>,
}

impl Watch for TableWatch<'_, '_> {
    ghost watching = { λ w. table_watch (program w.recipe.now).rows };

    fn states(&self) -> u32 {
        self.recipe.rows() + 1
    }

    fn start(&self) -> u32 {
        0
    }

    fn step(&self, state: u32, mark: u32) -> u32 {
        let rows = self.recipe.rows();
        if state > rows || mark > 31 {
            return 0;
        }
        match self.recipe.cell(state, mark) {
            Some(next) if next != 255 => next,
            // the cell is undefined, for which a file has 255, or there is none past the last row
            _ => rows,
        }
    }

    fn bad(&self, state: u32) -> bool {
        state == self.recipe.rows()
    }
}
