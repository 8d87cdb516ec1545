// What a caller is told of a file.
use recipe::{Draft, Recipe, Refusal};

// By take.
pub(crate) fn taken(file: &[u8]) -> Result<(), Refusal> {
    recipe::take(file, &mut Draft::built_in())
}

// By check, after take.
pub(crate) fn checked(file: &[u8]) -> Result<(), Refusal> {
    let mut draft = Draft::built_in();
    recipe::take(file, &mut draft)?;
    recipe::check(draft, &mut Recipe::built_in())
}

// By read.
pub(crate) fn read(file: &[u8]) -> Result<(), Refusal> {
    recipe::read(file, &mut Recipe::built_in())
}
