// Files for tests: a builder that does not use the code under test, recipe A, the facts that it comes to, and marks for lent tables.
#![tactic(auto)]

pub mod building;
pub mod marks;
pub mod recipe_a;
pub mod rows;
