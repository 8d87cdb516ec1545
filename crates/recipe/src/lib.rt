// Recipe files: drafts and recipes over lent bytes, how they are taken, checked, read and written.
#![tactic(auto)]

ghost use Rattle.std.specs.Prelude.{◌≡◌, ℕ, ◌+◌, ◌*◌, ◌<◌, ◌≤◌, None, length, slice_index};
ghost use Rattle.recipe.specs.Bytes.{place_in, count_in};
ghost use Rattle.recipe.specs.Offence.{first_offence, check_tests};

mod built_in;
mod checking;
mod contents;
mod edges;
mod grounds;
mod numbers;
mod reading;
mod records;
mod spans;
mod taking;
mod words;
mod writing;

pub use checking::{check, read, recipe_of};
pub use edges::{Counted, OwnEdges};
pub use grounds::Refusal;
pub use model::{Edge, Kind, Method, Node};
pub use taking::take;
pub use writing::{first_places, write};

// A lent file whose table of contents and length are right: four bodies without gaps. Its facts are of single numbers, which arithmetic finds by itself.
#[derive(Drop)]
pub(crate) struct Layout<'a> {
    file: &'a [u8],
    contents: contents::Contents,
    ghost bytes: { (i : ℕ) → slice_index file.now i < 256 },
    ghost methods_told: { (contents.methods.place ≡ place_in file.now 0) × (contents.methods.count ≡ count_in file.now 0) },
    ghost nodes_told: { (contents.nodes.place ≡ place_in file.now 1) × (contents.nodes.count ≡ count_in file.now 1) },
    ghost edges_told: { (contents.edges.place ≡ place_in file.now 2) × (contents.edges.count ≡ count_in file.now 2) },
    ghost rows_told: { (contents.rows.place ≡ place_in file.now 3) × (contents.rows.count ≡ count_in file.now 3) },
    ghost methods_few: { (1 ≤ contents.methods.count) × (contents.methods.count ≤ 256) },
    ghost nodes_few: { (1 ≤ contents.nodes.count) × (contents.nodes.count ≤ 1024) },
    ghost edges_few: { contents.edges.count ≤ 4096 },
    ghost rows_few: { contents.rows.count ≤ 16 },
    ghost methods_laid: { contents.methods.place ≡ 16 },
    ghost nodes_laid: { contents.nodes.place ≡ 16 + 4 * contents.methods.count },
    ghost edges_laid: { contents.edges.place ≡ contents.nodes.place + 8 * contents.nodes.count },
    ghost rows_laid: { contents.rows.place ≡ contents.edges.place + 4 * contents.edges.count },
    ghost whole: { length file.now ≡ contents.rows.place + 32 * contents.rows.count },
}

// A file that was taken: its layout is right, and nothing is said yet of its records.
#[derive(Drop)]
pub struct Draft<'a> {
    layout: Layout<'a>,
}

// A file that was checked: check's tests refuse none of its records either.
#[derive(Drop)]
pub struct Recipe<'a> {
    layout: Layout<'a>,
    ghost passes: { first_offence (check_tests layout.file.now) ≡ None },
}
