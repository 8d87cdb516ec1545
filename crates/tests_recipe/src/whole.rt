// The file that a recipe writes.
use model::Edge;
use recipe::Recipe;
use std::alloc::Global;
use std::process::Abort;
use std::test::Fail;

// The length of the longest file.
pub const LONGEST: usize = 26128;

// What a recipe writes with the edges of a list, where there is room for any file.
pub(crate) fn written(heap: Global, recipe: &Recipe, edges: &[Edge]) -> Result<Vec<u8>, Fail> {
    let mut out = vec![in heap; 0; LONGEST]?;
    let len = recipe::write(recipe, edges, &mut out)?;
    out.truncate(len);
    Ok(out)
}

// A recipe writes this file with its own edges.
pub(crate) fn check_written_back(
    rt: &(impl Abort + AllocGlobal),
    recipe: &Recipe,
    file: &[u8],
) -> Result<(), Fail> {
    let edges: Vec<Edge> = recipe.own_edges().collect(rt.alloc())?;
    assert_eq!(rt; written(rt.alloc(), recipe, &edges)?.as_slice(), file);
    Ok(())
}
