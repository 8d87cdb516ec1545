// Checks a draft in five stages: the methods, the nodes, whether each method has an entry, the edges, and the rows.
// Each stage goes over the numbers of its records, some with a running sum: what is read by number and refused by number has no iterator that is plainer.
ghost use Rattle.std.specs.Prelude.{◌≡◌, ℕ, suc, ◌+◌, ◌*◌, ◌<◌, ◌≤◌, true, ◌++◌, is_ok, IfOk, Decides, MatchResult};
ghost use Rattle.std.specs.Result.{result_err};
ghost use Rattle.recipe.specs.Bytes.{count_in, program_of};
ghost use Rattle.recipe.specs.declared.grounds.Refusal.TheVariants.{BadMethod, BadNode, BadEdge, BadRow};
ghost use Rattle.recipe.specs.Offence.{first_offence, each, method_test, node_test, entry_test, edge_test, row_test, take_tests, check_tests};
ghost use Rattle.model.specs.Program.{node_at, is_edge, rises_after};
ghost use Rattle.recipe.specs.Bytes.{node_in};
ghost use Rattle.recipe.specs.Offence.{any_below, kind_fits, record_fits};
ghost use Rattle.recipe.specs.Format.{Legal};
ghost use Rattle.recipe.specs.Recipes.{ReadsAs};

use crate::spans::Divided;
use crate::{Draft, Layout, Recipe, Refusal};
use model::{Edge, Kind};

// Whether a node of this kind may stand in a recipe of so many methods, in a method with these rights.
fn kind_fits(kind: Kind, methods: u32, rights: u32) -> bool
    ensures { result ≡ kind_fits methods rights kind }
{
    match kind {
        Kind::Call {
            callee,
            grant,
            accept,
            ..
        } => callee < methods && grant & rights == grant && accept & rights == accept,
        Kind::Nop | Kind::Check { .. } | Kind::Return => true,
    }
}

// Whether e rises above the last edge that counted, if there is one: no edge stands below every edge.
pub(crate) fn rises_after(last: Option<Edge>, e: Edge) -> bool
    ensures { result ≡ rises_after last e }
{
    last < Some(e)
}

impl<'a> Layout<'a> {
    // Each method has nodes, and their counts sum up to the node count.
    fn check_methods<'l>(&'l self) -> Result<Divided<'l, 'a>, Refusal>
        ensures answer { result_err result ≡ first_offence (each (count_in self.now.file.now 0) (method_test self.now.file.now) BadMethod) }
        ensures of { IfOk result (λ d. d.layout.now ≡ self.now) }
    {
        let methods = usize::from(self.contents.methods.count);
        let nodes = usize::from(self.contents.nodes.count);
        let mut sum = 0;
        for k in 0..methods {
            let own = self.method(k).nodes as usize;
            sum += own;
            if own < 1 || sum > nodes || (k + 1 == methods && sum != nodes) {
                return Err(Refusal::BadMethod { method: k as u32 });
            }
        }
        Ok(Divided { layout: self })
    }

    // Whether the record of node n is right in a method with these rights.
    fn node_fits(&self, n: usize, rights: u32) -> bool
        requires { n < self.now.contents.nodes.count }
        ensures { result ≡ record_fits (count_in self.now.file.now 0) rights (node_in self.now.file.now n) }
    {
        let methods = u32::from(self.contents.methods.count);
        self.node(n)
            .is_some_and(|node| kind_fits(node.kind, methods, rights))
    }

    // Whether one of so many nodes from a first one on is an entry.
    fn has_entry(&self, first: usize, many: usize) -> bool
        requires { first + many ≤ self.now.contents.nodes.count }
        ensures { result ≡ any_below many (λ j. (node_at (program_of self.now.file.now) (first + j)).entry) }
    {
        (first..first + many).any(|n| self.node_at(n).entry)
    }

    // Whether each cell of a row leads to a row or is undefined.
    fn row_fits(&self, row: usize) -> bool
        requires { row < self.now.contents.rows.count }
        ensures { result ≡ row_test self.now.file.now row }
    {
        let rows = u32::from(self.contents.rows.count);
        (0..32).all(|mark| {
            // 255 is how a file says that a mark leads nowhere
            let cell = self.cell(row, mark);
            cell < rows || cell == 255
        })
    }

    // Each row is right.
    fn check_rows(&self) -> Result<(), Refusal>
        ensures { result_err result ≡ first_offence (each (count_in self.now.file.now 3) (row_test self.now.file.now) BadRow) }
    {
        let rows = usize::from(self.contents.rows.count);
        for row in 0..rows {
            if !self.row_fits(row) {
                return Err(Refusal::BadRow { row: row as u32 });
            }
        }
        Ok(())
    }

    // All of it, in the order of check.
    fn check_all(&self) -> Result<(), Refusal>
        ensures { result_err result ≡ first_offence (check_tests self.now.file.now) }
    {
        let divided = self.check_methods()?;
        divided.check_nodes()?;
        divided.check_entries()?;
        divided.check_edges()?;
        self.check_rows()
    }

    // The recipe of this layout, if each of its records is right.
    fn checked(self) -> Result<Recipe<'a>, Refusal>
        ensures answer { result_err result ≡ first_offence (check_tests self.entry.file.now) }
        ensures filled { IfOk result (λ recipe. recipe.layout.file.now ≡ self.entry.file.now) }
        ensures legal { Decides (is_ok result) (Legal self.entry.file.now) }
    {
        self.check_all()?;
        Ok(Recipe { layout: self })
    }
}

impl Divided<'_, '_> {
    // Each node record is right.
    fn check_nodes(self) -> Result<(), Refusal>
        ensures { result_err result ≡ first_offence (each (count_in self.entry.layout.now.file.now 1) (node_test self.entry.layout.now.file.now) BadNode) }
    {
        let nodes = usize::from(self.layout.contents.nodes.count);
        let mut span = self.first_span();
        for n in 0..nodes {
            span = span.seek(n);
            if !self.layout.node_fits(n, span.rights()) {
                return Err(Refusal::BadNode { node: n as u32 });
            }
        }
        Ok(())
    }

    // Each method has an entry.
    fn check_entries(self) -> Result<(), Refusal>
        ensures { result_err result ≡ first_offence (each (count_in self.entry.layout.now.file.now 0) (entry_test self.entry.layout.now.file.now) BadMethod) }
    {
        let methods = usize::from(self.layout.contents.methods.count);
        let mut first = 0;
        for k in 0..methods {
            let own = self.layout.method(k).nodes as usize;
            if !self.layout.has_entry(first, own) {
                return Err(Refusal::BadMethod { method: k as u32 });
            }
            first += own;
        }
        Ok(())
    }

    // Each edge is one by the rules, and rises above the one before it: what `counted` passes over is refused here.
    fn check_edges(self) -> Result<(), Refusal>
        ensures { result_err result ≡ first_offence (each (count_in self.entry.layout.now.file.now 2) (edge_test self.entry.layout.now.file.now) BadEdge) }
    {
        let nodes = u32::from(self.layout.contents.nodes.count);
        let edges = usize::from(self.layout.contents.edges.count);
        let mut span = self.first_span();
        let mut last = None;
        for i in 0..edges {
            let e = self.layout.edge(i);
            if e.from >= nodes || !rises_after(last, e) {
                return Err(Refusal::BadEdge { edge: i as u32 });
            }
            span = span.seek(e.from as usize);
            if !span.edge_fits(e) {
                return Err(Refusal::BadEdge { edge: i as u32 });
            }
            last = Some(e);
        }
        Ok(())
    }
}

// Turns a draft into a recipe, if each of its records is right; else leaves the recipe as it was.
pub fn check<'a>(draft: Draft<'a>, recipe: &mut Recipe<'a>) -> Result<(), Refusal>
    ensures answer { result_err result ≡ first_offence (check_tests draft.entry.layout.file.now) }
    ensures filled { MatchResult result (λ _. recipe.new.layout.file.now ≡ draft.entry.layout.file.now) (λ _. recipe.new ≡ recipe.old) }
    ensures legal { Decides (is_ok result) (Legal draft.entry.layout.file.now) }
    ensures means { IfOk result (λ _. ReadsAs draft.entry.layout.file.now recipe.new) }
{
    *recipe = draft.layout.checked()?;
    Ok(())
}

// The recipe of a file, exactly if the file is legal; else its first offence.
pub fn recipe_of(file: &[u8]) -> Result<Recipe<'_>, Refusal>
    ensures answer { result_err result ≡ first_offence (take_tests file.now ++ check_tests file.now) }
    ensures filled { IfOk result (λ recipe. recipe.layout.file.now ≡ file.now) }
    ensures legal { Decides (is_ok result) (Legal file.now) }
    ensures means { IfOk result (ReadsAs file.now) }
{
    Layout::read(file)?.checked()
}

// Fills the recipe with a file, exactly if it is legal, else leaves the recipe as it was.
pub fn read<'a>(file: &'a [u8], recipe: &mut Recipe<'a>) -> Result<(), Refusal>
    ensures answer { result_err result ≡ first_offence (take_tests file.now ++ check_tests file.now) }
    ensures filled { MatchResult result (λ _. recipe.new.layout.file.now ≡ file.now) (λ _. recipe.new ≡ recipe.old) }
    ensures legal { Decides (is_ok result) (Legal file.now) }
    ensures means { IfOk result (λ _. ReadsAs file.now recipe.new) }
{
    *recipe = recipe_of(file)?;
    Ok(())
}
