// Facts by rows of ten numbers, since a fact written out takes a dozen lines; and the two tables of recipe A.
ghost use Rattle.std.specs.Prelude.{◌≡◌, map};
ghost use Rattle.model.specs.Worked.{history_rows, stack_rows};
ghost use Rattle.samples.specs.Rows.{fact_of};

use model::Fact;

// The ten numbers of a fact, in the order of its fields.
pub type Row = [u32; 10];

// The fact of a row.
pub fn fact(row: Row) -> Fact
    ensures { result ≡ fact_of row }
{
    let [
        entry,
        brought,
        seen,
        node,
        value,
        state,
        rule,
        source,
        returned,
        span,
    ] = row;
    Fact {
        entry,
        brought,
        seen,
        node,
        value,
        state,
        rule,
        source,
        returned,
        span,
    }
}

// Under history: main, the first callee with right 0, main again with right 0 alone, the second callee, whose check holds it up.
static HISTORY: [Row; 4] = [
    [0, 3, 0, 0, 3, 0, 1, 0, 0, 1],
    [3, 1, 1, 3, 1, 1, 3, 1, 0, 1],
    [0, 3, 0, 1, 1, 1, 4, 1, 2, 3],
    [4, 1, 1, 4, 1, 1, 3, 3, 0, 1],
];

// Under stack inspection main has both rights again, so the check is passed, and mark 2 after mark 1 is bad.
static STACK: [Row; 7] = [
    [0, 3, 0, 0, 3, 0, 1, 0, 0, 1],
    [3, 1, 1, 3, 1, 1, 3, 1, 0, 1],
    [0, 3, 0, 1, 3, 1, 4, 1, 2, 3],
    [4, 3, 1, 4, 3, 1, 3, 3, 0, 1],
    [4, 3, 1, 5, 3, 2, 2, 4, 0, 2],
    [4, 3, 1, 6, 3, 2, 2, 5, 0, 3],
    [0, 3, 0, 2, 3, 2, 4, 3, 6, 7],
];

// The facts of recipe A under history, worked out by hand from the four rules.
pub fn history_rows() -> &'static [Row]
    ensures { map fact_of result.now ≡ history_rows }
{
    &HISTORY
}

// The facts of recipe A under stack inspection.
pub fn stack_rows() -> &'static [Row]
    ensures { map fact_of result.now ≡ stack_rows }
{
    &STACK
}
