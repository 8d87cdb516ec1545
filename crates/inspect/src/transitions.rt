// Lists the rows: where each mark leads from each.
ghost use Rattle.std.specs.Prelude.{Some};
ghost use Rattle.inspect.specs.Phrases.{run_text, lead_text};

use crate::phrases::Run;
use recipe::Recipe;
use std::{fmt, io};

// How many marks there are, and so cells in a row.
const MARKS: u32 = 32;

// The cell that leads to no row.
const UNDEFINED: u32 = 255;

// Where a run of marks leads.
#[derive(Drop)]
struct Lead {
    marks: Run,
    cell: u32,
}

impl fmt::Display for Lead {
    ghost output = { λ l. Some (lead_text (run_text l.marks.what.now l.marks.first l.marks.last) l.cell) };

    fn fmt<W: fmt::Write>(&self, f: &mut fmt::Formatter<W>) -> fmt::Result {
        let Lead { marks, cell } = self;
        match *cell {
            UNDEFINED => write!(f, "{marks} undefined"),
            row => write!(f, "{marks} to row {row}"),
        }
    }
}

// A row as runs of equal cells. It has no slice of cells; chunk_by over a list of them would count the marks by hand as well.
fn list_row(rt: &impl Print, recipe: &Recipe, row: u32) -> io::Result<()> {
    print!(rt; "row {row}: ")?;
    let mut first = 0;
    for mark in 0..MARKS {
        // Past the last mark there is no cell, so the last run ends there too.
        let next = recipe.cell(row, mark + 1);
        if let Some(cell) = recipe.cell(row, mark)
            && next != Some(cell)
        {
            let lead = Lead {
                marks: Run {
                    what: "mark",
                    first,
                    last: mark,
                },
                cell,
            };
            let gap = if first == 0 { "" } else { "; " };
            print!(rt; "{gap}{lead}")?;
            first = mark + 1;
        }
    }
    println!(rt; "")
}

// Each row, as a line.
pub(crate) fn list_rows(rt: &impl Print, recipe: &Recipe) -> io::Result<()> {
    for row in 0..recipe.rows() {
        list_row(rt, recipe, row)?;
    }
    Ok(())
}
