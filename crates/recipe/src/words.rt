// What a refusal says, in words.
ghost use Rattle.std.specs.Prelude.{◌≡◌, Some};
ghost use Rattle.std.specs.Fmt.{DisplaysOnOk};
ghost use Rattle.recipe.specs.Words.{body_name, misplaced, miscounted, sentence};

use crate::Refusal;
use std::error::Error;
use std::fmt;

impl fmt::Display for Refusal {
    ghost output = { λ r. Some (sentence r) };

    fn fmt<W: fmt::Write>(&self, f: &mut fmt::Formatter<W>) -> fmt::Result {
        match *self {
            Refusal::Misplaced { entry } => explain_place(f, entry),
            Refusal::Miscounted { entry } => explain_count(f, entry),
            Refusal::BadMethod { method } => write!(f, "method {method}: {BAD_METHOD}"),
            Refusal::BadNode { node } => write!(f, "node {node}: {BAD_NODE}"),
            Refusal::BadEdge { edge } => write!(f, "edge {edge}: {BAD_EDGE}"),
            Refusal::BadRow { row } => write!(f, "row {row}: {BAD_ROW}"),
            Refusal::TooMany => f.write_str(TOO_MANY),
            Refusal::OtherCounts => f.write_str(OTHER_COUNTS),
            Refusal::UnfitTable => f.write_str(UNFIT_TABLE),
            Refusal::NotAnEdge => f.write_str(NOT_AN_EDGE),
            Refusal::EdgeHeld => f.write_str("this edge is there already"),
            Refusal::EdgesFull => f.write_str("the edge table has no place free"),
            Refusal::InquiryFull => f.write_str("the inquiry is full"),
            Refusal::NotUnsafe => f.write_str("the verdict is not unsafe"),
            Refusal::LongTrace { length: u32::MAX } => f.write_str(ENDLESS_TRACE),
            Refusal::LongTrace { length } => write!(
                f,
                "the output is too short: the trace has {length} nodes"
            ),
            Refusal::NotAStep { place } => write!(
                f,
                "place {place}: this node is no step of the run"
            ),
            Refusal::StackFull { place } => write!(
                f,
                "place {place}: the stack has no room for this step"
            ),
            Refusal::ShortOutput { needed } => write!(
                f,
                "the output is too short: the file needs {needed} bytes"
            ),
        }
    }
}

impl Error for Refusal {}

const BAD_METHOD: &str =
    "this method has no nodes, or no entry, or the node counts of the methods do not sum to the number of nodes";

const BAD_NODE: &str =
    "this node record breaks its rules (kind, mark, flags, an unused field, the callee, or a set outside its method's rights)";

const BAD_EDGE: &str =
    "this edge names a node that is not there, or leaves a return, or leads out of its method, or does not rise above the edge before it";

const BAD_ROW: &str = "a cell of this row is neither a row's number nor 255";

const TOO_MANY: &str = "the rule has more than 65536 values, or the watch more than 65536 states";

const OTHER_COUNTS: &str =
    "the nodes, values, states or edge places are not as many as at the opening";

const UNFIT_TABLE: &str =
    "the edge table is too short for the recipe or longer than 4096 places, or the fact table is longer than 65536";

const NOT_AN_EDGE: &str =
    "this pair is no edge: both have to be nodes of one method, and the first of them no return";

const ENDLESS_TRACE: &str = "the trace has 4294967295 nodes or more";

// The bodies that the entries of the table of contents are of, in their order.
fn body(entry: u32) -> &'static str
    ensures { result.now ≡ body_name entry }
{
    match entry {
        0 => "methods",
        1 => "nodes",
        2 => "edges",
        _ => "rows",
    }
}

// The length counts as the entry after the last one.
fn explain_place<W: fmt::Write>(f: &mut fmt::Formatter<W>, entry: u32) -> fmt::Result
    ensures { DisplaysOnOk W.write_str_gives f.old result (Some (misplaced entry)) f.new }
{
    match entry {
        0..=3 => {
            let body = body(entry);
            write!(
                f,
                "at the {body} entry: the place of this body is not where what stands before it ends"
            )
        }
        _ => f.write_str(
            "at the length: the file is shorter than its table of contents, or does not end where its last body does",
        ),
    }
}

fn explain_count<W: fmt::Write>(f: &mut fmt::Formatter<W>, entry: u32) -> fmt::Result
    ensures { DisplaysOnOk W.write_str_gives f.old result (Some (miscounted entry)) f.new }
{
    let body = body(entry);
    write!(
        f,
        "at the {body} entry: this count is outside its limits (1 to 256 methods, 1 to 1,024 nodes, at most 4,096 edges, at most 16 rows)"
    )
}
