// What an explanation says, in words.
ghost use Rattle.std.specs.Prelude.{◌≡◌, Some};
ghost use Rattle.explaining.specs.Words.{record_text, rule_text, explanation_text};
ghost use Rattle.recipe.specs.Words.{body_name};

use crate::{Explanation, Record, Rule};
use std::fmt;

impl fmt::Display for Record {
    ghost output = { λ r. Some (record_text r) };

    fn fmt<W: fmt::Write>(&self, f: &mut fmt::Formatter<W>) -> fmt::Result {
        match *self {
            Record::File { length } => write!(f, "file of {length} bytes"),
            Record::Entry {
                entry,
                place,
                count,
            } => {
                let body = body(entry);
                write!(f, "{body} entry, place {place}, count {count}")
            }
            Record::Method {
                number,
                rights,
                nodes,
            } => write!(f, "method {number}, rights {rights}, nodes {nodes}"),
            Record::Node { number, fields } => write!(
                f,
                "node {number}, kind {}, mark {}, flags {}, callee {}, grant {}, accept {}",
                fields.kind, fields.mark, fields.flags, fields.callee, fields.grant, fields.accept
            ),
            Record::Edge { number, from, to } => write!(f, "edge {number}, from {from} to {to}"),
            Record::Row { number } => write!(f, "row {number}"),
        }
    }
}

impl fmt::Display for Rule {
    ghost output = { λ r. Some (rule_text r) };

    fn fmt<W: fmt::Write>(&self, f: &mut fmt::Formatter<W>) -> fmt::Result {
        match *self {
            Rule::ShortFile => f.write_str("there are fewer than 16 bytes"),
            Rule::WrongLength { wanted } => write!(f, "the last body ends at byte {wanted}"),
            Rule::WrongPlace { wanted } => write!(f, "what stands before ends at byte {wanted}"),
            Rule::WrongCount { low, high } => write!(f, "the count is not from {low} to {high}"),
            Rule::NoNodes => f.write_str("it has no nodes"),
            Rule::SumPast { sum, nodes } => write!(
                f,
                "up to here methods have {sum} nodes, and there are {nodes}"
            ),
            Rule::SumShort { sum, nodes } => write!(
                f,
                "all methods have {sum} nodes, and there are {nodes}"
            ),
            Rule::NoEntry => f.write_str("none of its nodes is an entry"),
            Rule::UnknownKind => f.write_str("there is no such kind"),
            Rule::WrongMark => f.write_str("the mark is past 31"),
            Rule::UnknownFlag => f.write_str("there is no such flag"),
            Rule::NotPrivileged => f.write_str("it is privileged, and no call"),
            Rule::UnusedCallee => f.write_str("it has a callee, and is no call"),
            Rule::UnusedGrant => f.write_str("it has a grant, and is neither call nor check"),
            Rule::UnusedAccept => f.write_str("it accepts rights, and is no call"),
            Rule::NoCallee { methods } => write!(
                f,
                "there is no such callee, of {methods} methods"
            ),
            Rule::GrantOutside { rights } => write!(
                f,
                "it grants more than the rights {rights} of its method"
            ),
            Rule::AcceptOutside { rights } => write!(
                f,
                "it accepts more than the rights {rights} of its method"
            ),
            Rule::NoFrom { nodes } => write!(f, "it leaves no node, of {nodes}"),
            Rule::NoTo { nodes } => write!(f, "it leads to no node, of {nodes}"),
            Rule::LeavesReturn => f.write_str("it leaves a return"),
            Rule::LeavesMethod { from, to } => write!(
                f,
                "it leads from method {from} into method {to}"
            ),
            Rule::NotRising { from, to } => write!(
                f,
                "it does not rise above the edge before it, from {from} to {to}"
            ),
            Rule::WrongCell { mark, cell } => write!(
                f,
                "the cell of mark {mark} is {cell}, neither the number of a row nor 255"
            ),
        }
    }
}

impl fmt::Display for Explanation {
    ghost output = { λ e. Some (explanation_text e) };

    fn fmt<W: fmt::Write>(&self, f: &mut fmt::Formatter<W>) -> fmt::Result {
        let Explanation { what, at, broken } = self;
        write!(f, "{what}, at byte {at}: {broken}")
    }
}

// The bodies that the entries of the table of contents are of, in their order.
fn body(entry: u32) -> &'static str
    ensures { result.now ≡ body_name entry }
{
    match entry {
        0 => "methods",
        1 => "nodes",
        2 => "edges",
        _ => "rows",
    }
}
