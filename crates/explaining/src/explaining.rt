// Explains a refusal: the record, its values, where it stands, and which rule it breaks first.
ghost use Rattle.std.specs.Prelude.{◌≡◌, ◌<◌, ◌++◌, true, Some, is_some, IfSome, Decides};
ghost use Rattle.recipe.specs.Offence.{first_offence, take_tests, check_tests};
ghost use Rattle.recipe.specs.declared.grounds.Refusal.TheVariants.{Misplaced, Miscounted, BadMethod, BadNode, BadEdge, BadRow};
ghost use Rattle.explaining.specs.Shown.{Shows};
ghost use Rattle.explaining.specs.Rules.{entry_record, explained, Fails};

use crate::broken::{
    count_broken, edge_broken, length_broken, method_broken, node_broken, place_broken, row_broken,
};
use crate::bytes::{count, edge, edges_at, fields, method, nodes_at, place, rows_at};
use crate::{Explanation, Record, Rule};
use recipe::Refusal;

// The entry of the table of contents by its number.
fn entry_record(file: &[u8], entry: u32) -> Record
    requires { entry < 4 }
    ensures { result ≡ entry_record file.now entry }
{
    Record::Entry {
        entry,
        place: place(file, entry as usize),
        count: count(file, entry as usize),
    }
}

#[tactic(auto, using(std::proofs::lemmas::Bool::Decides::nat_tests), unfolding(crate::specs::Rules::explained))]
fn explain_place(file: &[u8], entry: u32) -> Option<Explanation>
    ensures { result ≡ explained file.now (Misplaced entry) }
{
    if entry == 4 {
        return Some(Explanation {
            what: Record::File { length: file.len() },
            at: file.len(),
            broken: length_broken(file)?,
        });
    }
    if entry > 4 {
        return None;
    }
    let broken = place_broken(file, entry as usize)?;
    Some(Explanation {
        what: entry_record(file, entry),
        at: 4 * entry as usize,
        broken,
    })
}

#[tactic(auto, using(std::proofs::lemmas::Bool::Decides::nat_tests), unfolding(crate::specs::Rules::explained))]
fn explain_count(file: &[u8], entry: u32) -> Option<Explanation>
    ensures { result ≡ explained file.now (Miscounted entry) }
{
    if entry > 3 {
        return None;
    }
    let broken = count_broken(file, entry as usize)?;
    Some(Explanation {
        what: entry_record(file, entry),
        at: 4 * entry as usize,
        broken,
    })
}

#[tactic(auto, using(std::proofs::lemmas::Bool::Decides::nat_tests), unfolding(crate::specs::Rules::explained))]
fn explain_method(file: &[u8], number: u32) -> Option<Explanation>
    ensures { result ≡ explained file.now (BadMethod number) }
{
    if number >= count(file, 0) {
        return None;
    }
    let k = number as usize;
    let broken = method_broken(file, k)?;
    let own = method(file, k);
    Some(Explanation {
        what: Record::Method {
            number,
            rights: own.rights,
            nodes: own.nodes,
        },
        at: 16 + 4 * k,
        broken,
    })
}

#[tactic(auto, using(std::proofs::lemmas::Bool::Decides::nat_tests), unfolding(crate::specs::Rules::explained))]
fn explain_node(file: &[u8], number: u32) -> Option<Explanation>
    ensures { result ≡ explained file.now (BadNode number) }
{
    if number >= count(file, 1) {
        return None;
    }
    let n = number as usize;
    let broken = node_broken(file, n)?;
    Some(Explanation {
        what: Record::Node {
            number,
            fields: fields(file, n),
        },
        at: nodes_at(file) + 8 * n,
        broken,
    })
}

#[tactic(auto, using(std::proofs::lemmas::Bool::Decides::nat_tests), unfolding(crate::specs::Rules::explained))]
fn explain_edge(file: &[u8], number: u32) -> Option<Explanation>
    ensures { result ≡ explained file.now (BadEdge number) }
{
    if number >= count(file, 2) {
        return None;
    }
    let i = number as usize;
    let broken = edge_broken(file, i)?;
    let e = edge(file, i);
    Some(Explanation {
        what: Record::Edge {
            number,
            from: e.from,
            to: e.to,
        },
        at: edges_at(file) + 4 * i,
        broken,
    })
}

#[tactic(auto, using(std::proofs::lemmas::Bool::Decides::nat_tests), unfolding(crate::specs::Rules::explained))]
fn explain_row(file: &[u8], number: u32) -> Option<Explanation>
    ensures { result ≡ explained file.now (BadRow number) }
{
    if number >= count(file, 3) {
        return None;
    }
    let r = number as usize;
    let broken = row_broken(file, r)?;
    Some(Explanation {
        what: Record::Row { number },
        at: rows_at(file) + 32 * r,
        broken,
    })
}

#[tactic(auto, unfolding(crate::specs::Rules::explained))]
fn explanation_of(file: &[u8], refusal: Refusal) -> Option<Explanation>
    ensures { result ≡ explained file.now refusal }
{
    match refusal {
        Refusal::Misplaced { entry } => explain_place(file, entry),
        Refusal::Miscounted { entry } => explain_count(file, entry),
        Refusal::BadMethod { method } => explain_method(file, method),
        Refusal::BadNode { node } => explain_node(file, node),
        Refusal::BadEdge { edge } => explain_edge(file, edge),
        Refusal::BadRow { row } => explain_row(file, row),
        Refusal::TooMany
        | Refusal::OtherCounts
        | Refusal::UnfitTable
        | Refusal::NotAnEdge
        | Refusal::EdgeHeld
        | Refusal::EdgesFull
        | Refusal::InquiryFull
        | Refusal::NotUnsafe
        | Refusal::LongTrace { .. }
        | Refusal::NotAStep { .. }
        | Refusal::StackFull { .. }
        | Refusal::ShortOutput { .. } => None,
    }
}

// Why this file gets this refusal: the first rule that the record breaks of which the refusal speaks. None exactly if
// no test of the file fails with this refusal, as where another call was refused.
pub fn explain(file: &[u8], refusal: Refusal) -> Option<Explanation>
    ensures answer { result ≡ explained file.now refusal }
    ensures broken { Decides (is_some result) (Fails file.now refusal) }
    ensures shows { IfSome result (λ e. Shows e.what e.broken) }
    ensures named { first_offence (take_tests file.now ++ check_tests file.now) ≡ Some refusal → is_some result ≡ true }
{
    explanation_of(file, refusal)
}
