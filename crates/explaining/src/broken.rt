// Which rule of a record is the first that it breaks.
ghost use Rattle.std.specs.Prelude.{◌≡◌, ◌<◌};
ghost use Rattle.model.specs.Program.{node_at, is_return};
ghost use Rattle.recipe.specs.Bytes.{count_in, program_of};
ghost use Rattle.recipe.specs.Offence.{first_offence, entry_test};
ghost use Rattle.explaining.specs.Rules.{length_rules, place_wanted, place_rules, count_rules, method_rules, form_rules, call_rules, node_rules, edge_rules, row_rules};

use crate::bytes::{cell, count, edge, fields, home, method, nodes_before, place};
use crate::{Fields, Rule};

// Of the file as a whole.
#[tactic(auto, using(std::proofs::lemmas::Bool::Decides::nat_tests), unfolding(recipe::specs::Offence::first_offence, crate::specs::Rules::length_rules))]
pub(crate) fn length_broken(file: &[u8]) -> Option<Rule>
    ensures { result ≡ first_offence (length_rules file.now) }
{
    if file.len() < 16 {
        return Some(Rule::ShortFile);
    }
    let wanted = place(file, 3) as usize + 32 * count(file, 3) as usize;
    if file.len() != wanted {
        return Some(Rule::WrongLength { wanted });
    }
    None
}

// Where a body is to begin, by the entry before its own.
fn place_wanted(file: &[u8], entry: usize) -> usize
    requires { entry < 4 }
    ensures { result ≡ place_wanted file.now entry }
{
    match entry {
        0 => 16,
        1 => place(file, 0) as usize + 4 * count(file, 0) as usize,
        2 => place(file, 1) as usize + 8 * count(file, 1) as usize,
        _ => place(file, 2) as usize + 4 * count(file, 2) as usize,
    }
}

#[tactic(auto, using(std::proofs::lemmas::Bool::Decides::nat_tests), unfolding(recipe::specs::Offence::first_offence, crate::specs::Rules::place_rules))]
pub(crate) fn place_broken(file: &[u8], entry: usize) -> Option<Rule>
    requires { entry < 4 }
    ensures { result ≡ first_offence (place_rules file.now entry) }
{
    let wanted = place_wanted(file, entry);
    if place(file, entry) as usize != wanted {
        return Some(Rule::WrongPlace { wanted });
    }
    None
}

#[tactic(auto, using(std::proofs::lemmas::Bool::Decides::nat_tests), unfolding(recipe::specs::Offence::first_offence, crate::specs::Rules::count_rules))]
pub(crate) fn count_broken(file: &[u8], entry: usize) -> Option<Rule>
    requires { entry < 4 }
    ensures { result ≡ first_offence (count_rules file.now entry) }
{
    let (low, high) = match entry {
        0 => (1, 256),
        1 => (1, 1024),
        2 => (0, 4096),
        _ => (0, 16),
    };
    let there = count(file, entry);
    if there < low || there > high {
        return Some(Rule::WrongCount { low, high });
    }
    None
}

// What node records have to leave at 0, and which values there are.
#[tactic(auto, using(std::proofs::lemmas::Bool::Decides::nat_tests), unfolding(recipe::specs::Offence::first_offence, crate::specs::Rules::form_rules))]
fn form_broken(f: Fields) -> Option<Rule>
    ensures { result ≡ first_offence (form_rules f) }
{
    let call = f.kind == 1;
    if f.kind > 3 {
        return Some(Rule::UnknownKind);
    }
    if f.mark > 31 {
        return Some(Rule::WrongMark);
    }
    if f.flags > 3 {
        return Some(Rule::UnknownFlag);
    }
    if !call && f.flags > 1 {
        return Some(Rule::NotPrivileged);
    }
    if !call && f.callee != 0 {
        return Some(Rule::UnusedCallee);
    }
    if !call && f.kind != 2 && f.grant != 0 {
        return Some(Rule::UnusedGrant);
    }
    if !call && f.accept != 0 {
        return Some(Rule::UnusedAccept);
    }
    None
}

// What a call needs of the methods, and of the rights of its own.
#[tactic(auto, using(std::proofs::lemmas::Bool::Decides::nat_tests), unfolding(recipe::specs::Offence::first_offence, crate::specs::Rules::call_rules))]
fn call_broken(methods: u32, rights: u32, f: Fields) -> Option<Rule>
    ensures { result ≡ first_offence (call_rules methods rights f) }
{
    if f.kind != 1 {
        return None;
    }
    if f.callee >= methods {
        return Some(Rule::NoCallee {
            methods: methods as usize,
        });
    }
    if f.grant & rights != f.grant {
        return Some(Rule::GrantOutside { rights });
    }
    if f.accept & rights != f.accept {
        return Some(Rule::AcceptOutside { rights });
    }
    None
}

pub(crate) fn node_broken(file: &[u8], n: usize) -> Option<Rule>
    requires { n < 65536 }
    ensures { result ≡ first_offence (node_rules file.now n) }
{
    let f = fields(file, n);
    match form_broken(f) {
        None => {
            let rights = method(file, home(file, n)).rights;
            call_broken(count(file, 0), rights, f)
        }
        broken => broken,
    }
}

// Whether there is such a node, and it is an entry.
fn is_entry(file: &[u8], n: usize) -> bool
    ensures { result ≡ (node_at (program_of file.now) n).entry }
{
    if n >= count(file, 1) as usize {
        return false;
    }
    let f = fields(file, n);
    match form_broken(f) {
        None => f.flags % 2 == 1,
        Some(_) => false,
    }
}

// Whether a node is a return, as is what stands for one where there is none.
fn is_return(file: &[u8], n: usize) -> bool
    ensures { result ≡ is_return (node_at (program_of file.now) n).kind }
{
    if n >= count(file, 1) as usize {
        return true;
    }
    let f = fields(file, n);
    match form_broken(f) {
        None => f.kind == 3,
        Some(_) => true,
    }
}

fn has_entry(file: &[u8], k: usize) -> bool
    requires { k < count_in file.now 0 }
    ensures { result ≡ entry_test file.now k }
{
    let first = nodes_before(file, k);
    let own = method(file, k).nodes as usize;
    (first..first + own).any(|n| is_entry(file, n))
}

#[tactic(auto, using(std::proofs::lemmas::Bool::Decides::nat_tests), unfolding(recipe::specs::Offence::first_offence, crate::specs::Rules::method_rules))]
pub(crate) fn method_broken(file: &[u8], k: usize) -> Option<Rule>
    requires { k < count_in file.now 0 }
    ensures { result ≡ first_offence (method_rules file.now k) }
{
    if method(file, k).nodes < 1 {
        return Some(Rule::NoNodes);
    }
    let sum = nodes_before(file, k + 1);
    let nodes = count(file, 1) as usize;
    if sum > nodes {
        return Some(Rule::SumPast { sum, nodes });
    }
    if k + 1 >= count(file, 0) as usize && sum != nodes {
        return Some(Rule::SumShort { sum, nodes });
    }
    if !has_entry(file, k) {
        return Some(Rule::NoEntry);
    }
    None
}

#[tactic(auto, using(std::proofs::lemmas::Bool::Decides::nat_tests), unfolding(recipe::specs::Offence::first_offence, crate::specs::Rules::edge_rules))]
pub(crate) fn edge_broken(file: &[u8], i: usize) -> Option<Rule>
    requires { i < 65536 }
    ensures { result ≡ first_offence (edge_rules file.now i) }
{
    let nodes = count(file, 1);
    let e = edge(file, i);
    if e.from >= nodes {
        return Some(Rule::NoFrom {
            nodes: nodes as usize,
        });
    }
    if e.to >= nodes {
        return Some(Rule::NoTo {
            nodes: nodes as usize,
        });
    }
    if is_return(file, e.from as usize) {
        return Some(Rule::LeavesReturn);
    }
    let from = home(file, e.from as usize);
    let to = home(file, e.to as usize);
    if from != to {
        return Some(Rule::LeavesMethod { from, to });
    }
    let before = edge(file, i.saturating_sub(1));
    if i > 0 && before >= e {
        return Some(Rule::NotRising {
            from: before.from,
            to: before.to,
        });
    }
    None
}

pub(crate) fn row_broken(file: &[u8], row: usize) -> Option<Rule>
    requires { row < 65536 }
    ensures { result ≡ first_offence (row_rules file.now row) }
{
    let rows = count(file, 3);
    for mark in 0..32 {
        let cell = cell(file, row, mark);
        if cell >= rows && cell != 255 {
            return Some(Rule::WrongCell {
                mark: mark as u32,
                cell,
            });
        }
    }
    None
}
