// Inquires into recipes with many facts. Without a word it prints what two inquiries come to; with the word `time` how long each of a dozen takes.
#![tactic(auto)]

mod rings;

use anyhow::Context;
use inquiry::{Fact, Report, inquire};
use recipe::{Edge, recipe_of};
use rings::Ring;
use rules::{StackInspection, Subject, TableWatch};
use std::env;
use std::time::{Duration, Instant};

// About a thousand facts, in as many places as a judgement has.
const USUAL_NODES: u32 = 62;

const USUAL_PLACES: usize = 1024;

const MOST_PLACES: usize = 65536;

const MOST_EDGES: usize = 4096;

// What is timed: the nodes of a ring and its entries. Each entry gives 16 facts for each node.
const TIMED: [(u32, u32); 6] = [(64, 1), (64, 4), (64, 16), (64, 64), (1023, 1), (1023, 4)];

// An inquiry: what it came to, and how long it took.
#[derive(Drop)]
struct Timed {
    report: Report,
    took: Duration,
}

// Searches a ring until no fact is left to work, or no place.
fn inquired(rt: &HostRuntime, ring: Ring, places: usize) -> anyhow::Result<Timed> {
    let file = ring.file(rt.alloc())?;
    let recipe = recipe_of(&file).context("this ring is no recipe")?;
    let on = Subject {
        recipe: &recipe,
        rule: &StackInspection,
        watch: &TableWatch { recipe: &recipe },
    };
    let mut facts = vec![in rt.alloc(); Fact::default(); places]?;
    let mut edges = vec![in rt.alloc(); Edge::default(); MOST_EDGES]?;
    let begin = Instant::now(rt)?;
    let answer = inquire(&on, &mut facts, &mut edges, u32::MAX);
    let took = begin.elapsed(rt)?;
    let report = answer.context("the inquiry was refused")?;
    Ok(Timed { report, took })
}

// What an inquiry into a ring came to, as a line.
fn print_counts(rt: &HostRuntime, ring: Ring, report: &Report) -> anyhow::Result<()> {
    let Report {
        verdict,
        held,
        worked,
    } = report;
    println!(rt; "{ring}: {verdict:?}, {held} facts held, {worked} worked")?;
    Ok(())
}

// How long it took, as a line.
fn print_time(rt: &HostRuntime, timed: &Timed) -> anyhow::Result<()> {
    let seconds = timed.took.as_secs_f64();
    let rate = f64::from(timed.report.held) / seconds;
    println!(rt; "    {seconds:.4} s, {rate:.0} facts per second")?;
    Ok(())
}

// What the usual rings come to.
fn count_usual(rt: &HostRuntime) -> anyhow::Result<()> {
    for ring in Ring::both(USUAL_NODES, 1) {
        let timed = inquired(rt, ring, USUAL_PLACES)?;
        print_counts(rt, ring, &timed.report)?;
    }
    Ok(())
}

// What the rings that are timed come to, and how long each takes.
fn time_all(rt: &HostRuntime) -> anyhow::Result<()> {
    for (nodes, entries) in TIMED {
        for ring in Ring::both(nodes, entries) {
            let timed = inquired(rt, ring, MOST_PLACES)?;
            print_counts(rt, ring, &timed.report)?;
            print_time(rt, &timed)?;
        }
    }
    Ok(())
}

fn main(rt: HostRuntime) -> anyhow::Result<()> {
    match env::args(&rt)?.nth(1) {
        Some(word) if word.as_str() == "time" => time_all(&rt),
        _ => count_usual(&rt),
    }
}
