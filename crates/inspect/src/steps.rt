// A node of a method, as one line.
ghost use Rattle.std.specs.Prelude.{Some};
ghost use Rattle.inspect.specs.Phrases.{action_text, targets_text, step_text};

use recipe::{Edge, Kind, Node};
use showing::Rights;
use std::fmt;

// What a node does, in this program's words; a type of its own, since `Kind` stands below the crate that shows rights.
#[derive(Drop)]
struct Action(Kind);

impl fmt::Display for Action {
    ghost output = { λ a. Some (action_text a.0) };

    fn fmt<W: fmt::Write>(&self, f: &mut fmt::Formatter<W>) -> fmt::Result {
        match self.0 {
            Kind::Nop => f.write_str("nop"),
            Kind::Call {
                callee,
                grant,
                accept,
                privileged,
            } => {
                let privileged = if privileged { " (privileged)" } else { "" };
                let grant = Rights(grant);
                let accept = Rights(accept);
                write!(
                    f,
                    "call method {callee}{privileged}, grant {grant}, accept {accept}"
                )
            }
            Kind::Check { required } => write!(f, "check {}", Rights(required)),
            Kind::Return => f.write_str("return"),
        }
    }
}

// Where edges lead; nothing, if there are none. A type of its own, since a slice is the library's.
#[derive(Drop)]
struct Targets<'a>(&'a [Edge]);

impl fmt::Display for Targets<'_> {
    ghost output = { λ t. Some (targets_text t.0.now) };

    fn fmt<W: fmt::Write>(&self, f: &mut fmt::Formatter<W>) -> fmt::Result {
        if let [first, others @ ..] = self.0 {
            write!(f, "; then {}", first.to)?;
            for edge in others {
                write!(f, ", {}", edge.to)?;
            }
        }
        Ok(())
    }
}

// A node with its number and the edges that leave it.
#[derive(Drop)]
pub(crate) struct Step<'a> {
    pub number: u32,
    pub node: Node,
    pub edges: &'a [Edge],
}

impl fmt::Display for Step<'_> {
    ghost output = { λ s. Some (step_text s.number s.node s.edges.now) };

    fn fmt<W: fmt::Write>(&self, f: &mut fmt::Formatter<W>) -> fmt::Result {
        let Step {
            number,
            node: Node { kind, mark, entry },
            edges,
        } = self;
        let entry = if *entry { ", entry" } else { "" };
        let action = Action(*kind);
        let targets = Targets(edges);
        write!(f, "node {number}{entry}: {action}; mark {mark}{targets}")
    }
}
