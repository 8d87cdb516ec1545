// Traces too long to be told: each method of a chain calls the next one twice, so that each stretch is twice as long as the next.
use crate::digs::{check_walked, taken};
use crate::tables::{Tables, all_worked, check_output};
use inquiry::Verdict;
use model::Method;
use recipe::Refusal::{self, LongTrace};
use recipe::{Edge, Kind, recipe_of};
use rules::{StackInspection, Subject, WallWatch};
use samples::building::{Made, Parts, nodes};
use samples::marks::MARK_NODE;
use std::alloc::{AllocError, Global};
use std::process::Abort;
use std::test::Fail;

// How many methods there are in the chain, and how many nops main has behind its calls of the first one.
// Then main calls one method more, at whose only node the watch turns bad.
//
// A run through the last method of a chain of k has 1 node, and one through another method has both its calls, a run after each, and its return: 3 nodes more than twice those of a run through the next.
// So with 3 more they double: a run through the first method has 4 * 2^(k - 1) - 3 nodes, which is 2^(k + 1) - 3.
// The trace has main's two calls with such a run after each, the nops, the third call, and the node where the watch turns bad: 2^(k + 2) - 2 and the nops. Its last stretch is that node, and the one before it all the others.
// Each node of main and of the chain has one fact, as does the bad one: three for each method of the chain but the last, and 6 and the nops. So there are 3 k + 3 facts and the nops.
#[derive(Clone, Copy, Debug)]
struct Doubling {
    chain: u32,
    nops: u32,
}

// The only mark. The wall of this mark and itself is bad where it is met.
const BAD_MARK: u32 = 7;

fn call(callee: u32) -> Kind {
    Kind::Call {
        callee,
        grant: 0,
        accept: 0,
        privileged: false,
    }
}

// Each node but a return leads to the next one.
fn edges_of(heap: Global, nodes: &[Made]) -> Result<Vec<Edge>, AllocError> {
    (0..)
        .zip(nodes)
        .filter(|(_, node)| !node.0.is_return())
        .map(|(from, _)| Edge {
            from,
            to: from.saturating_add(1),
        })
        .collect(heap)
}

impl Doubling {
    // The nodes of main, of the methods of the chain, of which the last only returns, and of the one method more.
    fn nodes(&self, heap: Global) -> Result<Vec<Made>, AllocError> {
        let mut nodes = vec![in heap; (call(1), 0, true), (call(1), 0, false)]?;
        for _ in 0..self.nops {
            nodes.push((Kind::Nop, 0, false))?;
        }
        nodes.push((call(self.chain.saturating_add(1)), 0, false))?;
        nodes.push((Kind::Return, 0, false))?;
        for next in 2..=self.chain {
            nodes.push((call(next), 0, true))?;
            nodes.push((call(next), 0, false))?;
            nodes.push((Kind::Return, 0, false))?;
        }
        nodes.push((Kind::Return, 0, true))?;
        nodes.push((Kind::Return, BAD_MARK, true))?;
        Ok(nodes)
    }

    // How many nodes each method has.
    fn methods(&self, heap: Global) -> Result<Vec<Method>, AllocError> {
        let counts = [self.nops.saturating_add(4), 3, 1];
        let [main, link, last] = counts.map(|nodes| Method { rights: 1, nodes });
        let mut methods = vec![in heap; main]?;
        for _ in 2..=self.chain {
            methods.push(link)?;
        }
        methods.push(last)?;
        methods.push(last)?;
        Ok(methods)
    }

    fn file(&self, heap: Global) -> Result<Vec<u8>, AllocError> {
        let methods = self.methods(heap)?;
        let made = self.nodes(heap)?;
        let nodes = nodes(heap, &made)?;
        let edges = edges_of(heap, &made)?;
        let parts = Parts {
            methods: &methods,
            nodes: &nodes,
            edges: &edges,
            rows: &[],
        };
        parts.file(heap)
    }
}

// What is told of a trace in an output of so many places, which is given back. A trace that was written is that of a bad run.
fn traced(
    rt: &(impl Abort + AllocGlobal),
    doubling: Doubling,
    facts: u32,
    room: usize,
    expected: Result<u32, Refusal>,
) -> Result<Vec<u32>, Fail> {
    let case = format!(in rt.alloc(); "{doubling:?}, {room} places")?;
    let file = doubling.file(rt.alloc())?;
    let recipe = &recipe_of(&file)?;
    let on = Subject {
        recipe,
        rule: &StackInspection,
        watch: &WallWatch {
            one: BAD_MARK,
            two: BAD_MARK,
        },
    };
    let own = recipe.edges() as usize;
    let mut tables = Tables::marked(rt.alloc(), 128, own)?;
    let mut out = vec![in rt.alloc(); MARK_NODE; room]?;
    let dig = (u32::MAX, facts, Verdict::Unsafe);
    let (told, report) = taken(rt, &on, &mut tables, dig, &mut out);
    assert_eq!(rt; told, expected, "{case}");
    assert_eq!(rt; report, Ok(all_worked(Verdict::Unsafe, facts)), "{case}");
    if let Ok(length) = told {
        let nodes = out.get(..length as usize).ok_or("longer than the output")?;
        check_walked(rt, &on, &tables.edges, own, nodes, &case)?;
    }
    Ok(out)
}

#[test]
fn short_ones_node_by_node(rt: HostRuntime) -> Result<(), Fail> {
    // main is 0 to 3, with no nop
    let one = Doubling { chain: 1, nops: 0 };
    let out = traced(&rt, one, 6, 8, Ok(6))?;
    check_output(&rt, &out, &[0, 4, 1, 4, 2, 5]);
    // main is 0 to 4, the first method 5 to 7
    let two = Doubling { chain: 2, nops: 1 };
    let out = traced(&rt, two, 10, 15, Ok(15))?;
    check_output(&rt, &out, &[0, 5, 8, 6, 8, 7, 1, 5, 8, 6, 8, 7, 2, 3, 9]);
    Ok(())
}

// Methods of the chain, nops, facts, and the length: 2^10 - 2, 2^11 + 1 and 2^12.
const WRITTEN: [(u32, u32, u32, u32); 3] = [(8, 0, 27, 1022), (9, 3, 33, 2049), (10, 2, 35, 4096)];

#[test]
fn longer_ones_in_outputs_just_long_enough(rt: HostRuntime) -> Result<(), Fail> {
    for (chain, nops, facts, length) in WRITTEN {
        let doubling = Doubling { chain, nops };
        let places = length as usize;
        let out = traced(&rt, doubling, facts, places, Ok(length))?;
        assert_eq!(rt; out.iter().position(|node| *node == MARK_NODE), None);
        let out = traced(&rt, doubling, facts, places.saturating_add(1), Ok(length))?;
        assert_eq!(rt;
            out.iter().position(|node| *node == MARK_NODE),
            Some(places)
        );
        let long = Err(LongTrace { length });
        let out = traced(&rt, doubling, facts, places.saturating_sub(1), long)?;
        check_output(&rt, &out, &[]);
    }
    Ok(())
}

// Methods of the chain, nops, facts, and the length that is told.
const LONG: [(u32, u32, u32, u32); 9] = [
    (29, 0, 90, 2_147_483_646),
    // 2^32 - 2, which only a longer output has room for
    (30, 0, 93, 4_294_967_294),
    // 2^32 - 1, the greatest length that is told: no output has room for it
    (30, 1, 94, u32::MAX),
    // 2^32: the stretch of the third call has 2^32 - 1 nodes, and the bad node is one more
    (30, 2, 95, u32::MAX),
    // 2^32 + 1: that stretch is held itself
    (30, 3, 96, u32::MAX),
    // 2^33 - 2: the stretch of main's second call has 2^32 - 1 nodes
    (31, 0, 96, u32::MAX),
    (32, 0, 99, u32::MAX),
    // 2^35 - 2: a run through the second method has 2^33 - 3 nodes
    (33, 0, 102, u32::MAX),
    (40, 1, 124, u32::MAX),
];

#[test]
fn too_long_for_any_output(rt: HostRuntime) -> Result<(), Fail> {
    for (chain, nops, facts, length) in LONG {
        for room in [0, 16] {
            let doubling = Doubling { chain, nops };
            let long = Err(LongTrace { length });
            let out = traced(&rt, doubling, facts, room, long)?;
            check_output(&rt, &out, &[]);
        }
    }
    Ok(())
}
