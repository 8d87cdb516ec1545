// Tables that do not fit: each request is refused as the opening is, and nothing is written.
use asking::{Reply, Request, ask};
use inquiry::Fact;
use recipe::Refusal::UnfitTable;
use recipe::{Edge, recipe_of};
use rules::{History, Subject, TableWatch};
use samples::recipe_a;
use std::test::Fail;

const REQUESTS: [Request; 4] = [
    Request::Verdict,
    Request::Dig { allowed: 1 },
    Request::Link { from: 0, to: 2 },
    Request::Trace { room: 2 },
];

#[test]
fn an_edge_table_too_short(rt: HostRuntime) -> Result<(), Fail> {
    let recipe = &recipe_of(recipe_a::file())?;
    let on = Subject {
        recipe,
        rule: &History,
        watch: &TableWatch { recipe },
    };
    let mut facts = [Fact::default(); 4];
    let mut edges = [Edge::default(); 3];
    let mut output = [5; 2];
    let mut replies = [Ok(Reply::Linked { edges: 0 }); 6];
    let report = ask(
        &on,
        &mut facts,
        &mut edges,
        &mut output,
        &REQUESTS,
        &mut replies,
    );
    assert_eq!(&rt; report, Err(UnfitTable));
    assert_eq!(&rt; replies[..4], [Err(UnfitTable); 4][..]);
    assert_eq!(&rt; replies[4..], [Ok(Reply::Linked { edges: 0 }); 2][..]);
    assert_eq!(&rt; facts, [Fact::default(); 4]);
    assert_eq!(&rt; edges, [Edge::default(); 3]);
    assert_eq!(&rt; output, [5; 2]);
    Ok(())
}
