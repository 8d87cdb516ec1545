// Recipe A, judged in memory from the heap and in lent memory.
use inquiry::{Fact, Report, Verdict};
use judging::{Outcome, Outcomes, Status, Tables, judge, judge_in, printed};
use recipe::Edge;
use recipe::Refusal::{LongTrace, NotUnsafe, UnfitTable};
use samples::recipe_a;
use std::test::Fail;

const PRINTED: &str = "history safe facts 4\nstack unsafe facts 7 trace 0 3 1 4 5";

// What lent memory for so many facts, edges and nodes of a trace comes to.
fn lent(facts: usize, edges: usize, room: usize) -> Result<Outcomes, recipe::Refusal> {
    let mut fact_table = [Fact::default(); 7];
    let mut edge_table = [Edge::default(); 16];
    let mut history = [9; 5];
    let mut stack = [9; 5];
    judge_in(
        recipe_a::file(),
        &mut fact_table[..facts.min(7)],
        &mut edge_table[..edges.min(16)],
        &mut history[..room.min(5)],
        &mut stack[..room.min(5)],
    )
}

#[test]
fn memory_is_had_and_the_verdicts_are_those_of_a(rt: HostRuntime) -> Result<(), Fail> {
    let judgement = judge(rt.alloc(), recipe_a::file())?;
    assert_eq!(rt; judgement.history.report.verdict, Verdict::Safe);
    assert_eq!(rt; judgement.stack.report.verdict, Verdict::Unsafe);
    assert!(rt; printed(rt.alloc(), recipe_a::file())?.as_str() == PRINTED);
    let verdicts = Tables::new(rt.alloc())?.verdicts(recipe_a::file());
    assert_eq!(rt; verdicts.status(), Status::NotSafe);
    Ok(())
}

#[test]
fn lent_memory_of_every_size_has_an_answer(rt: HostRuntime) {
    let edges = recipe_a::parts().edges.len();
    let report = |verdict, held| Report {
        verdict,
        held,
        worked: held,
    };
    for (room, trace) in [
        (5, Ok(5)),
        (4, Err(LongTrace { length: 5 })),
        (0, Err(LongTrace { length: 5 })),
    ] {
        let history = Outcome {
            report: report(Verdict::Safe, 4),
            trace: Err(NotUnsafe),
        };
        let stack = Outcome {
            report: report(Verdict::Unsafe, 7),
            trace,
        };
        assert_eq!(rt;
            lent(7, edges, room),
            Ok(Outcomes { history, stack }),
            "{room}"
        );
    }
    assert_eq!(rt; lent(7, edges.saturating_sub(1), 5), Err(UnfitTable));
    assert!(rt; lent(0, edges, 5).is_ok());
}
