// Recipe A without its edge from 4 to 5, linked by single calls and then written.
use asking::write_linked;
use inquiry::{Fact, Inquiry, Report, Verdict};
use judging::judge;
use recipe::Refusal::{ShortOutput, UnfitTable};
use recipe::{Edge, recipe_of};
use rules::{StackInspection, Subject, TableWatch};
use samples::building::Parts;
use samples::recipe_a;
use std::process::Abort;
use std::test::Fail;

const BEFORE: [Edge; 3] = [
    Edge { from: 0, to: 1 },
    Edge { from: 1, to: 2 },
    Edge { from: 5, to: 6 },
];

// An output holds recipe A's file and one byte more, and the file is judged as an inquiry reported.
fn check_written(rt: &(impl Abort + AllocGlobal), out: &[u8], report: &Report) -> Result<(), Fail> {
    let (file, rest) = out.split_at_checked(164).ok_or("the output is short")?;
    assert!(rt; file == recipe_a::file());
    assert!(rt; rest == [9].as_slice());
    let judgement = judge(rt.alloc(), file)?;
    assert_eq!(rt; judgement.stack.report, *report);
    Ok(())
}

// With the link it is recipe A, byte for byte, and unsafe under stack inspection, as the inquiry says.
#[test]
fn the_verdict_is_that_of_the_inquiry(rt: HostRuntime) -> Result<(), Fail> {
    let parts = Parts {
        edges: &BEFORE,
        ..recipe_a::parts()
    };
    let before = parts.file(rt.alloc())?;
    let recipe = &recipe_of(&before)?;
    let on = Subject {
        recipe,
        rule: &StackInspection,
        watch: &TableWatch { recipe },
    };
    let mut facts = [Fact::default(); 7];
    let mut edges = [Edge::default(); 6];
    let mut out = [9; 165];
    let mut inquiry = Inquiry::open(&on, &mut facts, &mut edges);
    let linked = inquiry.link(&on, &mut edges, Edge { from: 4, to: 5 });
    let dug = inquiry.dig(&on, &edges, 7);
    let short = write_linked(&inquiry, recipe, &edges, &mut out[..163]);
    let written = write_linked(&inquiry, recipe, &edges, &mut out);
    let report = inquiry.close(on.watch)?;
    assert_eq!(&rt; linked, Ok(4));
    assert!(&rt; dug.is_ok());
    assert_eq!(&rt; short, Err(ShortOutput { needed: 164 }));
    assert_eq!(&rt; written, Ok(164));
    assert_eq!(&rt; report.verdict, Verdict::Unsafe);
    check_written(&rt, &out, &report)
}

// A void inquiry writes nothing.
#[test]
fn a_void_inquiry_refuses(rt: HostRuntime) -> Result<(), Fail> {
    let recipe = &recipe_of(recipe_a::file())?;
    let on = Subject {
        recipe,
        rule: &StackInspection,
        watch: &TableWatch { recipe },
    };
    let mut facts = [Fact::default(); 7];
    let mut edges = [Edge::default(); 3];
    let mut out = [9; 164];
    let inquiry = Inquiry::open(&on, &mut facts, &mut edges);
    let written = write_linked(&inquiry, recipe, &edges, &mut out);
    let report = inquiry.close(on.watch);
    assert_eq!(&rt; written, Err(UnfitTable));
    assert_eq!(&rt; report, Err(UnfitTable));
    assert_eq!(&rt; out, [9; 164]);
    Ok(())
}
