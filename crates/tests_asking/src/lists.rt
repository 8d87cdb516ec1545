// Lists of requests of recipe A, and as many replies as there are places for.
use asking::{Reply, Request, ask_modelled};
use inquiry::{Dug, Fact, Report, Verdict};
use recipe::Refusal::{self, NotUnsafe};
use recipe::{Edge, recipe_of};
use rules::{History, StackInspection, Subject, TableWatch};
use samples::recipe_a;
use std::process::Abort;
use std::test::Fail;
use walker::Modelled;

// A reply that no request gets: its place in a list of replies was not written.
pub const MARK: Result<Reply, Refusal> = Ok(Reply::Linked { edges: 999 });

// What a dig answers that finished so many facts, and then held so many.
pub(crate) fn dug(finished: u32, held: u32) -> Result<Reply, Refusal> {
    Ok(Reply::Dug(Dug { finished, held }))
}

pub(crate) fn judged(verdict: Verdict) -> Result<Reply, Refusal> {
    Ok(Reply::Judged(verdict))
}

pub(crate) fn traced(length: u32) -> Result<Reply, Refusal> {
    Ok(Reply::Traced { length })
}

pub(crate) fn report(verdict: Verdict, held: u32, worked: u32) -> Report {
    Report {
        verdict,
        held,
        worked,
    }
}

pub const DIG_ALL: Request = Request::Dig { allowed: 9 };

// A request, and what it is answered.
pub type Asked = (Request, Result<Reply, Refusal>);

// What a list of requests is asked of, and what it leaves.
#[derive(Drop)]
pub struct Lent {
    pub facts: Vec<Fact>,
    pub edges: Vec<Edge>,
    pub output: Vec<u32>,
}

pub const MARK_NODE: u32 = 777;

// Makes the requests of recipe A under a rule, in nine places for facts, six for edges and six for nodes, with so many places for replies; checks each reply, and that no other place of the replies was written.
pub(crate) fn check_asked<R: Modelled>(
    rt: &(impl Abort + AllocGlobal),
    file: &[u8],
    rule: &R,
    asked: &[Asked],
    room: usize,
    expected: Report,
) -> Result<Lent, Fail> {
    let recipe = &recipe_of(file)?;
    let on = Subject {
        recipe,
        rule,
        watch: &TableWatch { recipe },
    };
    let mut lent = Lent {
        facts: vec![in rt.alloc(); Fact::default(); 9]?,
        edges: vec![in rt.alloc(); Edge::default(); 6]?,
        output: vec![in rt.alloc(); MARK_NODE; 6]?,
    };
    let requests: Vec<Request> = asked.iter().map(|a| a.0).collect(rt.alloc())?;
    let mut replies = vec![in rt.alloc(); MARK; room]?;
    let report = ask_modelled(
        &on,
        &mut lent.facts,
        &mut lent.edges,
        &mut lent.output,
        &requests,
        &mut replies,
    );
    assert_eq!(rt; report, Ok(expected), "{asked:?}");
    for (place, reply) in replies.iter().enumerate() {
        let told = asked.get(place).map_or(MARK, |a| a.1);
        assert_eq!(rt; *reply, told, "place {place} of {asked:?}");
    }
    Ok(lent)
}

// A fact is worked at a time; the fifth that is held is bad, and then there is a trace.
fn by_stack() -> [Asked; 9] {
    [
        (Request::Verdict, judged(Verdict::Unfinished)),
        (Request::Trace { room: 6 }, Err(NotUnsafe)),
        (Request::Dig { allowed: 0 }, dug(0, 1)),
        (Request::Dig { allowed: 3 }, dug(3, 4)),
        (Request::Verdict, judged(Verdict::Unfinished)),
        (Request::Dig { allowed: 1 }, dug(1, 5)),
        (Request::Verdict, judged(Verdict::Unsafe)),
        (Request::Trace { room: 6 }, traced(5)),
        (DIG_ALL, dug(3, 7)),
    ]
}

// Under history nothing is bad, so no trace is written.
fn by_history() -> [Asked; 4] {
    [
        (Request::Trace { room: 0 }, Err(NotUnsafe)),
        (DIG_ALL, dug(4, 4)),
        (Request::Verdict, judged(Verdict::Safe)),
        (Request::Trace { room: 6 }, Err(NotUnsafe)),
    ]
}

#[test]
fn each_request_is_answered(rt: HostRuntime) -> Result<(), Fail> {
    let lent = check_asked(
        &rt,
        recipe_a::file(),
        &StackInspection,
        &by_stack(),
        12,
        report(Verdict::Unsafe, 7, 7),
    )?;
    assert_eq!(&rt; lent.output[..], [0, 3, 1, 4, 5, MARK_NODE][..]);
    let lent = check_asked(
        &rt,
        recipe_a::file(),
        &History,
        &by_history(),
        4,
        report(Verdict::Safe, 4, 4),
    )?;
    assert_eq!(&rt; lent.output[..], [MARK_NODE; 6][..]);
    Ok(())
}

// With fewer places for replies the other requests are not made.
#[test]
fn as_many_as_there_are_replies(rt: HostRuntime) -> Result<(), Fail> {
    for room in [0, 1, 2, 3] {
        check_asked(
            &rt,
            recipe_a::file(),
            &StackInspection,
            &by_stack(),
            room,
            report(Verdict::Unfinished, 1, 0),
        )?;
    }
    check_asked(
        &rt,
        recipe_a::file(),
        &StackInspection,
        &by_stack(),
        4,
        report(Verdict::Unfinished, 4, 3),
    )?;
    Ok(())
}
