// What is said of refused files: the file of the samples, with some of its bytes changed, or cut off.
use explaining::explain;
use recipe::recipe_of;
use samples::building::changed;
use samples::recipe_a;
use std::process::Abort;
use std::test::Fail;

// The bytes to change, each by its place, and what is said then. The table of contents has 16 bytes, a method 4, a node 8, an edge 4.
type Case = (&'static [(usize, u8)], &'static str);

static CASES: [Case; 26] = [
    (
        &[(9, 85)],
        "edges entry, place 85, count 4, at byte 8: what stands before ends at byte 84",
    ),
    (
        &[(2, 1), (3, 1)],
        "methods entry, place 16, count 257, at byte 0: the count is not from 1 to 256",
    ),
    (
        &[(11, 255), (10, 255)],
        "edges entry, place 84, count 65535, at byte 8: the count is not from 0 to 4096",
    ),
    (
        &[(15, 1)],
        "file of 164 bytes, at byte 164: the last body ends at byte 132",
    ),
    (
        &[(23, 0)],
        "method 1, rights 1, nodes 0, at byte 20: it has no nodes",
    ),
    (
        &[(19, 8)],
        "method 0, rights 3, nodes 8, at byte 16: up to here methods have 8 nodes, and there are 7",
    ),
    (
        &[(27, 2)],
        "method 2, rights 3, nodes 2, at byte 24: all methods have 6 nodes, and there are 7",
    ),
    (
        &[(54, 0)],
        "method 1, rights 1, nodes 1, at byte 20: none of its nodes is an entry",
    ),
    (
        &[(68, 9)],
        "node 5, kind 9, mark 2, flags 0, callee 0, grant 0, accept 0, at byte 68: there is no such kind",
    ),
    (
        &[(69, 32)],
        "node 5, kind 0, mark 32, flags 0, callee 0, grant 0, accept 0, at byte 68: the mark is past 31",
    ),
    (
        &[(70, 4)],
        "node 5, kind 0, mark 2, flags 4, callee 0, grant 0, accept 0, at byte 68: there is no such flag",
    ),
    (
        &[(70, 2)],
        "node 5, kind 0, mark 2, flags 2, callee 0, grant 0, accept 0, at byte 68: it is privileged, and no call",
    ),
    (
        &[(71, 1)],
        "node 5, kind 0, mark 2, flags 0, callee 1, grant 0, accept 0, at byte 68: it has a callee, and is no call",
    ),
    (
        &[(73, 1)],
        "node 5, kind 0, mark 2, flags 0, callee 0, grant 1, accept 0, at byte 68: it has a grant, and is neither call nor check",
    ),
    (
        &[(66, 1)],
        "node 4, kind 2, mark 0, flags 1, callee 0, grant 2, accept 256, at byte 60: it accepts rights, and is no call",
    ),
    (
        &[(39, 3)],
        "node 1, kind 1, mark 0, flags 0, callee 3, grant 0, accept 0, at byte 36: there is no such callee, of 3 methods",
    ),
    (
        &[(41, 4)],
        "node 1, kind 1, mark 0, flags 0, callee 2, grant 4, accept 0, at byte 36: it grants more than the rights 3 of its method",
    ),
    (
        &[(42, 1)],
        "node 1, kind 1, mark 0, flags 0, callee 2, grant 0, accept 256, at byte 36: it accepts more than the rights 3 of its method",
    ),
    (
        &[(97, 7)],
        "edge 3, from 7 to 6, at byte 96: it leaves no node, of 7",
    ),
    (
        &[(99, 7)],
        "edge 3, from 5 to 7, at byte 96: it leads to no node, of 7",
    ),
    (
        &[(97, 6)],
        "edge 3, from 6 to 6, at byte 96: it leaves a return",
    ),
    (
        &[(87, 3)],
        "edge 0, from 0 to 3, at byte 84: it leads from method 0 into method 1",
    ),
    (
        &[(89, 0), (91, 1)],
        "edge 1, from 0 to 1, at byte 88: it does not rise above the edge before it, from 0 to 1",
    ),
    (
        &[(131, 2)],
        "row 0, at byte 100: the cell of mark 31 is 2, neither the number of a row nor 255",
    ),
    // of several wrong records it is the one that is refused, and of several rules of a record the first
    (
        &[(131, 2), (99, 7), (97, 7)],
        "edge 3, from 7 to 7, at byte 96: it leaves no node, of 7",
    ),
    (
        &[(68, 9), (69, 32)],
        "node 5, kind 9, mark 32, flags 0, callee 0, grant 0, accept 0, at byte 68: there is no such kind",
    ),
];

// So many bytes of the file, and what is said of them.
static CUT: [(usize, &str); 2] = [
    (
        15,
        "file of 15 bytes, at byte 15: there are fewer than 16 bytes",
    ),
    (
        163,
        "file of 163 bytes, at byte 163: the last body ends at byte 164",
    ),
];

// A refused file is explained so.
fn check_explained(
    rt: &(impl Abort + AllocGlobal),
    file: &[u8],
    expected: &str,
) -> Result<(), Fail> {
    let why = recipe_of(file)
        .err()
        .and_then(|refusal| explain(file, refusal));
    let Some(why) = why else {
        return Err(Fail::from("nothing is said"));
    };
    let text = why.to_string(rt.alloc())?;
    assert_eq!(rt; text.as_str(), expected);
    Ok(())
}

#[test]
fn a_refused_file_is_explained(rt: HostRuntime) -> Result<(), Fail> {
    for (changes, expected) in &CASES {
        let file = changed(rt.alloc(), recipe_a::file(), changes)?;
        check_explained(&rt, &file, expected)?;
    }
    Ok(())
}

#[test]
fn a_file_that_is_cut_off_is_explained(rt: HostRuntime) -> Result<(), Fail> {
    for (length, expected) in &CUT {
        let file = recipe_a::file();
        check_explained(&rt, &file[..file.len().min(*length)], expected)?;
    }
    Ok(())
}
