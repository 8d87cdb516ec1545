// What write writes, and what it leaves.
use crate::whole::written;
use model::Edge;
use recipe::Refusal::{self, ShortOutput};
use recipe::{Recipe, recipe_of, write};
use samples::building::Parts;
use samples::recipe_a;
use std::alloc::{AllocError, Global};
use std::process::Abort;
use std::test::Fail;

// An output of sevens, after the file was written into it.
fn check_room(
    rt: &(impl Abort + AllocGlobal),
    recipe: &Recipe,
    room: usize,
    answer: Result<usize, Refusal>,
    start: &[u8],
) -> Result<(), Fail> {
    let mut out = vec![in rt.alloc(); 7; room]?;
    assert_eq!(rt;
        write(recipe, recipe_a::parts().edges, &mut out),
        answer,
        "{room} bytes"
    );
    let mut expected = start.to_vec(rt.alloc())?;
    expected.resize(room, 7)?;
    assert_eq!(rt; out, expected, "{room} bytes");
    Ok(())
}

// Where there is room the file stands at the start, and else nothing is touched.
#[test]
fn the_file_is_written_where_it_fits(rt: HostRuntime) -> Result<(), Fail> {
    let a = recipe_of(recipe_a::file())?;
    for room in [0, 1, 163] {
        check_room(&rt, &a, room, Err(ShortOutput { needed: 164 }), &[])?;
    }
    for room in [164, 165, 170] {
        check_room(&rt, &a, room, Ok(164), recipe_a::file())?;
    }
    Ok(())
}

// A list of edges, and those of it that count.
type Case = (&'static [(u32, u32)], &'static [(u32, u32)]);

static LISTS: [Case; 8] = [
    (&[], &[]),
    // its own
    (
        &[(0, 1), (1, 2), (4, 5), (5, 6)],
        &[(0, 1), (1, 2), (4, 5), (5, 6)],
    ),
    // others by the rules
    (
        &[(0, 0), (0, 2), (1, 0), (5, 5)],
        &[(0, 0), (0, 2), (1, 0), (5, 5)],
    ),
    // doubled, and to another method; 4-5 does not rise above 5-6
    (&[(0, 1), (0, 4), (0, 1), (5, 6), (4, 5)], &[(0, 1), (5, 6)]),
    // falling
    (&[(5, 6), (4, 5), (1, 2), (0, 1)], &[(5, 6)]),
    // falling at the end alone
    (&[(0, 1), (0, 0), (0, 2)], &[(0, 1), (0, 2)]),
    // from a return, to another method, from and to no node
    (
        &[(2, 0), (0, 3), (7, 0), (0, 7), (u32::MAX, 0), (0, u32::MAX)],
        &[],
    ),
    // an edge that does not count is none to rise above
    (&[(6, 6), (5, 7), (0, 1)], &[(0, 1)]),
];

// The edges between pairs of nodes.
fn edges_of(heap: Global, pairs: &[(u32, u32)]) -> Result<Vec<Edge>, AllocError> {
    pairs
        .iter()
        .map(|&(from, to)| Edge { from, to })
        .collect(heap)
}

// The file with the edges of a list has those that count, and reads back with exactly these.
fn check_list(
    rt: &(impl Abort + AllocGlobal),
    recipe: &Recipe,
    list: &[Edge],
    counting: &[Edge],
) -> Result<(), Fail> {
    assert_eq!(rt; recipe.count(list), counting.len(), "{list:?}");
    let file = written(rt.alloc(), recipe, list)?;
    let parts = Parts {
        edges: counting,
        ..recipe_a::parts()
    };
    assert_eq!(rt; file, parts.file(rt.alloc())?, "{list:?}");
    let again = recipe_of(&file)?;
    assert_eq!(rt;
        again
            .own_edges()
            .collect::<Vec<Edge>>(rt.alloc())?
            .as_slice(),
        counting,
        "{list:?}"
    );
    Ok(())
}

#[test]
fn only_edges_that_count_are_written(rt: HostRuntime) -> Result<(), Fail> {
    let a = recipe_of(recipe_a::file())?;
    for (list, counting) in LISTS {
        let list = edges_of(rt.alloc(), list)?;
        let counting = edges_of(rt.alloc(), counting)?;
        check_list(&rt, &a, &list, &counting)?;
    }
    Ok(())
}

// A list is looked at up to 4,096 places and no further: an edge that counts, behind so many that do not.
#[test]
fn no_place_past_the_last_is_read(rt: HostRuntime) -> Result<(), Fail> {
    let a = recipe_of(recipe_a::file())?;
    let last = Edge { from: 0, to: 1 };
    for (before, counting) in [(4095, [last].as_slice()), (4096, &[])] {
        let mut list = vec![in rt.alloc(); Edge { from: 0, to: 4 }; before]?;
        list.push(last)?;
        check_list(&rt, &a, &list, counting)?;
    }
    Ok(())
}
