// What take says of a table of contents and of a file's length.
use crate::telling::{read, taken};
use recipe::Refusal::{self, Miscounted, Misplaced};
use samples::building::blank;
use std::process::Abort;
use std::test::Fail;

type Answer = Result<(), Refusal>;

// A wrong count and a wrong place, by the body that they are of, and a wrong length.
const METHODS_COUNT: Answer = Err(Miscounted { entry: 0 });

const NODES_COUNT: Answer = Err(Miscounted { entry: 1 });

const EDGES_COUNT: Answer = Err(Miscounted { entry: 2 });

const ROWS_COUNT: Answer = Err(Miscounted { entry: 3 });

const METHODS_PLACE: Answer = Err(Misplaced { entry: 0 });

const NODES_PLACE: Answer = Err(Misplaced { entry: 1 });

const EDGES_PLACE: Answer = Err(Misplaced { entry: 2 });

const ROWS_PLACE: Answer = Err(Misplaced { entry: 3 });

const LENGTH: Answer = Err(Misplaced { entry: 4 });

// A table of contents (place and count of each body), the length of the file, and what take answers.
type Case = ([u16; 8], usize, Answer);

// Each count at its limits and past them, in a file that is otherwise right.
static COUNTS: [Case; 15] = [
    ([0, 0, 0, 0, 0, 0, 0, 0], 16, METHODS_COUNT),
    // methods
    ([16, 0, 16, 1, 24, 0, 24, 0], 24, METHODS_COUNT),
    ([16, 1, 20, 1, 28, 1, 32, 1], 64, Ok(())),
    ([16, 256, 1040, 1, 1048, 0, 1048, 0], 1048, Ok(())),
    ([16, 257, 1044, 1, 1052, 0, 1052, 0], 1052, METHODS_COUNT),
    // nodes
    ([16, 1, 20, 0, 20, 0, 20, 0], 20, NODES_COUNT),
    ([16, 1, 20, 1024, 8212, 0, 8212, 0], 8212, Ok(())),
    ([16, 1, 20, 1025, 8220, 0, 8220, 0], 8220, NODES_COUNT),
    // edges, of which there may be none
    ([16, 1, 20, 1, 28, 0, 28, 1], 60, Ok(())),
    ([16, 1, 20, 1, 28, 4096, 16412, 0], 16412, Ok(())),
    ([16, 1, 20, 1, 28, 4097, 16416, 0], 16416, EDGES_COUNT),
    // rows, of which there may be none
    ([16, 1, 20, 1, 28, 1, 32, 0], 32, Ok(())),
    ([16, 1, 20, 1, 28, 0, 28, 16], 540, Ok(())),
    ([16, 1, 20, 1, 28, 0, 28, 17], 572, ROWS_COUNT),
    // the most of each
    ([16, 256, 1040, 1024, 9232, 4096, 25616, 16], 26128, Ok(())),
];

// Each place, and the length, off by one, also where the bodies after it move along.
static PLACES: [Case; 12] = [
    ([16, 3, 28, 7, 84, 4, 100, 2], 164, Ok(())),
    ([15, 3, 28, 7, 84, 4, 100, 2], 164, METHODS_PLACE),
    ([17, 3, 28, 7, 84, 4, 100, 2], 164, METHODS_PLACE),
    ([17, 3, 29, 7, 85, 4, 101, 2], 165, METHODS_PLACE),
    ([16, 3, 27, 7, 84, 4, 100, 2], 164, NODES_PLACE),
    ([16, 3, 29, 7, 85, 4, 101, 2], 165, NODES_PLACE),
    ([16, 3, 28, 7, 83, 4, 100, 2], 164, EDGES_PLACE),
    ([16, 3, 28, 7, 85, 4, 101, 2], 165, EDGES_PLACE),
    ([16, 3, 28, 7, 84, 4, 99, 2], 164, ROWS_PLACE),
    ([16, 3, 28, 7, 84, 4, 101, 2], 165, ROWS_PLACE),
    ([16, 3, 28, 7, 84, 4, 100, 2], 163, LENGTH),
    ([16, 3, 28, 7, 84, 4, 100, 2], 165, LENGTH),
];

// Several wrong at once: first the length of the table of contents, then counts, places and the file's length.
static ORDER: [Case; 12] = [
    ([16, 3, 28, 7, 84, 4, 100, 2], 0, LENGTH),
    ([16, 3, 28, 7, 84, 4, 100, 2], 15, LENGTH),
    ([0, 0, 0, 0, 0, 0, 0, 0], 15, LENGTH),
    ([0, 0, 0, 0, 0, 4097, 0, 17], 16, METHODS_COUNT),
    ([0, 1, 0, 0, 0, 4097, 0, 17], 16, NODES_COUNT),
    ([0, 1, 0, 1, 0, 4097, 0, 17], 16, EDGES_COUNT),
    ([0, 1, 0, 1, 0, 0, 0, 17], 16, ROWS_COUNT),
    ([0, 3, 0, 7, 0, 4, 0, 2], 16, METHODS_PLACE),
    ([16, 3, 0, 7, 0, 4, 0, 2], 16, NODES_PLACE),
    ([16, 3, 28, 7, 0, 4, 0, 2], 16, EDGES_PLACE),
    ([16, 3, 28, 7, 84, 4, 0, 2], 16, ROWS_PLACE),
    ([16, 3, 28, 7, 84, 4, 100, 2], 16, LENGTH),
];

// What take answers of files of zeros behind these tables of contents.
fn check_cases(rt: &(impl Abort + AllocGlobal), cases: &[Case]) -> Result<(), Fail> {
    for &(contents, len, answer) in cases {
        let file = blank(rt.alloc(), contents, len)?;
        assert_eq!(rt; taken(&file), answer, "{contents:?}, {len}");
        // What take refuses, read refuses alike; of records of zeros it has more to say.
        if answer.is_err() {
            assert_eq!(rt; read(&file), answer, "{contents:?}, {len}");
        }
    }
    Ok(())
}

#[test]
fn take_tells_the_first_offence(rt: HostRuntime) -> Result<(), Fail> {
    check_cases(&rt, &COUNTS)?;
    check_cases(&rt, &PLACES)?;
    check_cases(&rt, &ORDER)
}
