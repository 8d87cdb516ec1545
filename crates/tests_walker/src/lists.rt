// Whole lists: which are runs under which rule, and where the others are refused.
use model::Frame;
use recipe::Refusal::{self, NotAStep, StackFull};
use recipe::recipe_of;
use rules::{History, StackInspection, Subject, TableWatch};
use samples::recipe_a;
use std::test::Fail;
use walker::{Stand, replay, replay_modelled};

const EMPTY: Frame = Frame { node: 9, value: 9 };

// A list of nodes, and the depth that it comes to under history and under stack inspection with three places of stack, or its refusal.
type Case = (
    &'static [u32],
    Result<usize, Refusal>,
    Result<usize, Refusal>,
);

const LISTS: [Case; 8] = [
    (&[0], Ok(1), Ok(1)),
    (&[0, 3, 1, 4], Ok(2), Ok(2)),
    (&[0, 3, 1, 4, 5], Err(NotAStep { place: 4 }), Ok(2)),
    (&[0, 3, 1, 4, 5, 6, 2], Err(NotAStep { place: 4 }), Ok(1)),
    (
        &[0, 3, 1, 4, 5, 6, 2, 2],
        Err(NotAStep { place: 4 }),
        Err(NotAStep { place: 7 }),
    ),
    (&[3], Err(NotAStep { place: 0 }), Err(NotAStep { place: 0 })),
    (
        &[0, 1],
        Err(NotAStep { place: 1 }),
        Err(NotAStep { place: 1 }),
    ),
    (&[], Err(NotAStep { place: 0 }), Err(NotAStep { place: 0 })),
];

#[test]
fn lists_are_runs_or_refused(rt: HostRuntime) -> Result<(), Fail> {
    let recipe = &recipe_of(recipe_a::file())?;
    let watch = &TableWatch { recipe };
    let by_history = Subject {
        recipe,
        rule: &History,
        watch,
    };
    let by_stack = Subject {
        recipe,
        rule: &StackInspection,
        watch,
    };
    let edges = recipe_a::parts().edges;
    for (nodes, history, stack) in LISTS {
        let mut frames = [EMPTY; 3];
        let answer = replay_modelled(&by_history, edges, &mut frames, nodes);
        assert_eq!(rt; answer.map(|at| at.depth), history, "{nodes:?}");
        let mut frames = [EMPTY; 3];
        let answer = replay_modelled(&by_stack, edges, &mut frames, nodes);
        assert_eq!(rt; answer.map(|at| at.depth), stack, "{nodes:?}");
        assert_eq!(rt; frames[2], EMPTY, "{nodes:?}");
    }
    Ok(())
}

#[test]
fn a_bad_run_and_a_full_stack(rt: HostRuntime) -> Result<(), Fail> {
    let recipe = &recipe_of(recipe_a::file())?;
    let on = &Subject {
        recipe,
        rule: &StackInspection,
        watch: &TableWatch { recipe },
    };
    let edges = recipe_a::parts().edges;
    let mut two = [EMPTY; 2];
    let bad = Stand {
        depth: 2,
        value: 3,
        state: 2,
        bad: true,
    };
    assert_eq!(rt;
        replay_modelled(on, edges, &mut two, &[0, 3, 1, 4, 5]),
        Ok(bad)
    );
    assert_eq!(rt;
        two,
        [Frame { node: 1, value: 3 }, Frame { node: 5, value: 3 }]
    );
    let mut one = [EMPTY; 1];
    assert_eq!(rt;
        replay_modelled(on, edges, &mut one, &[0, 3]),
        Err(StackFull { place: 1 })
    );
    assert_eq!(rt; one, [Frame { node: 0, value: 3 }]);
    assert_eq!(rt;
        replay_modelled(on, edges, &mut [], &[0]),
        Err(StackFull { place: 0 })
    );
    assert_eq!(rt;
        replay_modelled(on, edges, &mut [], &[3]),
        Err(NotAStep { place: 0 })
    );
    Ok(())
}

// History refuses the check at node 4, since the rights of method 1 are gone; the frames of the four nodes before are still there.
#[test]
fn a_refused_list_leaves_the_frames_that_it_came_to(rt: HostRuntime) -> Result<(), Fail> {
    let recipe = &recipe_of(recipe_a::file())?;
    let on = &Subject {
        recipe,
        rule: &History,
        watch: &TableWatch { recipe },
    };
    let mut frames = [EMPTY; 3];
    assert_eq!(rt;
        replay(on, recipe_a::parts().edges, &mut frames, &[0, 3, 1, 4, 5]),
        Err(NotAStep { place: 4 })
    );
    assert_eq!(rt;
        frames,
        [
            Frame { node: 1, value: 1 },
            Frame { node: 4, value: 1 },
            EMPTY
        ]
    );
    Ok(())
}
