// The wall: a run must not meet both of two marks.
ghost use Rattle.model.specs.Watches.{wall_watch};

use crate::Watch;

// A wall between two marks.
#[derive(Clone, Copy)]
pub struct WallWatch {
    pub one: u32,
    pub two: u32,
}

impl Watch for WallWatch {
    ghost watching = { λ w. wall_watch w.one w.two };

    fn states(&self) -> u32 {
        4
    }

    fn start(&self) -> u32 {
        0
    }

    fn step(&self, state: u32, mark: u32) -> u32 {
        if state >= 4 || mark > 31 {
            return 0;
        }
        state | (u32::from(mark == self.one) + 2 * u32::from(mark == self.two))
    }

    fn bad(&self, state: u32) -> bool {
        state == 3
    }
}
