// What the heading's numbers mean (document 01, Records 2 and 5), and when they are refused with 20, as definitions in specs/; the progress of an
// update as a struct that calls hand on by value.
#![tactic(auto)]

ghost use Rattle.std.specs.Prelude.{◌≡◌, ◌<◌, ◌≤◌};
ghost use Rattle.heading_format.specs.Heading.{undone};
ghost use Rattle.heading_format.specs.Marked.{marked};
ghost use Rattle.heading_format.specs.Parts.{most_targets};

pub mod parts;

// Record 5: none, under way or finished.
#[derive(Clone, Copy)]
pub enum State {
    Idle,
    UnderWay,
    Finished,
}

// Record 5: the state, the steps left, and the stage of each of the target blocks, by rows: how many of its steps are done.
#[derive(Clone, Copy)]
pub struct Progress {
    pub state: State,
    pub left: u64,
    pub stages: [u64; parts::MOST_TARGETS],
}

impl Progress {
    // One step of a target done: its stage, by the target's place among all; one step left fewer, and finished with the last.
    pub fn mark(self, place: usize, stage: u64) -> Progress
        requires { (place < most_targets) × (1 ≤ self.left) }
        ensures { result ≡ marked self place stage }
    {
        let mut stages = self.stages;
        stages[place] = stage;
        let left = self.left - 1;
        if left == 0 {
            return Progress {
                state: State::Finished,
                left,
                stages,
            };
        }
        Progress {
            state: State::UnderWay,
            left,
            stages,
        }
    }
}

// A progress in which nothing is done.
pub fn undone(state: State, left: u64) -> Progress
    ensures { result ≡ undone state left }
{
    Progress {
        state,
        left,
        stages: [0; parts::MOST_TARGETS],
    }
}
