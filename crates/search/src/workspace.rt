ghost use Rattle.std.specs.Prelude.{◌≡◌, ◌≤◌, [], length, IfOk};
ghost use Rattle.search.specs.Told.{framed, plan_in};
ghost use Rattle.search.specs.declared.workspace.TheConstants.{MOST_RELOCATIONS};

use crate::reserved::ReservedVec;
use bay::work::WorkBay;
use std::alloc::{AllocError, Global};

// No plan that a search finds has more relocations.
pub const MOST_RELOCATIONS: usize = 672;

// No limit of a round is higher, so no round goes deeper.
pub const DEEPEST: usize = 2 * MOST_RELOCATIONS;

// A bay on the way to a plan: the stack of its target, and the destination that was taken, or that is to be tried next.
#[derive(Clone, Copy)]
pub struct Frame {
    pub bay: WorkBay,
    pub source: u8,
    pub destination: u8,
}

// The bays that a round went deeper from, outermost first.
pub(crate) type Frames = ReservedVec<Frame, DEEPEST>;

// The memory of a search, made once and lent to every search: no search can fail for want of memory.
// After a search it holds the destinations of the plan found.
#[derive(Drop)]
pub struct Workspace {
    pub(crate) frames: Frames,
    pub(crate) plan: ReservedVec<u8, MOST_RELOCATIONS>,
}

impl Workspace {
    // Memory for every search to come; it holds no plan.
    pub fn new(alloc: Global) -> Result<Workspace, AllocError>
        ensures { IfOk result (λ w. plan_in w ≡ []) }
    {
        Ok(Workspace {
            frames: ReservedVec::new(alloc)?,
            plan: ReservedVec::new(alloc)?,
        })
    }

    // The destinations of the plan that the last search found; none if it found no plan.
    pub fn destinations(&self) -> &[u8]
        ensures { result.now ≡ plan_in self.now }
    {
        self.plan.as_slice()
    }

    // Keeps the destinations of the frames as the plan, and tells how many there are.
    pub(crate) fn keep_plan(&mut self) -> u16
        requires { length self.old.frames ≤ MOST_RELOCATIONS }
        ensures plan { plan_in self.new ≡ framed self.old.frames }
        ensures count { result ≡ length (framed self.old.frames) }
    {
        let plan = &mut self.plan;
        plan.clear();
        for frame in self.frames.as_slice() {
            plan.push(frame.destination);
        }
        // Narrowed: a plan has at most 672.
        plan.len() as u16
    }
}
