// What can be asked of a strip.
ghost use Rattle.std.specs.Prelude.{◌≡◌, ◌<◌, ◌≤◌, [], ◌∷◌, ◌++◌, length, drop};
ghost use Rattle.std.specs.List.{slice_get};
ghost use Rattle.strips.specs.Tasks.{tasks_of};

use crate::strip::{PLACES, Strip};

impl Strip {
    #[tactic(auto, unfolding(crate::specs::Tasks::tasks_of))]
    pub(crate) fn empty() -> Strip
        ensures { tasks_of result ≡ [] }
    {
        Strip {
            tasks: [0; PLACES],
            start: 0,
            len: 0,
        }
    }

    #[tactic(auto, using(crate::proofs::Content::length_tasks))]
    pub(crate) fn len(&self) -> u32
        ensures value { result ≡ length (tasks_of self.now) }
        ensures fits { length (tasks_of self.now) ≤ 64 }
    {
        self.len as u32
    }

    // Puts the task behind the last.
    pub(crate) fn push(&mut self, task: u8)
        requires { length (tasks_of self.old) < 64 }
        ensures { tasks_of self.new ≡ tasks_of self.old ++ (task ∷ []) }
    {
        let place = (self.start + self.len) as usize % PLACES;
        self.tasks[place] = task;
        self.len += 1;
    }

    // Takes the first, if there is one.
    pub(crate) fn take(&mut self) -> Option<u8>
        ensures answer { result ≡ slice_get (tasks_of self.old) 0 }
        ensures tasks { tasks_of self.new ≡ drop 1 (tasks_of self.old) }
    {
        let task = self.get(0)?;
        self.start = (self.start + 1) % PLACES as u8;
        self.len -= 1;
        Some(task)
    }

    // The task at a place, counted from the first, if there is one.
    #[tactic(auto, using(crate::proofs::Content::content_get, crate::proofs::Content::length_tasks))]
    pub(crate) fn get(&self, place: u32) -> Option<u8>
        ensures { result ≡ slice_get (tasks_of self.now) place }
    {
        if place >= self.len() {
            return None;
        }
        let place = (self.start as usize + place as usize) % PLACES;
        Some(self.tasks[place])
    }
}
