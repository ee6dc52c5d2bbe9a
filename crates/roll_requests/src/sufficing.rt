//! How many slots are enough.
ghost use Rattle.std.specs.Prelude.{◌≤◌, ◌+◌};
ghost use Rattle.roll_requests.specs.Planned.{LacksSlots};
ghost use Rattle.roll_requests.specs.Sufficing.{most_slots, HasNoGuesses};
ghost use Rattle.roll_session.specs.declared.event.Call.{Call as Made};

use crate::elsewhere::Elsewhere;

impl Elsewhere {
    /// If it took in no branch, and none of its jobs is out, the threshold and two slots are enough for every call that rolls. As
    /// many as its settings and its jobs can need always are.
    pub fn slots_suffice(&self)
        ensures alone { HasNoGuesses self.now
            → self.now.seen.settings.threshold + 2 ≤ self.now.limit
            → (call : Made) → ¬ LacksSlots self.now.seen self.now.saves.tree.states
            self.now.jobs self.now.limit call }
        ensures guessing { most_slots self.now ≤ self.now.limit
            → (call : Made) → ¬ LacksSlots self.now.seen self.now.saves.tree.states
            self.now.jobs self.now.limit call }
    {
        self.core().laws();
    }
}
