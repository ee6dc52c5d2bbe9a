//! Results of workers become events of a session.
ghost use Rattle.std.specs.Prelude.{◌≡◌, ◌≤◌, ◌<◌, ◌*◌, ◌+◌};
ghost use Rattle.roll_frame.specs.declared.limits.TheConstants.{PATH_LIMIT as LONGEST};
ghost use Rattle.roll_host.specs.Absorbs.{added_by, dropped_by, unmade_by, IsAbsorbed, IsFate};
ghost use Rattle.roll_host.specs.declared.limits.TheConstants.{TURN_LIMIT as MOST};

use crate::limits::TURN_LIMIT;
use roll_branch::Done;
use roll_frame::Refusal;
use roll_game::Game;
use roll_pool::Owner;
use roll_session::Session;

/// What an absorb did.
#[derive(Clone, Copy, Debug, Default, PartialEq, Eq)]
pub struct Absorbed {
    /// How many results were collected.
    pub taken: u32,
    /// How many states their branches added.
    pub added: u32,
    /// How many branches were refused, and dropped.
    pub dropped: u32,
    /// How many jobs have no branch, since the game refused to run them.
    pub unmade: u32,
}

/// What became of a result.
#[derive(Clone, Copy)]
pub(crate) enum Fate {
    /// Its branch was grafted, and added so many states.
    Added(u32),
    /// Its branch was refused.
    Dropped(Refusal),
    /// It has no branch.
    Unmade,
}

impl Absorbed {
    /// One result more.
    fn count(&mut self, fate: Fate)
        requires few { self.old.taken < MOST }
        requires within { (self.old.dropped ≤ self.old.taken) × (self.old.unmade ≤ self.old.taken)
            × (self.old.added ≤ LONGEST * self.old.taken) }
        requires added { added_by fate ≤ LONGEST }
        ensures { self.new ≡ record {
          taken = self.old.taken + 1;
          added = self.old.added + added_by fate;
          dropped =
              self.old.dropped + dropped_by fate;
          unmade = self.old.unmade + unmade_by fate;
        } }
    {
        self.taken += 1;
        match fate {
            Fate::Added(count) => self.added += count,
            Fate::Dropped(_) => self.dropped += 1,
            Fate::Unmade => self.unmade += 1,
        }
    }
}

/// Takes in one result.
fn graft_result<G: Game>(session: &mut Session<G>, done: Done<G>) -> Fate
    ensures fate { IsFate G.step session.old session.new done result }
    ensures few { added_by result ≤ LONGEST }
{
    match done {
        Done::Grown(branch) => match session.graft(branch) {
            Ok(grafted) => Fate::Added(grafted.added),
            Err(why) => Fate::Dropped(why),
        },
        Done::Refused(_) => Fate::Unmade,
    }
}

/// Takes in the results that have come.
pub(crate) fn absorb_results<G: Game>(session: &mut Session<G>, owner: &mut Owner<G>) -> Absorbed
    ensures absorbed { IsAbsorbed G.step session.old owner.old.came session.new owner.new.came
        result }
    ensures pool { owner.new ≡ record owner.old { came = owner.new.came } }
{
    let mut absorbed = Absorbed::default();
    for _ in 0..TURN_LIMIT {
        let Some(done) = owner.collect() else {
            break;
        };
        absorbed.count(graft_result(session, done));
    }
    absorbed
}
