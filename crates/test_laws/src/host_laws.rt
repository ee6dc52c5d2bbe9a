//! What whoever holds a host knows of it by the laws, without its fields.
ghost use Rattle.std.specs.Prelude.{◌≡◌, ◌≤◌, ◌+◌, ℕ, All, Some, OnOk, length, option_copied, vec_capacity, vec_len};
ghost use Rattle.roll_frame.specs.Core.{settled};
ghost use Rattle.roll_frame.specs.declared.row.Cell.{Cell};
ghost use Rattle.roll_host.specs.Hosted.{rings_of};
ghost use Rattle.roll_host.specs.Requests.{EndsOwn};
ghost use Rattle.roll_laws.specs.Laws.{known_cell};
ghost use Rattle.roll_session.specs.Held.{Shows};
ghost use Rattle.roll_session.specs.Seen.{FollowsLog, IsLeast};

use roll_game::{Game, NoMemory};
use roll_host::{Host, HostReply, HostRequest};
use std::collections::VecDeque;

/// The log of a host's session is one that events leave, and no plan of a roll runs fewer frames than the roll does.
pub fn host_laws<G: Game>(host: &Host<G>)
    ensures log { FollowsLog G.step host.now.session }
    ensures least { (m : ℕ) → IsLeast host.now.session.core m }
{
    host.session().laws();
}

/// Does what a queue asks of a host, whatever its links and its workers bring meanwhile. The settled frame doesn't fall, each
/// cell that is known stays as it is, and then no plan of a roll runs fewer frames than the roll does.
pub fn host_goes_on<G: Game>(
    host: &mut Host<G>,
    requests: &mut VecDeque<HostRequest<G>>,
    replies: &mut Vec<HostReply>,
) -> Result<(), NoMemory>
    requires room { vec_len replies.old + length requests.old.items ≤ vec_capacity replies.old }
    requires ends { All (EndsOwn (rings_of host.old.links)) requests.old.items }
    ensures settled { OnOk result (settled host.old.session.core ≤ settled host.new.session.core) }
    ensures known { OnOk result ((place t : ℕ) (cell : Cell)
        → known_cell host.old.session.core.players place t ≡ Some cell
        → known_cell host.new.session.core.players place t ≡ Some cell) }
    ensures least { OnOk result ((m : ℕ) → IsLeast host.new.session.core m) }
{
    host_laws(host);
    host.run(requests, replies)?;
    host_laws(host);
    Ok(())
}

/// The state that a host shows is the run over the rows of its log's replay: those of the last roll.
pub fn host_shows<G: Game>(host: &Host<G>) -> Option<&G::State>
    ensures { Shows G.state_value G.step host.now.session.opening host.now.session.core.shown
        (option_copied result) }
{
    host.session().current()
}
