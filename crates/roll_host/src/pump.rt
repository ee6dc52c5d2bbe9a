//! Items of links become events of a session.
ghost use Rattle.std.specs.Prelude.{◌≡◌, ◌≤◌, length, IfOk, IfErr, OnErr};
ghost use Rattle.roll_host.specs.Heard.{can_wait, IsHeard, IsHeldFor};
ghost use Rattle.roll_host.specs.Pumps.{IsPumped, PumpsLink};
ghost use Rattle.roll_host.specs.Hosted.{rings_of};
ghost use Rattle.roll_host.specs.Outcomes.{IsOutcome};
ghost use Rattle.roll_host.specs.declared.limits.TheConstants.{LINK_LIMIT as LINKS};

use crate::limits::TURN_LIMIT;
use roll_frame::Refusal;
use roll_game::Game;
use roll_link::{Link, Remote};
use roll_session::Session;

/// What a pump did.
#[derive(Clone, Copy, Debug, PartialEq, Eq)]
pub struct Pumped {
    /// How many items were applied.
    pub applied: u32,
    /// How many of them were refused, and so changed nothing.
    pub refused: u32,
    /// Why the last refused item was refused, if any was.
    pub refusal: Option<Refusal>,
    /// Why the last link that holds an item does.
    pub held: Option<Refusal>,
}

/// What was done with a link's next item.
#[derive(Clone, Copy)]
enum Outcome {
    /// It was applied, and refused for this, if it was.
    Applied(Option<Refusal>),
    /// It is held.
    Held(Refusal),
    /// There was none.
    Empty,
}

/// Whether an item that is refused for this is held, and tried again.
fn can_wait(why: Refusal) -> bool
    ensures { result ≡ can_wait why }
{
    matches!(
        why,
        Refusal::QueueFull | Refusal::LogFull | Refusal::NoMemory
    )
}

/// Makes one item an event, and says why it was refused, if it was; or else why it is to be held.
fn hear<G: Game>(session: &mut Session<G>, item: Remote) -> Result<Option<Refusal>, Refusal>
    ensures heard { IfOk result (IsHeard G.step session.old session.new item) }
    ensures held { IfErr result (IsHeldFor G.step session.new item) }
    ensures unchanged { OnErr result (session.new ≡ session.old) }
{
    match session.remote_input(item.player, item.frame, item.word) {
        Ok(_) => Ok(None),
        Err(why) if can_wait(why) => Err(why),
        Err(why) => Ok(Some(why)),
    }
}

/// Takes a link's next item.
fn take_next<G: Game>(session: &mut Session<G>, link: &mut Link) -> Outcome
    ensures outcome { IsOutcome G.step session.old link.old session.new link.new result }
{
    let Some(item) = link.next() else {
        return Outcome::Empty;
    };
    match hear(session, item) {
        Ok(refusal) => Outcome::Applied(refusal),
        Err(why) => {
            link.hold(item);
            Outcome::Held(why)
        }
    }
}

/// Applies what came by a link, until an item is held.
fn pump_link<G: Game>(session: &mut Session<G>, link: &mut Link) -> Pumped
    ensures pumps { PumpsLink G.step session.old link.old session.new link.new result }
    ensures few { result.refused ≤ result.applied }
{
    let mut applied = 0;
    let mut refused = 0;
    let mut refusal = None;
    for _ in 0..TURN_LIMIT {
        match take_next(session, link) {
            Outcome::Applied(why) => {
                applied += 1;
                refused += u32::from(why.is_some());
                refusal = why.or(refusal);
            }
            Outcome::Held(why) => {
                return Pumped {
                    applied,
                    refused,
                    refusal,
                    held: Some(why),
                };
            }
            Outcome::Empty => break,
        }
    }
    Pumped {
        applied,
        refused,
        refusal,
        held: None,
    }
}

/// Applies what came by the links, in their order.
pub(crate) fn pump_links<G: Game>(session: &mut Session<G>, links: &mut [Link]) -> Pumped
    requires { length links.old ≤ LINKS }
    ensures pumped { IsPumped G.step session.old links.old session.new links.new result }
    ensures rings { rings_of links.new ≡ rings_of links.old }
{
    let mut applied = 0;
    let mut refused = 0;
    let mut refusal = None;
    let mut held = None;
    for place in 0..links.len() {
        let more = pump_link(session, &mut links[place]);
        applied += more.applied;
        refused += more.refused;
        refusal = more.refusal.or(refusal);
        held = more.held.or(held);
    }
    Pumped {
        applied,
        refused,
        refusal,
        held,
    }
}
