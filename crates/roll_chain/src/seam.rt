//! How the next epoch opens.
ghost use Rattle.std.specs.Prelude.{◌≡◌, ◌≢◌, ◌≤◌, ◌<◌, ◌+◌, ◌*◌, IfErr, IfNone, IfOk, IfSome, None, OnErr, OnOk};
ghost use Rattle.roll_epoch.specs.declared.marks.Ending.{Ending};
ghost use Rattle.roll_frame.specs.declared.limits.TheConstants.{FRAME_LIMIT};
ghost use Rattle.roll_member.specs.Joined.{join_refusal};
ghost use Rattle.roll_mesh.specs.declared.limits.TheConstants.{PLAYER_LIMIT};
ghost use Rattle.roll_peer.specs.Following.{IsFollowedAs};
ghost use Rattle.roll_peer.specs.Peered.{IsWhyNot};
ghost use Rattle.roll_peer.specs.Settings.{seat_of};
ghost use Rattle.std.specs.Int.{from_bool};
ghost use Rattle.roll_chain.specs.Chains.{settings_in};
ghost use Rattle.roll_chain.specs.Judging.{IsOver};
ghost use Rattle.roll_chain.specs.Seams.{followed_by, local_bits, local_delay, local_delays, opening_after, session_settings};

use crate::chain::Chain;
use crate::rows::lefts;
use crate::seating::{seating, stay_where};
use roll_epoch::{Ending, Terms};
use roll_frame::Settings;
use roll_member::settings_after;
use roll_mesh::{MACHINE_LIMIT, PLAYER_LIMIT};
use roll_peer::{OpenRefusal, Peer, Seating};
use roll_session::Networked;
use std::alloc::Global;
use std::mem;

/// How the next epoch opens at this machine.
#[derive(Clone, Copy, Debug)]
pub(crate) struct Opening {
    /// Its terms.
    pub terms: Terms,
    /// The settings with which its session starts. It has no local player if this machine isn't in the epoch: it left this one, for the
    /// others. Such a session doesn't start.
    pub settings: Settings,
    /// The frame at which this epoch ended: the state there is the one with which the session starts.
    pub end: u32,
    /// Who sits where.
    pub seating: [Seating; MACHINE_LIMIT],
}

impl Chain {
    /// How the next epoch opens, if this one is over for this machine.
    pub(crate) fn opening<S: Networked>(&self, peer: &Peer, session: &S) -> Option<Opening>
        ensures opens { IfSome result (λ opening. (e : Ending) × IsOver (S.seen session.now)
            self.now peer.now e × (opening ≡ opening_after (S.seen session.now) self.now peer.now
            e)) }
        ensures not { IfNone result ((e : Ending) → IsOver (S.seen session.now) self.now peer.now e
            → ⊥) }
    {
        session.laws();
        let ending = self.over(peer, session)?;
        Some(self.opening_after(peer, session, &ending))
    }

    /// How the next epoch opens after such an end.
    fn opening_after<S: Networked>(&self, peer: &Peer, session: &S, ending: &Ending) -> Opening
        requires { ending.now.frame ≤ FRAME_LIMIT }
        ensures { result ≡ opening_after (S.seen session.now) self.now peer.now ending.now }
    {
        let left = lefts(peer.mesh());
        let terms = self.terms.successor(ending, &left);
        Opening {
            terms,
            settings: session_settings(settings_after(session, ending.frame), &terms, self.base.me),
            end: ending.frame,
            seating: seating(&self.terms, &terms, ending.frame, &left),
        }
    }

    /// Goes on in the next epoch, beside its session, which starts as the opening says: the peer is that of the next epoch from now on.
    /// Answers the peer of this one.
    ///
    /// # Errors
    ///
    /// As of a peer that is opened. Nothing is changed then.
    pub(crate) fn follow<S: Networked>(
        &mut self,
        alloc: Global,
        peer: &mut Peer,
        session: &S,
        opening: &Opening,
    ) -> Result<Peer, OpenRefusal>
        ensures followed { OnOk result (IsFollowedAs (S.seen session.now)
            (settings_in self.old opening.now.terms) peer.old opening.now.seating peer.new) }
        ensures past { IfOk result (λ past. past ≡ peer.old) }
        ensures chain { OnOk result (self.new ≡ followed_by self.old opening.now) }
        ensures accepted { OnOk result (join_refusal (S.seen session.now)
            (seat_of (settings_in self.old opening.now.terms)) ≡ None) }
        ensures refused { IfErr result
            (IsWhyNot (S.seen session.now) (settings_in self.old opening.now.terms)) }
        ensures unchanged { OnErr result (self.new ≡ self.old) }
        ensures peer { OnErr result (peer.new ≡ peer.old) }
    {
        let settings = self.settings_in(&opening.terms);
        let next = peer.follow(alloc, session, settings, &opening.seating)?;
        *self = Chain {
            terms: opening.terms,
            stays: stay_where(&opening.seating),
            ..*self
        };
        Ok(mem::replace(peer, next))
    }
}

/// The settings of an epoch's session at a machine: its own players are local, with their delays, and the threshold is the epoch's.
pub fn session_settings(after: Settings, terms: &Terms, me: u8) -> Settings
    ensures { result ≡ session_settings after terms.now me }
{
    Settings {
        local: local_bits(&terms.owners, me),
        delays: local_delays(terms, me),
        threshold: u32::from(terms.threshold),
        ..after
    }
}

/// The players of a machine: bit p for player p, counted from 0.
fn local_bits(owners: &[u8; PLAYER_LIMIT], me: u8) -> u8
    ensures { result ≡ local_bits owners.now me }
{
    let low = four_bits(
        owners[0] == me,
        owners[1] == me,
        owners[2] == me,
        owners[3] == me,
    );
    let high = four_bits(
        owners[4] == me,
        owners[5] == me,
        owners[6] == me,
        owners[7] == me,
    );
    low + 16 * high
}

/// Four bits as a number, the lowest first.
fn four_bits(a: bool, b: bool, c: bool, d: bool) -> u8
    ensures number { result ≡ from_bool a + 2 *
        (from_bool b + 2 * (from_bool c + 2 * from_bool d)) }
    ensures below { result < 16 }
{
    u8::from(a) + 2 * (u8::from(b) + 2 * (u8::from(c) + 2 * u8::from(d)))
}

/// A player's delay in a session of a machine: 0 unless it is its own.
fn local_delay(terms: &Terms, me: u8, player: usize) -> u32
    requires { player < PLAYER_LIMIT }
    ensures { result ≡ local_delay terms.now me player }
{
    if terms.owners[player] == me {
        u32::from(terms.delays[player])
    } else {
        0
    }
}

/// Each player's.
fn local_delays(terms: &Terms, me: u8) -> [u32; PLAYER_LIMIT]
    ensures { result ≡ local_delays terms.now me }
{
    let mut delays = [0; PLAYER_LIMIT];
    for player in 0..PLAYER_LIMIT {
        delays[player] = local_delay(terms, me, player);
    }
    delays
}
