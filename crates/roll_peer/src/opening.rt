//! What a match is opened with.
ghost use Rattle.std.specs.Prelude.{◌≡◌, true, None, IfErr, IfOk, OnOk};
ghost use Rattle.roll_member.specs.Joined.{join_refusal, IsJoinedAs, IsTied};
ghost use Rattle.roll_peer.specs.Peered.{IsWhyNot};
ghost use Rattle.roll_peer.specs.Settings.{are_delayed_alike, seat_of};

use crate::refusal::OpenRefusal;
use crate::settings::MatchSettings;
use roll_member::Member;
use roll_session::Networked;

/// A session takes its seat, if its own inputs have one delay each.
pub(crate) fn take_seat<S: Networked>(
    session: &S,
    settings: &MatchSettings,
) -> Result<Member, OpenRefusal>
    ensures joined { IfOk result (λ member. IsJoinedAs (S.seen session.now) (seat_of settings.now)
        (record { session = S.seen session.now; mesh = member.mesh })) }
    ensures limits { IfOk result (λ member. member.limits ≡ (S.seen session.now).settings) }
    ensures tied { IfOk result (λ member. IsTied (S.seen session.now) member.mesh) }
    ensures accepted { OnOk result (join_refusal (S.seen session.now) (seat_of settings.now) ≡
        None) }
    ensures delayed { OnOk result (are_delayed_alike (S.seen session.now).settings settings.now ≡
        true) }
    ensures refused { IfErr result (IsWhyNot (S.seen session.now) settings.now) }
{
    if !settings.are_delayed_alike(session.settings()) {
        return Err(OpenRefusal::Delays);
    }
    match Member::join(session, settings.seat()) {
        Ok(member) => Ok(member),
        Err(why) => Err(OpenRefusal::Join(why)),
    }
}
