//! Who may come: by a ticket that says so itself, so that all machines judge it alike.
ghost use Rattle.std.specs.Prelude.{◌≡◌};
ghost use Rattle.roll_chain.specs.Comers.{is_vouched, is_vouched_for, ticket_for};

use roll_epoch::hash_of;
use roll_wire::Newcomer;

/// How much the first half of a ticket counts.
const HALF: u64 = 4_294_967_296;

/// The ticket by which one of this name may come to a match with this number of comers. Its second half is the name.
pub fn ticket_for(comers: u64, name: u32) -> u64
    ensures { result ≡ ticket_for comers name }
{
    hash_of(comers, u64::from(name)) / HALF * HALF + u64::from(name)
}

/// Whether a ticket is one of those.
fn is_vouched_for(comers: u64, ticket: u64) -> bool
    ensures { result ≡ is_vouched_for comers ticket }
{
    comers == 0 || hash_of(comers, ticket % HALF) / HALF == ticket / HALF
}

/// Whether whoever is to come by a mark may, if somebody is.
pub(crate) fn is_vouched(comers: u64, newcomer: Option<Newcomer>) -> bool
    ensures { result ≡ is_vouched comers newcomer }
{
    match newcomer {
        Some(newcomer) => is_vouched_for(comers, newcomer.ticket),
        None => true,
    }
}
