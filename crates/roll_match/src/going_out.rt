//! What goes out by the network.
ghost use Rattle.std.specs.Prelude.{◌≡◌, ◌<◌, ◌+◌, option_map};
ghost use Rattle.roll_match.specs.GoingOut.{GoesOut, IsBeside, PlaysTo, SendsAt, SendsEarlier, SendsHere};

use crate::lasting::Lasting;
use crate::one::Match;
use arrayvec::ArrayVec;
use roll_wire::DATAGRAM_LIMIT;

/// The bytes of a datagram.
type Bytes = ArrayVec<u8, DATAGRAM_LIMIT>;

/// At how many places something may go straight in a turn: to each of eight machines, in this epoch and in the one before.
pub(crate) const PLACES: u8 = 16;

impl<S: Lasting> Match<S> {
    /// The next datagram of this turn, of at most 1,200 bytes, and the machine that it goes to, from 0. None once all have gone out in
    /// this turn. Call it until it is None, after `turn` and once the session has played.
    ///
    /// Datagrams of all kinds are among them: hellos, plays and byes, what is carried for other machines, and what is for machines that
    /// are still in the epoch before. They may be lost, come late, or come twice. Where none can be made, since the session isn't the
    /// match's or has no room for the inputs that wait for it, none is, and `turn` says why.
    pub fn next(&mut self, session: &mut S) -> Option<(u8, Bytes)>
        ensures out { GoesOut S.Past.seen (S.seen session.old) (S.seen session.new) self.old self.new
            (option_map (λ x. (x.0, x.1.items)) result) }
        ensures keeps { S.keeps session.old session.new }
    {
        let first = self.gone_out;
        for place in first..PLACES {
            if let Some(bytes) = self.send_at(session, place) {
                return Some((place / 2, bytes));
            }
        }
        self.next_beside()
    }

    /// What goes straight at a place.
    fn send_at(&mut self, session: &mut S, place: u8) -> Option<Bytes>
        requires { place < PLACES }
        ensures sent { SendsAt S.Past.seen place (S.seen session.old) (S.seen session.new) self.old
            self.new (option_map (λ bytes. bytes.items) result) }
        ensures keeps { S.keeps session.old session.new }
    {
        self.gone_out = place + 1;
        if place % 2 == 0 {
            self.send_here(session, place / 2)
        } else {
            self.send_earlier(place / 2)
        }
    }

    /// What goes out beside what goes straight.
    fn next_beside(&mut self) -> Option<(u8, Bytes)>
        ensures { IsBeside self.old self.new (option_map (λ x. (x.0, x.1.items)) result) }
    {
        match self.relay.next(&self.peer) {
            Some(first) => Some(first),
            None => self.epochs.next(),
        }
    }

    /// What goes straight to a machine in this epoch: a bye, once this machine leaves.
    fn send_here(&mut self, session: &mut S, machine: u8) -> Option<Bytes>
        ensures sent { SendsHere machine (S.seen session.old) (S.seen session.new) self.old self.new
            (option_map (λ bytes. bytes.items) result) }
        ensures keeps { S.keeps session.old session.new }
    {
        match self.leaving {
            Some(why) => self.relay.bye(&self.peer, machine, why),
            None => self.play_to(session, machine),
        }
    }

    /// What goes there as long as this machine stays.
    fn play_to(&mut self, session: &mut S, machine: u8) -> Option<Bytes>
        ensures sent { PlaysTo machine (S.seen session.old) (S.seen session.new) self.old self.new
            (option_map (λ bytes. bytes.items) result) }
        ensures keeps { S.keeps session.old session.new }
    {
        match self.held.send(
            &mut self.relay,
            &mut self.peer,
            session,
            machine,
            self.moment,
        ) {
            Ok(Ok(sent)) => sent,
            Ok(Err(_)) => None,
            Err(_) => None,
        }
    }

    /// What goes straight to a machine that may still be in the epoch before.
    fn send_earlier(&mut self, machine: u8) -> Option<Bytes>
        ensures { SendsEarlier S.Past.seen machine self.old self.new
            (option_map (λ bytes. bytes.items) result) }
    {
        match self.epochs.send(machine, self.moment) {
            Ok(sent) => sent,
            Err(_) => None,
        }
    }
}
