//! What a match tells its program, and is told by it.
ghost use Rattle.std.specs.Prelude.{◌≡◌, None, Some, slice_get, IfErr, OnErr, OnOk};
ghost use Rattle.roll_frame.specs.Core.{settled};
ghost use Rattle.roll_match.specs.Telling.{putting_out, Marks, MarksTold};
ghost use Rattle.roll_mesh.specs.Meshes.{leave_refusal};
ghost use Rattle.roll_peer.specs.Digests.{noted};
ghost use Rattle.roll_peer.specs.Events.{popped};

use crate::lasting::Lasting;
use crate::one::Match;
use crate::unheard::Unmarked;
use roll_mesh::MeshRefusal;
use roll_peer::PeerEvent;
use roll_wire::Mark;

impl<S: Lasting> Match<S> {
    /// What happened, the oldest first. None once all was told. If 64 events wait, the oldest is dropped for a new one. Those that wait
    /// where an epoch ends are told in the next one.
    pub fn event(&mut self) -> Option<PeerEvent>
        ensures event { result ≡ slice_get self.old.peer.waiting.events 0 }
        ensures rest { self.new ≡ record self.old {
          peer = record self.old.peer { waiting = popped self.old.peer.waiting };
        } }
    {
        self.peer.next_event()
    }

    /// Puts a mark on the next input of a player of this machine, which says what is to be otherwise in the next epoch: this one ends by
    /// it. The player is counted from 1, and is the first word of its input. Answers the frame of that input. The session gets all inputs
    /// that wait first.
    ///
    /// # Errors
    ///
    /// The first of these that holds: all machines would find the mark void; the session has no room for the inputs that wait, or isn't
    /// the match's; the player takes no mark. Nothing else changed then, but the session may have got what waited.
    pub fn mark(&mut self, session: &mut S, player: u8, mark: Mark) -> Result<u32, Unmarked>
        ensures marked { Marks S.seen player mark session.old session.new self.old self.new result }
        ensures keeps { S.keeps session.old session.new }
    {
        match self.epochs.chain.mark_fault(player, &mark) {
            Some(why) => Err(Unmarked::Void(why)),
            None => match self.tell_all(session) {
                Ok(()) => self.mark_told(session, player, mark),
                Err(why) => Err(Unmarked::Held(why)),
            },
        }
    }

    /// The same beside a session that was given all that waited.
    fn mark_told(&mut self, session: &S, player: u8, mark: Mark) -> Result<u32, Unmarked>
        ensures { MarksTold (S.seen session.now) player mark self.old self.new result }
    {
        match self.peer.mark(session, player, mark) {
            Ok(frame) => Ok(frame),
            Err(why) => Err(Unmarked::Refused(why)),
        }
    }

    /// Notes a digest of the state that the session has settled, 64 bits that are equal where the state is: by it the machines see that
    /// they play the same game. Call it once in each turn, after the session has played. If another machine has noted another one for
    /// the frame, `Desync` tells it.
    pub fn note(&mut self, session: &S, digest: u64)
        ensures { self.new ≡ record self.old {
          peer = record self.old.peer {
            digests = noted (settled (S.seen session.now).core) digest self.old.peer.digests;
          };
        } }
    {
        self.peer.note_state_at(session.settled(), digest);
    }

    /// This machine leaves the match. From now on `next` gives byes in the place of plays, which say why: a number of the program's own,
    /// which `Left` tells at the other machines. Since byes may be lost, make some more turns before the match is let go.
    pub fn leave(&mut self, why: u8)
        ensures { self.new ≡ record self.old { leaving = Some why } }
    {
        self.leaving = Some(why);
    }

    /// Regards another machine, from 0, as gone, from now on and for ever: its players leave the session in the next turn.
    ///
    /// # Errors
    ///
    /// If there is no such machine, or it is this one. Nothing is changed then.
    pub fn disconnect(&mut self, machine: u8) -> Result<(), MeshRefusal>
        ensures gone { OnOk result (self.new ≡ record self.old {
          peer = putting_out machine self.old.peer;
        }) }
        ensures accepted { OnOk result
            (leave_refusal self.old.peer.member.mesh machine ≡ None) }
        ensures refused { IfErr result
            (λ why. leave_refusal self.old.peer.member.mesh machine ≡ Some why) }
        ensures unchanged { OnErr result (self.new ≡ self.old) }
    {
        self.peer.disconnect(machine)
    }

    /// Gives what the session of the next epoch needs, without which an epoch that is over doesn't end: an engine of the game, other
    /// than the session's own, which `turn` hands out where the epoch ends. Where the game is elsewhere it is `()`, and says that the
    /// game has carried out all requests so far. It is used up where an epoch ends.
    pub fn give_engine(&mut self, engine: S::Engine)
        ensures { self.new ≡ record self.old { engine = Some engine } }
    {
        self.engine = Some(engine);
    }
}
