//! What a machine of a match knows of the others, beside its session.
ghost use Rattle.std.specs.Prelude.{◌≡◌, ◌↔◌, None, Some, IsTrue, IsFalse, OnOk, OnErr, IfOk, IfErr};
ghost use Rattle.roll_member.specs.Beside.{met, IsOf};
ghost use Rattle.roll_member.specs.Joined.{held, join_refusal, IsJoinedAs, IsTied};
ghost use Rattle.roll_member.specs.Hearing.{HearsPacket};
ghost use Rattle.roll_member.specs.Leaving.{Leaves};
ghost use Rattle.roll_member.specs.Telling.{queued, IsTold};
ghost use Rattle.roll_mesh.specs.Machines.{leave, left};
ghost use Rattle.roll_mesh.specs.Words.{with_machine};
ghost use Rattle.roll_mesh.specs.Meshes.{hear_refusal, leave_refusal, stepped};

use crate::join::{JoinRefusal, catch_up, give_all, is_near, join_refusal};
use crate::leaving::{Left, disconnect_all};
use crate::telling::{Told, queued, room_for, words_of};
use crate::words::{counts, take_all, up_to, words_heard};
use roll_frame::{Refusal, Settings};
use roll_mesh::{Heard, Mesh, MeshRefusal, Packet, Seat};
use roll_session::Networked;
use std::marker::Model;

/// What became of a packet that wasn't refused.
#[derive(Clone, Copy, Debug, PartialEq, Eq)]
pub struct Taken {
    /// Whether it says that its sender regards this machine as gone.
    pub heard: Heard,
    /// Why the session refused a word of it, if it did: the last of these. The words of that player from there on are left.
    pub refusal: Option<Refusal>,
}

/// What a machine of a match knows of the others, and the settings of its session. The session stands beside it: each call that
/// needs it is lent it, after `meet` has found that it is this match's.
#[derive(Drop)]
pub struct Member {
    limits: Settings,
    mesh: Mesh,
}

/// A clause sees the settings and the mesh.
impl Model for Member {
    ghost use Rattle.roll_member.specs.Beside.{IsSteady, Membership};

    ghost Value = { Membership };

    ghost view = { λ m. record { limits = m.limits; mesh = m.mesh } };

    ghost invariant = { λ m. IsSteady m.mesh };
}

impl Member {
    /// A session takes its seat. Its local players are those that the seat owns. The words with which a player with a delay
    /// begins are the first ones that it gives.
    ///
    /// # Errors
    ///
    /// The first of these that holds: `InvalidSeat` if there are fewer than 2 or more than 8 machines, or this one is none of
    /// them; `Players` if the local players aren't those of the seat, or the players aren't those that some machine owns;
    /// `Started` if the session has words of another machine's player, or a player has left.
    pub fn join<S: Networked>(session: &S, seat: Seat) -> Result<Member, JoinRefusal>
        ensures joined { IfOk result (λ member. IsJoinedAs (S.seen session.now) seat
            (record { session = S.seen session.now; mesh = member.mesh })) }
        ensures limits { IfOk result (λ member. member.limits ≡ (S.seen session.now).settings) }
        ensures tied { IfOk result (λ member. IsTied (S.seen session.now) member.mesh) }
        ensures accepted { OnOk result (join_refusal (S.seen session.now) seat ≡ None) }
        ensures refused { IfErr result (λ why. join_refusal (S.seen session.now) seat ≡ Some why) }
    {
        if let Some(why) = join_refusal(session, &seat) {
            return Err(why);
        }
        match Mesh::new(seat) {
            Ok(mut mesh) => {
                give_all(session, &mut mesh);
                let limits = *session.settings();
                Ok(Member { limits, mesh })
            }
            Err(_) => unreachable!(),
        }
    }

    /// Whether a session is this match's: its settings are those of the session that took the seat; it has of each remote player
    /// the words that the match told it, and no others, and of each own player no fewer than it had; and nobody has left it who
    /// hasn't left the match. Of two sessions of which all this is true it doesn't tell one from the other. If it is, what this
    /// machine's own players have given since is known from now on.
    pub fn meet<S: Networked>(&mut self, session: &S) -> bool
        ensures met { IsTrue result ↔ IsOf (S.seen session.now) self.old }
        ensures known { IsTrue result → self.new ≡ met (S.seen session.now) self.old }
        ensures tied { IsTrue result → IsTied (S.seen session.now) self.new.mesh }
        ensures unchanged { IsFalse result → self.new ≡ self.old }
    {
        if !session.settings().is_same(&self.limits) || !is_near(session, &self.mesh) {
            return false;
        }
        catch_up(session, &mut self.mesh);
        true
    }

    /// Hears a packet, with its words as the packet offers them: those of player 0, then those of player 1, and so on.
    /// Words that are to be believed become remote words of the session, in their order, as far as it takes them. None
    /// is taken of a frame from `end` on: these are left, as if they hadn't come. But of machines that are gone they
    /// are taken, as long as words of frames before `end` are waited for. Of an input's other words just as many are
    /// taken as of its first: room for them is made before, so none of them is refused. Of a packet with fewer words
    /// than it offers those that are there count; where an input has several words, none do.
    ///
    /// # Errors
    ///
    /// Those of the mesh. Nothing is changed then.
    pub fn hear<S: Networked>(
        &mut self,
        session: &mut S,
        packet: &Packet,
        words: &[u32],
        end: u32,
    ) -> Result<Taken, MeshRefusal>
        requires { IsTied (S.seen session.old) self.old.mesh }
        ensures taken { IfOk result (HearsPacket S.step (record {
          session = S.seen session.old;
          mesh = self.old.mesh;
        })
            (record { session = S.seen session.new; mesh = self.new.mesh }) packet.now words.now
            end) }
        ensures tied { IsTied (S.seen session.new) self.new.mesh }
        ensures limits { self.new.limits ≡ self.old.limits }
        ensures accepted { OnOk result (hear_refusal self.old.mesh packet.now ≡ None) }
        ensures refused { IfErr result
            (λ why. hear_refusal self.old.mesh packet.now ≡ Some why) }
        ensures unchanged { OnErr result (self.new ≡ self.old) }
        ensures session { OnErr result (session.new ≡ session.old) }
        ensures keeps { S.keeps session.old session.new }
    {
        if let Some(why) = self.mesh.hear_refusal(packet) {
            return Err(why);
        }
        let seat = *self.mesh.seat();
        let has = *self.mesh.has();
        let most = up_to(&self.mesh, end, &self.mesh.counts_after(packet));
        let words = words_heard(seat.words, &packet.offers, words);
        let refusal = take_all(session, &seat, &packet.offers, words, &has, &most);
        let reached = counts(session, &seat);
        match self.mesh.hear(&packet.trimmed(&reached)) {
            Ok(heard) => Ok(Taken { heard, refusal }),
            Err(_) => unreachable!(),
        }
    }

    /// Regards a machine as gone, from now on and for ever: it isn't listened to any more.
    ///
    /// # Errors
    ///
    /// `InvalidMachine` if there is no such machine, `OwnMachine` if it is this one. Nothing is changed then.
    pub fn leave(&mut self, machine: u8) -> Result<(), MeshRefusal>
        ensures left { OnOk result (self.new ≡ record self.old {
          mesh = stepped (λ seat here. leave seat machine here) self.old.mesh;
        }) }
        ensures accepted { OnOk result (leave_refusal self.old.mesh machine ≡ None) }
        ensures refused { IfErr result (λ why. leave_refusal self.old.mesh machine ≡ Some why) }
        ensures unchanged { OnErr result (self.new ≡ self.old) }
    {
        self.mesh.leave(machine)
    }

    /// Lets the players of the machines that are gone leave, if they may, and disconnects each that has left and isn't
    /// disconnected yet.
    pub fn let_leave<S: Networked>(&mut self, session: &mut S) -> Left
        requires { IsTied (S.seen session.old) self.old.mesh }
        ensures left { Leaves (record { session = S.seen session.old; mesh = self.old.mesh })
            (record { session = S.seen session.new; mesh = self.new.mesh }) result }
        ensures tied { IsTied (S.seen session.new) self.new.mesh }
        ensures limits { self.new.limits ≡ self.old.limits }
        ensures words { held (record { session = S.seen session.new; mesh = self.new.mesh })
            ≡ with_machine (left self.old.mesh.seat)
            (held (record { session = S.seen session.old; mesh = self.old.mesh })) }
        ensures keeps { S.keeps session.old session.new }
    {
        self.mesh.let_leave();
        disconnect_all(session, &self.mesh)
    }

    /// What to tell a machine: what this one knows, and the words that the machine hasn't said that it has, as many as fit.
    pub fn tell<S: Networked>(&self, session: &S, machine: u8) -> Told
        requires { IsTied (S.seen session.now) self.now.mesh }
        ensures { IsTold (record { session = S.seen session.now; mesh = self.now.mesh }) machine
            result.packet result.words.items }
    {
        let room = room_for(&self.mesh, machine);
        let packet = self.mesh.tell(machine, &room);
        let words = words_of(session, &packet);
        Told { packet, words }
    }

    /// How many words that this machine could tell another the other hasn't said that it has, at most 140 of each player.
    pub fn queued(&self, machine: u8) -> u32
        ensures { result ≡ queued self.now.mesh machine }
    {
        queued(&self.mesh, machine)
    }

    /// What this machine knows of the others.
    pub fn mesh(&self) -> &Mesh
        ensures { result.now ≡ self.now.mesh }
    {
        &self.mesh
    }

    /// The settings of the session that took the seat.
    pub fn limits(&self) -> &Settings
        ensures { result.now ≡ self.now.limits }
    {
        &self.limits
    }
}
