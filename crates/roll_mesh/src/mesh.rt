//! What one machine knows of the others.
ghost use Rattle.std.specs.Prelude.{◌≡◌, ◌<◌, Some, None, true, false, OnOk, OnErr, IfOk, IfErr};
ghost use Rattle.roll_mesh.specs.Machines.{give, hear, is_in, leave, left, left_at, may_leave, taken, tell};
ghost use Rattle.roll_mesh.specs.Groups.{is_even, AreEven};
ghost use Rattle.roll_mesh.specs.Meshes.{give_refusal, hear_refusal, heard_as, is_had, is_seat, leave_refusal, stepped};
ghost use Rattle.roll_mesh.specs.Worlds.{first_machine};

use crate::heard::Heard;
use crate::limits::PLAYER_LIMIT;
use crate::machine::Machine;
use crate::packet::Packet;
use crate::refusal::MeshRefusal;
use crate::seat::{Seat, is_in};
use std::marker::Model;

/// One machine of a match: how many words it has of each player, which machines it regards as gone, what the others
/// told, and who has left. Machines and players are counted from 0: player 0 is player 1 of a session.
#[derive(Drop)]
pub struct Mesh {
    seat: Seat,
    machine: Machine,
}

/// A clause sees the seat and what the machine knows.
impl Model for Mesh {
    ghost use Rattle.roll_mesh.specs.Meshes.{IsSeated, Seated};

    ghost Value = { Seated };

    ghost view = { λ m. record { seat = m.seat; machine = m.machine } };

    ghost invariant = { λ m. IsSeated m.seat m.machine };
}

impl Mesh {
    /// A machine at the start of a match: it has no word, was told nothing, and regards no machine as gone.
    ///
    /// # Errors
    ///
    /// `InvalidSeat` if there are fewer than 2 or more than 8 machines, or this one is none of them; or if an input has fewer than 1 or
    /// more than 4 words, or several owners, or more words than there are players left.
    pub fn new(seat: Seat) -> Result<Mesh, MeshRefusal>
        ensures seated { IfOk result
            (λ mesh. mesh ≡ record { seat = seat; machine = first_machine }) }
        ensures accepted { OnOk result (is_seat seat ≡ true) }
        ensures refused { IfErr result (λ why. why ≡ MeshRefusal.InvalidSeat) }
        ensures strange { OnErr result (is_seat seat ≡ false) }
    {
        if !seat.is_seat() {
            return Err(MeshRefusal::InvalidSeat);
        }
        Ok(Mesh {
            seat,
            machine: Machine::new(),
        })
    }

    /// This machine has one more word of a player of its own, 0 to 7: the word of the player's next frame.
    ///
    /// # Errors
    ///
    /// `InvalidPlayer` if this machine owns no such player, `CountFull` if the player has 4,294,967,295 words. The mesh
    /// is then unchanged.
    pub fn give(&mut self, player: u8) -> Result<(), MeshRefusal>
        ensures given { OnOk result (self.new
            ≡ stepped (λ seat machine. give seat player machine) self.old) }
        ensures accepted { OnOk result (give_refusal self.old u32.MAX player ≡ None) }
        ensures refused { IfErr result (λ why. give_refusal self.old u32.MAX player ≡ Some why) }
        ensures unchanged { OnErr result (self.new ≡ self.old) }
    {
        let place = usize::from(player);
        if place >= PLAYER_LIMIT || self.seat.owner_of(place) != self.seat.me {
            return Err(MeshRefusal::InvalidPlayer);
        }
        if self.machine.has[place] == u32::MAX {
            return Err(MeshRefusal::CountFull);
        }
        let seat = self.seat;
        self.machine.give(&seat, place);
        Ok(())
    }

    /// Regards a machine, 0 to 7, as gone, from now on and for ever: it isn't listened to any more.
    ///
    /// # Errors
    ///
    /// `InvalidMachine` if there is no such machine, `OwnMachine` if it is this one. The mesh is then unchanged.
    pub fn leave(&mut self, machine: u8) -> Result<(), MeshRefusal>
        ensures left { OnOk result (self.new
            ≡ stepped (λ seat here. leave seat machine here) self.old) }
        ensures accepted { OnOk result (leave_refusal self.old machine ≡ None) }
        ensures refused { IfErr result (λ why. leave_refusal self.old machine ≡ Some why) }
        ensures unchanged { OnErr result (self.new ≡ self.old) }
    {
        if machine >= self.seat.machines {
            return Err(MeshRefusal::InvalidMachine);
        }
        if machine == self.seat.me {
            return Err(MeshRefusal::OwnMachine);
        }
        let seat = self.seat;
        self.machine.leave(&seat, machine);
        Ok(())
    }

    /// The packet for a machine, with so many words of each player at most. It offers the words that the machine hasn't
    /// said that it has, of this machine's own players, and of those whose owner this machine regards as gone.
    pub fn tell(&self, machine: u8, room: &[u32; PLAYER_LIMIT]) -> Packet
        ensures told { result ≡ tell self.now.seat machine room.now self.now.machine }
        ensures had { is_had result ≡ true }
        ensures even { AreEven self.now.seat self.now.machine room.now
            → is_even self.now.seat result ≡ true }
    {
        self.machine.tell(&self.seat, machine, room)
    }

    /// Hears a packet. Whom it calls gone is gone here too, except this machine. Of its words those are taken that go
    /// on from the words that are there, if the player hasn't left, and the sender owns the player or both regard the
    /// owner as gone. A view that is older than the sender's last one is passed over. A packet that tells what isn't so
    /// is heard as any other: whom it calls gone is believed.
    ///
    /// # Errors
    ///
    /// The first of these that holds: `InvalidMachine` if there is no such sender, `OwnMachine` if it is this machine,
    /// `MachineGone` if it is regarded as gone, `Overstated` if the packet has words that its sender doesn't say that
    /// it has, `Uneven` if it has other frames or another count of one word of an input than of another. The mesh is then unchanged.
    pub fn hear(&mut self, packet: &Packet) -> Result<Heard, MeshRefusal>
        ensures heard { IfOk result (λ heard. heard ≡ heard_as self.old packet.now) }
        ensures taken { OnOk result (self.new
            ≡ stepped (λ seat machine. hear seat packet.now machine) self.old) }
        // A packet that a mesh of this match told is a step of the laws, whether it is taken or refused.
        ensures step { is_had packet.now ≡ true → is_even self.old.seat packet.now ≡ true
            → packet.now.sender < self.old.seat.machines
            → self.new ≡ stepped (λ seat machine. hear seat packet.now machine) self.old }
        ensures accepted { OnOk result (hear_refusal self.old packet.now ≡ None) }
        ensures refused { IfErr result (λ why. hear_refusal self.old packet.now ≡ Some why) }
        ensures unchanged { OnErr result (self.new ≡ self.old) }
    {
        if let Some(why) = self.hear_refusal(packet) {
            return Err(why);
        }
        let seat = self.seat;
        self.machine.take(&seat, packet);
        Ok(if is_in(&packet.view.gone, seat.me) {
            Heard::Dropped
        } else {
            Heard::Taken
        })
    }

    /// Why `hear` refuses a packet. None if it doesn't.
    pub fn hear_refusal(&self, packet: &Packet) -> Option<MeshRefusal>
        ensures { result ≡ hear_refusal self.now packet.now }
    {
        if packet.sender >= self.seat.machines {
            Some(MeshRefusal::InvalidMachine)
        } else if packet.sender == self.seat.me {
            Some(MeshRefusal::OwnMachine)
        } else if is_in(&self.machine.gone, packet.sender) {
            Some(MeshRefusal::MachineGone)
        } else if !packet.is_had() {
            Some(MeshRefusal::Overstated)
        } else if !packet.is_even(&self.seat) {
            Some(MeshRefusal::Uneven)
        } else {
            None
        }
    }

    /// How many words of each player there are once `hear` has taken a packet, player 0 first.
    pub fn counts_after(&self, packet: &Packet) -> [u32; PLAYER_LIMIT]
        ensures taken { result ≡ (taken self.now.seat packet.now self.now.machine).has }
        ensures heard { hear_refusal self.now packet.now ≡ None
            → result ≡ (hear self.now.seat packet.now self.now.machine).has }
    {
        self.machine.counts_taken(&self.seat, packet)
    }

    /// Whether the players of the machines that are gone may leave: each other machine that isn't gone has told last
    /// the same gone machines as this one regards so, and as many words of their players as this one has.
    pub fn may_leave(&self) -> bool
        ensures { result ≡ may_leave self.now.seat self.now.machine }
    {
        self.machine.may_leave(&self.seat)
    }

    /// Lets the players of the machines that are gone leave, if they may: each at the number of its words here, from
    /// now on and for ever. Else nothing changes.
    pub fn let_leave(&mut self)
        ensures { self.new ≡ stepped left self.old }
    {
        let seat = self.seat;
        self.machine.let_leave(&seat);
    }

    /// Whether a machine, 0 to 7, is regarded as gone. No other number is.
    pub fn is_gone(&self, machine: u8) -> bool
        ensures { result ≡ is_in self.now.machine.gone machine }
    {
        is_in(&self.machine.gone, machine)
    }

    /// The number of words at which a player, 0 to 7, has left. None if it hasn't, or if there is no such player.
    pub fn left(&self, player: u8) -> Option<u32>
        ensures { result ≡ left_at self.now.machine player }
    {
        self.machine.left_at(player)
    }

    /// What the machine knows.
    pub(crate) fn machine(&self) -> &Machine
        ensures { result.now ≡ self.now.machine }
    {
        &self.machine
    }

    /// Where this machine sits in the match.
    pub fn seat(&self) -> &Seat
        ensures { result.now ≡ self.now.seat }
    {
        &self.seat
    }

    /// How many words of each player this machine has, player 0 first.
    pub fn has(&self) -> &[u32; PLAYER_LIMIT]
        ensures { result.now ≡ self.now.machine.has }
    {
        &self.machine.has
    }
}
