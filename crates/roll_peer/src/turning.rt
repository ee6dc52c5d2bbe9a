//! A turn: silent machines are gone, players leave, and the session goes on.
ghost use Rattle.std.specs.Prelude.{◌≡◌, ◌<◌, ◌≤◌, true, false, None, Some, Err, IfErr, OnOk, if◌then◌else◌, slice_get};
ghost use Rattle.std.specs.Option.{option_map_or};
ghost use Rattle.roll_member.specs.Joined.{IsTied};
ghost use Rattle.roll_mesh.specs.HoldingUp.{is_free};
ghost use Rattle.roll_mesh.specs.declared.limits.TheConstants.{MACHINE_LIMIT};
ghost use Rattle.roll_peer.specs.Receiving.{meeting, moment_of, ticking};
ghost use Rattle.roll_peer.specs.Rolling.{RollsOnce, TurnsOnce};
ghost use Rattle.roll_session.specs.Changes.{after_sync, sync_refusal, IsRollRefused};
ghost use Rattle.roll_peer.specs.Turning.{are_ready, before_end, begun, ends_in_roll, farewell_at, farewell_until, has_begun, has_come, has_waited, hushed_at, hushed_until, is_absent, is_coming, is_due, is_graft, is_late, is_missed, is_mistaken, is_out, is_ready_at, is_roll, is_stalled, looked_after, missed_at, missed_until, moved_to, or_taking, over, overtime, plays_on, silenced_at, silenced_until, stall_limit, stall_told, stays_behind, strangers_told, time_left, timed, wait_of_words, waited_for, watched_at, watched_until, IsParted, IsPolled, IsUpToDate, Plays, Polls, Turns};

use crate::event::PeerEvent;
use crate::peer::Peer;
use crate::refusal::PeerRefusal;
use crate::stall::Wait;
use roll_contact::since;
use roll_frame::{DELAY_LIMIT, Refusal};
use roll_game::Game;
use roll_session::{Call, Log, Logged, Networked, Reached, Session};

impl Peer {
    /// A turn of the main loop, at a moment: a `poll`, and once the match has begun, the session goes to its next frame if its local
    /// words are there, and says so; else it rolls back, if anything but branches was accepted since it last did.
    ///
    /// # Errors
    ///
    /// `OtherSession` if the session isn't this match's: nothing changed then but the clock. Else those of the session: the turn was
    /// made as far as that, and the next one goes on from there.
    pub fn turn<G: Game>(
        &mut self,
        session: &mut Session<G>,
        now: u32,
    ) -> Result<Option<Reached>, PeerRefusal>
        ensures turned { Turns session.old session.new (ticking now self.old) self.new result }
        ensures shown { OnOk result (self.new.running ≡ true → IsUpToDate session.new) }
        ensures once { TurnsOnce G.step session.old session.new
            (result ≡ Err (PeerRefusal.Session Refusal.NoMemory)) }
    {
        self.poll(session, now)?;
        if !self.running {
            return Ok(None);
        }
        match play(session) {
            Ok(reached) => Ok(reached),
            Err(why) => Err(PeerRefusal::Session(why)),
        }
    }

    /// What a turn does before it plays, for a main loop that calls the session's `synchronize_input` and `advance_frame` itself.
    /// Machines that were silent for too long, or held up the match, are gone from now on, the players of who is gone leave if they
    /// may, and the match begins once all machines have heard each other. If the session has come to another frame since the last
    /// poll, it is noted how far the machines are from one another. It changes nothing of a session but who has left.
    /// As long as this machine hears too few of the others, it calls nobody gone for being silent, coming late or
    /// holding up the match ([`PeerEvent::CutOff`]).
    ///
    /// # Errors
    ///
    /// `OtherSession` if the session isn't this match's: nothing changed then but the clock. `LogFull` or `NoMemory` if a player who
    /// is to leave is still in the session: all else is done, and the next poll tries it again.
    pub fn poll<S: Networked>(&mut self, session: &mut S, now: u32) -> Result<(), PeerRefusal>
        ensures polled { IsPolled (S.seen session.old) (S.seen session.new) (ticking now self.old)
            self.new result }
        ensures keeps { S.keeps session.old session.new }
    {
        self.clock.tick(now);
        if !self.member.meet(session) {
            return Err(PeerRefusal::OtherSession);
        }
        match self.poll_now(session) {
            None => Ok(()),
            Some(why) => Err(PeerRefusal::Session(why)),
        }
    }

    /// A poll at the moment that the clock shows. Why a player who is to leave is still there, if so.
    fn poll_now<S: Networked>(&mut self, session: &mut S) -> Option<Refusal>
        requires { IsTied (S.seen session.old) self.old.member.mesh }
        ensures polled { Polls (S.seen session.old) (S.seen session.new) self.old self.new result }
        ensures tied { IsTied (S.seen session.new) self.new.member.mesh }
        ensures keeps { S.keeps session.old session.new }
    {
        self.look_after(session.frame());
        let refusal = self.part(session);
        self.begin();
        refusal
    }

    /// Who is silent, or holds up the match, or hasn't come; and how far the machines are from one another.
    fn look_after(&mut self, frame: u32)
        ensures { self.new ≡ looked_after (moment_of self.old) self.old.settings.machines
            (moved_to frame self.old) }
    {
        let now = self.clock.moment;
        let machines = self.settings.machines;
        self.move_to(frame);
        self.note_most(now);
        self.silence(machines, now);
        self.watch(machines, now);
        self.hush(machines, now);
        self.miss(machines, now);
        self.tell_strangers(now);
        self.tell_desyncs(machines, now);
        self.tell_who_is_gone(machines);
    }

    /// If the session has come to another frame, that is noted.
    fn move_to(&mut self, frame: u32)
        ensures { self.new ≡ moved_to frame self.old }
    {
        if frame != self.frame {
            self.frame = frame;
            self.note_pace();
        }
    }

    /// Machines that were silent for too long are gone.
    #[tactic(auto, using(crate::proofs::Untils::silenced_none, crate::proofs::Untils::silenced_next))]
    fn silence(&mut self, machines: u8, now: u32)
        requires { machines ≤ MACHINE_LIMIT }
        ensures { self.new ≡ silenced_until now machines self.old }
    {
        for machine in 0..machines {
            self.silence_one(machine, now);
        }
    }

    /// A machine is gone if it was silent for too long, or hasn't come for too long, unless this machine hears too few.
    fn silence_one(&mut self, machine: u8, now: u32)
        requires { machine < MACHINE_LIMIT }
        ensures { self.new ≡ silenced_at now machine self.old }
    {
        if self.is_out(machine, now) {
            let _ = self.member.leave(machine);
        }
    }

    fn is_out(&self, machine: u8, now: u32) -> bool
        requires { machine < MACHINE_LIMIT }
        ensures { result ≡ is_out self.now now machine }
    {
        let contact = self.contacts[usize::from(machine)];
        let is_silent = contact.is_silent(now, self.settings.silent_after);
        self.cut_off.hears_most && (is_silent || self.is_late(machine, now))
    }

    /// Whether a machine hasn't come to this epoch for too long.
    fn is_late(&self, machine: u8, now: u32) -> bool
        requires { machine < MACHINE_LIMIT }
        ensures { result ≡ is_late self.now now machine }
    {
        self.running && (self.is_absent(machine, now) || self.stays_behind(machine, now))
    }

    /// Whether a machine was never heard, and is waited for no longer.
    fn is_absent(&self, machine: u8, now: u32) -> bool
        requires { machine < MACHINE_LIMIT }
        ensures { result ≡ is_absent self.now now machine }
    {
        !self.is_ready(machine) && self.overtime(now) > self.settings.silent_after
    }

    /// Whether a machine is heard and doesn't play on, though whoever could keep it from that would be gone by now.
    fn stays_behind(&self, machine: u8, now: u32) -> bool
        requires { machine < MACHINE_LIMIT }
        ensures { result ≡ stays_behind self.now now machine }
    {
        let kept = u64::from(self.settings.silent_after) + u64::from(self.settings.stalled_after);
        self.is_due(machine, now) && u64::from(self.overtime(now)) > kept
    }

    /// Whether a machine that doesn't play on in this epoch will be gone for that.
    fn is_due(&self, machine: u8, now: u32) -> bool
        requires { machine < MACHINE_LIMIT }
        ensures { result ≡ is_due self.now now machine }
    {
        self.follows && !self.plays_on(machine, now) && self.settings.stalled_after > 0
    }

    /// For how long this network has been open past the time after which one that was silent in the epoch before is gone.
    fn overtime(&self, now: u32) -> u32
        ensures { result ≡ overtime self.now now }
    {
        since(now, self.opened).saturating_sub(self.settings.patience())
    }

    /// Whether a machine plays on in this epoch, or needn't.
    fn plays_on(&self, machine: u8, now: u32) -> bool
        requires { machine < MACHINE_LIMIT }
        ensures { result ≡ plays_on self.now now machine }
    {
        let mesh = self.member.mesh();
        machine == mesh.seat().me
            || mesh.is_gone(machine)
            || self.has_come(machine, now) && self.has_begun(machine)
    }

    /// Whether a machine has told its clocks in this epoch.
    #[tactic(auto, unfolding(crate::specs::Turning::has_come))]
    fn has_come(&self, machine: u8, now: u32) -> bool
        requires { machine < MACHINE_LIMIT }
        ensures { result ≡ has_come self.now now machine }
    {
        let place = usize::from(machine);
        let came = match self.contacts[place].their_clocks {
            Some(theirs) => since(now, theirs.heard_at) < since(now, self.opened),
            None => false,
        };
        self.stalls[place].came || came
    }

    /// Machines that hold up the match are watched.
    #[tactic(auto, using(crate::proofs::Untils::watched_none, crate::proofs::Untils::watched_next))]
    fn watch(&mut self, machines: u8, now: u32)
        requires { machines ≤ MACHINE_LIMIT }
        ensures { self.new ≡ watched_until now machines self.old }
    {
        for machine in 0..machines {
            self.watch_one(machine, now);
        }
    }

    #[tactic(auto, unfolding(crate::specs::Turning::watched_at))]
    fn watch_one(&mut self, machine: u8, now: u32)
        requires { machine < MACHINE_LIMIT }
        ensures { self.new ≡ watched_at now machine self.old }
    {
        self.time(machine, now);
        self.tell_stall(machine, now);
        if self.is_stalled(machine, now) {
            let _ = self.member.leave(machine);
        }
    }

    /// Whether a machine has held up the match for too long, and nobody else keeps it from beginning or coming.
    fn is_stalled(&self, machine: u8, now: u32) -> bool
        requires { machine < MACHINE_LIMIT }
        ensures { result ≡ is_stalled self.now now machine }
    {
        let stall = self.stalls[usize::from(machine)];
        self.cut_off.hears_most
            && self.has_begun(machine)
            && !self.is_coming(machine, now)
            && stall.is_overdue(now, self.stall_limit(machine))
    }

    /// Notes for how long a machine has held up the match, and whether it has begun and come.
    fn time(&mut self, machine: u8, now: u32)
        requires { machine < MACHINE_LIMIT }
        ensures { self.new ≡ timed now machine self.old }
    {
        let place = usize::from(machine);
        let mut stall = self.stalls[place];
        stall.watch(self.waited_for(machine, now), now);
        stall.begun = self.has_begun(machine);
        stall.came = self.has_come(machine, now);
        self.stalls[place] = stall;
    }

    /// Tells for how long a machine has held up the match, if that is due.
    fn tell_stall(&mut self, machine: u8, now: u32)
        requires { machine < MACHINE_LIMIT }
        ensures { self.new ≡ stall_told now machine self.old }
    {
        let place = usize::from(machine);
        let stall = self.stalls[place];
        if stall.is_to_tell(now, self.settings.notify_after) {
            let disconnect_in = self.time_left(machine, now);
            self.stalls[place].told = true;
            self.events.push(PeerEvent::Stalled {
                machine,
                disconnect_in,
            });
        }
    }

    /// After how many milliseconds more a machine is gone for holding up the match, 0 if it isn't at all.
    fn time_left(&self, machine: u8, now: u32) -> u32
        requires { machine < MACHINE_LIMIT }
        ensures { result ≡ time_left self.now now machine }
    {
        if self.is_due(machine, now) {
            let opened_for = since(now, self.opened);
            self.settings.farthest().saturating_sub(opened_for)
        } else if self.has_begun(machine) {
            let lasted = self.stalls[usize::from(machine)].lasted(now);
            self.stall_limit(machine).saturating_sub(lasted)
        } else {
            0
        }
    }

    /// For how many milliseconds a machine may hold up the match, 0 if it may for ever.
    fn stall_limit(&self, machine: u8) -> u32
        requires { machine < MACHINE_LIMIT }
        ensures { result ≡ stall_limit self.now self.now.member.mesh machine }
    {
        let stalled_after = self.settings.stalled_after;
        let is_taking = self.stalls[usize::from(machine)].is_taking();
        if stalled_after == 0 {
            0
        } else if !is_taking && self.is_free(machine) {
            stalled_after
        } else {
            self.settings.patience().saturating_add(stalled_after)
        }
    }

    /// Whether nothing can keep a machine from going on that this one doesn't see.
    fn is_free(&self, machine: u8) -> bool
        ensures { result ≡ is_free self.now.member.mesh.seat self.now.member.mesh.machine
            self.now.member.limits.threshold machine }
    {
        self.member
            .mesh()
            .is_free(machine, self.member.limits().threshold)
    }

    /// Whether a machine has ever shown that it is past its first frame: one that hasn't may be kept from beginning by others.
    #[tactic(auto, unfolding(crate::specs::Turning::has_begun))]
    pub(crate) fn has_begun(&self, machine: u8) -> bool
        requires { machine < MACHINE_LIMIT }
        ensures { result ≡ has_begun self.now machine }
    {
        let place = usize::from(machine);
        let says_so = match self.contacts[place].their_clocks {
            Some(theirs) => theirs.frame > 0,
            None => false,
        };
        self.stalls[place].begun || says_so || self.member.mesh().given(machine) > DELAY_LIMIT + 1
    }

    /// Whether a machine that was heard hasn't come to this epoch.
    fn is_coming(&self, machine: u8, now: u32) -> bool
        requires { machine < MACHINE_LIMIT }
        ensures { result ≡ is_coming self.now now machine }
    {
        let mesh = self.member.mesh();
        self.follows
            && machine != mesh.seat().me
            && !mesh.is_gone(machine)
            && self.contacts[usize::from(machine)].confirmed
            && !self.has_come(machine, now)
    }

    /// What a machine is waited for, if it holds up the match.
    fn waited_for(&self, machine: u8, now: u32) -> Option<Wait>
        requires { machine < MACHINE_LIMIT }
        ensures { result ≡ waited_for self.now now machine }
    {
        if !self.running {
            None
        } else if self.is_coming(machine, now) {
            Some(Wait::Coming)
        } else {
            self.wait_of_words(machine)
        }
    }

    /// What of words a machine is waited for.
    fn wait_of_words(&self, machine: u8) -> Option<Wait>
        ensures { result ≡ wait_of_words self.now self.now.member.mesh machine }
    {
        let threshold = self.member.limits().threshold;
        let mesh = self.member.mesh();
        let end = self.end_among(&self.marks);
        let given = before_end(end, mesh.holds_up(machine, threshold));
        or_taking(given, before_end(end, mesh.lacks(machine)))
    }

    /// Tells of machines that have been silent for long.
    #[tactic(auto, using(crate::proofs::Untils::hushed_none, crate::proofs::Untils::hushed_next))]
    fn hush(&mut self, machines: u8, now: u32)
        requires { machines ≤ MACHINE_LIMIT }
        ensures { self.new ≡ hushed_until now machines self.old }
    {
        for machine in 0..machines {
            self.hush_one(machine, now);
        }
    }

    fn hush_one(&mut self, machine: u8, now: u32)
        requires { machine < MACHINE_LIMIT }
        ensures { self.new ≡ hushed_at now machine self.old }
    {
        let place = usize::from(machine);
        let silence = self.contacts[place].unanswered_for(now);
        let hushed = self.contacts[place].hush(now, self.settings.notify_after);
        if hushed && !self.member.mesh().is_gone(machine) {
            self.events.push(PeerEvent::Interrupted {
                machine,
                disconnect_in: self.settings.silent_after.saturating_sub(silence),
            });
        }
    }

    /// Tells of machines that haven't come.
    #[tactic(auto, using(crate::proofs::Untils::missed_none, crate::proofs::Untils::missed_next))]
    fn miss(&mut self, machines: u8, now: u32)
        requires { machines ≤ MACHINE_LIMIT }
        ensures { self.new ≡ missed_until now machines self.old }
    {
        for machine in 0..machines {
            self.miss_one(machine, now);
        }
    }

    fn miss_one(&mut self, machine: u8, now: u32)
        requires { machine < MACHINE_LIMIT }
        ensures { self.new ≡ missed_at now machine self.old }
    {
        if self.is_missed(machine, now) {
            self.stalls[usize::from(machine)].missed = true;
            self.events.push(PeerEvent::Missing { machine });
        }
    }

    /// Whether it is to be told that a machine hasn't come.
    fn is_missed(&self, machine: u8, now: u32) -> bool
        requires { machine < MACHINE_LIMIT }
        ensures { result ≡ is_missed self.now now machine }
    {
        self.has_waited(now) && !self.stalls[usize::from(machine)].missed && !self.is_ready(machine)
    }

    /// Whether this network was opened so long ago that the others should have come.
    fn has_waited(&self, now: u32) -> bool
        ensures { result ≡ has_waited self.now now }
    {
        let waited = since(now, self.opened);
        self.settings.silent_after > 0 && waited > self.settings.silent_after
    }

    /// Tells of hellos that aren't of this match, if a machine hasn't come that should have.
    #[tactic(auto, using(crate::proofs::Said::strangers_told_is))]
    fn tell_strangers(&mut self, now: u32)
        ensures { self.new ≡ strangers_told now self.old }
    {
        if self.is_mistaken(now) {
            let count = self.strangers.tell();
            self.events.push(PeerEvent::Strangers { count });
        }
    }

    fn is_mistaken(&self, now: u32) -> bool
        ensures { result ≡ is_mistaken self.now now }
    {
        self.has_waited(now) && self.strangers.are_to_tell() && !self.are_ready()
    }

    /// Tells which machines are gone, each once.
    #[tactic(auto, using(crate::proofs::Untils::farewell_none, crate::proofs::Untils::farewell_next))]
    fn tell_who_is_gone(&mut self, machines: u8)
        requires { machines ≤ MACHINE_LIMIT }
        ensures { self.new ≡ farewell_until machines self.old }
    {
        for machine in 0..machines {
            self.tell_if_gone(machine);
        }
    }

    fn tell_if_gone(&mut self, machine: u8)
        requires { machine < MACHINE_LIMIT }
        ensures { self.new ≡ farewell_at machine self.old }
    {
        let place = usize::from(machine);
        if self.member.mesh().is_gone(machine) && !self.known_gone[place] {
            self.known_gone[place] = true;
            let bye = self.contacts[place].bye;
            self.events.push(PeerEvent::Left { machine, bye });
        }
    }

    /// The players of who is gone leave, if they may. Why one who is to leave is still there, if so.
    fn part<S: Networked>(&mut self, session: &mut S) -> Option<Refusal>
        requires { IsTied (S.seen session.old) self.old.member.mesh }
        ensures parted { IsParted (S.seen session.old) (S.seen session.new) self.old self.new
            result }
        ensures tied { IsTied (S.seen session.new) self.new.member.mesh }
        ensures keeps { S.keeps session.old session.new }
    {
        let left = self.member.let_leave(session);
        self.events.left(&left);
        left.refusal
    }

    /// Whether a play was heard of each other machine that isn't gone: so it believes this one's draw, and this one its.
    fn are_ready(&self) -> bool
        ensures { result ≡ are_ready self.now self.now.member.mesh }
    {
        for machine in 0..self.member.mesh().seat().machines {
            if !self.is_ready(machine) {
                return false;
            }
        }
        true
    }

    fn is_ready(&self, machine: u8) -> bool
        requires { machine < MACHINE_LIMIT }
        ensures { result ≡ is_ready_at self.now self.now.member.mesh machine }
    {
        machine == self.member.mesh().seat().me
            || self.member.mesh().is_gone(machine)
            || self.contacts[usize::from(machine)].confirmed
    }

    /// The match begins once all are ready.
    #[tactic(auto, using(crate::proofs::Said::begun_is))]
    fn begin(&mut self)
        ensures { self.new ≡ begun self.old }
    {
        if !self.running && self.are_ready() {
            self.running = true;
            self.events.push(PeerEvent::Running);
        }
    }

    /// Notes how far the machines are from one another, and says how long to wait, if this machine is ahead.
    #[tactic(auto, using(crate::proofs::Said::over_is))]
    fn note_pace(&mut self)
        ensures { self.new ≡ over self.old }
    {
        if let Some(frames_ahead) = self.pace.turn(&self.contacts, self.member.mesh()) {
            self.events.push(PeerEvent::TimeSync { frames_ahead });
        }
    }
}

/// Goes to the next frame, or rolls back unless nothing but branches was accepted since it last did.
fn play<G: Game>(session: &mut Session<G>) -> Result<Option<Reached>, Refusal>
    ensures played { Plays session.old session.new result }
    ensures shown { OnOk result (IsUpToDate session.new) }
    ensures once { RollsOnce G.step session.old session.new (result ≡ Err Refusal.NoMemory) }
{
    match session.advance_frame() {
        Ok(reached) => Ok(Some(reached)),
        Err(Refusal::LocalInputMissing) => {
            roll_back(session)?;
            Ok(None)
        }
        Err(why) => Err(why),
    }
}

/// Rolls back, unless nothing but branches was accepted since the last roll.
fn roll_back<G: Game>(session: &mut Session<G>) -> Result<(), Refusal>
    ensures rolled { OnOk result (session.new
        ≡ (if ends_in_roll session.old.log then session.old else after_sync session.old)) }
    ensures shown { OnOk result (IsUpToDate session.new) }
    ensures refused { IfErr result (IsRollRefused (sync_refusal session.old) session.old session.new
        session.old.core.frame) }
    ensures once { RollsOnce G.step session.old session.new (result ≡ Err Refusal.NoMemory) }
{
    session.laws();
    if !ends_in_roll(session.log()) {
        session.synchronize_input()?;
    }
    Ok(())
}

/// So many words, if the epoch's last one isn't among them.
fn before_end(end: u32, words: Option<u32>) -> Option<u32>
    ensures { result ≡ before_end end words }
{
    let words = words?;
    if words < end { Some(words) } else { None }
}

/// What is waited for of these: the next word, or else that more are taken.
fn or_taking(given: Option<u32>, taken: Option<u32>) -> Option<Wait>
    ensures { result ≡ or_taking given taken }
{
    match (given, taken) {
        (Some(given), _) => Some(Wait::Giving(given)),
        (None, Some(taken)) => Some(Wait::Taking(taken)),
        (None, None) => None,
    }
}

/// Whether nothing but branches was accepted since the last roll that went to its end. So the state shown is up to date: a branch
/// changes nothing of it.
pub fn ends_in_roll(log: &Log) -> bool
    ensures { result ≡ ends_in_roll log.now.entries }
{
    for place in (0..log.len()).rev() {
        if !is_graft(log, place) {
            return is_roll(log, place);
        }
    }
    false
}

/// Whether the entry of a place took in a branch.
fn is_graft(log: &Log, place: usize) -> bool
    ensures { result ≡ option_map_or is_graft (slice_get log.now.entries place) false }
{
    matches!(log.get(place), Some(Logged::Graft { .. }))
}

/// Whether it is a roll that went to its end.
fn is_roll(log: &Log, place: usize) -> bool
    ensures { result ≡ option_map_or is_roll (slice_get log.now.entries place) false }
{
    matches!(
        log.get(place),
        Some(Logged::Call(Call::Sync | Call::Advance))
    )
}
