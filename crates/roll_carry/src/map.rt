//! What a machine knows of who hears whom straight: what it hears itself, and what the others told.
ghost use Rattle.std.specs.Prelude.{◌≡◌, ◌<◌, slice_set};
ghost use Rattle.roll_carry.specs.Mapping.{after_map, corrected, first_map, heard_lately, heard_now, heard_straight, is_heard_now, is_later, is_whole_line, knowing, lately, line_after, line_told, looked, own_hearing, own_now, same_lines, shows};
ghost use Rattle.roll_carry.specs.Ways.{hearing_of};
ghost use Rattle.roll_mesh.specs.Machines.{at_places, same_gone as same_machines};
ghost use Rattle.roll_mesh.specs.declared.limits.TheConstants.{MACHINE_LIMIT};

use crate::datagram::Hearing;
use crate::limits::{CARRY_AFTER, TELL_TURNS};
use crate::ways::{Lines, Machines, hears, is_in};
use roll_contact::since;
use roll_mesh::MACHINE_LIMIT;

/// What a machine knows of who hears whom straight.
#[derive(Clone, Copy, Debug)]
pub struct LineMap {
    /// Who this machine is.
    pub me: u8,
    /// How many machines the match has.
    pub machines: u8,
    /// Whom each machine hears, as far as it is known here.
    pub lines: [Hearing; MACHINE_LIMIT],
    /// When this machine heard each straight, if that isn't too long ago.
    pub heard_at: [Option<u32>; MACHINE_LIMIT],
    /// In how many turns from now on the map is told in each.
    pub telling: u8,
}

impl LineMap {
    /// Nobody is known to hear anybody.
    pub(crate) fn new(me: u8, machines: u8) -> LineMap
        ensures { result ≡ first_map me machines }
    {
        let nobody = Hearing {
            hears: [false; MACHINE_LIMIT],
            number: 0,
        };
        LineMap {
            me,
            machines,
            lines: [nobody; MACHINE_LIMIT],
            heard_at: [None; MACHINE_LIMIT],
            telling: 0,
        }
    }

    /// What this machine says itself.
    fn own(&self) -> Hearing
        requires { self.now.me < MACHINE_LIMIT }
        ensures { result ≡ own_hearing self.now }
    {
        self.lines[usize::from(self.me)]
    }

    /// Whether the map says that one machine hears another.
    pub(crate) fn shows(&self, machine: usize, other: usize) -> bool
        ensures { result ≡ shows self.now machine other }
    {
        hears(&self.lines, machine, other)
    }

    /// Whether this machine and another hear each other straight.
    pub(crate) fn is_whole_line(&self, other: usize) -> bool
        ensures { result ≡ is_whole_line self.now other }
    {
        let me = usize::from(self.me);
        self.shows(me, other) && self.shows(other, me)
    }

    /// A machine was heard straight.
    pub(crate) fn heard_straight(&mut self, machine: u8, now: u32)
        ensures { self.new ≡ heard_straight machine now self.old }
    {
        let place = usize::from(machine);
        if place < MACHINE_LIMIT {
            self.heard_at[place] = Some(now);
        }
    }

    /// When a machine was heard straight, if that isn't too long ago.
    fn heard_lately(&self, now: u32, machine: usize) -> Option<u32>
        requires { machine < MACHINE_LIMIT }
        ensures { result ≡ heard_lately self.now now machine }
    {
        match self.heard_at[machine] {
            Some(at) if since(now, at) <= CARRY_AFTER => Some(at),
            _ => None,
        }
    }

    /// Whether it is this machine, or one that it heard lately.
    fn is_heard_now(&self, now: u32, machine: usize) -> bool
        requires { machine < MACHINE_LIMIT }
        ensures { result ≡ is_heard_now self.now now machine }
    {
        machine == usize::from(self.me) || self.heard_lately(now, machine).is_some()
    }

    /// Whom this machine hears.
    fn heard_now(&self, now: u32) -> Machines
        ensures { result ≡ heard_now self.now now }
    {
        let mut heard = [false; MACHINE_LIMIT];
        for machine in 0..MACHINE_LIMIT {
            heard[machine] = self.is_heard_now(now, machine);
        }
        heard
    }

    /// What this machine says of itself one turn later.
    fn own_now(&self, now: u32) -> Hearing
        requires { self.now.me < MACHINE_LIMIT }
        ensures { result ≡ own_now self.now now }
    {
        let own = self.own();
        let heard = self.heard_now(now);
        if same_machines(&heard, &own.hears) {
            own
        } else {
            Hearing {
                hears: heard,
                number: own.number.wrapping_add(1),
            }
        }
    }

    /// When each machine was heard straight, where that isn't too long ago.
    fn all_heard_lately(&self, now: u32) -> [Option<u32>; MACHINE_LIMIT]
        ensures { result ≡ at_places (heard_lately self.now now) self.now.heard_at }
    {
        let mut heard_at = [None; MACHINE_LIMIT];
        for machine in 0..MACHINE_LIMIT {
            heard_at[machine] = self.heard_lately(now, machine);
        }
        heard_at
    }

    /// This is known now, and told in each of the next turns if a machine hears others than before.
    fn know(&mut self, lines: Lines)
        ensures { self.new ≡ knowing lines self.old }
    {
        if !same_lines(&lines, &self.lines) {
            self.telling = TELL_TURNS;
        }
        self.lines = lines;
    }

    /// One turn later: this machine says what it hears now, and has told its map once more.
    pub(crate) fn look(&mut self, now: u32)
        requires { self.old.me < MACHINE_LIMIT }
        ensures { self.new ≡ looked now self.old }
    {
        let mut lines = self.lines;
        lines[usize::from(self.me)] = self.own_now(now);
        self.heard_at = self.all_heard_lately(now);
        self.telling = self.telling.saturating_sub(1);
        self.know(lines);
    }

    /// What is known of a machine once this was told of it.
    fn line_told(&self, machine: usize, told: &Hearing) -> Hearing
        requires { machine < MACHINE_LIMIT }
        ensures { result ≡ line_told self.now machine told.now }
    {
        let known = self.lines[machine];
        if machine == usize::from(self.me) {
            corrected(&known, told)
        } else if is_later(told.number, known.number) {
            *told
        } else {
            known
        }
    }

    /// What is known of a machine once one told all that it knows.
    fn line_after(&self, told: &[Hearing], machine: usize) -> Hearing
        requires { machine < MACHINE_LIMIT }
        ensures { result ≡ line_after self.now told.now machine }
    {
        if machine < told.len() {
            self.line_told(machine, &told[machine])
        } else {
            self.lines[machine]
        }
    }

    /// What is known of all once a machine told all that it knows.
    fn lines_after(&self, told: &[Hearing]) -> Lines
        ensures { result ≡ at_places (line_after self.now told.now) self.now.lines }
    {
        let mut lines = self.lines;
        for machine in 0..MACHINE_LIMIT {
            lines[machine] = self.line_after(told, machine);
        }
        lines
    }

    /// A machine told all that it knows.
    pub(crate) fn take(&mut self, told: &[Hearing])
        ensures { self.new ≡ after_map told.now self.old }
    {
        let lines = self.lines_after(told);
        self.know(lines);
    }
}

/// What a machine says of itself, once another told that it hears these.
fn corrected(own: &Hearing, told: &Hearing) -> Hearing
    ensures { result ≡ corrected own.now told.now }
{
    if same_machines(&told.hears, &own.hears) || is_later(own.number, told.number) {
        *own
    } else {
        Hearing {
            hears: own.hears,
            number: told.number.wrapping_add(1),
        }
    }
}

/// Whether a number is later than another, of numbers that begin anew after 2^32.
fn is_later(number: u32, than: u32) -> bool
    ensures { result ≡ is_later number than }
{
    since(number, than) > 0
}

/// Whether these are the same machines.
fn same_machines(one: &Machines, other: &Machines) -> bool
    ensures { result ≡ same_machines one.now other.now }
{
    for machine in 0..MACHINE_LIMIT {
        if one[machine] != other[machine] {
            return false;
        }
    }
    true
}

/// Whether all machines are known to hear the same ones.
fn same_lines(one: &Lines, other: &Lines) -> bool
    ensures { result ≡ same_lines one.now other.now }
{
    for machine in 0..MACHINE_LIMIT {
        if !same_machines(&one[machine].hears, &other[machine].hears) {
            return false;
        }
    }
    true
}
