//! Marks of words: what they say is to be otherwise in the match's next epoch.
ghost use Rattle.std.specs.Prelude.{◌≡◌, ◌-◌, ◌<◌, ◌&&◌, length, true, None, IfErr, IfOk, IsNone, OnErr, OnOk, slice_set, Some};
ghost use Rattle.roll_member.specs.Beside.{IsOf};
ghost use Rattle.roll_mesh.specs.declared.limits.TheConstants.{PLAYER_LIMIT};
ghost use Rattle.roll_peer.specs.Marking.{is_numbered, is_own_first, mark_refusal, voided, IsMarkedAs, IsWhyUnmarked};
ghost use Rattle.roll_peer.specs.Marks.{end_among, end_by, if_offered, if_offered_or_there, if_there, kept_with, offered_marks, told_marks, told_with, unless_there};
ghost use Rattle.roll_wire.specs.Spelling.{are_spelled, has_players};

use crate::peer::Peer;
use crate::refusal::MarkRefusal;
use roll_mesh::{Offer, PLAYER_LIMIT};
use roll_session::Networked;
use roll_wire::{Mark, Marked, has_players};

/// The frame from which no words are taken, if there is none.
pub(crate) const NO_END: u32 = u32::MAX;

/// Of each player the mark that is known, player 0 first.
pub(crate) type KnownMarks = [Option<Marked>; PLAYER_LIMIT];

impl Peer {
    /// Puts a mark on the word that a player of this machine gives next, and answers that word's frame. The player, counted from 1, is
    /// the first word of an input. Of frames after it this machine takes no words of others any more, until the mark is found void.
    ///
    /// # Errors
    ///
    /// The first of these that holds: `NotTaken` if the match takes no marks; `NotOwn` if there is no such player here; `Marked` if it
    /// has a mark already; `NoPlayer` if somebody is to come who is to own no player; `OtherSession`. Nothing is changed then.
    #[tactic(auto, unfolding(crate::specs::Marking::mark_refusal))]
    pub fn mark<S: Networked>(
        &mut self,
        session: &S,
        player: u8,
        mark: Mark,
    ) -> Result<u32, MarkRefusal>
        ensures marked { IfOk result (IsMarkedAs (S.seen session.now) self.old self.new player
            mark) }
        ensures accepted { OnOk result (mark_refusal self.old player mark ≡ None) }
        ensures own { OnOk result (IsOf (S.seen session.now) self.old.member) }
        ensures refused { IfErr result (IsWhyUnmarked (S.seen session.now) self.old player mark) }
        ensures unchanged { OnErr result (self.new ≡ self.old) }
    {
        if let Some(why) = self.mark_refusal(player, &mark) {
            return Err(why);
        }
        if !self.member.meet(session) {
            return Err(MarkRefusal::OtherSession);
        }
        let frame = session.confirmed(player).unwrap_or(0);
        self.know(player, Marked { frame, mark });
        Ok(frame)
    }

    /// A player's mark is known.
    fn know(&mut self, player: u8, marked: Marked)
        requires there { is_numbered player ≡ true }
        requires spelled { has_players marked.mark.newcomer ≡ true }
        ensures { self.new ≡ record self.old {
          marks = slice_set self.old.marks (player - 1) (Some marked);
        } }
    {
        self.marks[usize::from(player) - 1] = Some(marked);
    }

    /// Why no mark is put on a player's next word.
    #[tactic(auto, unfolding(crate::specs::Marking::mark_refusal))]
    fn mark_refusal(&self, player: u8, mark: &Mark) -> Option<MarkRefusal>
        ensures why { result ≡ mark_refusal self.now player mark.now }
        ensures place { IsNone result → is_numbered player ≡ true }
        ensures spelled { IsNone result → has_players mark.now.newcomer ≡ true }
    {
        if !self.settings.takes_marks {
            Some(MarkRefusal::NotTaken)
        } else if !(is_numbered(player) && self.is_own_first(usize::from(player) - 1)) {
            Some(MarkRefusal::NotOwn)
        } else if self.marks[usize::from(player) - 1].is_some() {
            Some(MarkRefusal::Marked)
        } else if has_players(&mark.newcomer) {
            None
        } else {
            Some(MarkRefusal::NoPlayer)
        }
    }

    /// Whether the player at a place is the first word of an input of this machine.
    fn is_own_first(&self, place: usize) -> bool
        requires { place < PLAYER_LIMIT }
        ensures { result ≡ is_own_first self.now.member.mesh.seat place }
    {
        let seat = self.member.mesh().seat();
        seat.owners[place] == seat.me && seat.first_of(place) == place
    }

    /// The mark of a player, counted from 1, is void: it is as if it weren't there, and words of frames after it are taken. All
    /// machines of a match have to find the same marks void. Nothing happens if there is no such player.
    pub fn void_mark(&mut self, player: u8)
        ensures { self.new ≡ voided self.old player }
    {
        if is_numbered(player) {
            self.voids[usize::from(player) - 1] = true;
        }
    }

    /// Of each player the first mark that is known, player 0 first: that of a word that is there, or that this machine gives next.
    pub fn marks(&self) -> &[Option<Marked>; PLAYER_LIMIT]
        ensures { result.now ≡ self.now.marks }
    {
        &self.marks
    }

    /// Of each player whether its mark was found void, player 0 first.
    pub fn voids(&self) -> &[bool; PLAYER_LIMIT]
        ensures { result.now ≡ self.now.voids }
    {
        &self.voids
    }

    /// The marks that are known, and those that a play tells of words that aren't there yet.
    pub(crate) fn told_with(&self, told: &KnownMarks) -> KnownMarks
        requires { are_spelled told.now ≡ true }
        ensures told { result ≡ told_with self.now.member.mesh.machine.has self.now.marks told.now }
        ensures spelled { are_spelled result ≡ true }
    {
        let has = self.member.mesh().has();
        let mut marks = [None; PLAYER_LIMIT];
        for player in 0..PLAYER_LIMIT {
            marks[player] = self.marks[player].or(unless_there(has[player], told[player]));
        }
        marks
    }

    /// The marks that are known, and those of told ones whose words are there.
    pub(crate) fn kept_with(&self, told: &KnownMarks) -> KnownMarks
        requires { are_spelled told.now ≡ true }
        ensures kept { result ≡ kept_with self.now.member.mesh.machine.has self.now.marks told.now }
        ensures spelled { are_spelled result ≡ true }
    {
        let has = self.member.mesh().has();
        let mut marks = [None; PLAYER_LIMIT];
        for player in 0..PLAYER_LIMIT {
            marks[player] = self.marks[player].or(if_there(has[player], told[player]));
        }
        marks
    }

    /// The frame from which no words are taken, by these marks.
    #[tactic(auto, using(crate::proofs::Untils::end_none, crate::proofs::Untils::end_next))]
    pub(crate) fn end_among(&self, marks: &KnownMarks) -> u32
        ensures { result ≡ end_among self.now.voids marks.now PLAYER_LIMIT }
    {
        let mut end = NO_END;
        for player in 0..PLAYER_LIMIT {
            end = end.min(end_by(self.voids[player], marks[player]));
        }
        end
    }

    /// The marks of words that are offered, and of all others that are there.
    pub(crate) fn told_marks(&self, offers: &[Offer; PLAYER_LIMIT]) -> KnownMarks
        ensures marks { result ≡ told_marks offers.now self.now.member.mesh.machine.has
            self.now.marks }
        ensures spelled { are_spelled result ≡ true }
    {
        let has = self.member.mesh().has();
        let mut marks = [None; PLAYER_LIMIT];
        for player in 0..PLAYER_LIMIT {
            marks[player] = if_offered_or_there(&offers[player], has[player], self.marks[player]);
        }
        marks
    }
}

/// Those of some marks whose words are offered.
pub(crate) fn offered_marks(offers: &[Offer; PLAYER_LIMIT], marks: &KnownMarks) -> KnownMarks
    requires { are_spelled marks.now ≡ true }
    ensures marks { result ≡ offered_marks offers.now marks.now }
    ensures spelled { are_spelled result ≡ true }
{
    let mut offered = [None; PLAYER_LIMIT];
    for player in 0..PLAYER_LIMIT {
        offered[player] = if_offered(&offers[player], marks[player]);
    }
    offered
}

/// Whether a player has such a number, counted from 1.
fn is_numbered(player: u8) -> bool
    ensures { result ≡ is_numbered player }
{
    player != 0 && usize::from(player) <= PLAYER_LIMIT
}

/// The frame from which no words are taken by a mark.
fn end_by(is_void: bool, marked: Option<Marked>) -> u32
    ensures { result ≡ end_by is_void marked }
{
    match marked {
        Some(marked) if !is_void => marked.frame.saturating_add(1),
        _ => NO_END,
    }
}

/// A mark, if its word is among so many.
fn if_there(count: u32, marked: Option<Marked>) -> Option<Marked>
    ensures { result ≡ if_there count marked }
{
    let marked = marked?;
    if marked.frame < count {
        Some(marked)
    } else {
        None
    }
}

/// A mark, if its word isn't among so many.
fn unless_there(count: u32, marked: Option<Marked>) -> Option<Marked>
    ensures { result ≡ unless_there count marked }
{
    let marked = marked?;
    if marked.frame < count {
        None
    } else {
        Some(marked)
    }
}

/// A mark, if its word is offered.
fn if_offered(offer: &Offer, marked: Option<Marked>) -> Option<Marked>
    ensures { result ≡ if_offered offer.now marked }
{
    let marked = marked?;
    if offer.first <= marked.frame && marked.frame < offer.end {
        Some(marked)
    } else {
        None
    }
}

/// A mark, if its word is offered, or is among so many.
fn if_offered_or_there(offer: &Offer, count: u32, marked: Option<Marked>) -> Option<Marked>
    ensures { result ≡ if_offered_or_there offer.now count marked }
{
    if_offered(offer, marked).or(if_there(count, marked))
}
