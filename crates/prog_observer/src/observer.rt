//! A session that is watched while it is played.
ghost use Rattle.std.specs.Prelude.{◌≡◌, ◌++◌, ◌-◌, ◌∷◌, [], IfOk, IfErr, OnOk, drop, false, map, min, nat_lt, true, is_none, if◌then◌else◌};
ghost use Rattle.std.specs.Option.{option_map, option_to_list};
ghost use Rattle.prog_observer.specs.Hearing.{after_hearing, heard_words, lane_in, lane_shown};
ghost use Rattle.roll_frame.specs.Core.{settled as settled_frame};
ghost use Rattle.prog_observer.specs.Observing.{is_better, is_deeper, is_rollback, is_wanted, tree_of};

use crate::change::{roll_of, rows_from};
use crate::hearing::Hearing;
use prog_picture::{Lane, Roll, Scene, Window};
use roll_frame::{Claim, Refusal, Row};
use roll_game::Game;
use roll_session::Session;
use std::alloc::{AllocError, Global};

/// What was seen of a session by now. It is watched from its start on, after each of its calls, or after several of which
/// none but the last may be a sync or an advance.
#[derive(Drop)]
pub struct Observer {
    /// What is to be shown of it.
    window: Window,
    /// Its frame.
    frame: u32,
    /// How many rows were settled after its last roll.
    settled: u32,
    /// The rows of its timeline from there up to its frame, as that roll left them.
    rows: Vec<Row>,
    /// What was shown of each frame as it was first run.
    firsts: Vec<Row>,
    hearings: Vec<Hearing>,
    /// Its rollbacks in their order.
    rolls: Vec<Roll>,
    /// The roll whose saved states are to be shown.
    sample: Option<Sample>,
}

/// A roll and its claim.
#[derive(Drop)]
struct Sample {
    roll: Roll,
    claim: Claim,
}

impl Observer {
    ghost use Rattle.prog_observer.specs.Observing.{after_roll, after_watch, after_words, last_row, nothing_seen, observed, watch_refusal, with_sample};

    /// Nothing was seen yet of a session of so many players.
    ///
    /// # Errors
    ///
    /// `AllocError` if the allocator has no room.
    pub fn new(alloc: Global, players: u8, window: Window) -> Result<Observer, AllocError>
        ensures { IfOk result (λ observer. observed observer ≡ nothing_seen players window) }
    {
        let mut hearings = Vec::new(alloc);
        for place in 0..players {
            hearings.push(Hearing {
                player: place + 1,
                words: Vec::new(alloc),
            })?;
        }
        Ok(Observer {
            window,
            frame: 0,
            settled: 0,
            rows: Vec::new(alloc),
            firsts: Vec::new(alloc),
            hearings,
            rolls: Vec::new(alloc),
            sample: None,
        })
    }

    /// Notes what has come since, and if the last call was a sync or an advance that the session took, what it rolled back.
    ///
    /// A roll counts as a rollback if it ran frames again, or if a row that was shown is another one now. Its cause is
    /// the first frame and player whose cell differs; from that frame on GGPO runs all again.
    ///
    /// # Errors
    ///
    /// `NoPlan` if there was no such call, and nothing is noted, else `NoMemory` if the allocator has no room. Then a part may
    /// have been noted, and the session can't be watched on.
    pub fn watch<G: Game>(
        &mut self,
        alloc: Global,
        session: &Session<G>,
        has_rolled: bool,
    ) -> Result<(), Refusal>
        ensures watched { OnOk result
            (observed self.new ≡ after_watch (observed self.old) session.now has_rolled) }
        ensures made { OnOk result (has_rolled ≡ true → is_none session.now.core.last ≡ false) }
        ensures refused { IfErr result (λ why. why ≡ watch_refusal session.now has_rolled) }
        ensures unchanged { result ≡ Err Refusal.NoPlan → self.new ≡ self.old }
    {
        if !has_rolled {
            return Ok(self.hear(session)?);
        }
        let claim = session.claim(alloc)?;
        self.hear(session)?;
        Ok(self.note_roll(alloc, session, claim)?)
    }

    /// Notes the words that have come since.
    fn hear<G: Game>(&mut self, session: &Session<G>) -> Result<(), AllocError>
        ensures { OnOk result (observed self.new ≡ after_words (observed self.old) session.now) }
    {
        hear_all(&mut self.hearings, session, self.frame)
    }

    /// Notes the last roll, whose claim this is, and the timeline as it is now.
    fn note_roll<G: Game>(
        &mut self,
        alloc: Global,
        session: &Session<G>,
        claim: Claim,
    ) -> Result<(), AllocError>
        ensures { OnOk result
            (observed self.new ≡ after_roll (observed self.old) session.now claim) }
    {
        let rows = rows_from(alloc, session, &claim, self.settled)?;
        let roll = roll_of(self.frame, claim.from, self.settled, &self.rows, &rows);
        self.note_rollback(roll)?;
        self.note_first(session, &rows)?;
        self.note_rows(session, &rows)?;
        self.note_sample(Sample { roll, claim });
        self.settled = session.settled();
        self.frame = session.frame();
        Ok(())
    }

    /// Notes a roll if it is a rollback.
    fn note_rollback(&mut self, roll: Roll) -> Result<(), AllocError>
        ensures { OnOk result (observed self.new ≡ record (observed self.old) {
          rolls = (observed self.old).rolls
              ++ (if is_rollback roll then roll ∷ [] else []);
        }) }
    {
        if is_rollback(&roll) {
            self.rolls.push(roll)?;
        }
        Ok(())
    }

    /// Notes the last of the rows, if the session has run it for the first time.
    fn note_first<G: Game>(&mut self, session: &Session<G>, rows: &[Row]) -> Result<(), AllocError>
        ensures { OnOk result (observed self.new ≡ record (observed self.old) {
          firsts = (observed self.old).firsts
              ++ (if nat_lt self.old.frame session.now.core.frame
              then option_to_list (last_row rows.now) else []);
        }) }
    {
        if self.frame < session.frame() {
            if let Some(row) = rows.last() {
                self.firsts.push(*row)?;
            }
        }
        Ok(())
    }

    /// Keeps those of the rows that aren't settled, in place of the ones before.
    fn note_rows<G: Game>(&mut self, session: &Session<G>, rows: &[Row]) -> Result<(), AllocError>
        ensures { OnOk result (observed self.new ≡ record (observed self.old)
            { rows = drop (settled_frame session.now.core - self.old.settled) rows.now }) }
    {
        let passed = session.settled().saturating_sub(self.settled);
        self.rows.clear();
        self.rows
            .extend_from_slice(rows.get(passed as usize..).unwrap_or(&[]))
    }

    /// Keeps a roll and its claim if its saved states are to be shown rather than those that were kept so far.
    fn note_sample(&mut self, sample: Sample)
        ensures { observed self.new ≡ record (observed self.old)
            { sample = with_sample (observed self.old).window (observed self.old).sample sample } }
    {
        if is_better(&sample.roll, &self.sample) && is_wanted(&self.window, &sample.roll) {
            self.sample = Some(sample);
        }
    }

    /// What was seen, as a picture shows it. The title is any text.
    ///
    /// # Errors
    ///
    /// `AllocError` if the allocator has no room.
    pub fn into_scene<G: Game>(
        self,
        alloc: Global,
        session: &Session<G>,
        title: String,
    ) -> Result<Scene, AllocError>
        ensures title { IfOk result (λ scene. scene.title ≡ title) }
        ensures from { IfOk result (λ scene. scene.from ≡ (observed self).window.from) }
        ensures to { IfOk result (λ scene. scene.to ≡ min (observed self).window.to
            (observed self).frame) }
        ensures lanes { IfOk result (λ scene. map lane_shown scene.lanes.items
            ≡ map (lane_in session.now (observed self).firsts) (observed self).heard) }
        ensures rolls { IfOk result (λ scene. scene.rolls.items ≡ (observed self).rolls) }
        ensures tree { IfOk result (λ scene. scene.tree
            ≡ option_map tree_of (observed self).sample) }
    {
        let lanes = lanes_of(alloc, session, &self.hearings, &self.firsts)?;
        Ok(Scene {
            title,
            from: self.window.from,
            to: self.window.to.min(self.frame),
            lanes,
            rolls: self.rolls,
            tree: tree_of(self.sample),
        })
    }
}

/// Notes the words of all players that have come since, in this frame.
fn hear_all<G: Game>(
    hearings: &mut [Hearing],
    session: &Session<G>,
    at: u32,
) -> Result<(), AllocError>
    ensures { OnOk result (map heard_words hearings.new
        ≡ map (after_hearing session.now at) (map heard_words hearings.old)) }
{
    for hearing in hearings.iter_mut() {
        hearing.hear(session, at)?;
    }
    Ok(())
}

/// The lanes of a session's players, where these rows were shown as their frames were first run.
fn lanes_of<G: Game>(
    alloc: Global,
    session: &Session<G>,
    hearings: &[Hearing],
    firsts: &[Row],
) -> Result<Vec<Lane>, AllocError>
    ensures { IfOk result (λ lanes. map lane_shown lanes.items
        ≡ map (lane_in session.now firsts.now) (map heard_words hearings.now)) }
{
    let mut lanes = Vec::new(alloc);
    for hearing in hearings {
        let is_local = session.is_local(hearing.player);
        lanes.push(hearing.lane(alloc, is_local, firsts)?)?;
    }
    Ok(lanes)
}

/// The claim of the roll whose saved states are to be shown, if there is one.
fn tree_of(sample: Option<Sample>) -> Option<Claim>
    ensures { result ≡ option_map tree_of sample }
{
    match sample {
        Some(sample) => Some(sample.claim),
        None => None,
    }
}

/// Whether a roll ran frames again, or changed what was shown.
fn is_rollback(roll: &Roll) -> bool
    ensures { result ≡ is_rollback roll.now }
{
    roll.rerun > 0 || roll.ggpo > 0
}

/// Whether a roll is deeper than the one that was kept, if there is one.
fn is_better(roll: &Roll, kept: &Option<Sample>) -> bool
    ensures { result ≡ is_better roll.now kept.now }
{
    match kept {
        Some(kept) => is_deeper(roll, &kept.roll),
        None => true,
    }
}

/// Whether a roll ran more frames again than another, or as many where GGPO would have run more.
fn is_deeper(roll: &Roll, other: &Roll) -> bool
    ensures { result ≡ is_deeper roll.now other.now }
{
    other.rerun < roll.rerun || roll.rerun == other.rerun && other.ggpo < roll.ggpo
}

/// Whether the saved states of a roll may be shown.
fn is_wanted(window: &Window, roll: &Roll) -> bool
    ensures { result ≡ is_wanted window.now roll.now }
{
    match window.tree {
        Some(frame) => roll.at == frame,
        None => is_rollback(roll) && window.from <= roll.at && roll.at <= window.to,
    }
}
