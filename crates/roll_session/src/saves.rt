//! The timeline, and the saved states beside it.
ghost use Rattle.std.specs.Prelude.{◌≡◌, ◌+◌, ◌-◌, ◌≤◌, ◌<◌, ◌∷◌, ◌++◌, [], length, map, filter, drop, None, Some, IfOk, IfErr, OnOk, OnErr, IfSome, IsSomeAnd, All, true, false, nat_lt, IsTrue, if◌then◌else◌};
ghost use Rattle.std.specs.List.{list_all};
ghost use Rattle.roll_frame.specs.Claims.{AreRowsOf};
ghost use Rattle.roll_frame.specs.Core.{row_possible};
ghost use Rattle.roll_frame.specs.Events.{all_given};
ghost use Rattle.roll_frame.specs.Inputs.{is_repeated, with_given, with_gone, with_none_given, with_words};
ghost use Rattle.roll_frame.specs.Timeline.{front, row_at, timeline};
ghost use Rattle.roll_frame.specs.declared.entry.Entry.TheVariants.{Advance as Advances};
ghost use Rattle.roll_frame.specs.declared.row.Cell.TheVariants.{Gone};
ghost use Rattle.roll_inputs.specs.Boards.{confirmed_word, disconnect_refusal, local_refusal, remote_refusal, with_player};
ghost use Rattle.roll_laws.specs.Laws.{has_no_other};
ghost use Rattle.roll_plan.specs.Plans.{planned_roll};
ghost use Rattle.roll_tree.specs.SavedStates.{CanGrow, state_named, paths_of, with_state};
ghost use Rattle.roll_tree.specs.Marks.{AreSameBut};
ghost use Rattle.roll_session.specs.Calls.{entry_of, judged};
ghost use Rattle.roll_session.specs.Standing.{rows_from};
ghost use Rattle.roll_session.specs.Saves.{deepest_toward, has_word, refusal_in, repeats, rows_to, settled_by, settling, stepped_inputs, taken_inputs, taken_states, with_gone_only, without_other, IsFree};
ghost use Rattle.roll_session.specs.Ways.{IsGoing};

use crate::event::Call;
use crate::way::Way;
use arrayvec::ArrayVec;
use roll_frame::{Cell, FRAME_LIMIT, PATH_LIMIT, Path, Refusal, Row, TREE_LIMIT};
use roll_inputs::{Board, Heard, Record};
use roll_plan::Planner;
use roll_tree::Tree;
use std::alloc::{AllocError, AllocFailed, Global};
use std::marker::Model;

/// The inputs of all players, the settled rows, and the saved states that can still matter.
#[derive(Drop)]
pub struct Saves<S> {
    board: Board,
    past: Record,
    tree: Tree<S>,
}

impl<S> Model for Saves<S> {
    ghost use Rattle.roll_session.specs.Saves.{Standing, IsInStep};

    ghost Value = { Standing S };

    ghost view = { λ s. record { inputs = s.board; tree = s.tree; room = s.past.room } };

    ghost invariant = { IsInStep };
}

impl<S> Saves<S> {
    /// The inputs at the start, and the opening as the only saved state.
    pub fn new(alloc: Global, board: Board, opening: S) -> Result<Saves<S>, AllocFailed<S>>
    where
        S: Drop,
        requires frame { board.frame ≡ 0 }
        requires settled { board.settled ≡ 0 }
        ensures inputs { IfOk result (λ s. s.inputs ≡ board) }
        ensures alone { IfOk result
            (λ s. s.tree.states
            ≡ record { name = s.tree.root; path = []; snapshot = opening } ∷ []) }
        ensures returned { IfErr result (λ failed. failed.value ≡ opening) }
    {
        board.laws();
        let past = Record::new(alloc, board.players() as u8);
        match Tree::new(alloc, 0, opening) {
            Ok(tree) => Ok(Saves { board, past, tree }),
            Err(failed) => Err(failed),
        }
    }

    /// Gives a local player's word of this frame, and drops the states that it rules out.
    pub fn give(&mut self, player: u8, word: u32)
    where
        S: Drop,
        requires { local_refusal self.old.inputs player ≡ None }
        ensures inputs { self.new.inputs ≡ with_player (with_given word) self.old.inputs player }
        ensures states { self.new.tree.states
            ≡ without_other self.old.inputs player (Cell.Word word) self.old.tree.states }
        ensures rows { timeline self.new.inputs.players self.old.inputs.settled
            ≡ timeline self.old.inputs.players self.old.inputs.settled }
        ensures room { self.new.room ≡ self.old.room }
    {
        self.board.laws();
        let count = self.board.count(player);
        self.board.local(player, word).unwrap();
        change_word(&mut self.tree, &self.board, player, count, word);
        self.tree.cut(player, count, Cell::Word(word));
    }

    /// What a remote word would be answered now.
    pub fn remote_reply(&self, player: u8, frame: u32, word: u32) -> Result<Heard, Refusal>
        ensures heard { IfOk result
            (λ heard. heard ≡ (if is_repeated self.now.inputs.players player frame word
            then Heard.Repeated else Heard.Taken)) }
        ensures accepted { IfOk result
            (λ heard. heard ≡ Heard.Taken → remote_refusal self.now.inputs player frame ≡ None) }
        ensures refused { IfErr result
            (λ why. remote_refusal self.now.inputs player frame ≡ Some why) }
        ensures new { OnErr result (is_repeated self.now.inputs.players player frame word ≡ false) }
    {
        self.board.remote_reply(&self.past, player, frame, word)
    }

    /// Takes the next word of a remote player, and drops the states that it rules out.
    pub fn hear(&mut self, player: u8, frame: u32, word: u32)
    where
        S: Drop,
        requires new { is_repeated self.old.inputs.players player frame word ≡ false }
        requires accepted { remote_refusal self.old.inputs player frame ≡ None }
        ensures inputs { self.new.inputs
            ≡ with_player (with_words (word ∷ [])) self.old.inputs player }
        ensures states { self.new.tree.states
            ≡ without_other self.old.inputs player (Cell.Word word) self.old.tree.states }
        ensures rows { timeline self.new.inputs.players self.old.inputs.settled
            ≡ timeline self.old.inputs.players self.old.inputs.settled }
        ensures room { self.new.room ≡ self.old.room }
    {
        self.board.laws();
        let count = self.board.count(player);
        self.board.remote(&self.past, player, frame, word).unwrap();
        change_word(&mut self.tree, &self.board, player, count, word);
        self.tree.cut(player, count, Cell::Word(word));
    }

    /// A remote player leaves. Drops the states that have words of the player later on.
    pub fn leave(&mut self, player: u8)
    where
        S: Drop,
        requires { disconnect_refusal self.old.inputs player ≡ None }
        ensures inputs { self.new.inputs ≡ with_player with_gone self.old.inputs player }
        ensures states { self.new.tree.states
            ≡ with_gone_only self.old.inputs player self.old.tree.states }
        ensures rows { timeline self.new.inputs.players self.old.inputs.settled
            ≡ timeline self.old.inputs.players self.old.inputs.settled }
        ensures room { self.new.room ≡ self.old.room }
    {
        self.board.laws();
        let count = self.board.count(player);
        self.board.disconnect(player).unwrap();
        change_rows(&mut self.tree, &self.board, player, count);
        cut_words(&mut self.tree, player, count);
    }

    /// What the rules say of a call, apart from a full log.
    #[inline(always)]
    pub fn judge(&self, call: Call) -> Result<Heard, Refusal>
        ensures { result ≡ judged (repeats self.now.inputs (entry_of call))
            (refusal_in self.now.inputs (entry_of call)) }
    {
        let refusal = match call {
            Call::Local { player, .. } => self.board.local_refusal(player),
            Call::Remote {
                player,
                frame,
                word,
            } => return self.remote_reply(player, frame, word),
            Call::Disconnect { player } => self.board.disconnect_refusal(player),
            Call::Advance if !self.board.ready() => Some(Refusal::LocalInputMissing),
            Call::Sync | Call::Advance => None,
        };
        refusal.map_or(Ok(Heard::Taken), Err)
    }

    /// Takes a player's input.
    pub fn take(&mut self, call: Call)
    where
        S: Drop,
        requires { IsFree self.old.inputs (entry_of call) }
        ensures inputs { self.new.inputs ≡ taken_inputs self.old.inputs (entry_of call) }
        ensures states { self.new.tree.states
            ≡ taken_states self.old.inputs (entry_of call) self.old.tree.states }
        ensures rows { timeline self.new.inputs.players self.old.inputs.settled
            ≡ timeline self.old.inputs.players self.old.inputs.settled }
        ensures room { self.new.room ≡ self.old.room }
    {
        match call {
            Call::Local { player, word } => self.give(player, word),
            Call::Remote {
                player,
                frame,
                word,
            } => self.hear(player, frame, word),
            Call::Disconnect { player } => self.leave(player),
            Call::Sync | Call::Advance => {}
        }
    }

    /// Goes on after a roll for this call.
    pub fn finish_roll(&mut self, call: Call)
        requires given { entry_of call ≡ Advances → IsTrue (all_given self.old.inputs.players) }
        requires near { self.old.inputs.frame
            ≤ self.old.inputs.settled + self.old.inputs.threshold }
        requires room { self.old.inputs.frame < self.old.room }
        ensures inputs { self.new.inputs ≡ stepped_inputs self.old.inputs (entry_of call) }
        ensures tree { self.new.tree ≡ self.old.tree }
        ensures room { self.new.room ≡ self.old.room }
    {
        if let Call::Advance = call {
            self.next();
        }
    }

    /// Begins the next frame, with no word given.
    pub fn next(&mut self)
        requires given { IsTrue (all_given self.old.inputs.players) }
        requires near { self.old.inputs.frame
            ≤ self.old.inputs.settled + self.old.inputs.threshold }
        requires room { self.old.inputs.frame < self.old.room }
        ensures inputs { self.new.inputs ≡ record self.old.inputs {
          frame = self.old.inputs.frame + 1;
          players = map with_none_given self.old.inputs.players;
        } }
        ensures tree { self.new.tree ≡ self.old.tree }
        ensures room { self.new.room ≡ self.old.room }
    {
        self.board.next();
    }

    /// Settles what can be: the rows to the deepest saved state on the confirmed timeline, up to the frame.
    #[inline(always)]
    pub fn settle(&mut self)
    where
        S: Drop,
        requires { self.old.inputs.settled ≤ front self.old.inputs.players }
        ensures inputs { self.new.inputs
            ≡ record self.old.inputs { settled = self.old.inputs.settled + settling self.old } }
        ensures states { self.new.tree.states ≡ settled_by self.old (settling self.old) }
        ensures room { self.old.room ≤ self.new.room }
    {
        self.board.laws();
        let to = self.board.front().min(self.board.frame());
        let base = self.board.settled();
        if to == base {
            return;
        }
        extend_time(&mut self.tree, &self.board, to);
        let (node, end) = self.tree.deepest(to);
        self.past.append(&self.tree.time()[..(end - base) as usize]);
        self.tree.settle_at(node);
        self.board.settle(end);
    }

    /// Where a roll to a frame starts: at the deepest saved state on the timeline's way there. The tree is told the timeline that
    /// far.
    pub fn way_to(&mut self, to: u32) -> Way
        requires from { self.old.inputs.settled ≤ to }
        requires near { to ≤ self.old.inputs.settled + PATH_LIMIT }
        requires fits { length self.old.tree.states +
            (to - self.old.inputs.settled - deepest_toward self.old to) ≤ TREE_LIMIT }
        ensures going { IsGoing self.new result }
        ensures to { result.to ≡ to }
        ensures from { result.frame ≡ self.old.inputs.settled + deepest_toward self.old to }
        ensures inputs { self.new.inputs ≡ self.old.inputs }
        ensures tree { self.new.tree ≡ record self.old.tree { time = self.new.tree.time } }
        ensures room { self.new.room ≡ self.old.room }
    {
        self.board.laws();
        extend_time(&mut self.tree, &self.board, to);
        let (at, frame) = self.tree.deepest(to);
        Way { at, frame, to }
    }

    /// Takes down the plan of a roll, before its first state is saved.
    pub fn plan(&self, planner: &mut Planner, way: &Way)
        requires going { IsGoing self.now way.now }
        requires time { AreRowsOf planner.old.players (rows_to self.now.inputs way.now.to) }
        requires paths { All (AreRowsOf planner.old.players) (paths_of self.now.tree) }
        ensures { planner.new
            ≡ record planner.old {
              last = Some
                  (planned_roll self.now.tree (rows_to self.now.inputs way.now.to));
            } }
    {
        self.board.laws();
        planner.plan_from(&self.tree, way.at, way.frame, way.to);
    }

    /// The timeline's row of a frame that the tree was told of.
    pub fn told_row(&self, frame: u32) -> Row
        requires from { self.now.inputs.settled ≤ frame }
        requires told { frame < self.now.inputs.settled + length self.now.tree.time }
        ensures { result ≡ row_at self.now.inputs.players frame }
    {
        self.tree.time()[(frame - self.board.settled()) as usize]
    }

    /// Saves a state one row below another.
    pub fn add_state(&mut self, parent: usize, row: Row, snapshot: S) -> usize
    where
        S: Drop,
        requires fits { CanGrow self.old.tree parent row }
        requires few { length self.old.tree.states < TREE_LIMIT }
        ensures inputs { self.new.inputs ≡ self.old.inputs }
        ensures room { self.new.room ≡ self.old.room }
        ensures vacant { state_named self.old.tree result ≡ None }
        ensures added { IfSome (state_named self.old.tree parent)
            (λ s. self.new.tree ≡ with_state self.old.tree
            (record { name = result; path = s.path ++ row ∷ []; snapshot = snapshot })) }
    {
        match self.tree.insert(parent, row, snapshot) {
            Ok(name) => name,
            Err(_) => unreachable!(),
        }
    }

    /// Whether a row may be the timeline's of a frame: it has a cell for each player, and those known.
    pub fn allows(&self, frame: u32, row: &Row) -> bool
        ensures { result ≡ row_possible frame self.now.inputs.players row.now }
    {
        self.board.laws();
        if frame < self.board.settled() {
            Some(*row) == self.settled_row(frame)
        } else {
            self.board.allows(frame, row)
        }
    }

    /// The inputs.
    pub fn board(&self) -> &Board
        ensures { result.now ≡ self.now.inputs }
    {
        &self.board
    }

    /// The saved states.
    pub fn tree(&self) -> &Tree<S>
        ensures { result.now ≡ self.now.tree }
    {
        &self.tree
    }

    /// The confirmed word of a player at a frame, settled or not.
    pub fn confirmed_word(&self, player: u8, frame: u32) -> Option<u32>
        ensures { result ≡ confirmed_word self.now.inputs.players player frame }
    {
        self.board.confirmed_word(&self.past, player, frame)
    }

    /// A settled row. None from the settled frame on.
    pub fn settled_row(&self, frame: u32) -> Option<Row>
        ensures { result ≡ (if nat_lt frame self.now.inputs.settled then Some
            (row_at self.now.inputs.players frame) else None) }
    {
        self.past.get(frame as usize)
    }

    /// What holds of the timeline and the saved states. It does nothing.
    pub fn laws(&self)
        ensures base { self.now.tree.base ≡ self.now.inputs.settled }
        ensures reached { self.now.inputs.settled ≤ self.now.inputs.frame }
        ensures short { self.now.inputs.frame ≤ FRAME_LIMIT }
        ensures near { self.now.inputs.frame + 1 ≤ self.now.inputs.settled + PATH_LIMIT }
        ensures stays { All (λ p. p.local ≡ true → p.gone ≡ false) self.now.inputs.players }
        ensures ahead { All (λ p. p.gone ≡ false → self.now.inputs.settled
            ≤ length p.words) self.now.inputs.players }
    {
        self.board.laws();
    }

    /// Makes room for so many settled rows.
    pub fn reserve(&mut self, rows: usize) -> Result<(), AllocError>
        ensures inputs { self.new.inputs ≡ self.old.inputs }
        ensures tree { self.new.tree ≡ self.old.tree }
        ensures more { self.old.room ≤ self.new.room }
        ensures room { OnOk result (rows ≤ self.new.room) }
    {
        self.past.reserve(rows)
    }
}

/// So many rows of the timeline from the settled frame on.
fn rows_of(board: &Board, count: usize) -> ArrayVec<Row, PATH_LIMIT>
    requires { count ≤ PATH_LIMIT }
    ensures { result.items ≡ rows_from board.now.players board.now.settled count }
{
    board.laws();
    let mut rows = ArrayVec::new();
    for k in 0..count {
        rows.push(board.row(board.settled() + k as u32));
    }
    rows
}

/// Puts a player's cells, which changed from a frame on, into the timeline that a tree knows.
fn change_rows<S>(tree: &mut Tree<S>, board: &Board, player: u8, from: u32)
    requires base { tree.old.base ≡ board.now.settled }
    requires same { AreSameBut player from board.now.settled tree.old.time
        (rows_from board.now.players board.now.settled (length tree.old.time)) }
    ensures { tree.new ≡ record tree.old {
      time = rows_from board.now.players board.now.settled
          (length tree.old.time);
    } }
{
    let rows = rows_of(board, tree.time().len());
    tree.mark(player, from, rows.as_slice());
}

/// Puts a player's next word, of this frame, into the timeline that a tree knows, unless that says so already.
fn change_word<S>(tree: &mut Tree<S>, board: &Board, player: u8, from: u32, word: u32)
    requires base { tree.old.base ≡ board.now.settled }
    requires some { 1 ≤ player }
    requires early { board.now.settled ≤ from }
    requires same { AreSameBut player from board.now.settled tree.old.time
        (rows_from board.now.players board.now.settled (length tree.old.time)) }
    requires told { has_word tree.old.time (from - board.now.settled) (player - 1) word ≡ true
        → rows_from board.now.players board.now.settled (length tree.old.time) ≡ tree.old.time }
    ensures { tree.new ≡ record tree.old {
      time = rows_from board.now.players board.now.settled
          (length tree.old.time);
    } }
{
    let place = (from - tree.base()) as usize;
    if !has_word(tree.time(), place, usize::from(player) - 1, word) {
        change_rows(tree, board, player, from);
    }
}

/// Whether these rows have the word at this place in the player's cells, who is counted from 0, or end before it.
fn has_word(time: &[Row], place: usize, player: usize, word: u32) -> bool
    ensures { result ≡ has_word time.now place player word }
{
    match time.get(place) {
        Some(row) => row.get(player) == Some(Cell::Word(word)),
        None => true,
    }
}

/// Drops each state that has a word of a player in this frame or later.
fn cut_words<S: Drop>(tree: &mut Tree<S>, player: u8, from: u32)
    requires some { 1 ≤ player }
    requires base { tree.old.base ≤ from }
    requires short { tree.old.base ≤ FRAME_LIMIT }
    ensures { tree.new ≡ record tree.old {
      states = filter
          (λ s. list_all (has_no_other (player - 1) Gone)
          (drop (from - tree.old.base) s.path)) tree.old.states;
    } }
{
    tree.laws();
    for frame in from..tree.base() + PATH_LIMIT as u32 {
        tree.cut(player, frame, Cell::Gone);
    }
}

/// Tells a tree the timeline's rows up to a frame, as far as it doesn't know them.
fn extend_time<S>(tree: &mut Tree<S>, board: &Board, to: u32)
    requires base { tree.old.base ≡ board.now.settled }
    requires told { tree.old.time
        ≡ rows_from board.now.players board.now.settled (length tree.old.time) }
    requires from { board.now.settled ≤ to }
    requires near { to ≤ board.now.settled + PATH_LIMIT }
    ensures same { tree.new ≡ record tree.old { time = tree.new.time } }
    ensures told { tree.new.time
        ≡ rows_from board.now.players board.now.settled (length tree.new.time) }
    ensures far { to ≤ board.now.settled + length tree.new.time }
{
    board.laws();
    let known = board.settled() + tree.time().len() as u32;
    for frame in known..to {
        tree.tell(board.row(frame));
    }
}
