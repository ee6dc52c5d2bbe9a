//! Whether a claim is right, and what is wrong with it.
ghost use Rattle.std.specs.Prelude.{◌≡◌, ◌<◌, ◌≤◌, ◌+◌, ◌-◌, ◌↔◌, ℕ, All, [], ◌∷◌, ◌++◌, List, length, map, take, nat_eq, Some, None, Err, option_map, slice_get, IsTrue, OnOk, OnErr, IfOk, IfErr, IfSome};
ghost use Rattle.std.specs.List.{list_any};
ghost use Rattle.roll_frame.specs.declared.claim.Differ.{Differ};
ghost use Rattle.roll_frame.specs.Claims.{IsDeeper, IsShaped, IsRight, AreRowsOf, is_start, is_for, target_of, IsOnPath, IsSame};
ghost use Rattle.roll_cert.specs.declared.checking.Flaw.{Flaw};
ghost use Rattle.roll_cert.specs.declared.checking.Flaw.TheVariants.{Missing};
ghost use Rattle.roll_cert.specs.Flaws.{HasFlaw, IsFirst};
ghost use Rattle.roll_cert.specs.Checked.{IsNoted, IsGood, AreGood, AreNamed, IsFlawOf};

use roll_frame::{Claim, Differ, FRAME_LIMIT, PATH_LIMIT, PLAYER_LIMIT, Path, Row, TREE_LIMIT};
use thiserror::Error;

/// What is wrong with a claim. The number is the place of an entry or of a kept path, from 0.
#[derive(Clone, Copy, Debug, PartialEq, Eq, Error)]
pub enum Flaw {
    /// A number is past its limit, a row has another number of players, or a kept path another base.
    #[error("shape")]
    Shape,
    /// No kept path of the length that the roll started from begins the time.
    #[error("from not kept")]
    FromNotKept,
    /// The entry names no kept path that had to differ, or no place on it.
    #[error("range {0}")]
    Range(usize),
    /// The path and the time agree where the entry says that they differ.
    #[error("equal {0}")]
    Equal(usize),
    /// An earlier entry names the same path.
    #[error("twice {0}")]
    Twice(usize),
    /// The kept path had to differ, and no entry names it.
    #[error("missing {0}")]
    Missing(usize),
}

/// Which states the entries so far name.
#[derive(Drop)]
struct Named {
    first: [bool; TREE_LIMIT],
}

impl Named {
    fn new() -> Named
        ensures { IsNoted result.first [] }
    {
        Named {
            first: [false; TREE_LIMIT],
        }
    }

    fn insert(&mut self, entry: Differ)
        ensures { (entries : List Differ) → IsNoted self.old.first entries → IsNoted self.new.first
            (entries ++ entry ∷ []) }
    {
        let state = entry.state as usize;
        if state < TREE_LIMIT {
            self.first[state] = true;
        }
    }

    // The entries are those so far.
    fn contains(&self, entries: &[Differ], state: usize) -> bool
        requires { IsNoted self.now.first entries.now }
        ensures { result ≡ list_any (is_for state) entries.now }
    {
        if state < TREE_LIMIT {
            return self.first[state];
        }
        is_named(entries, state)
    }
}

fn is_named(entries: &[Differ], state: usize) -> bool
    ensures { result ≡ list_any (is_for state) entries.now }
{
    entries.iter().any(|entry| entry.state as usize == state)
}

fn have_cells(rows: &[Row], players: u8) -> bool
    ensures { IsTrue result ↔ AreRowsOf players rows.now }
{
    rows.iter().all(|row| row.count() == players)
}

fn are_shaped(paths: &[Path], base: u32, players: u8) -> bool
    ensures { IsTrue result ↔ All (λ path. (path.base ≡ base) × AreRowsOf players path.rows.items)
        paths.now }
{
    paths.iter().all(|path| path.base == base && have_cells(path.rows.as_slice(), players))
}

fn is_shaped(claim: &Claim) -> bool
    ensures { IsTrue result ↔ IsShaped claim.now }
{
    claim.base <= FRAME_LIMIT
        && 1 <= claim.players
        && usize::from(claim.players) <= PLAYER_LIMIT
        && claim.time.len() <= PATH_LIMIT
        && have_cells(claim.time.as_slice(), claim.players)
        && are_shaped(claim.kept.as_slice(), claim.base, claim.players)
}

// The frame that the roll went to.
fn target(claim: &Claim) -> u64
    requires { length claim.now.time ≤ PATH_LIMIT }
    ensures { result ≡ target_of claim.now }
{
    u64::from(claim.base) + claim.time.len() as u64
}

fn is_start(claim: &Claim, path: &Path) -> bool
    requires { length claim.now.time ≤ PATH_LIMIT }
    ensures { result ≡ is_start claim.now path.now }
{
    let from = u64::from(claim.from);
    path.frames() == from
        && from <= target(claim)
        && claim.time.as_slice().starts_with(path.rows.as_slice())
}

fn has_start(claim: &Claim) -> bool
    requires { length claim.now.time ≤ PATH_LIMIT }
    ensures { result ≡ list_any (is_start claim.now) claim.now.kept }
{
    claim
        .kept
        .as_slice()
        .iter()
        .any(|path| is_start(claim, path))
}

fn is_deeper(claim: &Claim, path: &Path) -> bool
    requires { length claim.now.time ≤ PATH_LIMIT }
    ensures { IsTrue result ↔ IsDeeper claim.now path.now }
{
    u64::from(claim.from) < path.frames() && path.frames() <= target(claim)
}

// Whether the entry names this path, which is deeper, a frame of its rows, and a player.
fn is_in_range(claim: &Claim, entry: Differ, path: &Path) -> bool
    requires { length claim.now.time ≤ PATH_LIMIT }
    ensures { IsTrue result ↔ IsOnPath claim.now entry path.now }
{
    is_deeper(claim, path)
        && claim.base <= entry.frame
        && u64::from(entry.frame) < path.frames()
        && 1 <= entry.player
        && entry.player <= claim.players
}

// Whether path and time agree at the entry's place.
fn is_same(claim: &Claim, entry: Differ, path: &Path) -> bool
    requires time { length claim.now.time ≤ PATH_LIMIT }
    requires base { path.now.base ≡ claim.now.base }
    requires range { IsOnPath claim.now entry path.now }
    ensures { IsTrue result ↔ IsSame claim.now entry path.now }
{
    let frame = (entry.frame - claim.base) as usize;
    let player = usize::from(entry.player - 1);
    path.rows.as_slice()[frame].get(player) == claim.time.as_slice()[frame].get(player)
}

fn entry_at(claim: &Claim, j: usize) -> Differ
    requires { j < length claim.now.differs }
    ensures { slice_get claim.now.differs j ≡ Some result }
{
    claim.differs.as_slice()[j]
}

fn kept_at(claim: &Claim, state: u32) -> Option<&Path>
    ensures { slice_get claim.now.kept state ≡ option_map (λ path. path.now) result }
{
    claim.kept.as_slice().get(state as usize)
}

// The first flaw of an entry, where the named states are those of the entries before it.
fn check_entry(claim: &Claim, j: usize, named: &Named) -> Result<(), Flaw>
    requires shaped { IsShaped claim.now }
    requires within { j < length claim.now.differs }
    requires named { IsNoted named.now.first (take j claim.now.differs) }
    ensures good { OnOk result ((entry : Differ) → slice_get claim.now.differs j ≡ Some entry
        → IsGood claim.now j entry) }
    ensures flaw { IfErr result (IsFlawOf claim.now j) }
{
    let entry = entry_at(claim, j);
    let Some(path) = kept_at(claim, entry.state) else {
        return Err(Flaw::Range(j));
    };
    if !is_in_range(claim, entry, path) {
        return Err(Flaw::Range(j));
    }
    if is_same(claim, entry, path) {
        return Err(Flaw::Equal(j));
    }
    if named.contains(&claim.differs.as_slice()[..j], entry.state as usize) {
        return Err(Flaw::Twice(j));
    }
    Ok(())
}

// The states that the entries name, where no entry has a flaw.
fn check_entries(claim: &Claim) -> Result<Named, Flaw>
    requires { IsShaped claim.now }
    ensures named { IfOk result (λ named. IsNoted named.first claim.now.differs) }
    ensures good { OnOk result (AreGood claim.now (length claim.now.differs)) }
    ensures flaw { IfErr result (λ flaw. (j : ℕ) × AreGood claim.now j
        × IsFlawOf claim.now j flaw) }
{
    let mut named = Named::new();
    for j in 0..claim.differs.len() {
        if let Err(flaw) = check_entry(claim, j, &named) {
            return Err(flaw);
        }
        named.insert(entry_at(claim, j));
    }
    Ok(named)
}

// The first deeper path that no entry names.
fn first_missing(claim: &Claim, named: &Named) -> Option<usize>
    requires shaped { IsShaped claim.now }
    requires named { IsNoted named.now.first claim.now.differs }
    ensures none { result ≡ None → AreNamed claim.now (length claim.now.kept) }
    ensures first { IfSome result (λ i. AreNamed claim.now i × HasFlaw claim.now (Missing i)) }
{
    for i in 0..claim.kept.len() {
        if !is_deeper(claim, &claim.kept.as_slice()[i]) {
            continue;
        }
        if !named.contains(claim.differs.as_slice(), i) {
            return Some(i);
        }
    }
    None
}

/// Whether a claim is right, and else the first of its flaws: its shape comes before its start, then comes
/// each entry in order, and then the missing entries.
pub fn check(claim: &Claim) -> Result<(), Flaw>
    ensures right { OnOk result (IsRight claim.now) }
    ensures wrong { OnErr result (IsRight claim.now → ⊥) }
    ensures first { IfErr result (IsFirst claim.now) }
    ensures only { (flaw : Flaw) → IsFirst claim.now flaw → result ≡ Err flaw }
{
    if !is_shaped(claim) {
        return Err(Flaw::Shape);
    }
    if !has_start(claim) {
        return Err(Flaw::FromNotKept);
    }
    let named = match check_entries(claim) {
        Ok(named) => named,
        Err(flaw) => return Err(flaw),
    };
    match first_missing(claim, &named) {
        Some(i) => Err(Flaw::Missing(i)),
        None => Ok(()),
    }
}
