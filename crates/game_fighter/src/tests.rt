//! What no clause says: that the rule is the game that was meant, and that a sync test and a session run it.
use crate::fight::Fight;
use crate::fighter::Fighter;
use crate::state::State;
use fazgrond::game::{Call as Asked, Counts, Game, NoMemory, RawGame, Refusing};
use fazgrond::{Call, Cell, Refusal, Request, Row, Session, Settings, SyncTest, Verdict};
use std::alloc::Global;
use std::test::Fail;

/// A session of two players, of whom the first is local. The second is predicted to hold what it held.
fn open<G: Game + Drop>(
    alloc: Global,
    game: G,
    opening: G::Snapshot,
) -> Result<Session<G>, Refusal> {
    let settings = Settings::new(2, &[1])?;
    match Session::start(alloc, game, opening, settings) {
        Ok(session) => Ok(session),
        Err(fault) => Err(fault.why),
    }
}

fn fighter(place: u16, health: u8, cool: u8) -> Fighter {
    Fighter {
        place,
        health,
        cool,
    }
}

/// Two fighters who have all their health and have cooled.
fn fresh(one: u16, two: u16) -> State {
    State {
        one: fighter(one, 100, 0),
        two: fighter(two, 100, 0),
    }
}

fn row(first: u32, second: u32) -> Row {
    Row::from_cells(&[Cell::Word(first), Cell::Word(second)])
}

/// The snapshot after some rows. The game is reached through the trait alone, as a session reaches it.
fn run<G: Game>(game: &mut G, from: &G::Snapshot, rows: &[Row]) -> Result<G::Snapshot, NoMemory> {
    let from = game.copy(from)?;
    let mut state = game.load(&from)?;
    for row in rows {
        game.advance(&mut state, row)?;
    }
    game.save(&state)
}

/// A fighter's place, health and frames to cool.
type Shape = (u16, u8, u8);

/// Two fighters, a row of words, and what it makes of them. LEFT is 1, RIGHT is 2, HIT is 4.
type Case = (&'static str, [Shape; 2], [u32; 2], [Shape; 2]);

const CASES: [Case; 10] = [
    (
        "both ways",
        [(300, 100, 0), (700, 100, 0)],
        [3, 8],
        [(300, 100, 0), (700, 100, 0)],
    ),
    (
        "first place",
        [(3, 100, 0), (700, 100, 0)],
        [1, 0],
        [(0, 100, 0), (700, 100, 0)],
    ),
    (
        "last place",
        [(300, 100, 0), (996, 100, 0)],
        [0, 2],
        [(300, 100, 0), (999, 100, 0)],
    ),
    (
        "out of reach",
        [(300, 100, 0), (341, 100, 0)],
        [4, 4],
        [(300, 100, 0), (341, 100, 0)],
    ),
    (
        "in reach",
        [(300, 100, 0), (340, 100, 0)],
        [4, 0],
        [(300, 100, 12), (340, 90, 0)],
    ),
    (
        "from the right",
        [(340, 100, 0), (300, 100, 0)],
        [4, 0],
        [(340, 100, 12), (300, 90, 0)],
    ),
    (
        "at the same time",
        [(300, 100, 0), (310, 100, 0)],
        [4, 4],
        [(300, 90, 12), (310, 90, 12)],
    ),
    (
        "walk, then hit",
        [(300, 100, 0), (348, 100, 0)],
        [6, 1],
        [(304, 100, 12), (344, 90, 0)],
    ),
    (
        "cooling",
        [(300, 100, 2), (310, 100, 1)],
        [4, 4],
        [(300, 90, 1), (310, 100, 12)],
    ),
    (
        "little health",
        [(300, 100, 0), (310, 7, 0)],
        [4, 0],
        [(300, 100, 12), (310, 0, 0)],
    ),
];

fn state(shapes: [Shape; 2]) -> State {
    let [one, two] = shapes;
    State {
        one: fighter(one.0, one.1, one.2),
        two: fighter(two.0, two.1, two.2),
    }
}

#[test]
fn plays_by_the_rule(rt: HostRuntime) -> Result<(), NoMemory> {
    for (name, before, words, after) in CASES {
        let row = row(words[0], words[1]);
        let reached = run(&mut Fight::new(), &state(before), &[row])?;
        assert_eq!(rt; reached, state(after), "{name}");
    }
    let walked = run(&mut Fight::new(), &Fight::opening(), &[row(2, 1)])?;
    assert_eq!(rt; walked, fresh(474, 526));
    Ok(())
}

#[test]
fn asks_nothing_of_who_is_not_there(rt: HostRuntime) -> Result<(), NoMemory> {
    let rows = [
        row(2, 0),
        Row::new(Cell::Word(2)),
        Row::from_cells(&[Cell::Word(2), Cell::Gone]),
        Row::from_cells(&[Cell::Word(2), Cell::Word(0), Cell::Word(7)]),
    ];
    for row in rows {
        let after = run(&mut Fight::new(), &fresh(300, 310), &[row])?;
        assert_eq!(rt; after, fresh(304, 310), "{row:?}");
    }
    Ok(())
}

#[test]
fn counts_what_it_is_asked_for(rt: HostRuntime) -> Result<(), NoMemory> {
    let mut game = Fight::default();
    run(&mut game, &Fight::opening(), &[row(0, 0), row(0, 0)])?;
    let want = Counts {
        loads: 1,
        saves: 1,
        copies: 1,
        turns: 2,
        refusals: 0,
    };
    assert_eq!(rt; game.counts(), want);
    Ok(())
}

#[test]
fn passes_its_sync_test(rt: HostRuntime) -> Result<(), Refusal> {
    let mut test = match SyncTest::new(rt.alloc(), Fight::new(), fresh(300, 340), 2) {
        Ok(test) => test,
        Err(fault) => return Err(fault.why),
    };
    for (row, want) in [
        (row(6, 1), Verdict::Run),
        (row(4, 4), Verdict::Verified(2)),
        (row(0, 0), Verdict::Run),
    ] {
        assert_eq!(rt; test.step(&row)?, want);
    }
    Ok(())
}

/// Player 1 hits in frame 0. Player 2 seems to stand still, and then turns out to have walked out of reach.
const LATE: [Call; 6] = [
    Call::Local { player: 1, word: 4 },
    Call::Advance,
    Call::Local { player: 1, word: 0 },
    Call::Advance,
    Call::Remote {
        player: 2,
        frame: 0,
        word: 2,
    },
    Call::Sync,
];

#[test]
fn takes_back_a_hit_that_missed(rt: HostRuntime) -> Result<(), Fail> {
    let mut session = open(rt.alloc(), Fight::new(), fresh(300, 340))?;
    for call in &LATE[..4] {
        session.perform(Request::Call(*call))?;
    }
    let health = session.current().map(|state| state.two.health);
    assert_eq!(rt; health, Some(90));
    for call in &LATE[4..] {
        session.perform(Request::Call(*call))?;
    }
    let serial = run(&mut Fight::new(), &fresh(300, 340), &[row(4, 2), row(0, 2)])?;
    assert_eq!(rt; serial, fresh(300, 348));
    assert_eq!(rt; session.current().copied(), Some(serial));
    Ok(())
}

/// Makes the calls, each a second time where it was refused, and answers how many were.
fn insist<G: Game + Drop>(session: &mut Session<G>) -> Result<u32, NoMemory> {
    let mut refused: u32 = 0;
    for call in LATE {
        if session.perform(Request::Call(call)).is_err() {
            refused = refused.saturating_add(1);
            session.perform(Request::Call(call))?;
        }
    }
    Ok(refused)
}

/// Whether a session comes to the end as if no call had been refused. One was refused unless it is still due.
fn goes_on(session: &mut Session<Refusing<Fight>>) -> Result<bool, NoMemory> {
    let refused = insist(session)?;
    let reached = session.current().copied();
    let due = session.game().due();
    Ok(reached == Some(fresh(300, 348)) && (refused == 1) == (due == 0))
}

#[test]
fn goes_on_after_a_refused_call(rt: HostRuntime) -> Result<(), Fail> {
    for asked in [Asked::Load, Asked::Save, Asked::Copy, Asked::Advance] {
        for k in 1..8 {
            let game = Refusing::new(Fight::new(), asked, k);
            let went_on = match open(rt.alloc(), game, fresh(300, 340)) {
                Ok(mut session) => goes_on(&mut session),
                Err(why) => Ok(why == Refusal::NoMemory),
            };
            assert_eq!(rt; went_on, Ok(true), "{asked:?} {k}");
        }
    }
    Ok(())
}
