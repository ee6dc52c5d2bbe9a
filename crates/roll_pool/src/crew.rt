//! Workers in threads of their own.
ghost use Rattle.std.specs.Prelude.{◌≡◌, ◌<◌, ◌≤◌, [], ◌∷◌, ◌++◌, map, length, vec_len, vec_capacity, IfOk, IfErr, OnOk};
ghost use Rattle.roll_pool.specs.Crews.{places_in};
ghost use Rattle.roll_pool.specs.Served.{AreBack, HasServed};

use crate::handle::Handle;
use crate::signals::Signals;
use crate::worker::WorkerEnd;
use roll_frame::Refusal;
use roll_game::Game;
use std::alloc::{AllocError, Global};
use std::marker::Model;
use std::sync::{Arc, Wait};
use std::thread::Threads;

/// A worker's thread, and the signals that it hears.
#[derive(Drop)]
struct Post<G: Game + Drop> {
    handle: Handle<G>,
    signals: Arc<Signals, Global>,
}

/// A clause sees the worker as the thread was given it.
impl<G: Game + Drop> Model for Post<G> {
    ghost use Rattle.roll_branch.specs.declared.branch.Done.{Done};
    ghost use Rattle.roll_pool.specs.Served.{Member};

    ghost Value = { Member (Done G G.State G.Snapshot) };

    ghost view = { λ p. p.handle };
}

impl<G: Game + Drop> Post<G> {
    /// Starts a worker.
    fn start<R>(rt: R, end: WorkerEnd<G>, game: G) -> Result<Post<G>, Refusal>
    where
        R: Threads + Wait + Copy + Send + 'static,
        G: Send + 'static,
        G::State: Send + 'static,
        G::Snapshot: Send + 'static,
        ensures post { IfOk result
            (λ post. post ≡ record { end = end; counts = G.call_counts game }) }
        ensures refused { IfErr result (λ why. why ≡ Refusal.NoMemory) }
    {
        let signals = Arc::try_clone(&end.signals)?;
        let handle = Handle::start(rt, end, game)?;
        Ok(Post { handle, signals })
    }

    /// Closes the pool, and waits for the worker.
    fn join<R: Threads>(self, rt: &R) -> (WorkerEnd<G>, G)
        ensures { HasServed self (record { end = result.0; counts = G.call_counts result.1 }) }
    {
        let Post { handle, signals } = self;
        let closed = signals.close();
        handle.join(rt, closed)
    }
}

/// The threads of a pool's workers. It can be let go by `join` alone.
pub struct Crew<G: Game + Drop> {
    posts: Vec<Post<G>>,
    // Room for what comes back.
    ends: Vec<WorkerEnd<G>>,
    games: Vec<G>,
}

/// A clause sees the workers as their threads were given them, in order.
impl<G: Game + Drop> Model for Crew<G> {
    ghost use Rattle.std.specs.Prelude.{◌≡◌, ◌≤◌, [], List, vec_len, vec_capacity};
    ghost use Rattle.roll_branch.specs.declared.branch.Done.{Done};
    ghost use Rattle.roll_pool.specs.Crews.{HasRoomFor};
    ghost use Rattle.roll_pool.specs.Served.{Member};

    ghost Value = { List (Member (Done G G.State G.Snapshot)) };

    ghost view = { λ c. c.posts.items };

    ghost invariant = { λ c. HasRoomFor (vec_len c.posts) c.ends.items (vec_capacity c.ends) × HasRoomFor (vec_len c.posts) c.games.items (vec_capacity c.games) };
}

impl<G: Game + Drop> Crew<G> {
    /// Nobody.
    pub(crate) fn new(alloc: Global) -> Crew<G>
        ensures { result ≡ [] }
    {
        Crew {
            posts: Vec::new(alloc),
            ends: Vec::new(alloc),
            games: Vec::new(alloc),
        }
    }

    /// One worker more, in a thread of its own.
    pub(crate) fn hire<R>(&mut self, rt: R, end: WorkerEnd<G>, game: G) -> Result<(), Refusal>
    where
        R: Threads + Wait + Copy + Send + 'static,
        G: Send + 'static,
        G::State: Send + 'static,
        G::Snapshot: Send + 'static,
        ensures hired { OnOk result
            (self.new ≡ self.old ++ record { end = end; counts = G.call_counts game } ∷ []) }
        ensures refused { IfErr result (λ why. why ≡ Refusal.NoMemory) }
    {
        make_room(&mut self.posts, &mut self.ends, &mut self.games)?;
        let post = Post::start(rt, end, game)?;
        self.posts.push_reserved(post);
        Ok(())
    }

    /// Closes the pool, waits for all workers, and gives back their ends and games, in order.
    pub fn join<R: Threads>(self, rt: &R) -> (Vec<WorkerEnd<G>>, Vec<G>)
        ensures ends { map (λ end. end.place) result.0.items ≡ places_in self }
        ensures games { vec_len result.1 ≡ length self }
        ensures served { AreBack self result.0.items
            (map (λ game. G.call_counts game) result.1.items) }
    {
        let Crew {
            posts,
            mut ends,
            mut games,
        } = self;
        for post in posts {
            let (end, game) = post.join(rt);
            ends.push_reserved(end);
            games.push_reserved(game);
        }
        (ends, games)
    }
}

/// Makes room for one post more, and for what comes back of each.
fn make_room<P, E, N>(
    posts: &mut Vec<P>,
    ends: &mut Vec<E>,
    games: &mut Vec<N>,
) -> Result<(), AllocError>
    requires ends { ends.old.items ≡ [] }
    requires games { games.old.items ≡ [] }
    ensures posts { posts.new.items ≡ posts.old.items }
    ensures ends { (ends.new.items ≡ []) × (vec_capacity ends.old ≤ vec_capacity ends.new) }
    ensures games { (games.new.items ≡ []) × (vec_capacity games.old ≤ vec_capacity games.new) }
    ensures room { OnOk result ((vec_len posts.old < vec_capacity posts.new)
        × (vec_len posts.old < vec_capacity ends.new)
        × (vec_len posts.old < vec_capacity games.new)) }
{
    posts.reserve(1)?;
    let room = posts.capacity();
    ends.reserve(room)?;
    games.reserve(room)
}
