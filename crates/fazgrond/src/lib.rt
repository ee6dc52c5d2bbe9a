//! Rollback sessions for lockstep games between peers, with the interface of the GGPO SDK, and workers that run ahead on guesses.
//!
//! This is all that a game needs of the library, under one name. A game brings its rules, and sockets, clock, controllers and
//! picture. It gets the state to show at each frame, and for each rollback a claim that another program can check.
//!
//! - **A game** says what its states are and what a row of inputs makes of them: [`game::RawGame`] and [`game::Game`]; with
//!   [`game::Shown`] its states have a text. [`SyncTest`] finds out whether it comes out the same each time.
//! - **A session** plays it on one thread: [`Settings`] and [`Session`]. A call that is not taken answers a [`Refusal`].
//! - **Over a network**: a [`Match`] of several machines ([`MatchSettings`]) stands beside a session. It makes and hears datagrams,
//!   and says what happened ([`PeerEvent`]). The session stays the program's, and is lent to its calls.
//!   If frames are dear, inputs that came wait until another thread has run their frames: then no frame is run again on the thread
//!   that draws. Where the line between two of three or more machines may break, others carry what goes between the two.
//! - **In epochs** a match goes on when somebody comes, comes back, or is to have another delay: a mark ([`Match::mark`]) on a word says so,
//!   and where it counts the epoch ends. A [`Chain`] has the terms of the first one ([`epochs`]). The session of the next one
//!   begins with the state at the end of this one, once it has an engine of the game ([`Match::give_engine`]).
//! - **Beside other threads**: [`Host`] has a session, [`Link`]s that bring remote words from the network's thread, and the
//!   workers of a [`Crew`], which run guesses ahead.
//! - **Guesses** worth making: [`Habits`] has what was seen of a player, and chooses them. [`PlayerHabits`] chooses them by parts of
//!   its words too, if the game says which bits belong together ([`WordParts`]).
//! - **Spectators** get the settled rows from a [`Feed`], and run them on any thread: [`Spectator`]. On other machines they get
//!   them by datagrams: [`ViewerLine`] is the host's end, [`Viewer`] the viewer's.
//! - **States** that the others don't have go to them in pieces, before a match: [`states`].
//! - **Claims** of rollbacks are checked, written and read by [`claims`].
//!
//! The main loop of a match over a network, in each turn:
//!
//! 1. [`Match::receive`] for each datagram that has come.
//! 2. [`Match::turn`].
//! 3. Once [`Match::is_running`] says that the match has begun, [`Session::add_local_input`] with the word of the buttons, and
//!    [`Session::advance_frame`]. If the first answers [`Refusal::PredictionThreshold`], this machine is too far ahead, and waits:
//!    [`Session::synchronize_input`]. Then [`Session::current`] is the state to show.
//! 4. [`Match::note`] with a digest of the settled state, and [`Match::next`] until there is no datagram to send.
//! 5. [`Match::event`] until there is none.
//!
//! The program `example_two_peers` is this loop, and `example_on_threads` the one with a host; both use this crate alone.
#![tactic(auto)]

pub use roll_branch::Branch;
pub use roll_branch::Done;
pub use roll_branch::Job;
pub use roll_branch::PackedRoute;
pub use roll_branch::extend;
pub use roll_cert as claims;
pub use roll_chain::Chain;
pub use roll_chain::ticket_for;
pub use roll_epoch as epochs;
pub use roll_frame::Advice;
pub use roll_frame::Cell;
pub use roll_frame::Claim;
pub use roll_frame::Entry;
pub use roll_frame::Event;
pub use roll_frame::FRAME_LIMIT;
pub use roll_frame::LOG_LIMIT;
pub use roll_frame::PLAYER_LIMIT;
pub use roll_frame::Path;
pub use roll_frame::Profile;
pub use roll_frame::Refusal;
pub use roll_frame::Reply;
pub use roll_frame::Row;
pub use roll_frame::Settings;
pub use roll_frame::SettingsFault;
pub use roll_game as game;
pub use roll_guess::Guess;
pub use roll_guess::Habits;
pub use roll_guess::PartHabits;
pub use roll_guess::PartsRefusal;
pub use roll_guess::PlayerHabits;
pub use roll_guess::Ranking;
pub use roll_guess::WordParts;
pub use roll_host::Absorbed;
pub use roll_host::Host;
pub use roll_host::HostReply;
pub use roll_host::HostRequest;
pub use roll_host::LINK_LIMIT;
pub use roll_host::Pumped;
pub use roll_host::TURN_LIMIT;
pub use roll_link::Finished;
pub use roll_link::LINK_ROOM;
pub use roll_link::Link;
pub use roll_link::LinkSender;
pub use roll_link::Remote;
pub use roll_link::SendFault;
pub use roll_match::Lasting;
pub use roll_match::Match;
pub use roll_match::Turn;
pub use roll_match::Unheard;
pub use roll_match::Unmarked;
pub use roll_member::JoinRefusal;
pub use roll_peer::Field;
pub use roll_peer::Ignored;
pub use roll_peer::MarkRefusal;
pub use roll_peer::MatchSettings;
pub use roll_peer::OpenRefusal;
pub use roll_peer::PeerEvent;
pub use roll_peer::PeerRefusal;
pub use roll_peer::Stats;
pub use roll_peer::ends_in_roll;
pub use roll_pool::Crew;
pub use roll_pool::Gate;
pub use roll_pool::IssueFault;
pub use roll_pool::JOBS_OUT;
pub use roll_pool::OpenGate;
pub use roll_pool::Outcome;
pub use roll_pool::Owner;
pub use roll_pool::WORKER_LIMIT;
pub use roll_pool::WorkerEnd;
pub use roll_pool::start_all;
pub use roll_relay::HeldFault;
pub use roll_session::Call;
pub use roll_session::Grafted;
pub use roll_session::Heard;
pub use roll_session::Log;
pub use roll_session::Logged;
pub use roll_session::Networked;
pub use roll_session::Parts;
pub use roll_session::Plan;
pub use roll_session::Reached;
pub use roll_session::RemoteWord;
pub use roll_session::ReplayFault;
pub use roll_session::Request;
pub use roll_session::Session;
pub use roll_session::Settling;
pub use roll_session::Source;
pub use roll_session::StartFault;
pub use roll_spectate::Feed;
pub use roll_spectate::RING_ROWS;
pub use roll_spectate::RowReceiver;
pub use roll_spectate::RowSender;
pub use roll_spectate::SPECTATOR_LIMIT;
pub use roll_spectate::Spectator;
pub use roll_spectate::SpectatorFault;
pub use roll_spectate::open_ring;
pub use roll_state as states;
pub use roll_synctest::SyncTest;
pub use roll_synctest::Verdict;
pub use roll_text as text;
pub use roll_viewer::LineFault;
pub use roll_viewer::LineRefusal;
pub use roll_viewer::LineSettings;
pub use roll_viewer::Viewer;
pub use roll_viewer::ViewerLine;
pub use roll_viewer::WAITING_LIMIT;
pub use roll_wire::DATAGRAM_LIMIT;
pub use roll_wire::Mark;
pub use roll_wire::Newcomer;
