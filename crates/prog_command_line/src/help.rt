//! Texts of `--help` and `--version`.

pub const VERSION: &str = "0.3.0";

pub const PROGRAM: &str = "\
Plays scripts of rollback sessions, tests games, and checks the claims of rollbacks.

A rollback session keeps a game for several players going while inputs of remote players are
under way: it predicts them, and where a prediction turns out wrong, it goes back and runs those
frames again. A script stands for the players and the network, so that this can be followed line
by line. Without a command a script is read from standard input, and the game is tally.

A game for such a session has to come out the same each time that frames are run again. A sync test
looks for one that doesn't: `rollduel synctest --help` tells how.

A claim says of one rollback that none from a saved state that it lists would have run fewer
frames. It can be checked without the session that made it: `rollduel certify --help` tells how.

With `--explain` play, synctest and certify say more on standard error: which file can't be read and
why, what is wrong with a line, and which call was refused for what.";

pub const PLAY: &str = "Plays a script, and prints what the session answers to each line";

/// What is told of scripts: their lines, and the answers.
pub const SCRIPT: &str = "\
A script's first line opens the session, and each further line is a call:

  roll 1 players P local p,.. delay d,.. threshold K
           P players; the local ones; each player's input delay in frames;
           how many frames it may go past those with all inputs confirmed
  L p w    the input of local player p is the word w
  R p f w  the input of remote player p for frame f is the word w
  D p      player p leaves
  S        synchronize: frames that were predicted wrong are run again
  A        advance to the next frame
  G p until w,..  guess player p's next words: makes a job, to run frames up to `until` with them
  B j      branch: job j is run on a second game, and its states are saved for later rolls
  C        claim: the proof that the last S or A ran no frame too many

Numbers are decimal. `roll 2` has `mask m,..` before the threshold: for each player, the bits of
the word that are predicted to stay as they are. `roll 3` is `roll 2` with the wide limits.

S and A are answered by `frame N from F rerun R settled T state X`: the session is at frame N; it
loaded the state of frame F and ran R frames; frames below T are final; the game's state is X.
G is answered by `job J rows K`, where K frames are to be run, or by `kept`, where their states are
saved already; B by `added A`, the number of new states. If the words come as guessed, S and A start
from those states, and have fewer frames to run: try the file examples/guessed-input.roll.
C is answered by the lines of a claim, which `rollduel certify` checks. A call that the session
doesn't take, as a C before any S or A, is answered by `refused N`, and the script goes on.

Example (the file examples/late-input.roll), where player 2's word for frame 0 comes late:

  roll 1 players 2 local 1 delay 0,0 threshold 8
  L 1 1
  A
  L 1 1
  A
  R 2 0 3
  S

It prints:

  ok
  frame 1 from 0 rerun 1 settled 0 state 1
  ok
  frame 2 from 1 rerun 1 settled 0 state 11
  taken
  frame 2 from 0 rerun 2 settled 1 state 77

With `rollduel play FILE --picture OUT.svg` the play is drawn too: the players' words frame by frame
as the session knew them, its rollbacks, and the states that were saved at one of them.

Exit status: 0; 1 where an answer was `refused N`; 2 where the script can't be read, a line of it
is unreadable, memory runs out, or the answers or the picture can't be written.";

pub const LIVE: &str = "Plays a script on threads: a link, and workers that run guesses ahead";

pub const LIVE_SCRIPT: &str = "\
The script is one for `rollduel play`, whose help explains the lines. Here a host plays it, as a game
does whose remote inputs come from a network thread: they go through a link, and the guesses are run by
worker threads while the script goes on. So these lines are answered in another way:

  R p f w  the word is sent on the link, and what has come on it is taken: `taken`, `repeated`, or
           `refused N` where the session doesn't take the word
  S        `frame N state X`: how many frames were run again depends on what the workers have done
  A        the same
  G        nothing: the guess goes to the workers
  B j      nothing: the states are saved that the workers have finished by now, whatever j is
  C        nothing

What is printed is the same however the threads run. A word whose frame is 100 or more past the
session's frame makes its line unreadable.

Example (the file examples/late-input.roll), where player 2's word for frame 0 comes late:

  roll 1 players 2 local 1 delay 0,0 threshold 8
  L 1 1
  A
  L 1 1
  A
  R 2 0 3
  S

It prints, with any number of workers:

  ok
  frame 1 state 1
  ok
  frame 2 state 11
  taken
  frame 2 state 77

Exit status: 0; 1 where an answer was `refused N`; 2 where the script can't be read, a line of it
is unreadable, memory runs out, a thread can't be started, or the answers can't be written.";

pub const WORKERS: &str = "How many worker threads there are, from 1 to 4";

pub const PICTURE: &str =
    "Draws the play as an SVG into this file; one that is there is overwritten only if it is a picture";

pub const FROM: &str = "The first frame of the picture; 0 if not given";

pub const TO: &str =
    "The frame after its last one, 600 past the first at most; if not given, so many or up to the end";

pub const TREE: &str =
    "Shows the states saved at this frame's rollback; if not given, at the deepest one";

pub const SYNCTEST: &str =
    "Tests whether a game comes out the same twice, and prints what is found at each row";

pub const AGAIN: &str = "How many frames are run again at once, from 1 to 8";

pub const ROWS: &str = "\
A rollback is right only where a game comes out the same each time that it runs the same inputs from
the same state. A sync test runs each frame twice and compares the results: where they differ, the
game depends on something besides its state and its inputs. The first line of the file tells how
many players there are, and each further line is a row, the inputs of one frame:

  rolltest 1 players P   1 to 4 players
  1,3                    a row: a word for each player, or x for one who is gone

After every N rows, where `--frames` says N, the second run loads the state that it saved last, and
runs those N frames again. Each row is answered by one of these:

  run          the frame was run once; it is run again with those after it
  verified F   so many frames in all came out the same twice
  mismatch F   frame F, the first being frame 0, came out different; the test ends with it

Tally and duel never come out different. A test that doesn't start, as a duel of one player, is
answered by `refused N` alone.

Example (the file examples/two-frames.rows):

  rolltest 1 players 2
  1,3
  1,3

It prints:

  verified 1
  verified 2

With `--frames 2` it prints `run` and `verified 2`, and with `--frames 3` twice `run`.

Exit status: 0; 1 where a frame came out different, or the answer was `refused N`; 2 where the file
can't be read, a line of it is unreadable, memory runs out, or the answers can't be written.";

pub const CERTIFY: &str = "Checks the claim of a rollback, and prints whether it is right";

pub const CLAIM: &str = "\
A rollback starts from a saved state and runs frames up to some frame. The fewer frames it runs the
better, so it should start from the longest saved path that agrees with the inputs by now. A claim
is the proof that it did: it lists the inputs, the paths of saved states, and for each longer path
a place where it differs from the inputs. It speaks of the paths that it lists; a claim that `C`
prints in a script lists all that were kept. Its lines are:

  rollcert 1         2 where there are 5 to 8 players
  players P
  base B             frames below B are final, and every path here begins at frame B
  from F             the frame of the state that the rollback started from
  time N             the inputs: N lines follow, a row for each frame from B on; a row is a word
  1,3                for each player, or x for one who is gone
  kept K             the paths: K lines follow, the rows of a path each; - for none
  -
  1,0
  differs D          the differences: D lines follow
  1 2 2              path 1, the first being path 0, differs in frame 2 at player 2

It is answered by `yes: from F to T rerun R`: the rollback started from frame F and ran R frames,
up to frame T, and no listed state would have done with fewer. Or by `no:` and what is wrong first:

  from not kept      no listed path of F frames agrees with the inputs
  range J            entry J names no path that had to differ, or no place on it
  equal J            at the place of entry J, path and inputs are the same
  twice J            an earlier entry names the same path as entry J
  missing I          no entry names path I, which had to differ

Example (the file examples/branch-ahead.claim):

  rollcert 1
  players 2
  base 2
  from 2
  time 1
  1,3
  kept 2
  -
  1,0
  differs 1
  1 2 2

It prints:

  yes: from 2 to 3 rerun 1

Exit status: 0 for yes; 1 for no; 2 where the claim can't be read, a line of it is unreadable,
memory runs out, or the answer can't be written.";
