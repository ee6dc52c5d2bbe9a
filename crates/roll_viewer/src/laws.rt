//! Laws of viewers' lines.
ghost use Rattle.roll_viewer.specs.Seeing.{ViewersSeeSettledRows};

/// Whatever the network loses, delays, doubles or reorders of the bytes that a host sends: the rows that a viewer has had are the
/// host's first settled rows, and a play that is heard brings all that it tells, unless 64 wait, or as many came as a
/// session has frames. A play is heard if the host believes the viewer to have no more rows than it has, both ends
/// believe each other's draws, and neither has said bye.
///
/// Other bytes may come too, but what is sealed by the draws of both ends was sent by a host's line of this number:
/// that nobody else makes a tag rests on HMAC with SHA-256, and is no theorem. The viewer takes the match to have as
/// many players as the host's session has, as hellos compare. That all rows come at last, tests alone show
/// (`tests/programs/duel/test`).
pub fn viewers_see_settled_rows()
    ensures { ViewersSeeSettledRows }
{}
