//! Laws of what spectators are sent.
ghost use Rattle.roll_spectate.specs.Sent.{SentRowsStay};

/// What was sent of a session's settled rows stays a first part of them, however the session goes on: so over any
/// pushes of one session, what a ring was sent is always a first part of its settled rows.
pub fn sent_rows_stay()
    ensures { SentRowsStay }
{}
