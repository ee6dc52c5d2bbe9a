//! The sentences for the numbers of answers and of events.
ghost use Rattle.std.specs.Prelude.{◌≡◌, ◌++◌, drop, length, take};
ghost use Rattle.fazgrond_c.specs.Texts.{event_text, handle_text, job_text, packet_text, session_text, sentence_of, text_of};

/// Writes of a text as much as a buffer has room for to its front, and says how long the text is.
pub fn write_front(out: &mut [u8], text: &[u8]) -> usize
    ensures written { out.new
        ≡ take (length out.old) text.now ++ drop (length text.now) out.old }
    ensures size { result ≡ length text.now }
{
    let count = text.len().min(out.len());
    out[..count].copy_from_slice(&text[..count]);
    text.len()
}

/// The sentence for the number of an answer or of an event. It is empty if there is no such number.
pub fn sentence_of(code: i32) -> &'static str
    ensures { result.now ≡ sentence_of code }
{
    match u32::try_from(code) {
        Ok(number) => text_of(number),
        Err(_) => "",
    }
}

/// The sentence for a number from 0 on.
fn text_of(number: u32) -> &'static str
    ensures { result.now ≡ text_of number }
{
    if number < 108 {
        session_text(number)
    } else if number < 200 {
        job_text(number)
    } else if number < 300 {
        handle_text(number)
    } else if number < 1000 {
        packet_text(number)
    } else {
        event_text(number)
    }
}

/// What a session answers.
fn session_text(number: u32) -> &'static str
    ensures { result.now ≡ session_text number }
{
    match number {
        0 => "done",
        2 => "no such player, or not this kind of player",
        3 => "the number of players is out of range",
        4 => "the prediction threshold is reached",
        9 => "the player is disconnected",
        11 => "invalid request",
        101 => "a local input is missing",
        102 => "the input was given already",
        103 => "an earlier input is missing",
        104 => "the input conflicts with a confirmed one",
        105 => "the input queue is full",
        106 => "the frame limit is reached",
        107 => "out of memory",
        _ => "",
    }
}

/// What a session answers of jobs and of what it keeps.
fn job_text(number: u32) -> &'static str
    ensures { result.now ≡ job_text number }
{
    match number {
        108 => "the job's states are not of this session",
        109 => "the job goes over 24 frames past the settled one",
        110 => "the job comes too late: all its frames are settled",
        111 => "the state that the job was run from is not kept any more",
        112 => "the job's guess was wrong: another word has come",
        113 => "as many states are kept as jobs may fill",
        114 => "the log is full",
        117 => "there is no rollback to make a claim of",
        119 => "64 jobs are out",
        120 => "no such job",
        _ => "",
    }
}

/// What a call through a handle answers.
fn handle_text(number: u32) -> &'static str
    ensures { result.now ≡ handle_text number }
{
    match number {
        201 => "the handle is closed, or of another kind",
        202 => "requests are still to be taken",
        203 => "there is no such thing",
        204 => "the buffer is too short",
        205 => "the struct is of another version",
        _ => "",
    }
}

/// What becomes of packets.
fn packet_text(number: u32) -> &'static str
    ensures { result.now ≡ packet_text number }
{
    match number {
        301 => "not of this match or opening, or changed on its way",
        302 => "no datagram of this version",
        303 => "no such machine",
        304 => "this machine itself",
        305 => "the machine is gone",
        306 => "the other end means another match",
        307 => "the packet has more words than there are",
        308 => "the line has ended",
        309 => "the other end didn't send it",
        310 => "no rows of this match's players",
        311 => "rows in between are missing",
        312 => "it speaks of machines or players that the match hasn't",
        313 => "the session isn't this match's",
        314 => "an ask for a taker, or a piece for a giver",
        315 => "of another state",
        316 => "the sender gave a wrong state",
        317 => "the pieces of another machine are taken for now",
        318 => "the state has no such piece",
        319 => "a piece of another length",
        320 => "a state of too many bytes",
        321 => "the match takes no marks",
        322 => "the player has a mark already",
        323 => "the words of an input have other delays than each other",
        324 => "the words of an input have two owners",
        325 => "too many words: all inputs have 8 at most together",
        326 => "there is no number with a machine: it is 0",
        327 => "the threshold of a mark is too great",
        328 => "a delay of a mark is over 8 frames",
        329 => "a mark gives a delay to a player of another machine",
        330 => "the ticket of a mark isn't that of its name",
        331 => "jobs are out: graft or forget them first",
        332 => "the inputs of all players have 32 bytes at most together, each rounded up to 4",
        333 => "a setting of the match is out of its range",
        334 => "the inputs of a turn have another length than the match's",
        _ => "",
    }
}

/// What an event tells.
fn event_text(number: u32) -> &'static str
    ensures { result.now ≡ event_text number }
{
    match number {
        1001 => "a machine was heard of, and the match isn't played with it yet",
        1002 => "this machine and another have heard each other",
        1003 => "the match begins",
        1004 => "the player is disconnected",
        1005 => "this machine is ahead, and should wait for the others",
        1006 => "a machine has been silent for a while",
        1007 => "a machine that was silent was heard again",
        1101 => "a machine is regarded as gone",
        1102 => "a machine has another state at a settled frame",
        1103 => "a machine means another match",
        1104 => "it is over here: another machine regards this one as gone, or it was cut off",
        1105 => "a machine was opened anew in the middle of the match",
        1106 => "a machine holds up the match",
        1107 => "something that a machine sealed was refused",
        1108 => "a machine hasn't come so far",
        1109 => "this machine hears too few of the others",
        1110 => "a machine hasn't come so far, and datagrams come that aren't of this match",
        1111 => "a machine knows another mark of a player",
        _ => "",
    }
}
