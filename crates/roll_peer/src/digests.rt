//! The digests of the states that this machine knows to be settled.
ghost use Rattle.std.specs.Prelude.{◌≡◌, ◌≢◌, ◌≤◌, ◌<◌, ℕ, ◌%◌, Some, None, IfSome};
ghost use Rattle.roll_peer.specs.Digests.{apart, digest_at, if_between, middle, nearer, nearest, no_digests, noted, noted_at, IsAsNear};
ghost use Rattle.roll_peer.specs.declared.digests.TheConstants.{DIGEST_LIMIT};

use roll_wire::Settled;

/// How many digests are kept.
const DIGEST_LIMIT: usize = 256;

/// The digests of the frames that were noted last: each at the place of its frame modulo 256.
#[derive(Debug, Drop)]
pub(crate) struct Digests {
    places: [Option<Settled>; DIGEST_LIMIT],
    last: Option<Settled>,
}

impl Digests {
    /// No frame was noted.
    pub(crate) fn new() -> Digests
        ensures { result ≡ no_digests }
    {
        Digests {
            places: [None; DIGEST_LIMIT],
            last: None,
        }
    }

    /// Notes the digest of a frame. It takes the place of an earlier frame.
    pub(crate) fn note(&mut self, frame: u32, digest: u64)
        ensures noted { self.new ≡ noted frame digest self.old }
        ensures found { digest_at self.new frame ≡ Some digest }
        ensures left { (other : ℕ) → other % DIGEST_LIMIT ≢ frame % DIGEST_LIMIT
            → digest_at self.new other ≡ digest_at self.old other }
        ensures gone { (other : ℕ) → other % DIGEST_LIMIT ≡ frame % DIGEST_LIMIT → other ≢ frame
            → digest_at self.new other ≡ None }
    {
        let settled = Some(Settled { frame, digest });
        self.places[frame as usize % DIGEST_LIMIT] = settled;
        self.last = settled;
    }

    /// The digest of a frame, if it was noted and no later frame took its place.
    pub(crate) fn at(&self, frame: u32) -> Option<u64>
        ensures { result ≡ digest_at self.now frame }
    {
        let settled = self.noted(frame)?;
        Some(settled.digest)
    }

    /// What was noted of a frame, if no later frame took its place.
    pub(crate) fn noted(&self, frame: u32) -> Option<Settled>
        ensures { result ≡ noted_at self.now frame }
    {
        let settled = self.places[frame as usize % DIGEST_LIMIT]?;
        if settled.frame == frame {
            Some(settled)
        } else {
            None
        }
    }

    /// Of what was noted of frames from one on and before an end, that of the frame nearest to the middle between them.
    pub(crate) fn nearest(&self, from: u32, to: u32) -> Option<Settled>
        ensures is { result ≡ nearest self.now from to }
        ensures between { IfSome result (λ settled. (from ≤ settled.frame) × (settled.frame < to)) }
        ensures no_nearer { (frame : ℕ) → from ≤ frame → frame < to
            → IfSome (noted_at self.now frame) (IsAsNear (middle from to) result) }
    {
        self.nearest_among(from, to)
    }

    #[tactic(auto, using(crate::proofs::Untils::nearest_none, crate::proofs::Untils::nearest_next))]
    fn nearest_among(&self, from: u32, to: u32) -> Option<Settled>
        ensures { result ≡ nearest self.now from to }
    {
        let middle = middle(from, to);
        let mut nearest = None;
        for place in 0..DIGEST_LIMIT {
            nearest = nearer(middle, nearest, if_between(from, to, self.places[place]));
        }
        nearest
    }

    /// The frame that was noted last.
    pub(crate) fn last(&self) -> Option<Settled>
        ensures { result ≡ self.now.last }
    {
        self.last
    }
}

/// The frame in the middle between two.
fn middle(from: u32, to: u32) -> u32
    ensures { result ≡ middle from to }
{
    from + to.saturating_sub(from) / 2
}

/// How far two frames lie apart.
fn apart(one: u32, other: u32) -> u32
    ensures { result ≡ apart one other }
{
    if one < other {
        other - one
    } else {
        one - other
    }
}

/// What was noted, if its frame is the first of these or a later one, and before the end.
fn if_between(from: u32, to: u32, settled: Option<Settled>) -> Option<Settled>
    ensures { result ≡ if_between from to settled }
{
    let settled = settled?;
    if from <= settled.frame && settled.frame < to {
        Some(settled)
    } else {
        None
    }
}

/// Of two that may have been noted, the one nearer to a frame; the first if both are as near.
fn nearer(frame: u32, one: Option<Settled>, other: Option<Settled>) -> Option<Settled>
    ensures { result ≡ nearer frame one other }
{
    match (one, other) {
        (None, other) => other,
        (Some(one), None) => Some(one),
        (Some(one), Some(other)) => {
            if apart(other.frame, frame) < apart(one.frame, frame) {
                Some(other)
            } else {
                Some(one)
            }
        }
    }
}
