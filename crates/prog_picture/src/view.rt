//! Where frames lie.
ghost use Rattle.std.specs.Prelude.{◌≡◌, ◌≤◌};
ghost use Rattle.prog_picture.specs.Views.{IsView, step_of, view_of, x_of};

use crate::scene::Scene;

/// The most frames that a picture shows.
pub const FRAME_LIMIT: u32 = 600;

/// The frames that are shown, and how wide each of them is.
#[derive(Clone, Copy)]
pub struct View {
    pub from: u32,
    /// The frame after the last one.
    pub to: u32,
    /// In units of the picture.
    pub step: u32,
}

/// The frames of a scene that are shown.
pub fn view_of(scene: &Scene) -> View
    ensures value { result ≡ view_of scene.now }
    ensures view { IsView result }
{
    let from = scene.from;
    let to = scene.to.max(from).min(from.saturating_add(FRAME_LIMIT));
    View {
        from,
        to,
        step: step_of(to - from),
    }
}

/// How wide a frame is where so many are shown.
fn step_of(frames: u32) -> u32
    ensures value { result ≡ step_of frames }
    ensures range { (2 ≤ result) × (result ≤ 60) }
{
    (1200 / frames.max(1)).max(2).min(60)
}

impl View {
    /// Where a frame begins, in units from the left; a frame that isn't shown lies at the nearer end.
    pub fn x_of(&self, frame: u32) -> u32
        requires { IsView self.now }
        ensures value { result ≡ x_of self.now frame }
        ensures within { result ≤ 36100 }
    {
        let shown = frame.max(self.from).min(self.to);
        100 + self.step * (shown - self.from)
    }
}
