//! What C sees of a viewer's line.
ghost use Rattle.std.specs.Prelude.{IfNone, IfSome};
ghost use Rattle.fazgrond_c.specs.LineKinds.{AreTold, HasNoRoom};

use crate::peer_kinds::bytes_of;
use roll_frame::PLAYER_LIMIT;
use roll_viewer::LineSettings;

/// How each end of a line is opened.
#[repr(C)]
#[derive(Drop)]
pub struct LineIn {
    pub number: u64,
    pub draw: u64,
    pub digest: u64,
    pub opening: u64,
    pub host: u32,
    pub machines: u32,
    pub owners: [u32; PLAYER_LIMIT],
    pub silent_after: u32,
}

impl LineIn {
    /// The line, if each number has room where it belongs.
    pub fn settings(&self) -> Option<LineSettings>
        ensures told { IfSome result (AreTold self.now) }
        ensures none { IfNone result (HasNoRoom self.now) }
    {
        let (Ok(host), Ok(machines)) = (u8::try_from(self.host), u8::try_from(self.machines)) else {
            return None;
        };
        let owners = bytes_of(&self.owners)?;
        Some(LineSettings {
            number: self.number,
            draw: self.draw,
            host,
            machines,
            owners,
            digest: self.digest,
            opening: self.opening,
            silent_after: self.silent_after,
        })
    }
}

/// How far the two ends of a line are.
#[repr(C)]
#[derive(Drop)]
pub struct LineState {
    pub rows: u32,
    pub settled: u32,
    pub silence: u32,
    pub is_playing: u32,
    pub has_ended: u32,
    pub is_silent: u32,
}
