//! Room for events to come.
ghost use Rattle.std.specs.Prelude.{◌≡◌, ◌<◌, ◌-◌, max, OnErr, OnOk};
ghost use Rattle.roll_session.specs.Held.{HasRoom};

use crate::log::Log;
use crate::saves::Saves;
use std::alloc::AllocError;

/// Room is made for so many events at once, or for more, so that few calls have to look for it.
const AT_ONCE: u32 = 16;

/// How many events more need no memory.
#[derive(Clone, Copy)]
pub struct Room {
    /// Those that were asked for and haven't come yet.
    pub promised: u32,
    /// Those that there is room for: as many, or more.
    pub there: u32,
}

impl Room {
    /// Makes room for so many events more, unless it is there.
    #[inline(always)]
    pub fn promise<S>(
        &mut self,
        log: &mut Log,
        saves: &mut Saves<S>,
        events: u32,
    ) -> Result<(), AllocError>
        requires { HasRoom log.old saves.old self.old }
        ensures log { log.new.entries ≡ log.old.entries }
        ensures inputs { saves.new.inputs ≡ saves.old.inputs }
        ensures tree { saves.new.tree ≡ saves.old.tree }
        ensures kept { HasRoom log.new saves.new self.new }
        ensures promised { OnOk result (self.new.promised ≡ max self.old.promised events) }
        ensures unchanged { OnErr result (self.new ≡ self.old) }
        ensures short { OnErr result (self.old.promised < events) }
    {
        if events > self.there {
            let count = events.max(AT_ONCE);
            let rows = saves.board().frame() as usize + count as usize;
            log.reserve(count as usize)?;
            saves.reserve(rows)?;
            self.there = count;
        }
        self.promised = self.promised.max(events);
        Ok(())
    }

    /// An event came.
    #[inline(always)]
    pub fn spend(&mut self)
        ensures promised { self.new.promised ≡ self.old.promised - 1 }
        ensures there { self.new.there ≡ self.old.there - 1 }
    {
        self.promised = self.promised.saturating_sub(1);
        self.there = self.there.saturating_sub(1);
    }
}
