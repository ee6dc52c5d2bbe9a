//! A session of a game elsewhere, and how far its machine was behind.
ghost use Rattle.std.specs.Prelude.{◌≡◌, ◌==◌, [], length, is_none, unwrap_or, None, IfErr, IfOk, IsSomeAnd, if◌then◌else◌};
ghost use Rattle.roll_cert.specs.Texts.{claim_lines};
ghost use Rattle.roll_frame.specs.Settings.{start_refusal};
ghost use Rattle.roll_session.specs.Changes.{IsWhy};
ghost use Rattle.roll_session.specs.Headline.{last_claim};
ghost use Rattle.roll_text.specs.Lines.{text_of};
ghost use Rattle.fazgrond_c.specs.Made.{asked, closing_in, IsStarted};

use crate::online::Online;
use roll_cert::write;
use roll_frame::{Advice, Refusal, Settings};
use roll_requests::{Closing, Elsewhere};
use std::alloc::Global;

/// An open session, and the match that it plays over a network, if it plays one.
#[derive(Drop)]
pub struct Live {
    pub session: Elsewhere,
    /// How far this machine and the other were behind.
    pub advice: Advice,
    /// The last requests of the epoch before, if there was one: they go ahead of the session's.
    pub closing: Option<Closing>,
    /// What is added to the numbers of its jobs, so that none has the number that another one had in the epoch before.
    pub first_job: u32,
    pub network: Option<Online>,
}

impl Live {
    /// Opens a session. The game elsewhere has its opening as the current state, and in slot 0.
    ///
    /// # Errors
    ///
    /// What is wrong with the settings, else `NoMemory`.
    pub fn open(alloc: Global, settings: Settings) -> Result<Live, Refusal>
        ensures session { IfOk result (λ live. IsStarted settings live.session) }
        ensures advice { IfOk result (λ live. live.advice ≡ []) }
        ensures closing { IfOk result (λ live. live.closing ≡ None) }
        ensures first_job { IfOk result (λ live. live.first_job ≡ 0) }
        ensures network { IfOk result (λ live. live.network ≡ None) }
        ensures refused { IfErr result (IsWhy (start_refusal settings)) }
    {
        if let Some(why) = settings.refusal() {
            return Err(why);
        }
        let advice = Advice::new(alloc)?;
        let session = Elsewhere::start(alloc, settings)?;
        Ok(Live {
            session,
            advice,
            closing: None,
            first_job: 0,
            network: None,
        })
    }

    /// Whether the last requests of the epoch before were taken.
    pub fn is_closed(&self) -> bool
        ensures { result ≡ (length (closing_in self.now) == 0) }
    {
        is_closed(&self.closing)
    }

    /// Whether all requests were taken.
    pub fn is_done(&self) -> bool
        ensures { result ≡ (length (asked self.now) == 0) }
    {
        self.is_closed() && self.session.is_done()
    }

    /// The text of the claim of the last rollback.
    ///
    /// # Errors
    ///
    /// `NoPlan` if there was none, else `NoMemory`.
    pub fn claim(&self, alloc: Global) -> Result<Vec<u8>, Refusal>
        ensures text { IfOk result (λ text. IsSomeAnd (last_claim self.now.session.seen)
            (λ claim. text.items ≡ text_of (claim_lines claim))) }
        ensures refused { IfErr result (λ why. why ≡ (if is_none (last_claim self.now.session.seen)
            then Refusal.NoPlan else Refusal.NoMemory)) }
    {
        let claim = self.session.claim(alloc)?;
        let text = write(alloc, &claim)?;
        Ok(text)
    }
}

/// Whether the last requests of the epoch before, if there was one, were taken.
pub fn is_closed(closing: &Option<Closing>) -> bool
    ensures { result ≡ (length (unwrap_or closing.now []) == 0) }
{
    match closing {
        Some(closing) => closing.is_done(),
        None => true,
    }
}
