//! Values that lie apart.
ghost use Rattle.std.specs.Prelude.{◌≡◌, IfOk, IfErr};

use std::alloc::{AllocFailed, Global};
use std::marker::Model;

/// A value in memory of its own, so that what holds it stays small. A clause sees the value alone.
#[derive(Debug, Drop)]
pub struct Boxed<T> {
    inner: Box<T>,
}

impl<T> Model for Boxed<T> {
    ghost Value = { T };

    ghost view = { λ b. b.inner.value };
}

impl<T> Boxed<T> {
    /// Where memory is refused, the value comes back.
    pub fn new(alloc: Global, value: T) -> Result<Boxed<T>, AllocFailed<T>>
        ensures boxed { IfOk result (λ boxed. boxed ≡ value) }
        ensures returned { IfErr result (λ failed. failed.value ≡ value) }
    {
        match Box::new(alloc, value) {
            Ok(inner) => Ok(Boxed { inner }),
            Err(failed) => Err(failed),
        }
    }

    /// The value.
    pub fn get(&self) -> &T
        ensures { result.now ≡ self.now }
    {
        &self.inner
    }
}
