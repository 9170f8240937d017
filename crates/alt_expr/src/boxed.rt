//! A `Box` that contracts see as what it holds, so that a tree of them is plain data.

ghost use Rattle.std.specs.Prelude.{◌≡◌, IfOk};

use alt_base::NoMemory;
use std::alloc::Global;
use std::marker::Model;

/// A value on the heap.
#[derive(Debug, Drop)]
pub struct Boxed<T> {
    inner: Box<T>,
}

impl<T> Model for Boxed<T> {
    ghost Value = { T };

    ghost coded = { T.code };

    ghost view = { λ b. b.inner.value };
}

impl<T> Boxed<T> {
    /// What it holds.
    pub fn get(&self) -> &T
        ensures same { result.now ≡ self.now }
    {
        &self.inner
    }
}

impl<T: Drop> Boxed<T> {
    /// Puts a value on the heap.
    pub fn new(alloc: Global, value: T) -> Result<Boxed<T>, NoMemory>
        ensures same { IfOk result (λ b. b ≡ value) }
    {
        Ok(Boxed {
            inner: Box::new(alloc, value)?,
        })
    }
}
