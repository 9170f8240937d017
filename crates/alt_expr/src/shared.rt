//! A value with several owners, which contracts see as that value, so that a tree of them is plain data.

ghost use Rattle.std.specs.Prelude.{◌≡◌, IfOk};

use alt_base::NoMemory;
use std::alloc::Global;
use std::marker::Model;
use std::rc::Rc;

/// A value on the heap. It goes with its last owner.
#[derive(Drop)]
pub struct Shared<T> {
    inner: Rc<T, Global>,
}

impl<T> Model for Shared<T> {
    ghost Value = { T };

    ghost coded = { T.code };

    ghost view = { λ s. s.inner.value };
}

impl<T> Shared<T> {
    /// What it holds.
    pub fn get(&self) -> &T
        ensures same { result.now ≡ self.now }
    {
        self.inner.as_ref()
    }
}

impl<T: Drop> Shared<T> {
    /// Puts a value on the heap.
    pub fn new(alloc: Global, value: T) -> Result<Shared<T>, NoMemory>
        ensures same { IfOk result (λ s. s ≡ value) }
    {
        Ok(Shared {
            inner: Rc::new(alloc, value)?,
        })
    }

    /// One owner more, without a copy. `NoMemory` where the count of the owners is full.
    pub fn share(&self) -> Result<Shared<T>, NoMemory>
        ensures same { IfOk result (λ s. s ≡ self.now) }
    {
        Ok(Shared {
            inner: self.inner.clone()?,
        })
    }
}
