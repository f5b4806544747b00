ghost use Rattle.std.specs.Prelude.{◌≡◌, IfOk};

use crate::Memory;
use std::alloc::Global;

/// A type whose values can be copied, where memory is left.
pub trait TryClone: Sized {
    /// A copy that equals its source. `Memory` comes where there is no room for it.
    fn try_clone(&self, alloc: Global) -> Result<Self, Memory>
        ensures { IfOk result (λ copy. copy ≡ self.now) };
}

impl TryClone for u64 {
    fn try_clone(&self, _alloc: Global) -> Result<u64, Memory> {
        Ok(*self)
    }
}

impl<T: TryClone> TryClone for Option<T> {
    fn try_clone(&self, alloc: Global) -> Result<Option<T>, Memory> {
        match self {
            None => Ok(None),
            Some(value) => Ok(Some(value.try_clone(alloc)?)),
        }
    }
}

impl TryClone for Memory {
    fn try_clone(&self, _alloc: Global) -> Result<Memory, Memory> {
        Ok(*self)
    }
}
