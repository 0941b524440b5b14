// Items in an array of fixed length, of which the first are in use.
ghost use Rattle.std.specs.Prelude.{◌≡◌, ◌<◌, ◌≤◌, ◌+◌, [], ◌∷◌, ◌++◌, length, take, Ok, Err, ⊤};

use std::alloc::AllocError;

pub struct Shelf<T: Copy, const N: usize> {
    pub items: [T; N],
    pub len: usize,
    ghost fits: { len ≤ N },
    ghost whole: { length (take len items) ≡ len },
}

impl<T: Copy, const N: usize> Clone for Shelf<T, N> {
    ghost is_clone = { λ x y. y ≡ x };

    ghost is_infallible = { λ _. ⊤ };

    fn clone(&self) -> Result<Self, AllocError> {
        Ok(*self)
    }
}

impl<T: Copy, const N: usize> Copy for Shelf<T, N> {}

// There is no room: a limit would be passed.
#[derive(Clone, Copy, PartialEq, Eq, Debug)]
pub struct Full;

impl<T: Copy, const N: usize> Shelf<T, N> {
    // None in use; the others are filled with this one.
    pub fn new(filler: T) -> Self
        ensures { result.len ≡ 0 }
    {
        Shelf {
            items: [filler; N],
            len: 0,
        }
    }

    // The items in use.
    pub fn as_slice(&self) -> &[T]
        ensures { result.now ≡ take self.now.len self.now.items }
    {
        &self.items[..self.len]
    }

    // One more at the end; nothing changes where there is no room.
    pub fn push(&mut self, item: T) -> Result<(), Full>
        ensures { elim result [ Ok u ↦ (take self.new.len self.new.items ≡ take self.old.len self.old.items ++ (item ∷ [])) × (self.new.len ≡ self.old.len + 1) | Err e ↦ (N ≤ self.old.len) × (self.new ≡ self.old) ] }
    {
        if self.len >= N {
            return Err(Full);
        }
        self.items[self.len] = item;
        self.len += 1;
        Ok(())
    }
}
