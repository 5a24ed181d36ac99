ghost use Rattle.std.specs.Prelude.{◌≡◌, ◌≤◌, ⊤};

use std::alloc::AllocError;

mod items;
pub(crate) mod zones;

// A list of up to eight items: the first `used` of an array, since lists are passed by value and the library has no heap.
pub struct ShortList<T> {
    items: [T; 8],
    used: usize,
    ghost fits: { used ≤ 8 },
}

// Written out: of a struct with a ghost field that holds items of any type, `Clone` cannot be derived.
impl<T: Copy> Clone for ShortList<T> {
    ghost is_clone = { λ list copy. copy ≡ list };

    ghost is_infallible = { λ _. ⊤ };

    fn clone(&self) -> Result<ShortList<T>, AllocError> {
        Ok(*self)
    }
}

impl<T: Copy> Copy for ShortList<T> {}

// The zones that have a copy, the owner first.
pub type CacheList = ShortList<u8>;
