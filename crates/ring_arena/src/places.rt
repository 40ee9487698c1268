// The place of a node in its block, and the node at a place.

ghost use Rattle.std.specs.Prelude.{◌≡◌, ℕ, ◌*◌, ◌<◌, ◌^◌, length, slice_get, Some};
ghost use Rattle.std.specs.Mem.{type_size};
ghost use Rattle.std.specs.Vec.{vec_capacity, vec_ptr};
ghost use denote.RawPtr.{InBlock, ◌+ₚ◌};

use std::alloc::Allocator;
use std::mem::size_of;

// The elements of a vector lie in a block, which is no larger than a block can be.
pub(crate) fn fits<T, A: Allocator>(v: &Vec<T, A>)
    ensures in_block { InBlock (vec_ptr v.now) }
    ensures room { vec_capacity v.now * type_size T.row < 2 ^ 63 }
{}

// The place of element i.
pub(crate) fn place<T, A: Allocator>(v: &Vec<T, A>, i: usize) -> *const T
    requires { i < vec_capacity v.now }
    ensures value { result ≡ vec_ptr v.now +ₚ i * type_size T.row }
    ensures in_block { InBlock (vec_ptr v.now) }
{
    fits(v);
    unsafe { v.as_ptr().byte_add(i * size_of::<T>()) }
}

// The element at a place.
pub(crate) fn behind<T, A: Allocator>(v: &Vec<T, A>, at: *const T) -> &T
    requires { (i : ℕ) × (i < length v.now.items) × (at ≡ vec_ptr v.now +ₚ i * type_size T.row) }
    ensures { (i : ℕ) → i < length v.now.items → 0 < type_size T.row
        → at ≡ vec_ptr v.now +ₚ i * type_size T.row → slice_get v.now.items i ≡ Some result.now }
{
    unsafe { &*at }
}
