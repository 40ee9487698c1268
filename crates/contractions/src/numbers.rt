// Lists of numbers.

ghost use Rattle.std.specs.Prelude.{◌≡◌, ◌<◌, ℕ, length, slice_index, IfOk};

use std::alloc::{AllocError, Global};

/// The numbers below `n` in increasing order. Fails only if memory runs out.
pub fn numbers_below(alloc: Global, n: u32) -> Result<Vec<u32>, AllocError>
    ensures own { IfOk result (λ numbers. (k : ℕ) → k < n → slice_index numbers.items k ≡ k) }
    ensures number { IfOk result (λ numbers. length numbers.items ≡ n) }
{
    (0..n).collect(alloc)
}
