// Lists of numbers.

ghost use Rattle.std.specs.Prelude.{◌≡◌, replicate, OnOk};

use std::alloc::AllocError;

/// Lists of numbers, kept as one list.
pub type FlatLists = multigraph::FlatLists<u32>;

/// Makes the list one of this many equal numbers. Fails only if memory runs out.
pub fn renew(list: &mut Vec<u32>, count: usize, number: u32) -> Result<(), AllocError>
    ensures { OnOk result (list.new.items ≡ replicate count number) }
{
    list.clear();
    list.resize(count, number)
}
