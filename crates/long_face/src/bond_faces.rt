// The faces of a bond, by its choice: where a key follows another around the lesser pole, the dart of its item that leaves this pole and
// the dart of the other item that arrives there are a face.

ghost use Rattle.std.specs.Prelude.{◌≡◌, ◌<◌, ◌*◌, ◌^◌, length, map, slice_index_or, IfOk, IsPermutation};
ghost use Rattle.permutations.specs.Cyclic.{successor};
ghost use Rattle.multigraph.specs.Part.{Rises};
ghost use Rattle.skeletons.specs.Items.{item_key, nth_item};
ghost use Rattle.long_face.specs.Bonds.{AreBondNumbers};

use pair_split::Item;
use skel_compose::item_with_key;
use skel_decompose::renew;
use std::alloc::AllocError;

// The item whose key follows the key at this place in the cyclic order.
fn item_after(items: &[Item], keys: &[u32], place: usize) -> u32
    requires rising { Rises (map item_key items.now) }
    requires few { length items.now < 2 ^ 31 }
    requires all { IsPermutation (map item_key items.now) keys.now }
    requires place { place < length keys.now }
    ensures within { result < length items.now }
    ensures key { (nth_item items.now result).key ≡ successor keys.now (slice_index_or keys.now place 0) }
{
    let next = place + 1;
    let key = if next == keys.len() {
        keys[0]
    } else {
        keys[next]
    };
    item_with_key(items, key)
}

// Numbers the faces, each by its dart that leaves the lesser pole.
fn number_pairs(items: &[Item], keys: &[u32], numbers: &mut [u32])
    requires rising { Rises (map item_key items.now) }
    requires few { length items.now < 2 ^ 30 }
    requires some { 0 < length items.now }
    requires all { IsPermutation (map item_key items.now) keys.now }
    requires places { length numbers.old ≡ 2 * length items.now }
    ensures { AreBondNumbers items.now keys.now numbers.new }
{
    let mut here = item_with_key(items, keys[0]);
    for place in 0..keys.len() {
        let next = item_after(items, keys, place);
        numbers[2 * here as usize] = 2 * here;
        numbers[2 * here as usize + 1] = 2 * next;
        here = next;
    }
}

// Numbers the faces of a bond with these items, the keys of which are in this cyclic order around the lesser pole, by their darts. The numbers
// are put into `numbers`, in time n log n. Fails only if memory runs out.
pub(crate) fn bond_numbers(
    items: &[Item],
    keys: &[u32],
    numbers: &mut Vec<u32>,
) -> Result<(), AllocError>
    requires rising { Rises (map item_key items.now) }
    requires few { length items.now < 2 ^ 30 }
    requires some { 0 < length items.now }
    requires all { IsPermutation (map item_key items.now) keys.now }
    ensures { IfOk result (λ _. AreBondNumbers items.now keys.now numbers.new.items) }
{
    renew(numbers, 2 * items.len(), 0)?;
    number_pairs(items, keys, numbers);
    Ok(())
}
