// An item by its key, by binary search.

ghost use Rattle.std.specs.Prelude.{◌≡◌, ◌<◌, ◌^◌, ℕ, length, map};
ghost use Rattle.multigraph.specs.Part.{Rises};
ghost use Rattle.skeletons.specs.Items.{item_key, nth_item};

use pair_split::Item;

/// The place of the item with this key among items in increasing order of their keys, by binary search.
pub fn item_with_key(items: &[Item], key: u32) -> u32
    requires rising { Rises (map item_key items.now) }
    requires few { length items.now < 2 ^ 32 }
    requires held { (i : ℕ) × (i < length items.now) × ((nth_item items.now i).key ≡ key) }
    ensures within { result < length items.now }
    ensures key { (nth_item items.now result).key ≡ key }
{
    match items.binary_search_by_key(&key, |item| item.key) {
        Ok(place) => place as u32,
        Err(_) => unreachable!(),
    }
}
