// What is wanted of a node: the heaviest face of a dart, or of all.

ghost use Rattle.std.specs.Prelude.{◌≡◌, ◌≢◌, ◌<◌, ◌≤◌, ◌*◌, ◌/◌, ◌^◌, ◌-◌, ℕ, List, length};
ghost use Rattle.dart_maps.specs.Map.{twin};
ghost use Rattle.multigraph.specs.Graph.{Multigraph};
ghost use Rattle.pair_split.specs.declared.components.Kind.TheVariants.{P, R};
ghost use Rattle.long_face.specs.Heaviest.{IsGreatest, IsHeaviest, IsOtherGreatest, number_in};
ghost use Rattle.long_face.specs.Numbers.{AreFaceNumbers};
ghost use Rattle.long_face.specs.Wanted.{on_wanted};

use crate::wants::Want;
use faces::twin;
use pair_split::Kind;

// The place of a greatest number.
fn greatest(numbers: &[u32]) -> usize
    requires { 0 < length numbers.now }
    ensures within { result < length numbers.now }
    ensures most { (i : ℕ) → i < length numbers.now
        → number_in numbers.now i ≤ number_in numbers.now result }
{
    let mut place = 0;
    for i in 0..numbers.len() {
        if numbers[place] < numbers[i] {
            place = i;
        }
    }
    place
}

// The place of a greatest number but for that at the given place.
fn other_greatest(numbers: &[u32], place: usize) -> usize
    requires { 2 ≤ length numbers.now }
    ensures { IsOtherGreatest numbers.now place result }
{
    let mut other = if place == 0 { 1 } else { 0 };
    for i in 0..numbers.len() {
        if i != place && numbers[other] < numbers[i] {
            other = i;
        }
    }
    other
}

// The heaviest face of the dart of a node of this kind: of a bond with items of these weights, and of a triconnected node the darts of which
// have faces of these sums.
pub(crate) fn want_of(kind: Kind, weights: &[u32], sums: &[u32], dart: u32) -> Want
    requires bond { kind ≡ P → (length weights.now < 2 ^ 31) × (2 ≤ length weights.now)
        × (dart < 2 * length weights.now) }
    requires sides { kind ≡ R → (n : ℕ) × (length sums.now ≡ 2 * n) × (dart < 2 * n) }
    ensures { IsHeaviest kind (length weights.now) (number_in weights.now) (number_in sums.now) dart
        result }
{
    let item = dart / 2;
    match kind {
        Kind::P => {
            let other = other_greatest(weights, item as usize) as u32;
            let (first, second) = if dart % 2 == 0 {
                (other, item)
            } else {
                (item, other)
            };
            Want {
                dart,
                turned: false,
                first,
                second,
            }
        }
        Kind::R => Want {
            dart,
            turned: sums[dart as usize] < sums[twin(dart) as usize],
            first: 0,
            second: 0,
        },
        Kind::S | Kind::B => Want {
            dart,
            turned: false,
            first: 0,
            second: 0,
        },
    }
}

// The heaviest face of all: of a node of this kind with items of these weights, the darts of which have faces of these sums.
pub(crate) fn greatest_want(kind: Kind, weights: &[u32], sums: &[u32]) -> Want
    requires few { length weights.now < 2 ^ 31 }
    requires some { 0 < length weights.now }
    requires several { kind ≡ P → 2 ≤ length weights.now }
    requires sums { length sums.now ≡ 2 * length weights.now }
    ensures { IsGreatest kind (length weights.now) (number_in weights.now) (number_in sums.now)
        result }
{
    match kind {
        Kind::P => {
            let first = greatest(weights);
            let second = other_greatest(weights, first) as u32;
            Want {
                dart: 2 * second,
                turned: false,
                first: first as u32,
                second,
            }
        }
        Kind::S | Kind::R | Kind::B => Want {
            dart: greatest(sums) as u32,
            turned: false,
            first: 0,
            second: 0,
        },
    }
}

// Whether the dart is on the wanted face, of a node of this kind the faces of which have these numbers by their darts.
pub(crate) fn is_wanted(kind: Kind, numbers: &[u32], want: Want, dart: u32) -> bool
    requires faces { (g : Multigraph) × (r : List (List ℕ)) × AreFaceNumbers g r numbers.now }
    requires few { length numbers.now < 2 ^ 32 }
    requires wanted { want.dart < length numbers.now }
    requires pair { kind ≡ P → (2 * want.first < 2 ^ 32 - 1) × (2 * want.second < 2 ^ 32) }
    requires dart { dart < length numbers.now }
    ensures { (g : Multigraph) (r : List (List ℕ)) → AreFaceNumbers g r numbers.now
        → result ≡ on_wanted kind g r want dart }
{
    match kind {
        Kind::P => dart == twin(2 * want.first) || dart == 2 * want.second,
        Kind::R if want.turned => {
            numbers[twin(want.dart) as usize] == numbers[twin(dart) as usize]
        }
        Kind::S | Kind::R | Kind::B => numbers[want.dart as usize] == numbers[dart as usize],
    }
}
