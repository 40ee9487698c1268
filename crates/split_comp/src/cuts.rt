// The cuts of the stack that the search keeps.

ghost use Rattle.std.specs.Prelude.{◌≡◌, ◌+◌, ◌-◌, ◌<◌, ◌≤◌, length, IfOk};
ghost use Rattle.split_comp.specs.Noting.{IsTakenLower, IsNoted, IsDropped, IsLastCut};

use crate::items::StackCut;
use std::alloc::AllocError;
use std::sync::ledger::Ledger;
use step_count::Steps;

// The last cut from place `base` on.
pub(crate) fn last_cut(cuts: &[StackCut], base: usize) -> Option<StackCut>
    ensures { IsLastCut base cuts.now result }
{
    if cuts.len() > base {
        return cuts.last().copied();
    }
    None
}

// Removes the cuts from place `base` on whose upper end is greater than that of the new one, from the last one on, and returns
// the cut that replaces them: the new one, or the last one removed with the upper end of the new one.
fn take_lower<L: Ledger>(
    cuts: &mut Vec<StackCut>,
    base: usize,
    new: StackCut,
    steps: &mut Steps<L>,
) -> StackCut
    requires { base ≤ length cuts.old.items }
    ensures taken { IsTakenLower base new cuts.old.items cuts.new.items result }
    ensures cost { steps.new + length cuts.new.items ≡ steps.old + length cuts.old.items }
{
    let mut kept = new;
    while cuts.len() > base && cuts[cuts.len() - 1].up > new.up {
        steps.tick();
        let taken = cuts[cuts.len() - 1];
        cuts.truncate(cuts.len() - 1);
        kept = StackCut {
            start: taken.start,
            up: new.up,
            low: taken.low,
        };
    }
    kept
}

/// Notes a new cut after those before place `base`, and after those from there on that it leaves. Fails only if memory runs
/// out.
pub(crate) fn note<L: Ledger>(
    cuts: &mut Vec<StackCut>,
    base: usize,
    new: StackCut,
    steps: &mut Steps<L>,
) -> Result<(), AllocError>
    requires { base ≤ length cuts.old.items }
    ensures noted { IfOk result (λ _. IsNoted base new cuts.old.items cuts.new.items) }
    ensures cost { IfOk result (λ _. steps.new + length cuts.new.items
        ≡ steps.old + length cuts.old.items + 1) }
    ensures at_most { steps.new ≤ steps.old + length cuts.old.items }
    ensures rises { steps.old ≤ steps.new }
{
    let kept = take_lower(cuts, base, new, steps);
    cuts.push(kept)?;
    Ok(())
}

/// Drops the last cuts, from place `base` on, that start after place `first`.
pub(crate) fn drop_later<L: Ledger>(
    cuts: &mut Vec<StackCut>,
    base: usize,
    first: usize,
    steps: &mut Steps<L>,
)
    requires { base ≤ length cuts.old.items }
    ensures dropped { IsDropped base first cuts.old.items cuts.new.items }
    ensures cost { steps.new + length cuts.new.items ≡ steps.old + length cuts.old.items }
{
    while cuts.len() > base && cuts[cuts.len() - 1].start > first {
        steps.tick();
        cuts.truncate(cuts.len() - 1);
    }
}
