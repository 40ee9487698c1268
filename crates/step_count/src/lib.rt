// Steps that are counted at no cost.
//
// How long a method takes can be promised as how often its loops turn. Such a count is for contracts alone: `Steps` takes no
// bytes, its `tick` is no code, and nothing that runs can read it. Only `tick` raises it, by one; so a bound on it, where each
// loop ticks once a turn, bounds the turns of all loops.
#![tactic(auto)]

mod steps;

pub use steps::Steps;
