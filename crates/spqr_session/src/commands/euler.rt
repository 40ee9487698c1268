// `euler ROT`: the numbers of a rotation system of the whole graph.
ghost use Rattle.std.specs.Prelude.{◌≡◌, IfOk};
ghost use Rattle.rotations.specs.Rotation.{IsRotationSystem};
ghost use Rattle.spqr_script.specs.Answers.Euler.{euler_text};
ghost use Rattle.spqr_session.specs.State.{State};
ghost use Rattle.spqr_session.specs.Commands.Euler.{EulerOn, euler_numbers};

use crate::code::Code;
use multigraph::Graph;
use rotations::{Lists, RotFault, Rotation};
use spqr_script::euler_line;
use std::alloc::{AllocError, Global};

// The line with the numbers of a rotation system.
fn numbers_line(alloc: Global, g: &Graph, r: &Rotation) -> Result<Vec<u8>, AllocError>
    requires { IsRotationSystem g.now r.now }
    ensures { IfOk result (λ text. text.items ≡ euler_text (euler_numbers g.now r.now)) }
{
    let numbers = faces::euler(alloc, g, r)?;
    euler_line(alloc, &numbers)
}

/// Carries out `euler`: the numbers of the rotation system that the lists are, or code 6 with the least number at which they
/// are not one. Nothing changes.
pub(crate) fn carry_euler(alloc: Global, g: &Graph, lists: &Lists) -> Result<Vec<u8>, AllocError>
    ensures { (s : State) → IfOk result (λ text. EulerOn g.now lists.now s text.items s) }
{
    match Rotation::from_lists(alloc, g, lists) {
        Ok(rotation) => numbers_line(alloc, g, &rotation),
        Err(fault) => match fault {
            RotFault::BadRotation(v) => Code::BadRotation(v).line(alloc),
            RotFault::Memory => Err(AllocError),
        },
    }
}
