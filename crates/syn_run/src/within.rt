//! A run into a room.

ghost use Rattle.std.specs.Prelude.{◌≡◌};
ghost use Rattle.syn_run.specs.Readers.{category};
ghost use Rattle.syn_run.specs.Within as spec;

use crate::channel::Room;
use crate::run::run;
use std::alloc::Global;
use syn_path::supplied::Subtree;

/// A run on bytes into a room.
pub fn run_within<X: Subtree, const N: usize>(
    alloc: Global,
    name: &str,
    input: &mut &[u8],
    output: &mut Room<N>,
) -> u8
    ensures { spec.RanWithin (category X.Subtree) N name.now input.old.now
        output.old output.new (input.new ≡ input.old) result }
{
    let status = run::<X, _, _>(alloc, name, input, output);
    let _written = output.written();
    status
}
