//! The sizes of an arena's world, for contracts alone.

ghost use Rattle.std.specs.Prelude.{Option};
ghost use Rattle.table_runs.specs.declared.setup.Setup.{Setup};

use std::marker::Brand;

/// The sizes of the world in which an arena's members step. A member's type may name them. Then each step that its contract
/// speaks of is a step of a world with these sizes.
pub trait Sizes {
    ghost named: { Option Setup };
}

impl Sizes for Brand {
    ghost use Rattle.std.specs.Prelude.{None};

    ghost named = { None };
}

/// Sizes that a member's type doesn't name.
#[derive(Drop)]
pub struct AnySizes;

impl Sizes for AnySizes {
    ghost use Rattle.std.specs.Prelude.{None};

    ghost named = { None };
}
