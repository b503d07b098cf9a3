//! What the options of several commands mean.

ghost use Rattle.std.specs.Prelude.{◌≡◌, ◌++◌, ◌∷◌, [], false, OnOk, ◌<◌};
ghost use Rattle.command_parts.specs.Options.{calls_if_asked, style_of, is_any as is_any_by};

use cli::arguments::args::Cycles;
use diagram::Style;
use std::alloc::AllocError;
use std::thread::{Threads, available_parallelism};

/// Adds a call to the list, if it is asked for.
pub fn put_call<C: Drop>(calls: &mut Vec<C>, is_asked: bool, call: C) -> Result<(), AllocError>
    ensures { OnOk result (calls.new.items ≡ calls.old.items ++ calls_if_asked is_asked (call ∷ [])) }
{
    if is_asked {
        calls.push(call)?;
    }
    Ok(())
}

/// How many threads a hunt or a search has: as many as are asked for, or, at 0, as there are processors; 1 where that isn't known.
pub fn jobs_of<T: Threads>(rt: &T, asked: u64) -> u64
    ensures { 0 < asked → result ≡ asked }
{
    if asked > 0 {
        return asked;
    }
    match available_parallelism(rt) {
        Ok(processors) => processors.get() as u64,
        Err(_) => 1,
    }
}

/// The style of a drawing.
pub fn style_of(svg: bool) -> Style
    ensures { result ≡ style_of svg }
{
    if svg { Style::Svg } else { Style::Text }
}

/// Whether anybody may give up in the cycle.
pub fn is_any(cycles: Cycles) -> bool
    ensures { result ≡ is_any_by cycles }
{
    match cycles {
        Cycles::Nobody => false,
        Cycles::Any => true,
    }
}
