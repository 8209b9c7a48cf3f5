//! Flags at places of a list that grows up to the last one that is set.
ghost use Rattle.std.specs.Prelude.{◌≡◌, ◌==◌, ◌||◌, ℕ, true, OnOk, OnErr};
ghost use Rattle.inc_text.specs.Flags.{flag_at};

use std::alloc::AllocError;

/// The flag at a place; those past the list are not set.
#[inline(always)]
pub fn flag_at(flags: &[bool], at: usize) -> bool
    ensures { result ≡ flag_at flags.now at }
{
    at < flags.len() && flags[at]
}

/// Sets the flag at a place, up to which the list grows. All these steps together are no more than the list is long. Where
/// memory runs out, no flag changes.
pub fn set_flag(flags: &mut Vec<bool>, at: usize) -> Result<(), AllocError>
    ensures set { OnOk result ((j : ℕ) →
        flag_at flags.new.items j ≡ ((j == at) || flag_at flags.old.items j)) }
    ensures kept { (j : ℕ) → flag_at flags.old.items j ≡ true → flag_at flags.new.items j ≡ true }
    ensures same { OnErr result ((j : ℕ) → flag_at flags.new.items j ≡ flag_at flags.old.items j) }
{
    while flags.len() <= at {
        flags.push(false)?;
    }
    flags[at] = true;
    Ok(())
}
