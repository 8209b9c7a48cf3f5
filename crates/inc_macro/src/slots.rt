//! Where in a table a name may be, without its hash: 16,384 slots of two bytes, each shared by the names of one length and three bytes. They
//! are laid out at once, with the first macro.
ghost use Rattle.std.specs.Prelude.{◌≡◌, ◌<◌, ◌≤◌, ℕ, true, length, OnOk};
ghost use Rattle.inc_macro.specs.NameSlots.{is_taken, slot_of};

use std::alloc::AllocError;

/// How many slots there are.
const SLOTS: usize = 16_384;

/// The slot of a name, which other names may share: by its length and three of its bytes, since that is cheaper than a hash.
#[inline(always)]
pub(crate) fn slot_of(name: &[u8]) -> usize
    ensures slot { result ≡ slot_of name.now }
    ensures within { result < SLOTS }
{
    let len = name.len();
    if len == 0 {
        return 0;
    }
    let first = usize::from(name[0]);
    let middle = usize::from(name[len / 2]);
    let last = usize::from(name[len - 1]);
    (first + 37 * middle + 1_009 * last + 4_099 * (len % 64)) % SLOTS
}

/// Whether a slot is taken.
#[inline(always)]
pub(crate) fn is_taken(slots: &[u16], slot: usize) -> bool
    ensures { result ≡ is_taken slots.now slot }
{
    slot < slots.len() && slots[slot] > 0
}

/// Where in a table the name may be that took a slot last. Whoever looks there has to compare the name.
pub(crate) fn place_in(slots: &[u16], slot: usize) -> usize {
    match slots.get(slot) {
        Some(value) => usize::from(*value).saturating_sub(1),
        None => 0,
    }
}

/// Takes a slot for the name at a place of a table. It stays taken, whatever becomes of the name.
pub(crate) fn take_slot(slots: &mut Vec<u16>, slot: usize, place: usize) -> Result<(), AllocError>
    requires { slot < SLOTS }
    ensures taken { OnOk result (is_taken slots.new.items slot ≡ true) }
    ensures kept { (other : ℕ) → is_taken slots.old.items other ≡ true →
        is_taken slots.new.items other ≡ true }
{
    if slots.len() <= slot {
        lay_out(slots)?;
    }
    slots[slot] = value_for(place);
    Ok(())
}

/// Lays out all slots at once, since the next name may have any of them.
fn lay_out(slots: &mut Vec<u16>) -> Result<(), AllocError>
    requires { length slots.old.items ≤ SLOTS }
    ensures all { OnOk result (length slots.new.items ≡ SLOTS) }
    ensures kept { (other : ℕ) → is_taken slots.old.items other ≡ true →
        is_taken slots.new.items other ≡ true }
{
    slots.resize(SLOTS, 0)
}

/// What a slot holds that is taken for the name at a place: one more, or the largest value where that is greater.
fn value_for(place: usize) -> u16
    ensures { 1 ≤ result }
{
    u16::try_from(place.saturating_add(1)).unwrap_or(u16::MAX)
}
