//! The greatest of amounts.
ghost use Rattle.std.specs.Prelude.{◌≡◌, ◌<◌, ◌≤◌, ◌+◌, ◌*◌, ◌-◌, length, IfOk};
ghost use Rattle.inc_cost.specs.Costs.{AreDearest};
ghost use Rattle.inc_cost.specs.Ranking.{key_of, AreKeysOf, ArePlacesOf};

use std::alloc::{AllocError, Global};

/// How many places there may be.
const PLACES: u128 = 1 << 32;

/// The places of the greatest amounts, at most so many, from the greatest on, those of one amount by place. An amount of 0 has none. It takes
/// the time of a sort of the amounts.
pub fn dearest(alloc: Global, amounts: &[u64], most: usize) -> Result<Vec<usize>, AllocError>
    requires { length amounts.now ≤ 4_294_967_296 }
    ensures { IfOk result (λ places. AreDearest amounts.now most places.items) }
{
    let mut keys = keys_of(alloc, amounts)?;
    keys.sort_unstable();
    keys.truncate(most);
    let places = places_of(alloc, &keys)?;
    Ok(places)
}

/// A key for each amount but those of 0.
fn keys_of(alloc: Global, amounts: &[u64]) -> Result<Vec<u128>, AllocError>
    requires { length amounts.now ≤ 4_294_967_296 }
    ensures { IfOk result (λ keys. AreKeysOf amounts.now (length amounts.now) keys.items) }
{
    let mut keys = Vec::new(alloc);
    for place in 0..amounts.len() {
        if amounts[place] != 0 {
            keys.push(key_of(amounts[place], place))?;
        }
    }
    Ok(keys)
}

/// The key of an amount at a place. It is less where the amount is greater, or as great and its place before.
fn key_of(amount: u64, place: usize) -> u128
    requires { place < 4_294_967_296 }
    ensures { result ≡ key_of amount place }
{
    u128::from(u64::MAX - amount) * PLACES + place as u128
}

/// The places in keys.
fn places_of(alloc: Global, keys: &[u128]) -> Result<Vec<usize>, AllocError>
    ensures { IfOk result (λ places. ArePlacesOf keys.now (length keys.now) places.items) }
{
    let mut places = Vec::new(alloc);
    for key in keys {
        places.push((*key % PLACES) as usize)?;
    }
    Ok(places)
}
