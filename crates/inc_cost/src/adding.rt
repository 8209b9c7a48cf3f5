//! Amounts that are added up source by source.
ghost use Rattle.std.specs.Prelude.{◌≡◌, ◌≤◌, ◌*◌, ◌+◌, ℕ, length, slice_index};
ghost use Rattle.inc_cost.specs.Shares.{AreAdded, AreKeys, AreBelow};

/// What one source adds to some of the amounts.
#[derive(Drop)]
pub(crate) struct Shares {
    /// 1 plus the place of the amount, no place twice; 0 where nothing is added.
    pub keys: Vec<usize>,
    /// The bytes for each key.
    pub bytes: Vec<u64>,
    /// 1 or 0 for each key, by whether the source counts.
    pub counts: Vec<u64>,
}

/// Adds to each amount the part that has its key.
pub(crate) fn add(amounts: &mut Vec<u64>, keys: &[usize], parts: &[u64])
    requires keys { AreKeys (length amounts.old.items) keys.now }
    requires long { length parts.now ≡ length keys.now }
    requires room { AreBelow (65_534 * 281_470_681_677_825) amounts.old.items }
    requires parts { AreBelow 281_470_681_677_825 parts.now }
    ensures added { AreAdded keys.now parts.now amounts.old.items amounts.new.items }
    ensures most { (most : ℕ) → AreBelow most amounts.old.items → AreBelow (most + 281_470_681_677_825) amounts.new.items }
{
    for place in 0..keys.len() {
        if keys[place] != 0 {
            let index = keys[place] - 1;
            amounts[index] += parts[place];
        }
    }
}
