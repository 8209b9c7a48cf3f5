//! Answers for sets of hidden names.
use inc_expand::{HideSets, SetId};
use std::alloc::Global;
use tests_parts::{Stop, add, refusing};

/// Adds which sets of the last two names of an example, one a line, are one. The others are met before.
pub fn add_sets(alloc: Global, example: &str, out: &mut Vec<u8>) -> Result<(), Stop> {
    let (front, b) = example.rsplit_once('\n').unwrap_or((example, ""));
    let (front, a) = front.rsplit_once('\n').unwrap_or((front, ""));
    let mut sets = no_sets(alloc)?;
    for name in front.split('\n').skip(1) {
        sets.with(HideSets::empty(), name.as_bytes())?;
    }
    add_sets_of(alloc, &mut sets, a.as_bytes(), b.as_bytes(), out)
}

/// A table that knows the empty set alone.
fn no_sets<'a>(alloc: Global) -> Result<HideSets<'a>, Stop> {
    let _refusing = refusing(alloc)?;
    Ok(HideSets::new(alloc, 1))
}

/// Adds which sets of two names are one.
fn add_sets_of<'a>(
    alloc: Global,
    sets: &mut HideSets<'a>,
    a: &'a [u8],
    b: &'a [u8],
    out: &mut Vec<u8>,
) -> Result<(), Stop> {
    let empty = HideSets::empty();
    let with_a = sets.with(empty, a)?;
    let with_b = sets.with(empty, b)?;
    let with_both = sets.with(with_a, b)?;
    let other_way = sets.with(with_b, a)?;
    let met = sets.meet(with_a, with_b)?;
    let joined = sets.join(with_a, with_b)?;
    let _refusing = refusing(alloc)?;
    let rows: [(&[u8], bool); 6] = [
        (
            b"a, then b, and b, then a: ",
            sets.same(with_both, other_way),
        ),
        (
            b"what a and b have in common, and none: ",
            sets.same(met, empty),
        ),
        (b"a or b, and a, then b: ", sets.same(joined, with_both)),
        (b"a, and b: ", sets.same(with_a, with_b)),
        (b"a or b holds b: ", sets.holds(joined, b)),
        (b"a holds b: ", sets.holds(with_a, b)),
    ];
    for (question, answer) in &rows {
        add(out, question)?;
        add(out, if *answer { b"yes\n" } else { b"no\n" })?;
    }
    Ok(())
}
