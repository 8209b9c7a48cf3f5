//! Where the bytes of a text come from.
ghost use Rattle.std.specs.Prelude.{◌≡◌, ◌+◌, ◌-◌, ◌≤◌, ◌<◌, ℕ, length};
ghost use Rattle.std.specs.List.{All, HoldsAt};
ghost use Rattle.std.specs.List.Sorted.{IsNonDecreasingBy};
ghost use Rattle.inc_text.specs.Origins.{Behind, Passed, Fits, origin_from, plain, width_at};
ghost use Rattle.inc_text.specs.PhaseText.{longest_text};

/// From a place of the text on, where its bytes come from, up to the next origin.
#[derive(Clone, Copy)]
pub struct Origin {
    /// The place in the text.
    pub at: u32,
    /// How far after a byte's place its source bytes end.
    pub ahead: u32,
    /// How many source bytes the byte at `at` stands for; those after it stand for one each.
    pub width: u32,
}

/// What holds before the first origin: each byte stands for itself.
const PLAIN: Origin = Origin {
    at: 0,
    ahead: 1,
    width: 1,
};

/// How many origins are at or before a place, by binary search.
pub fn origins_to(origins: &[Origin], place: u32) -> usize
    requires { IsNonDecreasingBy (λ (m : Origin). m.at) origins.now }
    ensures { Passed (λ (m : Origin). m.at) place origins.now result }
{
    origins.partition_point(|origin| origin.at <= place)
}

/// How many splices are at or before a place, by binary search.
pub fn splices_to(splices: &[u32], place: u32) -> usize
    requires { IsNonDecreasingBy (λ (s : ℕ). s) splices.now }
    ensures { Passed (λ (s : ℕ). s) place splices.now result }
{
    splices.partition_point(|splice| *splice <= place)
}

/// How many origins are at or before a place, from so many that are.
pub fn origins_on(origins: &[Origin], passed: usize, place: u32) -> usize
    requires { Behind (λ (m : Origin). m.at) place origins.now passed }
    ensures { Passed (λ (m : Origin). m.at) place origins.now result }
{
    let mut passed = passed;
    while passed < origins.len() && origins[passed].at <= place {
        passed += 1;
    }
    passed
}

/// How many splices are at or before a place, from so many that are.
pub fn splices_on(splices: &[u32], passed: usize, place: u32) -> usize
    requires { Behind (λ (s : ℕ). s) place splices.now passed }
    ensures { Passed (λ (s : ℕ). s) place splices.now result }
{
    let mut passed = passed;
    while passed < splices.len() && splices[passed] <= place {
        passed += 1;
    }
    passed
}

/// The place of the first origin that is not passed, where it is before `end`, or else `end`.
#[inline(always)]
pub fn next_origin(origins: &[Origin], passed: usize, end: usize) -> usize
    ensures within { result ≤ end }
    ensures next { passed < length origins.now →
        HoldsAt (λ (m : Origin). result ≤ m.at) origins.now passed }
    ensures one { (at : ℕ) → at < end → (passed < length origins.now →
        HoldsAt (λ (m : Origin). at < m.at) origins.now passed) → at < result }
{
    match origins.get(passed) {
        Some(origin) => end.min(origin.at as usize),
        None => end,
    }
}

/// The place of the first splice that is not passed, where it is before `end`, or else `end`.
#[inline(always)]
pub fn next_splice(splices: &[u32], passed: usize, end: usize) -> usize
    ensures within { result ≤ end }
    ensures next { passed < length splices.now →
        HoldsAt (λ (s : ℕ). result ≤ s) splices.now passed }
    ensures one { (at : ℕ) → at < end → (passed < length splices.now →
        HoldsAt (λ (s : ℕ). at < s) splices.now passed) → at < result }
{
    match splices.get(passed) {
        Some(splice) => end.min(*splice as usize),
        None => end,
    }
}

/// What holds at a place, where so many origins are at or before it.
pub fn origin_at(origins: &[Origin], passed: usize, place: u32) -> Origin
    requires { Passed (λ (m : Origin). m.at) place origins.now passed }
    ensures { result ≡ origin_from plain origins.now place }
{
    if passed == 0 {
        PLAIN
    } else {
        origins[passed - 1]
    }
}

/// The source bytes of a place, from first to last, last excluded, where so many origins are at or before it.
pub fn range_by(origins: &[Origin], passed: usize, place: u32) -> (u32, u32)
    requires passed { Passed (λ (m : Origin). m.at) place origins.now passed }
    requires fits { All Fits origins.now }
    requires short { place ≤ longest_text }
    ensures first { result.0 ≡ (place + (origin_from plain origins.now place).ahead) - width_at
        (origin_from plain origins.now place) place }
    ensures last { result.1 ≡ place + (origin_from plain origins.now place).ahead }
{
    let origin = origin_at(origins, passed, place);
    let last = place + origin.ahead;
    let width = if place == origin.at { origin.width } else { 1 };
    (last - width, last)
}
