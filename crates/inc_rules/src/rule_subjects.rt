//! The files that rules are about.
ghost use Rattle.std.specs.Prelude.{◌≡◌, ◌<◌, ◌++◌, ◌∷◌, [], filter, length, map, IfOk, OnOk};
ghost use Rattle.std.specs.List.{list_any};
ghost use Rattle.inc_lookup.specs.Projects.{path_at};
ghost use Rattle.inc_rules.specs.Rules.{Rule as Asked, is_left};
ghost use Rattle.inc_rules.specs.Sides.{sides_of};
ghost use Rattle.inc_rules.specs.Views.{seen_rule};
ghost use Rattle.std.specs.Prelude.{List, ℕ};

use crate::rules::Rule;
use crate::sides::Sides;
use inc_lookup::Project;
use std::alloc::{AllocError, Global};

/// The paths of a project's files that some of these rules are about, in their order. It takes a pass over the paths with each glob.
pub fn subjects<'p>(
    alloc: Global,
    project: &'p Project<'_>,
    rules: &[Rule<'_>],
) -> Result<Vec<&'p [u8]>, AllocError>
    ensures { IfOk result (λ paths. map (λ p. p.now) paths.items
        ≡ filter (λ p. list_any (λ r. is_left r p) (map seen_rule rules.now)) project.entry.now.paths) }
{
    let mut sides = sides_of_all(alloc, rules)?;
    let mut paths = Vec::new(alloc);
    for place in 0..project.count() {
        push_subject(&mut paths, project, place, &mut sides)?;
    }
    Ok(paths)
}

/// The sides of each of some rules.
fn sides_of_all<'t>(alloc: Global, rules: &[Rule<'t>]) -> Result<Vec<Sides<'t>>, AllocError>
    ensures { IfOk result (λ sides. sides.items ≡ map sides_of (map seen_rule rules.now)) }
{
    let mut sides = Vec::with_capacity(alloc, rules.len())?;
    for rule in rules {
        sides.push(Sides::new(alloc, rule)?)?;
    }
    Ok(sides)
}

/// Adds the path of the file at a place if one of the rules is about it.
fn push_subject<'p>(
    paths: &mut Vec<&'p [u8]>,
    project: &'p Project<'_>,
    place: usize,
    sides: &mut Vec<Sides<'_>>,
) -> Result<(), AllocError>
    requires { place < length project.now.paths }
    ensures paths { (rules : List Asked) → sides.old.items ≡ map sides_of rules →
        OnOk result (map (λ p. p.now) paths.new.items ≡ map (λ p. p.now) paths.old.items
        ++ filter (λ p. list_any (λ r. is_left r p) rules) (path_at project.entry.now place ∷ [])) }
    ensures same { sides.new.items ≡ sides.old.items }
{
    let Some(file) = project.at(place) else {
        return Ok(());
    };
    let path = project.path(file);
    if is_subject(sides, path)? {
        paths.push(path)?;
    }
    Ok(())
}

/// Whether one of some rules is about the file with this path.
fn is_subject(sides: &mut Vec<Sides<'_>>, path: &[u8]) -> Result<bool, AllocError>
    ensures is { (rules : List Asked) → sides.old.items ≡ map sides_of rules →
        IfOk result (λ yes. yes ≡ list_any (λ r. is_left r path.now) rules) }
    ensures same { sides.new.items ≡ sides.old.items }
{
    for index in 0..sides.len() {
        if sides[index].is_left(path)? {
            return Ok(true);
        }
    }
    Ok(false)
}
