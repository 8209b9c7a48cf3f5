//! The files that a rule is about.
ghost use Rattle.std.specs.Prelude.{◌≡◌, Ok, IfOk, List, ℕ, map, false, filter_map};
ghost use Rattle.std.specs.List.{list_any};
ghost use Rattle.std.specs.Option.{option_map_or};
ghost use Rattle.inc_globs.specs.Globs.{fits, pieces};
ghost use Rattle.inc_rules.specs.Rules.{Rule as Asked, is_left, is_right};
ghost use Rattle.inc_rules.specs.Sides.{sides_of};
ghost use Rattle.inc_rules.specs.Views.{seen_rule};

use crate::rules::Rule;
use inc_globs::{Glob, GlobFault};
use std::alloc::{AllocError, Global};
use std::marker::Model;

/// The globs of a rule, ready to be asked which files it is about. One that is bad fits no file.
#[derive(Drop)]
pub struct Sides<'t> {
    left: Option<Glob<'t>>,
    right: Option<Glob<'t>>,
    /// The exceptions that are not bad.
    except: Vec<Glob<'t>>,
}

impl<'t> Model for Sides<'t> {
    ghost use Rattle.inc_rules.specs.Sides.{Sides as SidesSeen};

    ghost Value = { SidesSeen };

    ghost view = { λ s. record { left = s.left; right = s.right; except = s.except.items } };
}

impl<'t> Sides<'t> {
    /// Those of a rule.
    pub fn new(alloc: Global, rule: &Rule<'t>) -> Result<Sides<'t>, AllocError>
        ensures { IfOk result (λ s. s ≡ sides_of (seen_rule rule.now)) }
    {
        let left = glob_of(alloc, rule.left)?;
        let right = glob_of(alloc, rule.right)?;
        let except = globs_of(alloc, &rule.except)?;
        Ok(Sides {
            left,
            right,
            except,
        })
    }

    /// Whether the rule that they are of is about the file with this path.
    pub fn is_left(&mut self, path: &[u8]) -> Result<bool, AllocError>
        ensures left { (r : Asked) → self.old ≡ sides_of r → IfOk result (λ yes. yes ≡ is_left r path.now) }
        ensures same { self.new ≡ self.old }
    {
        if !fits(&mut self.left, path)? {
            return Ok(false);
        }
        if fits(&mut self.right, path)? {
            return Ok(false);
        }
        Ok(!fits_any(&mut self.except, path)?)
    }

    /// Whether the file with this path is one of the right side of the rule that they are of.
    pub fn is_right(&mut self, path: &[u8]) -> Result<bool, AllocError>
        ensures right { (r : Asked) → self.old ≡ sides_of r → IfOk result (λ yes. yes ≡ is_right r path.now) }
        ensures same { self.new ≡ self.old }
    {
        fits(&mut self.right, path)
    }
}

/// The glob of a pattern, if it is not bad.
fn glob_of<'t>(alloc: Global, pattern: &'t [u8]) -> Result<Option<Glob<'t>>, AllocError>
    ensures { IfOk result (λ glob. glob ≡ pieces pattern.now) }
{
    match Glob::new(alloc, pattern) {
        Ok(glob) => Ok(Some(glob)),
        Err(GlobFault::Unterminated) => Ok(None),
        Err(GlobFault::NoMemory) => Err(AllocError),
    }
}

/// The globs of those patterns that are not bad.
fn globs_of<'t>(alloc: Global, patterns: &[&'t [u8]]) -> Result<Vec<Glob<'t>>, AllocError>
    ensures { IfOk result (λ globs. globs.items ≡ filter_map pieces (map (λ p. p.now) patterns.now)) }
{
    let mut globs = Vec::new(alloc);
    for pattern in patterns {
        if let Some(glob) = glob_of(alloc, pattern)? {
            globs.push(glob)?;
        }
    }
    Ok(globs)
}

/// Whether a glob fits a path.
fn fits(glob: &mut Option<Glob<'_>>, path: &[u8]) -> Result<bool, AllocError>
    ensures fits { IfOk result (λ yes. yes ≡ option_map_or (λ ps. fits ps path.now) glob.old false) }
    ensures same { glob.new ≡ glob.old }
{
    match glob {
        Some(glob) => glob.fits(path),
        None => Ok(false),
    }
}

/// Whether one of some globs fits a path.
fn fits_any(globs: &mut Vec<Glob<'_>>, path: &[u8]) -> Result<bool, AllocError>
    ensures fits { IfOk result (λ yes. yes ≡ list_any (λ ps. fits ps path.now) globs.old.items) }
    ensures same { globs.new.items ≡ globs.old.items }
{
    for index in 0..globs.len() {
        if globs[index].fits(path)? {
            return Ok(true);
        }
    }
    Ok(false)
}
