//! Guards: sections that keep a header from being read twice.
ghost use Rattle.std.specs.Prelude.{IfOk, IfSome};
ghost use Rattle.inc_pp.specs.HeldFiles.{HasGuard, IsGuard, IsPlanned};

use inc_directive::{DirectiveKind, FileLines, LineKind, Plan, Role};
use inc_token::Kind;
use std::alloc::{AllocError, Global};

/// The part that is the guard of a file, if it has one: an `#ifndef` whose section has one group, with no token outside of the section.
fn guard_of(lines: &FileLines, plan: &Plan) -> Option<usize>
    requires planned { IsPlanned lines.now plan.now }
    ensures { IfSome result (λ i. IsGuard lines.now i) }
{
    let count = lines.count();
    let open = lines.run_end(0);
    if open >= count {
        return None;
    }
    if !lines.are_blank(0, open) {
        return None;
    }
    let LineKind::Other(DirectiveKind::Ifndef) = lines.kind(open) else {
        return None;
    };
    let Some(close) = plan.branch(open) else {
        return None;
    };
    if close >= count {
        return None;
    }
    let Role::EndifLine = lines.role(close) else {
        return None;
    };
    let end = lines.run_end(close + 1);
    if end < count {
        return None;
    }
    if !lines.are_blank(close + 1, end) {
        return None;
    }
    Some(open)
}

/// The name of the guard of a file, if it has one: while it is that of a macro, the file changes nothing.
pub(crate) fn guard_name(
    alloc: Global,
    lines: &FileLines,
    plan: &Plan,
) -> Result<Option<Vec<u8>>, AllocError>
    requires planned { IsPlanned lines.now plan.now }
    ensures { IfOk result (λ guard. IfSome guard (λ name. HasGuard lines.now name.items)) }
{
    let Some(guard) = guard_of(lines, plan) else {
        return Ok(None);
    };
    match lines.token(guard, 2) {
        Some(name) if name.kind == Kind::Identifier => {
            let name = Vec::from_slice(alloc, name.spelling)?;
            Ok(Some(name))
        }
        _ => Ok(None),
    }
}
