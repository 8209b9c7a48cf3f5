//! The trees of sources, as an object of JSON.
ghost use Rattle.std.specs.Prelude.{◌≡◌, ◌<◌, length, map, IfOk, OnOk};
ghost use Rattle.inc_answers.specs.JsonAnswers.{about_of, about_subject, puts};
ghost use Rattle.inc_answers.specs.JsonTexts.{list_of};
ghost use Rattle.inc_answers.specs.TreeJson.{branch_item, tree_json};

use crate::json_answers::put_from;
use crate::json_parts::JsonText;
use crate::subjects::Subject;
use inc_cost::Branch;
use std::alloc::{AllocError, Global};

/// The files of trees.
pub fn tree_json(
    alloc: Global,
    subject: Subject<'_>,
    total: u64,
    branches: &[Branch],
) -> Result<Vec<u8>, AllocError>
    requires { subject.graph.now.files ≡ length subject.project.now.paths }
    ensures { IfOk result (λ text. text.items ≡ tree_json (about_subject subject.entry) total branches.now) }
{
    let mut json = JsonText::new(alloc, subject)?;
    json.put(b"{\"blocked\":")?;
    json.put_blocked()?;
    json.put(b",")?;
    json.put_number_member(b"bytes", total)?;
    json.put(b",\"command\":\"cost\",\"format\":1,")?;
    put_from(&mut json)?;
    json.put(b",\"missing\":")?;
    json.put_missing()?;
    json.put(b",\"status\":0,\"tree\":")?;
    put_branches(&mut json, branches)?;
    json.put(b"}\n")?;
    Ok(json.into_text())
}

/// Adds files with what comes in through them, as a list.
fn put_branches(json: &mut JsonText<'_>, branches: &[Branch]) -> Result<(), AllocError>
    ensures { OnOk result (json.new ≡ puts json.old (list_of (map (branch_item (about_of json.old)) branches.now))) }
{
    json.put(b"[")?;
    for place in 0..branches.len() {
        json.put_comma(place)?;
        put_branch(json, &branches[place])?;
    }
    json.put(b"]")
}

/// Adds a file with what comes in through it.
fn put_branch(json: &mut JsonText<'_>, branch: &Branch) -> Result<(), AllocError>
    ensures { OnOk result (json.new ≡ puts json.old (branch_item (about_of json.old) branch.now)) }
{
    json.put(b"{")?;
    json.put_number_member(b"bytes", branch.whole)?;
    json.put(b",")?;
    json.put_number_member(b"depth", u64::from(branch.depth))?;
    json.put(b",")?;
    json.put_number_member(b"own", u64::from(branch.own))?;
    json.put(b",")?;
    json.put_file(b"path", branch.file)?;
    json.put(b"}")
}
