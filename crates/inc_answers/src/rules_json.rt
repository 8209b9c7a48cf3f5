//! What `rules` answers, as an object of JSON.
ghost use Rattle.std.specs.Prelude.{◌≡◌, map, IfOk, OnOk};
ghost use Rattle.inc_answers.specs.JsonAnswers.{about_of, about_subject, puts};
ghost use Rattle.inc_answers.specs.JsonTexts.{list_of};
ghost use Rattle.inc_answers.specs.RulesJson.{broken_item, broken_items, rules_json};
ghost use Rattle.inc_rules.specs.Judging.{is_broken};
ghost use Rattle.inc_rules.specs.Views.{seen_judged};

use crate::json_answers::status_text;
use crate::json_parts::JsonText;
use crate::outcome::EndKind;
use crate::subjects::Subject;
use inc_rules::{Judged, Rule, joined};
use std::alloc::{AllocError, Global};

/// Which rules of a list with this name are broken, of a call that ends so.
pub fn rules_json(
    alloc: Global,
    subject: Subject<'_>,
    kind: EndKind,
    name: &[u8],
    judged: &[Judged<'_>],
) -> Result<Vec<u8>, AllocError>
    ensures { IfOk result (λ text. text.items ≡ rules_json kind name.now (about_subject subject.entry) (map seen_judged judged.now)) }
{
    let mut json = JsonText::new(alloc, subject)?;
    json.put(b"{\"blocked\":")?;
    json.put_blocked()?;
    json.put(b",\"broken\":")?;
    put_broken(&mut json, alloc, name, judged)?;
    json.put(b",\"command\":\"rules\",\"format\":1,\"missing\":")?;
    json.put_missing()?;
    json.put(b",")?;
    json.put_number_member(b"rules", judged.len() as u64)?;
    json.put(status_text(kind))?;
    json.put(b"}\n")?;
    Ok(json.into_text())
}

/// Adds each of some rules that is broken, as a list.
fn put_broken(
    json: &mut JsonText<'_>,
    alloc: Global,
    name: &[u8],
    judged: &[Judged<'_>],
) -> Result<(), AllocError>
    ensures { OnOk result (json.new ≡ puts json.old
        (list_of (broken_items name.now (about_of json.old) (map seen_judged judged.now)))) }
{
    json.put(b"[")?;
    let mut place = 0usize;
    for rule in judged {
        if rule.is_broken() {
            json.put_comma(place)?;
            put_rule(json, alloc, name, rule)?;
            place = 1;
        }
    }
    json.put(b"]")
}

/// Adds a rule that is broken.
fn put_rule(
    json: &mut JsonText<'_>,
    alloc: Global,
    name: &[u8],
    judged: &Judged<'_>,
) -> Result<(), AllocError>
    ensures { OnOk result (json.new ≡ puts json.old (broken_item name.now (about_of json.old) (seen_judged judged.now))) }
{
    let words = joined(alloc, &judged.rule.words)?;
    json.put(b"{\"chains\":")?;
    json.put_edge_lists(&judged.chains)?;
    json.put(b",\"files\":")?;
    json.put_files(&judged.files)?;
    json.put(b",")?;
    json.put_number_member(b"line", judged.rule.line as u64)?;
    json.put(b",")?;
    json.put_bytes_member(b"path", name)?;
    json.put(b",")?;
    json.put_bytes_member(b"rule", &words)?;
    json.put(b"}")
}
