//! What is known.

ghost use Rattle.std.specs.Prelude.{◌≡◌, IfOk, []};
ghost use Rattle.m3_same_forms.specs.Facts.{lasts, is_other_slot, stays, kept};
ghost use Rattle.m3_same_forms.specs.Facts as facts;
ghost use Rattle.m3_same_forms.specs.Seen.{asks as asks_form};

use crate::forms::{Form, Known, Query, Symbol, Tag};
use crate::same::same_tag;
use m3_mid::Relation;
use std::alloc::{AllocError, Global};

/// A question about two words.
pub fn asks(alloc: Global, tag: Tag, first: &Form, second: &Form) -> Result<Query, AllocError>
    ensures { IfOk result (λ x. x ≡ asks_form tag first.now second.now []) }
{
    Ok(Query {
        tag,
        first: first.copy(alloc)?,
        second: second.copy(alloc)?,
        third: Form::none(alloc),
    })
}

/// The same question once more.
pub fn copied(alloc: Global, query: &Query) -> Result<Query, AllocError>
    ensures { IfOk result (λ x. x ≡ query.now) }
{
    Ok(Query {
        tag: query.tag,
        first: query.first.copy(alloc)?,
        second: query.second.copy(alloc)?,
        third: query.third.copy(alloc)?,
    })
}

fn same_query(alloc: Global, left: &Query, right: &Query) -> Result<bool, AllocError>
    ensures { IfOk result (λ b. b ≡ facts.same_query left.now right.now) }
{
    if !same_tag(left.tag, right.tag) || !left.first.is_same(alloc, &right.first)? {
        return Ok(false);
    }
    if !left.second.is_same(alloc, &right.second)? {
        return Ok(false);
    }
    left.third.is_same(alloc, &right.third)
}

/// The answer to a question, where it is known.
pub fn known(alloc: Global, query: &Query, knowns: &[Known]) -> Result<Option<Form>, AllocError>
    ensures { IfOk result (λ o. o ≡ facts.known query.now knowns.now) }
{
    for known in knowns {
        if same_query(alloc, &known.query, query)? {
            return Ok(Some(known.value.copy(alloc)?));
        }
    }
    Ok(None)
}

/// Whether an answer is there and is this form.
pub fn is_form(alloc: Global, form: &Form, found: &Option<Form>) -> Result<bool, AllocError>
    ensures { IfOk result (λ b. b ≡ facts.is_form form.now found.now) }
{
    match found {
        Some(other) => form.is_same(alloc, other),
        None => Ok(false),
    }
}

/// Whether a relation is known to hold.
pub fn holds(
    alloc: Global,
    relation: Relation,
    left: &Form,
    right: &Form,
    knowns: &[Known],
) -> Result<bool, AllocError>
    ensures { IfOk result (λ b. b ≡ facts.holds relation left.now right.now knowns.now) }
{
    let query = asks(alloc, Tag::Compared(relation), left, right)?;
    let found = known(alloc, &query, knowns)?;
    let one = Form::of_symbol(alloc, Symbol::One)?;
    is_form(alloc, &one, &found)
}

/// Whether an answer to such a question lasts when memory changes.
pub fn is_lasting(tag: Tag) -> bool
    ensures { result ≡ lasts tag }
{
    match tag {
        Tag::Operator(_)
        | Tag::Checked(_)
        | Tag::Compared(_)
        | Tag::Environment
        | Tag::OwnSlot(_) => true,
        Tag::TypeTest(_)
        | Tag::MethodOf(_)
        | Tag::Loaded
        | Tag::EqualWords
        | Tag::TextByte
        | Tag::EqualTexts => false,
    }
}

/// Whether an answer to such a question lasts when a slot of the activation's own gets a word.
pub fn is_other(slot: u32, tag: Tag) -> bool
    ensures { result ≡ is_other_slot slot tag }
{
    match tag {
        Tag::OwnSlot(other) => other != slot,
        Tag::Operator(_)
        | Tag::Checked(_)
        | Tag::Compared(_)
        | Tag::Environment
        | Tag::TypeTest(_)
        | Tag::MethodOf(_)
        | Tag::Loaded
        | Tag::EqualWords
        | Tag::TextByte
        | Tag::EqualTexts => true,
    }
}

fn remains(slot: Option<u32>, tag: Tag) -> bool
    ensures { result ≡ stays slot tag }
{
    match slot {
        None => is_lasting(tag),
        Some(slot) => is_other(slot, tag),
    }
}

fn is_kept(slot: Option<u32>, known: &Known) -> bool
    ensures { result ≡ stays slot known.now.query.tag }
{
    remains(slot, known.query.tag)
}

/// What is still known when memory has changed, or a slot of the activation's own.
pub fn remaining(
    alloc: Global,
    slot: Option<u32>,
    knowns: Vec<Known>,
) -> Result<Vec<Known>, AllocError>
    ensures { IfOk result (λ v. v.items ≡ kept (stays slot) knowns.items) }
{
    let mut left = Vec::new(alloc);
    for known in knowns {
        if is_kept(slot, &known) {
            left.push(known)?;
        }
    }
    Ok(left)
}
