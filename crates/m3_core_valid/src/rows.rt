use crate::expressions::judge_expression;
use crate::judge::{Judge, mark};
use crate::tables::Form;
use m3_base::NoMemory;
use m3_core::{Binding, FieldValue, SetElement};
use m3_types::TypeId;
use std::alloc::Global;

/// Judges the elements of a set.
#[cycle(expressions)]
pub fn judge_elements<'a>(judge: &mut Judge<'_>, elements: &[SetElement<'a>]) {
    for element in elements {
        match element {
            SetElement::One(value) => judge_expression(judge, value),
            SetElement::Range(first, last) => {
                judge_expression(judge, first);
                judge_expression(judge, last);
            }
        }
    }
}

/// Each field of a record has one value.
pub fn expect_fields(judge: &mut Judge<'_>, record: TypeId, fields: &[FieldValue<'_>]) {
    let is_record = matches!(judge.form(record), Form::Record(_));
    judge.expect(is_record);
    let count = judge.field_count(record);
    judge.expect(fields.len() == count);
    judge.expect_told(are_each_once(judge.alloc, fields, count));
}

/// Whether the fields are among so many, each at most once.
fn are_each_once(alloc: Global, fields: &[FieldValue<'_>], count: usize) -> Result<bool, NoMemory> {
    let mut marks = vec![in alloc; false; count]?;
    for field in fields {
        if !mark(&mut marks, field.field) {
            return Ok(false);
        }
    }
    Ok(true)
}

/// Judges the values of the fields of a record.
#[cycle(expressions)]
pub fn judge_fields<'a>(judge: &mut Judge<'_>, fields: &[FieldValue<'a>]) {
    for field in fields {
        judge_expression(judge, field.value);
    }
}

/// Bindings of NEW name fields of the record behind a REF, or of the parts of an object.
pub fn expect_bindings(judge: &mut Judge<'_>, made: TypeId, bindings: &[Binding<'_>]) {
    for binding in bindings {
        let count = match binding.owner {
            Some(owner) => judge.object_field_count(owner),
            None => judge.referent_field_count(made),
        };
        judge.expect((binding.field as usize) < count);
    }
}

/// Judges the values of the bindings of NEW.
#[cycle(expressions)]
pub fn judge_bindings<'a>(judge: &mut Judge<'_>, bindings: &[Binding<'a>]) {
    for binding in bindings {
        judge_expression(judge, binding.value);
    }
}
