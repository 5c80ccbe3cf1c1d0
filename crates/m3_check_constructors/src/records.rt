use crate::parts::{Judged, Made, Part, Written, judge_part};
use bumpalo::Bump;
use bumpalo::collections::into_bump_slice;
use m3_base::{NoMemory, Pos, place_number};
use m3_check_assigning::assigned;
use m3_check_state::{Checker, Given};
use m3_check_types::own_member;
use m3_core::{CoreExpr, FieldValue};
use m3_decl_lookup::Member;
use m3_syntax::Name;
use m3_types::{Field, TypeId, TypeNode};

/// A record in the making: which fields have a value, and the values so far.
#[derive(Drop)]
struct Making<'a> {
    given: Vec<bool, &'a Bump>,
    row: Vec<FieldValue<'a>, &'a Bump>,
    judged: Judged,
}

impl Making<'_> {
    /// Takes a field, if it is there and was not taken before.
    fn take(&mut self, field: Option<u32>) -> Option<u32> {
        let field = field?;
        let taken = self.given.get_mut(field as usize)?;
        if *taken {
            return None;
        }
        *taken = true;
        Some(field)
    }
}

/// A record: each part is a field, by place or by name, and what is left out has a default.
pub fn record_of<'a>(
    checker: &mut Checker<'_, 'a>,
    written: Written,
    kind: TypeId,
    parts: &[Part<'a>],
) -> Result<Made<'a>, NoMemory> {
    let fields = fields_in(checker.node(kind));
    let mut making = Making {
        given: vec![in checker.arena; false; fields.len()]?,
        row: Vec::new(checker.arena),
        judged: Judged {
            is_wrong: written.is_filled,
            is_bad: false,
        },
    };
    add_parts(checker, &mut making, kind, fields, parts)?;
    add_defaults(checker, &mut making, written.pos, kind, fields)?;
    let Making { given, row, judged } = making;
    drop(given);
    Ok(judged.make(CoreExpr::RecordOf {
        pos: written.pos,
        kind,
        fields: into_bump_slice(row),
    }))
}

fn fields_in<'a>(node: TypeNode<'a>) -> &'a [Field<'a>] {
    match node {
        TypeNode::Fields(fields) => fields,
        _ => &[],
    }
}

fn add_parts<'a>(
    checker: &mut Checker<'_, 'a>,
    making: &mut Making<'a>,
    kind: TypeId,
    fields: &[Field<'a>],
    parts: &[Part<'a>],
) -> Result<(), NoMemory> {
    let mut is_named = false;
    for (place, part) in parts.iter().enumerate() {
        let field = match (part.first.name, part.last.is_some()) {
            (Some(name), _) => {
                is_named = true;
                field_named(checker, kind, name)?
            }
            (None, false) if !is_named => Some(place_number(place)?),
            _ => None,
        };
        match making.take(field) {
            Some(field) => add_field(checker, making, fields, field, &part.first)?,
            None => {
                making.judged.is_wrong = true;
                judge_part(checker, part)?;
            }
        }
    }
    Ok(())
}

fn field_named<'a>(
    checker: &mut Checker<'_, 'a>,
    kind: TypeId,
    name: Name<'a>,
) -> Result<Option<u32>, NoMemory> {
    match own_member(checker, kind, name.text)? {
        Some(Member::Field(place)) => Ok(Some(place)),
        _ => Ok(None),
    }
}

fn add_field<'a>(
    checker: &mut Checker<'_, 'a>,
    making: &mut Making<'a>,
    fields: &[Field<'a>],
    field: u32,
    given: &Given<'a>,
) -> Result<(), NoMemory> {
    let value = match fields.get(field as usize) {
        Some(known) => assigned(checker, given, known.kind)?,
        None => None,
    };
    match value {
        Some(value) => making.row.push(FieldValue {
            field,
            value: value.core(),
        })?,
        None => making.judged.is_bad = true,
    }
    Ok(())
}

/// Gives each field that is left out its default. Where the record type is flawed no default is
/// missed.
fn add_defaults<'a>(
    checker: &Checker<'_, 'a>,
    making: &mut Making<'a>,
    pos: Pos,
    kind: TypeId,
    fields: &[Field<'a>],
) -> Result<(), NoMemory> {
    for (place, field) in fields.iter().enumerate() {
        let Some(number) = making.take(Some(place_number(place)?)) else {
            continue;
        };
        match field.default {
            Some(default) => making.row.push(FieldValue {
                field: number,
                value: checker.default_of(pos, field.kind, default.source)?,
            })?,
            None if checker.is_flawed(kind) || checker.is_refused(field.kind) => {
                making.judged.is_bad = true;
            }
            None => making.judged.is_wrong = true,
        }
    }
    Ok(())
}
