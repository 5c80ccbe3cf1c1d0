use crate::interning::intern;
use crate::judging::{constant_of, typed_constant};
use bumpalo::Bump;
use bumpalo::collections::into_bump_slice;
use m3_base::{NoMemory, Pos, rules};
use m3_const_values::{base_of, entity_named, is_ordinal, share_base};
use m3_core::Value;
use m3_decl_state::{BrandAt, Declarer, Doubts};
use m3_syntax::{Expr, Init, Name, Signature};
use m3_types::{Brand, Field, Formal, Initial, Mode, Raises, TypeId, TypeNode};

/// The type and the default of a field or formal.
#[derive(Clone, Copy)]
struct Given {
    kind: TypeId,
    default: Option<Initial>,
}

fn mode_of(mode: m3_syntax::Mode) -> Mode {
    match mode {
        m3_syntax::Mode::Value => Mode::Value,
        m3_syntax::Mode::Var => Mode::Var,
        m3_syntax::Mode::Readonly => Mode::Readonly,
    }
}

/// A subrange by its bounds (rule 44 for those that are no ordinals of one base).
pub fn subrange<'a>(
    declarer: &mut Declarer<'_, 'a>,
    doubts: &mut Doubts<'a>,
    first: &'a Expr<'a>,
    last: &'a Expr<'a>,
) -> Result<Option<TypeNode<'a>>, NoMemory> {
    let from = typed_constant(declarer, doubts, first)?;
    let to = typed_constant(declarer, doubts, last)?;
    let from = bound_of(declarer, first.pos(), from)?;
    let to = bound_of(declarer, last.pos(), to)?;
    let (Some((kind, from)), Some((other, to))) = (from, to) else {
        return Ok(None);
    };
    if !share_base(&mut declarer.eval, kind, other)? {
        declarer.refuse(last.pos(), rules::WRONG_KIND_OF_CONSTANT)?;
        return Ok(None);
    }
    Ok(Some(TypeNode::Subrange(base_of(&declarer.eval, kind), from, to)))
}

/// The type and the number of a bound.
fn bound_of<'a>(
    declarer: &mut Declarer<'_, 'a>,
    pos: Pos,
    constant: Option<(TypeId, Value<'a>)>,
) -> Result<Option<(TypeId, i64)>, NoMemory> {
    let Some((kind, value)) = constant else {
        return Ok(None);
    };
    match value {
        Value::Number(number) if is_ordinal(&mut declarer.eval, kind)? => Ok(Some((kind, number))),
        _ => {
            declarer.refuse(pos, rules::WRONG_KIND_OF_CONSTANT)?;
            Ok(None)
        }
    }
}

/// A value as a default, once the task has all that it needs.
pub fn initial_of<'a>(
    declarer: &mut Declarer<'_, 'a>,
    value: Option<Value<'a>>,
) -> Result<Option<Initial>, NoMemory> {
    let (true, Some(value)) = (declarer.has_all(), value) else {
        return Ok(None);
    };
    let stored = declarer.eval.store(value)?;
    let value = intern(declarer, stored)?;
    Ok(Some(Initial {
        value,
        source: stored.0,
    }))
}

/// The type and the default of fields or formals (rule 44 for a default that can't be assigned).
fn given_by<'a>(
    declarer: &mut Declarer<'_, 'a>,
    doubts: &mut Doubts<'a>,
    init: &'a Init<'a>,
) -> Result<Given, NoMemory> {
    match init {
        Init::Typed(kind, default) => {
            let kind = declarer.kind_of(kind);
            let value = match default {
                Some(default) => constant_of(declarer, doubts, default, kind)?,
                None => None,
            };
            let default = initial_of(declarer, value)?;
            Ok(Given { kind, default })
        }
        Init::Untyped(default) => match typed_constant(declarer, doubts, default)? {
            Some((kind, value)) => {
                let default = initial_of(declarer, Some(value))?;
                Ok(Given { kind, default })
            }
            None => Ok(Given {
                kind: declarer.eval.declared.basic.refused,
                default: None,
            }),
        },
    }
}

/// The fields of a record type, or those that an object type adds.
pub fn field_row<'a>(
    declarer: &mut Declarer<'_, 'a>,
    doubts: &mut Doubts<'a>,
    fields: &'a [m3_syntax::Field<'a>],
) -> Result<&'a [Field<'a>], NoMemory> {
    let mut row = Vec::new(declarer.eval.arena);
    for field in fields {
        let given = given_by(declarer, doubts, &field.init)?;
        add_fields(&mut row, field.names, given)?;
    }
    Ok(into_bump_slice(row))
}

/// The definition of a procedure type.
pub fn signature_node<'a>(
    declarer: &mut Declarer<'_, 'a>,
    doubts: &mut Doubts<'a>,
    signature: &'a Signature<'a>,
) -> Result<TypeNode<'a>, NoMemory> {
    let mut row = Vec::new(declarer.eval.arena);
    for formal in signature.formals {
        let given = given_by(declarer, doubts, &formal.init)?;
        add_formals(&mut row, formal.names, mode_of(formal.mode), given)?;
    }
    let result = match signature.result {
        Some(result) => Some(declarer.kind_of(result)),
        None => None,
    };
    let raises = raises_of(declarer, &signature.raises)?;
    Ok(TypeNode::Procedure(into_bump_slice(row), result, raises))
}

/// The exceptions of a RAISES. A name that is no exception is judged with statements (rule 78).
fn raises_of<'a>(
    declarer: &mut Declarer<'_, 'a>,
    raises: &m3_syntax::Raises<'a>,
) -> Result<Raises<'a>, NoMemory> {
    let m3_syntax::Raises::Only(names) = raises else {
        return Ok(Raises::Any);
    };
    let mut row = Vec::new(declarer.eval.arena);
    for name in *names {
        let number = match entity_named(&declarer.eval, name) {
            Some(id) => declarer.eval.declared.exception_number(id),
            None => None,
        };
        match number {
            Some(number) => row.push(number)?,
            None => {
                let unit = declarer.eval.unit;
                declarer.note_later(unit, name.first.pos, rules::NOT_AN_EXCEPTION);
            }
        }
    }
    row.sort_unstable();
    row.dedup();
    Ok(Raises::Only(into_bump_slice(row)))
}

/// The brand of a type (rule 44 for one that is no text).
pub fn brand_of<'a>(
    declarer: &mut Declarer<'_, 'a>,
    doubts: &mut Doubts<'a>,
    brand: Option<m3_syntax::Brand<'a>>,
) -> Result<Option<Brand<'a>>, NoMemory> {
    let Some(brand) = brand else {
        return Ok(None);
    };
    if let Some(value) = brand.text {
        if let Some((_, known)) = typed_constant(declarer, doubts, value)? {
            match declarer.bytes_of(known)? {
                Some(text) => {
                    note_brand(declarer, text, value.pos())?;
                    return Ok(Some(Brand::Text(text)));
                }
                None => declarer.refuse(value.pos(), rules::WRONG_KIND_OF_CONSTANT)?,
            }
        }
    }
    declarer.occurrence = declarer.occurrence.saturating_add(1);
    Ok(Some(Brand::Occurrence(declarer.occurrence)))
}

fn note_brand<'a>(
    declarer: &mut Declarer<'_, 'a>,
    text: &'a [u8],
    pos: Pos,
) -> Result<(), NoMemory> {
    let unit = declarer.eval.unit;
    let number = declarer.number_of(unit).unwrap_or(u32::MAX);
    declarer.new_brands.push(BrandAt {
        text,
        unit,
        number,
        pos,
    })?;
    Ok(())
}

fn add_fields<'a>(
    row: &mut Vec<Field<'a>, &'a Bump>,
    names: &[Name<'a>],
    given: Given,
) -> Result<(), NoMemory> {
    for name in names {
        row.push(Field {
            name: name.text,
            kind: given.kind,
            default: given.default,
        })?;
    }
    Ok(())
}

fn add_formals<'a>(
    row: &mut Vec<Formal<'a>, &'a Bump>,
    names: &[Name<'a>],
    mode: Mode,
    given: Given,
) -> Result<(), NoMemory> {
    for name in names {
        row.push(Formal {
            name: name.text,
            mode,
            kind: given.kind,
            default: given.default,
        })?;
    }
    Ok(())
}
