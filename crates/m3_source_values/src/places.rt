use crate::arrays::{part_of, with_part};
use crate::values::Value;
use bumpalo::Bump;
use bumpalo::collections::into_bump_slice;
use m3_base::NoMemory;

/// The name of a variable. Each activation has a number, the count of calls before it, and one
/// variable for each declaration in its procedure.
#[derive(Clone, Copy)]
pub enum Name<'m> {
    /// What a reference leads to: the referent of a REF type, or the fields of an object.
    Referent(usize),
    /// A variable of a module or interface.
    Global(u32),
    /// A variable of an activation that others can reach too.
    Local { activation: usize, variable: u32 },
    /// A variable of the activation that speaks, which nobody else can reach.
    Own(u32),
    /// A new variable that holds a value, and that nothing writes.
    Fresh(Value<'m>),
}

/// A field or an element, by its place from 0; or so many elements of an array from one on.
#[derive(Clone, Copy, PartialEq, Eq)]
pub enum Selector {
    Field(u32),
    Element(u64),
    Part { start: u64, count: u64 },
}

/// A variable's name and a path of selectors.
#[derive(Clone, Copy)]
pub struct Place<'m> {
    pub name: Name<'m>,
    pub path: &'m [Selector],
}

/// What a name stands for, and what an operand is: a value, or a place that is fixed.
#[derive(Clone, Copy)]
pub enum Thing<'m> {
    Is(Value<'m>),
    At(Place<'m>),
}

impl<'m> Name<'m> {
    /// The place of the whole variable.
    pub fn whole(self) -> Place<'m> {
        Place {
            name: self,
            path: &[],
        }
    }
}

/// A place within another one.
pub fn further<'m>(
    arena: &'m Bump,
    place: Place<'m>,
    selector: Selector,
) -> Result<Place<'m>, NoMemory> {
    let mut path = Vec::new(arena);
    path.extend_from_slice(place.path)?;
    path.push(selector)?;
    Ok(Place {
        name: place.name,
        path: into_bump_slice(path),
    })
}

/// What is selected of a value.
fn selected<'m>(selector: Selector, value: &Value<'m>) -> Option<Value<'m>> {
    match (selector, value) {
        (Selector::Field(field), Value::Record(fields)) => fields.get(field as usize).copied(),
        (Selector::Element(place), Value::Array(_, elements)) => {
            elements.get(usize::try_from(place).ok()?).copied()
        }
        (Selector::Part { start, count }, _) => part_of(start, count, value),
        _ => None,
    }
}

/// The part of a value at the end of a path.
pub fn value_in<'m>(path: &[Selector], value: Value<'m>) -> Option<Value<'m>> {
    let mut part = value;
    for selector in path {
        part = selected(*selector, &part)?;
    }
    Some(part)
}

/// The value with another one in place of what is selected.
fn with_selected<'m>(
    arena: &'m Bump,
    selector: Selector,
    new: Value<'m>,
    value: &Value<'m>,
) -> Result<Option<Value<'m>>, NoMemory> {
    match (selector, value) {
        (Selector::Field(field), Value::Record(fields)) => {
            match with_part(arena, u64::from(field), &[new], fields)? {
                Some(row) => Ok(Some(Value::Record(row))),
                None => Ok(None),
            }
        }
        (Selector::Element(place), Value::Array(below, elements)) => {
            match with_part(arena, place, &[new], elements)? {
                Some(row) => Ok(Some(Value::Array(*below, row))),
                None => Ok(None),
            }
        }
        (Selector::Part { start, count }, Value::Array(below, elements)) => match new {
            Value::Array(_, part) if part.len() as u64 == count => {
                match with_part(arena, start, part, elements)? {
                    Some(row) => Ok(Some(Value::Array(*below, row))),
                    None => Ok(None),
                }
            }
            _ => Ok(None),
        },
        _ => Ok(None),
    }
}

/// The value with another one at the end of a path; none where nothing is there.
pub fn value_with<'m>(
    arena: &'m Bump,
    path: &[Selector],
    new: Value<'m>,
    value: Value<'m>,
) -> Result<Option<Value<'m>>, NoMemory> {
    let mut changed = new;
    for length in (0..path.len()).rev() {
        let (Some(above), Some(selector)) = (path.get(..length), path.get(length)) else {
            return Ok(None);
        };
        let Some(whole) = value_in(above, value) else {
            return Ok(None);
        };
        match with_selected(arena, *selector, changed, &whole)? {
            Some(with) => changed = with,
            None => return Ok(None),
        }
    }
    Ok(Some(changed))
}
