use m3_base::{NoMemory, Pos, rules};
use m3_check_assigning::{chain_of, chain_thing, placed_chain, read_chain, with_step};
use m3_check_names::entity_thing;
use m3_check_state::{Checker, Draft, Method, State, Thing, Valued};
use m3_check_types::{
    fits, is_array, is_reference, newest_member, own_member, type_member, visible_type,
};
use m3_core::Step;
use m3_decl_lookup::{Found, Member, field_kind, method_kind};
use m3_syntax::Name;
use m3_types::{TypeId, TypeNode};

const WRITABLE: State = State::Place {
    is_writable: true,
    is_designator: true,
};

/// An index: the place of its first token, and its value unless it was refused.
#[derive(Clone, Copy)]
pub struct Index<'a> {
    pub pos: Pos,
    pub value: Option<Valued<'a>>,
}

/// The place of the referent of a value, whose type the caller knows.
fn referent<'a>(
    checker: &mut Checker<'_, 'a>,
    draft: &Draft<'a>,
    target: TypeId,
) -> Result<Draft<'a>, NoMemory> {
    let value = read_chain(checker, draft)?;
    with_step(
        checker,
        &value,
        Step::Dereference { kind: target },
        target,
        WRITABLE,
    )
}

/// `r^` (rule 58).
pub fn dereference<'a>(
    checker: &mut Checker<'_, 'a>,
    pos: Pos,
    thing: &Thing<'a>,
) -> Result<Thing<'a>, NoMemory> {
    let Some(draft) = chain_of(checker, pos, thing)? else {
        return Ok(Thing::Bad);
    };
    let visible = visible_type(checker, draft.kind)?;
    let TypeNode::RefTo(_, target) = checker.node(visible) else {
        return Ok(checker.bad(pos, rules::NOT_A_REFERENCE));
    };
    let place = referent(checker, &draft, target)?;
    Ok(chain_thing(checker, place))
}

/// `a.x`: a name of an interface, a member of a type, a field or a method.
pub fn dot<'a>(
    checker: &mut Checker<'_, 'a>,
    pos: Pos,
    thing: &Thing<'a>,
    name: Name<'a>,
) -> Result<Thing<'a>, NoMemory> {
    match thing {
        Thing::Interface => return interface_member(checker, pos, name),
        Thing::Type(kind) => return type_member(checker, *kind, pos, name),
        _ => {}
    }
    let Some(draft) = chain_of(checker, pos, thing)? else {
        return Ok(Thing::Bad);
    };
    if let TypeNode::Fields(_) = checker.node(draft.kind) {
        let place = placed_chain(checker, &draft)?;
        return field(checker, &place, name);
    }
    let visible = visible_type(checker, draft.kind)?;
    if let TypeNode::RefTo(_, target) = checker.node(visible) {
        if let TypeNode::Fields(_) = checker.node(target) {
            let place = referent(checker, &draft, target)?;
            return field(checker, &place, name);
        }
    }
    object_member(checker, &draft, name)
}

/// What the name of an interface's declaration stands for, at the place of the interface's name.
fn interface_member<'a>(
    checker: &Checker<'_, 'a>,
    pos: Pos,
    name: Name<'a>,
) -> Result<Thing<'a>, NoMemory> {
    match checker.program.binds.at(checker.unit, name.pos) {
        Some(id) => entity_thing(checker, id, pos),
        None => Ok(Thing::Bad),
    }
}

/// A field of a record place (rule 57).
fn field<'a>(
    checker: &mut Checker<'_, 'a>,
    place: &Draft<'a>,
    name: Name<'a>,
) -> Result<Thing<'a>, NoMemory> {
    let record = place.kind;
    if let Some(Member::Field(field)) = own_member(checker, record, name.text)? {
        if let Some(kind) = field_kind(checker.node(record), field) {
            let part = with_step(
                checker,
                place,
                Step::Field { field, kind },
                kind,
                place.state,
            )?;
            return Ok(chain_thing(checker, part));
        }
    }
    Ok(checker.bad(name.pos, rules::NO_SUCH_FIELD_OR_METHOD))
}

/// A field or a method of the object that a value refers to (rule 57).
fn object_member<'a>(
    checker: &mut Checker<'_, 'a>,
    draft: &Draft<'a>,
    name: Name<'a>,
) -> Result<Thing<'a>, NoMemory> {
    let found = if is_reference(checker, draft.kind) {
        newest_member(checker, draft.kind, name.text)?
    } else {
        None
    };
    let made = match found {
        Some(found) => {
            let object = read_chain(checker, draft)?;
            part_of_object(checker, &object, &found)?
        }
        None => None,
    };
    match made {
        Some(thing) => Ok(thing),
        None => Ok(checker.bad(name.pos, rules::NO_SUCH_FIELD_OR_METHOD)),
    }
}

fn part_of_object<'a>(
    checker: &mut Checker<'_, 'a>,
    object: &Draft<'a>,
    found: &Found,
) -> Result<Option<Thing<'a>>, NoMemory> {
    let owner = found.owner;
    match found.member {
        Member::Field(field) => {
            let Some(kind) = field_kind(checker.node(owner), field) else {
                return Ok(None);
            };
            let step = Step::ObjectField { owner, field, kind };
            let part = with_step(checker, object, step, kind, WRITABLE)?;
            Ok(Some(chain_thing(checker, part)))
        }
        Member::Method(place) => {
            let Some(signature) = method_kind(checker.node(owner), place) else {
                return Ok(None);
            };
            Ok(Some(Thing::Method(Method {
                object: *object,
                owner,
                place,
                signature,
            })))
        }
        _ => Ok(None),
    }
}

/// `a[i, j]`: each index selects an element of what stands before it.
pub fn indexed<'a>(
    checker: &mut Checker<'_, 'a>,
    pos: Pos,
    thing: &Thing<'a>,
    indexes: &[Index<'a>],
) -> Result<Thing<'a>, NoMemory> {
    let mut array = *thing;
    for index in indexes {
        array = match array_place(checker, pos, &array)? {
            Some(place) => element(checker, &place, index)?,
            None => Thing::Bad,
        };
    }
    Ok(array)
}

/// The place of an array that an operand gives, through a reference where it is one (rule 59).
fn array_place<'a>(
    checker: &mut Checker<'_, 'a>,
    pos: Pos,
    thing: &Thing<'a>,
) -> Result<Option<Draft<'a>>, NoMemory> {
    let Some(draft) = chain_of(checker, pos, thing)? else {
        return Ok(None);
    };
    if is_array(checker, draft.kind) {
        return Ok(Some(placed_chain(checker, &draft)?));
    }
    let visible = visible_type(checker, draft.kind)?;
    if let TypeNode::RefTo(_, target) = checker.node(visible) {
        if is_array(checker, target) {
            return Ok(Some(referent(checker, &draft, target)?));
        }
    }
    checker.note(pos, rules::NOT_AN_ARRAY);
    Ok(None)
}

/// An element of an array place. The index is assignable to the index type (rule 51).
fn element<'a>(
    checker: &mut Checker<'_, 'a>,
    array: &Draft<'a>,
    index: &Index<'a>,
) -> Result<Thing<'a>, NoMemory> {
    let (wanted, kind) = match checker.node(array.kind) {
        TypeNode::FixedArray(wanted, kind) => (wanted, kind),
        TypeNode::OpenArray(kind) => (checker.declared.basic.integer, kind),
        _ => return Ok(Thing::Bad),
    };
    let Some(value) = index.value else {
        return Ok(Thing::Bad);
    };
    if !fits(checker, value.kind, wanted)? {
        checker.note(index.pos, rules::NOT_ASSIGNABLE);
    }
    let step = Step::Element {
        index: value.core(),
        kind,
    };
    let part = with_step(checker, array, step, kind, array.state)?;
    Ok(chain_thing(checker, part))
}
