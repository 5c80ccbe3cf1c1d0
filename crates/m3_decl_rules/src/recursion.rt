use m3_base::{NoMemory, place_number, rules};
use m3_decl_state::Declarer;
use m3_link_scopes::{EntityId, EntityKind};
use m3_types::{TypeId, TypeNode};

/// Tarjan's search for strongly connected components (1972), over an explicit stack: for each
/// type its number in the order of the search from 1 on, the least number that it leads to, and
/// whether it is on a cycle.
#[derive(Drop)]
struct Search {
    numbers: Vec<u32>,
    lows: Vec<u32>,
    is_open: Vec<bool>,
    is_cyclic: Vec<bool>,
    open: Vec<u32>,
    next: u32,
}

impl Search {
    fn number(&self, place: u32) -> u32 {
        self.numbers.get(place as usize).copied().unwrap_or(0)
    }

    fn low(&self, place: u32) -> u32 {
        self.lows.get(place as usize).copied().unwrap_or(0)
    }

    fn is_on_cycle(&self, place: u32) -> bool {
        self.is_cyclic.get(place as usize).copied().unwrap_or(false)
    }

    /// Numbers a type that is met for the first time.
    fn enter(&mut self, place: u32) -> Result<(), NoMemory> {
        let number = self.next;
        self.next = number.saturating_add(1);
        set(&mut self.numbers, place, number);
        set(&mut self.lows, place, number);
        set(&mut self.is_open, place, true);
        self.open.push(place)?;
        Ok(())
    }

    fn lower(&mut self, place: u32, low: u32) {
        if low < self.low(place) {
            set(&mut self.lows, place, low);
        }
    }

    /// Follows an edge to a type that was met before.
    fn meet(&mut self, from: u32, to: u32) {
        if from == to {
            set(&mut self.is_cyclic, from, true);
        }
        if self.is_open.get(to as usize).copied().unwrap_or(false) {
            let number = self.number(to);
            self.lower(from, number);
        }
    }

    /// Ends the search from a type; the component that it begins is taken off.
    fn leave(&mut self, place: u32) {
        if self.low(place) != self.number(place) {
            return;
        }
        let mut is_alone = true;
        for _ in 0..self.open.len() {
            let Some(member) = self.open.pop() else {
                return;
            };
            set(&mut self.is_open, member, false);
            if member == place {
                if !is_alone {
                    set(&mut self.is_cyclic, member, true);
                }
                return;
            }
            is_alone = false;
            set(&mut self.is_cyclic, member, true);
        }
    }
}

fn set<T: Copy>(items: &mut [T], place: u32, item: T) {
    if let Some(slot) = items.get_mut(place as usize) {
        *slot = item;
    }
}

/// Rule 46 for types that contain themselves.
pub fn judge_recursion<'a>(declarer: &mut Declarer<'_, 'a>) -> Result<(), NoMemory> {
    let count = declarer.eval.declared.types.nodes.len();
    let alloc = declarer.eval.alloc;
    let mut search = Search {
        numbers: vec![in alloc; 0; count]?,
        lows: vec![in alloc; 0; count]?,
        is_open: vec![in alloc; false; count]?,
        is_cyclic: vec![in alloc; false; count]?,
        open: Vec::new(alloc),
        next: 1,
    };
    for place in 0..count {
        let place = place_number(place)?;
        if search.number(place) == 0 {
            search_from(declarer, &mut search, place)?;
        }
    }
    refuse_cyclic(declarer, &search)
}

fn search_from<'a>(
    declarer: &Declarer<'_, 'a>,
    search: &mut Search,
    first: u32,
) -> Result<(), NoMemory> {
    let mut work = Vec::new(declarer.eval.alloc);
    search.enter(first)?;
    work.push((first, 0usize))?;
    'work: for _ in 0..u64::MAX {
        let Some((place, step)) = work.pop() else {
            break 'work;
        };
        match held(declarer, TypeId(place), step) {
            Some(TypeId(held)) => {
                work.push((place, step.saturating_add(1)))?;
                go_to(search, &mut work, place, held)?;
            }
            None => go_back(search, work.as_slice(), place),
        }
    }
    Ok(())
}

/// Goes from a type to one that it contains.
fn go_to(
    search: &mut Search,
    work: &mut Vec<(u32, usize)>,
    place: u32,
    held: u32,
) -> Result<(), NoMemory> {
    if search.number(held) == 0 {
        search.enter(held)?;
        work.push((held, 0))?;
    } else {
        search.meet(place, held);
    }
    Ok(())
}

/// Goes back from a type to the one around it.
fn go_back(search: &mut Search, work: &[(u32, usize)], place: u32) {
    search.leave(place);
    if let Some((around, _)) = work.last() {
        let low = search.low(place);
        search.lower(*around, low);
    }
}

/// The types that a type contains without a reference between, one by one.
fn held<'a>(declarer: &Declarer<'_, 'a>, kind: TypeId, step: usize) -> Option<TypeId> {
    match (declarer.eval.definition(kind), step) {
        (TypeNode::Fields(fields), _) => match fields.get(step) {
            Some(field) => Some(field.kind),
            None => None,
        },
        (TypeNode::FixedArray(index, _), 0) => Some(index),
        (TypeNode::FixedArray(_, element), 1) => Some(element),
        (TypeNode::OpenArray(inner), 0)
        | (TypeNode::SetOf(inner), 0)
        | (TypeNode::Subrange(inner, _, _), 0) => Some(inner),
        (TypeNode::Object(_, parent, _, _, _), 0) => Some(parent_behind(declarer, parent)),
        (TypeNode::Opaque(bound, _), 0) => match declarer.eval.definition(bound) {
            TypeNode::Opaque(_, _) => Some(bound),
            _ => None,
        },
        _ => None,
    }
}

/// A parent; an opaque one counts as the type that fully reveals it.
fn parent_behind<'a>(declarer: &Declarer<'_, 'a>, parent: TypeId) -> TypeId {
    match declarer.eval.definition(parent) {
        TypeNode::Opaque(_, _) => declarer.revealed(parent).unwrap_or(parent),
        _ => parent,
    }
}

fn refuse_cyclic<'a>(declarer: &mut Declarer<'_, 'a>, search: &Search) -> Result<(), NoMemory> {
    let program = declarer.eval.program;
    for (place, entity) in program.binds.entities().iter().enumerate() {
        let id = EntityId(place_number(place)?);
        if let Some(kind) = cyclic_type(declarer, search, id, entity.kind) {
            declarer.note(entity.unit, entity.pos, rules::ILLEGAL_RECURSION);
            declarer.flawed.push(kind)?;
        }
    }
    Ok(())
}

/// The type on a cycle that an entity is the name of.
fn cyclic_type<'a>(
    declarer: &Declarer<'_, 'a>,
    search: &Search,
    id: EntityId,
    kind: EntityKind,
) -> Option<TypeId> {
    if !matches!(kind, EntityKind::Type | EntityKind::Opaque) {
        return None;
    }
    match declarer.eval.declared.type_named(id) {
        Some(kind) if search.is_on_cycle(kind.0) => Some(kind),
        _ => None,
    }
}
