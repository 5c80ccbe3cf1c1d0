use m3_base::NoMemory;
use m3_types::{Field, Secret, TypeId, TypeNode};
use m3_types_sizes::SizedTypes;
use std::alloc::Global;

/// What is counted of a type, in itself: the parts and the pointers of a value of it (of an open
/// array, of an element), and, of an object type, those of all its fields and its methods,
/// ancestors included.
#[derive(Clone, Copy, PartialEq, Eq)]
pub struct Measure {
    pub parts: u64,
    pub pointers: u64,
    pub methods: u64,
}

const NOTHING: Measure = Measure {
    parts: 0,
    pointers: 0,
    methods: 0,
};

#[derive(Clone, Copy, PartialEq, Eq)]
enum State {
    Unknown,
    Waiting,
    Known(Measure),
}

/// The measures of all values, and of the fields of all object types.
#[derive(Drop)]
pub struct Measures {
    values: Vec<State>,
    lines: Vec<State>,
}

/// A place in a list of types as a number of 32 bits.
pub fn number_of(place: usize) -> u32 {
    u32::try_from(place).unwrap_or(u32::MAX)
}

fn is_reference(node: TypeNode) -> bool {
    matches!(
        node,
        TypeNode::RefTo(_, _)
            | TypeNode::Object(_, _, _, _, _)
            | TypeNode::Opaque(_, _)
            | TypeNode::Null
            | TypeNode::RefAny
            | TypeNode::Text
            | TypeNode::Mutex
            | TypeNode::Root
    )
}

fn node<'a>(types: &SizedTypes<'a>, t: TypeId) -> TypeNode<'a> {
    match types.graph.nodes.get(t.0 as usize) {
        Some(node) => *node,
        None => TypeNode::Reserved,
    }
}

/// The type that fully reveals an opaque type; any other type itself.
fn unveiled(types: &SizedTypes, t: TypeId) -> TypeId {
    match node(types, t) {
        TypeNode::Opaque(_, Secret::Revealed) if (t.0 as usize) < types.graph.nodes.len() => {
            types.graph.full_reveal(t).unwrap_or(t)
        }
        _ => t,
    }
}

impl Measures {
    /// The measures of some types. What a type is made of, and its parent, come before it, by a
    /// list of what waits.
    pub fn of(alloc: Global, types: &SizedTypes) -> Result<Measures, NoMemory> {
        let count = types.graph.nodes.len();
        let mut measures = Measures {
            values: vec![in alloc; State::Unknown; count]?,
            lines: vec![in alloc; State::Unknown; count]?,
        };
        for place in 0..count {
            measures.measure_value(alloc, types, TypeId(number_of(place)))?;
        }
        for place in 0..count {
            measures.measure_line(alloc, types, TypeId(number_of(place)))?;
        }
        Ok(measures)
    }

    /// The measure of a value of a type.
    pub fn value(&self, t: TypeId) -> Measure {
        known(&self.values, t)
    }

    /// The measure of the fields of an object type and of its ancestors.
    pub fn line(&self, t: TypeId) -> Measure {
        known(&self.lines, t)
    }

    fn measure_value(
        &mut self,
        alloc: Global,
        types: &SizedTypes,
        t: TypeId,
    ) -> Result<(), NoMemory> {
        let mut waiting = Vec::new(alloc);
        waiting.push(t)?;
        'waiting: for _ in 0..u64::MAX {
            let Some(top) = waiting.last().copied() else {
                break 'waiting;
            };
            self.measure_next(types, top, &mut waiting)?;
        }
        Ok(())
    }

    /// Measures the type that waits last, or puts what it is made of behind it.
    fn measure_next(
        &mut self,
        types: &SizedTypes,
        top: TypeId,
        waiting: &mut Vec<TypeId>,
    ) -> Result<(), NoMemory> {
        match state_of(&self.values, top) {
            State::Known(_) => {
                waiting.pop();
                Ok(())
            }
            State::Unknown => {
                set(&mut self.values, top, State::Waiting);
                self.add_parts(types, top, waiting)
            }
            State::Waiting => {
                let measure = self.measured(types, top);
                set(&mut self.values, top, State::Known(measure));
                Ok(())
            }
        }
    }

    fn add_parts(
        &self,
        types: &SizedTypes,
        t: TypeId,
        waiting: &mut Vec<TypeId>,
    ) -> Result<(), NoMemory> {
        match node(types, t) {
            TypeNode::FixedArray(_, element) | TypeNode::OpenArray(element) => {
                add_unknown(&self.values, element, waiting)
            }
            TypeNode::Fields(fields) => {
                for field in fields {
                    add_unknown(&self.values, field.kind, waiting)?;
                }
                Ok(())
            }
            _ => Ok(()),
        }
    }

    fn measured(&self, types: &SizedTypes, t: TypeId) -> Measure {
        match node(types, t) {
            TypeNode::FixedArray(index, element) => {
                let inner = self.value(element);
                let count = u64::try_from(types.graph.member_count(index)).unwrap_or(u64::MAX);
                Measure {
                    parts: inner.parts.saturating_add(1),
                    pointers: inner.pointers.saturating_mul(count),
                    methods: 0,
                }
            }
            TypeNode::OpenArray(element) => {
                let inner = self.value(element);
                Measure {
                    parts: inner.parts.saturating_add(1),
                    ..inner
                }
            }
            TypeNode::Fields(fields) => self.sum(NOTHING, fields),
            at => Measure {
                parts: if types.has_size(t) {
                    types.words_of(t)
                } else {
                    0
                },
                pointers: u64::from(is_reference(at)),
                methods: 0,
            },
        }
    }

    fn sum(&self, start: Measure, fields: &[Field]) -> Measure {
        let mut sum = start;
        for field in fields {
            let value = self.value(field.kind);
            sum.parts = sum.parts.saturating_add(value.parts);
            sum.pointers = sum.pointers.saturating_add(value.pointers);
        }
        sum
    }

    fn measure_line(
        &mut self,
        alloc: Global,
        types: &SizedTypes,
        t: TypeId,
    ) -> Result<(), NoMemory> {
        let waiting = self.unmeasured(alloc, types, t)?;
        for top in waiting.iter().rev() {
            let measure = self.added(types, *top);
            set(&mut self.lines, *top, State::Known(measure));
        }
        Ok(())
    }

    /// A type and its ancestors, as far as they have no measure.
    fn unmeasured(
        &self,
        alloc: Global,
        types: &SizedTypes,
        t: TypeId,
    ) -> Result<Vec<TypeId>, NoMemory> {
        let mut waiting = Vec::new(alloc);
        let mut at = t;
        'ancestors: for _ in 0..types.graph.nodes.len() {
            if let State::Known(_) = state_of(&self.lines, at) {
                break 'ancestors;
            }
            waiting.push(at)?;
            match node(types, at) {
                TypeNode::Object(_, parent, _, _, _) => at = unveiled(types, parent),
                _ => break 'ancestors,
            }
        }
        Ok(waiting)
    }

    fn added(&self, types: &SizedTypes, t: TypeId) -> Measure {
        match node(types, t) {
            TypeNode::Object(_, parent, fields, methods, _) => {
                let above = self.line(unveiled(types, parent));
                let mut sum = self.sum(above, fields);
                sum.methods = above.methods.saturating_add(methods.len() as u64);
                sum
            }
            _ => NOTHING,
        }
    }

    /// For each type the parts of the cell that NEW makes of it.
    pub fn cell_parts(&self, alloc: Global, types: &SizedTypes) -> Result<Vec<u64>, NoMemory> {
        let mut parts = Vec::new(alloc);
        for place in 0..types.graph.nodes.len() {
            let shown = unveiled(types, TypeId(number_of(place)));
            let count = match node(types, shown) {
                TypeNode::RefTo(_, target) => self.value(target).parts,
                _ => self.line(shown).parts,
            };
            parts.push(count)?;
        }
        Ok(parts)
    }
}

fn state_of(states: &[State], t: TypeId) -> State {
    match states.get(t.0 as usize) {
        Some(state) => *state,
        None => State::Known(NOTHING),
    }
}

fn known(states: &[State], t: TypeId) -> Measure {
    match state_of(states, t) {
        State::Known(measure) => measure,
        State::Unknown | State::Waiting => NOTHING,
    }
}

fn set(states: &mut Vec<State>, t: TypeId, state: State) {
    let place = t.0 as usize;
    if place < states.len() {
        states[place] = state;
    }
}

fn add_unknown(states: &[State], t: TypeId, waiting: &mut Vec<TypeId>) -> Result<(), NoMemory> {
    if state_of(states, t) == State::Unknown {
        waiting.push(t)?;
    }
    Ok(())
}
