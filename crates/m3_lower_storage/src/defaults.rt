use m3_base::NoMemory;
use m3_core::Value;
use m3_lower_objects::{node_of, number_of};
use m3_types::{Field, TypeId, TypeNode};
use m3_types_sizes::SizedTypes;
use std::alloc::Global;

/// How far it is known whether the default of a type is 0 in all its words.
#[derive(Clone, Copy, PartialEq, Eq)]
enum State {
    Unknown,
    Waiting,
    Zero,
    Other,
}

/// Which types have a default that is 0 in all its words.
#[derive(Drop)]
pub struct ZeroDefaults {
    states: Vec<State>,
}

impl ZeroDefaults {
    /// The types of a program. What a type is made of is judged before it, by a list of what waits.
    pub fn of(
        alloc: Global,
        types: &SizedTypes,
        values: &[Value],
    ) -> Result<ZeroDefaults, NoMemory> {
        let count = types.graph.nodes.len();
        let mut zeros = ZeroDefaults {
            states: vec![in alloc; State::Unknown; count]?,
        };
        for place in 0..count {
            zeros.judge_from(alloc, types, values, TypeId(number_of(place)))?;
        }
        Ok(zeros)
    }

    fn state(&self, t: TypeId) -> State {
        match self.states.get(t.0 as usize) {
            Some(state) => *state,
            None => State::Zero,
        }
    }

    fn set(&mut self, t: TypeId, state: State) {
        let place = t.0 as usize;
        if place < self.states.len() {
            self.states[place] = state;
        }
    }

    fn judge_from(
        &mut self,
        alloc: Global,
        types: &SizedTypes,
        values: &[Value],
        t: TypeId,
    ) -> Result<(), NoMemory> {
        let mut waiting = Vec::new(alloc);
        waiting.push(t)?;
        for _ in 0..u32::MAX {
            let Some(top) = waiting.last().copied() else {
                break;
            };
            match self.state(top) {
                State::Zero | State::Other => {
                    waiting.pop();
                }
                State::Unknown => {
                    self.set(top, State::Waiting);
                    self.add_parts(types, top, &mut waiting)?;
                }
                State::Waiting => {
                    let state = self.judged(types, values, top);
                    self.set(top, state);
                }
            }
        }
        Ok(())
    }

    /// Adds what a type is made of, as far as it isn't judged.
    fn add_parts(
        &self,
        types: &SizedTypes,
        t: TypeId,
        waiting: &mut Vec<TypeId>,
    ) -> Result<(), NoMemory> {
        match node_of(types, t) {
            TypeNode::FixedArray(_, element) => self.add_part(element, waiting),
            TypeNode::Fields(fields) => {
                for field in fields {
                    if field.default.is_none() {
                        self.add_part(field.kind, waiting)?;
                    }
                }
                Ok(())
            }
            _ => Ok(()),
        }
    }

    fn add_part(&self, t: TypeId, waiting: &mut Vec<TypeId>) -> Result<(), NoMemory> {
        if self.state(t) == State::Unknown {
            waiting.push(t)?;
        }
        Ok(())
    }

    fn judged(&self, types: &SizedTypes, values: &[Value], t: TypeId) -> State {
        let is_zero = match node_of(types, t) {
            TypeNode::FixedArray(_, element) => self.state(element) != State::Other,
            TypeNode::Fields(fields) => self.are_zero(values, fields),
            TypeNode::Subrange(_, first, last) => first <= 0 && 0 <= last,
            _ => true,
        };
        if is_zero { State::Zero } else { State::Other }
    }

    fn are_zero(&self, values: &[Value], fields: &[Field]) -> bool {
        for field in fields {
            let is_zero = match field.default {
                Some(default) => matches!(
                    values.get(default.source as usize),
                    Some(Value::Number(0)) | Some(Value::Nil)
                ),
                None => self.state(field.kind) != State::Other,
            };
            if !is_zero {
                return false;
            }
        }
        true
    }

    /// Whether the default of a type is 0 in all its words.
    pub fn is_zero(&self, t: TypeId) -> bool {
        self.state(t) != State::Other
    }
}
