use crate::doubts::Doubts;
use m3_link_gather::Gathered;
use m3_link_scopes::{Declaration, Entity};
use m3_syntax::{Init, Signature, TypeExp};
use m3_types::TypeId;
use std::alloc::Global;
use std::collections::HashMap;

/// How a type is written whose definition may take constants.
#[derive(Clone, Copy)]
pub enum Written<'a> {
    Type(&'a TypeExp<'a>),
    /// A part of an object type, by its place.
    Part(&'a TypeExp<'a>, u32),
    Signature(&'a Signature<'a>),
}

/// How the types that have a plan are written.
pub type Writings<'a> = HashMap<TypeId, Written<'a>>;

/// The trees that the types and constants of a program are worked out from, and what is noted of
/// them.
#[derive(Drop)]
pub struct Trees<'p, 'a> {
    /// What declares the entities, by its places in this list.
    pub declarations: &'p [Declaration<'a>],
    pub gathered: Gathered<'a>,
    pub written: Writings<'a>,
    pub doubts: Doubts<'a>,
}

impl<'p, 'a> Trees<'p, 'a> {
    pub fn new(
        alloc: Global,
        declarations: &'p [Declaration<'a>],
        gathered: Gathered<'a>,
    ) -> Trees<'p, 'a> {
        Trees {
            declarations,
            gathered,
            written: HashMap::new(alloc),
            doubts: Doubts::new(alloc),
        }
    }

    /// What declares an entity.
    pub fn declaration(&self, entity: &Entity<'a>) -> Option<&'p Declaration<'a>> {
        self.declarations.get(entity.declaration? as usize)
    }

    /// The type and the value that the declaration of a variable or formal gives it.
    pub fn init_of(&self, entity: &Entity<'a>) -> Option<&'a Init<'a>> {
        match self.declaration(entity)? {
            Declaration::Variable(init) | Declaration::Formal { init, .. } => Some(*init),
            _ => None,
        }
    }

    /// The type of an exception's argument.
    pub fn argument_of(&self, entity: &Entity<'a>) -> Option<&'a TypeExp<'a>> {
        match self.declaration(entity)? {
            Declaration::Exception(exception) => exception.argument,
            _ => None,
        }
    }
}
