use m3_base::{NoMemory, place_number};
use m3_types::{Field, Formal, Method, TypeId, TypeNode};
use std::alloc::Global;
use std::collections::{HashMap, HashSet};

/// A member of a type by its place: a field or a method of its own part, or a formal.
#[derive(Clone, Copy, PartialEq, Eq)]
pub enum Member {
    Field(u32),
    Method(u32),
    Formal(u32),
    /// A member of an enumeration.
    Value(u32),
}

/// A member with the type that declares it.
#[derive(Clone, Copy)]
pub struct Found {
    pub owner: TypeId,
    pub member: Member,
}

/// The fields, methods, formals and values of the types that were asked for one, by name.
#[derive(Drop)]
pub struct Members<'a> {
    listed: HashSet<TypeId>,
    named: HashMap<(TypeId, &'a [u8]), Member>,
}

impl<'a> Members<'a> {
    /// No type's yet.
    pub fn new(alloc: Global) -> Members<'a> {
        Members {
            listed: HashSet::new(alloc),
            named: HashMap::new(alloc),
        }
    }

    /// The member of this name that a type of this definition declares itself; of several, the
    /// first.
    pub fn own(
        &mut self,
        kind: TypeId,
        node: TypeNode<'a>,
        name: &'a [u8],
    ) -> Result<Option<Member>, NoMemory> {
        if self.listed.insert(kind)? {
            self.list(kind, node)?;
        }
        Ok(self.named.get(&(kind, name)).copied())
    }

    fn list(&mut self, kind: TypeId, node: TypeNode<'a>) -> Result<(), NoMemory> {
        match node {
            TypeNode::Fields(fields) => self.list_fields(kind, fields),
            TypeNode::Object(_, _, fields, methods, _) => {
                self.list_fields(kind, fields)?;
                self.list_methods(kind, methods)
            }
            TypeNode::Enumeration(names) => self.list_names(kind, names),
            TypeNode::Procedure(formals, _, _) => self.list_formals(kind, formals),
            _ => Ok(()),
        }
    }

    fn list_fields(&mut self, kind: TypeId, fields: &[Field<'a>]) -> Result<(), NoMemory> {
        for (place, field) in fields.iter().enumerate() {
            self.add(kind, field.name, Member::Field(place_number(place)?))?;
        }
        Ok(())
    }

    fn list_methods(&mut self, kind: TypeId, methods: &[Method<'a>]) -> Result<(), NoMemory> {
        for (place, method) in methods.iter().enumerate() {
            self.add(kind, method.name, Member::Method(place_number(place)?))?;
        }
        Ok(())
    }

    fn list_names(&mut self, kind: TypeId, names: &[&'a [u8]]) -> Result<(), NoMemory> {
        for (place, name) in names.iter().enumerate() {
            self.add(kind, *name, Member::Value(place_number(place)?))?;
        }
        Ok(())
    }

    fn list_formals(&mut self, kind: TypeId, formals: &[Formal<'a>]) -> Result<(), NoMemory> {
        for (place, formal) in formals.iter().enumerate() {
            self.add(kind, formal.name, Member::Formal(place_number(place)?))?;
        }
        Ok(())
    }

    fn add(&mut self, kind: TypeId, name: &'a [u8], member: Member) -> Result<(), NoMemory> {
        if !self.named.contains_key(&(kind, name)) {
            self.named.insert((kind, name), member)?;
        }
        Ok(())
    }
}
