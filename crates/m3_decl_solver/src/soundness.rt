use m3_base::{NoMemory, place_number};
use m3_decl_state::Declarer;
use m3_types::{TypeId, TypeNode, types_at};
use std::alloc::Global;

/// For each type those that name it: the places of the first edge to it and of each further one,
/// counted from 1, and 0 behind the last.
#[derive(Drop)]
struct Users {
    first: Vec<u32>,
    edges: Vec<Edge>,
}

/// A type that names another, and the next edge to the same one.
#[derive(Clone, Copy)]
struct Edge {
    user: u32,
    next: u32,
}

impl Users {
    /// The users of the types of a program.
    fn of(alloc: Global, nodes: &[TypeNode<'_>]) -> Result<Users, NoMemory> {
        let mut users = Users {
            first: vec![in alloc; 0; nodes.len()]?,
            edges: Vec::new(alloc),
        };
        for place in 0..nodes.len() {
            let user = place_number(place)?;
            let parts = types_at(alloc, nodes, place)?;
            for part in &parts {
                users.add(*part, user)?;
            }
        }
        Ok(users)
    }

    fn add(&mut self, part: usize, user: u32) -> Result<(), NoMemory> {
        if let Some(first) = self.first.get_mut(part) {
            let next = *first;
            self.edges.push(Edge { user, next })?;
            *first = place_number(self.edges.len())?;
        }
        Ok(())
    }

    fn first(&self, part: TypeId) -> u32 {
        self.first.get(part.0 as usize).copied().unwrap_or(0)
    }

    fn edge(&self, number: u32) -> Option<Edge> {
        self.edges.get((number as usize).checked_sub(1)?).copied()
    }
}

/// Tells which types are unsound: those without a definition, those that were noted because their
/// text breaks a rule, and those that name one of these, however far down.
pub fn tell_unsound(declarer: &mut Declarer<'_, '_>) -> Result<(), NoMemory> {
    let alloc = declarer.eval.alloc;
    let users = Users::of(alloc, declarer.eval.declared.types.nodes.as_slice())?;
    let mut found = Vec::new(alloc);
    for kind in &declarer.flawed {
        declarer.eval.declared.flawed.insert(*kind)?;
        found.push(*kind)?;
    }
    for (place, node) in declarer.eval.declared.types.nodes.iter().enumerate() {
        if let TypeNode::Reserved = node {
            found.push(TypeId(place_number(place)?))?;
        }
    }
    'found: for _ in 0..u64::MAX {
        let Some(kind) = found.pop() else {
            break 'found;
        };
        if declarer.eval.declared.unsound.insert(kind)? {
            push_users(&users, kind, &mut found)?;
        }
    }
    Ok(())
}

/// Lists the types that name one.
fn push_users(users: &Users, kind: TypeId, found: &mut Vec<TypeId>) -> Result<(), NoMemory> {
    let mut at = users.first(kind);
    for _ in 0..users.edges.len() {
        let Some(edge) = users.edge(at) else {
            return Ok(());
        };
        found.push(TypeId(edge.user))?;
        at = edge.next;
    }
    Ok(())
}
