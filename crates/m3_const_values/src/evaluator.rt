use crate::worth::{Known, Reason, Thing, Worth};
use bumpalo::Bump;
use m3_base::{NoMemory, Pos, place_number, rules};
use m3_core::{Value, ValueId};
use m3_decl_lookup::{Declared, Found, Members};
use m3_link_scopes::{EntityId, Program};
use m3_types::{Reveal, TypeId, TypeNode};
use std::alloc::Global;
use std::collections::{HashMap, HashSet};

/// What has to be worked out: a constant, the type of a variable that names none, the definition
/// of a type, or what is bound to its methods.
#[derive(Clone, Copy, PartialEq, Eq, Hash)]
pub enum Need {
    Constant(EntityId),
    Kind(EntityId),
    Node(TypeId),
    /// What is bound to the methods of an object type.
    Methods(TypeId),
}

/// That a value of one type can be assigned to another, which is judged when all types are there.
#[derive(Clone, Copy)]
pub struct Assumed {
    pub unit: u32,
    pub pos: Pos,
    pub from: TypeId,
    pub to: TypeId,
    /// Whether the second may be assigned to the first too.
    pub either: bool,
    /// Whether the place wants this type (rule 44); else a rule of expressions is broken.
    pub is_wanted: bool,
}

/// What judges constant expressions, and what it knows of the program.
#[derive(Drop)]
pub struct Evaluator<'p, 'a> {
    pub alloc: Global,
    pub arena: &'a Bump,
    pub program: &'p Program<'a>,
    pub declared: Declared<'a>,
    /// The unit in which the expression stands.
    pub unit: u32,
    /// Whether what is no value isn't constant (rule 40).
    pub is_constant: bool,
    /// What the expression lacks.
    pub lacks: Vec<Need>,
    /// The first place where a constant has no value.
    pub flaw: Option<Reason>,
    /// What the expression assumes.
    pub assumed: Vec<Assumed>,
    /// What is worked out, also where it was refused.
    pub settled: HashSet<Need>,
    /// The definitions of object types to whose methods nothing is bound yet.
    pub drafts: HashMap<TypeId, TypeNode<'a>>,
    /// The object types that have a draft, in the order in which they got it.
    pub drafted: Vec<TypeId>,
    /// The types in the making that NIL belongs to.
    pub nilable: HashSet<TypeId>,
    /// Whether the definitions of all types are there.
    pub is_complete: bool,
    /// The reveals of opaque types by view, a full one where there is one.
    pub early: HashMap<(u32, TypeId), Reveal>,
    pub members: Members<'a>,
    /// Members of object types that were found, by view.
    pub found: HashMap<(u32, TypeId, &'a [u8]), Option<Found>>,
}

impl<'p, 'a> Evaluator<'p, 'a> {
    pub fn new(
        alloc: Global,
        arena: &'a Bump,
        program: &'p Program<'a>,
        declared: Declared<'a>,
    ) -> Evaluator<'p, 'a> {
        Evaluator {
            alloc,
            arena,
            program,
            declared,
            unit: 0,
            is_constant: false,
            lacks: Vec::new(alloc),
            flaw: None,
            assumed: Vec::new(alloc),
            settled: HashSet::new(alloc),
            drafts: HashMap::new(alloc),
            drafted: Vec::new(alloc),
            nilable: HashSet::new(alloc),
            is_complete: false,
            early: HashMap::new(alloc),
            members: Members::new(alloc),
            found: HashMap::new(alloc),
        }
    }

    /// Notes what the expression lacks, unless it is worked out or was refused.
    pub fn lack(&mut self, need: Need) -> Result<(), NoMemory> {
        if !self.settled.contains(&need) {
            self.lacks.push(need)?;
        }
        Ok(())
    }

    /// Notes a rule that a constant breaks.
    pub fn note(&mut self, pos: Pos, rule: u16) {
        let reason = Reason { pos, rule };
        self.flaw = Some(match self.flaw {
            Some(flaw) => flaw.first(reason),
            None => reason,
        });
    }

    /// The definition of a type; one that isn't there yet is lacking.
    pub fn node(&mut self, kind: TypeId) -> Result<TypeNode<'a>, NoMemory> {
        match self.definition(kind) {
            TypeNode::Reserved => {
                self.lack(Need::Node(kind))?;
                Ok(TypeNode::Reserved)
            }
            node => Ok(node),
        }
    }

    /// Whether a type was worked out and refused, or is an array type with such an index.
    pub fn was_refused(&self, kind: TypeId) -> bool {
        match self.definition(kind) {
            TypeNode::FixedArray(index, _) => self.has_no_definition(index),
            _ => self.has_no_definition(kind),
        }
    }

    fn has_no_definition(&self, kind: TypeId) -> bool {
        matches!(self.definition(kind), TypeNode::Reserved)
            && self.settled.contains(&Need::Node(kind))
    }

    /// The definition of a type as it stands.
    pub fn definition(&self, kind: TypeId) -> TypeNode<'a> {
        match self.declared.types.nodes.get(kind.0 as usize) {
            Some(TypeNode::Reserved) | None => self.draft(kind),
            Some(node) => *node,
        }
    }

    fn draft(&self, kind: TypeId) -> TypeNode<'a> {
        match self.drafts.get(&kind) {
            Some(node) => *node,
            None => TypeNode::Reserved,
        }
    }

    /// Keeps a value in the program's list of constants.
    pub fn store(&mut self, value: Value<'a>) -> Result<ValueId, NoMemory> {
        let place = place_number(self.declared.values.len())?;
        self.declared.values.push(value)?;
        Ok(ValueId(place))
    }

    pub fn stored(&self, value: ValueId) -> Option<Value<'a>> {
        self.declared.values.get(value.0 as usize).copied()
    }

    /// A value that is known.
    pub fn known(&self, kind: TypeId, value: Value<'a>) -> Thing<'a> {
        Thing::Value(Worth {
            kind,
            value: Known::Value(value),
            is_fixed: false,
        })
    }

    pub fn number(&self, kind: TypeId, value: i64) -> Thing<'a> {
        self.known(kind, Value::Number(value))
    }

    /// A value that is no constant, for a reason.
    pub fn varies(&self, kind: TypeId, pos: Pos, rule: u16) -> Thing<'a> {
        Thing::Value(Worth {
            kind,
            value: Known::Varies(Reason { pos, rule }),
            is_fixed: false,
        })
    }

    fn no_value(&mut self, pos: Pos) -> Option<Worth<'a>> {
        if self.is_constant {
            self.note(pos, rules::NOT_CONSTANT);
        }
        None
    }

    /// What an operand is worth as a value. What is no value has no worth, and is no constant
    /// either.
    pub fn value_of(&mut self, pos: Pos, thing: Thing<'a>) -> Option<Worth<'a>> {
        match thing {
            Thing::Value(worth) => Some(worth),
            Thing::Bad => None,
            Thing::Type(kind) if self.was_refused(kind) => None,
            Thing::Nothing(call) => self.no_value(call),
            _ => self.no_value(pos),
        }
    }
}

/// The reason why a value that is made of two has none: the first of theirs.
pub fn both<'a>(a: Known<'a>, b: Known<'a>) -> Result<(Value<'a>, Value<'a>), Reason> {
    match a {
        Known::Value(x) => match b {
            Known::Value(y) => Ok((x, y)),
            Known::Varies(reason) => Err(reason),
        },
        Known::Varies(reason) => match b {
            Known::Value(_) => Err(reason),
            Known::Varies(other) => Err(reason.first(other)),
        },
    }
}
