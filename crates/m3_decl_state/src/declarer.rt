use m3_base::{Least, NoMemory, Pos, Refusal};
use m3_const_values::{Evaluator, Need, Reason, type_of};
use m3_core::{Text, Value, ValueId, bytes_of};
use m3_link_scopes::EntityId;
use m3_syntax::TypeExp;
use m3_types::{ConstId, TypeId, TypeNode};
use std::alloc::Global;
use std::collections::HashMap;

const PHASE: u8 = 5;

/// A type whose definition is a task: its unit, and where rule 46 is reported: at its name, or
/// where it has none at its first token. How it is written stands among the trees.
#[derive(Clone, Copy)]
pub struct Plan {
    pub unit: u32,
    pub pos: Pos,
    pub is_named: bool,
}

/// A brand text, with the unit's number and the place of its expression.
#[derive(Clone, Copy)]
pub struct BrandAt<'a> {
    pub text: &'a [u8],
    pub unit: u32,
    pub number: u32,
    pub pos: Pos,
}

/// A procedure that is bound to a method, or overrides one: its type, and the method's name with
/// its place.
#[derive(Clone, Copy)]
pub struct MethodValue<'a> {
    pub unit: u32,
    pub name: &'a [u8],
    pub pos: Pos,
    pub object: TypeId,
    /// The signature of a method that is declared here; none where an ancestor's is overridden.
    pub signature: Option<TypeId>,
    /// The type of the procedure; none for NIL, and for what was refused.
    pub procedure: Option<TypeId>,
    /// The place of what overrides a method and is no procedure.
    pub wrong: Option<Pos>,
}

/// What declares the types and constants of a program. The trees of its text stand beside it
/// (`Trees`), since most of what takes it doesn't look at them.
#[derive(Drop)]
pub struct Declarer<'p, 'a> {
    pub eval: Evaluator<'p, 'a>,
    pub least: Least,
    pub plans: HashMap<TypeId, Plan>,
    /// The types that have a plan, in the order in which they were reserved.
    pub planned: Vec<TypeId>,
    /// What the task that is done notes; it counts when nothing lacks.
    pub reasons: Vec<Reason>,
    pub new_brands: Vec<BrandAt<'a>>,
    pub new_values: Vec<MethodValue<'a>>,
    /// What was noted so far.
    pub brands: Vec<BrandAt<'a>>,
    pub values: Vec<MethodValue<'a>>,
    /// The types whose own text breaks a rule, as far as that was found.
    pub flawed: Vec<TypeId>,
    /// The tasks whose text breaks a rule and that were done before all types were worked out.
    pub postponed: Vec<Need>,
    /// How many broken rules were noted.
    pub notes: u64,
    /// Whether the definitions of all types were worked out.
    pub has_definitions: bool,
    /// The number of the next BRANDED without a text.
    pub occurrence: u32,
    /// The constants that types contain, by those of the program.
    pub interned: HashMap<ValueId, ConstId>,
    /// The constants that are interned, in their order.
    pub intern_order: Vec<ValueId>,
    /// The tasks that are done, each with its place on the stack.
    pub busy: HashMap<Need, usize>,
}

impl<'p, 'a> Declarer<'p, 'a> {
    pub fn new(alloc: Global, eval: Evaluator<'p, 'a>) -> Declarer<'p, 'a> {
        Declarer {
            eval,
            least: Least::new(),
            plans: HashMap::new(alloc),
            planned: Vec::new(alloc),
            reasons: Vec::new(alloc),
            new_brands: Vec::new(alloc),
            new_values: Vec::new(alloc),
            brands: Vec::new(alloc),
            values: Vec::new(alloc),
            flawed: Vec::new(alloc),
            postponed: Vec::new(alloc),
            notes: 0,
            has_definitions: false,
            occurrence: 0,
            interned: HashMap::new(alloc),
            intern_order: Vec::new(alloc),
            busy: HashMap::new(alloc),
        }
    }

    /// The number of a unit in refusals; none for a built-in unit, which breaks no rule.
    pub fn number_of(&self, unit: u32) -> Option<u32> {
        match self.eval.program.infos.get(unit as usize) {
            Some(info) if !info.is_built_in => Some(info.number),
            _ => None,
        }
    }

    /// Notes that a unit breaks a rule.
    pub fn note(&mut self, unit: u32, pos: Pos, rule: u16) {
        self.notes = self.notes.saturating_add(1);
        if let Some(unit) = self.number_of(unit) {
            self.least.note(Refusal {
                phase: PHASE,
                unit,
                pos,
                rule,
            });
        }
    }

    /// Notes that a unit breaks a rule of expressions and statements.
    pub fn note_later(&mut self, unit: u32, pos: Pos, rule: u16) {
        if let Some(unit) = self.number_of(unit) {
            self.eval.declared.later.note(Refusal {
                phase: PHASE + 1,
                unit,
                pos,
                rule,
            });
        }
    }

    /// Notes a rule that the task breaks, in the unit that is read.
    pub fn refuse(&mut self, pos: Pos, rule: u16) -> Result<(), NoMemory> {
        self.reasons.push(Reason { pos, rule })?;
        Ok(())
    }

    /// Whether the task has all that it needs so far.
    pub fn has_all(&self) -> bool {
        self.eval.lacks.is_empty()
    }

    /// The type of a type expression of the unit that is read, or what stands for a refused one.
    pub fn kind_of(&self, kind: &TypeExp<'a>) -> TypeId {
        match type_of(&self.eval, kind) {
            Some(kind) => kind,
            None => self.eval.declared.basic.refused,
        }
    }

    /// Whether what was written has no definition, since it was refused.
    pub fn is_refused(&self, kind: TypeId) -> bool {
        matches!(self.eval.definition(kind), TypeNode::Reserved)
    }

    /// Whether a type was refused, or names one that was, or one whose own text breaks a rule.
    pub fn is_unsound(&self, kind: TypeId) -> bool {
        self.eval.declared.unsound.contains(&kind)
    }

    /// The type that fully reveals an opaque type.
    pub fn revealed(&self, kind: TypeId) -> Option<TypeId> {
        if (kind.0 as usize) < self.eval.declared.types.nodes.len() {
            self.eval.declared.types.full_reveal(kind)
        } else {
            None
        }
    }

    /// The bytes of a constant, if it is a text. Those of a text that `&` made are written out once
    /// only.
    pub fn bytes_of(&mut self, value: Value<'a>) -> Result<Option<&'a [u8]>, NoMemory> {
        let Value::Text(cell) = value else {
            return Ok(None);
        };
        match self.eval.declared.texts.get(cell as usize) {
            Some(Text::Literal(bytes)) | Some(Text::Made(bytes)) => Ok(Some(*bytes)),
            Some(Text::Joined { .. }) => Ok(Some(self.written_out(cell)?)),
            None => Ok(None),
        }
    }

    fn written_out(&mut self, cell: u32) -> Result<&'a [u8], NoMemory> {
        let alloc = self.eval.alloc;
        let arena = self.eval.arena;
        let bytes = bytes_of(alloc, self.eval.declared.texts.as_slice(), cell)?;
        let kept: &'a [u8] = &*arena.try_alloc_slice_copy(bytes.as_slice())?;
        if let Some(text) = self.eval.declared.texts.get_mut(cell as usize) {
            *text = Text::Made(kept);
        }
        Ok(kept)
    }

    /// The name of an entity's unit and place, where rule 46 is reported.
    pub fn place_of(&self, id: EntityId) -> Option<(u32, Pos)> {
        let entity = self.eval.program.binds.entity(id)?;
        Some((entity.unit, entity.pos))
    }
}

impl<'a> Declarer<'_, 'a> {
    /// Defines a reserved place.
    pub fn set(&mut self, kind: TypeId, node: TypeNode<'a>) {
        if self.eval.declared.types.is_reserved(kind) {
            self.eval.declared.types.set(kind, node);
        }
    }
}
