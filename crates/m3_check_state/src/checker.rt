use crate::things::Thing;
use bumpalo::Bump;
use m3_base::{Least, NoMemory, Pos, Refusal};
use m3_core::{CoreExpr, Step};
use m3_decl_lookup::{Declared, Members};
use m3_link_scopes::{EntityId, Program};
use m3_syntax::Kept;
use m3_types::TypeId;
use std::alloc::Global;
use std::collections::HashMap;

const PHASE: u8 = 6;

/// Where a variable stands.
#[derive(Clone, Copy, PartialEq, Eq)]
pub enum Held {
    Global(u32),
    /// In the procedure of this level, by its place in the formals and locals there.
    Local { level: u32, variable: u32 },
    /// The place that a formal by reference or a name of WITH stands for.
    Alias { level: u32, variable: u32 },
}

/// What is known of a variable.
#[derive(Clone, Copy)]
pub struct Variable {
    pub held: Held,
    pub kind: TypeId,
    pub is_read_only: bool,
    /// Whether it is a formal or a name of WITH, which may hold a procedure inside another.
    pub may_be_inner: bool,
}

/// What checks the expressions of a program: where it stands, what it knows, and what it noted. No
/// statement stands in it, so what takes it is cheap to prove.
#[derive(Drop)]
pub struct Checker<'p, 'a> {
    pub alloc: Global,
    pub arena: &'a Bump,
    pub program: &'p Program<'a>,
    pub declared: Declared<'a>,
    pub least: Least,
    /// The unit in whose view types are judged, by its place in the program's units.
    pub unit: u32,
    /// The level of the procedure around.
    pub level: u32,
    /// The variables in force and all others of the program that were met.
    pub variables: HashMap<EntityId, Variable>,
    /// The steps of the chains in the making, each chain's behind those of the chains around it.
    pub steps: Vec<Step<'a>>,
    pub members: Members<'a>,
    /// What each unit sees of the opaque types that were asked for.
    pub seen: HashMap<(u32, TypeId), TypeId>,
    /// The open array type of each element type that SUBARRAY met.
    pub open: HashMap<TypeId, TypeId>,
}

impl<'p, 'a> Checker<'p, 'a> {
    pub fn new(
        alloc: Global,
        arena: &'a Bump,
        program: &'p Program<'a>,
        declared: Declared<'a>,
    ) -> Checker<'p, 'a> {
        Checker {
            alloc,
            arena,
            program,
            declared,
            least: Least::new(),
            unit: 0,
            level: 0,
            variables: HashMap::new(alloc),
            steps: Vec::new(alloc),
            members: Members::new(alloc),
            seen: HashMap::new(alloc),
            open: HashMap::new(alloc),
        }
    }

    /// Notes that the unit breaks a rule.
    pub fn note(&mut self, pos: Pos, rule: u16) {
        let number = match self.program.infos.get(self.unit as usize) {
            Some(info) if !info.is_built_in => info.number,
            _ => return,
        };
        self.least.note(Refusal {
            phase: PHASE,
            unit: number,
            pos,
            rule,
        });
    }

    /// Notes a broken rule at what is then nothing.
    pub fn bad(&mut self, pos: Pos, rule: u16) -> Thing<'a> {
        self.note(pos, rule);
        Thing::Bad
    }

    /// Keeps what an operand is made of in the arena.
    pub fn box_up<T: Copy>(&self, part: T) -> Result<Kept<'a, T>, NoMemory> {
        let kept = self.arena.try_alloc(Box::new(self.arena, part)?)?;
        Ok(&*kept)
    }

    /// Keeps an expression in the arena.
    pub fn keep(&self, expr: CoreExpr<'a>) -> Result<&'a CoreExpr<'a>, NoMemory> {
        let kept = self.arena.try_alloc(expr)?;
        Ok(&*kept)
    }
}
