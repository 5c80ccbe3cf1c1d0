use bumpalo::Bump;
use m3_base::{NoMemory, place_number};
use m3_check_state::{Checker, Held, Variable};
use m3_core::{Role, VarDef, VarKind};
use m3_syntax::Name;
use m3_types::TypeId;

/// The body that is checked: its variables so far, and where it stands.
#[derive(Drop)]
pub struct Body<'a> {
    pub unit_name: &'a [u8],
    pub formals: Vec<VarDef<'a>, &'a Bump>,
    pub locals: Vec<VarDef<'a>, &'a Bump>,
    pub level: u32,
    /// The number of the procedure itself.
    pub number: u32,
    /// How many loops are open around.
    pub loops: u32,
    pub result: Option<TypeId>,
}

/// A new variable of a body.
#[derive(Clone, Copy)]
pub struct NewVariable<'a> {
    pub name: Name<'a>,
    pub role: Role,
    pub kind: VarKind,
    pub is_read_only: bool,
}

impl<'a> Body<'a> {
    pub fn new(checker: &Checker<'_, 'a>, number: u32, due: Option<TypeId>) -> Body<'a> {
        let unit_name = match checker.program.infos.get(checker.unit as usize) {
            Some(info) => info.name.text,
            None => &[],
        };
        Body {
            unit_name,
            formals: Vec::new(checker.arena),
            locals: Vec::new(checker.arena),
            level: checker.level,
            number,
            loops: 0,
            result: due,
        }
    }

    /// Adds a variable, and gives its place among the formals and locals.
    pub fn add(
        &mut self,
        checker: &mut Checker<'_, 'a>,
        new: NewVariable<'a>,
    ) -> Result<u32, NoMemory> {
        let place = place_number(self.formals.len().saturating_add(self.locals.len()))?;
        let definition = VarDef {
            unit: self.unit_name,
            name: new.name.text,
            kind: new.kind,
            role: new.role,
            pos: new.name.pos,
            initial: None,
        };
        if new.role == Role::Formal {
            self.formals.push(definition)?;
        } else {
            self.locals.push(definition)?;
        }
        if let Some(id) = checker.program.binds.at(checker.unit, new.name.pos) {
            checker.variables.insert(id, self.variable(place, &new))?;
        }
        Ok(place)
    }

    /// What is known of a new variable at a place.
    fn variable(&self, place: u32, new: &NewVariable<'a>) -> Variable {
        let level = self.level;
        let (held, kind) = match new.kind {
            VarKind::Variable(kind) | VarKind::ByValue(kind) => (
                Held::Local {
                    level,
                    variable: place,
                },
                kind,
            ),
            VarKind::ByVar(kind) | VarKind::ByReadonly(kind) | VarKind::Alias(kind) => (
                Held::Alias {
                    level,
                    variable: place,
                },
                kind,
            ),
        };
        Variable {
            held,
            kind,
            is_read_only: new.is_read_only,
            may_be_inner: matches!(new.role, Role::Formal | Role::With),
        }
    }
}
