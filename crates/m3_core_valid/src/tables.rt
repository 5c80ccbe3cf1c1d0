use m3_base::{NoMemory, place_number};
use m3_core::{Core, ProcDef, VarDef, VarKind};
use m3_types::{Method, TypeGraph, TypeId, TypeNode};
use std::alloc::Global;

/// What the nodes of a program may name, without the trees that are judged.
#[derive(Drop)]
pub struct Tables {
    /// The form of each type.
    pub forms: Vec<Form>,
    /// The signatures of the methods of all object types.
    pub signatures: Vec<TypeId>,
    pub headings: Vec<Heading>,
    /// The formals and locals of all procedures.
    pub variables: Vec<Variable>,
    /// How many variables outside procedures, texts and constants there are.
    pub globals: usize,
    pub texts: usize,
    pub values: usize,
}

/// What a node may ask of a type.
#[derive(Clone, Copy)]
pub enum Form {
    /// A place that was never defined, or a constant.
    NoType,
    FixedArray,
    /// An array of elements of a type.
    OpenArray(TypeId),
    Set,
    /// A record of so many fields.
    Record(usize),
    Procedure {
        formals: usize,
        has_result: bool,
    },
    RefTo(TypeId),
    /// The part that an object type adds, with the place of its methods among the signatures.
    Object {
        fields: usize,
        first_method: usize,
        methods: usize,
    },
    /// An opaque type, with what reveals it fully.
    Opaque(Option<TypeId>),
    /// ROOT or MUTEX.
    BuiltInObject,
    Other,
}

/// A procedure without its body.
#[derive(Clone, Copy)]
pub struct Heading {
    pub kind: TypeId,
    pub formals: usize,
    pub result: Option<TypeId>,
    pub level: u32,
    /// The procedure around it.
    pub outer: Option<u32>,
    pub is_module: bool,
    /// The place of its formals and locals among the variables of all, and how many they are.
    pub first_variable: usize,
    pub variables: usize,
}

/// A formal or local of a procedure.
#[derive(Clone, Copy)]
pub struct Variable {
    pub kind: TypeId,
    /// Whether it stands for another place.
    pub is_alias: bool,
}

impl Tables {
    /// The tables of a program.
    pub fn of(alloc: Global, core: &Core<'_>) -> Result<Tables, NoMemory> {
        let mut tables = Tables {
            forms: Vec::new(alloc),
            signatures: Vec::new(alloc),
            headings: Vec::new(alloc),
            variables: Vec::new(alloc),
            globals: core.globals.len(),
            texts: core.texts.len(),
            values: core.values.len(),
        };
        tables.note_types(&core.types.graph)?;
        tables.note_procs(core.procs)?;
        Ok(tables)
    }

    fn note_types(&mut self, graph: &TypeGraph<'_>) -> Result<(), NoMemory> {
        for (place, node) in graph.nodes.iter().enumerate() {
            let form = match node {
                TypeNode::Object(_, _, fields, methods, _) => self.object_form(
                    fields.len(),
                    methods,
                )?,
                TypeNode::Opaque(_, _) => Form::Opaque(full_reveal(graph, place_number(place)?)),
                _ => form_of(node),
            };
            self.forms.push(form)?;
        }
        Ok(())
    }

    fn object_form(&mut self, fields: usize, methods: &[Method<'_>]) -> Result<Form, NoMemory> {
        let first_method = self.signatures.len();
        for method in methods {
            self.signatures.push(method.signature)?;
        }
        Ok(Form::Object {
            fields,
            first_method,
            methods: methods.len(),
        })
    }

    fn note_procs(&mut self, procs: &[ProcDef<'_>]) -> Result<(), NoMemory> {
        for proc in procs {
            let first_variable = self.variables.len();
            self.note_variables(proc.formals)?;
            self.note_variables(proc.locals)?;
            self.headings.push(Heading {
                kind: proc.kind,
                formals: proc.formals.len(),
                result: proc.result,
                level: proc.level,
                outer: proc.outer,
                is_module: proc.is_module,
                first_variable,
                variables: proc.formals.len().saturating_add(proc.locals.len()),
            })?;
        }
        Ok(())
    }

    fn note_variables(&mut self, variables: &[VarDef<'_>]) -> Result<(), NoMemory> {
        for variable in variables {
            self.variables.push(variable_of(variable.kind))?;
        }
        Ok(())
    }
}

/// What reveals an opaque type fully.
fn full_reveal(graph: &TypeGraph<'_>, opaque: u32) -> Option<TypeId> {
    if (opaque as usize) < graph.nodes.len() {
        graph.full_reveal(TypeId(opaque))
    } else {
        None
    }
}

/// The form of a type that is neither an object type nor opaque.
fn form_of(node: &TypeNode<'_>) -> Form {
    match node {
        TypeNode::Reserved | TypeNode::Constant(_) => Form::NoType,
        TypeNode::FixedArray(_, _) => Form::FixedArray,
        TypeNode::OpenArray(element) => Form::OpenArray(*element),
        TypeNode::SetOf(_) => Form::Set,
        TypeNode::Fields(fields) => Form::Record(fields.len()),
        TypeNode::Procedure(formals, result, _) => Form::Procedure {
            formals: formals.len(),
            has_result: result.is_some(),
        },
        TypeNode::RefTo(_, target) => Form::RefTo(*target),
        TypeNode::Mutex | TypeNode::Root => Form::BuiltInObject,
        _ => Form::Other,
    }
}

/// A variable as its uses see it.
pub fn variable_of(kind: VarKind) -> Variable {
    match kind {
        VarKind::Variable(kind) | VarKind::ByValue(kind) => Variable {
            kind,
            is_alias: false,
        },
        VarKind::ByVar(kind) | VarKind::ByReadonly(kind) | VarKind::Alias(kind) => Variable {
            kind,
            is_alias: true,
        },
    }
}
