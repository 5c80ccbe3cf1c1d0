use crate::exprs::CoreExpr;
use crate::stmts::CoreStmt;
use crate::texts::Text;
use crate::values::Value;
use m3_base::Pos;
use m3_types::TypeId;
use m3_types_sizes::SizedTypes;

/// A checked program.
#[derive(Drop)]
pub struct Core<'a> {
    /// All types, with their words. The `source` of a default names a constant of `values`.
    pub types: SizedTypes<'a>,
    /// The procedures with bodies and the module bodies, by unit and place, a module's body behind
    /// the procedures of its unit. The number of a procedure is its place here.
    pub procs: &'a [ProcDef<'a>],
    /// The module and interface variables, by unit and place.
    pub globals: &'a [VarDef<'a>],
    pub exceptions: &'a [ExcDef<'a>],
    /// The text literals and the constant texts that `&` makes.
    pub texts: &'a [Text<'a>],
    /// The module bodies, by their numbers, in the order in which they run.
    pub order: &'a [u32],
    /// The constants that expressions and the defaults of types name.
    pub values: &'a [Value<'a>],
    /// The names of the files, in command order.
    pub files: &'a [&'a [u8]],
    /// The place of Thread.Alerted in `exceptions`.
    pub alerted: u32,
}

/// A procedure or a module body.
#[derive(Clone, Copy)]
pub struct ProcDef<'a> {
    pub name: &'a [u8],
    /// The number of its unit.
    pub unit: u32,
    /// Its type; that of a procedure without formals and result for a module body.
    pub kind: TypeId,
    pub formals: &'a [VarDef<'a>],
    pub result: Option<TypeId>,
    /// The places of the exceptions that it may raise, rising; none for RAISES ANY and for a module
    /// body.
    pub raises: Option<&'a [u32]>,
    /// Every variable of its body, in the order of their places.
    pub locals: &'a [VarDef<'a>],
    /// 0 for a procedure of the outermost scope of its unit, and 1 more inside each procedure.
    pub level: u32,
    /// The procedure around it.
    pub outer: Option<u32>,
    pub body: &'a [CoreStmt<'a>],
    /// The place of its first token, where the fault Raises is reported.
    pub pos: Pos,
    pub name_pos: Pos,
    /// The place of its END, where the fault NoReturn is reported.
    pub end: Pos,
    pub is_module: bool,
}

/// A variable, formal or alias, with the names of its unit and of itself.
#[derive(Clone, Copy)]
pub struct VarDef<'a> {
    pub unit: &'a [u8],
    pub name: &'a [u8],
    pub kind: VarKind,
    pub role: Role,
    /// The place of its name; for the hidden name of a LOCK that of the LOCK.
    pub pos: Pos,
    /// The constant that an interface variable gets before any body runs.
    pub initial: Option<&'a CoreExpr<'a>>,
}

/// What a name stands for, with its type.
#[derive(Clone, Copy, PartialEq, Eq)]
pub enum VarKind {
    Variable(TypeId),
    ByValue(TypeId),
    ByVar(TypeId),
    ByReadonly(TypeId),
    Alias(TypeId),
}

/// Which construct declares a variable.
#[derive(Clone, Copy, PartialEq, Eq)]
pub enum Role {
    Global,
    Formal,
    Local,
    For,
    With,
    /// The name that a LOCK binds; it is shown to nobody.
    Lock,
    Handler,
    TypeCase,
}

/// An exception, with the names of its unit and of itself, and the type of its argument.
#[derive(Clone, Copy)]
pub struct ExcDef<'a> {
    pub unit: &'a [u8],
    pub name: &'a [u8],
    pub argument: Option<TypeId>,
}
