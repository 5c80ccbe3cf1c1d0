use m3_const_values::Assumed;
use m3_link_scopes::EntityId;
use m3_syntax::Expr;
use std::alloc::Global;

/// A constant expression of a declaration that breaks a rule of expressions, with its unit.
#[derive(Clone, Copy)]
pub struct Doubtful<'a> {
    pub unit: u32,
    pub value: &'a Expr<'a>,
}

/// What an expression assumes, with the expression.
#[derive(Clone, Copy)]
pub struct Promise<'a> {
    pub assumed: Assumed,
    pub value: &'a Expr<'a>,
    /// The named constant whose value the expression is.
    pub constant: Option<EntityId>,
}

/// What is noted of constant expressions for rules that are judged later.
#[derive(Drop)]
pub struct Doubts<'a> {
    /// What the task that is done notes; it counts when nothing lacks.
    pub doubts: Vec<Doubtful<'a>>,
    pub assumed: Vec<Promise<'a>>,
    /// What was noted so far. The doubtful expressions are to be judged with those of bodies.
    pub doubtful: Vec<Doubtful<'a>>,
    pub promises: Vec<Promise<'a>>,
}

impl<'a> Doubts<'a> {
    pub fn new(alloc: Global) -> Doubts<'a> {
        Doubts {
            doubts: Vec::new(alloc),
            assumed: Vec::new(alloc),
            doubtful: Vec::new(alloc),
            promises: Vec::new(alloc),
        }
    }
}
