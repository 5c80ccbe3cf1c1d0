use crate::calls::Actual;
use crate::exprs::CoreExpr;
use m3_base::Pos;
use m3_types::TypeId;

/// A base with the steps that follow it in a row, each made of what stands before it: a place,
/// which names a variable or a part of one, or a value. Its place is that of its first token, where
/// every NIL that a step meets is reported. The chain gives what its last step gives.
#[cycle(expressions)]
#[derive(Clone, Copy)]
pub struct Chain<'a> {
    pub pos: Pos,
    pub base: Base<'a>,
    pub steps: &'a [Step<'a>],
    /// The type of what the chain gives; none where it ends in a call without result.
    pub kind: Option<TypeId>,
}

/// What a chain begins with.
#[cycle(expressions)]
#[derive(Clone, Copy)]
pub enum Base<'a> {
    /// The place of a module or interface variable, by its place in the program's list.
    Global {
        variable: u32,
        kind: TypeId,
    },
    /// The place of a VALUE formal or a variable of the procedure at this level around the node (or
    /// of the node's own procedure), by its place in that procedure's formals and locals.
    Local {
        level: u32,
        variable: u32,
        kind: TypeId,
    },
    /// The place that a VAR or READONLY formal, or a name that WITH binds to a designator, stands
    /// for.
    Alias {
        level: u32,
        variable: u32,
        kind: TypeId,
    },
    /// What a chain in parentheses gives, a place or a value.
    Inner(&'a Chain<'a>),
    /// The place of `count` elements of an array from element `start` on, as an open array
    /// (SUBARRAY): fixes the array's place, evaluates start and count, and then faults with
    /// Subarray at the chain's place where one of them is below 0 or their sum passes the array's
    /// elements.
    Subarray {
        array: &'a Chain<'a>,
        start: &'a CoreExpr<'a>,
        count: &'a CoreExpr<'a>,
        kind: TypeId,
    },
    /// The value of an expression.
    Value(&'a CoreExpr<'a>),
}

/// One step of a chain. `kind` is the type of what it gives.
#[cycle(expressions)]
#[derive(Clone, Copy)]
pub enum Step<'a> {
    /// The value that the place holds now.
    Read {
        kind: TypeId,
    },
    /// The place of a new variable that holds the value. It is no node of its own.
    Keep {
        kind: TypeId,
    },
    /// The place of the referent of a REF value; faults with Nil.
    Dereference {
        kind: TypeId,
    },
    /// The place of a field of a record place, by the field's place in the record type.
    Field {
        field: u32,
        kind: TypeId,
    },
    /// The place of a field of the object that the value refers to, by the object type whose part
    /// declares it and its place there; faults with Nil.
    ObjectField {
        owner: TypeId,
        field: u32,
        kind: TypeId,
    },
    /// The place of an element of an array place: evaluates the index, and then faults with Index
    /// at the index's place where the array has no such element.
    Element {
        index: &'a CoreExpr<'a>,
        kind: TypeId,
    },
    /// The call of a procedure value: faults with Nil, evaluates the actuals in order, copies the
    /// open arrays that go to VALUE formals in the order of formals (each a point), and then passes
    /// the call's point. Its result is a value.
    Call {
        actuals: &'a [Actual<'a>],
        kind: Option<TypeId>,
    },
    /// The call of a method of the object that the value refers to, by the object type whose part
    /// declares the method and its place there; faults with Nil where the object or the method is
    /// NIL, and is then a call whose first formal gets the object.
    MethodCall {
        owner: TypeId,
        method: u32,
        actuals: &'a [Actual<'a>],
        kind: Option<TypeId>,
    },
}
