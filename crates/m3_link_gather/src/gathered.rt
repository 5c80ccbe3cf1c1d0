use m3_base::Pos;
use m3_link_scopes::{EntityId, Program};
use m3_syntax::{Expr, Name, Qualid, TypeExp};
use std::alloc::Global;
use std::collections::HashMap;

/// A text literal as it is written, with its unit and place.
#[derive(Clone, Copy)]
pub struct TextAt<'a> {
    pub unit: u32,
    pub pos: Pos,
    pub text: &'a [u8],
}

/// A type expression of a unit, neither a name nor a parenthesis.
#[derive(Clone, Copy)]
pub struct TypeAt<'a> {
    pub unit: u32,
    pub kind: &'a TypeExp<'a>,
}

/// A bound of a label of CASE, with its unit.
#[derive(Clone, Copy)]
pub struct LabelAt<'a> {
    pub unit: u32,
    pub value: &'a Expr<'a>,
}

/// What gives a name of a statement its type.
#[derive(Clone, Copy)]
pub enum Bound<'a> {
    /// The value of a WITH, and of a TYPECASE whose branch has several types.
    Value(&'a Expr<'a>),
    /// The first and the last value of a FOR.
    Range(&'a Expr<'a>, &'a Expr<'a>),
    /// The exception of a handler.
    Exception(Qualid<'a>),
    /// The type of a branch of TYPECASE.
    Type(&'a TypeExp<'a>),
}

/// What a program's text has. Each list is in the order of the text, outer before inner, unit by
/// unit.
#[derive(Drop)]
pub struct Gathered<'a> {
    pub texts: Vec<TextAt<'a>>,
    pub types: Vec<TypeAt<'a>>,
    pub labels: Vec<LabelAt<'a>>,
    pub bindings: HashMap<EntityId, Bound<'a>>,
}

/// The walk: what it found, and the unit that it is in. Where memory is wanting it goes on to its
/// end.
#[derive(Drop)]
pub struct Gatherer<'p, 'a> {
    pub program: &'p Program<'a>,
    pub unit: u32,
    pub found: Gathered<'a>,
    /// Whether all of it could be kept.
    pub is_whole: bool,
}

impl<'p, 'a> Gatherer<'p, 'a> {
    /// A walk that has found nothing yet, in unit 0.
    pub fn new(alloc: Global, program: &'p Program<'a>) -> Gatherer<'p, 'a> {
        Gatherer {
            program,
            unit: 0,
            found: Gathered {
                texts: Vec::new(alloc),
                types: Vec::new(alloc),
                labels: Vec::new(alloc),
                bindings: HashMap::new(alloc),
            },
            is_whole: true,
        }
    }

    /// Notes that memory was wanting where something could not be added.
    fn keep(&mut self, is_added: bool) {
        self.is_whole = self.is_whole && is_added;
    }

    /// Lists a text literal.
    pub fn text(&mut self, pos: Pos, text: &'a [u8]) {
        let unit = self.unit;
        let added = self.found.texts.push(TextAt { unit, pos, text });
        self.keep(added.is_ok());
    }

    /// Lists a type expression.
    pub fn kind(&mut self, kind: &'a TypeExp<'a>) {
        let unit = self.unit;
        let added = self.found.types.push(TypeAt { unit, kind });
        self.keep(added.is_ok());
    }

    /// Lists a bound of a label of CASE.
    pub fn label(&mut self, value: &'a Expr<'a>) {
        let unit = self.unit;
        let added = self.found.labels.push(LabelAt { unit, value });
        self.keep(added.is_ok());
    }

    /// Says what a name of a statement is bound to.
    pub fn bind(&mut self, name: Name<'a>, bound: Bound<'a>) {
        if let Some(entity) = self.program.binds.at(self.unit, name.pos) {
            let added = self.found.bindings.insert(entity, bound);
            self.keep(added.is_ok());
        }
    }
}
