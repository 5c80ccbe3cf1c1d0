use crate::checker::Checker;
use crate::things::{Thing, Valued};
use m3_base::{NoMemory, Pos};
use m3_core::{CoreExpr, Value, ValueId};
use m3_types::TypeId;

impl<'a> Checker<'_, 'a> {
    /// An expression as a value of a type.
    pub fn value(&self, expr: CoreExpr<'a>, kind: TypeId) -> Result<Thing<'a>, NoMemory> {
        Ok(Thing::Value(Valued {
            kept: self.box_up(expr)?,
            kind,
            may_be_inner: false,
        }))
    }

    /// An ordinal value.
    pub fn number(&self, pos: Pos, kind: TypeId, value: i64) -> Result<Thing<'a>, NoMemory> {
        self.value(CoreExpr::Number { pos, kind, value }, kind)
    }

    /// A constant as an operand.
    pub fn constant(&self, pos: Pos, kind: TypeId, value: ValueId) -> Result<Thing<'a>, NoMemory> {
        if self.is_refused(kind) {
            return Ok(Thing::Bad);
        }
        self.value(self.constant_expr(pos, kind, value), kind)
    }

    /// A constant as an expression.
    pub fn constant_expr(&self, pos: Pos, kind: TypeId, value: ValueId) -> CoreExpr<'a> {
        match self.declared.values.get(value.0 as usize) {
            Some(Value::Number(number)) => CoreExpr::Number {
                pos,
                kind,
                value: *number,
            },
            Some(Value::Nil) => CoreExpr::Nil { pos, kind },
            Some(Value::Text(text)) => CoreExpr::Text {
                pos,
                kind,
                text: *text,
            },
            Some(Value::Procedure(procedure)) => CoreExpr::Procedure {
                pos,
                kind,
                procedure: *procedure,
            },
            _ => CoreExpr::Constant { pos, kind, value },
        }
    }

    /// A default, by the number of its constant.
    pub fn default_of(
        &self,
        pos: Pos,
        kind: TypeId,
        source: u32,
    ) -> Result<&'a CoreExpr<'a>, NoMemory> {
        self.keep(self.constant_expr(pos, kind, ValueId(source)))
    }

    /// A text literal.
    pub fn text(&self, pos: Pos) -> Result<Thing<'a>, NoMemory> {
        let kind = self.declared.basic.text;
        match self.declared.text_at(self.unit, pos) {
            Some(text) => self.value(CoreExpr::Text { pos, kind, text }, kind),
            None => Ok(Thing::Bad),
        }
    }
}
