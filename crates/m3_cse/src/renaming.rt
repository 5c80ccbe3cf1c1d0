//! Operations with temporaries in the places of those that hold the same.
use bumpalo::Bump;
use bumpalo::collections::into_bump_slice;
use m3_base::{NoMemory, place_number};
use m3_mid::{Actual, Callee, End, Held, MemoryWord, MidOp, Operand, Shown};
use std::alloc::Global;

/// By temporary the one that stands in its place.
#[derive(Drop)]
pub(crate) struct Names<'a> {
    arena: &'a Bump,
    names: Vec<u32>,
}

impl<'a> Names<'a> {
    pub(crate) fn new(alloc: Global, arena: &'a Bump, temps: usize) -> Result<Names<'a>, NoMemory> {
        let mut names = Vec::new(alloc);
        for temp in 0..temps {
            names.push(place_number(temp)?)?;
        }
        Ok(Names { arena, names })
    }

    /// Another temporary stands in the place of one from now on.
    pub(crate) fn rename(&mut self, temp: u32, other: u32) {
        let other = self.temp(other);
        if let Some(name) = self.names.get_mut(temp as usize) {
            *name = other;
        }
    }

    /// Nothing stands in the place of a temporary any more.
    pub(crate) fn restore(&mut self, temp: u32) {
        if let Some(name) = self.names.get_mut(temp as usize) {
            *name = temp;
        }
    }

    pub(crate) fn temp(&self, temp: u32) -> u32 {
        self.names.get(temp as usize).copied().unwrap_or(temp)
    }

    /// Whether another one stands in the place of a temporary.
    pub(crate) fn is_renamed(&self, temp: u32) -> bool {
        self.temp(temp) != temp
    }

    fn operand(&self, operand: Operand) -> Operand {
        match operand {
            Operand::Temp(temp) => Operand::Temp(self.temp(temp)),
            Operand::Number(_) => operand,
        }
    }

    fn word(&self, word: MemoryWord) -> MemoryWord {
        match word {
            MemoryWord::At { base, offset } => MemoryWord::At {
                base: self.temp(base),
                offset,
            },
            MemoryWord::Slot(_) | MemoryWord::Environment | MemoryWord::Global(_) => word,
        }
    }

    fn callee(&self, callee: Callee) -> Callee {
        match callee {
            Callee::Outermost(_) | Callee::Method(_) => callee,
            Callee::Inner {
                procedure,
                environment,
            } => Callee::Inner {
                procedure,
                environment: self.temp(environment),
            },
            Callee::Value { code, environment } => Callee::Value {
                code: self.temp(code),
                environment: self.temp(environment),
            },
        }
    }

    fn actual(&self, actual: Actual) -> Actual {
        match actual {
            Actual::Word(word) => Actual::Word(self.operand(word)),
            Actual::Slots { .. } => actual,
            Actual::Reference { address, base } => Actual::Reference {
                address: self.temp(address),
                base: self.operand(base),
            },
        }
    }

    fn actuals(&self, actuals: &[Actual]) -> Result<&'a [Actual], NoMemory> {
        let mut row = Vec::new(self.arena);
        for actual in actuals {
            row.push(self.actual(*actual))?;
        }
        Ok(into_bump_slice(row))
    }

    fn operands(&self, operands: &[Operand]) -> Result<&'a [Operand], NoMemory> {
        let mut row = Vec::new(self.arena);
        for operand in operands {
            row.push(self.operand(*operand))?;
        }
        Ok(into_bump_slice(row))
    }

    fn shown(&self, shown: &[Shown]) -> Result<&'a [Shown], NoMemory> {
        let mut row = Vec::new(self.arena);
        for one in shown {
            let at = match one.at {
                Held::Temp(temp) => Held::Temp(self.temp(temp)),
                Held::Slot(_) => one.at,
            };
            row.push(Shown { var: one.var, at })?;
        }
        Ok(into_bump_slice(row))
    }

    /// A point.
    fn point(&self, op: MidOp<'a>) -> Result<MidOp<'a>, NoMemory> {
        match op {
            MidOp::Call {
                callee,
                actuals,
                result,
                raised,
                shown,
            } => Ok(MidOp::Call {
                callee: self.callee(callee),
                actuals: self.actuals(actuals)?,
                result,
                raised,
                shown: self.shown(shown)?,
            }),
            MidOp::Make {
                to,
                cell,
                sizes,
                shown,
            } => Ok(MidOp::Make {
                to,
                cell,
                sizes,
                shown: self.shown(shown)?,
            }),
            MidOp::Service {
                service,
                operands,
                to,
                raised,
                pos,
                shown,
            } => Ok(MidOp::Service {
                service,
                operands: self.operands(operands)?,
                to,
                raised,
                pos,
                shown: self.shown(shown)?,
            }),
            MidOp::Point { shown } => Ok(MidOp::Point {
                shown: self.shown(shown)?,
            }),
            _ => Ok(op),
        }
    }

    /// What works on memory or tests.
    fn effect(&self, op: MidOp<'a>) -> MidOp<'a> {
        match op {
            MidOp::Store { at, from } => MidOp::Store {
                at: self.word(at),
                from: self.operand(from),
            },
            MidOp::Copy {
                to_address,
                from_address,
                words,
            } => MidOp::Copy {
                to_address: self.temp(to_address),
                from_address: self.temp(from_address),
                words: self.operand(words),
            },
            MidOp::Fill {
                at,
                words,
                distance,
            } => MidOp::Fill {
                at: self.temp(at),
                words: self.operand(words),
                distance: self.operand(distance),
            },
            MidOp::Check {
                relation,
                left,
                right,
                fault,
                pos,
            } => MidOp::Check {
                relation,
                left: self.operand(left),
                right: self.operand(right),
                fault,
                pos,
            },
            _ => op,
        }
    }

    /// A sum, or an operator that gives a word for all words.
    fn sum(&self, op: MidOp<'a>) -> MidOp<'a> {
        match op {
            MidOp::Move { to, from } => MidOp::Move {
                to,
                from: self.temp(from),
            },
            MidOp::Arith {
                to,
                operator,
                left,
                right,
            } => MidOp::Arith {
                to,
                operator,
                left: self.operand(left),
                right: self.operand(right),
            },
            MidOp::Index {
                to,
                array,
                index,
                words,
                offset,
            } => MidOp::Index {
                to,
                array: self.temp(array),
                index: self.operand(index),
                words,
                offset,
            },
            _ => op,
        }
    }

    /// A checked operator, or a comparison.
    fn operator(&self, op: MidOp<'a>) -> MidOp<'a> {
        match op {
            MidOp::Checked {
                to,
                operator,
                left,
                right,
                pos,
            } => MidOp::Checked {
                to,
                operator,
                left: self.operand(left),
                right: self.operand(right),
                pos,
            },
            MidOp::Compare {
                to,
                relation,
                left,
                right,
            } => MidOp::Compare {
                to,
                relation,
                left: self.operand(left),
                right: self.operand(right),
            },
            _ => op,
        }
    }

    /// What is read from memory.
    fn reading(&self, op: MidOp<'a>) -> MidOp<'a> {
        match op {
            MidOp::Load { to, from } => MidOp::Load {
                to,
                from: self.word(from),
            },
            MidOp::EqualWords {
                to,
                left,
                right,
                words,
            } => MidOp::EqualWords {
                to,
                left: self.temp(left),
                right: self.temp(right),
                words: self.operand(words),
            },
            MidOp::TypeTest { to, cell, tested } => MidOp::TypeTest {
                to,
                cell: self.temp(cell),
                tested,
            },
            MidOp::MethodOf { to, object, method } => MidOp::MethodOf {
                to,
                object: self.temp(object),
                method,
            },
            MidOp::TextByte { to, text, index } => MidOp::TextByte {
                to,
                text: self.temp(text),
                index: self.operand(index),
            },
            MidOp::EqualTexts { to, left, right } => MidOp::EqualTexts {
                to,
                left: self.temp(left),
                right: self.temp(right),
            },
            _ => op,
        }
    }

    /// An operation. Each kind of them is renamed by one of the five, and left alone by the others.
    pub(crate) fn op(&self, op: MidOp<'a>) -> Result<MidOp<'a>, NoMemory> {
        self.point(self.effect(self.operator(self.sum(self.reading(op)))))
    }

    pub(crate) fn end(&self, end: End) -> End {
        match end {
            End::Goto(_) | End::FaultAt { .. } => end,
            End::If {
                relation,
                left,
                right,
                yes,
                no,
            } => End::If {
                relation,
                left: self.operand(left),
                right: self.operand(right),
                yes,
                no,
            },
            End::Return { value: None } => end,
            End::Return { value: Some(value) } => End::Return {
                value: Some(self.operand(value)),
            },
            End::Raise {
                exception,
                number,
                tidy,
            } => End::Raise {
                exception: self.operand(exception),
                number: self.operand(number),
                tidy: self.operand(tidy),
            },
        }
    }
}
