//! Temporaries that hold an address while a loop runs.

ghost use Rattle.std.specs.Prelude.{◌≡◌, ℕ, List, IfOk};
ghost use Rattle.m3_mid.specs.declared.procs.Slot.{Slot};
ghost use Rattle.m3_same_forms.specs.Forms.{Form as Sums, merge, opposite};
ghost use Rattle.m3_same_forms.specs.Seen.{seen};
ghost use Rattle.m3_same_forms.specs.declared.seen.Seen.TheVariants.{Sets};

use m3_base::NoMemory;
use m3_mid::{Kind, MidOp, Operand, Proc, WordOperator};
use m3_same_forms::{Form, Symbol, Term, same_symbol};
use std::alloc::Global;

/// A pointer serves for what lies nearer than this.
const NEAR: i32 = 1_000_000;

/// A temporary that holds a sum wherever a block of a loop begins, of what temporaries hold there.
#[derive(Drop)]
pub struct Pointer {
    pub temp: u32,
    pub kind: Kind,
    pub value: Form,
    /// The operations that give it the sum before the loop.
    pub begin: Vec<MidOp<'static>>,
    pub before: u32,
    /// What a turn adds to it at its end.
    pub step: u64,
    pub turn: u32,
}

/// What stands in the place of an address: a pointer, and a number.
#[derive(Clone, Copy)]
pub struct Stand {
    pub temp: u32,
    pub distance: i32,
}

/// Two temporaries that are added.
#[derive(Clone, Copy)]
pub struct Sum {
    pub left: u32,
    pub right: u32,
}

/// Where a sum begins: what is no number in it.
#[derive(Clone, Copy)]
enum Base {
    Temp(u32),
    Frame,
    Globals,
    Constant(u32),
}

/// How many times a form has a symbol.
pub fn times_in(form: &Form, symbol: Symbol) -> u64 {
    for term in &form.terms {
        if same_symbol(term.symbol, symbol) {
            return term.times;
        }
    }
    0
}

/// A sum without its number.
pub fn without_number(alloc: Global, form: &Form) -> Result<Form, NoMemory> {
    let number = times_in(form, Symbol::One);
    Ok(form.insert(alloc, Symbol::One, number.wrapping_neg())?)
}

/// What one sum is more than another.
pub fn difference(alloc: Global, from: &Form, to: &Form) -> Result<Form, NoMemory>
    ensures { IfOk result (λ f. f ≡ merge (opposite from.now) to.now) }
{
    let opposite = from.scaled(alloc, u64::MAX)?;
    Ok(opposite.merge(alloc, to.copy(alloc)?)?)
}

/// How far one sum is behind another, where that is a small number.
pub fn distance(alloc: Global, from: &Form, to: &Form) -> Result<Option<i32>, NoMemory> {
    let difference = difference(alloc, from, to)?;
    let number = times_in(&difference, Symbol::One);
    let rest = if number == 0 { 0 } else { 1 };
    if difference.terms.len() != rest {
        return Ok(None);
    }
    match i32::try_from(number.cast_signed()) {
        Ok(number) if -NEAR < number && number < NEAR => Ok(Some(number)),
        _ => Ok(None),
    }
}

fn kind_of(p: &Proc<'_>, temp: u32) -> Kind {
    p.temps.get(temp as usize).copied().unwrap_or(Kind::Number)
}

/// What a term may be the base of a sum by; a temporary that holds a number only where nothing else
/// is.
fn base_of(p: &Proc<'_>, term: Term, with_numbers: bool) -> Option<Base> {
    if term.times != 1 {
        return None;
    }
    match term.symbol {
        Symbol::Left(temp) if with_numbers || kind_of(p, temp) != Kind::Number => Some(Base::Temp(
            temp,
        )),
        Symbol::Frame => Some(Base::Frame),
        Symbol::Globals => Some(Base::Globals),
        Symbol::Constant(constant) => Some(Base::Constant(constant)),
        _ => None,
    }
}

/// The place of the base among the terms of a sum.
fn base_in(p: &Proc<'_>, terms: &[Term]) -> Option<(usize, Base)> {
    for with_numbers in [false, true] {
        for (place, term) in terms.iter().enumerate() {
            if let Some(base) = base_of(p, *term, with_numbers) {
                return Some((place, base));
            }
        }
    }
    None
}

/// A temporary that is added so many times, where it holds a number.
fn added(p: &Proc<'_>, term: Term) -> Option<u32> {
    match term.symbol {
        Symbol::Left(temp) if kind_of(p, temp) == Kind::Number => Some(temp),
        _ => None,
    }
}

/// A temporary that is taken away once, where it holds a reference.
pub fn taken(p: &Proc<'_>, term: Term) -> Option<u32> {
    match term.symbol {
        Symbol::Left(temp) if term.times == u64::MAX && kind_of(p, temp) == Kind::Tidy => Some(
            temp,
        ),
        _ => None,
    }
}

/// Whether a term of a sum is neither its number nor taken away.
fn is_to_add(p: &Proc<'_>, term: Term) -> bool {
    !matches!(term.symbol, Symbol::One) && taken(p, term).is_none()
}

/// Whether the base of a sum makes it an address of this kind.
fn fits(p: &Proc<'_>, base: Base, kind: Kind) -> bool {
    match base {
        Base::Temp(temp) => (kind_of(p, temp) == Kind::Number) == (kind == Kind::Number),
        Base::Frame | Base::Globals | Base::Constant(_) => kind == Kind::Number,
    }
}

/// The operation that puts what one temporary is more than another into a third.
fn taking(to: u32, whole: u32, part: u32) -> MidOp<'static>
    ensures { (slots : List Slot) → (f : ℕ → Sums)
        → seen slots f result ≡ Sets to (merge (f whole) (opposite (f part))) }
{
    MidOp::Arith {
        to,
        operator: WordOperator::Subtract,
        left: Operand::Temp(whole),
        right: Operand::Temp(part),
    }
}

/// The operations of a sum in the making.
#[derive(Drop)]
struct Making {
    to: u32,
    /// The temporary that holds what there is of the sum.
    from: u32,
    /// The number that is still to be added.
    number: i64,
    ops: Vec<MidOp<'static>>,
}

impl Making {
    fn of(alloc: Global, to: u32, base: Base, number: u64) -> Result<Making, NoMemory> {
        let mut making = Making {
            to,
            from: to,
            number: number.cast_signed(),
            ops: Vec::new(alloc),
        };
        match base {
            Base::Temp(temp) => making.from = temp,
            Base::Frame => making.ops.push(MidOp::FrameAddress { to })?,
            Base::Globals => making.ops.push(MidOp::GlobalAddress { to, word: 0 })?,
            Base::Constant(constant) => making.ops.push(MidOp::ConstantAddress { to, constant })?,
        }
        Ok(making)
    }

    fn add(&mut self, temp: u32, times: u64) -> Result<(), NoMemory> {
        self.ops.push(MidOp::Index {
            to: self.to,
            array: self.from,
            index: Operand::Temp(temp),
            words: times,
            offset: self.number,
        })?;
        self.from = self.to;
        self.number = 0;
        Ok(())
    }

    fn take(&mut self, temp: u32) -> Result<(), NoMemory> {
        self.ops.push(taking(self.to, self.from, temp))?;
        self.from = self.to;
        Ok(())
    }

    fn end(self) -> Result<Vec<MidOp<'static>>, NoMemory> {
        let Making {
            to,
            from,
            number,
            mut ops,
        } = self;
        if number != 0 {
            ops.push(MidOp::Arith {
                to,
                operator: WordOperator::Add,
                left: Operand::Temp(from),
                right: Operand::Number(number),
            })?;
        } else if from != to {
            ops.push(MidOp::Move { to, from })?;
        }
        Ok(ops)
    }
}

/// The operations that put a sum into a temporary of a kind, where there are such.
pub(crate) fn making_of(
    alloc: Global,
    p: &Proc<'_>,
    to: u32,
    kind: Kind,
    value: &Form,
) -> Result<Option<Vec<MidOp<'static>>>, NoMemory> {
    let Some((first, base)) = base_in(p, &value.terms) else {
        return Ok(None);
    };
    if !fits(p, base, kind) {
        return Ok(None);
    }
    let mut making = Making::of(alloc, to, base, times_in(value, Symbol::One))?;
    // What is taken away comes first, so that each further operation adds a number.
    for term in &value.terms {
        if let Some(temp) = taken(p, *term) {
            making.take(temp)?;
        }
    }
    for (place, term) in value.terms.iter().enumerate() {
        if place != first && is_to_add(p, *term) {
            match added(p, *term) {
                Some(temp) => making.add(temp, term.times)?,
                None => return Ok(None),
            }
        }
    }
    Ok(Some(making.end()?))
}
