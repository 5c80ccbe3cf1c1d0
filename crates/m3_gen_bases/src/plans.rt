use m3_mid::{Kind, Proc};

/// A base of a derived pointer: a tidy temporary, or the slot of a formal by reference, which the
/// caller describes.
#[derive(Clone, Copy, PartialEq, Eq)]
pub enum Base {
    Temp(u32),
    Slot(u32),
}

/// The bases of a derived pointer on one way: those that were added up to it, and those that were
/// taken away.
#[derive(Clone, Copy)]
pub struct WayPlan<'a> {
    pub added: &'a [Base],
    pub subtracted: &'a [Base],
}

/// What a derived temporary is derived from. Where it has more than one way, the temporary `path`
/// tells which one holds, counted from 0.
#[derive(Clone, Copy)]
pub struct Derivation<'a> {
    pub path: Option<u32>,
    pub ways: &'a [WayPlan<'a>],
}

/// A procedure that keeps the bases of its derived temporaries where they would be lost, and for
/// each temporary its derivation, with no way where no row needs it.
#[derive(Clone, Copy)]
pub struct Based<'a> {
    pub proc: Proc<'a>,
    pub derivations: &'a [Derivation<'a>],
}

/// The kind of a temporary.
pub fn kind_of(p: &Proc, temp: u32) -> Kind {
    p.temps.get(temp as usize).copied().unwrap_or(Kind::Number)
}
