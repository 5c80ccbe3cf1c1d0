use m3_flow::RowUse;
use m3_gen_bases::Derivation;
use m3_mid::Proc;

/// The row of a point: its operation, and the tidy and the derived temporaries that it names. It
/// names every slot of Kind Tidy, the formals by reference, and what it passes to a callee beside.
#[derive(Clone, Copy)]
pub struct RowPlan<'a> {
    pub block: u32,
    pub op: u32,
    pub tidy: &'a [u32],
    pub derived: &'a [u32],
}

/// A procedure with what the rows of its points say.
#[derive(Clone, Copy)]
pub struct Derived<'a> {
    pub proc: Proc<'a>,
    /// In the order in which the blocks lie.
    pub rows: &'a [RowPlan<'a>],
    /// For each temporary its derivation, with no way where it has none.
    pub derivations: &'a [Derivation<'a>],
    /// The bases and paths that the rows name.
    pub uses: &'a [RowUse],
}
