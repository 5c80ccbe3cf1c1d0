//! Values, and the numbers of cells.
ghost use Rattle.std.specs.Prelude.{◌≡◌, ◌∷◌, ◌++◌, [], IfOk, OnOk};
ghost use Rattle.m3_inspect.specs.Standing.{Holding};
ghost use Rattle.m3_inspect.specs.Shown.{with_cell, cell_number, value_of, cells_with, shown_vars};
ghost use Rattle.m3_inspect.specs.Shown.{cells_after};

use crate::values::{Value, VarValue};
use indexmap::IndexSet;
use m3_base::NoMemory;

/// The number of a cell, from 1, among those that are known by their addresses; one that isn't
/// known is added to them.
fn cell_number(cells: &mut IndexSet<u64>, at: u64) -> Result<u64, NoMemory>
    ensures number { IfOk result (λ n. n ≡ cell_number cells.old.keys at) }
    ensures cells { OnOk result (cells.new.keys ≡ with_cell cells.old.keys at) }
{
    let (place, _) = cells.insert_full(at)?;
    // It is among the cells that the set counts, so its number fits.
    let _known = cells.len();
    Ok(place as u64 + 1)
}

/// The value that a word stands for.
fn value_of(cells: &mut IndexSet<u64>, form: u8, word: u64) -> Result<Value, NoMemory>
    ensures value { IfOk result (λ v. v ≡ value_of cells.old.keys form word) }
    ensures cells { OnOk result (cells.new.keys ≡ cells_with cells.old.keys form word) }
{
    if form == 0 {
        return Ok(Value::Number(word.cast_signed()));
    }
    if word == 0 {
        return Ok(Value::Nil);
    }
    let number = cell_number(cells, word)?;
    Ok(Value::Cell(number))
}

/// Adds a variable with the value of its word.
pub(crate) fn put_var(
    vars: &mut Vec<VarValue>,
    cells: &mut IndexSet<u64>,
    var: u32,
    form: u8,
    word: u64,
) -> Result<(), NoMemory>
    ensures vars { OnOk result (vars.new.items ≡ vars.old.items ++ shown_vars cells.old.keys
        ((record { var = var; form = form; word = word }) ∷ [])) }
    ensures cells { OnOk result (cells.new.keys ≡ cells_after cells.old.keys
        ((record { var = var; form = form; word = word }) ∷ [])) }
{
    let value = value_of(cells, form, word)?;
    vars.push(VarValue { var, value })?;
    Ok(())
}
