//! The variables that are in scope where a frame stands, and the globals.
ghost use Rattle.std.specs.Prelude.{◌≡◌, ◌++◌, [], nat_lt, if◌then◌else◌, Some, None, IfOk, OnOk};
ghost use Rattle.m3_image_sections.specs.PartViews.{variable_of, pairs_of, variables_list};
ghost use Rattle.m3_image.specs.Views.{image_view};
ghost use Rattle.m3_roots.specs.ThreadWords.{word_at_place, place_from};
ghost use Rattle.m3_inspect.specs.Standing.{place_at, held_at, locals_from, global_at, globals_from};
ghost use Rattle.m3_inspect.specs.Shown.{shown_vars, cells_after};

use crate::cells::put_var;
use crate::values::VarValue;
use indexmap::IndexSet;
use m3_base::NoMemory;
use m3_image::{ImageView, Pairs, VarView};
use std::alloc::Global;

/// Where a frame is: the registers and the stack of its thread, its first word there, from 0, and
/// the instruction where it stands.
#[derive(Clone, Copy)]
pub(crate) struct Site<'a> {
    pub(crate) regs: &'a [u64; 16],
    pub(crate) stack: &'a [u64],
    pub(crate) first: usize,
    pub(crate) instr: u32,
}

/// The place that a span's number stands for in a frame. None exactly where it isn't before an end.
fn place_before(end: usize, first: usize, number: u32) -> Option<usize>
    ensures { result ≡ (if nat_lt (place_from first number) end then Some (place_from first number)
        else None) }
{
    let number = number as usize;
    if number < 16 {
        return if number < end { Some(number) } else { None };
    }
    if first < end && number < end - first {
        Some(first + number)
    } else {
        None
    }
}

/// The word at a place of a frame.
fn word_at(r: &[u64; 16], stack: &[u64], first: usize, number: u32) -> u64
    ensures { result ≡ word_at_place (r.now ++ stack.now) (place_from first number) }
{
    match place_before(stack.len() + 16, first, number) {
        Some(place) if place < 16 => r[place],
        Some(place) => stack[place - 16],
        None => 0,
    }
}

/// The place where a variable is while a thread stands at an instruction. None exactly where it
/// isn't in scope there.
fn place_at(spans: Pairs<'_>, instr: u32) -> Option<u32>
    ensures { result ≡ place_at instr (pairs_of spans.entry) }
{
    'spans: for (at, place) in spans {
        if at == instr {
            return Some(place);
        }
    }
    None
}

/// Adds a variable if it is in scope where a frame stands.
fn put_local(
    vars: &mut Vec<VarValue>,
    cells: &mut IndexSet<u64>,
    number: u32,
    variable: &VarView<'_>,
    site: &Site<'_>,
) -> Result<(), NoMemory>
    ensures vars { OnOk result (vars.new.items ≡ vars.old.items ++ shown_vars cells.old.keys
        (held_at (site.now.regs.now ++ site.now.stack.now) site.now.first number
        (variable_of variable.now)
        (place_at site.now.instr (variable_of variable.now).spans))) }
    ensures cells { OnOk result (cells.new.keys ≡ cells_after cells.old.keys
        (held_at (site.now.regs.now ++ site.now.stack.now) site.now.first number
        (variable_of variable.now)
        (place_at site.now.instr (variable_of variable.now).spans))) }
{
    match place_at(variable.spans(), site.instr) {
        Some(place) => {
            let word = word_at(site.regs, site.stack, site.first, place);
            put_var(vars, cells, number, variable.form, word)
        }
        None => Ok(()),
    }
}

/// The variables in scope where a frame stands.
pub(crate) fn locals(
    alloc: Global,
    image: &ImageView<'_>,
    site: &Site<'_>,
    cells: &mut IndexSet<u64>,
) -> Result<Vec<VarValue>, NoMemory>
    ensures vars { IfOk result (λ vars. vars.items ≡ shown_vars cells.old.keys
        (locals_from (site.now.regs.now ++ site.now.stack.now) site.now.first site.now.instr 0
        (image_view image.now).variables)) }
    ensures cells { OnOk result (cells.new.keys ≡ cells_after cells.old.keys
        (locals_from (site.now.regs.now ++ site.now.stack.now) site.now.first site.now.instr 0
        (image_view image.now).variables)) }
{
    let mut vars = Vec::new(alloc);
    let mut number = 0;
    'variables: for variable in image.variables() {
        put_local(&mut vars, cells, number, &variable, site)?;
        number += 1;
    }
    Ok(vars)
}

/// The global word of a number, and 0 past the last.
fn global_word(globals: &[u64], number: u32) -> u64
    ensures { result ≡ word_at_place globals.now number }
{
    if (number as usize) < globals.len() {
        globals[number as usize]
    } else {
        0
    }
}

/// Adds a variable if it is a global.
fn put_global(
    vars: &mut Vec<VarValue>,
    cells: &mut IndexSet<u64>,
    number: u32,
    variable: &VarView<'_>,
    words: &[u64],
) -> Result<(), NoMemory>
    ensures vars { OnOk result (vars.new.items ≡ vars.old.items ++ shown_vars cells.old.keys
        (global_at words.now number (variable_of variable.now))) }
    ensures cells { OnOk result (cells.new.keys ≡ cells_after cells.old.keys
        (global_at words.now number (variable_of variable.now))) }
{
    if variable.proc == u32::MAX {
        let word = global_word(words, variable.word);
        put_var(vars, cells, number, variable.form, word)
    } else {
        Ok(())
    }
}

/// The globals.
pub(crate) fn globals(
    alloc: Global,
    image: &ImageView<'_>,
    words: &[u64],
    cells: &mut IndexSet<u64>,
) -> Result<Vec<VarValue>, NoMemory>
    ensures vars { IfOk result (λ vars. vars.items ≡ shown_vars cells.old.keys
        (globals_from words.now 0 (image_view image.now).variables)) }
    ensures cells { OnOk result (cells.new.keys ≡ cells_after cells.old.keys
        (globals_from words.now 0 (image_view image.now).variables)) }
{
    let mut vars = Vec::new(alloc);
    let mut number = 0;
    'variables: for variable in image.variables() {
        put_global(&mut vars, cells, number, &variable, words)?;
        number += 1;
    }
    Ok(vars)
}
