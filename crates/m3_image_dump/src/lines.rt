//! The lines of procedures, instructions and variables, and the whole text.
ghost use Rattle.std.specs.Prelude.{◌≡◌, ◌++◌, ◌+◌, ◌≤◌, length, IfOk, OnOk};
ghost use Rattle.m3_image_decoded.specs.Ready.{image_of};
ghost use Rattle.m3_image_sections.specs.PartViews.{variable_of, pairs_of, variables_list};
ghost use Rattle.std.specs.List.{flat_map};
ghost use Rattle.m3_image_dump.specs.Texts.{proc_line, instruction_line, owner_word, form_word};
ghost use Rattle.m3_image_dump.specs.Texts.{global_word, span_word, variable_words, variable_line, Adds};
ghost use Rattle.m3_image_dump.specs.Texts.{CodeText, ProcsText, IsDump};

use crate::names::name_of;
use crate::rows::put_row_at;
use crate::words::{put, put_number, put_number_word, put_place, put_signed_word};
use m3_base::NoMemory;
use m3_image::{Pairs, ProcPart, VarView};
use m3_image_decoded::Decoded;
use m3_isa::Instr;
use std::alloc::Global;

/// The text of an image. For each procedure a line with its body and frame; for each of its
/// instructions a line with its number, its name and its fields; behind a point instruction the row
/// of that point: the tidy places, the arguments, the places that the caller describes, and the
/// derived words with the bases of each way. Then a line for each variable.
pub fn dump(alloc: Global, image: &Decoded<'_>) -> Result<Vec<u8>, NoMemory>
    ensures { IfOk result (λ text. IsDump (image_of image.now) text.items) }
{
    let mut text = Vec::new(alloc);
    put_procs(alloc, &mut text, image)?;
    put_variables(&mut text, image)?;
    Ok(text)
}

/// The procedures in their order, each with its instructions.
fn put_procs(alloc: Global, text: &mut Vec<u8>, image: &Decoded<'_>) -> Result<(), NoMemory>
    ensures { OnOk result (Adds (ProcsText (image_of image.now).program
        (image_of image.now).program.procs) text.old.items text.new.items) }
{
    image.image().keeps_its_form();
    let mut number: u64 = 0;
    'procs: for proc in image.image().procs() {
        put_proc(text, number, &proc)?;
        put_code(alloc, text, image, &proc)?;
        number += 1;
    }
    Ok(())
}

fn put_proc(text: &mut Vec<u8>, number: u64, proc: &ProcPart) -> Result<(), NoMemory>
    ensures { OnOk result (text.new.items ≡ text.old.items ++ proc_line number proc.now) }
{
    put(text, b"proc")?;
    put_number_word(text, number)?;
    put(text, b" body")?;
    put_number_word(text, proc.body as u64)?;
    put(text, b" frame")?;
    put_number_word(text, proc.frame as u64)?;
    put(text, b"\n")
}

/// The instructions of a procedure, each with the row of its point.
fn put_code(
    alloc: Global,
    text: &mut Vec<u8>,
    image: &Decoded<'_>,
    proc: &ProcPart,
) -> Result<(), NoMemory>
    requires { proc.now.first + proc.now.count ≤ length (image_of image.now).program.code }
    ensures { OnOk result (Adds (CodeText (image_of image.now).program proc.now.first
        proc.now.count) text.old.items text.new.items) }
{
    let past = proc.end().min(image.image().code_len() as u64) as u32;
    'code: for pc in proc.first..past {
        let Some(i) = image.fetch(pc) else {
            break;
        };
        put_instruction(text, pc, i)?;
        put_row_at(alloc, text, image, pc)?;
    }
    Ok(())
}

fn put_instruction(text: &mut Vec<u8>, pc: u32, i: &Instr) -> Result<(), NoMemory>
    ensures { OnOk result (text.new.items ≡ text.old.items ++ instruction_line pc i.now) }
{
    put_number(text, pc as u64)?;
    put(text, b" ")?;
    put(text, name_of(i.op).as_bytes())?;
    put_number_word(text, i.a as u64)?;
    put_number_word(text, i.b as u64)?;
    put_number_word(text, i.c as u64)?;
    put_signed_word(text, i.imm)?;
    put(text, b"\n")
}

fn put_variables(text: &mut Vec<u8>, image: &Decoded<'_>) -> Result<(), NoMemory>
    ensures { OnOk result (text.new.items ≡ text.old.items ++ flat_map variable_line
        (image_of image.now).variables) }
{
    'variables: for variable in image.image().variables() {
        put_variable(text, &variable)?;
    }
    Ok(())
}

fn put_variable(text: &mut Vec<u8>, variable: &VarView<'_>) -> Result<(), NoMemory>
    ensures { OnOk result (text.new.items ≡ text.old.items ++ variable_line
        (variable_of variable.now)) }
{
    put_variable_words(text, variable)?;
    put_word(text, variable)?;
    put_spans(text, variable.spans())?;
    put(text, b"\n")
}

/// What a variable is: its procedure, its name and its form.
#[tactic(auto, unfolding(crate::specs::Texts::variable_words))]
fn put_variable_words(text: &mut Vec<u8>, variable: &VarView<'_>) -> Result<(), NoMemory>
    ensures { OnOk result (text.new.items ≡ text.old.items ++ variable_words
        (variable_of variable.now)) }
{
    put(text, b"var")?;
    put_owner(text, variable)?;
    put(text, b" ")?;
    put(text, variable.name)?;
    put_form(text, variable)
}

/// The procedure of a variable.
#[tactic(auto, unfolding(crate::specs::Texts::owner_word))]
fn put_owner(text: &mut Vec<u8>, variable: &VarView<'_>) -> Result<(), NoMemory>
    ensures { OnOk result (text.new.items ≡ text.old.items ++ owner_word
        (variable_of variable.now)) }
{
    if variable.proc == u32::MAX {
        put(text, b" global")
    } else {
        put_number_word(text, variable.proc as u64)
    }
}

#[tactic(auto, unfolding(crate::specs::Texts::form_word))]
fn put_form(text: &mut Vec<u8>, variable: &VarView<'_>) -> Result<(), NoMemory>
    ensures { OnOk result (text.new.items ≡ text.old.items ++ form_word
        (variable_of variable.now)) }
{
    put(
        text,
        if variable.form == 0 {
            b" ordinal"
        } else {
            b" reference"
        },
    )
}

/// The word of a global.
#[tactic(auto, unfolding(crate::specs::Texts::global_word))]
fn put_word(text: &mut Vec<u8>, variable: &VarView<'_>) -> Result<(), NoMemory>
    ensures { OnOk result (text.new.items ≡ text.old.items ++ global_word
        (variable_of variable.now)) }
{
    if variable.proc != u32::MAX {
        return Ok(());
    }
    put(text, b" g")?;
    put_number(text, variable.word as u64)
}

/// Where a variable is, point by point.
fn put_spans(text: &mut Vec<u8>, spans: Pairs<'_>) -> Result<(), NoMemory>
    ensures { OnOk result (text.new.items ≡ text.old.items ++ flat_map span_word
        (pairs_of spans.entry)) }
{
    'spans: for (instr, place) in spans {
        put_number_word(text, instr as u64)?;
        put(text, b":")?;
        put_place(text, place)?;
    }
    Ok(())
}
