//! The section of the variables.
ghost use Rattle.std.specs.Prelude.{◌≡◌, ◌<◌, ◌^◌, ◌++◌, length, map, OnOk};
ghost use Rattle.std.specs.List.{flat_map, AllByRecursion};
ghost use Rattle.m3_tables_writer.specs.Plain.{place_number};
ghost use Rattle.m3_image_sections.specs.Parts.{pair_in, variable_at, variables_at};
ghost use Rattle.m3_image_writer.specs.Again.{Reads, ReadsAll, ReadsFixed};
ghost use Rattle.m3_image_writer.specs.Views.{span_of, variable_of};
ghost use Rattle.m3_image_writer.specs.Fields.{text_bytes};
ghost use Rattle.m3_image_writer.specs.Variables.{span_bytes, var_bytes, variables_bytes};

use crate::fields::{put_text, put_word};
use crate::parts::VarPart;
use m3_base::NoMemory;
use m3_tables::Location;
use std::alloc::Global;

/// The number of a place, or 0 where it has none.
fn number(place: Location) -> u32
    ensures { result ≡ place_number place }
{
    place.number().unwrap_or(0)
}

#[tactic(auto, unfolding(crate::specs::Variables::span_bytes))]
fn put_span(out: &mut Vec<u8>, instr: u32, place: Location) -> Result<(), NoMemory>
    ensures again { OnOk result (ReadsFixed 8 pair_in (span_bytes (instr, place))
        (span_of (instr, place))) }
    ensures bytes { OnOk result (out.new.items ≡ out.old.items ++ span_bytes (instr, place)) }
{
    put_word(out, instr)?;
    put_word(out, number(place))
}

fn put_spans(out: &mut Vec<u8>, spans: &[(u32, Location)]) -> Result<(), NoMemory>
    ensures again { OnOk result (AllByRecursion
        (λ span. ReadsFixed 8 pair_in (span_bytes span) (span_of span)) spans.now) }
    ensures bytes { OnOk result (out.new.items ≡ out.old.items ++ flat_map span_bytes spans.now) }
{
    for (instr, place) in spans {
        put_span(out, *instr, *place)?;
    }
    Ok(())
}

#[tactic(auto, unfolding(crate::specs::Variables::var_bytes))]
fn put_variable(out: &mut Vec<u8>, variable: &VarPart) -> Result<(), NoMemory>
    requires { length (var_bytes variable.now) < 2 ^ 32 }
    ensures again { OnOk result (Reads variable_at (var_bytes variable.now)
        (variable_of variable.now)) }
    ensures bytes { OnOk result (out.new.items ≡ out.old.items ++ var_bytes variable.now) }
{
    put_word(out, variable.proc)?;
    put_word(out, variable.word)?;
    put_text(out, variable.name.as_slice())?;
    out.push(variable.form)?;
    put_word(out, variable.spans.len() as u32)?;
    put_spans(out, &variable.spans)?;
    Ok(())
}

fn put_each_variable(out: &mut Vec<u8>, variables: &[VarPart]) -> Result<(), NoMemory>
    requires { AllByRecursion (λ v. length (var_bytes v) < 2 ^ 32) variables.now }
    ensures again { OnOk result (AllByRecursion
        (λ v. Reads variable_at (var_bytes v) (variable_of v)) variables.now) }
    ensures bytes { OnOk result (out.new.items
        ≡ out.old.items ++ flat_map var_bytes variables.now) }
{
    for variable in variables {
        put_variable(out, variable)?;
    }
    Ok(())
}

#[tactic(auto, unfolding(crate::specs::Variables::variables_bytes))]
pub(crate) fn put_variables(
    alloc: Global,
    out: &mut Vec<u8>,
    variables: &[VarPart],
) -> Result<(), NoMemory>
    requires { length (variables_bytes variables.now) < 2 ^ 32 }
    ensures again { OnOk result (ReadsAll variables_at (variables_bytes variables.now)
        (map variable_of variables.now)) }
    ensures bytes { OnOk result (out.new.items
        ≡ out.old.items ++ text_bytes (variables_bytes variables.now)) }
{
    let mut section = Vec::new(alloc);
    put_word(&mut section, variables.len() as u32)?;
    put_each_variable(&mut section, variables)?;
    put_text(out, &section)
}
