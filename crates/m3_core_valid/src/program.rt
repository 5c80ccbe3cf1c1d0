use crate::expressions::judge_expression;
use crate::judge::Judge;
use crate::statements::judge_statements;
use crate::tables::{Form, Heading, Tables, Variable, variable_of};
use m3_base::NoMemory;
use m3_core::{Core, ExcDef, ProcDef, Text, Value, ValueId, VarDef, length_of};
use std::alloc::Global;

/// Whether a checked tree is well formed: the graph of its types is, each variable, field, method,
/// procedure, exception, text and constant that a node names is there and of the kind that the node
/// is defined for, each type is a type of the program, and each call and constructor has what it
/// needs, each once. That the types of the parts fit each other isn't judged.
pub fn is_well_formed(alloc: Global, core: &Core<'_>) -> Result<bool, NoMemory> {
    let have_form = m3_types_valid::is_well_formed(alloc, &core.types.graph)?;
    let tables = Tables::of(alloc, core)?;
    let mut judge = Judge::new(alloc, &tables, core.exceptions);
    judge.expect(have_form);
    judge_program(&mut judge, &tables, core);
    judge.verdict()
}

fn judge_program(judge: &mut Judge<'_>, tables: &Tables, core: &Core<'_>) {
    judge_globals(judge, core.globals);
    judge_exceptions(judge, core.exceptions);
    judge_texts(judge, core.texts);
    judge_values(judge, core.values);
    judge_order(judge, core.order);
    judge.expect_exception(core.alerted);
    judge_headings(judge, &tables.headings);
    judge_variables(judge, &tables.variables);
    judge_bodies(judge, core.procs);
}

fn judge_globals<'a>(judge: &mut Judge<'_>, globals: &[VarDef<'a>]) {
    for global in globals {
        judge.expect_type(variable_of(global.kind).kind);
        if let Some(value) = global.initial {
            judge_expression(judge, value);
        }
    }
}

fn judge_variables(judge: &mut Judge<'_>, variables: &[Variable]) {
    for variable in variables {
        judge.expect_type(variable.kind);
    }
}

fn judge_exceptions(judge: &mut Judge<'_>, exceptions: &[ExcDef<'_>]) {
    for exception in exceptions {
        judge.expect_optional(exception.argument);
    }
}

/// The texts, each of which is made of those before it that aren't empty, and has their length.
fn judge_texts(judge: &mut Judge<'_>, texts: &[Text<'_>]) {
    for (place, text) in texts.iter().enumerate() {
        if let Text::Joined {
            left,
            right,
            length,
        } = text
        {
            let before = length_of(texts, *left);
            let behind = length_of(texts, *right);
            judge.expect((*left as usize) < place && (*right as usize) < place);
            judge.expect(before > 0 && behind > 0 && *length == before.saturating_add(behind));
        }
    }
}

/// The constants, each of which is made of those before it.
fn judge_values(judge: &mut Judge<'_>, values: &[Value<'_>]) {
    for (place, value) in values.iter().enumerate() {
        match value {
            Value::Number(_) | Value::Nil | Value::Set(_) => {}
            Value::Text(text) => judge.expect_text(*text),
            Value::Procedure(number) => judge.expect(judge.heading(*number).is_some()),
            Value::Record(parts) | Value::Array(parts, _) => judge.expect(are_below(parts, place)),
        }
    }
}

fn are_below(parts: &[ValueId], place: usize) -> bool {
    for part in parts {
        if part.0 as usize >= place {
            return false;
        }
    }
    true
}

/// The order of the module bodies.
fn judge_order(judge: &mut Judge<'_>, order: &[u32]) {
    for number in order {
        let is_module = match judge.heading(*number) {
            Some(heading) => heading.is_module,
            None => false,
        };
        judge.expect(is_module);
    }
}

fn judge_headings(judge: &mut Judge<'_>, headings: &[Heading]) {
    for heading in headings {
        judge_heading(judge, heading);
    }
}

/// The type of a procedure, and the procedure around it.
fn judge_heading(judge: &mut Judge<'_>, heading: &Heading) {
    let is_procedure = match judge.form(heading.kind) {
        Form::Procedure {
            formals,
            has_result,
        } => formals == heading.formals && has_result == heading.result.is_some(),
        _ => false,
    };
    judge.expect(is_procedure);
    judge.expect_optional(heading.result);
    let is_inside = match heading.outer {
        Some(outer) => match judge.heading(outer) {
            Some(outer) => Some(outer.level) == heading.level.checked_sub(1),
            None => false,
        },
        None => heading.level == 0,
    };
    judge.expect(is_inside);
}

/// Judges the body of each procedure, and the exceptions that it may raise.
fn judge_bodies<'a>(judge: &mut Judge<'_>, procs: &[ProcDef<'a>]) {
    for (place, proc) in procs.iter().enumerate() {
        judge.enter(place);
        if let Some(raises) = proc.raises {
            judge.expect_exceptions(raises);
        }
        judge_statements(judge, proc.body);
    }
}
