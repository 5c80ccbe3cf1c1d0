use crate::expressions::show_expr;
use crate::sheets::Sheet;
use crate::statements::show_block;
use crate::types::{show_init, show_signature, show_type};
use m3_base::Pos;
use m3_syntax::{ConstDecl, Decl, ExceptionDecl, Revelation, TypeDecl, TypeExp, VarDecl};

#[cycle(statements)]
pub fn show_declarations(declarations: &[Decl], sheet: &mut Sheet) {
    for declaration in declarations {
        sheet.open(word_of(declaration), place_of(declaration));
        show_declaration(declaration, sheet);
        sheet.close();
    }
}

fn word_of(declaration: &Decl) -> &'static [u8] {
    match declaration {
        Decl::Procedure { .. } => b"PROCEDURE",
        Decl::Const { .. } => b"CONST",
        Decl::Type { .. } => b"TYPE",
        Decl::Exception { .. } => b"EXCEPTION",
        Decl::Var { .. } => b"VAR",
        Decl::Reveal { .. } => b"REVEAL",
    }
}

fn place_of(declaration: &Decl) -> Pos {
    match declaration {
        Decl::Procedure { pos, .. }
        | Decl::Const { pos, .. }
        | Decl::Type { pos, .. }
        | Decl::Exception { pos, .. }
        | Decl::Var { pos, .. }
        | Decl::Reveal { pos, .. } => *pos,
    }
}

#[cycle(statements)]
fn show_declaration(declaration: &Decl, sheet: &mut Sheet) {
    match declaration {
        Decl::Procedure {
            name,
            signature,
            body,
            ..
        } => {
            sheet.name(name);
            show_signature(signature, sheet);
            if let Some(body) = body {
                sheet.word(b"=");
                show_block(&body.block, sheet);
                sheet.name(&body.closing);
            }
        }
        Decl::Const { constants, .. } => show_constants(constants, sheet),
        Decl::Type { types, .. } => show_types(types, sheet),
        Decl::Exception { exceptions, .. } => show_exceptions(exceptions, sheet),
        Decl::Var { variables, .. } => show_variables(variables, sheet),
        Decl::Reveal { reveals, .. } => show_reveals(reveals, sheet),
    }
}

fn show_constants(constants: &[ConstDecl], sheet: &mut Sheet) {
    for constant in constants {
        sheet.begin(b"");
        sheet.name(&constant.name);
        if let Some(kind) = &constant.kind {
            sheet.word(b":");
            show_type(kind, sheet);
        }
        sheet.word(b"=");
        show_expr(&constant.value, sheet);
        sheet.close();
    }
}

fn show_types(types: &[TypeDecl], sheet: &mut Sheet) {
    for one in types {
        sheet.begin(b"");
        sheet.name(&one.name);
        show_definition(one.is_opaque, &one.kind, sheet);
        sheet.close();
    }
}

fn show_reveals(reveals: &[Revelation], sheet: &mut Sheet) {
    for one in reveals {
        sheet.begin(b"");
        sheet.qualid(&one.name);
        show_definition(one.is_partial, &one.kind, sheet);
        sheet.close();
    }
}

/// A type behind `=`, or `<:` where it is a bound.
fn show_definition(is_bound: bool, kind: &TypeExp, sheet: &mut Sheet) {
    if is_bound {
        sheet.word(b"<:");
    } else {
        sheet.word(b"=");
    }
    show_type(kind, sheet);
}

fn show_exceptions(exceptions: &[ExceptionDecl], sheet: &mut Sheet) {
    for exception in exceptions {
        sheet.begin(b"");
        sheet.name(&exception.name);
        if let Some(kind) = &exception.argument {
            sheet.word(b":");
            show_type(kind, sheet);
        }
        sheet.close();
    }
}

fn show_variables(variables: &[VarDecl], sheet: &mut Sheet) {
    for variable in variables {
        sheet.begin(b"");
        sheet.names(variable.names);
        show_init(&variable.init, sheet);
        sheet.close();
    }
}
