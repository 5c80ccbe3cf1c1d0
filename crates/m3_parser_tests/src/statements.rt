use crate::declarations::show_declarations;
use crate::expressions::{show_actuals, show_expr};
use crate::sheets::Sheet;
use crate::types::show_type;
use m3_base::Pos;
use m3_syntax::{Arm, Binding, Block, CaseBranch, Expr, Handler, Label, Stmt, TypeBranch};

#[cycle(statements)]
pub fn show_block(block: &Block, sheet: &mut Sheet) {
    sheet.open(b"block", block.pos);
    show_declarations(block.declarations, sheet);
    sheet.word(b"BEGIN");
    show_statements(block.body, sheet);
    sheet.mark(b"END", block.end);
    sheet.close();
}

#[cycle(statements)]
fn show_statements(statements: &[Stmt], sheet: &mut Sheet) {
    for statement in statements {
        if let Stmt::Block(block) = statement {
            show_block(block, sheet);
        } else {
            sheet.open(word_of(statement), place_of(statement));
            show_head(statement, sheet);
            show_inside(statement, sheet);
            show_otherwise(statement, sheet);
            sheet.close();
        }
    }
}

/// The word that shows what a statement is.
fn word_of(statement: &Stmt) -> &'static [u8] {
    match statement {
        Stmt::Assign { .. } => b":=",
        Stmt::Call { .. } => b"call",
        Stmt::Block(_) => b"block",
        Stmt::Case { .. } => b"CASE",
        Stmt::Exit { .. } => b"EXIT",
        Stmt::Eval { .. } => b"EVAL",
        Stmt::For { .. } => b"FOR",
        Stmt::If { .. } => b"IF",
        Stmt::Lock { .. } => b"LOCK",
        Stmt::Loop { .. } => b"LOOP",
        Stmt::Raise { .. } => b"RAISE",
        Stmt::Repeat { .. } => b"REPEAT",
        Stmt::Return { .. } => b"RETURN",
        Stmt::TryExcept { .. } | Stmt::TryFinally { .. } => b"TRY",
        Stmt::TypeCase { .. } => b"TYPECASE",
        Stmt::While { .. } => b"WHILE",
        Stmt::With { .. } => b"WITH",
    }
}

fn place_of(statement: &Stmt) -> Pos {
    match statement {
        Stmt::Block(block) => block.pos,
        Stmt::Assign { pos, .. }
        | Stmt::Call { pos, .. }
        | Stmt::Case { pos, .. }
        | Stmt::Exit { pos }
        | Stmt::Eval { pos, .. }
        | Stmt::For { pos, .. }
        | Stmt::If { pos, .. }
        | Stmt::Lock { pos, .. }
        | Stmt::Loop { pos, .. }
        | Stmt::Raise { pos, .. }
        | Stmt::Repeat { pos, .. }
        | Stmt::Return { pos, .. }
        | Stmt::TryExcept { pos, .. }
        | Stmt::TryFinally { pos, .. }
        | Stmt::TypeCase { pos, .. }
        | Stmt::While { pos, .. }
        | Stmt::With { pos, .. } => *pos,
    }
}

/// The lists of statements in a statement, but for that behind ELSE.
#[cycle(statements)]
fn show_inside(statement: &Stmt, sheet: &mut Sheet) {
    match statement {
        Stmt::Case { branches, .. } => show_branches(branches, sheet),
        Stmt::If { arms, .. } => show_arms(arms, sheet),
        Stmt::TypeCase { branches, .. } => show_type_branches(branches, sheet),
        Stmt::TryExcept { body, handlers, .. } => {
            show_statements(body, sheet);
            sheet.word(b"EXCEPT");
            show_handlers(handlers, sheet);
        }
        Stmt::TryFinally { body, last, .. } => {
            show_statements(body, sheet);
            sheet.word(b"FINALLY");
            show_statements(last, sheet);
        }
        Stmt::Repeat {
            body,
            condition,
            ..
        } => {
            show_statements(body, sheet);
            sheet.word(b"UNTIL");
            show_expr(condition, sheet);
        }
        Stmt::For { body, .. }
        | Stmt::Lock { body, .. }
        | Stmt::While { body, .. }
        | Stmt::With { body, .. } => {
            sheet.word(b"DO");
            show_statements(body, sheet);
        }
        Stmt::Loop { body, .. } => show_statements(body, sheet),
        _ => {}
    }
}

/// The statements behind ELSE, where a statement has one.
#[cycle(statements)]
fn show_otherwise(statement: &Stmt, sheet: &mut Sheet) {
    let (Stmt::Case { otherwise, .. }
    | Stmt::If { otherwise, .. }
    | Stmt::TypeCase { otherwise, .. }
    | Stmt::TryExcept { otherwise, .. }) = statement
    else {
        return;
    };
    if otherwise.is_written {
        sheet.word(b"ELSE");
        show_statements(otherwise.body, sheet);
    }
}

/// What stands in a statement before its statements.
fn show_head(statement: &Stmt, sheet: &mut Sheet) {
    match statement {
        Stmt::Assign { target, value, .. } => {
            show_expr(target, sheet);
            show_expr(value, sheet);
        }
        Stmt::Call {
            callee,
            parenthesis,
            actuals,
            ..
        } => {
            show_expr(callee, sheet);
            sheet.mark(b"at", *parenthesis);
            show_actuals(actuals, sheet);
        }
        Stmt::Eval { value, .. }
        | Stmt::Case { value, .. }
        | Stmt::TypeCase { value, .. }
        | Stmt::Lock { mutex: value, .. }
        | Stmt::While {
            condition: value,
            ..
        } => show_expr(value, sheet),
        Stmt::Return { value, .. } => show_value_behind(b"", value, sheet),
        Stmt::Raise {
            exception,
            argument,
            ..
        } => {
            sheet.qualid(exception);
            show_value_behind(b"WITH", argument, sheet);
        }
        Stmt::With { bindings, .. } => show_bindings(bindings, sheet),
        Stmt::For { .. } => show_range(statement, sheet),
        _ => {}
    }
}

/// The range of a FOR.
fn show_range(statement: &Stmt, sheet: &mut Sheet) {
    if let Stmt::For {
        name,
        first,
        last,
        step,
        ..
    } = statement
    {
        sheet.name(name);
        show_expr(first, sheet);
        show_expr(last, sheet);
        show_value_behind(b"BY", step, sheet);
    }
}

/// A value, behind a word unless that is empty, where there is a value.
fn show_value_behind(word: &[u8], value: &Option<&Expr>, sheet: &mut Sheet) {
    if let Some(value) = value {
        if !word.is_empty() {
            sheet.word(word);
        }
        show_expr(value, sheet);
    }
}

fn show_bindings(bindings: &[Binding], sheet: &mut Sheet) {
    for binding in bindings {
        sheet.begin(b"=");
        sheet.name(&binding.name);
        show_expr(&binding.value, sheet);
        sheet.close();
    }
}

#[cycle(statements)]
fn show_arms(arms: &[Arm], sheet: &mut Sheet) {
    for arm in arms {
        sheet.open(b"", arm.pos);
        show_expr(&arm.condition, sheet);
        sheet.word(b"THEN");
        show_statements(arm.body, sheet);
        sheet.close();
    }
}

#[cycle(statements)]
fn show_branches(branches: &[CaseBranch], sheet: &mut Sheet) {
    for branch in branches {
        sheet.begin(b"|");
        show_labels(branch.labels, sheet);
        sheet.word(b"=>");
        show_statements(branch.body, sheet);
        sheet.close();
    }
}

fn show_labels(labels: &[Label], sheet: &mut Sheet) {
    for label in labels {
        match &label.last {
            None => show_expr(&label.first, sheet),
            Some(last) => {
                sheet.begin(b"..");
                show_expr(&label.first, sheet);
                show_expr(last, sheet);
                sheet.close();
            }
        }
    }
}

#[cycle(statements)]
fn show_handlers(handlers: &[Handler], sheet: &mut Sheet) {
    for handler in handlers {
        sheet.begin(b"|");
        sheet.qualids(handler.exceptions);
        sheet.argument(&handler.argument);
        sheet.word(b"=>");
        show_statements(handler.body, sheet);
        sheet.close();
    }
}

#[cycle(statements)]
fn show_type_branches(branches: &[TypeBranch], sheet: &mut Sheet) {
    for branch in branches {
        sheet.begin(b"|");
        for kind in branch.kinds {
            show_type(kind, sheet);
        }
        sheet.argument(&branch.name);
        sheet.word(b"=>");
        show_statements(branch.body, sheet);
        sheet.close();
    }
}
