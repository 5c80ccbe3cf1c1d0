use crate::sheets::Sheet;
use crate::types::show_type;
use m3_base::Pos;
use m3_syntax::{Actual, Element, Expr, Operation, Operator, PrefixSign, Selector};

#[cycle(phrases)]
pub fn show_expr(expr: &Expr, sheet: &mut Sheet) {
    match expr {
        Expr::Name(name) => sheet.name(name),
        Expr::Number { pos, value } => sheet.number(b"", *value, *pos),
        Expr::CharLit { pos, value } => sheet.number(b"#", i64::from(*value), *pos),
        Expr::TextLit { pos, text } => sheet.sign(text, *pos),
        Expr::Missing { pos } => sheet.sign(b"missing", *pos),
        _ => {
            sheet.open(word_of_expr(expr), expr.pos());
            show_parts_of_expr(expr, sheet);
            sheet.close();
        }
    }
}

/// The word that shows what an expression is.
fn word_of_expr(expr: &Expr) -> &'static [u8] {
    match expr {
        Expr::Selected { .. } => b"sel",
        Expr::Parenthesis { .. } => b"paren",
        Expr::Constructor { .. } => b"{}",
        _ => b"",
    }
}

#[cycle(phrases)]
fn show_parts_of_expr(expr: &Expr, sheet: &mut Sheet) {
    match expr {
        Expr::Operations { first, rest, .. } => {
            show_expr(first, sheet);
            show_operations(rest, sheet);
        }
        Expr::Not { words, operand, .. } => {
            show_nots(words, sheet);
            show_expr(operand, sheet);
        }
        Expr::Signed { signs, operand, .. } => {
            show_signs(signs, sheet);
            show_expr(operand, sheet);
        }
        Expr::Selected {
            operand,
            selectors,
            ..
        } => {
            show_expr(operand, sheet);
            show_selectors(selectors, sheet);
        }
        Expr::Parenthesis { inner, .. } => show_expr(inner, sheet),
        Expr::Constructor {
            kind,
            brace,
            elements,
            is_filled,
            ..
        } => {
            show_type(kind, sheet);
            sheet.mark(b"at", *brace);
            show_elements(elements, sheet);
            if *is_filled {
                sheet.word(b"..");
            }
        }
        _ => {}
    }
}

fn show_nots(words: &[Pos], sheet: &mut Sheet) {
    for pos in words {
        sheet.sign(b"NOT", *pos);
    }
}

fn show_signs(signs: &[PrefixSign], sheet: &mut Sheet) {
    for sign in signs {
        if sign.is_minus {
            sheet.sign(b"-", sign.pos);
        } else {
            sheet.sign(b"+", sign.pos);
        }
    }
}

#[cycle(phrases)]
fn show_operations(operations: &[Operation], sheet: &mut Sheet) {
    for operation in operations {
        sheet.sign(text_of_operator(operation.operator), operation.pos);
        show_expr(&operation.right, sheet);
    }
}

fn text_of_operator(operator: Operator) -> &'static [u8] {
    match operator {
        Operator::Or => b"OR",
        Operator::And => b"AND",
        Operator::Equal => b"=",
        Operator::NotEqual => b"#",
        Operator::Less => b"<",
        Operator::LessEqual => b"<=",
        Operator::Greater => b">",
        Operator::GreaterEqual => b">=",
        Operator::In => b"IN",
        Operator::Plus => b"+",
        Operator::Minus => b"-",
        Operator::Concatenate => b"&",
        Operator::Times => b"*",
        Operator::Slash => b"/",
        Operator::Div => b"DIV",
        Operator::Mod => b"MOD",
    }
}

#[cycle(phrases)]
fn show_selectors(selectors: &[Selector], sheet: &mut Sheet) {
    for selector in selectors {
        match selector {
            Selector::Dereference(pos) => sheet.sign(b"^", *pos),
            Selector::Member(name) => sheet.member(name),
            Selector::Index(pos, indexes) => {
                sheet.open(b"[]", *pos);
                for index in *indexes {
                    show_expr(index, sheet);
                }
                sheet.close();
            }
            Selector::Call(pos, actuals) => {
                sheet.open(b"call", *pos);
                show_actuals(actuals, sheet);
                sheet.close();
            }
        }
    }
}

#[cycle(phrases)]
pub fn show_actuals(actuals: &[Actual], sheet: &mut Sheet) {
    for actual in actuals {
        match actual {
            Actual::Value(expr) => show_expr(expr, sheet),
            Actual::Named(name, expr) => {
                sheet.begin(b":=");
                sheet.name(name);
                show_expr(expr, sheet);
                sheet.close();
            }
            Actual::Type(kind) => {
                sheet.begin(b"type");
                show_type(kind, sheet);
                sheet.close();
            }
        }
    }
}

#[cycle(phrases)]
fn show_elements(elements: &[Element], sheet: &mut Sheet) {
    for element in elements {
        match element {
            Element::Value(expr) => show_expr(expr, sheet),
            Element::Range(first, last) => {
                sheet.begin(b"..");
                show_expr(first, sheet);
                show_expr(last, sheet);
                sheet.close();
            }
            Element::Named(name, expr) => {
                sheet.begin(b":=");
                sheet.name(name);
                show_expr(expr, sheet);
                sheet.close();
            }
        }
    }
}
