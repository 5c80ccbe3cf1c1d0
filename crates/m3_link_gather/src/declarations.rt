use crate::expressions::gather_expression;
use crate::gathered::Gatherer;
use crate::types::{gather_init, gather_type};
use m3_syntax::{ConstDecl, ExceptionDecl, Revelation, TypeDecl, VarDecl};

/// Lists what declarations of constants have.
pub fn gather_constants<'a>(gatherer: &mut Gatherer<'_, 'a>, constants: &'a [ConstDecl<'a>]) {
    for constant in constants {
        if let Some(kind) = constant.kind {
            gather_type(gatherer, kind);
        }
        gather_expression(gatherer, constant.value);
    }
}

/// Lists what declarations of types have.
pub fn gather_types<'a>(gatherer: &mut Gatherer<'_, 'a>, types: &'a [TypeDecl<'a>]) {
    for declared in types {
        gather_type(gatherer, declared.kind);
    }
}

/// Lists what declarations of exceptions have.
pub fn gather_exceptions<'a>(gatherer: &mut Gatherer<'_, 'a>, exceptions: &'a [ExceptionDecl<'a>]) {
    for exception in exceptions {
        if let Some(argument) = exception.argument {
            gather_type(gatherer, argument);
        }
    }
}

/// Lists what declarations of variables have.
pub fn gather_variables<'a>(gatherer: &mut Gatherer<'_, 'a>, variables: &'a [VarDecl<'a>]) {
    for variable in variables {
        gather_init(gatherer, &variable.init);
    }
}

/// Lists what reveals have.
pub fn gather_reveals<'a>(gatherer: &mut Gatherer<'_, 'a>, reveals: &'a [Revelation<'a>]) {
    for reveal in reveals {
        gather_type(gatherer, reveal.kind);
    }
}
