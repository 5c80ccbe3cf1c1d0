use crate::operands::Text;
use m3_mid::{Actual, Callee, Held, Operand, Raised, Shown};
use std::fmt;

impl fmt::Display for Text<Callee> {
    fn fmt<W: fmt::Write>(&self, f: &mut fmt::Formatter<W>) -> fmt::Result {
        match self.0 {
            Callee::Outermost(procedure) => write!(f, "P{procedure}"),
            Callee::Inner {
                procedure,
                environment,
            } => write!(f, "P{procedure} in t{environment}"),
            Callee::Value { code, environment } => write!(f, "t{code} in t{environment}"),
            Callee::Method(place) => write!(f, "method {place}"),
        }
    }
}

/// A word as its operand, slots in a row as `s3 * 2`, and an address by reference as `@t3 of t4`.
impl fmt::Display for Text<Actual> {
    fn fmt<W: fmt::Write>(&self, f: &mut fmt::Formatter<W>) -> fmt::Result {
        match self.0 {
            Actual::Word(operand) => write!(f, "{}", Text(operand)),
            Actual::Slots { first, count } => write!(f, "s{first} * {count}"),
            Actual::Reference { address, base } => write!(f, "@t{address} of {}", Text(base)),
        }
    }
}

impl fmt::Display for Text<&[Actual]> {
    fn fmt<W: fmt::Write>(&self, f: &mut fmt::Formatter<W>) -> fmt::Result {
        let mut between = "";
        for actual in self.0 {
            write!(f, "{between}{}", Text(*actual))?;
            between = ", ";
        }
        Ok(())
    }
}

impl fmt::Display for Text<&[Operand]> {
    fn fmt<W: fmt::Write>(&self, f: &mut fmt::Formatter<W>) -> fmt::Result {
        let mut between = "";
        for operand in self.0 {
            write!(f, "{between}{}", Text(*operand))?;
            between = ", ";
        }
        Ok(())
    }
}

/// The temporaries that tell how a call was left; nothing where it can't be left by an exception.
impl fmt::Display for Text<Option<Raised>> {
    fn fmt<W: fmt::Write>(&self, f: &mut fmt::Formatter<W>) -> fmt::Result {
        match self.0 {
            Some(
                Raised {
                    exception,
                    number,
                    tidy,
                },
            ) => write!(f, " raised t{exception} t{number} t{tidy}"),
            None => Ok(()),
        }
    }
}

/// Each shown variable with where it is, as `show v0 in t1 v1 in s4`; nothing where none is shown.
impl fmt::Display for Text<&[Shown]> {
    fn fmt<W: fmt::Write>(&self, f: &mut fmt::Formatter<W>) -> fmt::Result {
        if !self.0.is_empty() {
            write!(f, " show")?;
        }
        for shown in self.0 {
            let var = shown.var;
            match shown.at {
                Held::Temp(temp) => write!(f, " v{var} in t{temp}")?,
                Held::Slot(slot) => write!(f, " v{var} in s{slot}")?,
            }
        }
        Ok(())
    }
}
