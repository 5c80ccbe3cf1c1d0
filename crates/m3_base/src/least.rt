use crate::refusals::{Refusal, Refused};

/// The least of the refusals that were noted so far.
#[derive(Clone, Copy)]
pub struct Least {
    noted: Option<Refusal>,
}

impl Least {
    pub fn new() -> Least {
        Least { noted: None }
    }

    /// Notes a broken rule.
    pub fn note(&mut self, refusal: Refusal) {
        let is_least = match self.noted {
            None => true,
            Some(other) => refusal < other,
        };
        if is_least {
            self.noted = Some(refusal);
        }
    }

    /// Ok where nothing was noted, else the least refusal.
    pub fn check(&self) -> Result<(), Refused> {
        match self.noted {
            None => Ok(()),
            Some(refusal) => Err(Refused::Rule(refusal)),
        }
    }
}
