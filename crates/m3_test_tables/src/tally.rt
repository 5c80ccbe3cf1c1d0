use m3_base::Source;
use std::alloc::{AllocError, Global};
use std::io;

/// What a program of tests tries.
pub trait Trial {
    /// What some sources give, in the words in which a case expects it. What the case expects says
    /// what it asks for.
    fn answer(
        &self,
        alloc: Global,
        sources: &[Source<'_>],
        wanted: &str,
    ) -> Result<String, AllocError>;
}

/// Cases that were tried, and those that came out otherwise.
#[derive(Clone, Copy)]
pub struct Tally {
    pub cases: u64,
    pub differing: u64,
}

impl Tally {
    pub fn new() -> Tally {
        Tally {
            cases: 0,
            differing: 0,
        }
    }

    /// Counts a case, and shows what it gave where that isn't what is wanted.
    pub fn tell(
        &mut self,
        rt: &impl Print,
        title: &str,
        got: &str,
        wanted: &str,
    ) -> io::Result<()> {
        let is_right = got == wanted;
        self.add(is_right);
        if is_right {
            return Ok(());
        }
        println!(rt; "{title}: got {got}, wanted {wanted}")
    }

    /// Counts a case, and shows that it came out otherwise where it did.
    pub fn count(&mut self, rt: &impl Print, title: &str, is_right: bool) -> io::Result<()> {
        self.add(is_right);
        if is_right {
            return Ok(());
        }
        println!(rt; "{title}: otherwise")
    }

    fn add(&mut self, is_right: bool) {
        self.cases = self.cases.saturating_add(1);
        if !is_right {
            self.differing = self.differing.saturating_add(1);
        }
    }

    /// Shows how many cases a table has, and how many of them came out otherwise.
    pub fn sum_up(&self, rt: &impl Print, name: &str) -> io::Result<()> {
        let (cases, differing) = (self.cases, self.differing);
        println!(rt; "{name}: {cases} cases, {differing} come out otherwise")
    }
}
