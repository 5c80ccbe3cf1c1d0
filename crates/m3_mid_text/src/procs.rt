use crate::names::kind_name;
use crate::operands::Text;
use m3_mid::{AccessMark, Block, ForMark, Kind, Proc, Slot};
use std::fmt;

/// A procedure: a line with its start and how many formals it has, one for its temporaries and one
/// for its slots with their kinds, then its blocks, and a line for each FOR that is marked.
impl fmt::Display for Text<&Proc<'_>> {
    fn fmt<W: fmt::Write>(&self, f: &mut fmt::Formatter<W>) -> fmt::Result {
        let Proc { start, formals, .. } = *self.0;
        writeln!(f, "start B{start} formals {formals}")?;
        writeln!(f, "temporaries{}", Text(self.0.temps))?;
        writeln!(f, "slots{}", Text(self.0.slots))?;
        write!(f, "{}{}", Text(self.0.blocks), Text(self.0.loops))
    }
}

impl fmt::Display for Text<&[Kind]> {
    fn fmt<W: fmt::Write>(&self, f: &mut fmt::Formatter<W>) -> fmt::Result {
        for (temp, kind) in self.0.iter().enumerate() {
            write!(f, " t{temp} {}", kind_name(*kind))?;
        }
        Ok(())
    }
}

impl fmt::Display for Text<&[Slot]> {
    fn fmt<W: fmt::Write>(&self, f: &mut fmt::Formatter<W>) -> fmt::Result {
        for (place, slot) in self.0.iter().enumerate() {
            write!(f, " s{place} {}", kind_name(slot.kind))?;
            if slot.is_shared {
                write!(f, " shared")?;
            }
        }
        Ok(())
    }
}

/// A line for each operation and for the end, behind a line with the block's number.
impl fmt::Display for Text<&[Block<'_>]> {
    fn fmt<W: fmt::Write>(&self, f: &mut fmt::Formatter<W>) -> fmt::Result {
        for (place, block) in self.0.iter().enumerate() {
            writeln!(f, "B{place}:")?;
            write!(f, "{}", Text(*block))?;
        }
        Ok(())
    }
}

impl fmt::Display for Text<Block<'_>> {
    fn fmt<W: fmt::Write>(&self, f: &mut fmt::Formatter<W>) -> fmt::Result {
        for op in self.0.ops {
            writeln!(f, "    {}", Text(*op))?;
        }
        writeln!(f, "    {}", Text(self.0.end))
    }
}

impl fmt::Display for Text<&[ForMark<'_>]> {
    fn fmt<W: fmt::Write>(&self, f: &mut fmt::Formatter<W>) -> fmt::Result {
        for mark in self.0 {
            let ForMark {
                before,
                turn,
                index,
                accesses,
            } = *mark;
            write!(f, "loop before B{before} turn B{turn} index t{index}")?;
            writeln!(f, "{}", Text(accesses))?;
        }
        Ok(())
    }
}

/// Each access as its block and the place of its operation there, its array and the words of an
/// element.
impl fmt::Display for Text<&[AccessMark]> {
    fn fmt<W: fmt::Write>(&self, f: &mut fmt::Formatter<W>) -> fmt::Result {
        for access in self.0 {
            let AccessMark {
                block,
                op,
                array,
                words,
            } = *access;
            write!(f, ", access B{block}.{op} to t{array} by {words}")?;
        }
        Ok(())
    }
}
