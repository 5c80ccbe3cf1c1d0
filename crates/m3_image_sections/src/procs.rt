//! The procedures of an image.
ghost use Rattle.std.specs.Prelude.{◌≡◌, ◌≤◌, ◌*◌, length};

use crate::refusal::ImageRefusal;
use m3_tables::word;

/// A procedure: its first instruction and how many it has, where the words of a callee begin in its frame, and
/// the words of its frame.
#[derive(Clone, Copy, Debug, PartialEq, Eq)]
pub struct ProcPart {
    pub first: u32,
    pub count: u32,
    pub body: u32,
    pub frame: u32,
}

/// Procedures one after the other, in sixteen bytes each.
#[derive(Clone, Copy)]
pub struct Procs<'a> {
    pub count: usize,
    pub bytes: &'a [u8],
    ghost held: { 16 * count ≤ length bytes.now },
}

impl ProcPart {
    ghost use Rattle.std.specs.Prelude.{◌+◌};
    ghost use Rattle.m3_image_sections.specs.Parts.{proc_in};
    ghost use Rattle.m3_image_sections.specs.Forms.{proc_fits};
    ghost use Rattle.m3_image_sections.specs.Ranges.{contains};

    fn of(bytes: &[u8]) -> ProcPart
        requires { 16 ≤ length bytes.now }
        ensures { result ≡ proc_in bytes.now }
    {
        ProcPart {
            first: word(bytes),
            count: word(&bytes[4..]),
            body: word(&bytes[8..]),
            frame: word(&bytes[12..]),
        }
    }

    /// The instruction behind the last.
    pub fn end(&self) -> u64
        ensures { result ≡ self.now.first + self.now.count }
    {
        self.first as u64 + self.count as u64
    }

    /// Whether a number is that of an instruction of the procedure.
    pub fn contains(&self, number: i32) -> bool
        ensures { result ≡ contains self.now number }
    {
        number >= 0 && number as u32 >= self.first && (number as u64) < self.end()
    }

    fn fits(&self) -> bool
        ensures { result ≡ proc_fits self.now }
    {
        self.count > 0 && self.body >= 3 && self.frame >= self.body
    }
}

impl<'a> Iterator for Procs<'a> {
    type Item = ProcPart;

    ghost use Rattle.std.specs.Iterator.{YieldsFirst, item_count};
    ghost use Rattle.m3_image_sections.specs.PartViews.{procs_of};

    ghost next_gives = { YieldsFirst procs_of };

    ghost remaining = { item_count procs_of };

    fn next(&mut self) -> Option<ProcPart> {
        if self.count == 0 {
            return None;
        }
        let first = ProcPart::of(self.bytes);
        *self = Procs {
            count: self.count - 1,
            bytes: &self.bytes[16..],
        };
        Some(first)
    }
}

impl<'a> Procs<'a> {
    ghost use Rattle.std.specs.Prelude.{◌<◌, Some, IfOk, IsTrue};
    ghost use Rattle.std.specs.List.{slice_get};
    ghost use Rattle.m3_image_sections.specs.Parts.{procs_at};
    ghost use Rattle.m3_image_sections.specs.Forms.{follow_from, second_fits, procs_fit};
    ghost use Rattle.m3_image_sections.specs.Reading.{seen, whole};
    ghost use Rattle.m3_image_sections.specs.Ranges.{containing, end_from};
    ghost use Rattle.m3_image_sections.specs.PartViews.{procs_of};

    /// The procedures of a section, and the bytes after them.
    #[tactic(auto, unfolding(crate::specs::Parts::procs_at))]
    pub fn at(section: &'a [u8]) -> (Procs<'a>, &'a [u8])
        ensures { Some (procs_of result.0, result.1.now) ≡ procs_at section.now }
    {
        let count = section.len() / 16;
        let procs = Procs {
            count,
            bytes: section,
        };
        (procs, &section[16 * count..])
    }

    /// How many procedures there are.
    #[tactic(auto, using(crate::proofs::ListLemmas::length_each))]
    pub fn len(&self) -> usize
        ensures { result ≡ length (procs_of self.now) }
    {
        self.count
    }

    fn at_place(&self, number: usize) -> ProcPart
        requires { number < self.now.count }
        ensures { Some result ≡ slice_get (procs_of self.now) number }
    {
        ProcPart::of(&self.bytes[16 * number..])
    }

    /// The procedure of a number, from 0. None exactly past the last.
    pub fn get(&self, number: u32) -> Option<ProcPart>
        ensures { result ≡ slice_get (procs_of self.now) number }
    {
        let number = number as usize;
        if number < self.count {
            Some(self.at_place(number))
        } else {
            None
        }
    }

    /// Whether the ranges follow each other from 0, and each procedure has its form.
    fn follow(&self) -> bool
        ensures { result ≡ follow_from 0 (procs_of self.now) }
    {
        let mut end = 0;
        for proc in *self {
            if proc.first as u64 != end || !proc.fits() {
                return false;
            }
            end = proc.end();
        }
        true
    }

    /// Whether there is a procedure for forked threads.
    fn second_fits(&self) -> bool
        ensures { result ≡ second_fits (procs_of self.now) }
    {
        match self.get(1) {
            Some(second) => second.body == 3 && second.frame >= 7,
            None => false,
        }
    }

    /// Whether the procedures have the form that the section must have.
    pub fn fit(&self) -> bool
        ensures { result ≡ procs_fit (procs_of self.now) }
    {
        self.follow() && self.second_fits()
    }

    /// The procedures of a section that holds nothing else, where they have their form.
    pub fn of(section: &'a [u8]) -> Result<Procs<'a>, ImageRefusal>
        ensures value { seen procs_of result ≡ whole 2 procs_fit (procs_at section.now) }
        ensures fit { IfOk result (λ p. IsTrue (procs_fit (procs_of p))) }
    {
        let (procs, rest) = Procs::at(section);
        if rest.is_empty() && procs.fit() {
            Ok(procs)
        } else {
            Err(ImageRefusal::Section(2))
        }
    }

    /// Where the last procedure ends.
    pub fn end(&self) -> u64
        ensures { result ≡ end_from 0 (procs_of self.now) }
    {
        let mut end = 0;
        for proc in *self {
            end = proc.end();
        }
        end
    }

    /// The procedure that an instruction is in, where the procedures have their form. It is found by halving.
    pub fn containing(&self, instr: u32) -> Option<ProcPart>
        requires { IsTrue (procs_fit (procs_of self.now)) }
        ensures { result ≡ containing (procs_of self.now) instr }
    {
        let mut low = 0;
        let mut high = self.count;
        while low < high {
            let middle = low + (high - low) / 2;
            if self.at_place(middle).end() <= instr as u64 {
                low = middle + 1;
            } else {
                high = middle;
            }
        }
        if low < self.count {
            Some(self.at_place(low))
        } else {
            None
        }
    }
}
