//! Instructions that aren't plain, where nothing has to be chosen or done before them. None says
//! that nothing was done.
ghost use Rattle.std.specs.Prelude.{◌≡◌, ◌<◌, ◌≤◌, length, slice_get, Ok, IfSome, IfNone};
ghost use Rattle.m3_isa.specs.Effects.{at_hand};
ghost use Rattle.m3_isa.specs.declared.instructions.Op.TheVariants.{Ret, Meth, Subt, New, Point};
ghost use Rattle.m3_image_decoded.specs.Ready.{image_of};
ghost use Rattle.m3_threads.specs.Spaces.{held};
ghost use Rattle.m3_run_memory.specs.Addresses.{outside_of};
ghost use Rattle.m3_run_meaning.specs.Calls.{callee_of};
ghost use Rattle.m3_run_meaning.specs.Making.{fixed_words};
ghost use Rattle.m3_run_loop.specs.Leading.{program_in, program_of, Goes_by, KeepsWhole};

use crate::turns::Turn;
use m3_base::Outcome;
use m3_heap::Store;
use m3_image_decoded::Decoded;
use m3_isa::Instr;
use m3_run_meaning::near::{Place, enter, give, is_of_type, leave, method_of, register, truth};
use m3_run_memory::Memory;

impl Turn<'_> {
    /// RET, where the caller's frame and its instruction are there.
    #[inline(always)]
    pub(crate) fn return_near<S: Store>(
        self,
        i: Instr,
        r: &[u64; 16],
        at: Place,
        memory: &Memory<S>,
    ) -> Option<Place>
        requires { i.op ≡ Ret }
        ensures { IfSome result (λ to. Goes_by self.entry i r.now at memory.now
            r.now to memory.now) }
    {
        match leave(self.image.code().len(), at, memory) {
            Ok(to) => Some(to),
            Err(_) => None,
        }
    }

    /// METH, where the cell has the method.
    pub(crate) fn tell_near<S: Store>(
        self,
        i: Instr,
        r: &mut [u64; 16],
        at: Place,
        memory: &Memory<S>,
    ) -> Option<Place>
        requires operation { i.op ≡ Meth }
        requires answer { i.a < 16 }
        requires cell { i.b < 16 }
        ensures refused { IfNone result (r.new ≡ r.old) }
        ensures goes { IfSome result (λ to. Goes_by self.entry i r.old
            at memory.now r.new to memory.now) }
    {
        let cell = register(r, i.b);
        match method_of(self.image, cell, i.imm.cast_unsigned(), memory) {
            Ok(method) => Some(give(r, i.a, u64::from(method), at)),
            Err(_) => None,
        }
    }

    /// SUBT, where the cell has a type.
    pub(crate) fn test_near<S: Store>(
        self,
        i: Instr,
        r: &mut [u64; 16],
        at: Place,
        memory: &Memory<S>,
    ) -> Option<Place>
        requires operation { i.op ≡ Subt }
        requires answer { i.a < 16 }
        requires cell { i.b < 16 }
        ensures refused { IfNone result (r.new ≡ r.old) }
        ensures goes { IfSome result (λ to. Goes_by self.entry i r.old
            at memory.now r.new to memory.now) }
    {
        let cell = register(r, i.b);
        match is_of_type(self.image, cell, i.imm.cast_unsigned(), memory) {
            Ok(is_of) => Some(give(r, i.a, truth(is_of), at)),
            Err(_) => None,
        }
    }

    /// POINT.
    #[inline(always)]
    pub(crate) fn point_near<S: Store>(
        self,
        i: Instr,
        r: &[u64; 16],
        at: Place,
        memory: &Memory<S>,
    ) -> Place
        requires { i.op ≡ Point }
        ensures { Goes_by self.entry i r.now at memory.now r.now result
            memory.now }
    {
        at.next()
    }
}

/// The words of a cell of a fixed type.
fn words_of_fixed(image: &Decoded<'_>, kind: u32) -> Option<u64>
    ensures { IfSome result (λ n. (fixed_words (slice_get (image_of image.now).program.types kind)
        ≡ Ok n) × (1 ≤ n)) }
{
    let shape = image.shape(kind)?;
    if shape.kind() != 0 {
        return None;
    }
    Some(u64::from(shape.words()).max(1))
}

impl Turn<'_> {
    /// NEW, where the heap has the words.
    pub(crate) fn make_near<S: Store>(
        self,
        i: Instr,
        r: &mut [u64; 16],
        at: Place,
        memory: &mut Memory<S>,
    ) -> Option<Place>
        requires operation { i.op ≡ New }
        requires answer { i.a < 16 }
        ensures refused { IfNone result ((r.new ≡ r.old) × (memory.new ≡ memory.old)) }
        ensures keeps { KeepsWhole memory.old memory.new }
        ensures goes { IfSome result (λ to. Goes_by self.entry i r.old
            at memory.old r.new to memory.new) }
    {
        let kind = i.imm.cast_unsigned();
        let words = words_of_fixed(self.image, kind)?;
        if memory.outside.heap.free_words() < words {
            return None;
        }
        match memory.outside.allocate(kind, words) {
            Some(cell) => Some(give(r, i.a, cell, at)),
            None => None,
        }
    }

    /// CALL, CALLR and CALLM: a procedure that was found is called, where the stack has room for
    /// its frame.
    #[inline(always)]
    pub(crate) fn call_near<S: Store>(
        self,
        i: Instr,
        callee: Result<u32, Outcome>,
        r: &[u64; 16],
        at: Place,
        memory: &mut Memory<S>,
    ) -> Option<Place>
        requires inside { at.pc < length (program_of self).code }
        requires callee { callee ≡ callee_of (program_in (program_of self) memory.old) i
            (at_hand r.now at.pc at.fp)
            (held memory.old.threads (outside_of memory.old.outside.globals.items
            memory.old.outside.constants.items (S.heap memory.old.outside.heap.store).cells)) }
        ensures refused { IfNone result (memory.new ≡ memory.old) }
        ensures keeps { KeepsWhole memory.old memory.new }
        ensures goes { IfSome result (λ to. Goes_by self.entry i r.now
            at memory.old r.now to memory.new) }
    {
        let number = match callee {
            Ok(number) => number,
            Err(_) => return None,
        };
        match enter(self.image, number, at, memory, self.stack) {
            Ok(to) => Some(to),
            Err(_) => None,
        }
    }
}
