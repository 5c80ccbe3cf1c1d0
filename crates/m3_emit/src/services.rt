use crate::calls::Passed;
use crate::writer::Writer;
use m3_base::{FaultKind, NoMemory, Pos};
use m3_gen_instructions::{Content, FIRST, Goal, Places};
use m3_isa::{Instr, Op};
use m3_mid::{Kind, MidOp, Operand, Service};

/// Which fields of its instruction name the operands and results of a service.
#[derive(Clone, Copy, PartialEq, Eq)]
enum Form {
    /// Operands in a, b.
    Operands,
    /// A result in a, operands in b, c, and the third in the number.
    Result,
    /// Operands in a, b, and whether Alerted was raised in c.
    Alert,
    /// A result in a, an operand in b, and whether Alerted was raised in c.
    AlertResult,
}

/// The instruction of a service, its form, and the fault with which it jumps.
fn form_of(service: Service) -> (Op, Form, Option<FaultKind>) {
    match service {
        Service::Put => (Op::Put, Form::Operands, None),
        Service::PutNumber => (Op::Putn, Form::Operands, None),
        Service::PutByte => (Op::Putc, Form::Operands, None),
        Service::GetByte => (Op::Getc, Form::Result, Some(FaultKind::Index)),
        Service::EndOfInput => (Op::Eof, Form::Result, None),
        Service::Concatenate => (Op::Cat, Form::Result, None),
        Service::ByteText => (Op::Tchr, Form::Result, None),
        Service::Subtext => (Op::Tsub, Form::Result, None),
        Service::Fork => (Op::Fork, Form::Result, None),
        Service::Join => (Op::Join, Form::Result, Some(FaultKind::JoinTwice)),
        Service::Acquire => (Op::Acq, Form::Operands, None),
        Service::Release => (Op::Rel, Form::Operands, Some(FaultKind::NotHeld)),
        Service::Wait => (Op::Wait, Form::Operands, Some(FaultKind::NotHeld)),
        Service::Signal => (Op::Sig, Form::Operands, None),
        Service::Broadcast => (Op::Bca, Form::Operands, None),
        Service::MySelf => (Op::Self_, Form::Result, None),
        Service::Alert => (Op::Alert, Form::Operands, None),
        Service::TestAlert => (Op::Talert, Form::Result, None),
        Service::AlertWait => (Op::Await, Form::Alert, Some(FaultKind::NotHeld)),
        Service::AlertJoin => (Op::Ajoin, Form::AlertResult, Some(FaultKind::JoinTwice)),
    }
}

/// The registers of a service.
#[derive(Clone, Copy)]
struct Registers {
    operands: [u8; 3],
    result: Option<Goal>,
    raised: Option<Goal>,
}

/// The instruction that has its registers where the form says.
fn instr_of(op: Op, form: Form, registers: Registers) -> Instr {
    let [first, second, third] = registers.operands;
    let result = match registers.result {
        Some(goal) => goal.register,
        None => 0,
    };
    let raised = match registers.raised {
        Some(goal) => goal.register,
        None => 0,
    };
    let (a, b, c) = match form {
        Form::Operands => (first, second, 0),
        Form::Result => (result, first, second),
        Form::Alert => (first, second, raised),
        Form::AlertResult => (result, first, raised),
    };
    let imm = if op == Op::Tsub { i32::from(third) } else { 0 };
    Instr { op, a, b, c, imm }
}

impl<'a> Writer<'a> {
    /// The register of an operand of a service; where a tidy one isn't in the register of its
    /// temporary, the row of the point names it.
    fn service_operand(&mut self, operand: Operand, listed: &mut Vec<u8>) -> Result<u8, NoMemory> {
        match operand {
            Operand::Temp(temp) if self.emitter.kind_of(temp) == Kind::Tidy => {
                let register = self.emitter.high_temp(temp)?;
                if FIRST <= register && !listed.contains(&register) {
                    listed.push(register)?;
                }
                Ok(register)
            }
            _ => self.emitter.operand(operand),
        }
    }

    fn service_operands(
        &mut self,
        operands: &[Operand],
        listed: &mut Vec<u8>,
    ) -> Result<[u8; 3], NoMemory> {
        let mut registers = [0u8; 3];
        for (at, operand) in operands.iter().enumerate() {
            let register = self.service_operand(*operand, listed)?;
            if let Some(item) = registers.get_mut(at) {
                *item = register;
            }
        }
        Ok(registers)
    }

    /// Where a result goes that nobody wants too.
    fn service_goal(&mut self, to: Option<u32>) -> Result<Goal, NoMemory> {
        match to {
            Some(to) => self.emitter.goal(to),
            None => Ok(Goal {
                register: self.emitter.scratch()?,
                word: None,
                content: Content::Nothing,
            }),
        }
    }

    /// The goals of a service. Whether Alerted was raised comes into a register of its own, since
    /// AJOIN writes it before it reads its operand.
    fn service_goals(
        &mut self,
        form: Form,
        to: Option<u32>,
    ) -> Result<(Option<Goal>, Option<Goal>), NoMemory> {
        let result = match form {
            Form::Result | Form::AlertResult => Some(self.service_goal(to)?),
            _ => None,
        };
        let raised = match form {
            Form::Alert | Form::AlertResult => Some(self.service_goal(None)?),
            _ => None,
        };
        Ok((result, raised))
    }

    fn put_service_instr(
        &mut self,
        instr: Instr,
        fault: Option<FaultKind>,
        pos: Pos,
        places: &mut Places,
    ) -> Result<(), NoMemory> {
        match fault {
            None => self.emitter.put(instr),
            Some(kind) => {
                let target = self.emitter.fault(kind, pos, places)?;
                self.emitter.put_jump(instr, target)
            }
        }
    }

    /// A service with its row.
    pub(crate) fn put_service(
        &mut self,
        op: MidOp<'a>,
        service: Service,
        operands: &[Operand],
        goals: (Option<u32>, Option<u32>),
        pos: Pos,
        places: &mut Places,
    ) -> Result<(), NoMemory> {
        let (to, raised_to) = goals;
        let (instr, form, kind) = form_of(service);
        let mut listed = Vec::new(self.emitter.alloc);
        let registers = self.service_operands(operands, &mut listed)?;
        let (result, raised) = self.service_goals(form, to)?;
        let passed = Passed {
            tidy: Vec::new(self.emitter.alloc),
            derived: Vec::new(self.emitter.alloc),
        };
        self.add_row(op, &listed, &passed)?;
        let instr = instr_of(
            instr,
            form,
            Registers {
                operands: registers,
                result,
                raised,
            },
        );
        self.put_service_instr(instr, kind, pos, places)?;
        self.emitter.forget_pointers();
        if let Some(goal) = result {
            self.emitter.settle(goal)?;
        }
        match (raised, raised_to) {
            (Some(goal), Some(to)) => self.emitter.give(to, goal.register),
            _ => Ok(()),
        }
    }

    /// A new cell with its row.
    pub(crate) fn put_make(
        &mut self,
        op: MidOp<'a>,
        to: u32,
        cell: u32,
        sizes: Option<u32>,
    ) -> Result<(), NoMemory> {
        let passed = Passed {
            tidy: Vec::new(self.emitter.alloc),
            derived: Vec::new(self.emitter.alloc),
        };
        let imm = i32::try_from(cell).unwrap_or(i32::MAX);
        match sizes {
            None => {
                let goal = self.emitter.goal(to)?;
                self.add_row(op, &[], &passed)?;
                self.emitter.put_imm(Op::New, goal.register, 0, imm)?;
                self.emitter.forget_pointers();
                self.emitter.settle(goal)
            }
            Some(slot) => {
                let at = self.emitter.scratch()?;
                self.emitter
                    .put_word(Op::Slot, at, m3_gen_instructions::word_of(slot))?;
                let goal = self.emitter.goal(to)?;
                self.add_row(op, &[], &passed)?;
                self.emitter.put_imm(Op::Newo, goal.register, at, imm)?;
                self.emitter.forget_pointers();
                self.emitter.settle(goal)
            }
        }
    }

    /// A point without an action, with its row.
    pub(crate) fn put_point(&mut self, op: MidOp<'a>) -> Result<(), NoMemory> {
        let passed = Passed {
            tidy: Vec::new(self.emitter.alloc),
            derived: Vec::new(self.emitter.alloc),
        };
        self.add_row(op, &[], &passed)?;
        self.emitter.put_abc(Op::Point, 0, 0, 0)?;
        self.emitter.forget_pointers();
        Ok(())
    }
}
