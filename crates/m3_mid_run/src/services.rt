use crate::machine::{Machine, Stop};
use m3_base::{FaultKind, Pos};
use m3_mid::{Operand, Service};
use m3_mid_memory::{GLOBALS, Word};

const NOTHING: Word = Word {
    part: 0,
    less: 0,
    distance: 0,
};

impl<'a> Machine<'a> {
    /// Whether the thread may go. Where not, it waits for itself, and no point is passed. One that
    /// can be ended by an alert lets a lone thread go on only so.
    pub(crate) fn may_go(&mut self, service: Service, operands: &[Operand]) {
        let waits = match service {
            Service::Acquire => self.is_held(operands),
            Service::Join => true,
            Service::AlertJoin => !self.is_alerted,
            _ => false,
        };
        if waits {
            self.fail(Stop::Deadlock);
        }
    }

    /// Carries out a service whose point was passed.
    pub(crate) fn carry_out_service(
        &mut self,
        service: Service,
        operands: &[Operand],
        to: Option<u32>,
        raised: Option<u32>,
        pos: Pos,
    ) {
        if self.is_over() {
            return;
        }
        if let Some(raised) = raised {
            self.be_alerted(service, operands, pos);
            return self.set_number(raised, 1);
        }
        let result = self.serve(service, operands, pos);
        if let Some(to) = to {
            self.set(to, result);
        }
    }

    /// Carries out a service, and gives its result, or 0.
    fn serve(&mut self, service: Service, operands: &[Operand], pos: Pos) -> Word {
        match service {
            Service::Put | Service::PutNumber | Service::PutByte => self.put(service, operands),
            Service::GetByte => return self.get_byte(pos),
            Service::EndOfInput => return Word::number(u64::from(self.input.is_empty())),
            Service::Concatenate | Service::ByteText | Service::Subtext => {
                return self.new_text(service, operands);
            }
            Service::Acquire => self.hold(operands, true, pos),
            Service::Release => self.hold(operands, false, pos),
            Service::Signal | Service::Broadcast => {}
            Service::MySelf => return Word::start(GLOBALS),
            Service::Alert => self.is_alerted = true,
            Service::TestAlert => {
                let was = self.is_alerted;
                self.is_alerted = false;
                return Word::number(u64::from(was));
            }
            Service::Wait => {
                self.hold(operands, false, pos);
                self.fail(Stop::Deadlock);
            }
            Service::Fork => self.fail(Stop::Threads),
            Service::Join | Service::AlertWait | Service::AlertJoin => self.fail(Stop::Deadlock),
        }
        NOTHING
    }

    fn operand_at(&mut self, operands: &[Operand], place: usize) -> Word {
        match operands.get(place) {
            Some(operand) => self.operand(*operand),
            None => {
                self.stick("an operand is missing");
                NOTHING
            }
        }
    }

    fn number_at(&mut self, operands: &[Operand], place: usize) -> u64 {
        let word = self.operand_at(operands, place);
        self.number_of(word)
    }

    /// The bytes of a text.
    pub(crate) fn text(&mut self, text: Word) -> Vec<u8> {
        let Some(length) = self.memory.text_length(text) else {
            self.stick("no text");
            return Vec::new(self.alloc);
        };
        match self.memory.bytes(text, length) {
            Ok(bytes) => bytes,
            Err(_) => {
                self.fail(Stop::NoMemory);
                Vec::new(self.alloc)
            }
        }
    }

    fn text_at(&mut self, operands: &[Operand], place: usize) -> Vec<u8> {
        let text = self.operand_at(operands, place);
        self.text(text)
    }

    fn put(&mut self, service: Service, operands: &[Operand]) {
        match service {
            Service::Put => {
                let bytes = self.text_at(operands, 0);
                self.put_bytes(bytes.as_slice());
            }
            Service::PutNumber => {
                let number = self.number_at(operands, 0).cast_signed();
                self.put_number(number);
            }
            _ => {
                let byte = (self.number_at(operands, 0) & 0xff) as u8;
                self.put_bytes(&[byte]);
            }
        }
    }

    fn put_number(&mut self, number: i64) {
        match format!(in self.alloc; "{number}") {
            Ok(digits) => self.put_bytes(digits.as_bytes()),
            Err(_) => self.fail(Stop::NoMemory),
        }
    }

    fn put_bytes(&mut self, bytes: &[u8]) {
        if !self.is_over() && self.output.extend_from_slice(bytes).is_err() {
            self.fail(Stop::NoMemory);
        }
    }

    fn get_byte(&mut self, pos: Pos) -> Word {
        match self.input.split_first() {
            Some((first, rest)) => {
                self.input = rest;
                Word::number(u64::from(*first))
            }
            None => {
                self.fail(Stop::Fault(FaultKind::Index, pos));
                NOTHING
            }
        }
    }

    fn new_text(&mut self, service: Service, operands: &[Operand]) -> Word {
        let bytes = match service {
            Service::Concatenate => self.joined(operands),
            Service::ByteText => {
                let byte = (self.number_at(operands, 0) & 0xff) as u8;
                return self.keep_text(&[byte]);
            }
            _ => {
                let start = self.number_at(operands, 1);
                let count = self.number_at(operands, 2);
                self.part_of(operands, start, count)
            }
        };
        self.keep_text(bytes.as_slice())
    }

    fn keep_text(&mut self, bytes: &[u8]) -> Word {
        let part = self.memory.make_text(bytes);
        self.made(part)
    }

    /// The bytes of the first operand with those of the second behind them.
    fn joined(&mut self, operands: &[Operand]) -> Vec<u8> {
        let mut bytes = self.text_at(operands, 0);
        let behind = self.text_at(operands, 1);
        if bytes.extend_from_slice(behind.as_slice()).is_err() {
            self.fail(Stop::NoMemory);
        }
        bytes
    }

    /// At most so many bytes of the first operand, from one on.
    fn part_of(&mut self, operands: &[Operand], start: u64, count: u64) -> Vec<u8> {
        let mut part = Vec::new(self.alloc);
        let bytes = self.text_at(operands, 0);
        for (place, byte) in bytes.iter().enumerate() {
            let place = place as u64;
            if start <= place && place - start < count && part.push(*byte).is_err() {
                self.fail(Stop::NoMemory);
                break;
            }
        }
        part
    }

    /// Whether the mutex that is the first operand is held.
    fn is_held(&mut self, operands: &[Operand]) -> bool {
        let cell = self.operand_at(operands, 0);
        match self.memory.is_held(cell) {
            Some(is_held) => is_held,
            None => {
                self.stick("no mutex");
                false
            }
        }
    }

    /// Ends AlertWait or AlertJoin by the alert of the thread itself. The mutex stays held.
    fn be_alerted(&mut self, service: Service, operands: &[Operand], pos: Pos) {
        if matches!(service, Service::AlertWait) && !self.is_held(operands) {
            self.fail(Stop::Fault(FaultKind::NotHeld, pos));
        }
        if !self.is_alerted {
            self.fail(Stop::Deadlock);
        }
        self.is_alerted = false;
    }

    /// Takes a mutex, or gives it back.
    fn hold(&mut self, operands: &[Operand], is_taken: bool, pos: Pos) {
        let cell = self.operand_at(operands, 0);
        match self.memory.is_held(cell) {
            Some(is_held) if is_held || is_taken => self.memory.hold(cell, is_taken),
            Some(_) => self.fail(Stop::Fault(FaultKind::NotHeld, pos)),
            None => self.stick("no mutex"),
        }
    }
}
