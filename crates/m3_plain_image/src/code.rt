// From what a module puts to instructions.

ghost use Rattle.std.specs.Prelude.{◌≡◌, ◌≤◌, ◌<◌, ◌+◌, ◌^◌, ◌++◌, [], ◌∷◌, pos, length};
ghost use Rattle.std.specs.Prelude.{vec_len, IfOk, OnOk};
ghost use Rattle.m3_plain.specs.Terms.{AreShallow, term_of, terms_of, all_nodes, values_at_once};
ghost use Rattle.m3_plain_image.specs.Code.{on_register, operation_code, number_code, term_code};
ghost use Rattle.m3_plain_image.specs.Code.{term_lines, code_size, operators, puts_code, puts_size};
ghost use Rattle.m3_plain_image.specs.Code.{puts_lines, faults_code, body_code};

use m3_base::NoMemory;
use m3_isa::{Instr, Op};
use m3_plain::{Arith, Plain};
use std::alloc::Global;

/// The code of a module's body, and the line of each of its operators, in the order of the faults.
#[derive(Drop)]
pub struct Code {
    pub instructions: Vec<Instr>,
    pub lines: Vec<u32>,
}

/// The code that puts these terms in order.
pub fn body_of(alloc: Global, puts: &[Plain]) -> Result<Code, NoMemory>
    requires few { all_nodes (terms_of puts.now) ≤ 2000 }
    requires shallow { AreShallow (terms_of puts.now) }
    ensures code { IfOk result (λ code. code.instructions.items ≡ body_code (terms_of puts.now)) }
    ensures lines { IfOk result (λ code. code.lines.items ≡ puts_lines (terms_of puts.now)) }
{
    let mut code = Code {
        instructions: Vec::new(alloc),
        lines: Vec::new(alloc),
    };
    code.instructions.push(alone(Op::Point))?;
    emit_puts(&mut code, puts, 1 + size_of_puts(puts))?;
    emit_faults(&mut code.instructions, code.lines.len())?;
    Ok(code)
}

// How many instructions the puts have, with the one that ends the program.
fn size_of_puts(puts: &[Plain]) -> u32
    requires { all_nodes (terms_of puts.now) ≤ 2000 }
    ensures value { result ≡ puts_size (terms_of puts.now) }
    ensures small { result ≤ 10001 }
{
    let mut size = 1;
    for put in puts {
        size += size_of_term(put) + 1;
    }
    size
}

fn size_of_term(term: &Plain) -> u32
    requires { code_size (term_of term.now) ≤ 8000 }
    ensures { result ≡ code_size (term_of term.now) }
{
    match term {
        Plain::Number(_) => 2,
        Plain::Apply(_, _, a, b) => size_of_term(a) + size_of_term(b) + 1,
    }
}

// Adds the code of each term with its PUTN, and the end.
fn emit_puts(code: &mut Code, puts: &[Plain], faults: u32) -> Result<(), NoMemory>
    requires few { all_nodes (terms_of puts.now) ≤ 2000 }
    requires shallow { AreShallow (terms_of puts.now) }
    requires faults { faults ≤ 10002 }
    requires empty { code.old.lines.items ≡ [] }
    ensures code { OnOk result (code.new.instructions.items
        ≡ code.old.instructions.items ++ puts_code faults 0 (terms_of puts.now)) }
    ensures lines { OnOk result (code.new.lines.items ≡ puts_lines (terms_of puts.now)) }
{
    for put in puts {
        emit_term(code, put, faults, 0)?;
        code.instructions.push(alone(Op::Putn))?;
    }
    code.instructions.push(alone(Op::Endp))?;
    Ok(())
}

// Adds the code of a term, whose value comes into a register.
fn emit_term(code: &mut Code, term: &Plain, faults: u32, register: u8) -> Result<(), NoMemory>
    requires faults { faults ≤ 10002 }
    requires places { vec_len code.old.lines + operators (term_of term.now) ≤ 2000 }
    requires registers { register + values_at_once (term_of term.now) ≤ 16 }
    ensures code { OnOk result (code.new.instructions.items ≡ code.old.instructions.items
        ++ term_code faults (vec_len code.old.lines) register (term_of term.now)) }
    ensures lines { OnOk result (code.new.lines.items
        ≡ code.old.lines.items ++ term_lines (term_of term.now)) }
    ensures lines_len { OnOk result (vec_len code.new.lines
        ≡ vec_len code.old.lines + operators (term_of term.now)) }
{
    match term {
        Plain::Number(n) => emit_number(&mut code.instructions, *n, register),
        Plain::Apply(op, line, a, b) => {
            emit_term(code, a, faults, register)?;
            emit_term(code, b, faults, register + 1)?;
            let fault = faults + code.lines.len() as u32;
            code.lines.push(*line)?;
            code.instructions.push(operation(*op, register, fault))?;
            Ok(())
        }
    }
}

// Adds what brings a number into a register, half by half.
fn emit_number(code: &mut Vec<Instr>, n: i64, register: u8) -> Result<(), NoMemory>
    ensures { OnOk result (code.new.items ≡ code.old.items ++ number_code register n) }
{
    let word = n.cast_unsigned();
    let low = (word % (1 << 32)) as u32;
    let high = (word / (1 << 32)) as u32;
    code.push(on_register(Op::Li, register, low.cast_signed()))?;
    code.push(on_register(Op::Lih, register, high.cast_signed()))?;
    Ok(())
}

// Adds so many faults.
fn emit_faults(instructions: &mut Vec<Instr>, count: usize) -> Result<(), NoMemory>
    requires { count ≤ 2000 }
    ensures { OnOk result (instructions.new.items
        ≡ instructions.old.items ++ faults_code 0 count) }
{
    for place in 0..count {
        instructions.push(on_register(Op::Fault, 0, place as i32))?;
    }
    Ok(())
}

// An operation on a register and the next one, with the place of its fault.
fn operation(op: Arith, register: u8, fault: u32) -> Instr
    requires register { register + 1 < 2 ^ 8 }
    requires fault { fault < 2 ^ 31 }
    ensures { result ≡ operation_code op register fault }
{
    let op = match op {
        Arith::Add => Op::Addo,
        Arith::Sub => Op::Subo,
        Arith::Mul => Op::Mulo,
    };
    Instr {
        op,
        a: register,
        b: register,
        c: register + 1,
        imm: fault as i32,
    }
}

/// An instruction of register 0 alone, or without fields.
pub fn alone(op: Op) -> Instr
    ensures { result ≡ on_register op 0 (pos 0) }
{
    on_register(op, 0, 0)
}

// An instruction of a register and a number.
fn on_register(op: Op, a: u8, imm: i32) -> Instr
    ensures { result ≡ on_register op a imm }
{
    Instr {
        op,
        a,
        b: 0,
        c: 0,
        imm,
    }
}
