/// The instructions by their numbers, from 1 on: the name, the fields that the words behind it
/// fill, in this order, of which i is the last one, and whether it is a point.
const TABLE: &str = "MOVE ab plain
LI ai plain
LIH ai plain
CON ai plain
GLB ai plain
SLOT ai plain
LDS ai plain
STS ai plain
LD abi plain
ST abi plain
COPY abc plain
FILL abc plain
EQW abc plain
ADD abc plain
SUB abc plain
MUL abc plain
ADDI abi plain
ADDO abci plain
SUBO abci plain
MULO abci plain
DIVF abci plain
MODF abci plain
DIVU abci plain
MODU abci plain
AND abc plain
OR abc plain
XOR abc plain
SHF abc plain
ROT abc plain
SEQ abc plain
SLT abc plain
SLTU abc plain
JMP i plain
BZ ai plain
BNZ ai plain
BLT abi plain
BLTU abi plain
BEQ abi plain
CALL i point
CALLR a point
CALLM i point
RET - plain
METH abi plain
SUBT abi plain
NEW ai point
NEWO abi point
POINT - point
FAULT ai plain
UNC a plain
ENDP - plain
ENDT a plain
CAT abc point
TCHR ab point
TSUB abci point
TGET abc plain
TEQ abc plain
FORK ab point
JOIN abi point
ACQ a point
REL ai point
WAIT abi point
SIG a point
BCA a point
SELF a point
PUT a point
PUTN a point
PUTC a point
ALERT a point
TALERT a point
AWAIT abci point
AJOIN abci point
GETC ai point
EOF a point";

/// An instruction of the machine.
#[derive(Clone, Copy)]
pub struct Operation {
    pub number: u8,
    pub fields: &'static str,
    pub is_point: bool,
}

/// The instruction of a name; number 0 where there is none.
pub fn operation_of(name: &str) -> Operation {
    let mut number = 0u8;
    for line in TABLE.lines() {
        number = number.wrapping_add(1);
        let (found, rest) = line.split_once(" ").unwrap_or((line, ""));
        if found == name {
            let (fields, kind) = rest.split_once(" ").unwrap_or((rest, ""));
            return Operation {
                number,
                fields,
                is_point: kind == "point",
            };
        }
    }
    Operation {
        number: 0,
        fields: "",
        is_point: false,
    }
}
