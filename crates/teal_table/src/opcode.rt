//! The opcodes of versions 2 and 3.

ghost use Rattle.std.specs.Prelude.{◌≡◌, ◌==◌, Some, IfSome, length};
ghost use Rattle.std.specs.List.{filter};
ghost use Rattle.teal_table.specs.Table.{opcodes, opcode_at, code_of, name_of, row_of};
ghost use Rattle.teal_table.specs.Shown.{shown};

use crate::shape::{Shape, ValueKind, Version};
use crate::table_row::Row;

// The types of operands and results, one letter each: uint64, bytes, any value.
const NONE: &[ValueKind] = &[];

const B: &[ValueKind] = &[ValueKind::Bytes];

const UU: &[ValueKind] = &[ValueKind::Uint, ValueKind::Uint];

const U: &[ValueKind] = &[ValueKind::Uint];

const XX: &[ValueKind] = &[ValueKind::Any, ValueKind::Any];

const X: &[ValueKind] = &[ValueKind::Any];

const XXXX: &[ValueKind] = &[
    ValueKind::Any,
    ValueKind::Any,
    ValueKind::Any,
    ValueKind::Any,
];

const XXU: &[ValueKind] = &[ValueKind::Any, ValueKind::Any, ValueKind::Uint];

const BB: &[ValueKind] = &[ValueKind::Bytes, ValueKind::Bytes];

const BUU: &[ValueKind] = &[ValueKind::Bytes, ValueKind::Uint, ValueKind::Uint];

const XU: &[ValueKind] = &[ValueKind::Any, ValueKind::Uint];

const XUU: &[ValueKind] = &[ValueKind::Any, ValueKind::Uint, ValueKind::Uint];

const BU: &[ValueKind] = &[ValueKind::Bytes, ValueKind::Uint];

const UB: &[ValueKind] = &[ValueKind::Uint, ValueKind::Bytes];

const UUB: &[ValueKind] = &[ValueKind::Uint, ValueKind::Uint, ValueKind::Bytes];

const UBX: &[ValueKind] = &[ValueKind::Uint, ValueKind::Bytes, ValueKind::Any];

const BX: &[ValueKind] = &[ValueKind::Bytes, ValueKind::Any];

/// An instruction of the opcode table (AVM specification, version 2 and 3 opcodes, application mode), in the order of
/// the codes. What an opcode means is in its [`Row`], and what it does in the crates above.
#[derive(Clone, Copy, Debug, PartialEq, Eq)]
pub enum Opcode {
    Err,
    Sha256,
    Sha512_256,
    Add,
    Subtract,
    Divide,
    Multiply,
    Less,
    Greater,
    LessOrEqual,
    GreaterOrEqual,
    And,
    Or,
    Equal,
    NotEqual,
    Not,
    Len,
    Itob,
    Btoi,
    Remainder,
    BitOr,
    BitAnd,
    BitXor,
    BitNot,
    Mulw,
    Addw,
    Intcblock,
    Intc,
    Intc0,
    Intc1,
    Intc2,
    Intc3,
    Bytecblock,
    Bytec,
    Bytec0,
    Bytec1,
    Bytec2,
    Bytec3,
    Txn,
    Global,
    Gtxn,
    Load,
    Store,
    Txna,
    Gtxna,
    Gtxns,
    Gtxnsa,
    Bnz,
    Bz,
    B,
    Return,
    Assert,
    Pop,
    Dup,
    Dup2,
    Dig,
    Swap,
    Select,
    Concat,
    Substring,
    Substring3,
    Getbit,
    Setbit,
    Getbyte,
    Setbyte,
    AppOptedIn,
    AppLocalGet,
    AppLocalGetEx,
    AppGlobalGet,
    AppGlobalGetEx,
    AppLocalPut,
    AppGlobalPut,
    AppLocalDel,
    AppGlobalDel,
    Pushbytes,
    Pushint,
}

impl Opcode {
    /// The opcode of a code.
    pub fn of(code: u8) -> Option<Opcode>
        ensures { result ≡ opcode_at code }
    {
        opcode_of(code)
    }

    /// Its byte in a program. It stands here beside its row: a row is several words to write, and an instruction needs
    /// the byte alone.
    #[tactic(auto, unfolding(crate::specs::Table::row_of))]
    #[inline(always)]
    pub fn code(self) -> u8
        ensures { result ≡ code_of self }
    {
        match self {
            Opcode::Err => 0x00,
            Opcode::Sha256 => 0x01,
            Opcode::Sha512_256 => 0x03,
            Opcode::Add => 0x08,
            Opcode::Subtract => 0x09,
            Opcode::Divide => 0x0a,
            Opcode::Multiply => 0x0b,
            Opcode::Less => 0x0c,
            Opcode::Greater => 0x0d,
            Opcode::LessOrEqual => 0x0e,
            Opcode::GreaterOrEqual => 0x0f,
            Opcode::And => 0x10,
            Opcode::Or => 0x11,
            Opcode::Equal => 0x12,
            Opcode::NotEqual => 0x13,
            Opcode::Not => 0x14,
            Opcode::Len => 0x15,
            Opcode::Itob => 0x16,
            Opcode::Btoi => 0x17,
            Opcode::Remainder => 0x18,
            Opcode::BitOr => 0x19,
            Opcode::BitAnd => 0x1a,
            Opcode::BitXor => 0x1b,
            Opcode::BitNot => 0x1c,
            Opcode::Mulw => 0x1d,
            Opcode::Addw => 0x1e,
            Opcode::Intcblock => 0x20,
            Opcode::Intc => 0x21,
            Opcode::Intc0 => 0x22,
            Opcode::Intc1 => 0x23,
            Opcode::Intc2 => 0x24,
            Opcode::Intc3 => 0x25,
            Opcode::Bytecblock => 0x26,
            Opcode::Bytec => 0x27,
            Opcode::Bytec0 => 0x28,
            Opcode::Bytec1 => 0x29,
            Opcode::Bytec2 => 0x2a,
            Opcode::Bytec3 => 0x2b,
            Opcode::Txn => 0x31,
            Opcode::Global => 0x32,
            Opcode::Gtxn => 0x33,
            Opcode::Load => 0x34,
            Opcode::Store => 0x35,
            Opcode::Txna => 0x36,
            Opcode::Gtxna => 0x37,
            Opcode::Gtxns => 0x38,
            Opcode::Gtxnsa => 0x39,
            Opcode::Bnz => 0x40,
            Opcode::Bz => 0x41,
            Opcode::B => 0x42,
            Opcode::Return => 0x43,
            Opcode::Assert => 0x44,
            Opcode::Pop => 0x48,
            Opcode::Dup => 0x49,
            Opcode::Dup2 => 0x4a,
            Opcode::Dig => 0x4b,
            Opcode::Swap => 0x4c,
            Opcode::Select => 0x4d,
            Opcode::Concat => 0x50,
            Opcode::Substring => 0x51,
            Opcode::Substring3 => 0x52,
            Opcode::Getbit => 0x53,
            Opcode::Setbit => 0x54,
            Opcode::Getbyte => 0x55,
            Opcode::Setbyte => 0x56,
            Opcode::AppOptedIn => 0x61,
            Opcode::AppLocalGet => 0x62,
            Opcode::AppLocalGetEx => 0x63,
            Opcode::AppGlobalGet => 0x64,
            Opcode::AppGlobalGetEx => 0x65,
            Opcode::AppLocalPut => 0x66,
            Opcode::AppGlobalPut => 0x67,
            Opcode::AppLocalDel => 0x68,
            Opcode::AppGlobalDel => 0x69,
            Opcode::Pushbytes => 0x80,
            Opcode::Pushint => 0x81,
        }
    }

    /// Its name in source text, as its row says.
    #[tactic(auto, unfolding(crate::specs::Table::row_of))]
    pub fn name(self) -> &'static str
        ensures { result.now ≡ name_of self }
    {
        match self {
            Opcode::Err => "err",
            Opcode::Sha256 => "sha256",
            Opcode::Sha512_256 => "sha512_256",
            Opcode::Add => "+",
            Opcode::Subtract => "-",
            Opcode::Divide => "/",
            Opcode::Multiply => "*",
            Opcode::Less => "<",
            Opcode::Greater => ">",
            Opcode::LessOrEqual => "<=",
            Opcode::GreaterOrEqual => ">=",
            Opcode::And => "&&",
            Opcode::Or => "||",
            Opcode::Equal => "==",
            Opcode::NotEqual => "!=",
            Opcode::Not => "!",
            Opcode::Len => "len",
            Opcode::Itob => "itob",
            Opcode::Btoi => "btoi",
            Opcode::Remainder => "%",
            Opcode::BitOr => "|",
            Opcode::BitAnd => "&",
            Opcode::BitXor => "^",
            Opcode::BitNot => "~",
            Opcode::Mulw => "mulw",
            Opcode::Addw => "addw",
            Opcode::Intcblock => "intcblock",
            Opcode::Intc => "intc",
            Opcode::Intc0 => "intc_0",
            Opcode::Intc1 => "intc_1",
            Opcode::Intc2 => "intc_2",
            Opcode::Intc3 => "intc_3",
            Opcode::Bytecblock => "bytecblock",
            Opcode::Bytec => "bytec",
            Opcode::Bytec0 => "bytec_0",
            Opcode::Bytec1 => "bytec_1",
            Opcode::Bytec2 => "bytec_2",
            Opcode::Bytec3 => "bytec_3",
            Opcode::Txn => "txn",
            Opcode::Global => "global",
            Opcode::Gtxn => "gtxn",
            Opcode::Load => "load",
            Opcode::Store => "store",
            Opcode::Txna => "txna",
            Opcode::Gtxna => "gtxna",
            Opcode::Gtxns => "gtxns",
            Opcode::Gtxnsa => "gtxnsa",
            Opcode::Bnz => "bnz",
            Opcode::Bz => "bz",
            Opcode::B => "b",
            Opcode::Return => "return",
            Opcode::Assert => "assert",
            Opcode::Pop => "pop",
            Opcode::Dup => "dup",
            Opcode::Dup2 => "dup2",
            Opcode::Dig => "dig",
            Opcode::Swap => "swap",
            Opcode::Select => "select",
            Opcode::Concat => "concat",
            Opcode::Substring => "substring",
            Opcode::Substring3 => "substring3",
            Opcode::Getbit => "getbit",
            Opcode::Setbit => "setbit",
            Opcode::Getbyte => "getbyte",
            Opcode::Setbyte => "setbyte",
            Opcode::AppOptedIn => "app_opted_in",
            Opcode::AppLocalGet => "app_local_get",
            Opcode::AppLocalGetEx => "app_local_get_ex",
            Opcode::AppGlobalGet => "app_global_get",
            Opcode::AppGlobalGetEx => "app_global_get_ex",
            Opcode::AppLocalPut => "app_local_put",
            Opcode::AppGlobalPut => "app_global_put",
            Opcode::AppLocalDel => "app_local_del",
            Opcode::AppGlobalDel => "app_global_del",
            Opcode::Pushbytes => "pushbytes",
            Opcode::Pushint => "pushint",
        }
    }

    /// What stands behind its byte, as its row says.
    #[tactic(auto, unfolding(crate::specs::Table::row_of))]
    pub fn immediates(self) -> Shape
        ensures { result ≡ (row_of self).immediates }
    {
        match self {
            Opcode::Intcblock => Shape::UintBlock,
            Opcode::Intc | Opcode::Bytec | Opcode::Load | Opcode::Store | Opcode::Dig =>
                Shape::Index,
            Opcode::Bytecblock => Shape::ByteBlock,
            Opcode::Txn => Shape::TxnField,
            Opcode::Global => Shape::GlobalField,
            Opcode::Gtxn => Shape::GroupField,
            Opcode::Txna => Shape::ArrayField,
            Opcode::Gtxna => Shape::GroupArrayField,
            Opcode::Gtxns => Shape::StackField,
            Opcode::Gtxnsa => Shape::StackArrayField,
            Opcode::Bnz | Opcode::Bz | Opcode::B => Shape::Offset,
            Opcode::Substring => Shape::Bounds,
            Opcode::Pushbytes => Shape::Bytes,
            Opcode::Pushint => Shape::Uint,
            _ => Shape::Nothing,
        }
    }

    /// What it adds to a program's cost, as its row says.
    #[tactic(auto, unfolding(crate::specs::Table::row_of))]
    pub fn cost(self) -> u8
        ensures { result ≡ (row_of self).cost }
    {
        match self {
            Opcode::Sha256 => 35,
            Opcode::Sha512_256 => 45,
            _ => 1,
        }
    }

    /// The version of programs that it came with, as its row says.
    #[tactic(auto, unfolding(crate::specs::Table::row_of))]
    pub fn version(self) -> Version
        ensures { result ≡ (row_of self).version }
    {
        match self {
            Opcode::Gtxns
            | Opcode::Gtxnsa
            | Opcode::Assert
            | Opcode::Dig
            | Opcode::Swap
            | Opcode::Select
            | Opcode::Getbit
            | Opcode::Setbit
            | Opcode::Getbyte
            | Opcode::Setbyte
            | Opcode::Pushbytes
            | Opcode::Pushint => Version::Three,
            _ => Version::Two,
        }
    }

    /// The types of its operands, as its row says, the deepest first.
    #[tactic(auto, unfolding(crate::specs::Table::row_of))]
    pub fn pops(self) -> &'static [ValueKind]
        ensures { result.now ≡ (row_of self).pops }
    {
        match self {
            Opcode::Sha256
            | Opcode::Sha512_256
            | Opcode::Len
            | Opcode::Btoi
            | Opcode::Substring
            | Opcode::AppGlobalGet
            | Opcode::AppGlobalDel => B,
            Opcode::Not
            | Opcode::Itob
            | Opcode::BitNot
            | Opcode::Gtxns
            | Opcode::Gtxnsa
            | Opcode::Bnz
            | Opcode::Bz
            | Opcode::Return
            | Opcode::Assert => U,
            Opcode::Store | Opcode::Pop | Opcode::Dup => X,
            Opcode::Concat => BB,
            Opcode::Getbyte => BU,
            Opcode::AppGlobalPut => BX,
            Opcode::AppLocalGet | Opcode::AppGlobalGetEx | Opcode::AppLocalDel => UB,
            Opcode::Add
            | Opcode::Subtract
            | Opcode::Divide
            | Opcode::Multiply
            | Opcode::Less
            | Opcode::Greater
            | Opcode::LessOrEqual
            | Opcode::GreaterOrEqual
            | Opcode::And
            | Opcode::Or
            | Opcode::Remainder
            | Opcode::BitOr
            | Opcode::BitAnd
            | Opcode::BitXor
            | Opcode::Mulw
            | Opcode::Addw
            | Opcode::AppOptedIn => UU,
            Opcode::Getbit => XU,
            Opcode::Equal | Opcode::NotEqual | Opcode::Dup2 | Opcode::Swap => XX,
            Opcode::Substring3 | Opcode::Setbyte => BUU,
            Opcode::AppLocalPut => UBX,
            Opcode::AppLocalGetEx => UUB,
            Opcode::Setbit => XUU,
            Opcode::Select => XXU,
            _ => NONE,
        }
    }

    /// The types of what it leaves in their place, as its row says, the deepest first.
    #[tactic(auto, unfolding(crate::specs::Table::row_of))]
    pub fn pushes(self) -> &'static [ValueKind]
        ensures { result.now ≡ (row_of self).pushes }
    {
        match self {
            Opcode::Sha256
            | Opcode::Sha512_256
            | Opcode::Itob
            | Opcode::Bytec
            | Opcode::Bytec0
            | Opcode::Bytec1
            | Opcode::Bytec2
            | Opcode::Bytec3
            | Opcode::Concat
            | Opcode::Substring
            | Opcode::Substring3
            | Opcode::Setbyte
            | Opcode::Pushbytes => B,
            // What computes with numbers, and what else leaves one.
            Opcode::Add
            | Opcode::Subtract
            | Opcode::Divide
            | Opcode::Multiply
            | Opcode::Less
            | Opcode::Greater
            | Opcode::LessOrEqual
            | Opcode::GreaterOrEqual
            | Opcode::And
            | Opcode::Or
            | Opcode::Equal
            | Opcode::NotEqual
            | Opcode::Not
            | Opcode::Remainder
            | Opcode::BitOr
            | Opcode::BitAnd
            | Opcode::BitXor
            | Opcode::BitNot => U,
            Opcode::Len
            | Opcode::Btoi
            | Opcode::Intc
            | Opcode::Intc0
            | Opcode::Intc1
            | Opcode::Intc2
            | Opcode::Intc3
            | Opcode::Getbit
            | Opcode::Getbyte
            | Opcode::AppOptedIn
            | Opcode::Pushint => U,
            Opcode::Txn
            | Opcode::Global
            | Opcode::Gtxn
            | Opcode::Load
            | Opcode::Txna
            | Opcode::Gtxna
            | Opcode::Gtxns
            | Opcode::Gtxnsa
            | Opcode::Dig
            | Opcode::Select
            | Opcode::Setbit
            | Opcode::AppLocalGet
            | Opcode::AppGlobalGet => X,
            Opcode::Mulw | Opcode::Addw => UU,
            Opcode::AppLocalGetEx | Opcode::AppGlobalGetEx => XU,
            Opcode::Dup | Opcode::Swap => XX,
            Opcode::Dup2 => XXXX,
            _ => NONE,
        }
    }

    /// Its row of the table.
    pub fn row(self) -> Row
        ensures { shown result ≡ row_of self }
    {
        Row {
            opcode: self,
            code: self.code(),
            name: self.name(),
            immediates: self.immediates(),
            cost: self.cost(),
            version: self.version(),
            pops: self.pops(),
            pushes: self.pushes(),
        }
    }
}

#[tactic(auto, unfolding(crate::specs::Table::row_of))]
fn opcode_of(code: u8) -> Option<Opcode>
    ensures some { IfSome result (λ opcode. code_of opcode ≡ code) }
    ensures all { (opcode : _) → code_of opcode ≡ code → result ≡ Some opcode }
{
    match code {
        0x00 => Some(Opcode::Err),
        0x01 => Some(Opcode::Sha256),
        0x03 => Some(Opcode::Sha512_256),
        0x08 => Some(Opcode::Add),
        0x09 => Some(Opcode::Subtract),
        0x0a => Some(Opcode::Divide),
        0x0b => Some(Opcode::Multiply),
        0x0c => Some(Opcode::Less),
        0x0d => Some(Opcode::Greater),
        0x0e => Some(Opcode::LessOrEqual),
        0x0f => Some(Opcode::GreaterOrEqual),
        0x10 => Some(Opcode::And),
        0x11 => Some(Opcode::Or),
        0x12 => Some(Opcode::Equal),
        0x13 => Some(Opcode::NotEqual),
        0x14 => Some(Opcode::Not),
        0x15 => Some(Opcode::Len),
        0x16 => Some(Opcode::Itob),
        0x17 => Some(Opcode::Btoi),
        0x18 => Some(Opcode::Remainder),
        0x19 => Some(Opcode::BitOr),
        0x1a => Some(Opcode::BitAnd),
        0x1b => Some(Opcode::BitXor),
        0x1c => Some(Opcode::BitNot),
        0x1d => Some(Opcode::Mulw),
        0x1e => Some(Opcode::Addw),
        0x20 => Some(Opcode::Intcblock),
        0x21 => Some(Opcode::Intc),
        0x22 => Some(Opcode::Intc0),
        0x23 => Some(Opcode::Intc1),
        0x24 => Some(Opcode::Intc2),
        0x25 => Some(Opcode::Intc3),
        0x26 => Some(Opcode::Bytecblock),
        0x27 => Some(Opcode::Bytec),
        0x28 => Some(Opcode::Bytec0),
        0x29 => Some(Opcode::Bytec1),
        0x2a => Some(Opcode::Bytec2),
        0x2b => Some(Opcode::Bytec3),
        0x31 => Some(Opcode::Txn),
        0x32 => Some(Opcode::Global),
        0x33 => Some(Opcode::Gtxn),
        0x34 => Some(Opcode::Load),
        0x35 => Some(Opcode::Store),
        0x36 => Some(Opcode::Txna),
        0x37 => Some(Opcode::Gtxna),
        0x38 => Some(Opcode::Gtxns),
        0x39 => Some(Opcode::Gtxnsa),
        0x40 => Some(Opcode::Bnz),
        0x41 => Some(Opcode::Bz),
        0x42 => Some(Opcode::B),
        0x43 => Some(Opcode::Return),
        0x44 => Some(Opcode::Assert),
        0x48 => Some(Opcode::Pop),
        0x49 => Some(Opcode::Dup),
        0x4a => Some(Opcode::Dup2),
        0x4b => Some(Opcode::Dig),
        0x4c => Some(Opcode::Swap),
        0x4d => Some(Opcode::Select),
        0x50 => Some(Opcode::Concat),
        0x51 => Some(Opcode::Substring),
        0x52 => Some(Opcode::Substring3),
        0x53 => Some(Opcode::Getbit),
        0x54 => Some(Opcode::Setbit),
        0x55 => Some(Opcode::Getbyte),
        0x56 => Some(Opcode::Setbyte),
        0x61 => Some(Opcode::AppOptedIn),
        0x62 => Some(Opcode::AppLocalGet),
        0x63 => Some(Opcode::AppLocalGetEx),
        0x64 => Some(Opcode::AppGlobalGet),
        0x65 => Some(Opcode::AppGlobalGetEx),
        0x66 => Some(Opcode::AppLocalPut),
        0x67 => Some(Opcode::AppGlobalPut),
        0x68 => Some(Opcode::AppLocalDel),
        0x69 => Some(Opcode::AppGlobalDel),
        0x80 => Some(Opcode::Pushbytes),
        0x81 => Some(Opcode::Pushint),
        _ => None,
    }
}

// The opcodes whose names have so many bytes, by rising code.
#[tactic(auto, unfolding(crate::specs::Table::row_of, crate::specs::Table::opcodes))]
pub(crate) fn named_in(len: usize) -> &'static [Opcode]
    ensures { result.now ≡ filter (λ o. length (name_of o) == len) opcodes }
{
    match len {
        1 => &[
            Opcode::Add,
            Opcode::Subtract,
            Opcode::Divide,
            Opcode::Multiply,
            Opcode::Less,
            Opcode::Greater,
            Opcode::Not,
            Opcode::Remainder,
            Opcode::BitOr,
            Opcode::BitAnd,
            Opcode::BitXor,
            Opcode::BitNot,
            Opcode::B,
        ],
        2 => &[
            Opcode::LessOrEqual,
            Opcode::GreaterOrEqual,
            Opcode::And,
            Opcode::Or,
            Opcode::Equal,
            Opcode::NotEqual,
            Opcode::Bz,
        ],
        3 => &[
            Opcode::Err,
            Opcode::Len,
            Opcode::Txn,
            Opcode::Bnz,
            Opcode::Pop,
            Opcode::Dup,
            Opcode::Dig,
        ],
        4 => &[
            Opcode::Itob,
            Opcode::Btoi,
            Opcode::Mulw,
            Opcode::Addw,
            Opcode::Intc,
            Opcode::Gtxn,
            Opcode::Load,
            Opcode::Txna,
            Opcode::Dup2,
            Opcode::Swap,
        ],
        5 => &[Opcode::Bytec, Opcode::Store, Opcode::Gtxna, Opcode::Gtxns],
        6 => &[
            Opcode::Sha256,
            Opcode::Intc0,
            Opcode::Intc1,
            Opcode::Intc2,
            Opcode::Intc3,
            Opcode::Global,
            Opcode::Gtxnsa,
            Opcode::Return,
            Opcode::Assert,
            Opcode::Select,
            Opcode::Concat,
            Opcode::Getbit,
            Opcode::Setbit,
        ],
        7 => &[
            Opcode::Bytec0,
            Opcode::Bytec1,
            Opcode::Bytec2,
            Opcode::Bytec3,
            Opcode::Getbyte,
            Opcode::Setbyte,
            Opcode::Pushint,
        ],
        9 => &[Opcode::Intcblock, Opcode::Substring, Opcode::Pushbytes],
        10 => &[Opcode::Sha512_256, Opcode::Bytecblock, Opcode::Substring3],
        12 => &[Opcode::AppOptedIn],
        13 => &[
            Opcode::AppLocalGet,
            Opcode::AppLocalPut,
            Opcode::AppLocalDel,
        ],
        14 => &[
            Opcode::AppGlobalGet,
            Opcode::AppGlobalPut,
            Opcode::AppGlobalDel,
        ],
        16 => &[Opcode::AppLocalGetEx],
        17 => &[Opcode::AppGlobalGetEx],
        _ => &[],
    }
}
