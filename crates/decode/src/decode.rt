// The instruction of each first byte, and how many bytes an instruction has.
ghost use Rattle.std.specs.Prelude.{◌≡◌};
ghost use Rattle.decode.specs.Decode.{decode_of, mode_length, branch_mode_length, instruction_length};

use alu::Operation;

// Where the operand stands: mnemonics that end in Z, I, R and A.
#[derive(Clone, Copy, Debug, PartialEq, Eq)]
pub enum Mode {
    Register,
    Immediate,
    Relative,
    Absolute,
}

// What is done with it: it is worked on, or a register is stored over it.
#[derive(Clone, Copy, Debug, PartialEq, Eq)]
pub enum Access {
    Read(Operation),
    Write,
}

// How a branch names its target: relative, with two bytes, or absolute, with three.
#[derive(Clone, Copy, Debug, PartialEq, Eq)]
pub enum BranchMode {
    Relative,
    Absolute,
}

// The branches on a condition or a register; the last three are calls.
#[derive(Clone, Copy, Debug, PartialEq, Eq)]
pub enum BranchKind {
    Bct,
    Bcf,
    Brn,
    Bir,
    Bdr,
    Bst,
    Bsf,
    Bsn,
}

// REDC and WRTC, of one byte, name an unused port; REDE and WRTE, of two, an extended one, which is unused too. Each kind of
// instruction that needs code of some size stands here once, with what differs inside it: such code then has one caller, and
// is compiled into it.
#[derive(Clone, Copy, Debug, PartialEq, Eq)]
pub enum Instruction {
    Unknown,
    ControlPort,
    ExtendedPort,
    Operate(Mode, Access),
    Strz,
    Nop,
    Halt,
    Spsu,
    Spsl,
    Lpsu,
    Lpsl,
    Cpsu,
    Cpsl,
    Ppsu,
    Ppsl,
    Tpsu,
    Tpsl,
    Tmi,
    Dar,
    Rrr,
    Rrl,
    Redd,
    Wrtd,
    Retc,
    Rete,
    Branch(BranchMode, BranchKind),
    Zbrr,
    Zbsr,
    Bxa,
    Bsxa,
}

impl Mode {
    fn length(self) -> u16
        ensures { result ≡ mode_length self }
    {
        match self {
            Mode::Register => 1,
            Mode::Immediate | Mode::Relative => 2,
            Mode::Absolute => 3,
        }
    }
}

impl BranchMode {
    fn length(self) -> u16
        ensures { result ≡ branch_mode_length self }
    {
        match self {
            BranchMode::Relative => 2,
            BranchMode::Absolute => 3,
        }
    }
}

impl Instruction {
    // The instruction of a first byte. Its last two bits name a register or a condition beside it.
    #[tactic(auto, unfolding(crate::specs::DecodeDefinitions::decode_definitions))]
    pub fn decode(op: u8) -> Instruction
        ensures { result ≡ decode_of op }
    {
        let r = op % 4;
        let class = op / 4;
        match class {
            // 00 LODZ
            0 => Instruction::Operate(Mode::Register, Access::Read(Operation::Lod)),
            // 04 LODI
            1 => Instruction::Operate(Mode::Immediate, Access::Read(Operation::Lod)),
            // 08 LODR
            2 => Instruction::Operate(Mode::Relative, Access::Read(Operation::Lod)),
            // 0C LODA
            3 => Instruction::Operate(Mode::Absolute, Access::Read(Operation::Lod)),
            // 10, 11 unknown, 12 SPSU, 13 SPSL
            4 => match r {
                0 | 1 => Instruction::Unknown,
                2 => Instruction::Spsu,
                _ => Instruction::Spsl,
            },
            // 14 RETC
            5 => Instruction::Retc,
            // 18 BCTR
            6 => Instruction::Branch(BranchMode::Relative, BranchKind::Bct),
            // 1C BCTA
            7 => Instruction::Branch(BranchMode::Absolute, BranchKind::Bct),
            // 20 EORZ
            8 => Instruction::Operate(Mode::Register, Access::Read(Operation::Eor)),
            // 24 EORI
            9 => Instruction::Operate(Mode::Immediate, Access::Read(Operation::Eor)),
            // 28 EORR
            10 => Instruction::Operate(Mode::Relative, Access::Read(Operation::Eor)),
            // 2C EORA
            11 => Instruction::Operate(Mode::Absolute, Access::Read(Operation::Eor)),
            // 30 REDC
            12 => Instruction::ControlPort,
            // 34 RETE
            13 => Instruction::Rete,
            // 38 BSTR
            14 => Instruction::Branch(BranchMode::Relative, BranchKind::Bst),
            // 3C BSTA
            15 => Instruction::Branch(BranchMode::Absolute, BranchKind::Bst),
            // 40 HALT, 41 ANDZ
            16 => match r {
                0 => Instruction::Halt,
                _ => Instruction::Operate(Mode::Register, Access::Read(Operation::And)),
            },
            // 44 ANDI
            17 => Instruction::Operate(Mode::Immediate, Access::Read(Operation::And)),
            // 48 ANDR
            18 => Instruction::Operate(Mode::Relative, Access::Read(Operation::And)),
            // 4C ANDA
            19 => Instruction::Operate(Mode::Absolute, Access::Read(Operation::And)),
            // 50 RRR
            20 => Instruction::Rrr,
            // 54 REDE
            21 => Instruction::ExtendedPort,
            // 58 BRNR
            22 => Instruction::Branch(BranchMode::Relative, BranchKind::Brn),
            // 5C BRNA
            23 => Instruction::Branch(BranchMode::Absolute, BranchKind::Brn),
            // 60 IORZ
            24 => Instruction::Operate(Mode::Register, Access::Read(Operation::Ior)),
            // 64 IORI
            25 => Instruction::Operate(Mode::Immediate, Access::Read(Operation::Ior)),
            // 68 IORR
            26 => Instruction::Operate(Mode::Relative, Access::Read(Operation::Ior)),
            // 6C IORA
            27 => Instruction::Operate(Mode::Absolute, Access::Read(Operation::Ior)),
            // 70 REDD
            28 => Instruction::Redd,
            // 74 CPSU, 75 CPSL, 76 PPSU, 77 PPSL
            29 => match r {
                0 => Instruction::Cpsu,
                1 => Instruction::Cpsl,
                2 => Instruction::Ppsu,
                _ => Instruction::Ppsl,
            },
            // 78 BSNR
            30 => Instruction::Branch(BranchMode::Relative, BranchKind::Bsn),
            // 7C BSNA
            31 => Instruction::Branch(BranchMode::Absolute, BranchKind::Bsn),
            // 80 ADDZ
            32 => Instruction::Operate(Mode::Register, Access::Read(Operation::Add)),
            // 84 ADDI
            33 => Instruction::Operate(Mode::Immediate, Access::Read(Operation::Add)),
            // 88 ADDR
            34 => Instruction::Operate(Mode::Relative, Access::Read(Operation::Add)),
            // 8C ADDA
            35 => Instruction::Operate(Mode::Absolute, Access::Read(Operation::Add)),
            // 90, 91 unknown, 92 LPSU, 93 LPSL
            36 => match r {
                0 | 1 => Instruction::Unknown,
                2 => Instruction::Lpsu,
                _ => Instruction::Lpsl,
            },
            // 94 DAR
            37 => Instruction::Dar,
            // 98 BCFR, 9B ZBRR
            38 => match r {
                3 => Instruction::Zbrr,
                _ => Instruction::Branch(BranchMode::Relative, BranchKind::Bcf),
            },
            // 9C BCFA, 9F BXA
            39 => match r {
                3 => Instruction::Bxa,
                _ => Instruction::Branch(BranchMode::Absolute, BranchKind::Bcf),
            },
            // A0 SUBZ
            40 => Instruction::Operate(Mode::Register, Access::Read(Operation::Sub)),
            // A4 SUBI
            41 => Instruction::Operate(Mode::Immediate, Access::Read(Operation::Sub)),
            // A8 SUBR
            42 => Instruction::Operate(Mode::Relative, Access::Read(Operation::Sub)),
            // AC SUBA
            43 => Instruction::Operate(Mode::Absolute, Access::Read(Operation::Sub)),
            // B0 WRTC
            44 => Instruction::ControlPort,
            // B4 TPSU, B5 TPSL, B6, B7 unknown
            45 => match r {
                0 => Instruction::Tpsu,
                1 => Instruction::Tpsl,
                _ => Instruction::Unknown,
            },
            // B8 BSFR, BB ZBSR
            46 => match r {
                3 => Instruction::Zbsr,
                _ => Instruction::Branch(BranchMode::Relative, BranchKind::Bsf),
            },
            // BC BSFA, BF BSXA
            47 => match r {
                3 => Instruction::Bsxa,
                _ => Instruction::Branch(BranchMode::Absolute, BranchKind::Bsf),
            },
            // C0 NOP, C1 STRZ
            48 => match r {
                0 => Instruction::Nop,
                _ => Instruction::Strz,
            },
            // C4 to C7 unknown
            49 => Instruction::Unknown,
            // C8 STRR
            50 => Instruction::Operate(Mode::Relative, Access::Write),
            // CC STRA
            51 => Instruction::Operate(Mode::Absolute, Access::Write),
            // D0 RRL
            52 => Instruction::Rrl,
            // D4 WRTE
            53 => Instruction::ExtendedPort,
            // D8 BIRR
            54 => Instruction::Branch(BranchMode::Relative, BranchKind::Bir),
            // DC BIRA
            55 => Instruction::Branch(BranchMode::Absolute, BranchKind::Bir),
            // E0 COMZ
            56 => Instruction::Operate(Mode::Register, Access::Read(Operation::Com)),
            // E4 COMI
            57 => Instruction::Operate(Mode::Immediate, Access::Read(Operation::Com)),
            // E8 COMR
            58 => Instruction::Operate(Mode::Relative, Access::Read(Operation::Com)),
            // EC COMA
            59 => Instruction::Operate(Mode::Absolute, Access::Read(Operation::Com)),
            // F0 WRTD
            60 => Instruction::Wrtd,
            // F4 TMI
            61 => Instruction::Tmi,
            // F8 BDRR
            62 => Instruction::Branch(BranchMode::Relative, BranchKind::Bdr),
            // FC BDRA
            _ => Instruction::Branch(BranchMode::Absolute, BranchKind::Bdr),
        }
    }

    // How many bytes an instruction has. The step does not call it: the code of each instruction has its own number, held to
    // this one by its contract, so that the compiler knows it there.
    pub fn length(self) -> u16
        ensures { result ≡ instruction_length self }
    {
        match self {
            Instruction::Operate(mode, _access) => mode.length(),
            Instruction::Branch(mode, _kind) => mode.length(),
            Instruction::Unknown
            | Instruction::ControlPort
            | Instruction::Strz
            | Instruction::Nop
            | Instruction::Halt
            | Instruction::Spsu
            | Instruction::Spsl
            | Instruction::Lpsu
            | Instruction::Lpsl
            | Instruction::Dar
            | Instruction::Rrr
            | Instruction::Rrl
            | Instruction::Redd
            | Instruction::Wrtd
            | Instruction::Retc
            | Instruction::Rete => 1,
            Instruction::Cpsu
            | Instruction::Cpsl
            | Instruction::Ppsu
            | Instruction::Ppsl
            | Instruction::Tpsu
            | Instruction::Tpsl
            | Instruction::Tmi
            | Instruction::Zbrr
            | Instruction::Zbsr
            | Instruction::ExtendedPort => 2,
            Instruction::Bxa | Instruction::Bsxa => 3,
        }
    }
}
