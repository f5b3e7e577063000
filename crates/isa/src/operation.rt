// The operations by their manual names, and the class of each.
ghost use Rattle.std.specs.Prelude.{◌≡◌};
ghost use Rattle.isa.specs.Classes.{kind_of, class_of};

#[derive(Clone, Copy)]
pub enum Operation {
    Lui,
    Auipc,
    Jal,
    Jalr,
    Beq,
    Bne,
    Blt,
    Bge,
    Bltu,
    Bgeu,
    Addi,
    Slti,
    Sltiu,
    Xori,
    Ori,
    Andi,
    Slli,
    Srli,
    Srai,
    Add,
    Sub,
    Sll,
    Slt,
    Sltu,
    Xor,
    Srl,
    Sra,
    Or,
    And,
    Mul,
    Div,
    Divu,
    Rem,
    Remu,
    Ecall,
    Ebreak,
    Mret,
}

// What kind of functional unit works an operation out.
#[derive(Clone, Copy)]
pub enum Class {
    Plain,
    Multiply,
    Divide,
    Transfer,
}

// Who carries an operation out: a unit of some class, or the machine itself.
#[derive(Clone, Copy)]
pub enum Kind {
    Worked(Class),
    EnvironmentCall,
    Breakpoint,
    TrapReturn,
}

impl Operation {
    pub fn kind(self) -> Kind
        ensures { result ≡ kind_of self }
    {
        match self {
            Operation::Ecall => Kind::EnvironmentCall,
            Operation::Ebreak => Kind::Breakpoint,
            Operation::Mret => Kind::TrapReturn,
            Operation::Mul => Kind::Worked(Class::Multiply),
            Operation::Div | Operation::Divu | Operation::Rem | Operation::Remu => {
                Kind::Worked(Class::Divide)
            }
            Operation::Jal
            | Operation::Jalr
            | Operation::Beq
            | Operation::Bne
            | Operation::Blt
            | Operation::Bge
            | Operation::Bltu
            | Operation::Bgeu => Kind::Worked(Class::Transfer),
            _ => Kind::Worked(Class::Plain),
        }
    }

    // None for the three that the machine itself carries out.
    pub fn class(self) -> Option<Class>
        ensures { result ≡ class_of self }
    {
        match self.kind() {
            Kind::Worked(class) => Some(class),
            _ => None,
        }
    }
}
