// Every refusal, with its number and the line that names it.
// Each type has its own `number` and line: a trait for them would be imported by every caller, and saves no line here.
#![tactic(auto)]

ghost use Rattle.std.specs.Prelude.{◌≡◌, Some};
ghost use Rattle.refusal.specs.Numbers.{load_fault_number, skew_number, no_register_number, issue_fault_number, none_goes_number, retire_fault_number, no_room_number, write_fault_number, illegal_word_number};
ghost use Rattle.refusal.specs.Lines.{load_fault_line, skew_line, no_register_line, issue_fault_line, none_goes_line, retire_fault_line, no_room_line, write_fault_line, illegal_word_line};

use std::fmt;

// Load was given a program that it does not take.
#[derive(Clone, Copy)]
pub enum LoadFault {
    // more words than the program table holds
    Overlong = 1,
    // pc or vector is no multiple of 4
    Skew,
}

impl LoadFault {
    pub fn number(self) -> u8
        ensures { result ≡ load_fault_number self }
    {
        self as u8
    }
}

impl fmt::Display for LoadFault {
    ghost output = { λ e. Some (load_fault_line e) };

    fn fmt<W: fmt::Write>(&self, f: &mut fmt::Formatter<W>) -> fmt::Result {
        match self {
            LoadFault::Overlong => f.write_str("1 overlong"),
            LoadFault::Skew => f.write_str("2 skew"),
        }
    }
}

// An address for pc that is no multiple of 4.
#[derive(Clone, Copy)]
pub struct SkewedAddress {
    pub address: u32,
}

impl SkewedAddress {
    pub fn number(self) -> u8
        ensures { result ≡ skew_number self }
    {
        LoadFault::Skew.number()
    }
}

impl fmt::Display for SkewedAddress {
    ghost output = { λ e. Some (skew_line e) };

    fn fmt<W: fmt::Write>(&self, f: &mut fmt::Formatter<W>) -> fmt::Result {
        f.write_str("2 skew")
    }
}

// A register number above 31.
#[derive(Clone, Copy)]
pub struct NoRegister {
    pub register: u8,
}

impl NoRegister {
    pub fn number(self) -> u8
        ensures { result ≡ no_register_number self }
    {
        3
    }
}

impl fmt::Display for NoRegister {
    ghost output = { λ e. Some (no_register_line e) };

    fn fmt<W: fmt::Write>(&self, f: &mut fmt::Formatter<W>) -> fmt::Result {
        f.write_str("3 no register")
    }
}

// Issue has no place for another instruction.
#[derive(Clone, Copy)]
pub enum IssueFault {
    // 16 entries are in flight
    BufferFull = 10,
    // the word needs a reservation station, and none is free
    NoStation,
}

impl IssueFault {
    pub fn number(self) -> u8
        ensures { result ≡ issue_fault_number self }
    {
        self as u8
    }
}

impl fmt::Display for IssueFault {
    ghost output = { λ e. Some (issue_fault_line e) };

    fn fmt<W: fmt::Write>(&self, f: &mut fmt::Formatter<W>) -> fmt::Result {
        match self {
            IssueFault::BufferFull => f.write_str("10 buffer full"),
            IssueFault::NoStation => f.write_str("11 no station"),
        }
    }
}

// Dispatch has nothing that may go to a unit.
#[derive(Clone, Copy)]
pub struct NoneGoes {}

impl NoneGoes {
    pub fn number(self) -> u8
        ensures { result ≡ none_goes_number self }
    {
        12
    }
}

impl fmt::Display for NoneGoes {
    ghost output = { λ e. Some (none_goes_line e) };

    fn fmt<W: fmt::Write>(&self, f: &mut fmt::Formatter<W>) -> fmt::Result {
        f.write_str("12 none goes")
    }
}

// Retire has no instruction that is done at the head of the buffer.
#[derive(Clone, Copy)]
pub enum RetireFault {
    // nothing is in flight
    Empty = 13,
    // the oldest instruction is not done
    HeadWaits,
}

impl RetireFault {
    pub fn number(self) -> u8
        ensures { result ≡ retire_fault_number self }
    {
        self as u8
    }
}

impl fmt::Display for RetireFault {
    ghost output = { λ e. Some (retire_fault_line e) };

    fn fmt<W: fmt::Write>(&self, f: &mut fmt::Formatter<W>) -> fmt::Result {
        match self {
            RetireFault::Empty => f.write_str("13 empty"),
            RetireFault::HeadWaits => f.write_str("14 head waits"),
        }
    }
}

// A unit has no room for a job.
#[derive(Clone, Copy)]
pub struct NoRoom;

impl NoRoom {
    pub fn number(self) -> u8
        ensures { result ≡ no_room_number self }
    {
        15
    }
}

impl fmt::Display for NoRoom {
    ghost output = { λ e. Some (no_room_line e) };

    fn fmt<W: fmt::Write>(&self, f: &mut fmt::Formatter<W>) -> fmt::Result {
        f.write_str("15 no room")
    }
}

// An instruction that no word holds.
#[derive(Clone, Copy)]
pub enum WriteFault {
    BadRegister = 20,
    BadImmediate,
}

impl WriteFault {
    pub fn number(self) -> u8
        ensures { result ≡ write_fault_number self }
    {
        self as u8
    }
}

impl fmt::Display for WriteFault {
    ghost output = { λ e. Some (write_fault_line e) };

    fn fmt<W: fmt::Write>(&self, f: &mut fmt::Formatter<W>) -> fmt::Result {
        match self {
            WriteFault::BadRegister => f.write_str("20 bad register"),
            WriteFault::BadImmediate => f.write_str("21 bad immediate"),
        }
    }
}

// A word that is none of the 37 instructions.
#[derive(Clone, Copy)]
pub struct IllegalWord {
    pub word: u32,
}

impl IllegalWord {
    pub fn number(self) -> u8
        ensures { result ≡ illegal_word_number self }
    {
        22
    }
}

impl fmt::Display for IllegalWord {
    ghost output = { λ e. Some (illegal_word_line e) };

    fn fmt<W: fmt::Write>(&self, f: &mut fmt::Formatter<W>) -> fmt::Result {
        f.write_str("22 illegal word")
    }
}
