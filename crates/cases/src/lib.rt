// The worked cases: as one statement about the definitions, and as tests of the code.
#![tactic(auto)]

ghost use Rattle.cases.specs.Cases.{WorkedCases};

pub fn worked_cases()
    ensures { WorkedCases }
{}

#[cfg(test)]
mod instructions {
    use execute::outcome;
    use isa::instruction::Instruction;
    use isa::operation::Operation;
    use isa::outcome::Outcome;
    use words::write;

    fn addi(rs2: u8, immediate: i32) -> Instruction {
        Instruction {
            operation: Operation::Addi,
            rd: 1,
            rs1: 0,
            rs2,
            immediate,
        }
    }

    // The word, or the refusal's published number, by which refusals are compared.
    fn written(instruction: Instruction) -> Result<u32, u8> {
        write(instruction).map_err(|fault| fault.number())
    }

    fn divided(operation: Operation, a: u32, b: u32) -> Option<u32> {
        let instruction = Instruction {
            operation,
            rd: 3,
            rs1: 1,
            rs2: 2,
            immediate: 0,
        };
        match outcome(instruction, 0, a, b) {
            Some(Outcome::Done { value, .. }) => Some(value),
            _ => None,
        }
    }

    #[test]
    fn words_of_addi(rt: HostRuntime) {
        assert_eq!(rt;
            [
                written(addi(0, 5)),
                written(addi(0, 2047)),
                written(addi(0, 2048)),
                written(addi(1, 2048)),
            ],
            [Ok(0x0050_0093), Ok(0x7ff0_0093), Err(21), Err(20)]
        );
    }

    #[test]
    fn divisions_at_their_edges(rt: HostRuntime) {
        assert_eq!(rt;
            [
                divided(Operation::Div, 7, 0),
                divided(Operation::Rem, 7, 0),
                divided(Operation::Div, 0xffff_fff9, 0),
                divided(Operation::Rem, 0xffff_fff9, 0),
                divided(Operation::Div, 0x8000_0000, 0xffff_ffff),
                divided(Operation::Rem, 0x8000_0000, 0xffff_ffff),
            ],
            [
                Some(0xffff_ffff),
                Some(7),
                Some(0xffff_ffff),
                Some(0xffff_fff9),
                Some(0x8000_0000),
                Some(0),
            ]
        );
    }
}

#[cfg(test)]
mod machine_steps {
    use machine::classes::Classes;
    use machine::record::Retirement;
    use machine::state::Machine;
    use refusal::LoadFault;
    use report::loads::RefusedLoad;
    use std::test::Fail;

    // ADDI x1, x0, 5; ADDI x2, x0, 7; MUL x3, x1, x2
    const PRODUCT: [u32; 3] = [0x0050_0093, 0x0070_0113, 0x0220_81b3];

    // Refusals are compared by their published numbers.
    fn loaded(words: &[u32], pc: u32, vector: u32) -> Result<(), u8> {
        Machine::new()
            .load(words, pc, vector)
            .map_err(|fault| fault.number())
    }

    // The program, loaded to start at pc.
    fn product(pc: u32) -> Machine {
        let mut machine = Machine::new();
        let _ = machine.load(&PRODUCT, pc, 0);
        machine
    }

    #[test]
    fn a_program_runs_off_its_end(rt: HostRuntime) {
        let mut machine = product(0);
        for _ in 0..3 {
            let _ = machine.step(Classes::ALL, false);
        }
        let record = machine.step(Classes::ALL, false);
        assert_eq!(rt; record.outcome, Retirement::Trapped);
        assert_eq!(rt;
            [
                machine.register(3).unwrap_or(0),
                record.value,
                machine.trap_state().mepc,
            ],
            [35, 1, 12]
        );
    }

    #[test]
    fn a_class_that_is_not_served_traps(rt: HostRuntime) {
        let served = Classes {
            multiply: false,
            ..Classes::ALL
        };
        let record = product(8).step(served, false);
        assert_eq!(rt; record.outcome, Retirement::Trapped);
        assert_eq!(rt; record.value, 2);
    }

    #[test]
    fn an_interrupt_follows_the_instruction(rt: HostRuntime) {
        let mut machine = product(0);
        let record = machine.step(Classes::ALL, true);
        assert_eq!(rt; record.outcome, Retirement::Interrupted);
        assert_eq!(rt;
            [
                record.next,
                machine.trap_state().mepc,
                machine.register(1).unwrap_or(0),
            ],
            [0, 4, 5]
        );
    }

    #[test]
    fn load_refuses(rt: HostRuntime) {
        assert_eq!(rt;
            [
                loaded(&[0; 1025], 2, 0),
                loaded(&PRODUCT, 2, 0),
                loaded(&PRODUCT, 0, 6),
                loaded(&[0; 1024], 0, 0),
            ],
            [Err(1), Err(2), Err(2), Ok(())]
        );
    }

    fn refused(fault: LoadFault, pc: u32) -> RefusedLoad {
        RefusedLoad {
            fault,
            words: 1025,
            pc,
            vector: 6,
        }
    }

    #[test]
    fn a_refused_load_names_its_argument(rt: HostRuntime) -> Result<(), Fail> {
        let text = format!(in rt.alloc();
            "{}; {}; {}",
            refused(LoadFault::Overlong, 2),
            refused(LoadFault::Skew, 2),
            refused(LoadFault::Skew, 4)
        )?;
        assert_eq!(rt;
            text.as_str(),
            "1025 words: 1 overlong; --pc 2: 2 skew; --vector 6: 2 skew"
        );
        Ok(())
    }
}

#[cfg(test)]
mod arguments_and_texts {
    use console::lines::WordFault;
    use console::program::{ProgramFault, parse_program};
    use options::arguments::{BadArgument, OptionFault, parse_options};
    use std::test::Fail;

    #[test]
    fn word_with_a_stranger(rt: HostRuntime) {
        let read = parse_program(rt.alloc(), b"13\n 12g4 # no word\n");
        assert!(rt; matches!(read, Err(ProgramFault::BadLine(2, WordFault::NotHex(b'g')))));
    }

    #[test]
    fn unknown_argument(rt: HostRuntime) -> Result<(), Fail> {
        let texts = [String::from_str(rt.alloc(), "--record")?];
        let parsed = parse_options(rt.alloc(), &texts);
        assert!(rt;
            matches!(
                parsed,
                Err(BadArgument {
                    place: 1,
                    fault: OptionFault::Unknown
                })
            )
        );
        Ok(())
    }
}

#[cfg(test)]
mod refused_runs {
    use command::argument::ArgumentLine;
    use command::exit::said;
    use engines::begin;
    use machine::state::Machine;
    use refusal::{LoadFault, NoRegister};
    use report::stops::Stop;
    use std::test::Fail;

    #[test]
    fn a_fault_said(rt: HostRuntime) {
        let stop = said(rt.alloc(), NoRegister { register: 32 });
        assert!(rt; matches!(&stop, Stop::Said(line) if line.as_str() == "3 no register"));
    }

    #[test]
    fn a_load_refused(rt: HostRuntime) {
        let begun = begin(rt.alloc(), Machine::new(), &[0x0000_0073], 0, 6);
        assert!(rt;
            matches!(&begun, Err(Stop::Said(line)) if line.as_str() == "--vector 6: 2 skew")
        );
    }

    #[test]
    fn an_argument_refused(rt: HostRuntime) -> Result<(), Fail> {
        let texts = [String::from_str(rt.alloc(), "--pc")?];
        let text = format!(in rt.alloc();
            "{}; {}",
            ArgumentLine::new(&texts, 1, LoadFault::Skew),
            ArgumentLine::new(&texts, 2, LoadFault::Skew)
        )?;
        assert_eq!(rt;
            text.as_str(),
            "argument 1, `--pc`: 2 skew; argument 2: 2 skew"
        );
        Ok(())
    }
}

#[cfg(test)]
mod piles_of_units {
    use divider::Divider;
    use isa::outcome::Outcome;
    use join::tall_pile;
    use pipelines::multiplier::Multiplier;
    use pipelines::plain::Plain;
    use single::Single;
    use units::job::{Job, Offer};
    use units::unit::Unit;

    // -7 by 0, with tag 3 at address 8
    const DIVISION: Job = Job {
        tag: 3,
        word: 0x0220_c1b3,
        pc: 8,
        a: 0xffff_fff9,
        b: 0,
    };

    // After how many accepted steps the job is offered, and its value.
    fn wait<U: Unit>(unit: &mut U, job: Job) -> Option<(u32, u32)> {
        unit.clear();
        let _ = unit.take(job);
        for steps in 0..200 {
            if let Some(
                Offer {
                    outcome: Outcome::Done { value, .. },
                    ..
                },
            ) = unit.offer()
            {
                return Some((steps, value));
            }
            unit.step(true);
        }
        None
    }

    #[test]
    fn four_joins_deep(rt: HostRuntime) {
        let mut unit = tall_pile(
            Divider::new(),
            Single::new(),
            Plain::new(),
            Multiplier::new(),
            Plain::new(),
        );
        let product = Job {
            word: 0x0220_81b3,
            b: 3,
            ..DIVISION
        };
        assert_eq!(rt;
            [wait(&mut unit, DIVISION), wait(&mut unit, product)],
            [Some((32, 0xffff_ffff)), Some((3, 0xffff_ffeb))]
        );
    }
}
