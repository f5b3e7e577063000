// The worked schedules, as tests of the core: what is refused when, in which cycle an instruction retires,
// what a budget suffices for, and an interrupt at every place of a program.
#![tactic(auto)]

#[cfg(test)]
mod cores {
    use scheduler::running::Running;
    use scheduler::stopped::Stopped;
    use std::test::Fail;
    use units::unit::Unit;

    // A core at address 0 of the words, with the handler at the vector.
    pub(crate) fn started<U: Unit + Drop>(
        unit: U,
        words: &[u32],
        vector: u32,
    ) -> Result<Running<U>, Fail> {
        let mut stopped = Stopped::new(unit);
        stopped
            .load(words, 0, vector)
            .map_err(|fault| Fail::new(format_args!("load refused: {fault}")))?;
        Ok(stopped.start())
    }
}

#[cfg(test)]
mod refusals {
    use crate::cores::started;
    use pipelines::plain::Plain;
    use std::test::Fail;
    use units::unit::Unit;

    // How many words the core issues, and the published number of the refusal after them, by which refusals are compared.
    fn issued(words: &[u32]) -> Result<(u8, u8), Fail> {
        let mut core = started(Plain::new(), words, 0)?;
        for tag in 0u8..20 {
            match core.issue() {
                Ok(answer) if answer == tag => {}
                Ok(_) => return Err(Fail::new("another tag")),
                Err(fault) => return Ok((tag, fault.number())),
            }
        }
        Err(Fail::new("no refusal"))
    }

    // A test for each refusal of issue.
    #[test]
    fn the_ninth_addi_finds_no_station(rt: HostRuntime) -> Result<(), Fail> {
        assert_eq!(rt; issued(&[0x0050_0093; 9])?, (8, 11));
        Ok(())
    }

    #[test]
    fn the_seventeenth_ecall_finds_the_buffer_full(rt: HostRuntime) -> Result<(), Fail> {
        assert_eq!(rt; issued(&[0x0000_0073; 17])?, (16, 10));
        Ok(())
    }
}

#[cfg(test)]
mod budgets {
    use crate::cores::started;
    use divider::Divider;
    use pipelines::multiplier::Multiplier;
    use pipelines::plain::Plain;
    use std::test::Fail;
    use units::unit::Unit;

    // ADDI x1, x1, 1; MUL x2, x1, x1; DIV x3, x2, x1; BNE x1, x0, -12
    const LOOP: [u32; 4] = [0x0010_8093, 0x0210_8133, 0x0211_41b3, 0xfe00_9ae3];

    // Cycles and retirements of a run from the start, as two numbers: `Ran` has no equality.
    fn run<U: Unit + Drop>(
        unit: U,
        words: &[u32],
        wanted: u64,
        budget: u64,
    ) -> Result<(u64, u64), Fail> {
        let ran = started(unit, words, 0)?.run(wanted, budget);
        Ok((ran.cycles, ran.retirements))
    }

    // Whether 20 times the longest wait is budget enough for 20 retirements.
    fn suffices<U: Unit + Drop>(unit: U, longest: u64) -> Result<bool, Fail> {
        let budget = longest.saturating_mul(20);
        let (cycles, retirements) = run(unit, &LOOP, 20, budget)?;
        Ok(retirements == 20 && cycles <= budget)
    }

    // What the unit does not serve traps.
    #[test]
    fn twenty_longest_waits(rt: HostRuntime) -> Result<(), Fail> {
        assert!(rt; suffices(Plain::new(), 5)?);
        assert!(rt; suffices(Multiplier::new(), 15)?);
        assert!(rt; suffices(Divider::new(), 67)?);
        assert!(rt; suffices(piles::all(), piles::LONGEST_WAIT)?);
        assert!(rt; suffices(piles::deep(), piles::DEEP_LONGEST_WAIT)?);
        Ok(())
    }

    // Issued in one cycle, sent to the unit in the next, offered in the next, retired in the next.
    #[test]
    fn an_addi_retires_in_the_fourth_cycle(rt: HostRuntime) -> Result<(), Fail> {
        let words = [0x0010_8093; 3];
        assert_eq!(rt; run(Plain::new(), &words, 1, 3)?, (3, 0));
        assert_eq!(rt; run(Plain::new(), &words, 1, 9)?, (4, 1));
        assert_eq!(rt; run(Plain::new(), &words, 3, 5)?, (5, 2));
        assert_eq!(rt; run(Plain::new(), &words, 3, 6)?, (6, 3));
        Ok(())
    }

    // A product is offered three steps later, a quotient 32: a line for each budget, the last that is too short and
    // the first that is not.
    #[test]
    fn a_budget_of_one_cycle_less(rt: HostRuntime) -> Result<(), Fail> {
        assert_eq!(rt; run(Multiplier::new(), &[0x0210_8133], 1, 6)?, (6, 0));
        assert_eq!(rt; run(Multiplier::new(), &[0x0210_8133], 1, 7)?, (7, 1));
        assert_eq!(rt; run(Divider::new(), &[0x0211_41b3], 1, 35)?, (35, 0));
        assert_eq!(rt; run(Divider::new(), &[0x0211_41b3], 1, 36)?, (36, 1));
        Ok(())
    }
}

#[cfg(test)]
mod interrupts {
    use crate::cores::started;
    use engines::{Engine, next_retirement};
    use machine::record::Retirement;
    use machine::state::Machine;
    use scheduler::running::Running;
    use std::process::Abort;
    use std::test::Fail;
    use units::unit::Unit;

    // 00  ADDI x1, x0, 5
    // 04  MUL x3, x1, x1
    // 08  DIV x4, x3, x1
    // 0c  ADDI x1, x1, -1
    // 10  BNE x1, x0, -12
    // 14  ECALL
    // 18  ADDI x20, x20, 1, the handler
    // 1c  MRET
    const WORDS: [u32; 8] = [
        0x0050_0093,
        0x0210_81b3,
        0x0211_c233,
        0xfff0_8093,
        0xfe00_9ae3,
        0x0000_0073,
        0x001a_0a13,
        0x3020_0073,
    ];

    const VECTOR: u32 = 0x18;

    const RETIREMENTS: u32 = 32;

    // The line is up during one retirement, and down during the others. How many interrupts there were.
    fn follow<U: Unit + Drop>(
        rt: &impl Abort,
        core: &mut Running<U>,
        machine: &mut Machine,
        up: u32,
    ) -> u32 {
        let mut interrupts = 0u32;
        for i in 0..RETIREMENTS {
            let line = i == up;
            let record = next_retirement(core, line, piles::LONGEST_WAIT);
            assert_eq!(rt; record, machine.advance(line));
            if record.is_some_and(|record| record.outcome == Retirement::Interrupted) {
                interrupts = interrupts.saturating_add(1);
            }
        }
        assert_eq!(rt; core.machine().registers(), machine.registers());
        interrupts
    }

    // 21 retirements lead to the ECALL, and then its trap, the handler's ADDI and the MRET take turns. Of these the MRET
    // alone is interrupted: a trap never is, and the handler runs with MIE 0.
    fn taken(up: u32) -> u32 {
        u32::from(up < 21 || up % 3 == 2)
    }

    #[test]
    fn at_every_retirement(rt: HostRuntime) -> Result<(), Fail> {
        for up in 0..RETIREMENTS {
            let mut core = started(piles::all(), &WORDS, VECTOR)?;
            let mut machine = Machine::new();
            assert!(rt; machine.load(&WORDS, 0, VECTOR).is_ok());
            assert_eq!(rt; follow(&rt, &mut core, &mut machine, up), taken(up));
            assert_eq!(rt; core.machine().pc(), machine.pc());
            assert_eq!(rt; core.machine().trap_state().mepc, machine.trap_state().mepc);
            assert_eq!(rt;
                core.machine().trap_state().mcause,
                machine.trap_state().mcause
            );
        }
        Ok(())
    }
}
