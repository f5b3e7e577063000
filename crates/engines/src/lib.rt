// What makes the retirements of a run, advance by advance: the sequential machine, or the core over its unit.
#![tactic(auto)]

ghost use Rattle.std.specs.Prelude.{◌≡◌, ◌≤◌, ℕ, Bool, List, Option, IfOk, IfErr};
ghost use Rattle.machine.specs.declared.record.Record.{Record};
ghost use Rattle.std.specs.Result.{result_map_both};
ghost use Rattle.machine.specs.States.{load_answer, load_state};
ghost use Rattle.machine.specs.declared.state.Machine.{Machine};
ghost use Rattle.engines.specs.Retirements.{AdvancesTo};
ghost use Rattle.engines.specs.Engines.{MachineSteps, LinedCycle, LinedCycles, Restarts, Refuses};
ghost use Rattle.engines.specs.Waits.{machine_retires, core_retires};

use command::exit::said;
use machine::classes::Classes;
use machine::record::Record;
use machine::state::Machine;
use refusal::LoadFault;
use report::loads::RefusedLoad;
use report::stops::Stop;
use scheduler::running::Running;
use std::alloc::Global;
use units::unit::Unit;

pub trait Engine {
    // What one advance under a line answers, and leaves.
    ghost Advances: { Bool → Self → Option Record → Self → Type 0 };

    // What at most so many advances come to, up to the first record.
    ghost Retires: { ℕ → Bool → Self → Option Record → Self → Type 0 };

    // What a program that is taken makes of it.
    ghost Restarts: { List ℕ → ℕ → ℕ → Self → Self → Type 0 };

    // As programmers see it.
    ghost machine_of: { Self → Machine };

    // Drops what is in flight, and begins a program. The parameters are those of the published call `load`.
    fn restart(self, words: &[u32], pc: u32, vector: u32) -> Result<Self, LoadFault>
        ensures answer { result_map_both (λ e. tt) (λ f. f) result ≡ load_answer words.now pc vector }
        ensures state { IfOk result (λ e. Restarts words.now pc vector self e) };

    fn advance(&mut self, line: bool) -> Option<Record>
        ensures { Advances line self.old result self.new };

    fn machine(&self) -> &Machine
        ensures { result.now ≡ machine_of self.now };

    ghost advances_retire: { (most : ℕ) (line : Bool) (e : Self) (a : Option Record) (e' : Self) → 1 ≤ most
        → AdvancesTo (Advances line) most e a e' → Retires most line e a e' };
}

impl Engine for Machine {
    ghost Advances = { MachineSteps };

    ghost Retires = { λ most. MachineSteps };

    ghost Restarts = { λ words pc vector m m'. m' ≡ load_state words pc vector m };

    ghost machine_of = { λ m. m };

    ghost advances_retire = { machine_retires };

    fn restart(mut self, words: &[u32], pc: u32, vector: u32) -> Result<Machine, LoadFault> {
        self.load(words, pc, vector)?;
        Ok(self)
    }

    fn advance(&mut self, line: bool) -> Option<Record> {
        Some(self.step(Classes::ALL, line))
    }

    fn machine(&self) -> &Machine {
        self
    }
}

impl<U: Unit + Drop> Engine for Running<U> {
    ghost Advances = { λ line k answer k'. LinedCycle U.Unit.means line k.state answer k'.state };

    ghost Retires = { λ most line k answer k'. LinedCycles U.Unit.means most line k.state answer k'.state };

    ghost Restarts = { λ words pc vector k k'. Restarts U.Unit.means words pc vector k.state k'.state };

    ghost machine_of = { λ k. k.state.core.machine };

    ghost advances_retire = { core_retires U.Unit.means (λ k. k.state) };

    fn restart(self, words: &[u32], pc: u32, vector: u32) -> Result<Running<U>, LoadFault> {
        let mut stopped = self.stop();
        stopped.load(words, pc, vector)?;
        Ok(stopped.start())
    }

    fn advance(&mut self, line: bool) -> Option<Record> {
        self.set_line(line);
        self.cycle()
    }

    fn machine(&self) -> &Machine {
        Running::machine(self)
    }
}

// Begins the program, or says why it is refused.
pub fn begin<E: Engine>(
    heap: Global,
    engine: E,
    words: &[u32],
    pc: u32,
    vector: u32,
) -> Result<E, Stop>
    ensures state { IfOk result (λ e. E.Restarts words.now pc vector engine e) }
    ensures refused { IfErr result (λ stop. Refuses words.now pc vector stop) }
{
    engine.restart(words, pc, vector).map_err(|fault| {
        let words = words.len();
        said(
            heap,
            RefusedLoad {
                fault,
                words,
                pc,
                vector,
            },
        )
    })
}

// The next retirement under the line, or None if so many advances make none.
pub fn next_retirement<E: Engine>(engine: &mut E, line: bool, most: u64) -> Option<Record>
    ensures advances { AdvancesTo (E.Advances line) most engine.old result engine.new }
    ensures retires { 1 ≤ most → E.Retires most line engine.old result engine.new }
{
    // not `find_map`: its contract does not say how its closure leaves the engine, so this was not proved
    for _advance in 0..most {
        let record = engine.advance(line);
        if record.is_some() {
            return record;
        }
    }
    None
}
