// A designer of a functional unit hangs it under the core, alone and beside another.
use join::Join;
use pipelines::multiplier::Multiplier;
use scheduler::stopped::Stopped;
use single::Single;
use std::io;
use units::unit::Unit;

fn try_unit<U: Unit + Drop>(rt: &HostRuntime, unit: U, budget: u64) -> io::Result<()> {
    let mut core = Stopped::new(unit);
    // addi x1, x0, 5; mul x3, x1, x1
    let _ = core.load(&[0x0050_0093, 0x0210_81b3], 0, 0);
    let mut core = core.start();
    core.run(2, budget);
    let x3 = core.machine().register(3).unwrap_or(0);
    let trap = core.machine().trap_state();
    println!(rt;
        "designers: x3 {x3} mepc {} mcause {}",
        trap.mepc, trap.mcause
    )
}

// The longest waits are 4 and 29.
pub(crate) fn show(rt: &HostRuntime) -> io::Result<()> {
    try_unit(rt, Single::new(), 2 * 4)?;
    let both = Join::new(Single::new(), Multiplier::new());
    try_unit(rt, both, 2 * 29)
}
