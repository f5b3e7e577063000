// A writer of interrupt handlers raises the line, and reads the state before and after the handler.
use pipelines::plain::Plain;
use report::hex::Hex8;
use scheduler::running::Running;
use scheduler::stopped::Stopped;
use std::io;

fn show_state(rt: &HostRuntime, core: &Running<Plain>) -> io::Result<()> {
    let machine = core.machine();
    let trap = machine.trap_state();
    let pc = Hex8(machine.pc());
    let mepc = Hex8(trap.mepc);
    let mcause = Hex8(trap.mcause);
    let mie = u8::from(trap.mie);
    let x1 = machine.register(1).unwrap_or(0);
    let x2 = machine.register(2).unwrap_or(0);
    println!(rt; "handlers: pc {pc} mepc {mepc} mcause {mcause} mie {mie} x1 {x1} x2 {x2}")
}

pub(crate) fn show(rt: &HostRuntime) -> io::Result<()> {
    let program = [
        0x0010_0093, // 00: addi x1, x0, 1
        0x0010_8093, // 04: addi x1, x1, 1
        0x0010_8093, // 08: addi x1, x1, 1
        0x0011_0113, // 0c: addi x2, x2, 1, the handler
        0x3020_0073, // 10: mret
    ];
    let mut core = Stopped::new(Plain::new());
    let _ = core.load(&program, 0, 0x0c);
    let mut core = core.start();
    // 5 is the longest wait over the plain unit
    core.run(1, 5);
    core.raise_line();
    core.run(1, 5);
    show_state(rt, &core)?;
    core.drop_line();
    core.run(2, 10);
    show_state(rt, &core)
}
