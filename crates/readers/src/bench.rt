// A bench passes or fails a netlist by its retirement records.
use machine::record::{Record, Retirement};
use pipelines::plain::Plain;
use report::records::RecordLine;
use scheduler::stopped::Stopped;
use std::io;

// What the netlist reports of the program below. Its difference is wrong.
const NETLIST: [Record; 3] = [
    Record {
        pc: 0x00,
        word: 0x0050_0093,
        outcome: Retirement::Plain,
        destination: 1,
        value: 5,
        next: 0x04,
    },
    Record {
        pc: 0x04,
        word: 0x0070_0113,
        outcome: Retirement::Plain,
        destination: 2,
        value: 7,
        next: 0x08,
    },
    Record {
        pc: 0x08,
        word: 0x4020_81b3,
        outcome: Retirement::Plain,
        destination: 3,
        value: 2,
        next: 0x0c,
    },
];

pub(crate) fn show(rt: &HostRuntime) -> io::Result<()> {
    let mut core = Stopped::new(Plain::new());
    // addi x1, x0, 5; addi x2, x0, 7; sub x3, x1, x2
    let _ = core.load(&[0x0050_0093, 0x0070_0113, 0x4020_81b3], 0, 0);
    let mut core = core.start();
    for reported in NETLIST {
        let _ = core.issue();
        let _ = core.dispatch();
        core.complete();
        let Ok(record) = core.retire() else {
            return println!(rt; "bench: no record");
        };
        let passes = record == reported;
        println!(rt; "bench: {} {passes}", RecordLine(record))?;
    }
    Ok(())
}
