// A timing tool adds up the longest wait, from the longest stays of the units.
ghost use Rattle.std.specs.Prelude.{◌≡◌};
ghost use Rattle.law.specs.Laws.{wait};

use divider::Divider;
use scheduler::stopped::Stopped;
use std::io;

// The longest stay of a join.
fn join(left: u32, right: u32) -> u32 {
    left.max(right).saturating_mul(2)
}

// The longest wait of a core, by the longest stay of its unit.
fn longest_wait(stay: u32) -> u64
    ensures { result ≡ wait stay }
{
    let stay = u64::from(stay);
    (stay + 3).max(2 * stay + 1)
}

pub(crate) fn show_waits(rt: &HostRuntime) -> io::Result<()> {
    let pile = join(join(2, 7), 33);
    let deep = join(join(2, 2), join(7, 33));
    for stay in [1, 2, 7, 33, pile, deep] {
        println!(rt; "timing: D {stay} W {}", longest_wait(stay))?;
    }
    Ok(())
}

pub(crate) fn show_run(rt: &HostRuntime) -> io::Result<()> {
    let mut core = Stopped::new(Divider::new());
    // div x3, x1, x2, three times
    let _ = core.load(&[0x0220_c1b3, 0x0220_c1b3, 0x0220_c1b3], 0, 0);
    let mut core = core.start();
    let ran = core.run(3, 3 * 67);
    println!(rt;
        "timing: {} retirements in {} cycles",
        ran.retirements, ran.cycles
    )
}
