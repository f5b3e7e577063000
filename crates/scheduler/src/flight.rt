// What the calls do to the core without its unit.
ghost use Rattle.std.specs.Prelude.{◌≡◌, Some};
ghost use Rattle.machine.specs.Step.{word_or0};
ghost use Rattle.law.specs.Steps.{brings, operand_of, fetched_word, entry_for, new_station, needs_station, stations_for, issue_answer, completed_by, diverts, stepped, retired_on, flushed};
ghost use Rattle.scheduler.specs.Flights.{issue_state, with_stations};

use isa::instruction::Instruction;
use isa::operation::Class;
use law::state::Core;
use machine::decode::{Decoded, decode};
use machine::judgement::Judgement;
use machine::record::Record;
use machine::step::judge_outcome;
use refusal::IssueFault;
use tables::entry::Entry;
use tables::station::{Operand, Station};
use units::job::Offer;

// What a result brings to those that wait for it: a cause brings 0.
fn brought(judgement: Judgement) -> u32
    ensures { result ≡ brings judgement }
{
    match judgement {
        Judgement::Write { value, .. } => value,
        Judgement::Trap(_) | Judgement::Return => 0,
    }
}

// From the register, or from the entry that its tag names if that is done, else it waits.
fn operand(core: &Core, register: u8) -> Operand
    ensures { result ≡ operand_of core.now register }
{
    let Some(tag) = core.tags.get(register) else {
        return Operand::Value(core.machine.operand(register));
    };
    let Some(judgement) = core.buffer.entry(tag).result else {
        return Operand::Awaits(tag);
    };
    Operand::Value(brought(judgement))
}

// A trap and MRET are done at once; other words wait for their outcome.
fn entry_for(pc: u32, word: u32, decoded: Decoded) -> Entry
    ensures { result ≡ entry_for pc word decoded }
{
    let (destination, result) = match decoded {
        Decoded::Trap(cause) => (0, Some(Judgement::Trap(cause))),
        Decoded::Return => (0, Some(Judgement::Return)),
        Decoded::Work(_, instruction) => (instruction.rd, None),
    };
    Entry {
        pc,
        word,
        destination,
        result,
    }
}

fn needs_station(decoded: Decoded) -> bool
    ensures { result ≡ needs_station decoded }
{
    matches!(decoded, Decoded::Work(_, _))
}

fn new_station(core: &Core, class: Class, instruction: Instruction, word: u32) -> Station
    requires { word ≡ word_or0 (fetched_word core.now) }
    ensures { result ≡ new_station core.now class instruction }
{
    Station {
        tag: core.buffer.next_slot(),
        class,
        word,
        pc: core.fetch,
        a: operand(core, instruction.rs1),
        b: operand(core, instruction.rs2),
    }
}

fn take_station(core: &mut Core, decoded: Decoded, word: u32)
    requires { word ≡ word_or0 (fetched_word core.old) }
    ensures { core.new ≡ with_stations (stations_for decoded core.old) core.old }
{
    if let Decoded::Work(class, instruction) = decoded {
        let station = new_station(core, class, instruction, word);
        core.stations.place(station);
    }
}

pub(crate) fn issue(core: &mut Core) -> Result<u8, IssueFault>
    ensures answer { result ≡ issue_answer core.old }
    ensures state { core.new ≡ issue_state core.old }
{
    if core.buffer.is_full() {
        return Err(IssueFault::BufferFull);
    }
    let fetched = core.machine.word_at(core.fetch);
    let decoded = decode(core.served, fetched);
    if needs_station(decoded) && !core.stations.has_free() {
        return Err(IssueFault::NoStation);
    }
    let word = fetched.unwrap_or(0);
    let entry = entry_for(core.fetch, word, decoded);
    let slot = core.buffer.next_slot();
    // the operands are read before the destination is tagged
    take_station(core, decoded, word);
    core.tags.set(entry.destination, slot);
    core.fetch = core.fetch.wrapping_add(4);
    core.buffer.push(entry)
}

// The entry whose tag arrived is done, and each operand that waits for it is filled.
pub(crate) fn finish(core: &mut Core, offer: Offer)
    ensures { core.new ≡ completed_by (Some offer) core.old }
{
    let Offer { tag, outcome } = offer;
    let destination = core.buffer.entry(tag).destination;
    let judgement = judge_outcome(destination, Some(outcome));
    core.buffer.finish(tag, judgement);
    core.stations.wake(tag, brought(judgement));
}

// Nothing younger may go on after a trap, MRET, an interrupt, or to an address other than pc + 4.
pub(crate) fn diverts(core: &Core, judgement: Judgement) -> bool
    ensures { result ≡ diverts core.now.line judgement core.now.machine }
{
    match judgement {
        Judgement::Trap(_) | Judgement::Return => true,
        Judgement::Write { next, .. } => {
            next != core.machine.pc().wrapping_add(4)
                || (core.line && core.machine.trap_state().mie)
        }
    }
}

// The oldest entry leaves; a younger writer of its destination keeps its tag there.
pub(crate) fn retire_on(core: &mut Core, entry: Entry, judgement: Judgement) -> Record
    ensures state { core.new ≡ retired_on core.old entry judgement }
    ensures answer { result ≡ (stepped core.old entry judgement).1 }
{
    let head = core.buffer.head();
    core.tags.release(entry.destination, head);
    core.buffer.pop();
    core.machine.apply(core.line, entry.word, judgement)
}

// Everything in flight is dropped.
pub(crate) fn flush(core: &mut Core, entry: Entry, judgement: Judgement) -> Record
    ensures state { core.new ≡ flushed core.old entry judgement }
    ensures answer { result ≡ (stepped core.old entry judgement).1 }
{
    let record = core.machine.apply(core.line, entry.word, judgement);
    core.fetch = core.machine.pc();
    core.buffer.clear();
    core.stations.clear();
    core.tags.clear();
    record
}
