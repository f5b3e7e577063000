// The reorder buffer: 16 entries, first in first out. The slot of an entry is its tag; slots go round.
ghost use Rattle.std.specs.Prelude.{◌≡◌};
ghost use Rattle.tables.specs.Buffers.{no_entries, entry_in, push_answer, push_state, popped, emptied, with_result, replaced};

use crate::entry::Entry;
use machine::judgement::Judgement;
use refusal::IssueFault;

// A ring of fixed size, since a core has no heap and the slot of an entry is its tag.
#[derive(Clone, Copy)]
pub struct Buffer {
    pub(crate) entries: [Entry; 16],
    // the slot of the oldest entry
    pub(crate) head: u8,
    pub(crate) count: u8,
}

impl Buffer {
    pub fn new() -> Buffer
        ensures { result ≡ no_entries }
    {
        Buffer {
            entries: [Entry::BLANK; 16],
            head: 0,
            count: 0,
        }
    }

    pub fn push(&mut self, entry: Entry) -> Result<u8, IssueFault>
        ensures state { self.new ≡ push_state entry self.old }
        ensures answer { result ≡ push_answer self.old }
    {
        if self.is_full() {
            return Err(IssueFault::BufferFull);
        }
        let slot = self.next_slot();
        self.entries[usize::from(slot)] = entry;
        self.count += 1;
        Ok(slot)
    }

    // The entry in a slot is lent, and changed in place. Not by `get_mut`: its contract does not say what a write to
    // what it lends changes.
    pub fn finish(&mut self, tag: u8, judgement: Judgement)
        ensures { self.new ≡ replaced tag (with_result judgement (entry_in self.old tag)) self.old }
    {
        let slot = usize::from(tag);
        if slot < self.entries.len() {
            self.entries[slot].finish(judgement);
        }
    }

    // The oldest leaves.
    pub fn pop(&mut self)
        ensures { self.new ≡ popped self.old }
    {
        self.head = self.slot_at(1);
        self.count = self.count.saturating_sub(1);
    }

    // The slots keep what they hold: they are written again before a tag names them.
    pub fn clear(&mut self)
        ensures { self.new ≡ emptied self.old }
    {
        self.head = 0;
        self.count = 0;
    }
}
