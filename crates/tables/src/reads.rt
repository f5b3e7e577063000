// What the reorder buffer holds.
ghost use Rattle.std.specs.Prelude.{◌≡◌};
ghost use Rattle.tables.specs.Buffers.{entry_in, slot_at, full, oldest_entry, next_slot};

use crate::buffer::Buffer;
use crate::entry::Entry;

impl Buffer {
    pub fn head(&self) -> u8
        ensures { result ≡ self.now.head }
    {
        self.head
    }

    pub fn len(&self) -> u8
        ensures { result ≡ self.now.count }
    {
        self.count
    }

    pub fn is_full(&self) -> bool
        ensures { result ≡ full self.now }
    {
        self.len() >= 16
    }

    // The slot of the entry with so many older ones before it.
    pub(crate) fn slot_at(&self, older: u8) -> u8
        ensures { result ≡ slot_at self.now older }
    {
        older.wrapping_add(self.head) % 16
    }

    pub fn next_slot(&self) -> u8
        ensures { result ≡ next_slot self.now }
    {
        self.slot_at(self.len())
    }

    pub fn entry(&self, tag: u8) -> Entry
        ensures { result ≡ entry_in self.now tag }
    {
        self.entries
            .get(usize::from(tag))
            .copied()
            .unwrap_or(Entry::BLANK)
    }

    pub fn oldest(&self) -> Option<Entry>
        ensures { result ≡ oldest_entry self.now }
    {
        if self.len() == 0 {
            return None;
        }
        Some(self.entry(self.slot_at(0)))
    }
}
