// The table of program words: n words at the addresses 0 to 4 n - 4.
ghost use Rattle.std.specs.Prelude.{◌≡◌, ◌≤◌, ◌++◌, length, drop};
ghost use Rattle.machine.specs.Programs.{no_program, program_of, word_at};

// A fixed table, since machines are copied, and a vector of fixed room is not; load copies into it.
#[derive(Clone, Copy)]
pub struct Program {
    words: [u32; 1024],
    len: usize,
}

impl Program {
    pub(crate) const CAPACITY: usize = 1024;

    pub(crate) fn empty() -> Program
        ensures { result ≡ no_program }
    {
        Program {
            words: [0; 1024],
            len: 0,
        }
    }

    // The caller has refused more words than the table holds.
    pub(crate) fn of_words(words: &[u32]) -> Program
        requires { length words.now ≤ 1024 }
        ensures { result ≡ program_of words.now }
    {
        let mut table = [0; 1024];
        copy_to_front(&mut table, words);
        Program {
            words: table,
            len: words.len(),
        }
    }

    pub(crate) fn word_at(&self, address: u32) -> Option<u32>
        ensures { result ≡ word_at self.now address }
    {
        let index = (address / 4) as usize;
        if address % 4 != 0 || index >= self.len {
            return None;
        }
        self.words.get(index).copied()
    }
}

fn copy_to_front(table: &mut [u32], words: &[u32])
    requires { length words.now ≤ length table.old }
    ensures { table.new ≡ words.now ++ drop (length words.now) table.old }
{
    table[..words.len()].copy_from_slice(words);
}
