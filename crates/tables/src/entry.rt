// One instruction in the reorder buffer.
ghost use Rattle.std.specs.Prelude.{◌≡◌};
ghost use Rattle.tables.specs.Buffers.{with_result};

use machine::judgement::Judgement;

// Word and destination are 0 for none, as in the record that they go to.
#[derive(Clone, Copy)]
pub struct Entry {
    pub pc: u32,
    // 0 where pc is outside the program
    pub word: u32,
    // 0 where no register is written
    pub destination: u8,
    // None until the instruction is done
    pub result: Option<Judgement>,
}

impl Entry {
    // What a slot holds before it is used.
    pub(crate) const BLANK: Entry = Entry {
        pc: 0,
        word: 0,
        destination: 0,
        result: None,
    };

    pub(crate) fn finish(&mut self, judgement: Judgement)
        ensures { self.new ≡ with_result judgement self.old }
    {
        self.result = Some(judgement);
    }
}
