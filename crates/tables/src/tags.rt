// For each register the tag of the youngest entry that will write it.
ghost use Rattle.std.specs.Prelude.{◌≡◌};
ghost use Rattle.tables.specs.Tagging.{no_tags, tag_of, tagged, untagged};

#[derive(Clone, Copy)]
pub struct Tags {
    tags: [Option<u8>; 32],
}

impl Tags {
    pub fn new() -> Tags
        ensures { result ≡ no_tags }
    {
        Tags { tags: [None; 32] }
    }

    pub fn get(&self, register: u8) -> Option<u8>
        ensures { result ≡ tag_of self.now register }
    {
        self.tags.get(usize::from(register)).copied().flatten()
    }

    // Register 0 is never written.
    pub fn set(&mut self, register: u8, tag: u8)
        ensures { self.new ≡ tagged register tag self.old }
    {
        if let 1..32 = register {
            self.tags[usize::from(register)] = Some(tag);
        }
    }

    // A younger writer of the register keeps its tag.
    pub fn release(&mut self, register: u8, tag: u8)
        ensures { self.new ≡ untagged register tag self.old }
    {
        if self.get(register) == Some(tag) {
            self.tags[usize::from(register)] = None;
        }
    }

    pub fn clear(&mut self)
        ensures { self.new ≡ no_tags }
    {
        *self = Tags::new();
    }
}
