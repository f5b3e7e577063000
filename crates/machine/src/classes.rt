// The classes of instructions that the units under a core serve.
ghost use Rattle.std.specs.Prelude.{◌≡◌};
ghost use Rattle.machine.specs.Classes.{serves};

use isa::operation::Class;

#[derive(Clone, Copy)]
pub struct Classes {
    pub plain: bool,
    pub multiply: bool,
    pub divide: bool,
    pub transfer: bool,
}

impl Classes {
    pub const ALL: Classes = Classes {
        plain: true,
        multiply: true,
        divide: true,
        transfer: true,
    };

    pub fn has(self, class: Class) -> bool
        ensures { result ≡ serves self class }
    {
        match class {
            Class::Plain => self.plain,
            Class::Multiply => self.multiply,
            Class::Divide => self.divide,
            Class::Transfer => self.transfer,
        }
    }
}
