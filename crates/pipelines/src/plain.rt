// The plain and the transfer class: up to two jobs, and the oldest is always offered.
ghost use Rattle.std.proofs.Common.{arith};
ghost use Rattle.pipelines.specs.Services.{serves_plain};

use crate::pipeline::{Pipeline, Service};
use isa::operation::Class;

pub type Plain = Pipeline<PlainService>;

pub enum PlainService {}

impl Service for PlainService {
    ghost LATENCY = { 0 };

    ghost CAPACITY = { 2 };

    ghost serves = { serves_plain };

    ghost capacity = { (omega arith, omega arith) };

    const LATENCY: u8 = 0;

    const CAPACITY: u8 = 2;

    fn serves(class: Class) -> bool {
        matches!(class, Class::Plain | Class::Transfer)
    }
}
