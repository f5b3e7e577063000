// The multiply class: up to four jobs, and the oldest is offered once it has waited three steps.
ghost use Rattle.std.proofs.Common.{arith};
ghost use Rattle.pipelines.specs.Services.{serves_multiply};

use crate::pipeline::{Pipeline, Service};
use isa::operation::Class;

pub type Multiplier = Pipeline<MultiplyService>;

pub enum MultiplyService {}

impl Service for MultiplyService {
    ghost LATENCY = { 3 };

    ghost CAPACITY = { 4 };

    ghost serves = { serves_multiply };

    ghost capacity = { (omega arith, omega arith) };

    const LATENCY: u8 = 3;

    const CAPACITY: u8 = 4;

    fn serves(class: Class) -> bool {
        matches!(class, Class::Multiply)
    }
}
