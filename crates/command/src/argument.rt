// The arguments, and a refused one in a line for people.
ghost use Rattle.std.specs.Prelude.{◌≡◌, ◌-◌, map, string_bytes, slice_get};
ghost use Rattle.std.specs.Option.{option_map};
ghost use Rattle.command.specs.Arguments.{argument_line};

use report::stops::Stop;
use std::{env, fmt};

// All but the first, which is the program's own name.
pub fn arguments(rt: &HostRuntime) -> Result<Vec<String>, Stop> {
    Ok(env::args(rt)?.skip(1).collect(rt.alloc())?)
}

// The argument at the place, counted from 1, its text where there is one, and its fault.
#[derive(Drop)]
pub struct ArgumentLine<'a, F> {
    pub place: usize,
    pub text: Option<&'a str>,
    pub fault: F,
}

impl<'a, F> ArgumentLine<'a, F> {
    pub fn new(texts: &'a [String], place: usize, fault: F) -> ArgumentLine<'a, F>
        ensures place { result.place ≡ place }
        ensures text { option_map (λ t. t.now) result.text ≡ slice_get (map string_bytes texts.now) (place - 1) }
        ensures fault { result.fault ≡ fault }
    {
        let text = texts.get(place.saturating_sub(1)).map(String::as_str);
        ArgumentLine { place, text, fault }
    }
}

impl<'a, F: fmt::Display> fmt::Display for ArgumentLine<'a, F> {
    ghost output = { λ l. option_map (argument_line l.place (option_map (λ t. t.now) l.text)) (F.output l.fault) };

    fn fmt<W: fmt::Write>(&self, f: &mut fmt::Formatter<W>) -> fmt::Result {
        let ArgumentLine { place, text, fault } = self;
        match text {
            Some(text) => write!(f, "argument {place}, `{text}`: {fault}"),
            None => write!(f, "argument {place}: {fault}"),
        }
    }
}
