// Runs a program on the core, or on the sequential machine, and writes what its instructions did.
#![tactic(auto)]

mod counts;
mod session;
mod summary;
mod table;

use crate::session::Session;
use command::argument::{ArgumentLine, arguments};
use command::exit::{exit_code, said};
use command::input::read_program;
use command::page::Page;
use engines::{Engine, begin};
use machine::record::Record;
use machine::state::Machine;
use options::arguments::{Options, Report, parse_options};
use report::records::RecordLine;
use report::stops::Stop;
use scheduler::stopped::Stopped;
use std::process::ExitCode;

fn options_of(rt: &HostRuntime) -> Result<Options, Stop> {
    let texts = arguments(rt)?;
    let texts = texts.as_slice();
    parse_options(rt.alloc(), texts).map_err(|bad| said(
        rt.alloc(),
        ArgumentLine::new(texts, bad.place, bad.fault),
    ))
}

// By a match, here and below: a closure for each report would carry the page. The runtime beside it: a page lends no allocator.
fn write_record(
    rt: &HostRuntime,
    page: &mut Page,
    report: Report,
    number: u64,
    record: Record,
) -> Result<(), Stop> {
    match report {
        Report::Summary => Ok(()),
        Report::Records => page.write(format_args!("{}\n", RecordLine(record))),
        Report::Table => {
            let row = table::row(rt.alloc(), number, record)?;
            page.write(format_args!("{row}\n"))
        }
    }
}

// Until the retirements wanted are made, or the budget is spent.
fn run_session<E: Engine>(
    rt: &HostRuntime,
    options: &Options,
    budget: u64,
    session: &mut Session<E>,
    page: &mut Page,
) -> Result<(), Stop> {
    for _ in 0..budget {
        if session.retired >= options.retire {
            break;
        }
        if let Some(record) = session.advance(options.events.as_slice()) {
            write_record(rt, page, options.report, session.retired, record)?;
        }
    }
    Ok(())
}

// After a table a line is left blank.
fn write_summary<E: Engine>(
    page: &mut Page,
    report: Report,
    session: &Session<E>,
) -> Result<(), Stop> {
    let gap = match report {
        Report::Records => return Ok(()),
        Report::Table => "\n",
        Report::Summary => "",
    };
    page.write(format_args!("{gap}{session}"))
}

// A retirement takes at most the wait.
fn run_engine<E: Engine + Drop>(
    rt: &HostRuntime,
    options: &Options,
    words: &[u32],
    wait: u64,
    engine: E,
) -> Result<(), Stop> {
    let engine = begin(rt.alloc(), engine, words, options.pc, options.vector)?;
    let budget = options
        .budget
        .unwrap_or(options.retire.saturating_mul(wait));
    let mut session = Session::new(engine);
    let mut page = Page::new(rt);
    page.write(table::heading(options.report))?;
    run_session(rt, options, budget, &mut session, &mut page)?;
    write_summary(&mut page, options.report, &session)?;
    page.flush()?;
    Ok(())
}

fn run(rt: &HostRuntime) -> Result<(), Stop> {
    let options = options_of(rt)?;
    let words = read_program(rt)?;
    let words = words.as_slice();
    // each engine is a type of its own
    if options.sequential {
        run_engine(rt, &options, words, 1, Machine::new())
    } else {
        let core = Stopped::new(piles::all()).start();
        run_engine(rt, &options, words, piles::LONGEST_WAIT, core)
    }
}

fn main(rt: HostRuntime) -> ExitCode {
    exit_code(&rt, "trace", run(&rt))
}
