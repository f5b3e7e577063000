// Jobs, from text: one a line, as five numbers, with a comment from a `#` that begins a word.
use command::exit::said;
use options::addresses::parse_address;
use report::stops::Stop;
use std::alloc::Global;
use std::fmt;
use units::job::Job;

// A line that is no job.
#[derive(Clone, Copy)]
struct NoJob<'a>(&'a str);

impl<'a> fmt::Display for NoJob<'a> {
    fn fmt<W: fmt::Write>(&self, f: &mut fmt::Formatter<W>) -> fmt::Result {
        write!(f, "`{}` is no job: tag, word, pc, a, b", self.0)
    }
}

fn number(text: Option<&str>) -> Option<u32> {
    parse_address(text?.as_bytes()).ok()
}

// A job is five numbers: tag, word, pc, a, b. None for a line with nothing on it.
fn parse_line(line: &str) -> Result<Option<Job>, NoJob<'_>> {
    let mut texts = line
        .split_whitespace()
        .take_while(|text| !text.starts_with('#'));
    let first = texts.next();
    if first.is_none() {
        return Ok(None);
    }
    let fields = [
        number(first),
        number(texts.next()),
        number(texts.next()),
        number(texts.next()),
        number(texts.next()),
    ];
    let [Some(tag), Some(word), Some(pc), Some(a), Some(b)] = fields else {
        return Err(NoJob(line));
    };
    match u8::try_from(tag) {
        Ok(tag) if texts.next().is_none() => Ok(Some(Job {
            tag,
            word,
            pc,
            a,
            b,
        })),
        _ => Err(NoJob(line)),
    }
}

pub(crate) fn parse_jobs(heap: Global, text: &str) -> Result<Vec<Job>, Stop> {
    let mut jobs = Vec::new(heap);
    for line in text.lines() {
        if let Some(job) = parse_line(line).map_err(|fault| said(heap, fault))? {
            jobs.push(job)?;
        }
    }
    Ok(jobs)
}
