//! Command lines as texts, and what they mean in words.

use hpx_options::options::read;
use hpx_options::settings::{Mode, OptionFault, Settings};
use hpx_value::items::{Items, Text, Texts};
use hpx_value::memory::OutOfMemory;
use std::alloc::{AllocError, Global};

/// The words of a line, which stand between blanks.
pub fn words(alloc: Global, line: &str) -> Result<Texts, OutOfMemory> {
    let mut words = Items::new(alloc);
    for word in line.split(' ') {
        if !word.is_empty() {
            words.push(Text::from_vec(Vec::from_slice(alloc, word.as_bytes())?))?;
        }
    }
    Ok(words)
}

/// What a line means: the application, and what is not as usual; or the place that is refused.
pub fn meaning(alloc: Global, line: &str) -> Result<String, AllocError> {
    let words = match words(alloc, line) {
        Ok(words) => words,
        Err(OutOfMemory) => return Err(AllocError),
    };
    match read(&words) {
        Ok(settings) => described(alloc, &settings),
        Err(OptionFault { place }) => format!(in alloc; "bad word {place}"),
    }
}

/// The application, and what is not as usual.
fn described(alloc: Global, settings: &Settings) -> Result<String, AllocError> {
    let app = settings.app;
    let mut text = format!(in alloc; "{app:?}")?;
    let localities = settings.localities;
    if localities != 1 {
        text.push_str(format!(in alloc; ", {localities} localities")?.as_str())?;
    }
    let threads = settings.threads;
    if threads != 1 {
        text.push_str(format!(in alloc; ", {threads} threads")?.as_str())?;
    }
    let log = settings.profile.credit_log;
    if log != 31 {
        text.push_str(format!(in alloc; ", log {log}")?.as_str())?;
    }
    let limit = settings.profile.credit_limit;
    if limit != 1 << 100 {
        text.push_str(format!(in alloc; ", limit {limit}")?.as_str())?;
    }
    let cache = settings.profile.cache;
    if cache != 64 {
        text.push_str(format!(in alloc; ", cache {cache}")?.as_str())?;
    }
    for counter in settings.counters.as_slice() {
        let what = counter.what;
        let locality = counter.locality;
        text.push_str(format!(in alloc; ", {what:?} at {locality}")?.as_str())?;
    }
    if settings.mode != Mode::Hosted {
        let mode = settings.mode;
        text.push_str(format!(in alloc; ", {mode:?}")?.as_str())?;
    }
    if settings.settle {
        text.push_str(", settles")?;
    }
    if settings.journal {
        text.push_str(", journal")?;
    }
    Ok(text)
}
