//! What was read of a command line so far, word by word.
ghost use Rattle.std.specs.Prelude.{◌≡◌, ◌==◌, ◌<◌, length, position, option_map, IfSome};
ghost use Rattle.hpx_options.specs.Words.{name_part, value_part, datum_in, empty_line, value_at, is_open, with_value, with_counter, after_key, after_value, after_head, after_application, after_word};

use crate::number::{number, op_named, port};
use crate::settings::{Counters, Op};
use crate::table::{
    Application, Form, OPTIONS, OptionName, application_named, key_named, option_named,
};
use hpx_counters::counters;

/// What an option was given.
#[derive(Clone, Copy, Debug, PartialEq, Eq)]
pub enum Datum {
    Nothing,
    Number(u32),
    /// The log of a credit.
    Log(u8),
    /// A limit of credit.
    Limit(u128),
    Port(u16),
    Op(Op),
}

/// What was read of a command line so far.
#[derive(Drop)]
pub(crate) struct Line {
    pub(crate) application: Option<Application>,
    /// What each option was given, by its place in the table.
    pub(crate) values: [Option<Datum>; OPTIONS],
    pub(crate) counters: Counters,
    /// The option whose value is the next word.
    pub(crate) awaited: Option<OptionName>,
}

impl Form {
    /// What a text gives an option of this form; None where it does not fit.
    fn datum(self, text: &[u8]) -> Option<Datum>
        ensures { result ≡ datum_in self text.now }
    {
        match self {
            Form::Numbers { least, greatest } => {
                let n = number(text, least.into(), greatest.into())?;
                Some(Datum::Number(n as u32))
            }
            Form::Logs { least, greatest } => {
                let n = number(text, least.into(), greatest.into())?;
                Some(Datum::Log(n as u8))
            }
            Form::Limits { least, greatest } => Some(Datum::Limit(number(text, least, greatest)?)),
            Form::Ports { greatest } => Some(Datum::Port(port(text, greatest)?)),
            Form::Ops => Some(Datum::Op(op_named(text)?)),
            Form::Bare | Form::Counters | Form::Keys => None,
        }
    }
}

/// The place of the first `=` in a word.
fn equals_sign(word: &[u8]) -> Option<usize>
    ensures place { result ≡ position (λ b. b == 61) word.now }
    ensures within { IfSome result (λ i. i < length word.now) }
{
    word.iter().position(|b| *b == b'=')
}

/// The name in a word: the bytes before its first `=`; and the value behind that, where there is one.
fn parts(word: &[u8]) -> (&[u8], Option<&[u8]>)
    ensures name { result.0.now ≡ name_part word.now }
    ensures value { option_map (λ v. v.now) result.1 ≡ value_part word.now }
{
    match equals_sign(word) {
        Some(i) => {
            let (name, _) = word.split_at(i);
            let (_, value) = word.split_at(i + 1);
            (name, Some(value))
        }
        None => (word, None),
    }
}

impl Line {
    /// Before the first word.
    pub(crate) fn new() -> Line
        ensures { result ≡ empty_line }
    {
        Line {
            application: None,
            values: [None; OPTIONS],
            counters: Counters::new(),
            awaited: None,
        }
    }

    /// What an option was given.
    pub(crate) fn value(&self, option: OptionName) -> Option<Datum>
        ensures { result ≡ value_at self.now option }
    {
        self.values[option.place()]
    }

    /// Whether an option may be given now, or once more.
    fn is_open(&self, option: OptionName) -> bool
        ensures { result ≡ is_open self.now option }
    {
        match option.form() {
            Form::Counters => !self.counters.is_full(),
            Form::Keys => true,
            _ => self.value(option).is_none(),
        }
    }

    /// The line where an option was given something.
    fn with_value(mut self, option: OptionName, datum: Datum) -> Line
        ensures { result ≡ with_value self option datum }
    {
        self.values[option.place()] = Some(datum);
        self
    }

    /// The line with one word more; None where the word does not fit.
    pub(crate) fn after_word(mut self, word: &[u8]) -> Option<Line>
        ensures { result ≡ after_word self word.now }
    {
        match self.awaited {
            Some(option) => {
                self.awaited = None;
                self.after_value(option, word)
            }
            None => self.after_head(word),
        }
    }

    /// The line behind the word of an option, or of an application.
    fn after_head(mut self, word: &[u8]) -> Option<Line>
        ensures { result ≡ after_head self word.now }
    {
        let (name, value) = parts(word);
        let option = match option_named(self.application, name) {
            Some(option) => option,
            None => return self.after_application(word),
        };
        if !self.is_open(option) {
            return None;
        }
        match (value, option.form()) {
            (Some(text), _) => self.after_value(option, text),
            (None, Form::Bare) => Some(self.with_value(option, Datum::Nothing)),
            (None, _) => {
                self.awaited = Some(option);
                Some(self)
            }
        }
    }

    /// The line behind the word of an application.
    fn after_application(mut self, word: &[u8]) -> Option<Line>
        ensures { result ≡ after_application self word.now }
    {
        match self.application {
            Some(_) => None,
            None => {
                self.application = Some(application_named(word)?);
                Some(self)
            }
        }
    }

    /// The line behind the value of an option.
    fn after_value(mut self, option: OptionName, text: &[u8]) -> Option<Line>
        ensures { result ≡ after_value self option text.now }
    {
        match option.form() {
            Form::Counters => {
                let counter = counters::read(text).ok()?;
                self.counters.try_push(counter).ok()?;
                Some(self)
            }
            Form::Keys => self.after_key(text),
            form => {
                let datum = form.datum(text)?;
                Some(self.with_value(option, datum))
            }
        }
    }

    /// The line behind a key and its value.
    fn after_key(self, text: &[u8]) -> Option<Line>
        ensures { result ≡ after_key self text.now }
    {
        let (name, value) = parts(text);
        let key = key_named(name)?;
        if !self.is_open(key) {
            return None;
        }
        let datum = key.form().datum(value?)?;
        Some(self.with_value(key, datum))
    }
}
