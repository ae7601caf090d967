//! The table of options: the word of each, where it may stand, and what values it takes.
ghost use Rattle.std.specs.Prelude.{◌≡◌, ◌<◌};
ghost use Rattle.hpx_options.specs.Table.{row_of, word_of, is_same, may_stand, in_ini, is_option, is_key, option_named, key_named, application_named};

/// What the program runs.
#[derive(Clone, Copy, Debug, PartialEq, Eq)]
pub enum Application {
    Accumulator,
    Space,
    Fib,
    Stencil,
    Load,
    Check,
    Collect,
    Vector,
}

/// An option, or a key of `--hpx:ini`.
#[derive(Clone, Copy, Debug, PartialEq, Eq)]
pub enum OptionName {
    Threads,
    Localities,
    Node,
    Agas,
    Hpx,
    Console,
    Worker,
    PrintCounter,
    ListCounters,
    Help,
    Version,
    Ini,
    CreditLog,
    CreditLimit,
    CacheSize,
    Settle,
    Journal,
    FibNumber,
    FibThreshold,
    StencilPoints,
    StencilParts,
    StencilSteps,
    LoadStart,
    LoadLines,
    CollectOp,
    CollectStart,
    VectorPoints,
    VectorParts,
}

/// Where an option may stand.
#[derive(Clone, Copy, Debug, PartialEq, Eq)]
pub enum Stands {
    Anywhere,
    /// Behind the application that has it.
    Behind(Application),
    /// In the value of `--hpx:ini`, as its key.
    InIni,
}

/// What values an option takes.
#[derive(Clone, Copy, Debug, PartialEq, Eq)]
pub enum Form {
    /// None: the word is all.
    Bare,
    Numbers { least: u32, greatest: u32 },
    /// Logs of credit.
    Logs { least: u8, greatest: u8 },
    /// Limits of credit.
    Limits { least: u128, greatest: u128 },
    /// Addresses of this machine, with a port from 1 on.
    Ports { greatest: u16 },
    /// The words of collective operations.
    Ops,
    /// The names of counters. Such an option may be given up to 64 times.
    Counters,
    /// Keys with their values. Such an option may be given once for each key.
    Keys,
}

/// How many options and keys there are.
pub(crate) const OPTIONS: usize = 28;

/// The greatest limit of credit, and the one where none is given.
pub(crate) const MOST_CREDIT: u128 = 1 << 100;

/// All options and keys, in the order of the table.
const ALL_OPTIONS: [OptionName; OPTIONS] = [
    OptionName::Threads,
    OptionName::Localities,
    OptionName::Node,
    OptionName::Agas,
    OptionName::Hpx,
    OptionName::Console,
    OptionName::Worker,
    OptionName::PrintCounter,
    OptionName::ListCounters,
    OptionName::Help,
    OptionName::Version,
    OptionName::Ini,
    OptionName::CreditLog,
    OptionName::CreditLimit,
    OptionName::CacheSize,
    OptionName::Settle,
    OptionName::Journal,
    OptionName::FibNumber,
    OptionName::FibThreshold,
    OptionName::StencilPoints,
    OptionName::StencilParts,
    OptionName::StencilSteps,
    OptionName::LoadStart,
    OptionName::LoadLines,
    OptionName::CollectOp,
    OptionName::CollectStart,
    OptionName::VectorPoints,
    OptionName::VectorParts,
];

const ALL_APPLICATIONS: [Application; 8] = [
    Application::Accumulator,
    Application::Space,
    Application::Fib,
    Application::Stencil,
    Application::Load,
    Application::Check,
    Application::Collect,
    Application::Vector,
];

/// Numbers in a range.
fn numbers(least: u32, greatest: u32) -> Form
    ensures { result ≡ Form.Numbers least greatest }
{
    Form::Numbers { least, greatest }
}

impl Application {
    /// Its word.
    fn word(self) -> &'static [u8]
        ensures { result.now ≡ word_of self }
    {
        match self {
            Application::Accumulator => b"accumulator",
            Application::Space => b"space",
            Application::Fib => b"fib",
            Application::Stencil => b"stencil",
            Application::Load => b"load",
            Application::Check => b"check",
            Application::Collect => b"collect",
            Application::Vector => b"vector",
        }
    }
}

impl Stands {
    /// Whether an option may stand behind an application, or before there is one.
    fn may_stand(self, application: Option<Application>) -> bool
        ensures { result ≡ may_stand self application }
    {
        match (self, application) {
            (Stands::Anywhere, _) => true,
            (Stands::Behind(owner), Some(application)) => owner == application,
            _ => false,
        }
    }

    /// Whether it is a key of `--hpx:ini`.
    fn is_key(self) -> bool
        ensures { result ≡ in_ini self }
    {
        matches!(self, Stands::InIni)
    }
}

impl OptionName {
    /// The place in the table, from 0.
    pub(crate) fn place(self) -> usize
        ensures place { result ≡ (row_of self).place }
        ensures within { result < 28 }
    {
        self as usize
    }

    /// The word of the option, or the key.
    fn word(self) -> &'static [u8]
        ensures { result.now ≡ (row_of self).word }
    {
        match self {
            OptionName::Threads => b"--hpx:threads",
            OptionName::Localities => b"--hpx:localities",
            OptionName::Node => b"--hpx:node",
            OptionName::Agas => b"--hpx:agas",
            OptionName::Hpx => b"--hpx:hpx",
            OptionName::Console => b"--hpx:console",
            OptionName::Worker => b"--hpx:worker",
            OptionName::PrintCounter => b"--hpx:print-counter",
            OptionName::ListCounters => b"--hpx:list-counters",
            OptionName::Help => b"--hpx:help",
            OptionName::Version => b"--hpx:version",
            OptionName::Ini => b"--hpx:ini",
            OptionName::CreditLog => b"hpx.agas.credit_log",
            OptionName::CreditLimit => b"hpx.agas.credit_limit",
            OptionName::CacheSize => b"hpx.agas.cache_size",
            OptionName::Settle => b"hpx.agas.settle",
            OptionName::Journal => b"hpx.journal",
            OptionName::FibNumber => b"--n-value",
            OptionName::FibThreshold => b"--threshold",
            OptionName::StencilPoints => b"--points",
            OptionName::StencilParts => b"--parts",
            OptionName::StencilSteps => b"--steps",
            OptionName::LoadStart => b"--start",
            OptionName::LoadLines => b"--lines",
            OptionName::CollectOp => b"--op",
            OptionName::CollectStart => b"--start",
            OptionName::VectorPoints => b"--points",
            OptionName::VectorParts => b"--parts",
        }
    }

    /// Where it may stand.
    fn stands(self) -> Stands
        ensures { result ≡ (row_of self).stands }
    {
        match self {
            OptionName::Threads => Stands::Anywhere,
            OptionName::Localities => Stands::Anywhere,
            OptionName::Node => Stands::Anywhere,
            OptionName::Agas => Stands::Anywhere,
            OptionName::Hpx => Stands::Anywhere,
            OptionName::Console => Stands::Anywhere,
            OptionName::Worker => Stands::Anywhere,
            OptionName::PrintCounter => Stands::Anywhere,
            OptionName::ListCounters => Stands::Anywhere,
            OptionName::Help => Stands::Anywhere,
            OptionName::Version => Stands::Anywhere,
            OptionName::Ini => Stands::Anywhere,
            OptionName::CreditLog => Stands::InIni,
            OptionName::CreditLimit => Stands::InIni,
            OptionName::CacheSize => Stands::InIni,
            OptionName::Settle => Stands::InIni,
            OptionName::Journal => Stands::InIni,
            OptionName::FibNumber => Stands::Behind(Application::Fib),
            OptionName::FibThreshold => Stands::Behind(Application::Fib),
            OptionName::StencilPoints => Stands::Behind(Application::Stencil),
            OptionName::StencilParts => Stands::Behind(Application::Stencil),
            OptionName::StencilSteps => Stands::Behind(Application::Stencil),
            OptionName::LoadStart => Stands::Behind(Application::Load),
            OptionName::LoadLines => Stands::Behind(Application::Load),
            OptionName::CollectOp => Stands::Behind(Application::Collect),
            OptionName::CollectStart => Stands::Behind(Application::Collect),
            OptionName::VectorPoints => Stands::Behind(Application::Vector),
            OptionName::VectorParts => Stands::Behind(Application::Vector),
        }
    }

    /// Whether a word names it as an option behind an application, or before there is one.
    fn is_option(self, application: Option<Application>, word: &[u8]) -> bool
        ensures { result ≡ is_option application word.now self }
    {
        self.stands().may_stand(application) && word == self.word()
    }

    /// Whether a word names it as a key of `--hpx:ini`.
    fn is_key(self, word: &[u8]) -> bool
        ensures { result ≡ is_key word.now self }
    {
        self.stands().is_key() && word == self.word()
    }

    /// What values it takes.
    pub(crate) fn form(self) -> Form
        ensures { result ≡ (row_of self).form }
    {
        match self {
            OptionName::Threads => numbers(1, 64),
            OptionName::Localities => numbers(1, 64),
            OptionName::Node => numbers(0, 63),
            OptionName::Agas => Form::Ports { greatest: 65_472 },
            OptionName::Hpx => Form::Ports { greatest: 65_535 },
            OptionName::Console => Form::Bare,
            OptionName::Worker => Form::Bare,
            OptionName::PrintCounter => Form::Counters,
            OptionName::ListCounters => Form::Bare,
            OptionName::Help => Form::Bare,
            OptionName::Version => Form::Bare,
            OptionName::Ini => Form::Keys,
            OptionName::CreditLog => Form::Logs {
                least: 8,
                greatest: 31,
            },
            OptionName::CreditLimit => Form::Limits {
                least: 2,
                greatest: MOST_CREDIT,
            },
            OptionName::CacheSize => numbers(1, 4096),
            OptionName::Settle => numbers(0, 1),
            OptionName::Journal => numbers(0, 1),
            OptionName::FibNumber => numbers(0, 92),
            OptionName::FibThreshold => numbers(2, 92),
            OptionName::StencilPoints => numbers(1, 1024),
            OptionName::StencilParts => numbers(1, 32),
            OptionName::StencilSteps => numbers(0, 1000),
            OptionName::LoadStart => numbers(0, 2_147_483_647),
            OptionName::LoadLines => numbers(0, 20_000),
            OptionName::CollectOp => Form::Ops,
            OptionName::CollectStart => numbers(0, 1_000_000_000),
            OptionName::VectorPoints => numbers(1, 4096),
            OptionName::VectorParts => numbers(1, 32),
        }
    }
}

/// The option that a word names behind an application, or before there is one.
pub(crate) fn option_named(application: Option<Application>, word: &[u8]) -> Option<OptionName>
    ensures { result ≡ option_named application word.now }
{
    for option in ALL_OPTIONS {
        if option.is_option(application, word) {
            return Some(option);
        }
    }
    None
}

/// The option that a key of `--hpx:ini` names.
pub(crate) fn key_named(word: &[u8]) -> Option<OptionName>
    ensures { result ≡ key_named word.now }
{
    for option in ALL_OPTIONS {
        if option.is_key(word) {
            return Some(option);
        }
    }
    None
}

/// The application that a word names.
pub(crate) fn application_named(word: &[u8]) -> Option<Application>
    ensures { result ≡ application_named word.now }
{
    for application in ALL_APPLICATIONS {
        if word == application.word() {
            return Some(application);
        }
    }
    None
}
