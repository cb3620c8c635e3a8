ghost use Rattle.std.specs.Prelude.{◌≡◌, ◌≤◌, ◌<◌, ◌^◌, Some, None, map, length, nat_lt, ◌&&◌};
ghost use Rattle.std.specs.Prelude.{◌↔◌, if◌then◌else◌, IsTrue, IfOk, IfSome};
ghost use Rattle.std.specs.List.{list_all};
ghost use Rattle.std.specs.Option.{ok_or, option_and_then};
ghost use Rattle.std.specs.String.{string_bytes};
ghost use Rattle.script_spec.specs.Script.{is_digit, number_of};
ghost use Rattle.history_spec.specs.declared.TheConstants.{JOURNAL_LEAST, JOURNAL_MOST};
ghost use Rattle.history_spec.specs.Entry.{IsLimit};
ghost use Rattle.command_line.specs.Words.{HasFittingPath, accepted, asked, device_of, flag_of};
ghost use Rattle.command_line.specs.Words.{gathered, is_serve, is_workload, joined};
ghost use Rattle.command_line.specs.Words.{no_settings, number_within, once, path_of, plan_by};
ghost use Rattle.command_line.specs.Words.{seed_of, setting_in, setting_of, settings_by};
ghost use Rattle.command_line.specs.Words.{settings_of, takes_value, that_keeps, verb_of};
ghost use Rattle.command_line.specs.declared.words.WordsError.TheVariants.{Refused};

use crate::path_text::{PATH_MOST, PathText};
use hex::FromHex;
use history_spec::{JOURNAL_LEAST, JOURNAL_LIMIT, JOURNAL_MOST, SILENT_LIMIT};

// The most digits of a number.
const NUMBER_DIGITS: usize = 20;

/// The most lines of a workload. This project's own.
pub const LINES_MOST: u32 = 100_000;

/// The most connections that `serve` accepts in all. This project's own.
pub const CONNECTIONS_MOST: u32 = u32::MAX;

/// What the program is to do.
#[derive(Clone, Copy, Debug)]
pub enum Verb {
    /// Play a script from the input to its replies.
    Run,
    /// Serve connections to a Unix socket.
    Serve,
    /// Play the script of a workload, and write a summary of its replies.
    Workload,
}

/// The device that the program is to work on.
#[derive(Clone, Copy)]
pub enum DeviceWord {
    /// A device in memory with this seed, 32 bytes.
    Memory([u8; 32]),
    /// A device behind the Unix socket at this path, 1 to 100 bytes.
    Unix(PathText),
    /// The same, for a TPM that needn't be of this project's profile.
    Tpm(PathText),
}

/// What the words say. A field that the command has no option for is 0, false or empty.
#[derive(Clone, Copy)]
pub struct Plan {
    pub job: Verb,
    pub device: DeviceWord,
    /// The path of the socket, 1 to 100 bytes; empty for `run` and `workload`.
    pub socket: PathText,
    /// How many connections are served in all, 1 to 4,294,967,295; 0 for `run` and `workload`.
    pub connections: u32,
    /// How many bytes the entries of the journal may keep, 8,192 to 1,073,741,824; 2^58 if they are
    /// only counted.
    pub limit: u64,
    /// Whether the audit text of the journal is written at the end.
    pub audit: bool,
    /// The number that a workload's script stands for; 0 for `run` and `serve`.
    pub start: u64,
    /// How many lines that script has, 1 to 100,000; 0 for `run` and `serve`.
    pub lines: u32,
}

/// Why words give no plan.
#[derive(Clone, Copy)]
pub enum WordsError {
    /// They aren't words that the program takes.
    Refused,
}

// An option that is given, with its value.
#[derive(Clone, Copy)]
pub(crate) enum Setting {
    Device(DeviceWord),
    Socket(PathText),
    Connections(u32),
    JournalBytes(u64),
    Audit,
    Start(u64),
    Lines(u32),
}

// The options that were given so far, each once at most.
#[derive(Drop)]
pub(crate) struct Settings {
    device: Option<DeviceWord>,
    socket: Option<PathText>,
    connections: Option<u32>,
    limit: Option<u64>,
    audit: Option<bool>,
    start: Option<u64>,
    lines: Option<u32>,
}

/// Reads the program's words, without its name: a command, and then its options in any order, each
/// once at most. The value of an option is the next word, or stands behind `=`. Other words are
/// refused. It takes no memory.
///
/// `--device` names a device: `memory:` and 64 hexadecimal digits, or `unix:` or `tpm:` and the
/// path of a socket, 1 to 100 bytes.
///
/// - `run` plays a script. It needs `--device`.
/// - `serve` serves connections to a Unix socket. It needs `--device`, `--socket` and
///   `--connections`.
/// - `workload` plays the script of a workload. It needs `--device`, `--start` and `--lines`.
///
/// Each takes `--audit` too, and `--journal-bytes` or in its place `--no-journal`: then no entry of
/// the journal is kept, so there is no audit text. This project's own.
pub fn read_words(words: &[String]) -> Result<Plan, WordsError>
    ensures exact { result ≡ ok_or (accepted (map string_bytes words.now)) Refused }
    ensures limit { IfOk result (λ plan. IsLimit plan.limit) }
    ensures audit { IfOk result (λ plan. IsTrue plan.audit → plan.limit ≤ JOURNAL_MOST) }
    ensures lines { IfOk result (λ plan. plan.lines ≤ LINES_MOST) }
    ensures connections { IfOk result (λ plan. plan.connections ≤ CONNECTIONS_MOST) }
    ensures socket { IfOk result
        (λ plan. IsTrue (is_serve plan.job) ↔ (0 < length plan.socket)) }
    ensures device { IfOk result (λ plan. HasFittingPath plan.device) }
{
    // `ok_or` on these gets no proof.
    match read_plan(words) {
        Some(plan) => Ok(plan),
        None => Err(WordsError::Refused),
    }
}

fn read_plan(words: &[String]) -> Option<Plan>
    ensures { result ≡ accepted (map string_bytes words.now) }
{
    let (verb, options) = words.split_first()?;
    let job = read_verb(verb)?;
    // `?` on these gets no proof.
    match read_settings(options) {
        Some(settings) => that_keeps(settings.plan(job)),
        None => None,
    }
}

// Refuses a plan that asks for the text of entries that aren't kept.
fn that_keeps(plan: Option<Plan>) -> Option<Plan>
    ensures { result ≡ option_and_then that_keeps plan }
{
    let plan = plan?;
    if plan.audit && plan.limit == SILENT_LIMIT {
        return None;
    }
    Some(plan)
}

// The command that a word names.
fn read_verb(word: &str) -> Option<Verb>
    ensures { result ≡ verb_of word.now }
{
    match word {
        "run" => Some(Verb::Run),
        "serve" => Some(Verb::Serve),
        "workload" => Some(Verb::Workload),
        _ => None,
    }
}

// The options that words give, each once at most. `None` if words give no option, or give one
// twice.
fn read_settings(words: &[String]) -> Option<Settings>
    ensures { result
        ≡ option_and_then (gathered no_settings) (settings_of (map string_bytes words.now)) }
{
    let mut settings = Settings {
        device: None,
        socket: None,
        connections: None,
        limit: None,
        audit: None,
        start: None,
        lines: None,
    };
    let mut rest = words;
    while !rest.is_empty() {
        let (setting, taken) = read_setting(rest)?;
        settings = settings.with(setting)?;
        rest = &rest[taken..];
    }
    Some(settings)
}

impl Settings {
    // The same with one option more. `None` if it was given already.
    fn with(self, setting: Setting) -> Option<Settings>
        ensures { result ≡ joined self setting }
    {
        match setting {
            Setting::Device(device) => Some(Settings {
                device: Some(once(self.device, device)?),
                ..self
            }),
            Setting::Socket(path) => Some(Settings {
                socket: Some(once(self.socket, path)?),
                ..self
            }),
            Setting::Connections(count) => Some(Settings {
                connections: Some(once(self.connections, count)?),
                ..self
            }),
            Setting::JournalBytes(limit) => Some(Settings {
                limit: Some(once(self.limit, limit)?),
                ..self
            }),
            Setting::Audit => Some(Settings {
                audit: Some(once(self.audit, true)?),
                ..self
            }),
            Setting::Start(start) => Some(Settings {
                start: Some(once(self.start, start)?),
                ..self
            }),
            Setting::Lines(lines) => Some(Settings {
                lines: Some(once(self.lines, lines)?),
                ..self
            }),
        }
    }

    // The plan of a command. `None` if an option is missing that it needs, or one is there that it
    // doesn't take.
    fn plan(self, job: Verb) -> Option<Plan>
        ensures { result ≡ plan_by job self }
    {
        Some(Plan {
            job,
            device: self.device?,
            socket: asked(job.is_serve(), self.socket, PathText::empty())?,
            connections: asked(job.is_serve(), self.connections, 0)?,
            limit: self.limit.unwrap_or(JOURNAL_LIMIT),
            audit: self.audit.unwrap_or(false),
            start: asked(job.is_workload(), self.start, 0)?,
            lines: asked(job.is_workload(), self.lines, 0)?,
        })
    }
}

impl Verb {
    /// Whether connections are served.
    pub fn is_serve(self) -> bool
        ensures { result ≡ is_serve self }
    {
        matches!(self, Verb::Serve)
    }

    fn is_workload(self) -> bool
        ensures { result ≡ is_workload self }
    {
        matches!(self, Verb::Workload)
    }
}

// The value of an option. It has to be given if it is asked for; if not, it may not be given, and
// has the other value.
fn asked<T: Copy>(is_asked: bool, given: Option<T>, otherwise: T) -> Option<T>
    ensures { result ≡ asked is_asked otherwise given }
{
    if is_asked {
        return given;
    }
    match given {
        None => Some(otherwise),
        Some(_) => None,
    }
}

// The value of an option. `None` if the option was given already.
fn once<T: Copy>(given: Option<T>, value: T) -> Option<T>
    ensures { result ≡ once given value }
{
    match given {
        None => Some(value),
        Some(_) => None,
    }
}

// The option that words begin with, and how many of them it takes.
fn read_setting(words: &[String]) -> Option<(Setting, usize)>
    requires { 0 < length words.now }
    ensures value { settings_of (map string_bytes words.now)
        ≡ settings_by result (map string_bytes words.now) }
    ensures some { IfSome result (λ first. 0 < first.1) }
    ensures few { IfSome result (λ first. first.1 ≤ 2) }
    ensures within { IfSome result (λ first. first.1 ≤ length words.now) }
{
    let word = words[0].as_str();
    if !takes_value(word) {
        return Some((read_word(word)?, 1));
    }
    let value = words.get(1)?.as_str();
    if value.starts_with('-') {
        return None;
    }
    Some((read_valued(word, value)?, 2))
}

// Whether the value of an option is the word behind its name.
fn takes_value(word: &str) -> bool
    ensures { result ≡ takes_value word.now }
{
    !word.as_bytes().contains(&b'=') && read_flag(word).is_none()
}

// The option that one word gives.
fn read_word(word: &str) -> Option<Setting>
    ensures { result ≡ setting_in word.now }
{
    match word.split_once('=') {
        Some((name, value)) => read_valued(name, value),
        None => read_flag(word),
    }
}

// The option of this name with this value.
fn read_valued(name: &str, value: &str) -> Option<Setting>
    ensures { result ≡ setting_of name.now value.now }
{
    if name == "--socket" {
        return read_path(value).map(Setting::Socket);
    }
    if name == "--device" {
        return read_device(value).map(Setting::Device);
    }
    let value = value.as_bytes();
    if name == "--connections" {
        return read_count(value, CONNECTIONS_MOST).map(Setting::Connections);
    }
    if name == "--journal-bytes" {
        return read_number(value, JOURNAL_LEAST, JOURNAL_MOST).map(Setting::JournalBytes);
    }
    if name == "--start" {
        return read_number(value, 0, u64::MAX).map(Setting::Start);
    }
    if name == "--lines" {
        return read_count(value, LINES_MOST).map(Setting::Lines);
    }
    None
}

// The option of this name, which has no value.
fn read_flag(name: &str) -> Option<Setting>
    ensures { result ≡ flag_of name.now }
{
    if name == "--audit" {
        return Some(Setting::Audit);
    }
    if name == "--no-journal" {
        return Some(Setting::JournalBytes(SILENT_LIMIT));
    }
    None
}

// The device that a word names: `memory:` and a seed, or `unix:` or `tpm:` and a path.
fn read_device(word: &str) -> Option<DeviceWord>
    ensures { result ≡ device_of word.now }
{
    let (kind, name) = word.split_once(':')?;
    match kind {
        "memory" => read_seed(name.as_bytes()).map(DeviceWord::Memory),
        "unix" => read_path(name).map(DeviceWord::Unix),
        "tpm" => read_path(name).map(DeviceWord::Tpm),
        _ => None,
    }
}

// The seed of a device in memory.
fn read_seed(digits: &[u8]) -> Option<[u8; 32]>
    ensures { result ≡ seed_of digits.now }
{
    <[u8; 32] as FromHex>::from_hex(digits).ok()
}

// The path of a socket.
fn read_path(word: &str) -> Option<PathText>
    ensures { result ≡ path_of word.now }
{
    if word.is_empty() || word.len() > PATH_MOST {
        return None;
    }
    Some(PathText::new(word))
}

// How many connections are served, or how many lines a workload has.
fn read_count(word: &[u8], most: u32) -> Option<u32>
    ensures { result ≡ number_within 1 most word.now }
{
    let count = read_number(word, 1, u64::from(most))?;
    Some(count as u32)
}

// The number that 1 to 20 decimal digits spell, where it lies within these bounds.
fn read_number(word: &[u8], least: u64, most: u64) -> Option<u64>
    ensures value { result ≡ number_within least most word.now }
    ensures most { IfSome result (λ number. number ≤ most) }
{
    if word.is_empty() || word.len() > NUMBER_DIGITS {
        return None;
    }
    let number = number_of(word)?;
    if number < least || number > most {
        return None;
    }
    Some(number)
}

// The number that these digits spell. `None` if one isn't a digit, or no u64 is so large.
fn number_of(digits: &[u8]) -> Option<u64>
    ensures { result ≡ (if list_all is_digit digits.now && nat_lt (number_of digits.now) (2 ^ 64)
        then Some (number_of digits.now) else None) }
{
    let mut number: u64 = 0;
    for digit in digits {
        if !digit.is_ascii_digit() {
            return None;
        }
        let tens = number.checked_mul(10)?;
        number = tens.checked_add(u64::from(*digit - b'0'))?;
    }
    Some(number)
}
