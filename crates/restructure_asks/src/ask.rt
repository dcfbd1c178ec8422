//! What the words of the command line ask.

ghost use Rattle.std.specs.Prelude.{◌≡◌, map, string_bytes, IfSome};
ghost use Rattle.restructure_asks.specs.Ask as asks;
ghost use Rattle.restructure_asks.specs.Ask.{ask_of, ask_of_word, ask_of_two, run_of, number_of, program_number, HasProgram, IsProgramNumber};

use cob_tree::digits_value;

/// An ask of the tool.
#[derive(Clone, Copy, Debug, PartialEq, Eq)]
pub enum Ask {
    /// To read the source to its end, and to write the result.
    Restructure,
    /// The same, and to write the report to the notes after it.
    Report,
    /// To read the source to its end, and to write its report.
    Check,
    /// To read the source to its end, and to run it for at most so many steps.
    Run(u64),
    /// To read the source to its end, as two programs, and to run both for at most so many steps.
    Compare(u64),
    /// To write the generated program of a number.
    Generate(u32),
    /// To write the report of that program.
    Trial(u32),
}

/// The ask that these words are; none where they aren't an ask.
pub fn ask_of(words: &[String]) -> Option<Ask>
    ensures asked { result ≡ ask_of (map string_bytes words.now) }
    ensures program { IfSome result (λ ask. HasProgram ask) }
{
    match words {
        [word] => ask_of_word(word.as_str()),
        [word, other] => ask_of_two(word.as_str(), other.as_str()),
        [word, option, number] => steps_of(word.as_str(), option.as_str(), number.as_str()),
        _ => None,
    }
}

// What one word asks.
fn ask_of_word(word: &str) -> Option<Ask>
    ensures asked { result ≡ ask_of_word word.now }
    ensures program { IfSome result (λ ask. HasProgram ask) }
{
    if word == "restructure" {
        return Some(Ask::Restructure);
    }
    if word == "check" {
        return Some(Ask::Check);
    }
    None
}

// What two words ask.
fn ask_of_two(word: &str, other: &str) -> Option<Ask>
    ensures asked { result ≡ ask_of_two word.now other.now }
    ensures program { IfSome result (λ ask. HasProgram ask) }
{
    if word == "restructure" {
        return report_of(other);
    }
    if word == "generate" {
        return generate_of(other);
    }
    if word == "trial" {
        return trial_of(other);
    }
    None
}

// What a word after restructure asks.
fn report_of(option: &str) -> Option<Ask>
    ensures asked { result ≡ asks.report_of option.now }
    ensures program { IfSome result (λ ask. HasProgram ask) }
{
    if option == "--report" {
        Some(Ask::Report)
    } else {
        None
    }
}

fn generate_of(number: &str) -> Option<Ask>
    ensures asked { result ≡ asks.generate_of number.now }
    ensures program { IfSome result (λ ask. HasProgram ask) }
{
    match program_number(number.as_bytes()) {
        None => None,
        Some(n) => Some(Ask::Generate(n)),
    }
}

fn trial_of(number: &str) -> Option<Ask>
    ensures asked { result ≡ asks.trial_of number.now }
    ensures program { IfSome result (λ ask. HasProgram ask) }
{
    match program_number(number.as_bytes()) {
        None => None,
        Some(n) => Some(Ask::Trial(n)),
    }
}

// What three words ask.
fn steps_of(word: &str, option: &str, number: &str) -> Option<Ask>
    ensures asked { result ≡ asks.steps_of word.now option.now number.now }
    ensures program { IfSome result (λ ask. HasProgram ask) }
{
    if option != "--steps" {
        return None;
    }
    if word == "run" {
        return run_of(number);
    }
    if word == "compare" {
        return compare_of(number);
    }
    None
}

fn run_of(number: &str) -> Option<Ask>
    ensures asked { result ≡ run_of number.now }
    ensures program { IfSome result (λ ask. HasProgram ask) }
{
    match number_of(number.as_bytes()) {
        None => None,
        Some(steps) => Some(Ask::Run(steps)),
    }
}

fn compare_of(number: &str) -> Option<Ask>
    ensures asked { result ≡ asks.compare_of number.now }
    ensures program { IfSome result (λ ask. HasProgram ask) }
{
    match number_of(number.as_bytes()) {
        None => None,
        Some(steps) => Some(Ask::Compare(steps)),
    }
}

// The number that 1 to 18 digits spell; none for anything else.
fn number_of(number: &[u8]) -> Option<u64>
    ensures { result ≡ number_of number.now }
{
    if number.is_empty() {
        return None;
    }
    digits_value(number)
}

// The number of a program that is generated.
fn program_number(number: &[u8]) -> Option<u32>
    ensures number { result ≡ program_number number.now }
    ensures program { IfSome result (λ n. IsProgramNumber n) }
{
    match number_of(number) {
        None => None,
        Some(n) => in_range(n),
    }
}

fn in_range(n: u64) -> Option<u32>
    ensures number { result ≡ asks.in_range n }
    ensures program { IfSome result (λ n. IsProgramNumber n) }
{
    if n < 1 {
        return None;
    }
    if n > 1249 {
        return None;
    }
    Some(n as u32)
}
