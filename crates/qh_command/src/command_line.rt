//! The words of a command line, parsed by clap.
ghost use Rattle.std.specs.Prelude.{◌≡◌, ◌≢◌, ◌<◌, ◌^◌, ℕ, [], ◌∷◌, false, map, IfOk, IfErr, IfSome, IfNone, string_bytes};
ghost use Rattle.std.specs.Option.{option_map};
ghost use Rattle.clap.specs.Words.{app_of, kind_of, rule_of, found_of, one_text};
ghost use Rattle.qh_model.specs.declared.form.Form.{Form};
ghost use Rattle.qh_model.specs.declared.form.Form.TheVariants as forms;
ghost use Rattle.qh_model.specs.declared.out.Out.{Out};
ghost use Rattle.qh_model.specs.declared.out.Out.TheVariants.{Rank, Summary, Fx, Off, OffTriangles};
ghost use Rattle.qh_command.specs.contract.CommandLine.{AreOutsOf, AreSettingsOf, IsArgFaultOf, IsFormOf, IsProgram, NumberOf};
ghost use Rattle.qh_command.specs.contract.CommandLine.{form_word, from_option, number_option, outs_rule, word_of};
ghost use Rattle.qh_command.specs.contract.CommandLine.{version_flag, words_taken};
ghost use Rattle.qh_command.specs.steps.Matches.{AreSettingsFound, IsFindingFault, IsOutsFault, IsRefusalOf, IsTextOrMemory};

use crate::help::{HELP, VERSION};
use crate::settings::{BLOCK_SIZE_LIMIT, Settings, SettingsError};
use clap::error::ErrorKind;
use clap::{Arg, ArgAction, ArgMatches, Command, Error, value_parser};
use qh_model::{Form, Out, WORKER_LIMIT};
use std::alloc::{AllocError, Global};

/// Why a command line gives no settings.
#[derive(Debug, Drop)]
pub enum ArgFault {
    /// The help text or the version, whichever the command line requests.
    Help(String),
    /// The command line is invalid.
    Usage,
    /// An allocation failed.
    Memory,
}

/// The words that name outputs.
static NAMES: [&str; 5] = ["rank", "s", "Fx", "off", "offt"];

/// Returns an option `--name N` with a default, for numbers from 1 to a limit.
fn number_arg<'a>(alloc: Global, name: &'a str, default: &'a str, limit: u32) -> Arg<'a>
    requires { 0 < limit }
    ensures rule { rule_of result ≡ number_option name.entry.now default.entry.now limit }
    ensures local { result.global ≡ false }
{
    Arg::new(alloc, name)
        .long(name)
        .value_name("N")
        .action(ArgAction::Set)
        .default_value(default)
        .value_parser(value_parser!(u32).range(1..=i64::from(limit)))
}

/// The words that name forms.
static FORMS: [&str; 2] = ["qhull", "off"];

/// Returns the option `--from FORM`.
fn from_arg<'a>(alloc: Global) -> Arg<'a>
    ensures rule { (p : _) × (words_taken p ≡ map form_word (forms.Qhull ∷ forms.Off ∷ [])) × (rule_of result ≡ from_option p) }
    ensures local { result.global ≡ false }
{
    Arg::new(alloc, "from")
        .long("from")
        .value_name("FORM")
        .action(ArgAction::Set)
        .default_value("qhull")
        .value_parser(FORMS.as_slice())
}

/// Returns the positional words OUT, which may be placed between options.
fn outs_arg<'a>(alloc: Global) -> Arg<'a>
    ensures rule { (p : _) × (words_taken p ≡ map word_of (Rank ∷ Summary ∷ Fx ∷ Off ∷ OffTriangles ∷ [])) × (rule_of result ≡ outs_rule p) }
    ensures local { result.global ≡ false }
{
    Arg::new(alloc, "outs")
        .value_name("OUT")
        .action(ArgAction::Append)
        .value_parser(NAMES.as_slice())
}

/// Returns the flag `--version`.
fn version_arg<'a>(alloc: Global) -> Arg<'a>
    ensures rule { rule_of result ≡ version_flag }
    ensures local { result.global ≡ false }
{
    Arg::new(alloc, "version")
        .long("version")
        .action(ArgAction::Version)
}

/// Returns the command line of the program.
fn command<'a>(alloc: Global) -> Result<Command<'a>, AllocError>
    ensures { IfOk result (λ c. IsProgram (app_of c)) }
{
    Command::new(alloc, "qconvex")
        .override_help(HELP)
        .arg(version_arg(alloc))?
        .arg(from_arg(alloc))?
        .arg(number_arg(alloc, "workers", "4", WORKER_LIMIT))?
        .arg(number_arg(alloc, "block", "4096", BLOCK_SIZE_LIMIT))?
        .arg(outs_arg(alloc))
}

/// Returns the output that a word names.
fn out_of(name: &str) -> Option<Out>
    ensures some { IfSome result (λ out. word_of out ≡ name.now) }
    ensures none { IfNone result ((out : Out) → word_of out ≢ name.now) }
{
    match name {
        "rank" => Some(Out::Rank),
        "s" => Some(Out::Summary),
        "Fx" => Some(Out::Fx),
        "off" => Some(Out::Off),
        "offt" => Some(Out::OffTriangles),
        _ => None,
    }
}

/// Returns the outputs that the words name, or the summary if there are no words.
fn outs_of(alloc: Global, names: Option<&[&str]>) -> Result<Vec<Out>, ArgFault>
    ensures outs { IfOk result (λ v. AreOutsOf (option_map (λ s. map (λ w. w.now) s.now) names.entry) v.items) }
    ensures fault { IfErr result (IsOutsFault (option_map (λ s. map (λ w. w.now) s.now) names.entry)) }
{
    let mut outs = Vec::new(alloc);
    let Some(names) = names else {
        outs.push(Out::Summary).map_err(|_| ArgFault::Memory)?;
        return Ok(outs);
    };
    for name in names {
        let Some(out) = out_of(name) else {
            return Err(ArgFault::Usage);
        };
        outs.push(out).map_err(|_| ArgFault::Memory)?;
    }
    Ok(outs)
}

/// Returns the form that a word names.
fn form_named(name: &str) -> Option<Form>
    ensures some { IfSome result (λ form. form_word form ≡ name.now) }
    ensures none { IfNone result ((form : Form) → form_word form ≢ name.now) }
{
    match name {
        "qhull" => Some(Form::Qhull),
        "off" => Some(Form::Off),
        _ => None,
    }
}

/// Returns the form that the words name, if there is exactly one word.
fn form_of(names: Option<&[&str]>) -> Option<Form>
    ensures some { IfSome result (λ form. IsFormOf (option_map (λ s. map (λ w. w.now) s.now) names.entry) form) }
    ensures none { IfNone result ((form : Form) → ¬ (IsFormOf (option_map (λ s. map (λ w. w.now) s.now) names.entry) form)) }
{
    let Some(names) = names else {
        return None;
    };
    if names.len() != 1 {
        return None;
    }
    form_named(names[0])
}

/// Returns a request for a text.
fn requested(alloc: Global, text: &str) -> ArgFault
    ensures { IsTextOrMemory text.now result }
{
    match String::from_str(alloc, text) {
        Ok(text) => ArgFault::Help(text),
        Err(_) => ArgFault::Memory,
    }
}

/// Returns the fault that corresponds to an error of clap.
fn refused(alloc: Global, error: &Error) -> ArgFault
    ensures { IsRefusalOf (kind_of error.now) result }
{
    match error.kind() {
        ErrorKind::OutOfMemory => ArgFault::Memory,
        ErrorKind::DisplayHelp => requested(alloc, HELP),
        ErrorKind::DisplayVersion => requested(alloc, VERSION),
        _ => ArgFault::Usage,
    }
}

/// Returns the value of an option.
fn number(matches: &ArgMatches, id: &str) -> Option<u32>
    ensures some { IfSome result (λ n. NumberOf (one_text (found_of matches.now) id.now) n) }
    ensures none { IfNone result ((n : ℕ) → n < 2 ^ 32 → ¬ (NumberOf (one_text (found_of matches.now) id.now) n)) }
{
    matches.get_one::<u32>(id)
}

/// Returns the settings in matched words.
fn settings_from(alloc: Global, matches: &ArgMatches) -> Result<Settings, ArgFault>
    ensures found { IfOk result (AreSettingsFound (found_of matches.now)) }
    ensures fault { IfErr result (IsFindingFault (found_of matches.now)) }
{
    let Some(workers) = number(matches, "workers") else {
        return Err(ArgFault::Usage);
    };
    let Some(block) = number(matches, "block") else {
        return Err(ArgFault::Usage);
    };
    let outs = match outs_of(alloc, matches.get_strs("outs")) {
        Ok(outs) => outs,
        Err(fault) => return Err(fault),
    };
    let forms = matches.get_strs("from");
    let Some(form) = form_of(forms) else {
        return Err(ArgFault::Usage);
    };
    match Settings::new(alloc, workers, block, outs.as_slice(), form) {
        Ok(settings) => Ok(settings),
        Err(SettingsError::Memory) => Err(ArgFault::Memory),
        Err(_) => Err(ArgFault::Usage),
    }
}

/// Returns the settings that these words specify.
fn settings_in<'a>(alloc: Global, words: &'a [String]) -> Result<Settings, ArgFault>
    ensures settings { IfOk result (AreSettingsOf (map string_bytes words.entry.now)) }
    ensures fault { IfErr result (IsArgFaultOf (map string_bytes words.entry.now)) }
{
    let Ok(command) = command::<'a>(alloc) else {
        return Err(ArgFault::Memory);
    };
    match command.try_get_matches_from(words) {
        Ok(matches) => settings_from(alloc, &matches),
        Err(error) => Err(refused(alloc, &error)),
    }
}

/// Returns the settings that a command line specifies; the first word is the program's name.
///
/// # Errors
///
/// `Help` with the text that the command line requests, if it does, `Usage` if the command line is invalid, and `Memory` if
/// an allocation failed.
pub fn settings_of(alloc: Global, words: Vec<String>) -> Result<Settings, ArgFault>
    ensures settings { IfOk result (AreSettingsOf (map string_bytes words.items)) }
    ensures fault { IfErr result (IsArgFaultOf (map string_bytes words.items)) }
{
    settings_in(alloc, words.as_slice())
}
