//! The words of a command line.
ghost use Rattle.std.specs.Prelude.{◌≡◌, ◌∷◌, ℕ, List, None, Some, IfOk, IsSome, MatchResult, map, string_bytes};
ghost use Rattle.hullcheck.specs.declared.fault.Fault.TheVariants.{Usage};
ghost use Rattle.hullcheck.specs.declared.command_line.Next.TheVariants.{Any};
ghost use Rattle.hullcheck.specs.contract.CommandLine.{asked_by, asked_in, requests_help, with_file, with_word};
ghost use Rattle.hullcheck.specs.contract.CommandLine.{workers_in};
ghost use Rattle.hullcheck.specs.steps.Words.{with_next};

use crate::fault::Fault;
use qh_model::WORKER_LIMIT;
use qh_read::faces::{Layout, Orientation, Reading};

/// The settings of a command line.
#[derive(Clone, Copy, Drop)]
pub struct Settings<'a> {
    /// The number of workers that check the faces, from 1 to `WORKER_LIMIT`.
    pub workers: u32,
    /// How the faces are read.
    pub reading: Reading,
    /// The file of points.
    pub points: Option<&'a str>,
    /// The file of faces, or `None` for standard input.
    pub faces: Option<&'a str>,
}

/// The meaning of the next word.
#[derive(Clone, Copy, Debug, PartialEq, Eq)]
enum Next {
    /// An option or a file.
    Any,
    /// The number of workers.
    Workers,
}

/// Returns the number of workers that a word denotes.
fn workers_of(word: &str) -> Result<u32, Fault>
    ensures { MatchResult result (λ n. workers_in word.now ≡ Some n)
        (λ f. (f ≡ Usage) × (workers_in word.now ≡ None)) }
{
    let Ok(workers) = word.parse::<u32>() else {
        return Err(Fault::Usage);
    };
    if workers < 1 || workers > WORKER_LIMIT {
        return Err(Fault::Usage);
    }
    Ok(workers)
}

impl<'a> Settings<'a> {
    /// Records a file name: the first is the file of points, the second the file of faces.
    fn take_file(&mut self, word: &'a str) -> Result<(), Fault>
        ensures { MatchResult result (λ _. with_file (asked_in self.old) word.entry.now ≡ Some (asked_in self.new))
            (λ f. (f ≡ Usage) × (with_file (asked_in self.old) word.entry.now ≡ None)) }
    {
        // Options begin with a minus sign.
        if let [b'-', ..] = word.as_bytes() {
            return Err(Fault::Usage);
        }
        match (self.points, self.faces) {
            (None, _) => self.points = Some(word),
            (Some(_), None) => self.faces = Some(word),
            (Some(_), Some(_)) => return Err(Fault::Usage),
        }
        Ok(())
    }

    /// Processes an option without a value, or a file name.
    fn take_word(&mut self, word: &'a str) -> Result<(), Fault>
        ensures { MatchResult result (λ _. with_word (asked_in self.old) word.entry.now ≡ Some (asked_in self.new))
            (λ f. (f ≡ Usage) × (with_word (asked_in self.old) word.entry.now ≡ None)) }
    {
        if word == "--indices" {
            self.reading.layout = Layout::Lines;
        } else if word == "--counted" {
            self.reading.layout = Layout::Counted;
        } else if word == "--clockwise" {
            self.reading.orientation = Orientation::Clockwise;
        } else {
            return self.take_file(word);
        }
        Ok(())
    }

    /// Processes a word, and returns the meaning of the next one.
    fn take(&mut self, next: Next, word: &'a str) -> Result<Next, Fault>
        ensures { (rest : List (List ℕ)) → MatchResult result
            (λ more. with_next next (asked_in self.old) (word.entry.now ∷ rest) ≡ with_next more (asked_in self.new) rest)
            (λ f. (f ≡ Usage) × (with_next next (asked_in self.old) (word.entry.now ∷ rest) ≡ None)) }
    {
        match next {
            Next::Workers => self.workers = workers_of(word)?,
            Next::Any if word == "--workers" => return Ok(Next::Workers),
            Next::Any => self.take_word(word)?,
        }
        Ok(Next::Any)
    }
}

/// Returns true if a word of a command line requests help; the first word is the name of the program.
pub fn asks_help(words: &[String]) -> bool
    ensures { result ≡ requests_help (map string_bytes words.now) }
{
    let [_, rest @ ..] = words else {
        return false;
    };
    for word in rest {
        if word.as_str() == "--help" || word.as_str() == "-h" {
            return true;
        }
    }
    false
}

/// Returns the settings of a command line; the first word is the name of the program.
///
/// # Errors
///
/// `Usage` if the command line is invalid.
pub fn settings_of<'a>(words: &'a [String]) -> Result<Settings<'a>, Fault>
    ensures asked { MatchResult result (λ s. asked_by (map string_bytes words.entry.now) ≡ Some (asked_in s))
        (λ f. (f ≡ Usage) × (asked_by (map string_bytes words.entry.now) ≡ None)) }
    ensures points { IfOk result (λ s. IsSome s.points) }
{
    let [_, rest @ ..] = words else {
        return Err(Fault::Usage);
    };
    let mut settings = Settings {
        workers: 4,
        reading: Reading {
            layout: Layout::Off,
            orientation: Orientation::Counterclockwise,
        },
        points: None,
        faces: None,
    };
    let mut next = Next::Any;
    for word in rest {
        next = settings.take(next, word.as_str())?;
    }
    if next == Next::Workers || settings.points.is_none() {
        return Err(Fault::Usage);
    }
    Ok(settings)
}
