//! Why words ask for no task.

ghost use Rattle.std.specs.Prelude.{◌≡◌, ◌≢◌, []};
ghost use Rattle.clap.specs.Words.{kind_of};
ghost use Rattle.s3_command_line.specs.declared.error.WordsError.TheVariants.{OutOfMemory};

use clap::Error;
use clap::error::ErrorKind;
use std::alloc::{AllocError, Global};

// What is told where the parser has no text.
const NO_TEXT: &str = "error: wrong words\n";

/// Why the words of a command line ask for no task.
#[derive(Drop)]
pub enum WordsError {
    /// There was no memory.
    OutOfMemory,
    /// The words are wrong or ask for help.
    Usage(Usage),
}

/// What the user is told of words that are wrong or ask for help.
#[derive(Drop)]
pub struct Usage {
    text: String,
}

impl Usage {
    /// The text, which isn't empty.
    pub fn text(&self) -> &str
        ensures { result.now ≢ [] }
    {
        if self.text.is_empty() {
            NO_TEXT
        } else {
            self.text.as_str()
        }
    }
}

impl WordsError {
    /// The same said of the error of a parse.
    pub(crate) fn of_parse(alloc: Global, error: Error) -> WordsError
        ensures { result ≢ OutOfMemory → kind_of error ≢ ErrorKind.OutOfMemory }
    {
        if error.kind() == ErrorKind::OutOfMemory {
            return WordsError::OutOfMemory;
        }
        match format!(in alloc; "{error}") {
            Ok(text) => WordsError::Usage(Usage { text }),
            Err(_) => WordsError::OutOfMemory,
        }
    }
}

impl From<AllocError> for WordsError {
    ghost from_gives = { λ _ error. error ≡ OutOfMemory };

    fn from(_e: AllocError) -> Self {
        WordsError::OutOfMemory
    }
}
