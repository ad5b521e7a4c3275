//! The words that only this program knows; the others are those of `dl_words`.

use std::alloc::{AllocError, Global};

/// The word that asks to end with standard input.
const UNTIL_EOF: &str = "--until-eof";

/// The word before a number of seconds, after which the trace is synced again and again.
const SYNC: &str = "--sync";

/// The word that asks to be told of clients and programs.
const VERBOSE: &str = "--verbose";

/// The word before the name of a file for the status line.
const STATUS_FILE: &str = "--status-file";

/// The words of the command line, parted.
#[derive(Drop)]
pub struct Asked {
    /// The others, the program's name first.
    pub words: Vec<String>,
    /// Whether the daemon ends when its standard input ends.
    pub until_eof: bool,
    /// After how many seconds the trace is synced, where it is.
    pub sync: Option<u32>,
    /// Whether clients and programs are told of on standard error.
    pub is_verbose: bool,
    /// The name of the file that has the last status line, where there is to be one.
    pub status_file: Option<String>,
    /// Whether a configuration is named.
    pub names_conf: bool,
    /// Whether `--sync` stands without a number of seconds from 1 on behind it, or `--status-file` without a name, or one of them twice.
    pub is_refused: bool,
    // what the word before asks for, where it asks for one
    awaits: Option<Awaited>,
}

/// What a word asks for behind it.
#[derive(Clone, Copy)]
enum Awaited {
    Seconds,
    StatusFile,
}

/// The seconds that a word says, from 1 on.
fn seconds(word: &str) -> Option<u32> {
    match word.parse::<u32>() {
        Ok(number) if number > 0 => Some(number),
        _ => None,
    }
}

impl Asked {
    /// Nothing was asked yet.
    fn none(alloc: Global) -> Asked {
        Asked {
            words: Vec::new(alloc),
            until_eof: false,
            sync: None,
            is_verbose: false,
            status_file: None,
            names_conf: false,
            is_refused: false,
            awaits: None,
        }
    }

    /// The seconds that stand behind `--sync`.
    fn set_sync(&mut self, given: Option<u32>) {
        if given.is_none() || self.sync.is_some() {
            self.is_refused = true;
        }
        self.sync = given;
    }

    /// The name that stands behind `--status-file`.
    fn set_status_file(&mut self, name: String) {
        if name.is_empty() || self.status_file.is_some() {
            self.is_refused = true;
        }
        self.status_file = Some(name);
    }

    /// A word that asks for itself, or begins something.
    fn begin(&mut self, word: String) -> Result<(), AllocError> {
        if word.as_str() == UNTIL_EOF {
            self.until_eof = true;
        } else if word.as_str() == VERBOSE {
            self.is_verbose = true;
        } else if word.as_str() == SYNC {
            self.awaits = Some(Awaited::Seconds);
        } else if word.as_str() == STATUS_FILE {
            self.awaits = Some(Awaited::StatusFile);
        } else {
            let conf = word.as_str() == "--conf" || word.as_str().starts_with("--conf=");
            self.names_conf = self.names_conf || conf;
            self.words.push(word)?;
        }
        Ok(())
    }

    /// One word more, behind the one before it.
    fn take(&mut self, word: String) -> Result<(), AllocError> {
        match self.awaits.take() {
            Some(Awaited::Seconds) => self.set_sync(seconds(word.as_str())),
            Some(Awaited::StatusFile) => self.set_status_file(word),
            None => self.begin(word)?,
        }
        Ok(())
    }

    /// Parts the words of the command line.
    pub fn of(alloc: Global, words: Vec<String>) -> Result<Asked, AllocError> {
        let mut asked = Asked::none(alloc);
        for word in words {
            asked.take(word)?;
        }
        asked.is_refused = asked.is_refused || asked.awaits.is_some();
        Ok(asked)
    }
}
