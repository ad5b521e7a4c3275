//! What went wrong with files and ports: each a sentence that names it and says why.

use crate::ready::has_room;
use crate::reasons::reason;
use std::alloc::Global;
use std::io::{Eprint, Error};
use std::net::IpAddr;

/// The most sentences that are kept.
const MOST: usize = 8;

/// The number of the descriptor of standard error.
const STANDARD_ERROR: i32 = 2;

/// The first sentences on what went wrong, each as `trace/dlt_offlinetrace.000004.dlt: no space left`. One that is the same as the one before it is not
/// kept again, and neither is one for which there is no memory.
#[derive(Drop)]
pub struct Troubles {
    alloc: Global,
    sentences: Vec<String>,
}

impl Troubles {
    /// Nothing went wrong yet.
    pub fn none(alloc: Global) -> Troubles {
        Troubles {
            alloc,
            sentences: Vec::new(alloc),
        }
    }

    /// The sentence on this name, where it is another one than the last, and there is memory for it.
    fn sentence(&self, name: &str, error: &Error) -> Option<String> {
        let why = reason(error);
        let text = format!(in self.alloc; "{name}: {why}").ok()?;
        if let Some(last) = self.sentences.last() {
            if last.as_str() == text.as_str() {
                return None;
            }
        }
        Some(text)
    }

    /// Keeps the sentence on this name.
    pub fn note(&mut self, name: &str, error: &Error) {
        if self.sentences.len() >= MOST {
            return;
        }
        if let Some(text) = self.sentence(name, error) {
            let _ = self.sentences.push(text);
        }
    }

    /// Keeps the sentence on a port of this address.
    pub fn note_port(&mut self, address: IpAddr, port: u16, error: &Error) {
        if let Ok(name) = format!(in self.alloc; "{address} port {port}") {
            self.note(name.as_str(), error);
        }
    }

    /// Says the sentence on this name at once on standard error, behind the program's name, and keeps it alone: the same sentence is not said twice in a
    /// row. Where standard error has no room now, it is left out, so that nothing waits for who reads it.
    pub fn tell<R: Eprint>(&mut self, rt: &R, program: &str, name: &str, error: &Error) {
        let Some(text) = self.sentence(name, error) else {
            return;
        };
        if has_room(STANDARD_ERROR) {
            let said = text.as_str();
            let _ = eprintln!(rt; "{program}: {said}");
        }
        self.sentences.clear();
        let _ = self.sentences.push(text);
    }

    /// The sentences, in their order.
    pub fn all(&self) -> &[String] {
        &self.sentences
    }
}

/// Says sentences on standard error, each in a line behind the program's name.
pub fn say_troubles<R: Eprint>(rt: &R, program: &str, sentences: &[String]) {
    for sentence in sentences {
        let text = sentence.as_str();
        let _ = eprintln!(rt; "{program}: {text}");
    }
}
