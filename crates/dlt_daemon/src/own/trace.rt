//! What has become of the trace since it was looked at last.

use crate::own::message::Message;
use crate::own::sender::OwnSender;
use dl_bytes::{TraceEnd, TraceFile, TraceState};
use dl_daemon::Passed;

/// The trace, as it was looked at last.
#[derive(Clone, Copy)]
pub struct Trace {
    // the number of the newest file, and how many stood
    newest: Option<u64>,
    files: u64,
    has_ended: bool,
    renewed: u64,
    unstored: u64,
}

/// The number in the name of a trace file: its last digits.
fn number_in(name: &[u8]) -> u64 {
    let mut number: u64 = 0;
    let mut is_within = false;
    for byte in name {
        if byte.is_ascii_digit() {
            let digit = byte.saturating_sub(b'0') as u64;
            let front = if is_within { number } else { 0 };
            number = front.saturating_mul(10).saturating_add(digit);
            is_within = true;
        } else {
            is_within = false;
        }
    }
    number
}

impl Trace {
    /// No trace file stands yet.
    pub fn none() -> Trace {
        Trace {
            newest: None,
            files: 0,
            has_ended: false,
            renewed: 0,
            unstored: 0,
        }
    }

    /// Says that it was begun anew.
    fn look_whether_renewed(&mut self, passed: &Passed, says: &mut OwnSender, ticks: u32) {
        if passed.renewed == self.renewed {
            return;
        }
        let missing = passed.unstored.saturating_sub(self.unstored);
        says.say(&Message::TraceRestarted(missing), ticks);
        self.renewed = passed.renewed;
        self.unstored = passed.unstored;
        self.has_ended = false;
    }

    /// Says that it has ended.
    fn look_whether_ended(&mut self, end: Option<TraceEnd>, says: &mut OwnSender, ticks: u32) {
        if let Some(end) = end {
            if !self.has_ended {
                says.say(&Message::TraceEnded(end), ticks);
            }
            self.has_ended = true;
        }
    }

    /// Says which file it goes on in. Answers whether that is another one.
    fn look_at_files(&mut self, files: &[TraceFile], says: &mut OwnSender, ticks: u32) -> bool {
        let Some(newest) = files.last() else {
            return false;
        };
        let number = number_in(newest.name.all());
        if self.newest == Some(number) {
            return false;
        }
        let count = files.len() as u64;
        if let Some(before) = self.newest {
            let begun = number.saturating_sub(before);
            let removed = self.files.saturating_add(begun).saturating_sub(count);
            says.say(&Message::TraceFile(number, removed), ticks);
        } else {
            says.say(&Message::TraceFile(number, 0), ticks);
        }
        self.newest = Some(number);
        self.files = count;
        true
    }

    /// Says what has become of it. Answers whether another file has begun.
    pub fn look(
        &mut self,
        state: Option<&TraceState>,
        passed: &Passed,
        says: &mut OwnSender,
        ticks: u32,
    ) -> bool {
        self.look_whether_renewed(passed, says, ticks);
        let Some(state) = state else {
            return false;
        };
        self.look_whether_ended(state.end, says, ticks);
        self.look_at_files(state.files.all(), says, ticks)
    }

    /// A session has begun, which counts anew how often the trace was restarted.
    pub fn begin_session(&mut self) {
        self.has_ended = false;
        self.renewed = 0;
        self.unstored = 0;
    }

    /// The files that stand before the daemon says anything are no news.
    pub fn note(&mut self, state: Option<&TraceState>) {
        let Some(state) = state else {
            return;
        };
        let files = state.files.all();
        if let Some(newest) = files.last() {
            self.newest = Some(number_in(newest.name.all()));
            self.files = files.len() as u64;
        }
    }
}
