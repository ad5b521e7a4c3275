//! Severities of messages, and the log levels that filter them.

ghost use Rattle.std.specs.Prelude.{◌≡◌, ◌≤◌, ◌↔◌, IsSome, IfSome, Some, unwrap_or};
ghost use Rattle.std.specs.Option.{SomeIff};
ghost use Rattle.dl_bytes.specs.Level.{severity_number, passes, own_level_of};

use std::marker::Model;

/// How grave a log message is: the field MTIN of its extended header.
#[derive(Clone, Copy, PartialEq, Eq)]
pub enum Severity {
    /// The control unit fails, 1.
    Fatal = 1,
    /// A function fails, 2.
    Error = 2,
    /// Something is not as expected, 3.
    Warn = 3,
    /// What the program does, 4.
    Info = 4,
    /// For whoever looks for a fault in the program, 5.
    Debug = 5,
    /// All there is, 6.
    Verbose = 6,
}

impl Severity {
    /// The severity with this number of the standard.
    pub fn of(n: u8) -> Option<Severity>
        ensures known { IsSome result ↔ ((1 ≤ n) × (n ≤ 6)) }
        ensures value { IfSome result (λ severity. severity_number severity ≡ n) }
    {
        match n {
            1 => Some(Severity::Fatal),
            2 => Some(Severity::Error),
            3 => Some(Severity::Warn),
            4 => Some(Severity::Info),
            5 => Some(Severity::Debug),
            6 => Some(Severity::Verbose),
            _ => None,
        }
    }

    /// Its number in the standard, 1 to 6.
    pub fn number(&self) -> u8
        ensures value { result ≡ severity_number self.now }
        ensures range { (1 ≤ result) × (result ≤ 6) }
    {
        *self as u8
    }
}

/// A log level, 0 (off) to 6 (verbose): messages whose severity is above it are filtered.
#[derive(Clone, Copy, PartialEq, Eq)]
pub struct Level {
    number: u8,
}

impl Model for Level {
    ghost use Rattle.std.specs.Prelude.{ℕ, ◌≤◌};

    ghost Value = { ℕ };

    ghost view = { λ l. l.number };

    ghost invariant = { λ l. l.number ≤ 6 };

    ghost inverse = { λ n. record { number = n } };
}

impl Level {
    /// The level with this number.
    pub fn of(n: u8) -> Option<Level>
        ensures { SomeIff result (n ≤ 6) n }
    {
        if n <= 6 {
            Some(Level { number: n })
        } else {
            None
        }
    }

    /// Its number, 0 to 6.
    pub fn number(&self) -> u8
        ensures value { result ≡ self.now }
        ensures range { self.now ≤ 6 }
    {
        self.number
    }

    /// Whether a message of this severity is let through.
    pub fn passes(&self, severity: Severity) -> bool
        ensures { result ≡ passes severity self.now }
    {
        severity.number() <= self.number
    }
}

/// The level that lets this severity through, and nothing less grave.
impl From<Severity> for Level {
    ghost from_gives = { λ severity level. level ≡ severity_number severity };

    fn from(severity: Severity) -> Level {
        Level {
            number: severity.number(),
        }
    }
}

/// The level that a context has of its own, or none where it follows the daemon's default level.
#[derive(Clone, Copy, PartialEq, Eq)]
pub struct OwnLevel {
    level: Option<Level>,
}

impl Model for OwnLevel {
    ghost use Rattle.std.specs.Prelude.{ℕ, Option};

    ghost Value = { Option ℕ };

    ghost view = { λ o. o.level };

    ghost inverse = { λ level. record { level = level } };
}

impl OwnLevel {
    /// The own level that a message writes as this number: -1 for none, 0 to 6 for a level.
    pub fn of(n: i8) -> Option<OwnLevel>
        ensures { result ≡ own_level_of n }
    {
        match n {
            -1 => Some(OwnLevel { level: None }),
            0..=6 => Some(OwnLevel {
                level: Level::of(n as u8),
            }),
            _ => None,
        }
    }

    /// The number that a message writes for it, -1 to 6.
    pub fn number(&self) -> i8
        ensures { own_level_of result ≡ Some self.now }
    {
        match self.level {
            None => -1,
            Some(level) => level.number() as i8,
        }
    }

    /// The level that filters, where the daemon's default level is `default`.
    pub fn effective(&self, default: Level) -> Level
        ensures { result ≡ unwrap_or self.now default }
    {
        self.level.unwrap_or(default)
    }
}
