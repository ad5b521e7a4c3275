//! Which own levels contexts get.

ghost use Rattle.std.specs.Prelude.{◌≡◌, ◌<◌, IfSome, Some};
ghost use Rattle.dl_model.specs.Registry.{begins, ends_at, is_pattern, matches, names, star_at};
ghost use Rattle.dl_apps.specs.Change.{relevel_of};

use dl_bytes::{Id, OwnLevel};

/// Own levels for contexts.
#[derive(Clone, Copy)]
pub enum Relevel {
    /// Each context keeps the one that it has.
    Keep,
    /// Those that both ids match get this one; the zero id matches all, and one that ends in `*` those that begin so.
    Set {
        /// The application's id.
        apid: Id,
        /// The context's id.
        ctid: Id,
        /// The own level, or none.
        own: OwnLevel,
    },
}

/// The id whose one character is `*`.
const STAR: [u8; 4] = *b"*\0\0\0";

/// Whether an id is named: by itself, or by the zero id, which names all ids.
pub fn is_named(asked: Id, id: Id) -> bool
    ensures { result ≡ names asked id }
{
    asked.is_zero() || asked == id
}

/// Whether the last character of an id is a `*` behind so many others.
fn ends_at(id: Id, front: usize) -> bool
    requires { front < 4 }
    ensures { result ≡ ends_at id front }
{
    id.bytes()[front..] == STAR[..4 - front]
}

/// How many characters stand before the `*` that ends an id, where one does.
fn star_at(id: Id) -> Option<usize>
    ensures value { result ≡ star_at id }
    ensures limit { IfSome result (λ front. front < 4) }
{
    if ends_at(id, 0) {
        Some(0)
    } else if ends_at(id, 1) {
        Some(1)
    } else if ends_at(id, 2) {
        Some(2)
    } else if ends_at(id, 3) {
        Some(3)
    } else {
        None
    }
}

/// Whether an id begins with what is before the `*` that ends a pattern.
fn begins(pattern: Id, id: Id) -> bool
    ensures { result ≡ begins pattern id }
{
    match star_at(pattern) {
        Some(front) => pattern.bytes()[..front] == id.bytes()[..front],
        None => false,
    }
}

/// Whether an id matches a pattern: the zero id matches all ids, and one that ends in `*` those that begin with what is
/// before it.
pub fn is_match(pattern: Id, id: Id) -> bool
    ensures { result ≡ matches pattern id }
{
    is_named(pattern, id) || begins(pattern, id)
}

/// Whether an id can match others than itself.
pub fn is_pattern(id: Id) -> bool
    ensures { result ≡ is_pattern id }
{
    id.is_zero() || star_at(id).is_some()
}

impl Relevel {
    /// The own level that a context gets, by both ids and the one that it has.
    pub fn own(&self, apid: Id, ctid: Id, old: OwnLevel) -> OwnLevel
        ensures { result ≡ relevel_of self.now apid ctid old }
    {
        match self {
            Relevel::Keep => old,
            Relevel::Set {
                apid: app,
                ctid: context,
                own,
            } => {
                if is_match(*app, apid) && is_match(*context, ctid) {
                    *own
                } else {
                    old
                }
            }
        }
    }
}
