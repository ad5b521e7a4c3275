//! What words ask for.

ghost use Rattle.std.specs.Prelude.{◌≡◌, ◌<◌, IfSome};
ghost use Rattle.dl_find_words.specs.Asking.{fraction_of, number_below, point_of, question_of, scaled, ticks_of, when_of};

use crate::question::{Point, Question};
use dl_text::{number, parted_at, read_id};

/// A number below a limit.
fn number_below(text: &[u8], limit: u64) -> Option<u64>
    ensures { result ≡ number_below limit text.now }
{
    match number(text) {
        Some(n) if n < limit => Some(n),
        Some(_) => None,
        None => None,
    }
}

/// So many digits behind the point, in units of 0.1 ms.
fn scaled(digits: usize, n: u64) -> Option<u64>
    requires { n < 10000 }
    ensures { result ≡ scaled digits n }
{
    match digits {
        1 => Some(n * 1000),
        2 => Some(n * 100),
        3 => Some(n * 10),
        4 => Some(n),
        _ => None,
    }
}

/// One to four digits behind the point, in units of 0.1 ms.
fn fraction_of(text: &[u8]) -> Option<u64>
    ensures value { result ≡ fraction_of text.now }
    ensures range { IfSome result (λ n. n < 10000000) }
{
    let n = number_below(text, 10000)?;
    scaled(text.len(), n)
}

/// A time in seconds, in units of 0.1 ms, where a timestamp has so much.
fn ticks_of(whole: &[u8], part: &[u8]) -> Option<u32>
    ensures { result ≡ ticks_of whole.now part.now }
{
    let seconds = number_below(whole, 429_497)?;
    let fraction = fraction_of(part)?;
    let ticks = seconds * 10000 + fraction;
    if ticks < 4_294_967_296 {
        Some(ticks as u32)
    } else {
        None
    }
}

/// A time in seconds, which has a point, or a message counter.
fn point_of(text: &[u8]) -> Option<Point>
    ensures { result ≡ point_of text.now }
{
    let Some((whole, part)) = parted_at(text, b'.') else {
        let mcnt = number_below(text, 256)?;
        return Some(Point::Counter(mcnt as u8));
    };
    let ticks = ticks_of(whole, part)?;
    Some(Point::Time(ticks))
}

/// The same, with the number of the session before a colon, where one is named.
fn when_of(text: &[u8]) -> Option<(Option<u32>, Point)>
    ensures { result ≡ when_of text.now }
{
    let Some((session, rest)) = parted_at(text, b':') else {
        let point = point_of(text)?;
        return Some((None, point));
    };
    let seid = number_below(session, 4_294_967_296)?;
    let point = point_of(rest)?;
    Some((Some(seid as u32), point))
}

/// What the words ask for: an application's id, a context's id, and the time of a message in seconds or its counter, with the number of its session
/// before it where one is named.
pub fn question_of(apid: &str, ctid: &str, when: &str) -> Option<Question>
    ensures { result ≡ question_of apid.now ctid.now when.now }
{
    let apid = read_id(apid.as_bytes())?;
    let ctid = read_id(ctid.as_bytes())?;
    let (seid, point) = when_of(when.as_bytes())?;
    Some(Question {
        apid,
        ctid,
        seid,
        point,
    })
}
