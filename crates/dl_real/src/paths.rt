//! Names of files, taken apart at their slashes.

/// Whether a name stays in its folder: it isn't empty, doesn't begin with a slash, and never goes up.
pub fn is_inside(name: &str) -> bool {
    !name.is_empty() && !name.starts_with('/') && !name.split('/').any(|part| part == "..")
}

/// The directory of a name, if it has one.
pub fn parent(name: &str) -> Option<&str> {
    match name.rsplit_once('/') {
        Some((directory, _)) => Some(directory),
        None => None,
    }
}

/// A name in two: up to its last slash, and behind it.
pub fn parted(name: &str) -> (&str, &str) {
    match name.rfind('/') {
        Some(at) => name.split_at(at + 1),
        None => ("", name),
    }
}

/// What the name of a trace file begins and ends with; six digits stand between.
const TRACE_FRONT: &str = "dlt_offlinetrace.";

const TRACE_END: &str = ".dlt";

/// The last part of a name, behind its last slash.
fn last_part(name: &str) -> &str {
    let (_, last) = parted(name);
    last
}

/// Whether the last part of a name is that of a trace file: `dlt_offlinetrace.`, six digits and `.dlt`.
pub fn is_trace_file(name: &str) -> bool {
    let Some(rest) = last_part(name).strip_prefix(TRACE_FRONT) else {
        return false;
    };
    match rest.strip_suffix(TRACE_END) {
        Some(digits) => digits.len() == 6 && digits.bytes().all(|digit| digit.is_ascii_digit()),
        None => false,
    }
}
