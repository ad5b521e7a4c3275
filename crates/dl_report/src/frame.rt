//! The bytes of a frame in hexadecimal digits.

ghost use Rattle.std.specs.Prelude.{◌≡◌, ◌<◌, ◌≤◌, ◌++◌, OnOk, length, slice_index};
ghost use Rattle.std.specs.List.{flat_map};
ghost use Rattle.hex.specs.Hex.{upper_digits};
ghost use Rattle.dl_model.specs.Report.{frame_line};
ghost use Rattle.dl_report.specs.Line.{spelled};

use dl_bytes::OutOfMemory;

/// How many bytes are spelled at once.
const PIECE: usize = 64;

/// How many letters spell them.
const LETTERS: usize = 192;

/// The digit of a number below sixteen.
fn digit(number: u8) -> u8
    requires { number < 16 }
    ensures { result ≡ slice_index upper_digits number }
{
    if number < 10 {
        b'0' + number
    } else {
        b'A' - 10 + number
    }
}

/// Spells each byte as two digits and a blank.
fn spell(letters: &mut [u8; LETTERS], piece: &[u8; PIECE])
    ensures { letters.new ≡ flat_map spelled piece.now }
{
    for place in 0..PIECE {
        letters[3 * place] = digit(piece[place] / 16);
        letters[3 * place + 1] = digit(piece[place] % 16);
        letters[3 * place + 2] = b' ';
    }
}

/// Adds the bytes of a piece, each as two digits and a blank.
fn push_piece(text: &mut Vec<u8>, bytes: &[u8]) -> Result<(), OutOfMemory>
    requires { length bytes.now ≤ 64 }
    ensures { OnOk result (text.new.items ≡ text.old.items ++ flat_map spelled bytes.now) }
{
    let mut piece = [0; PIECE];
    piece[..bytes.len()].copy_from_slice(bytes);
    let mut letters = [0; LETTERS];
    spell(&mut letters, &piece);
    text.extend_from_slice(&letters[..3 * bytes.len()])
}

/// Adds the bytes, each as two digits and a blank.
fn push_bytes(text: &mut Vec<u8>, bytes: &[u8]) -> Result<(), OutOfMemory>
    ensures { OnOk result (text.new.items ≡ text.old.items ++ flat_map spelled bytes.now) }
{
    for piece in bytes.chunks(PIECE) {
        push_piece(text, piece)?;
    }
    Ok(())
}

/// Adds a frame's line: its bytes in hexadecimal digits, parted by one blank.
pub fn push_frame(text: &mut Vec<u8>, frame: &[u8]) -> Result<(), OutOfMemory>
    ensures { OnOk result (text.new.items ≡ text.old.items ++ frame_line frame.now) }
{
    if frame.is_empty() {
        return text.extend_from_slice(b"\n");
    }
    push_bytes(text, frame)?;
    let blank = text.len() - 1;
    text[blank] = b'\n';
    Ok(())
}
