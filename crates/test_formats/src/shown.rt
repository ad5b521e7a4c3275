//! What an independent decoder printed, read along with what is read here: each part of the text is taken off its front where it says the same.

use dl_args::{Arg, ArgFault, Order, Width, read_args};
use dl_bytes::Bytes;
use std::alloc::Global;

/// The text that is left.
#[derive(Clone, Copy)]
pub struct Shown<'a> {
    left: &'a [u8],
}

/// The digit of a half byte.
fn digit(half: u8) -> u8 {
    match half & 15 {
        n if n < 10 => b'0'.saturating_add(n),
        n => b'a'.saturating_add(n).saturating_sub(10),
    }
}

impl<'a> Shown<'a> {
    /// All of a text.
    pub fn of(text: &'a str) -> Shown<'a> {
        Shown {
            left: text.as_bytes(),
        }
    }

    /// Whether nothing is left.
    pub fn is_over(&self) -> bool {
        self.left.is_empty()
    }

    /// Takes these letters off the front, where they stand there.
    pub fn takes(&mut self, letters: &[u8]) -> bool {
        match self.left.strip_prefix(letters) {
            Some(left) => {
                self.left = left;
                true
            }
            None => false,
        }
    }

    /// Takes one byte off the front.
    fn byte(&mut self) -> Option<u8> {
        match self.left {
            [first, left @ ..] => {
                self.left = left;
                Some(*first)
            }
            [] => None,
        }
    }

    /// Takes a byte in two hexadecimal digits.
    fn takes_two(&mut self, byte: u8) -> bool {
        self.byte() == Some(digit(byte >> 4)) && self.byte() == Some(digit(byte))
    }

    /// Takes bytes in hexadecimal.
    fn takes_hex(&mut self, bytes: &[u8]) -> bool {
        for byte in bytes {
            if !self.takes_two(*byte) {
                return false;
            }
        }
        true
    }

    /// Takes a byte in two upper-case hexadecimal digits.
    pub fn takes_upper(&mut self, byte: u8) -> bool {
        self.byte() == Some(digit(byte >> 4).to_ascii_uppercase())
            && self.byte() == Some(digit(byte).to_ascii_uppercase())
    }

    /// Takes the digits at the front: the number that they are, and how many they are.
    fn digits(&mut self) -> (u128, u32) {
        let (mut number, mut count) = (0u128, 0u32);
        for letter in self.left {
            if !letter.is_ascii_digit() {
                break;
            }
            number = number
                .wrapping_mul(10)
                .wrapping_add(u128::from(*letter & 15));
            count = count.saturating_add(1);
        }
        self.left = self.left.get(count as usize..).unwrap_or(&[]);
        (number, count)
    }

    /// Takes a decimal number.
    pub fn takes_number(&mut self, number: u128) -> bool {
        let (found, count) = self.digits();
        found == number && count == number.checked_ilog10().unwrap_or(0).saturating_add(1)
    }

    /// The same of one with a sign.
    fn takes_signed(&mut self, number: i128) -> bool {
        (number >= 0 || self.takes(b"-")) && self.takes_number(number.unsigned_abs())
    }

    /// Takes a number, or a dash for none.
    pub fn takes_number_or_none(&mut self, number: Option<u32>) -> bool {
        match number {
            Some(number) => self.takes_number(u128::from(number)),
            None => self.takes(b"-"),
        }
    }

    /// Takes an id without the zero bytes at its end.
    pub fn takes_id(&mut self, id: [u8; 4]) -> bool {
        for byte in &id {
            if *byte != 0 && !self.takes(&[*byte]) {
                return false;
            }
        }
        true
    }

    /// Takes a name, or a dash for none.
    fn takes_name(&mut self, name: &Option<Bytes>) -> bool {
        match name {
            Some(bytes) => self.takes_hex(bytes.all()),
            None => self.takes(b"-"),
        }
    }

    /// Takes how many bits a number has, its name and its unit.
    fn takes_front(&mut self, width: Width, name: &Option<Bytes>, unit: &Option<Bytes>) -> bool {
        self.takes_number(bits(width))
            && self.takes(b":")
            && self.takes_name(name)
            && self.takes(b",")
            && self.takes_name(unit)
            && self.takes(b",")
    }

    /// Takes a name and bytes.
    fn takes_bytes(&mut self, name: &Option<Bytes>, bytes: &[u8]) -> bool {
        self.takes_name(name) && self.takes(b",") && self.takes_hex(bytes)
    }

    /// Takes an argument: the kind, with a name, a unit and the value, or with a name and the bytes.
    fn takes_arg(&mut self, arg: &Arg) -> bool {
        match arg {
            Arg::Bool { name, value } => {
                let shown: &[u8] = if *value { b",1" } else { b",0" };
                self.takes(b"bool:") && self.takes_name(name) && self.takes(shown)
            }
            Arg::Sint {
                name,
                unit,
                width,
                value,
            } => {
                self.takes(b"sint")
                    && self.takes_front(*width, name, unit)
                    && self.takes_signed(*value)
            }
            Arg::Uint {
                name,
                unit,
                width,
                value,
            } => {
                self.takes(b"uint")
                    && self.takes_front(*width, name, unit)
                    && self.takes_number(*value)
            }
            Arg::Text { name, bytes, utf8 } => {
                let kind: &[u8] = if *utf8 { b"utf8:" } else { b"ascii:" };
                self.takes(kind) && self.takes_bytes(name, bytes.all())
            }
            Arg::Raw { name, bytes } => {
                self.takes(b"raw:") && self.takes_bytes(name, bytes.all())
            }
        }
    }

    /// Takes arguments, with a semicolon between them.
    fn takes_args(&mut self, args: &[Arg]) -> bool {
        for (place, arg) in args.iter().enumerate() {
            if place > 0 && !self.takes(b"; ") || !self.takes_arg(arg) {
                return false;
            }
        }
        true
    }

    /// Takes why arguments could not be read, or nothing where they could.
    fn takes_refusal(&mut self, refusal: Option<ArgFault>) -> bool {
        match refusal {
            None => true,
            Some(ArgFault::Short(place)) => {
                self.takes(b" ! short ") && self.takes_number(place as u128)
            }
            Some(ArgFault::Unsupported(place, info)) => {
                self.takes(b" ! unsupported ")
                    && self.takes_number(place as u128)
                    && self.takes(b" ")
                    && self.takes_number(u128::from(info))
            }
            Some(ArgFault::Value(place)) => {
                self.takes(b" ! value ") && self.takes_number(place as u128)
            }
            Some(ArgFault::OutOfMemory) => false,
        }
    }

    /// Takes the first arguments of a payload, where so many can be read.
    fn takes_front_of(
        &mut self,
        alloc: Global,
        payload: &[u8],
        order: Order,
        count: u8,
    ) -> Result<bool, ArgFault> {
        match read_args(alloc, payload, order, count) {
            Ok(args) => Ok(self.takes_args(args.all())),
            Err(fault) => Err(fault),
        }
    }

    /// Takes the arguments of a payload; where one can't be read, those before it and the refusal.
    pub fn takes_payload(
        &mut self,
        alloc: Global,
        payload: &[u8],
        order: Order,
        count: u8,
    ) -> bool {
        let mut refusal = None;
        for readable in (0..=count).rev() {
            match self.takes_front_of(alloc, payload, order, readable) {
                Ok(is_so) => return is_so && self.takes_refusal(refusal),
                Err(fault) => refusal = Some(fault),
            }
        }
        false
    }
}

/// How many bits a number has.
fn bits(width: Width) -> u128 {
    match width {
        Width::W8 => 8,
        Width::W16 => 16,
        Width::W32 => 32,
        Width::W64 => 64,
        Width::W128 => 128,
    }
}
