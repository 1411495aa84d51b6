// The words of a case: decimal numbers, and bytes in hex.

// No number of a case is larger.
const LARGE: usize = 100000000;

// A line, and the place up to which it is read.
#[derive(Clone, Copy)]
pub(crate) struct Words<'a> {
    line: &'a [u8],
    at: usize,
}

impl<'a> Words<'a> {
    pub(crate) fn of(line: &'a [u8]) -> Words<'a> {
        Words { line, at: 0 }
    }

    // What is not read yet.
    pub(crate) fn rest(self) -> &'a [u8] {
        &self.line[self.at.min(self.line.len())..]
    }

    // What is read.
    pub(crate) fn read(self) -> &'a [u8] {
        &self.line[..self.at.min(self.line.len())]
    }

    // Goes on to the next byte of a kind, or to the end.
    pub(crate) fn find<K: Fn(u8) -> bool>(&mut self, kind: K)
        requires { K.IsAlwaysCallable kind }
    {
        let rest = self.rest();
        let n = rest.iter().position(|c| kind(*c)).unwrap_or(rest.len());
        self.at = self.at.saturating_add(n);
    }

    // The byte before the present place, or 0 where there is none.
    pub(crate) fn last(self) -> u8 {
        self.line.get(self.at.wrapping_sub(1)).copied().unwrap_or(0)
    }

    // The next number; what is read then is the number and the blank that ends it.
    pub(crate) fn number(&mut self) -> usize {
        self.find(|c| c.is_ascii_digit());
        let rest = self.rest();
        self.find(|c| !c.is_ascii_digit());
        let end = rest.len().saturating_sub(self.rest().len());
        self.at = self.at.saturating_add(1);
        rest[..end].iter().fold(0, |value, c| with_digit(value, *c))
    }

    // The bytes whose hex digits stand in the rest; answers how many they are.
    pub(crate) fn hex(self, bytes: &mut [u8]) -> usize {
        let rest = self.rest();
        for (to, pair) in bytes.iter_mut().zip(rest.chunks_exact(2)) {
            *to = hex_pair(pair[0], pair[1]);
        }
        (rest.len() / 2).min(bytes.len())
    }

    // The bytes of a case: those in hex after the next number, then as many zeros as it says.
    pub(crate) fn bytes<'b>(mut self, bytes: &'b mut [u8]) -> &'b [u8] {
        let zeros = self.number();
        let end = self.hex(&mut *bytes).saturating_add(zeros).min(bytes.len());
        &bytes[..end]
    }
}

// A number with one digit more.
fn with_digit(value: usize, c: u8) -> usize {
    if LARGE < value || c < b'0' {
        return value;
    }
    10 * value + (c - b'0') as usize
}

fn hex_digit(c: u8) -> u8 {
    match c {
        b'0'..=b'9' => c - 48,
        b'A'..=b'F' => c - 55,
        _ => 0,
    }
}

fn hex_pair(a: u8, b: u8) -> u8 {
    16 * (hex_digit(a) % 16) + hex_digit(b) % 16
}
