// An input of any length, read piece by piece: lent bytes hold a part of it, and a record says which of them are still unread.
#![tactic(auto)]

ghost use Rattle.std.specs.Prelude.{◌≡◌, ◌≤◌, ◌⊎◌, length, take, drop};
ghost use Rattle.std.specs.Io.KnownBytes.{Consumes, IsAtEnd};
ghost use Rattle.input.specs.Held.{unread_of, taken_of, Slid, ReadOn, FilledUp, IsShort};
ghost use Rattle.input.specs.declared.Input.TheVariants.{Ended};

use lent_bytes::{least, slide};
use std::io::Read;

// The unread bytes are those from `from` up to `end`. The bytes stay beside it, so that a place is copied and the lent bytes are not.
#[derive(Clone, Copy)]
pub struct Held {
    pub from: usize,
    pub end: usize,
}

// What became of the input behind them: there may be more, it has ended, or it could not be read. Three states, of which none is an absence.
#[derive(Clone, Copy)]
pub enum Input {
    Open,
    Ended,
    Failed,
}

impl Held {
    // Nothing is held yet.
    pub fn blank() -> Held
        ensures { (result.from ≡ 0) × (result.end ≡ 0) }
    {
        Held { from: 0, end: 0 }
    }

    // The bytes that are still unread. Of a record that reaches beyond the lent bytes, those that are there.
    pub fn unread(self, bytes: &[u8]) -> &[u8]
        ensures { result.now ≡ unread_of bytes.now self }
    {
        // `least` here and below, and no `min` of the library: so its promise and its edit are of what runs
        let end = least(self.end, bytes.len());
        let from = least(self.from, end);
        &bytes[from..end]
    }

    // Takes n of the unread bytes as read, or all where there are fewer.
    #[tactic(auto, unfolding(crate::specs::Held::taken_of))]
    pub fn taken(self, n: usize) -> Held
        ensures { result ≡ taken_of self n }
    {
        Held {
            from: self.from.saturating_add(n).min(self.end),
            end: self.end,
        }
    }

    // The unread bytes moved to the front, so that there is room behind them.
    fn slide(&mut self, bytes: &mut [u8])
        ensures { Slid bytes.old self.old self.new bytes.new }
    {
        let end = least(self.end, bytes.len());
        let from = least(self.from, end);
        slide(bytes, from, end - from);
        *self = Held {
            from: 0,
            end: end - from,
        };
    }

    // Reads behind what is held until all of the lent bytes are filled, the input ends or a read fails.
    fn read_on<R: Read>(&mut self, reader: &mut R, bytes: &mut [u8]) -> Input
        requires { self.old.end ≤ length bytes.old }
        ensures read { ReadOn bytes.old self.old self.new result bytes.new }
        ensures source { Consumes (R.remaining reader.old) (R.remaining reader.new)
            (drop self.old.end (take self.new.end bytes.new)) }
        ensures ended { result ≡ Ended → IsAtEnd (R.remaining reader.new) }
    {
        // how far a turn goes is the reader's to say
        while self.end < bytes.len() {
            match reader.read(&mut bytes[self.end..]) {
                Err(_) => return Input::Failed,
                Ok(0) => return Input::Ended,
                Ok(n) => self.end += n,
            }
        }
        Input::Open
    }

    // Slides the unread bytes to the front and reads behind them. Which bytes come is the reader's to say; the unread ones stay, and
    // the input is told to be open only where all of the lent bytes are filled. Of a reader that says which bytes it has left, those behind
    // the unread ones are its next, and it is told to have ended only where none is left.
    pub fn fill<R: Read>(&mut self, reader: &mut R, bytes: &mut [u8]) -> Input
        ensures filled { FilledUp bytes.old self.old self.new result bytes.new }
        ensures source { Consumes (R.remaining reader.old) (R.remaining reader.new)
            (drop (length (unread_of bytes.old self.old)) (unread_of bytes.new self.new)) }
        ensures ended { result ≡ Ended → IsAtEnd (R.remaining reader.new) }
    {
        self.slide(bytes);
        self.read_on(reader, bytes)
    }
}

// An input as far as it is read, with lent bytes for a piece of it.
#[derive(Drop)]
pub struct Source<'a, R> {
    pub reader: &'a mut R,
    pub piece: &'a mut [u8],
    pub held: Held,
    pub input: Input,
}

impl<R> Source<'_, R> {
    // The bytes that are still unread.
    pub fn unread(&self) -> &[u8]
        ensures { result.now ≡ unread_of self.entry.now.piece.now self.entry.now.held }
    {
        self.held.unread(self.piece)
    }
}

impl<R: Read> Source<'_, R> {
    // Reads on as `Held::fill` does where the input is open and fewer than so many bytes are unread. Else all is as it was.
    pub fn refill(&mut self, least: usize)
        ensures lent { (self.new.reader.ghost_name ≡ self.old.reader.ghost_name)
            × (self.new.piece.ghost_name ≡ self.old.piece.ghost_name) }
        ensures same { IsShort self.old least ⊎ (self.new ≡ self.old) }
        ensures filled { IsShort self.old least → FilledUp self.old.piece.now self.old.held self.new.held self.new.input self.new.piece.now }
        ensures source { IsShort self.old least → Consumes (R.remaining self.old.reader.now) (R.remaining self.new.reader.now)
            (drop (length (unread_of self.old.piece.now self.old.held)) (unread_of self.new.piece.now self.new.held)) }
        ensures ended { IsShort self.old least → self.new.input ≡ Ended → IsAtEnd (R.remaining self.new.reader.now) }
    {
        if matches!(self.input, Input::Open) && self.unread().len() < least {
            self.input = self.held.fill(&mut *self.reader, &mut *self.piece);
        }
    }
}
