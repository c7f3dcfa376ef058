ghost use Rattle.std.specs.Prelude.{◌≡◌, ℕ, ◌+◌, ◌≤◌, List, [], ◌++◌, length, decimal};
ghost use Rattle.verdict.specs.Room.{room};

use arrayvec::ArrayVec;
use itoa::Buffer;
use std::marker::Model;

/// How many bytes a line has room for.
pub(crate) const ROOM: usize = 96;

/// A line of text as it is made.
#[derive(Drop)]
pub(crate) struct Line {
    bytes: ArrayVec<u8, ROOM>,
}

impl Model for Line {
    ghost Value = { List ℕ };

    ghost view = { λ line. line.bytes.items };
}

impl Line {
    /// A line with no text.
    pub(crate) fn new() -> Line
        ensures { result ≡ [] }
    {
        Line {
            bytes: ArrayVec::new(),
        }
    }

    /// The text.
    pub(crate) fn text(&self) -> &[u8]
        ensures text { result.now ≡ self.now }
        ensures within { length result.now ≤ room }
    {
        self.bytes.as_slice()
    }

    /// Adds a word, for which there is room.
    pub(crate) fn push(&mut self, word: &[u8])
        requires { length self.old + length word.now ≤ room }
        ensures { self.new ≡ self.old ++ word.now }
    {
        self.bytes.try_extend_from_slice(word).unwrap();
    }

    /// Adds a word, and behind it a number in decimal. There is room for 20 digits, which are enough for any number.
    pub(crate) fn push_number(&mut self, word: &[u8], n: usize)
        requires { length self.old + length word.now + 20 ≤ room }
        ensures text { self.new ≡ self.old ++ word.now ++ decimal n }
        ensures len { length self.new ≤ length self.old + length word.now + 20 }
    {
        self.push(word);
        self.push(Buffer::new().format(n).as_bytes());
    }
}
