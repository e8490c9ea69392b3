//! SipHash-1-3, as `std::hash::DefaultHasher` computes it, eight bytes at a time.
ghost use Rattle.std.specs.Prelude.{◌≡◌, ◌<◌, ◌^◌, slice_index};
ghost use Rattle.std.specs.List.{concat};
ghost use Rattle.std.specs.Hash.DefaultHasher.{initial, write, finish, write_byte, write_word, read_word, round};
ghost use Rattle.dav_data.specs.Sip.{hasher_of, IsWhole};

/// The state of a hash.
#[derive(Clone, Copy)]
pub(crate) struct Sip {
    v0: u64,
    v1: u64,
    v2: u64,
    v3: u64,
    /// The bytes since the last whole word, the first of them lowest.
    tail: u64,
    /// The number of bytes so far, modulo 2^64.
    length: u64,
}

impl Sip {
    /// Begins a hash.
    pub fn new() -> Sip
        ensures { hasher_of result ≡ initial }
    {
        Sip {
            v0: 0x736f_6d65_7073_6575,
            v1: 0x646f_7261_6e64_6f6d,
            v2: 0x6c79_6765_6e65_7261,
            v3: 0x7465_6462_7974_6573,
            tail: 0,
            length: 0,
        }
    }

    /// Returns the state after these bytes.
    pub fn after(self, bytes: &[u8]) -> Sip
        ensures { hasher_of result ≡ write (hasher_of self) bytes.now }
    {
        let missing = (8 - self.length % 8) % 8;
        let (first, rest) = bytes.split_at(bytes.len().min(missing as usize));
        let state = self.after_bytes(first);
        if state.length % 8 != 0 || state.tail != 0 {
            return state.after_bytes(rest);
        }
        let (words, last) = rest.as_chunks::<8>();
        state.after_words(words).after_bytes(last)
    }

    /// Returns the hash of the bytes so far.
    pub fn finish(self) -> u64
        ensures { result ≡ finish (hasher_of self) }
    {
        let state = self.after_word((self.length & 0xFF) << 56 | self.tail);
        let state = Sip {
            v2: state.v2 ^ 0xFF,
            ..state
        };
        let state = state.round().round().round();
        state.v0 ^ state.v1 ^ state.v2 ^ state.v3
    }

    /// Returns the state after bytes, one by one.
    fn after_bytes(self, bytes: &[u8]) -> Sip
        ensures { hasher_of result ≡ write (hasher_of self) bytes.now }
    {
        let mut state = self;
        for byte in bytes {
            state = state.after_byte(*byte);
        }
        state
    }

    /// Returns the state after whole words, if there is no part of a word before them.
    fn after_words(self, words: &[[u8; 8]]) -> Sip
        requires { IsWhole self }
        ensures { hasher_of result ≡ write (hasher_of self) (concat words.now) }
    {
        let mut state = self;
        for word in words {
            state = Sip {
                length: state.length.wrapping_add(8),
                ..state.after_word(word_of(*word))
            };
        }
        state
    }

    /// Returns the state after a byte.
    fn after_byte(self, byte: u8) -> Sip
        ensures { hasher_of result ≡ write_byte (hasher_of self) byte }
    {
        let tail = self.tail | (byte as u64) << (8 * (self.length % 8));
        let length = self.length.wrapping_add(1);
        let state = Sip {
            tail,
            length,
            ..self
        };
        if length % 8 == 0 {
            Sip {
                tail: 0,
                ..state.after_word(tail)
            }
        } else {
            state
        }
    }

    /// Returns the state after a word. Its tail and its length are as before.
    fn after_word(self, word: u64) -> Sip
        ensures { hasher_of result ≡ write_word (hasher_of self) word }
    {
        let state = Sip {
            v3: self.v3 ^ word,
            ..self
        };
        let state = state.round();
        Sip {
            v0: state.v0 ^ word,
            ..state
        }
    }

    /// Returns the state after a round.
    fn round(self) -> Sip
        ensures { hasher_of result ≡ round (hasher_of self) }
    {
        let v0 = self.v0.wrapping_add(self.v1);
        let v2 = self.v2.wrapping_add(self.v3);
        let v1 = self.v1.rotate_left(13) ^ v0;
        let v3 = self.v3.rotate_left(16) ^ v2;
        let new_v2 = v2.wrapping_add(v1);
        let new_v0 = v0.rotate_left(32).wrapping_add(v3);
        Sip {
            v0: new_v0,
            v1: v1.rotate_left(17) ^ new_v2,
            v2: new_v2.rotate_left(32),
            v3: v3.rotate_left(21) ^ new_v0,
            ..self
        }
    }
}

/// Returns the word of eight bytes, the first of them lowest. A copy of the bytes is read at once.
fn word_of(bytes: [u8; 8]) -> u64
    ensures value { result ≡ read_word bytes 0 }
    ensures small { slice_index bytes 0 < 2 ^ 8 }
{
    let low = bytes[0] as u64
        | (bytes[1] as u64) << 8
        | (bytes[2] as u64) << 16
        | (bytes[3] as u64) << 24;
    low | (bytes[4] as u64) << 32
        | (bytes[5] as u64) << 40
        | (bytes[6] as u64) << 48
        | (bytes[7] as u64) << 56
}
