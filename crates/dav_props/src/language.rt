//! Parses a list of languages, the value of `DAV:getcontentlanguage` (RFC 4918, section 15.3).
ghost use Rattle.std.specs.Prelude.{◌≡◌, ℕ, List, [], ◌∷◌, ◌++◌, codes, IsTrue};
ghost use Rattle.std.specs.Char.{is_ascii_alphanumeric};
ghost use Rattle.dav_headers.specs.Values.{is_blank};
ghost use Rattle.dav_props.specs.Language.{is_subtag_length, is_language_list};

/// The maximum number of letters and digits in a subtag (RFC 3066, section 2.1).
const MAX_SUBTAG_LENGTH: u8 = 8;

/// The state of parsing a language list (RFC 9110, section 8.5).
#[derive(Clone, Copy, Debug, PartialEq, Eq)]
pub(crate) enum LanguageList {
    /// This many letters of a tag's first subtag were read. With 0, a tag must follow.
    Primary(u8),
    /// This many letters and digits of a later subtag were read. With 0, only the hyphen before it.
    Subtag(u8),
    /// Blanks after a tag were read.
    Behind,
    /// The input is no language list, whatever follows.
    Unreadable,
}

impl LanguageList {
    ghost use Rattle.dav_props.specs.LanguageList.{accepts};

    /// Returns the state before any input.
    pub fn new() -> LanguageList
        ensures { (rest : List ℕ) → accepts result rest ≡ is_language_list rest }
    {
        LanguageList::Primary(0)
    }

    /// Returns the state after this text. It accepts what the old state accepts after the text.
    pub fn read(self, text: &str) -> LanguageList
        ensures { (rest : List ℕ) → accepts result rest ≡ accepts self (text.now ++ rest) }
    {
        let mut list = self;
        for byte in text.as_bytes() {
            list = list.after(*byte);
        }
        list
    }

    /// Returns whether the input so far is a language list.
    pub fn is_whole(self) -> bool
        ensures { result ≡ accepts self [] }
    {
        match self {
            LanguageList::Primary(count) | LanguageList::Subtag(count) => is_subtag_length(count),
            LanguageList::Behind => true,
            LanguageList::Unreadable => false,
        }
    }

    /// Returns the state after one more byte.
    fn after(self, byte: u8) -> LanguageList
        ensures { (rest : List ℕ) → accepts result rest ≡ accepts self (byte ∷ rest) }
    {
        if byte.is_ascii_alphanumeric() {
            return self.after_letter(byte);
        }
        match byte {
            b',' => self.after_comma(),
            b'-' => self.after_hyphen(),
            b' ' | b'\t' => self.after_blank(byte),
            _ => LanguageList::Unreadable,
        }
    }

    /// Returns the state after one more letter or digit.
    fn after_letter(self, byte: u8) -> LanguageList
        requires { IsTrue (is_ascii_alphanumeric byte) }
        ensures { (rest : List ℕ) → accepts result rest ≡ accepts self (byte ∷ rest) }
    {
        match self {
            LanguageList::Primary(count) => {
                if count < MAX_SUBTAG_LENGTH && byte.is_ascii_alphabetic() {
                    LanguageList::Primary(count + 1)
                } else {
                    LanguageList::Unreadable
                }
            }
            LanguageList::Subtag(count) => {
                if count < MAX_SUBTAG_LENGTH {
                    LanguageList::Subtag(count + 1)
                } else {
                    LanguageList::Unreadable
                }
            }
            LanguageList::Behind | LanguageList::Unreadable => LanguageList::Unreadable,
        }
    }

    /// Returns the state after a comma: a tag ends, and the next one must follow.
    fn after_comma(self) -> LanguageList
        ensures { (rest : List ℕ) → accepts result rest ≡ accepts self (codes "," ++ rest) }
    {
        if self.is_whole() {
            LanguageList::new()
        } else {
            LanguageList::Unreadable
        }
    }

    /// Returns the state after a hyphen: a subtag ends, and the next one must follow.
    fn after_hyphen(self) -> LanguageList
        ensures { (rest : List ℕ) → accepts result rest ≡ accepts self (codes "-" ++ rest) }
    {
        match self {
            LanguageList::Primary(count) | LanguageList::Subtag(count) => {
                if is_subtag_length(count) {
                    LanguageList::Subtag(0)
                } else {
                    LanguageList::Unreadable
                }
            }
            LanguageList::Behind | LanguageList::Unreadable => LanguageList::Unreadable,
        }
    }

    /// Returns the state after a blank, which may come before a tag and after one.
    fn after_blank(self, blank: u8) -> LanguageList
        requires { IsTrue (is_blank blank) }
        ensures { (rest : List ℕ) → accepts result rest ≡ accepts self (blank ∷ rest) }
    {
        if self.is_whole() {
            return LanguageList::Behind;
        }
        match self {
            LanguageList::Primary(count) => {
                if count == 0 {
                    self
                } else {
                    LanguageList::Unreadable
                }
            }
            LanguageList::Subtag(_) | LanguageList::Behind | LanguageList::Unreadable => {
                LanguageList::Unreadable
            }
        }
    }
}

/// Returns whether a subtag may have this many letters and digits.
fn is_subtag_length(count: u8) -> bool
    ensures { result ≡ is_subtag_length count }
{
    (1..=MAX_SUBTAG_LENGTH).contains(&count)
}
