// The words of a form.

ghost use Rattle.std.specs.Prelude.{◌≡◌, ◌≤◌, length};
ghost use Rattle.fit_text.specs.Notation.{words_of};
ghost use Rattle.fit_text.specs.Json.{json_notation};
ghost use Rattle.fit_text.specs.Text.{text_notation};

/// The words of a form: what the text and the JSON of a file write where they differ.
#[derive(Drop)]
pub struct Notation {
    // In front of the numbers of the first line, and at its end.
    pub header: &'static [u8],
    pub protocol: &'static [u8],
    pub profile: &'static [u8],
    pub records: &'static [u8],
    pub header_end: &'static [u8],
    // The same of the last line.
    pub count: &'static [u8],
    pub count_end: &'static [u8],
    // Between two fields of a message, after its fields, and at the end of its line.
    pub between: &'static [u8],
    pub middle: &'static [u8],
    pub end: &'static [u8],
    /// Whether fields of size 0 are shown.
    pub empty: bool,
    /// An invalid value, in at most four bytes.
    pub invalid: &'static [u8],
    /// No values.
    pub nothing: &'static [u8],
    /// Around bytes and dates.
    pub mark: &'static [u8],
    // Around several numbers.
    pub opening: &'static [u8],
    pub closing: &'static [u8],
    /// In front of the digits of a byte that does not stand in a string as it is.
    pub escape: &'static [u8],
    /// Whether the bytes of UTF-8 stand in a string as they are.
    pub utf8: bool,
}

/// The words of a form, where no form is at hand.
pub trait Words {
    ghost use Rattle.fit_text.specs.Notation.{Notation as AnyNotation};

    ghost words: { AnyNotation };

    fn words() -> Notation
        ensures words { words_of result ≡ words }
        ensures short { length result.invalid.now ≤ 4 };
}

/// The shown text.
#[derive(Drop)]
pub struct AsText;

impl Words for AsText {
    ghost use Rattle.fit_text.specs.Text.{text_notation};

    ghost words = { text_notation };

    #[inline(always)]
    fn words() -> Notation {
        text_notation()
    }
}

/// JSON with the names of the shown text.
#[derive(Drop)]
pub struct AsJson;

impl Words for AsJson {
    ghost use Rattle.fit_text.specs.Json.{json_notation};

    ghost words = { json_notation };

    #[inline(always)]
    fn words() -> Notation {
        json_notation()
    }
}

/// The words of the shown text.
#[inline(always)]
fn text_notation() -> Notation
    ensures words { words_of result ≡ text_notation }
    ensures short { length result.invalid.now ≤ 4 }
{
    Notation {
        header: b"header ",
        protocol: b" protocol ",
        profile: b" profile ",
        records: b" data ",
        header_end: b"\n",
        count: b"messages ",
        count_end: b"\n",
        between: b"",
        middle: b"",
        end: b"\n",
        empty: true,
        invalid: b"-",
        nothing: b"",
        mark: b"",
        opening: b"",
        closing: b"",
        escape: b"\\x",
        utf8: false,
    }
}

/// The words of JSON.
#[inline(always)]
pub fn json_notation() -> Notation
    ensures words { words_of result ≡ json_notation }
    ensures short { length result.invalid.now ≤ 4 }
{
    Notation {
        header: b"{\"header\":",
        protocol: b",\"protocol\":\"",
        profile: b"\",\"profile\":",
        records: b",\"data\":",
        header_end: b"}\n",
        count: b"{\"messages\":",
        count_end: b"}\n",
        between: b",",
        middle: b"},\"developer\":[",
        end: b"]}\n",
        empty: false,
        invalid: b"null",
        nothing: b"null",
        mark: b"\"",
        opening: b"[",
        closing: b"]",
        escape: b"\\u00",
        utf8: true,
    }
}
