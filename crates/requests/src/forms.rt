// The table of forms: the requests, each with its word, and what stands behind it.
ghost use Rattle.std.specs.Prelude.{◌≡◌};
ghost use Rattle.requests.specs.Forms.{form, once, again, anywhere, in_memory, word_of, form_of, size_of, index_in, place_in, place_at, is_whole};

// What a line asks: a form of the table, nothing (a blank line or a comment), or what is no line of the table.
#[derive(Clone, Copy, PartialEq, Eq)]
pub enum Request {
    Nothing,
    Malformed,
    Open,
    Offer,
    Ask,
    Back,
    Status,
    Stretch,
    Lend,
    Restore,
    Poke,
    Bytes,
    Gaps,
    Burst,
}

// What stands behind a request's word: how many kinds, and behind them how many numbers of 64, 32, 16 and 8 bits; whether these come again
// and again; and whether the form stands where the journal is a file.
#[derive(Clone, Copy)]
pub struct Form {
    pub kinds: u8,
    pub longs: u8,
    pub words: u8,
    pub halves: u8,
    pub bytes: u8,
    pub again: bool,
    pub in_file: bool,
}

// A place of a form: a kind's name or any number may stand there, or a number up to a most.
#[derive(Drop)]
pub enum Place {
    Kind,
    UpTo(u64),
}

impl Request {
    // Those that a line's first word can name.
    pub const NAMED: [Request; 13] = [
        Request::Malformed,
        Request::Open,
        Request::Offer,
        Request::Ask,
        Request::Back,
        Request::Status,
        Request::Stretch,
        Request::Lend,
        Request::Restore,
        Request::Poke,
        Request::Bytes,
        Request::Gaps,
        Request::Burst,
    ];

    #[tactic(auto, unfolding(crate::specs::Forms::word_of, text::specs::Text::text))]
    pub fn word(self) -> &'static [u8]
        ensures { result.now ≡ word_of self }
    {
        match self {
            Request::Nothing => b"",
            Request::Malformed => b"?",
            Request::Open => b"open",
            Request::Offer => b"offer",
            Request::Ask => b"ask",
            Request::Back => b"back",
            Request::Status => b"status",
            Request::Stretch => b"stretch",
            Request::Lend => b"lend",
            Request::Restore => b"restore",
            Request::Poke => b"poke",
            Request::Bytes => b"bytes",
            Request::Gaps => b"gaps",
            Request::Burst => b"burst",
        }
    }

    #[tactic(auto, unfolding(crate::specs::Forms::form_of))]
    pub fn form(self) -> Form
        ensures { result ≡ form_of self }
    {
        match self {
            Request::Nothing => Form::of(0, 0, 0, 0, 0),
            Request::Malformed => Form::of(0, 0, 0, 0, 0),
            Request::Open => Form::of(0, 3, 1, 20, 0),
            Request::Offer => Form::of(1, 3, 0, 0, 0),
            Request::Ask => Form::of(1, 2, 0, 0, 0),
            Request::Back => Form::of(0, 0, 0, 0, 0),
            Request::Status => Form::of(0, 0, 0, 0, 0),
            Request::Stretch => Form::of(0, 0, 0, 0, 0),
            Request::Lend => Form::of(0, 1, 0, 0, 0),
            Request::Restore => Form::of(0, 1, 0, 0, 0).in_memory(),
            Request::Poke => Form::of(0, 1, 0, 0, 1).in_memory(),
            Request::Bytes => Form::of(0, 2, 0, 0, 0),
            Request::Gaps => Form::of(0, 21, 0, 0, 0),
            Request::Burst => Form::of(1, 3, 0, 0, 0).again(),
        }
    }
}

impl Form {
    // Stands once, wherever the journal is.
    fn of(kinds: u8, longs: u8, words: u8, halves: u8, bytes: u8) -> Form
        ensures { result ≡ form kinds longs words halves bytes once anywhere }
    {
        Form {
            kinds,
            longs,
            words,
            halves,
            bytes,
            again: false,
            in_file: true,
        }
    }

    fn again(self) -> Form
        ensures { result ≡ form self.kinds self.longs self.words self.halves self.bytes again self.in_file }
    {
        Form {
            again: true,
            ..self
        }
    }

    fn in_memory(self) -> Form
        ensures { result ≡ form self.kinds self.longs self.words self.halves self.bytes self.again in_memory }
    {
        Form {
            in_file: false,
            ..self
        }
    }

    fn size(self) -> usize
        ensures { result ≡ size_of self }
    {
        usize::from(self.kinds)
            + usize::from(self.longs)
            + usize::from(self.words)
            + usize::from(self.halves)
            + usize::from(self.bytes)
    }

    #[tactic(auto, unfolding(crate::specs::Forms::place_in))]
    fn place_in(self, i: usize) -> Place
        ensures { result ≡ place_in self i }
    {
        let kinds = usize::from(self.kinds);
        if i < kinds {
            return Place::Kind;
        }
        let longs = kinds + usize::from(self.longs);
        if i < longs {
            return Place::UpTo(u64::MAX);
        }
        let words = longs + usize::from(self.words);
        if i < words {
            return Place::UpTo(u64::from(u32::MAX));
        }
        if i < words + usize::from(self.halves) {
            return Place::UpTo(u64::from(u16::MAX));
        }
        Place::UpTo(u64::from(u8::MAX))
    }

    // Of places that come again, the one in its group.
    #[tactic(auto, unfolding(crate::specs::Forms::index_in))]
    fn index_in(self, i: usize) -> usize
        ensures { result ≡ index_in self i }
    {
        let size = self.size();
        if self.again && size != 0 { i % size } else { i }
    }

    #[tactic(auto, unfolding(crate::specs::Forms::place_at))]
    pub fn place_at(self, i: usize) -> Place
        ensures { result ≡ place_at self i }
    {
        self.place_in(self.index_in(i))
    }

    // Whether so many numbers fill the places once, or in whole groups.
    #[tactic(auto, unfolding(crate::specs::Forms::is_whole))]
    pub fn is_whole(self, count: usize) -> bool
        ensures { result ≡ is_whole self count }
    {
        let filled = if self.again { 0 } else { self.size() };
        self.index_in(count) == filled
    }
}
