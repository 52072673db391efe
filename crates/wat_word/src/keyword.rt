ghost use Rattle.std.specs.Prelude.{◌≡◌, ◌≤◌, ◌-◌, map, take, drop, slice_index, Some, true};
ghost use Rattle.std.specs.Char.{to_ascii_lowercase};
ghost use Rattle.wat_word.specs.Words as spec;
ghost use Rattle.wat_word.specs.Words.{is_word};
ghost use Rattle.wat_word.specs.declared.keyword.Keyword.{Keyword};

/// A reserved word: one that the grammar reads as itself, and that is no name.
#[derive(Clone, Copy, Debug, PartialEq, Eq)]
pub enum Keyword {
    And,
    As,
    Asc,
    Between,
    Blocking,
    By,
    Char,
    Checkpoint,
    Commit,
    Count,
    Create,
    Delete,
    Desc,
    Distinct,
    Drop,
    Foreign,
    From,
    Group,
    Having,
    In,
    Index,
    Insert,
    Int,
    Integer,
    Into,
    Is,
    IsolationLevel,
    Key,
    Max,
    Min,
    Not,
    Null,
    Numeric,
    Off,
    On,
    Option,
    Or,
    Order,
    Primary,
    References,
    Release,
    Restrict,
    Rollback,
    Savepoint,
    Select,
    Set,
    Sum,
    Table,
    Temporary,
    To,
    Update,
    Values,
    Varchar,
    Where,
    Work,
}

/// The reserved words, each with its spelling in capitals.
const KEYWORDS: [(&str, Keyword); 55] = [
    ("AND", Keyword::And),
    ("AS", Keyword::As),
    ("ASC", Keyword::Asc),
    ("BETWEEN", Keyword::Between),
    ("BLOCKING", Keyword::Blocking),
    ("BY", Keyword::By),
    ("CHAR", Keyword::Char),
    ("CHECKPOINT", Keyword::Checkpoint),
    ("COMMIT", Keyword::Commit),
    ("COUNT", Keyword::Count),
    ("CREATE", Keyword::Create),
    ("DELETE", Keyword::Delete),
    ("DESC", Keyword::Desc),
    ("DISTINCT", Keyword::Distinct),
    ("DROP", Keyword::Drop),
    ("FOREIGN", Keyword::Foreign),
    ("FROM", Keyword::From),
    ("GROUP", Keyword::Group),
    ("HAVING", Keyword::Having),
    ("IN", Keyword::In),
    ("INDEX", Keyword::Index),
    ("INSERT", Keyword::Insert),
    ("INT", Keyword::Int),
    ("INTEGER", Keyword::Integer),
    ("INTO", Keyword::Into),
    ("IS", Keyword::Is),
    ("ISOLATION_LEVEL", Keyword::IsolationLevel),
    ("KEY", Keyword::Key),
    ("MAX", Keyword::Max),
    ("MIN", Keyword::Min),
    ("NOT", Keyword::Not),
    ("NULL", Keyword::Null),
    ("NUMERIC", Keyword::Numeric),
    ("OFF", Keyword::Off),
    ("ON", Keyword::On),
    ("OPTION", Keyword::Option),
    ("OR", Keyword::Or),
    ("ORDER", Keyword::Order),
    ("PRIMARY", Keyword::Primary),
    ("REFERENCES", Keyword::References),
    ("RELEASE", Keyword::Release),
    ("RESTRICT", Keyword::Restrict),
    ("ROLLBACK", Keyword::Rollback),
    ("SAVEPOINT", Keyword::Savepoint),
    ("SELECT", Keyword::Select),
    ("SET", Keyword::Set),
    ("SUM", Keyword::Sum),
    ("TABLE", Keyword::Table),
    ("TEMPORARY", Keyword::Temporary),
    ("TO", Keyword::To),
    ("UPDATE", Keyword::Update),
    ("VALUES", Keyword::Values),
    ("VARCHAR", Keyword::Varchar),
    ("WHERE", Keyword::Where),
    ("WORK", Keyword::Work),
];

fn same_word(a: &str, b: &str) -> bool
    ensures { result ≡ spec.is_same_word a.now b.now }
{
    a.eq_ignore_ascii_case(b)
}

fn same_keyword(a: Keyword, b: Keyword) -> bool
    ensures { result ≡ spec.is_same_keyword a b }
{
    a == b
}

fn read_by(mut table: &[(&str, Keyword)], text: &str) -> Option<Keyword>
    ensures { result ≡ spec.read_by (map (λ k. (k.0.now, k.1)) table.entry.now) text.now }
{
    while let [entry, rest @ ..] = table {
        if same_word(entry.0, text) {
            return Some(entry.1);
        }
        table = rest;
    }
    None
}

fn spelled_in(mut table: &[(&'static str, Keyword)], keyword: Keyword) -> &'static str
    ensures { result.now ≡ spec.spelled_in (map (λ k. (k.0.now, k.1)) table.entry.now) keyword }
{
    while let [entry, rest @ ..] = table {
        if same_keyword(entry.1, keyword) {
            return entry.0;
        }
        table = rest;
    }
    ""
}

/// Where the words stand in the table that begin with this small letter, or as a capital: from the first place up to the second.
/// For another byte it is the whole table.
fn places(letter: u8) -> (usize, usize)
    ensures places { result ≡ spec.places letter }
    ensures ordered { result.0 ≤ result.1 }
    ensures within { result.1 ≤ 55 }
{
    match letter {
        b'a' => (0, 3),
        b'b' => (3, 6),
        b'c' => (6, 11),
        b'd' => (11, 15),
        b'f' => (15, 17),
        b'g' => (17, 18),
        b'h' => (18, 19),
        b'i' => (19, 27),
        b'k' => (27, 28),
        b'm' => (28, 30),
        b'n' => (30, 33),
        b'o' => (33, 38),
        b'p' => (38, 39),
        b'r' => (39, 43),
        b's' => (43, 47),
        b't' => (47, 50),
        b'u' => (50, 51),
        b'v' => (51, 53),
        b'w' => (53, 55),
        _ => (0, 55),
    }
}

// The first byte, in lower case; 0 where there is none.
fn first_letter(text: &[u8]) -> u8
    ensures { result ≡ to_ascii_lowercase (slice_index text.now 0) }
{
    match text {
        [] => 0,
        [first, ..] => first.to_ascii_lowercase(),
    }
}

fn read_between(from: usize, to: usize, text: &str) -> Option<Keyword>
    requires ordered { from ≤ to }
    requires within { to ≤ 55 }
    ensures { result ≡ spec.read_by (take (to - from) (drop from spec.reserved)) text.now }
{
    read_by(&KEYWORDS[from..to], text)
}

/// The reserved word that the text spells, whatever the case of its letters.
#[tactic(auto, using(crate::proofs::Letters::found_at))]
pub fn keyword_of(text: &str) -> Option<Keyword>
    ensures { result ≡ spec.keyword text.now }
{
    let (from, to) = places(first_letter(text.as_bytes()));
    read_between(from, to, text)
}

impl Keyword {
    /// How the word is spelled, in capitals.
    pub fn spelling(self) -> &'static str
        ensures { result.now ≡ spec.spelling self }
    {
        spelled_in(&KEYWORDS, self)
    }
}

/// Each reserved word is a word, and each spelling is read as its own reserved word.
pub fn reserved_laws()
    ensures words { (w : Keyword) → is_word (spec.spelling w) ≡ true }
    ensures read { (w : Keyword) → spec.keyword (spec.spelling w) ≡ Some w }
{}
