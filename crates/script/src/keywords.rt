ghost use Rattle.std.specs.Prelude.{◌≡◌, map};
ghost use Rattle.script.specs.Keywords.{call_of, keyword_of, keyword_spelling};

use crate::calls::Name;
use crate::faults::Fault;
use machine::Call;

/// The first word of a line, by which it is a call's, or says something of the board or the policy.
#[derive(Clone, Copy)]
pub(crate) enum Keyword {
    Bearer,
    Policy,
    Call(Name),
}

const KEYWORDS: [Keyword; 10] = [
    Keyword::Bearer,
    Keyword::Policy,
    Keyword::Call(Name::Configure),
    Keyword::Call(Name::Arrive),
    Keyword::Call(Name::Step),
    Keyword::Call(Name::Work),
    Keyword::Call(Name::Fetch),
    Keyword::Call(Name::Finish),
    Keyword::Call(Name::Discard),
    Keyword::Call(Name::Tell),
];

impl Keyword {
    fn text(self) -> &'static str
        ensures value { result.now ≡ keyword_spelling self }
    {
        match self {
            Keyword::Bearer => "bearer",
            Keyword::Policy => "policy",
            Keyword::Call(name) => name.text(),
        }
    }

    pub(crate) fn of(word: &[u8]) -> Option<Keyword>
        ensures value { result ≡ keyword_of word.now }
    {
        // Not a match: of an arm of bytes the check knows the length alone.
        KEYWORDS
            .iter()
            .find(|keyword| keyword.text().as_bytes() == word)
            .copied()
    }
}

/// The call that the words of a line ask for, if there are any.
pub(crate) fn call_of(words: &[&[u8]]) -> Result<Option<Call>, Fault>
    ensures value { result ≡ call_of (map (λ w. w.now) words.now) }
{
    let [word, numbers @ ..] = words else {
        return Ok(None);
    };
    match Keyword::of(word).ok_or(Fault::UnknownCall)? {
        Keyword::Bearer | Keyword::Policy => Err(Fault::OutOfPlace),
        Keyword::Call(name) => name.call(numbers).map(Some),
    }
}
