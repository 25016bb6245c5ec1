ghost use Rattle.std.specs.Prelude.{◌≡◌, ◌≢◌, ◌↔◌, ℕ, ℤ, ◌+◌, ◌*◌, ◌-◌, List, [], ◌∷◌, ◌++◌, IsTrue, MatchOption, codes};
ghost use Rattle.gr_text.specs.Fields.{IsFieldByte, IsDigit, Writes, WritesSigned};
ghost use Rattle.gr_text.specs.Word.{AddsField, WordMeans, LineMeans, IsCapped, KeepsNumber, KeepsSigned};

/// What is stored of a field while its bytes come, in constant memory.
///
/// A number above `u64::MAX` is stored as `u64::MAX`. Any such number is past every limit, so its errors stay the same.
/// `Other` is a field that isn't allowed anywhere in a line, whatever bytes follow.
#[derive(Clone, Copy)]
pub(crate) enum Word {
    /// No byte has come.
    Empty,
    /// `p`.
    LetterP,
    /// `a`.
    LetterA,
    /// `s`, which may still become `sp`.
    LetterS,
    /// `sp`.
    Sp,
    /// It begins with `c`, whatever follows.
    Comment,
    /// One or more digits and nothing else.
    Number(u64),
    /// Only a minus sign.
    Minus,
    /// A minus sign and then one or more digits.
    Negative(u64),
    /// Anything else.
    Other,
}

/// What is stored of a number that may have a minus sign.
#[derive(Clone, Copy)]
pub(crate) enum Signed {
    /// Only digits.
    Plus(u64),
    /// A minus sign and then digits.
    Minus(u64),
}

/// What is stored of a line while its fields come, in constant memory.
///
/// `Bad..` is a line whose first field is known, and which is invalid whatever fields follow.
#[derive(Clone, Copy)]
pub(crate) enum LineFields {
    Nothing,
    Comment,
    Unknown,
    Problem,
    ProblemSp,
    ProblemVertices(u64),
    ProblemWhole(u64, u64),
    BadProblem,
    Arc,
    ArcTail(u64),
    ArcEnds(u64, u64),
    ArcWhole(u64, u64, Signed),
    BadArc,
}

fn extended(kept: u64, digit: u8) -> u64
    requires { IsDigit digit }
    ensures { (n : ℕ) → IsCapped kept n → IsCapped result (10 * n + (digit - 48)) }
{
    kept.saturating_mul(10)
        .saturating_add(u64::from(digit - b'0'))
}

impl Word {
    /// Adds a byte, which isn't a blank, to the field. Takes constant time. The case of a digit after another comes
    /// first, because most bytes of a text are such digits.
    #[inline]
    pub(crate) fn with(self, byte: u8) -> Word
        requires { IsFieldByte byte }
        ensures { (bytes : List ℕ) → WordMeans self bytes → WordMeans result (bytes ++ byte ∷ []) }
    {
        if !byte.is_ascii_digit() {
            return self.with_other(byte);
        }
        if let Word::Number(kept) = self {
            return Word::Number(extended(kept, byte));
        }
        self.with_digit(byte)
    }

    #[inline]
    fn with_digit(self, digit: u8) -> Word
        requires { IsDigit digit }
        ensures { (bytes : List ℕ) → WordMeans self bytes → WordMeans result (bytes ++ digit ∷ []) }
    {
        match self {
            Word::Empty => Word::Number(u64::from(digit - b'0')),
            Word::Number(kept) => Word::Number(extended(kept, digit)),
            Word::Minus => Word::Negative(u64::from(digit - b'0')),
            Word::Negative(kept) => Word::Negative(extended(kept, digit)),
            Word::Comment => Word::Comment,
            Word::LetterP | Word::LetterA | Word::LetterS | Word::Sp | Word::Other => Word::Other,
        }
    }

    fn with_other(self, byte: u8) -> Word
        requires { ¬ (IsDigit byte) }
        ensures { (bytes : List ℕ) → WordMeans self bytes → WordMeans result (bytes ++ byte ∷ []) }
    {
        match self {
            Word::Empty => match byte {
                b'p' => Word::LetterP,
                b'a' => Word::LetterA,
                b's' => Word::LetterS,
                b'c' => Word::Comment,
                b'-' => Word::Minus,
                _ => Word::Other,
            },
            Word::LetterS => if byte == b'p' { Word::Sp } else { Word::Other },
            Word::Comment => Word::Comment,
            Word::Number(_) => Word::Other,
            Word::Negative(_) => Word::Other,
            Word::LetterP | Word::LetterA | Word::Sp | Word::Minus | Word::Other => Word::Other,
        }
    }
}

impl Word {
    // Returns the number that the whole field writes.
    #[inline]
    fn as_number(self) -> Option<u64>
        ensures { (field : List ℕ) → WordMeans self field
            → MatchOption result ((n : ℕ) → ¬ (Writes field n)) (λ kept. KeepsNumber kept field) }
    {
        match self {
            Word::Number(kept) => Some(kept),
            Word::Empty
            | Word::LetterP
            | Word::LetterA
            | Word::LetterS
            | Word::Sp
            | Word::Comment
            | Word::Minus
            | Word::Negative(_)
            | Word::Other => None,
        }
    }

    // Returns the signed number that the whole field writes.
    #[inline]
    fn as_signed(self) -> Option<Signed>
        ensures { (field : List ℕ) → WordMeans self field
            → MatchOption result ((z : ℤ) → ¬ (WritesSigned field z)) (λ kept. KeepsSigned kept field) }
    {
        match self {
            Word::Number(kept) => Some(Signed::Plus(kept)),
            Word::Negative(kept) => Some(Signed::Minus(kept)),
            Word::Empty
            | Word::LetterP
            | Word::LetterA
            | Word::LetterS
            | Word::Sp
            | Word::Comment
            | Word::Minus
            | Word::Other => None,
        }
    }

    #[inline]
    fn is_sp(self) -> bool
        ensures { (field : List ℕ) → WordMeans self field → (IsTrue result ↔ (field ≡ codes "sp")) }
    {
        matches!(self, Word::Sp)
    }

    #[inline]
    pub(crate) fn is_empty(self) -> bool
        ensures { (field : List ℕ) → WordMeans self field → (IsTrue result ↔ (field ≡ [])) }
    {
        matches!(self, Word::Empty)
    }
}

impl LineFields {
    // The line that begins with this field.
    fn begun(first: Word) -> LineFields
        ensures { (field : List ℕ) → field ≢ [] → WordMeans first field → LineMeans result (field ∷ []) }
    {
        match first {
            Word::LetterP => LineFields::Problem,
            Word::LetterA => LineFields::Arc,
            Word::Comment => LineFields::Comment,
            Word::Empty
            | Word::LetterS
            | Word::Sp
            | Word::Number(_)
            | Word::Minus
            | Word::Negative(_)
            | Word::Other => LineFields::Unknown,
        }
    }

    /// Adds one more whole field to the line. Takes constant time.
    pub(crate) fn then(self, word: Word) -> LineFields
        ensures { AddsField self word result }
    {
        match self {
            LineFields::Nothing => LineFields::begun(word),
            LineFields::Comment => LineFields::Comment,
            LineFields::Unknown => LineFields::Unknown,
            LineFields::Problem => if word.is_sp() {
                LineFields::ProblemSp
            } else {
                LineFields::BadProblem
            },
            LineFields::ProblemSp => match word.as_number() {
                Some(n) => LineFields::ProblemVertices(n),
                None => LineFields::BadProblem,
            },
            LineFields::ProblemVertices(n) => match word.as_number() {
                Some(m) => LineFields::ProblemWhole(n, m),
                None => LineFields::BadProblem,
            },
            LineFields::ProblemWhole(_, _) => LineFields::BadProblem,
            LineFields::BadProblem => LineFields::BadProblem,
            LineFields::Arc => match word.as_number() {
                Some(u) => LineFields::ArcTail(u),
                None => LineFields::BadArc,
            },
            LineFields::ArcTail(u) => match word.as_number() {
                Some(v) => LineFields::ArcEnds(u, v),
                None => LineFields::BadArc,
            },
            LineFields::ArcEnds(u, v) => match word.as_signed() {
                Some(w) => LineFields::ArcWhole(u, v, w),
                None => LineFields::BadArc,
            },
            LineFields::ArcWhole(_, _, _) => LineFields::BadArc,
            LineFields::BadArc => LineFields::BadArc,
        }
    }
}
