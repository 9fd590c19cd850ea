//! What a reader answers: a value with the place after it, or a fault with its place.
//!
//! Of the bytes `80 80`, read as an integer from place 0, the answer is the fault `Cut` at place 0: the file ends in the integer.

ghost use Rattle.std.specs.Prelude.{◌≡◌};
ghost use Rattle.tokens.specs.Answers.{fault};
ghost use Rattle.tokens.specs.Faults.{number_of};

/// What can be wrong in a file, or in what is asked of one, with the number by which it is told.
#[derive(Clone, Copy, Debug, PartialEq, Eq)]
pub enum FaultKind {
    /// The file has more bytes than a reader takes.
    TooLong = 1,
    /// The file does not begin with the magic bytes.
    NoMagic = 2,
    /// The file ends in a field.
    Cut = 3,
    /// An integer is above the greatest that a file may hold.
    Wide = 4,
    /// A record of a kind that is not carried.
    NotCarried = 5,
    /// A record stands where its kind may not stand.
    OutOfPlace = 6,
    /// The version is another than the one that is read.
    Version = 7,
    /// The unit is not a whole number of at least 1.
    BadUnit = 8,
    /// A reserved bit or value is used.
    Reserved = 9,
    /// A string breaks its rule.
    BadString = 10,
    /// A type or a scheme has a number that means nothing.
    BadType = 11,
    /// A field is absent, and its modal variable has no value.
    Undefined = 12,
    /// A number or a place is out of reach.
    Reach = 13,
    /// A repetition has too many copies.
    Copies = 14,
    /// A point list is not one that its type allows.
    BadList = 15,
    /// Two name records disagree.
    NameConflict = 16,
    /// A reference number has no name.
    NoSuchName = 17,
    /// The END record does not end the file.
    BadEnd = 18,
    /// The checksum is not that of the file.
    Checksum = 19,
    /// A value that no file can give.
    Value = 20,
    /// The rows are too few.
    FewRows = 21,
}

impl FaultKind {
    /// The number by which the fault is told.
    pub fn number(self) -> u8
        ensures numbers { result ≡ number_of self }
    {
        self as u8
    }
}

/// A fault, and the place of the byte that it names.
#[derive(Clone, Copy, Debug, PartialEq, Eq)]
pub struct TokenFault {
    /// What is wrong.
    pub kind: FaultKind,
    /// Where.
    pub place: usize,
}

impl FaultKind {
    /// The fault of this kind at a place.
    pub fn at(self, place: usize) -> TokenFault
        ensures stands { result ≡ record { kind = self; place = place } }
    {
        TokenFault { kind: self, place }
    }
}

impl TokenFault {
    /// The number and the place of the fault, as they are told.
    pub fn told(self) -> (u8, usize)
        ensures tells { result ≡ (number_of self.kind, self.place) }
    {
        (self.kind.number(), self.place)
    }
}

/// What was read, and the place after it.
#[derive(Clone, Copy, Debug, PartialEq, Eq)]
pub struct Read<T> {
    /// The value.
    pub value: T,
    /// The place of the first byte that was not read.
    pub next: usize,
}

impl<T> Read<T> {
    /// What is made of the value, and the same place after it.
    pub fn map<U, F: FnOnce(T) -> U>(self, make: F) -> Read<U>
        requires { F.pre make self.value }
        ensures made { F.post make self.value result.value }
        ensures after { result.next ≡ self.next }
    {
        Read {
            value: make(self.value),
            next: self.next,
        }
    }
}

impl<T: Drop> Read<T> {
    /// Another value, and the same place after it.
    pub fn with<U>(self, value: U) -> Read<U>
        ensures holds { result ≡ record { value = value; next = self.next } }
    {
        let next = self.next;
        Read { value, next }
    }
}

/// The answer of a reader that meets a fault.
pub fn refuse<T>(kind: FaultKind, place: usize) -> Result<Read<T>, TokenFault>
    ensures refuses { result ≡ fault kind place }
{
    Err(kind.at(place))
}
