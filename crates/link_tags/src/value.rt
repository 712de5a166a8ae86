//! Values: numbers with tags.
ghost use Rattle.std.specs.Prelude.{◌≡◌};
ghost use Rattle.link_tags.specs.Values.{plain, link};

/// What a number is.
#[derive(Clone, Copy, Debug, PartialEq, Eq)]
pub enum Tag {
    /// A number that the program may compute with.
    Plain,
    /// An address of code, whose number the program is not told.
    Link,
}

/// A number with its tag, as registers hold it and as aligned words of 8 bytes of memory do.
#[derive(Clone, Copy, Debug, PartialEq, Eq)]
pub struct Value {
    pub number: u64,
    pub tag: Tag,
}

impl Value {
    /// A number that the program may compute with.
    pub fn plain(number: u64) -> Value
        ensures { result ≡ plain number }
    {
        Value {
            number,
            tag: Tag::Plain,
        }
    }

    /// An address of code.
    pub fn link(number: u64) -> Value
        ensures { result ≡ link number }
    {
        Value {
            number,
            tag: Tag::Link,
        }
    }
}
