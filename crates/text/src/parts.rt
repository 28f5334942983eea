ghost use Rattle.text.specs.Parts.{Cut};

// Bytes before and after a separator.
#[derive(Clone, Copy, Debug, PartialEq, Eq)]
pub struct Parts<'a> {
    pub before: &'a [u8],
    pub after: &'a [u8],
}

// The bytes cut at the first separator, or nothing where there is none.
// std has a `split_once` of a text, which these bytes need not be, and none of a slice. `bstr` has one, which says where it cuts by the list of all
// matches: `Cut` would have to be proved of that list, and the code is no plainer.
pub fn cut<'a>(bytes: &'a [u8], separator: u8) -> Option<Parts<'a>>
    ensures { Cut separator bytes.now result }
{
    let at = bytes.iter().position(|b| *b == separator)?;
    Some(Parts {
        before: &bytes[..at],
        after: &bytes[at + 1..],
    })
}
